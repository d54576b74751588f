// The members of a rack in memory, by their numbers.
ghost use Rattle.std.specs.Prelude.{◌≡◌, ◌≢◌, ◌⊎◌, ◌↔◌, ◌+◌, ◌-◌, ◌≤◌, ◌<◌, ◌++◌, [], ℕ, true, false, length, replicate, slice_get, OnOk, OnErr, IfOk, IsErr, All};
ghost use Rattle.dg_io.specs.Racks.{bytes_of, room_of, is_there};
ghost use Rattle.dg_io.specs.Told.{patch, Reads};

use crate::members::MemMember;
use crate::{Failed, NoMemory};
use std::alloc::Global;

/// Empty members, each with room for so many bytes.
pub fn empty_members(alloc: Global, count: u8, room: u64) -> Result<Vec<MemMember>, NoMemory>
    ensures count { IfOk result (λ all. length all.items ≡ count) }
    ensures empty { IfOk result (λ all. (q : ℕ) → bytes_of (slice_get all.items q) ≡ []) }
    ensures room { IfOk result (λ all. (q : ℕ) → q < count → room_of (slice_get all.items q) ≡ room) }
    ensures there { IfOk result (λ all. (q : ℕ) → q < count → is_there (slice_get all.items q) ≡ true) }
{
    let mut all = Vec::new(alloc);
    while all.len() < count as usize {
        let member = MemMember::new(alloc, room as usize)?;
        if all.push(member).is_err() {
            return Err(NoMemory);
        }
    }
    Ok(all)
}

/// Makes a member anew, of so many zeros.
pub fn blank_at(members: &mut Vec<MemMember>, at: u8, size: u64) -> Result<(), Failed>
    ensures fails { IsErr result ↔ ((length members.old.items ≤ at) ⊎ (room_of (slice_get members.old.items at) < size)) }
    ensures ok { OnOk result (bytes_of (slice_get members.new.items at) ≡ replicate size 0) }
    ensures there { OnOk result (is_there (slice_get members.new.items at) ≡ true) }
    ensures err { OnErr result (members.new.items ≡ members.old.items) }
    ensures others { (q : ℕ) → q ≢ at → slice_get members.new.items q ≡ slice_get members.old.items q }
    ensures count { length members.new.items ≡ length members.old.items }
    ensures room { (q : ℕ) → room_of (slice_get members.new.items q) ≡ room_of (slice_get members.old.items q) }
{
    match members.get_mut(at as usize) {
        Some(member) => member.blank(size),
        None => Err(Failed),
    }
}

/// Reads from a member at a place.
pub fn read_at(members: &[MemMember], at: u8, place: u64, buf: &mut [u8]) -> Result<(), Failed>
    requires { place + length buf.old ≤ length (bytes_of (slice_get members.now at)) }
    ensures fails { IsErr result ↔ (is_there (slice_get members.now at) ≡ false) }
    ensures ok { OnOk result (Reads place buf.new (bytes_of (slice_get members.now at)) (bytes_of (slice_get members.now at))) }
{
    match members.get(at as usize) {
        Some(member) => member.read(place, buf),
        None => Err(Failed),
    }
}

/// Writes to a member at a place.
pub fn write_at(
    members: &mut Vec<MemMember>,
    at: u8,
    place: u64,
    piece: &[u8],
) -> Result<(), Failed>
    requires { place + length piece.now ≤ length (bytes_of (slice_get members.old.items at)) }
    ensures fails { IsErr result ↔ (is_there (slice_get members.old.items at) ≡ false) }
    ensures ok { OnOk result (bytes_of (slice_get members.new.items at) ≡ patch (bytes_of (slice_get members.old.items at)) place piece.now) }
    ensures there { (q : ℕ) → is_there (slice_get members.new.items q) ≡ is_there (slice_get members.old.items q) }
    ensures err { OnErr result (members.new.items ≡ members.old.items) }
    ensures others { (q : ℕ) → q ≢ at → slice_get members.new.items q ≡ slice_get members.old.items q }
    ensures count { length members.new.items ≡ length members.old.items }
    ensures room { (q : ℕ) → room_of (slice_get members.new.items q) ≡ room_of (slice_get members.old.items q) }
{
    match members.get_mut(at as usize) {
        Some(member) => member.write(place, piece),
        None => Err(Failed),
    }
}

/// Puts zeros at a member's end, up to so many bytes.
pub fn extend_at(members: &mut Vec<MemMember>, at: u8, size: u64) -> Result<(), Failed>
    requires { length (bytes_of (slice_get members.old.items at)) ≤ size }
    ensures fails { IsErr result ↔ ((is_there (slice_get members.old.items at) ≡ false) ⊎ (room_of (slice_get members.old.items at) < size)) }
    ensures ok { OnOk result (bytes_of (slice_get members.new.items at)
        ≡ bytes_of (slice_get members.old.items at) ++ replicate (size - length (bytes_of (slice_get members.old.items at))) 0) }
    ensures there { (q : ℕ) → is_there (slice_get members.new.items q) ≡ is_there (slice_get members.old.items q) }
    ensures err { OnErr result (members.new.items ≡ members.old.items) }
    ensures others { (q : ℕ) → q ≢ at → slice_get members.new.items q ≡ slice_get members.old.items q }
    ensures count { length members.new.items ≡ length members.old.items }
    ensures room { (q : ℕ) → room_of (slice_get members.new.items q) ≡ room_of (slice_get members.old.items q) }
{
    match members.get_mut(at as usize) {
        Some(member) => member.extend(size),
        None => Err(Failed),
    }
}
