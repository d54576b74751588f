// What a double rack keeps in memory of its members.
ghost use Rattle.std.specs.Prelude.{◌≡◌, ◌≢◌, ◌≤◌, ◌<◌, ◌^◌, ◌⊎◌, ◌↔◌, ℕ, length, replicate, slice_get, IfNone, IfSome, IsErr, IsFalse, OnErr, OnOk};
ghost use Rattle.dg_stop.specs.Doubles.{Falls, IsTooLong, Joins, Lays, Loses, most_of};
ghost use Rattle.dg_stop.specs.Layouts.{bits_of};
ghost use Rattle.dg_stop.specs.Phases.{bits_in, size_in};

use crate::flags::{clear_flag, set_flag};
use crate::phases::MEMBERS;
use crate::places::Places;
use dg_io::Failed;

/// What is kept in memory of the members.
#[derive(Drop)]
pub struct Memory {
    /// Where the pages of each member stand now, and where they stood in the last commit.
    pub current: Vec<Places>,
    pub last: Vec<Places>,
    /// It was blanked or opened, and no call on it has failed since.
    pub stands: [bool; MEMBERS],
    /// It was blanked or opened, and no blank of it has failed since.
    pub known: [bool; MEMBERS],
    /// A call on it has failed, and it wasn't blanked since.
    pub fell: [bool; MEMBERS],
    /// Room for extra bytes on each member.
    pub room: u32,
    /// The last commit, and the greatest sequence that was seen.
    pub commit: u64,
    pub top: u64,
}

/// The most bytes that a member may have, if there is one.
fn most_at(all: &[Places], member: u8) -> Option<u64>
    ensures some { IfSome result (λ most. (member < length all.now) × (most ≡ most_of (slice_get all.now member))) }
    ensures none { IfNone result (length all.now ≤ member) }
{
    Some(all.get(member as usize)?.most)
}

/// The member has so many bytes, whose pages stand in their first places.
fn blank_at(all: &mut Vec<Places>, member: u8, size: u64) -> Result<(), Failed>
    ensures fails { IsErr result ↔ ((length all.old.items ≤ member) ⊎ (most_of (slice_get all.old.items member) < size)) }
    ensures size { OnOk result (size_in all.new.items member ≡ size) }
    ensures small { OnOk result (size < 2 ^ 48) }
    ensures bits { OnOk result (bits_in all.new.items member ≡ replicate (bits_of size) 0) }
    ensures others { (q : ℕ) → q ≢ member → slice_get all.new.items q ≡ slice_get all.old.items q }
    ensures count { length all.new.items ≡ length all.old.items }
    ensures err { OnErr result (all.new.items ≡ all.old.items) }
{
    match all.get_mut(member as usize) {
        Some(held) => held.blank(size),
        None => Err(Failed),
    }
}

impl Memory {
    /// Whether there is memory for a member of so many bytes.
    fn has_room(&self, member: u8, size: u64) -> bool
        ensures { IsFalse result ↔ IsTooLong self.now member size }
    {
        match (most_at(&self.current, member), most_at(&self.last, member)) {
            (Some(now), Some(last)) => size <= now && size <= last,
            _ => false,
        }
    }

    /// A member of so many bytes, whose pages stand in their first places.
    pub fn lay(&mut self, member: u8, size: u64) -> Result<(), Failed>
        ensures fails { IsErr result ↔ IsTooLong self.old member size }
        ensures lays { OnOk result (Lays member size self.old self.new) }
        ensures err { OnErr result (self.new ≡ self.old) }
    {
        if !self.has_room(member, size) {
            return Err(Failed);
        }
        blank_at(&mut self.current, member, size)?;
        blank_at(&mut self.last, member, size)
    }

    /// The member stands, and is known.
    pub fn join(&mut self, member: u8)
        requires { member < 32 }
        ensures { Joins member self.old self.new }
    {
        set_flag(&mut self.stands, member);
        set_flag(&mut self.known, member);
        clear_flag(&mut self.fell, member);
    }

    /// The member stands no more.
    pub fn fall(&mut self, member: u8)
        ensures { Falls member self.old self.new }
    {
        clear_flag(&mut self.stands, member);
        if member < MEMBERS as u8 {
            set_flag(&mut self.fell, member);
        }
    }

    /// The member stands no more, and isn't known.
    pub fn lose(&mut self, member: u8)
        ensures { Loses member self.old self.new }
    {
        clear_flag(&mut self.known, member);
        self.fall(member);
    }
}

/// The bytes of a member, or none where there is no such one.
pub fn size_at(all: &[Places], member: u8) -> u64
    ensures { result ≡ size_in all.now member }
{
    match all.get(member as usize) {
        Some(held) => held.size,
        None => 0,
    }
}

/// Where the pages of a member stand, or no bits where there is no such one.
pub fn bits_at(all: &[Places], member: u8) -> &[u8]
    ensures { result.now ≡ bits_in all.now member }
{
    match all.get(member as usize) {
        Some(held) => &held.bits,
        None => &[],
    }
}
