// Calls on a member of a double rack: what they do to the rack behind, and to what is kept in memory.
ghost use Rattle.std.specs.Prelude.{◌≡◌, ◌≢◌, ◌+◌, ◌^◌, ◌<◌, ◌≤◌, ◌↔◌, ℕ, true, false, length, slice_get, None, IfOk, IfSome, IsErr, IsTrue, OnErr, OnOk};
ghost use Rattle.dg_io.specs.Makes.{Makes};
ghost use Rattle.dg_io.specs.RackCalls.{RackCall};
ghost use Rattle.dg_io.specs.Told.{Told, IsSame, IsZeros, Patched, Reads, Torn};
ghost use Rattle.dg_stop.specs.Behind.{MostCalls, pages_on, parts_on};
ghost use Rattle.dg_stop.specs.Doubles.{AreHeld, Falls, IsDue, IsTooLong, KeepsOthers, KeepsStill, Steps, fell_in, last_in, now_in, seen_in, sizes_in, stands_in};
ghost use Rattle.dg_stop.specs.Layouts.{bit_in, double_size, table_size};
ghost use Rattle.dg_stop.specs.Pages.{PutsPiece, TearsPiece, TornPages};
ghost use Rattle.dg_stop.specs.Phases.{Sized, bits_in, size_in};
ghost use Rattle.dg_stop.specs.Serving.{IsOn, Serves};

use crate::commits::table_len;
use crate::flags::has_flag;
use crate::headers::PAGE;
use crate::memories::{Memory, bits_at, size_at};
use crate::page_calls::{read_pages, write_pages};
use crate::places::Places;
use dg_io::{Failed, Rack};

/// Bytes of a double member.
pub fn double_len(size: u64, room: u32) -> u64
    requires { size < 2 ^ 48 }
    ensures { result ≡ double_size size room }
{
    let page = PAGE as u64;
    2 * page + 2 * table_len(size, room) + 2 * page * ((size + page - 1) / page)
}

/// Whether so many bytes at a place end inside a member.
fn is_inside(place: u64, count: usize, size: u64) -> bool
    ensures { IsTrue result ↔ (place + count ≤ size) }
{
    count as u64 <= size && place <= size - count as u64
}

/// Reads from a standing member. Where that fails it falls.
pub fn read_member<R: Rack>(
    rack: &mut R,
    memory: &mut Memory,
    member: u8,
    place: u64,
    buf: &mut [u8],
) -> Result<(), Failed>
    requires held { AreHeld R.Rack memory.old rack.old }
    requires stands { stands_in memory.old member ≡ true }
    ensures calls { MostCalls R.Rack (pages_on place (length buf.old)) rack.old rack.new }
    ensures steps { Steps R.Rack (RackCall.calls member) member result memory.old memory.new rack.old rack.new }
    ensures keeps { KeepsStill R.Rack memory.old memory.new rack.old rack.new }
    ensures same { Told IsSame (seen_in memory.old member (R.bytes rack.old member)) (seen_in memory.new member (R.bytes rack.new member)) }
    ensures ok { OnOk result (Told (Reads place buf.new)
        (seen_in memory.old member (R.bytes rack.old member)) (seen_in memory.new member (R.bytes rack.new member))) }
    ensures due { OnErr result (IsDue R.Rack member (sizes_in memory.old member < place + length buf.old) rack.old rack.new) }
{
    let size = size_at(&memory.current, member);
    if !is_inside(place, buf.len(), size) {
        memory.fall(member);
        return Err(Failed);
    }
    let bits = bits_at(&memory.current, member);
    match read_pages(rack, member, size, bits, memory.room, place, buf) {
        Ok(()) => Ok(()),
        Err(_) => {
            memory.fall(member);
            Err(Failed)
        }
    }
}

/// Writes bytes of a member that is there, page by page.
fn write_at<R: Rack>(
    rack: &mut R,
    current: &mut Vec<Places>,
    last: &[Places],
    room: u32,
    member: u8,
    place: u64,
    piece: &[u8],
) -> Result<(), Failed>
    requires sized { Sized R.Rack current.old.items room member rack.old }
    requires range { place + length piece.now ≤ size_in current.old.items member }
    ensures calls { MostCalls R.Rack (pages_on place (length piece.now)
        + parts_on (bit_in (bits_in current.old.items member)) (bit_in (bits_in last.now member)) place (length piece.now)) rack.old rack.new }
    ensures made { Makes R.Rack (IsOn member) rack.old rack.new }
    ensures serves { Serves R.Rack member result rack.old rack.new }
    ensures others { (q : ℕ) → q ≢ member → slice_get current.new.items q ≡ slice_get current.old.items q }
    ensures count { length current.new.items ≡ length current.old.items }
    ensures size { size_in current.new.items member ≡ size_in current.old.items member }
    ensures length { length (bits_in current.new.items member) ≡ length (bits_in current.old.items member) }
    ensures pages { Told (TornPages (table_size (size_in current.old.items member) room) (size_in current.old.items member) (bit_in (bits_in last.now member)))
        (R.bytes rack.old member) (R.bytes rack.new member) }
    ensures done { OnOk result (Told (PutsPiece (table_size (size_in current.old.items member) room) (size_in current.old.items member)
        (bit_in (bits_in current.old.items member)) (bit_in (bits_in current.new.items member)) place piece.now)
        (R.bytes rack.old member) (R.bytes rack.new member)) }
    ensures torn { OnErr result (Told (TearsPiece (table_size (size_in current.old.items member) room) (size_in current.old.items member)
        (bit_in (bits_in current.old.items member)) (bit_in (bits_in current.new.items member)) place (length piece.now))
        (R.bytes rack.old member) (R.bytes rack.new member)) }
{
    let last = bits_at(last, member);
    match current.get_mut(member as usize) {
        Some(now) => write_pages(rack, member, now, last, room, place, piece),
        None => Err(Failed),
    }
}

/// Writes to a standing member. Where that fails it falls.
pub fn write_member<R: Rack>(
    rack: &mut R,
    memory: &mut Memory,
    member: u8,
    place: u64,
    piece: &[u8],
) -> Result<(), Failed>
    requires held { AreHeld R.Rack memory.old rack.old }
    requires stands { stands_in memory.old member ≡ true }
    ensures calls { MostCalls R.Rack (pages_on place (length piece.now)
        + parts_on (now_in memory.old member) (last_in memory.old member) place (length piece.now)) rack.old rack.new }
    ensures steps { Steps R.Rack (RackCall.calls member) member result memory.old memory.new rack.old rack.new }
    ensures keeps { KeepsStill R.Rack memory.old memory.new rack.old rack.new }
    ensures ok { OnOk result (Told (Patched place piece.now)
        (seen_in memory.old member (R.bytes rack.old member)) (seen_in memory.new member (R.bytes rack.new member))) }
    ensures err { OnErr result (Told (Torn place (length piece.now))
        (seen_in memory.old member (R.bytes rack.old member)) (seen_in memory.new member (R.bytes rack.new member))) }
    ensures due { OnErr result (IsDue R.Rack member (sizes_in memory.old member < place + length piece.now) rack.old rack.new) }
{
    if !is_inside(place, piece.len(), size_at(&memory.current, member)) {
        memory.fall(member);
        return Err(Failed);
    }
    match write_at(
        rack,
        &mut memory.current,
        &memory.last,
        memory.room,
        member,
        place,
        piece,
    ) {
        Ok(()) => Ok(()),
        Err(_) => {
            memory.fall(member);
            Err(Failed)
        }
    }
}

/// Makes a member anew, of so many zero bytes. Where that fails it stands no more, and isn't known.
pub fn blank_member<R: Rack>(
    rack: &mut R,
    memory: &mut Memory,
    member: u8,
    size: u64,
) -> Result<(), Failed>
    requires held { AreHeld R.Rack memory.old rack.old }
    ensures calls { MostCalls R.Rack 1 rack.old rack.new }
    ensures steps { Steps R.Rack (RackCall.blanks member) member result memory.old memory.new rack.old rack.new }
    ensures keeps { KeepsOthers R.Rack member memory.old memory.new rack.old rack.new }
    ensures ok { OnOk result (Told (IsZeros size) (seen_in memory.old member (R.bytes rack.old member)) (seen_in memory.new member (R.bytes rack.new member))) }
    ensures stands { OnOk result (stands_in memory.new member ≡ true) }
    ensures due { OnErr result (IsDue R.Rack member (IsTooLong memory.old member size) rack.old rack.new) }
{
    match memory.lay(member, size) {
        Err(_) => {
            memory.lose(member);
            Err(Failed)
        }
        Ok(()) => match rack.blank(member, double_len(size, memory.room)) {
            Ok(()) => {
                memory.join(member);
                Ok(())
            }
            Err(_) => {
                memory.lose(member);
                Err(Failed)
            }
        },
    }
}

/// The length of a member that stands, or `None` of one that was never there.
pub fn find_member(memory: &Memory, member: u8) -> Result<Option<u64>, Failed>
    ensures found { IfOk result (λ found. IfSome found (λ n. (stands_in memory.now member ≡ true) × (n ≡ sizes_in memory.now member))) }
    ensures absent { IfOk result (λ found. found ≡ None → (stands_in memory.now member ≡ false) × (fell_in memory.now member ≡ false)) }
    ensures err { OnErr result ((stands_in memory.now member ≡ false) × (fell_in memory.now member ≡ true)) }
{
    if has_flag(&memory.stands, member) {
        return Ok(Some(size_at(&memory.current, member)));
    }
    if has_flag(&memory.fell, member) {
        return Err(Failed);
    }
    Ok(None)
}

/// A member has its length for good: one that is to have more falls.
pub fn extend_member(memory: &mut Memory, member: u8, size: u64) -> Result<(), Failed>
    ensures ok { OnOk result (memory.new ≡ memory.old) }
    ensures err { OnErr result (Falls member memory.old memory.new) }
    ensures fails { IsErr result ↔ (sizes_in memory.old member < size) }
{
    if size <= size_at(&memory.current, member) {
        return Ok(());
    }
    memory.fall(member);
    Err(Failed)
}
