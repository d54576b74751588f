// What is kept in memory of the members that an opening attaches.
ghost use Rattle.std.specs.Prelude.{◌≡◌, ◌&&◌, ◌||◌, ◌<◌, ℕ, [], length, not, slice_get, true, is_some, IfOk, Some};
ghost use Rattle.dg_stop.specs.DoubleCommits.{fell_now};
ghost use Rattle.dg_stop.specs.DoubleOpenings.{AreCopied, Attaches, AttachesAll, AttachesNone, IsCopyOf, is_prepared};
ghost use Rattle.dg_stop.specs.Layouts.{bits_of};
ghost use Rattle.dg_stop.specs.Phases.{CanPrepare, Sized, flag_in};
ghost use Rattle.dg_stop.specs.Readings.{HasRead};
ghost use Rattle.dg_stop.specs.Tables.{head_at};

use crate::flags::has_flag;
use crate::headers::Header;
use crate::marks::fell_at;
use crate::memories::Memory;
use crate::phases::{MEMBERS, finish_all};
use crate::places::Places;
use crate::readings::{Attached, Reading};
use crate::tables::{Heads, add, head_of};
use dg_io::{NoMemory, Rack};
use std::alloc::Global;

/// Where the pages of a member stand, once more.
fn copy_places(alloc: Global, held: &Places) -> Result<Places, NoMemory>
    requires { length held.now.bits.items ≡ bits_of held.now.size }
    ensures { IfOk result (IsCopyOf (Some held.now)) }
{
    let mut copy = Places::new(alloc, held.most)?;
    if copy.blank(held.size).is_err() {
        return Err(NoMemory);
    }
    copy.follow(&held.bits);
    Ok(copy)
}

fn copy_at(alloc: Global, all: &[Places], member: u8) -> Result<Places, NoMemory>
    requires { (held : Places) → slice_get all.now member ≡ Some held → length held.bits.items ≡ bits_of held.size }
    ensures { IfOk result (IsCopyOf (slice_get all.now member)) }
{
    match all.get(member as usize) {
        Some(held) => copy_places(alloc, held),
        None => Places::new(alloc, 0),
    }
}

/// Where the pages of all members stand, once more.
fn copy_all(alloc: Global, all: &[Places]) -> Result<Vec<Places>, NoMemory>
    requires count { length all.now ≡ 32 }
    requires whole { (q : ℕ) (held : Places) → slice_get all.now q ≡ Some held → length held.bits.items ≡ bits_of held.size }
    ensures { IfOk result (λ copies. AreCopied all.now copies.items) }
{
    let mut copies = Vec::new(alloc);
    for member in 0..MEMBERS as u8 {
        let copy = copy_at(alloc, all, member)?;
        add(&mut copies, copy)?;
    }
    Ok(copies)
}

/// Whether the header by which a member is attached is only prepared.
fn is_unfinished(head: Option<Header>) -> bool
    ensures { result ≡ is_prepared head }
{
    match head {
        Some(header) => !header.committed,
        None => false,
    }
}

/// The members that are attached by a header that is only prepared.
fn prepared_of(heads: &Heads) -> [bool; MEMBERS]
    ensures { (q : ℕ) → flag_in result q ≡ is_prepared (head_at heads.now q) }
{
    let mut flags = [false; MEMBERS];
    for member in 0..MEMBERS as u8 {
        flags[member as usize] = is_unfinished(head_of(heads, member));
    }
    flags
}

fn stands_at(heads: &Heads, served: &[bool; MEMBERS], serves: &[bool; MEMBERS], member: u8) -> bool
    ensures { result ≡ (is_some (head_at heads.now member) && not (fell_now served.now serves.now member)) }
{
    head_of(heads, member).is_some() && !fell_at(served, serves, member)
}

/// The members that are attached and didn't fall.
fn standing_of(heads: &Heads, served: &[bool; MEMBERS], serves: &[bool; MEMBERS]) -> [bool; MEMBERS]
    ensures { (q : ℕ) → flag_in result q ≡ (is_some (head_at heads.now q) && not (fell_now served.now serves.now q)) }
{
    let mut flags = [false; MEMBERS];
    for member in 0..MEMBERS as u8 {
        flags[member as usize] = stands_at(heads, served, serves, member);
    }
    flags
}

fn is_fallen_at(
    failed: &[bool; MEMBERS],
    served: &[bool; MEMBERS],
    serves: &[bool; MEMBERS],
    member: u8,
) -> bool
    ensures { result ≡ (flag_in failed.now member || fell_now served.now serves.now member) }
{
    has_flag(failed, member) || fell_at(served, serves, member)
}

/// The members on which a call failed.
fn fallen_of(
    failed: &[bool; MEMBERS],
    served: &[bool; MEMBERS],
    serves: &[bool; MEMBERS],
) -> [bool; MEMBERS]
    ensures fell { (q : ℕ) → q < 32 → flag_in result q ≡ (flag_in failed.now q || fell_now served.now serves.now q) }
    ensures low { (q : ℕ) → flag_in result q ≡ true → q < 32 }
{
    let mut flags = [false; MEMBERS];
    for member in 0..MEMBERS as u8 {
        flags[member as usize] = is_fallen_at(failed, served, serves, member);
    }
    flags
}

/// Writes the committed header on each attached member that has it only prepared, and makes what is kept in memory of the members. A member
/// on which that fails stands no more.
pub fn attach_all<R: Rack>(
    alloc: Global,
    rack: &mut R,
    known: &[bool; MEMBERS],
    failed: &[bool; MEMBERS],
    top: u64,
    attached: Attached,
) -> Result<(Memory, Vec<u8>), NoMemory>
    requires can { CanPrepare attached.lead.sequence attached.lead.room attached.extra.items }
    requires sized { (q : ℕ) → is_prepared (head_at attached.heads q) ≡ true → Sized R.Rack attached.places.items attached.lead.room q rack.old }
    requires count { length attached.places.items ≡ 32 }
    requires whole { (q : ℕ) (held : Places) → slice_get attached.places.items q ≡ Some held → length held.bits.items ≡ bits_of held.size }
    ensures attaches { IfOk result (λ made. Attaches R.Rack known.now failed.now top attached made.0 rack.old rack.new) }
    ensures extra { IfOk result (λ made. made.1 ≡ attached.extra) }
{
    let Attached {
        lead,
        heads,
        places,
        extra,
        ..
    } = attached;
    let last = copy_all(alloc, &places)?;
    let served = prepared_of(&heads);
    let mut serves = served;
    finish_all(rack, &places, lead.sequence, lead.room, &extra, &mut serves);
    let memory = Memory {
        current: places,
        last,
        stands: standing_of(&heads, &served, &serves),
        known: *known,
        fell: fallen_of(failed, &served, &serves),
        room: lead.room,
        commit: lead.sequence,
        top,
    };
    Ok((memory, extra))
}

/// What is kept in memory where no member is attached.
pub fn attach_none(
    alloc: Global,
    known: &[bool; MEMBERS],
    failed: &[bool; MEMBERS],
    top: u64,
) -> Result<Memory, NoMemory>
    ensures { IfOk result (AttachesNone known.now failed.now top) }
{
    let memory = Memory::blank(alloc, 0, 0, 0)?;
    Ok(Memory {
        known: *known,
        fell: *failed,
        top,
        ..memory
    })
}

/// What is kept in memory of what an opening reads, and the extra bytes.
pub fn attach<R: Rack>(
    alloc: Global,
    rack: &mut R,
    reading: Reading,
) -> Result<(Memory, Vec<u8>), NoMemory>
    requires { (first : R) × HasRead R.Rack reading first rack.old }
    ensures { IfOk result (λ made. AttachesAll R.Rack reading made.0 made.1.items rack.old rack.new) }
{
    let Reading {
        known,
        failed,
        top,
        attached,
        ..
    } = reading;
    match attached {
        Some(attached) => {
            let (memory, extra) = attach_all(alloc, rack, &known, &failed, top, attached)?;
            Ok((memory, extra))
        }
        None => Ok((attach_none(alloc, &known, &failed, top)?, Vec::new(alloc))),
    }
}
