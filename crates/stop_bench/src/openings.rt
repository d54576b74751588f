// What an opening of two members gives.
use crate::callers::commits;
use dg_io::{Checkpoint, CommitAnswer, MemRack, NoMemory, Rack};
use dg_stop::{Opened, StopRack};
use std::alloc::Global;

/// What is told of bytes.
#[derive(Clone, Copy, Debug, PartialEq, Eq)]
pub struct Total {
    pub length: u64,
    /// The remainder by the greatest prime below 2^32 of the number that they are from the least byte on.
    pub remainder: u64,
}

const PRIME: u64 = 4294967291;

impl Total {
    fn of(bytes: &[u8]) -> Total {
        let mut remainder: u64 = 0;
        for byte in bytes.iter().rev() {
            remainder = (remainder % PRIME * 256 + u64::from(*byte)) % PRIME;
        }
        Total {
            length: bytes.len() as u64,
            remainder,
        }
    }
}

/// What is told of both members, where they are there.
#[derive(Clone, Copy, Debug, PartialEq, Eq)]
pub struct Totals {
    pub first: Option<Total>,
    pub second: Option<Total>,
}

/// An opening of two members, if it gave a double rack.
#[derive(Drop)]
pub struct Opening {
    /// Room for extra bytes, and these.
    pub room: u32,
    pub extra: Vec<u8>,
    /// The members that stand then.
    pub members: Totals,
    /// The members behind.
    pub behind: Totals,
    /// The sequence of a commit of the members that stand, if it was made.
    pub next: Option<u64>,
}

/// Puts a member into a rack, or takes it away.
fn put_member(rack: &mut MemRack, member: u8, bytes: Option<&[u8]>) {
    match bytes {
        Some(bytes) => {
            if rack.blank(member, bytes.len() as u64).is_ok() {
                let _ = rack.write(member, 0, bytes);
            }
        }
        None => rack.remove(member),
    }
}

/// What is told of a member, if it is there and can be read.
fn total_of<R: Rack>(alloc: Global, rack: &mut R, member: u8) -> Result<Option<Total>, NoMemory> {
    let Ok(Some(size)) = rack.attach(member) else {
        return Ok(None);
    };
    let Ok(mut all) = vec![in alloc; 0; size as usize] else {
        return Err(NoMemory);
    };
    match rack.read(member, 0, &mut all) {
        Ok(()) => Ok(Some(Total::of(&all))),
        Err(_) => Ok(None),
    }
}

fn totals_of<R: Rack>(alloc: Global, rack: &mut R) -> Result<Totals, NoMemory> {
    let first = total_of(alloc, rack, 0)?;
    let second = total_of(alloc, rack, 1)?;
    Ok(Totals { first, second })
}

/// What the opening of a rack gives: the room, the extra bytes, and its members.
type Parts = (u32, Vec<u8>, Totals);

/// Opens a rack. `None` where that gives a plain one.
fn opens<R: Rack + Drop>(alloc: Global, rack: R) -> Result<Option<Parts>, NoMemory> {
    let Opened {
        mut rack,
        extra,
        ..
    } = StopRack::open(alloc, rack)?;
    let Some(room) = rack.room() else {
        return Ok(None);
    };
    let members = totals_of(alloc, &mut rack)?;
    Ok(Some((room, extra, members)))
}

/// Opens a rack, and commits the members that stand.
fn next<R: Rack + Drop>(alloc: Global, rack: R) -> Result<Option<u64>, NoMemory> {
    let mut opened = StopRack::open(alloc, rack)?;
    match commits(&mut opened.rack, b"") {
        CommitAnswer::Committed { sequence, .. } => Ok(Some(sequence)),
        CommitAnswer::Lost => Ok(None),
    }
}

/// Bytes of a member that may be missing.
fn length_of(member: Option<&[u8]>) -> u64 {
    match member {
        Some(bytes) => bytes.len() as u64,
        None => 0,
    }
}

/// Opens two members with these bytes, either of which may be missing. `None` where that gives a plain rack.
pub fn opened(
    alloc: Global,
    first: Option<&[u8]>,
    second: Option<&[u8]>,
) -> Result<Option<Opening>, NoMemory> {
    let longest = length_of(first).max(length_of(second));
    let mut below = MemRack::new(alloc, 2, longest, Vec::new(alloc))?;
    put_member(&mut below, 0, first);
    put_member(&mut below, 1, second);
    let Some((room, extra, members)) = opens(alloc, &mut below)? else {
        return Ok(None);
    };
    let behind = totals_of(alloc, &mut below)?;
    let next = next(alloc, &mut below)?;
    Ok(Some(Opening {
        room,
        extra,
        members,
        behind,
        next,
    }))
}
