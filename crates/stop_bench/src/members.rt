// Two members whose pages have two places each, as calls that fail from some on leave them.
ghost use Rattle.std.specs.Prelude.{◌<◌};

use crate::callers::{commits, puts};
use crate::numbers::Numbers;
use dg_io::{Checkpoint, MemRack, NoMemory, Rack};
use dg_stop::StopRack;
use std::alloc::Global;

/// The most bytes of a member, of a piece, and of all extra bytes.
const MOST: u32 = 2048;

const PIECE: usize = 700;

const ROOM: u32 = 48;

/// The most bytes of a member behind.
const BEHIND: u64 = 8192;

/// Calls, after which one more is made.
const STEPS: u32 = 24;

/// The numbers of all calls from one on.
fn calls_from(alloc: Global, from: u32) -> Result<Vec<u64>, NoMemory> {
    let mut numbers = Vec::new(alloc);
    for call in from..1000 {
        let Ok(()) = numbers.push(u64::from(call)) else {
            return Err(NoMemory);
        };
    }
    Ok(numbers)
}

/// The next call: a commit, a member that is made anew, or a write.
fn step<R: Checkpoint>(rack: &mut R, numbers: &mut Numbers) {
    let piece = [numbers.below(256) as u8; PIECE];
    let member = numbers.below(2) as u8;
    match numbers.below(12) {
        0..=2 => {
            let count = numbers.below(ROOM + 1) as usize;
            commits(rack, &piece[..count]);
        }
        3 => {
            let _ = rack.blank(member, u64::from(numbers.below(MOST + 1)));
        }
        _ => {
            let place = u64::from(numbers.below(MOST + 1));
            let count = numbers.below(PIECE as u32) as usize;
            puts(rack, member, place, &piece[..count]);
        }
    }
}

/// Makes two members of a double rack over this one and goes on with them.
fn write_over<R: Rack + Drop>(
    alloc: Global,
    rack: R,
    numbers: &mut Numbers,
) -> Result<(), NoMemory> {
    let room = numbers.below(ROOM + 1);
    let mut rack = StopRack::new(alloc, rack, 2, u64::from(MOST), room)?;
    for member in 0..2u8 {
        let _ = rack.blank(member, u64::from(numbers.below(MOST + 1)));
    }
    for _ in 0..STEPS {
        step(&mut rack, numbers);
    }
    Ok(())
}

/// The bytes of a member behind.
fn whole(alloc: Global, rack: &mut MemRack, member: u8) -> Result<Vec<u8>, NoMemory> {
    let Ok(Some(size)) = rack.attach(member) else {
        return Ok(Vec::new(alloc));
    };
    let Ok(mut all) = vec![in alloc; 0; size.min(BEHIND) as usize] else {
        return Err(NoMemory);
    };
    let _ = rack.read(member, 0, &mut all);
    Ok(all)
}

/// Two members that are made, written and committed by a generator with this seed, until all calls fail.
pub fn made(alloc: Global, seed: u64) -> Result<(Vec<u8>, Vec<u8>), NoMemory> {
    let mut numbers = Numbers::new(seed);
    let fails = calls_from(alloc, numbers.below(160))?;
    let mut below = MemRack::new(alloc, 2, BEHIND, fails)?;
    write_over(alloc, &mut below, &mut numbers)?;
    below.mend();
    let first = whole(alloc, &mut below, 0)?;
    let second = whole(alloc, &mut below, 1)?;
    Ok((first, second))
}
