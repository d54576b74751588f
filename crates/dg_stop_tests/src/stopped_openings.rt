// Openings of what stopped calls have left, while calls fail.
use crate::calls::whole;
use crate::plain_readings::{BEHIND, Expected, is_reopened};
use crate::stops::{Left, calls, left_by, wanted};
use dg_io::{Checkpoint, MemRack, NoMemory, Rack};
use dg_stop::StopRack;
use std::alloc::Global;
use std::test::Fail;

// Makes a member of these bytes.
fn put_member<R: Rack>(rack: &mut R, member: u8, bytes: &[u8; BEHIND]) -> bool {
    rack.blank(member, BEHIND as u64).is_ok() && rack.write(member, 0, bytes).is_ok()
}

// Opens a rack. Whether it is a double one.
fn opens<R: Rack + Drop>(alloc: Global, rack: R) -> Result<bool, NoMemory> {
    let opened = StopRack::open(alloc, rack)?;
    Ok(opened.rack.room().is_some())
}

// Opens both members, where all calls of the opening from one on fail, and tells whether they are then reopened as before.
fn keeps(alloc: Global, left: &Left, want: &Expected, from: u64) -> Result<bool, Fail> {
    let mut below = MemRack::new(
        alloc,
        2,
        BEHIND as u64,
        calls(alloc, from.saturating_add(4), 64)?,
    )?;
    if !put_member(&mut below, 0, &left.first) || !put_member(&mut below, 1, &left.second) {
        return Ok(false);
    }
    opens(alloc, &mut below)?;
    below.mend();
    let first = whole(&mut below, 0);
    let second = whole(&mut below, 1);
    if !is_reopened(&first, &second, want) {
        return Ok(false);
    }
    let is_double = opens(alloc, &mut below)?;
    Ok(is_double || want.sequence == 0)
}

// An opening of what any stop of the second commit has left, stopped at any of its first calls, leaves what is reopened.
#[test]
fn a_stopped_opening_leaves_the_checkpoint(rt: HostRuntime) -> Result<(), Fail> {
    let alloc = rt.alloc();
    for stop in 24..33u64 {
        let left = left_by(alloc, stop, 64, true)?;
        let want = wanted(&left, true);
        for from in 0..74u64 {
            assert!(rt; keeps(alloc, &left, &want, from)?);
        }
    }
    Ok(())
}
