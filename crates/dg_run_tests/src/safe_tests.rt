// Runs of an array that keeps a checkpoint, over one rack after another.
use crate::runs::{Counted, run_over};
use dg_io::MemRack;
use dg_run::Status;
use std::alloc::Global;
use std::process::Abort;
use std::test::Fail;

// Bytes of a member of the array 1024 64 4 32 2: headers of 1024, two tables of 512, and two places for each of 70 pages.
const LENGTH: u64 = 73_728;

const SAVED: &[u8] = b"safe 1024 64 4 32 2\nwrite 3 6869\nsave\n";

// A rack on which that was done.
fn saved(rt: &impl Abort, alloc: Global) -> Result<MemRack, Fail> {
    let mut rack = MemRack::new(alloc, 8, LENGTH, Vec::new(alloc))?;
    let (status, printed) = run_over(alloc, "replay", SAVED, &mut rack)?;
    assert_eq!(rt; status, Status::Done);
    assert!(rt; printed.as_slice() == "ok\nok\nsaved 1\n".as_bytes());
    Ok(rack)
}

// What a resumed array prints of these lines.
fn resume(
    rt: &impl Abort,
    alloc: Global,
    input: &[u8],
    rack: &mut MemRack,
    wanted: &str,
) -> Result<(), Fail> {
    let (status, printed) = run_over(alloc, "resume", input, rack)?;
    assert_eq!(rt; status, Status::Done);
    assert!(rt; printed.as_slice() == wanted.as_bytes(), "{wanted}");
    Ok(())
}

#[test]
fn a_saved_block_is_read(rt: HostRuntime) -> Result<(), Fail> {
    let alloc = rt.alloc();
    let mut rack = saved(&rt, alloc)?;
    resume(&rt, alloc, b"read 3\n", &mut rack, "data 6869\n")
}

// What was written since is as if it had never been, up to the next save.
#[test]
fn the_last_save_is_reopened(rt: HostRuntime) -> Result<(), Fail> {
    let alloc = rt.alloc();
    let mut rack = saved(&rt, alloc)?;
    resume(&rt, alloc, b"write 3 aa\n", &mut rack, "ok\n")?;
    resume(&rt, alloc, b"read 3\n", &mut rack, "data 6869\n")?;
    resume(
        &rt,
        alloc,
        b"write 3 bb\nsave\n",
        &mut rack,
        "ok\nsaved 2\n",
    )?;
    resume(&rt, alloc, b"read 3\n", &mut rack, "data bb\n")
}

// What the second run does, where it isn't stopped.
const AGAIN: &[u8] = b"write 3 6a69\nsave\n";

// How many calls both runs make, and how many the first one makes, where none fails.
fn calls_of_both(rt: &impl Abort, alloc: Global) -> Result<(u64, u64), Fail> {
    let rack = MemRack::new(alloc, 8, LENGTH, Vec::new(alloc))?;
    let mut rack = Counted { rack, calls: 0 };
    let (status, _) = run_over(alloc, "replay", SAVED, &mut rack)?;
    assert_eq!(rt; status, Status::Done);
    let first = rack.calls;
    let (_, printed) = run_over(alloc, "resume", AGAIN, &mut rack)?;
    assert!(rt; printed.as_slice() == "ok\nsaved 2\n".as_bytes());
    Ok((first, rack.calls))
}

// The second run is stopped at this call: from it on all fail. Whether the third one finds what the second one saved; else it finds what the first one did.
fn finds_the_second(rt: &impl Abort, alloc: Global, stop: u64, end: u64) -> Result<bool, Fail> {
    let mut fails = Vec::new(alloc);
    for call in stop..end {
        fails.push(call)?;
    }
    let mut rack = MemRack::new(alloc, 8, LENGTH, fails)?;
    let (_, printed) = run_over(alloc, "replay", SAVED, &mut rack)?;
    assert!(rt; printed.as_slice() == "ok\nok\nsaved 1\n".as_bytes());
    let (_, printed) = run_over(alloc, "resume", AGAIN, &mut rack)?;
    rack.mend();
    let (status, read) = run_over(alloc, "resume", b"read 3\n", &mut rack)?;
    assert_eq!(rt; status, Status::Done);
    let second = read.as_slice() == "data 6a69\n".as_bytes();
    assert!(rt; second || read.as_slice() == "data 6869\n".as_bytes());
    assert!(rt; second || printed.as_slice() != "ok\nsaved 2\n".as_bytes());
    Ok(second)
}

// Wherever the second run is stopped, the array is that of the last save that was answered, or of the one that was being made: from some call on the latter.
#[test]
fn a_second_run_is_stopped_at_each_call(rt: HostRuntime) -> Result<(), Fail> {
    let alloc = rt.alloc();
    let (first, both) = calls_of_both(&rt, alloc)?;
    let end = both.saturating_mul(4);
    let mut found = false;
    for stop in first..both {
        let second = finds_the_second(&rt, alloc, stop, end)?;
        assert!(rt; second || !found, "{stop}");
        found = second;
    }
    assert!(rt; found);
    Ok(())
}

// Each of the array's members has its greatest length then; behind them nothing was made.
#[test]
fn members_have_two_places_for_each_page(rt: HostRuntime) -> Result<(), Fail> {
    let alloc = rt.alloc();
    let rack = MemRack::new(alloc, 8, LENGTH - 1, Vec::new(alloc));
    let mut short = rack?;
    let (status, printed) = run_over(alloc, "replay", SAVED, &mut short)?;
    assert_eq!(rt; status, Status::Done);
    assert!(rt; printed.as_slice() == "ok\ndegraded\nlost 0\n".as_bytes());
    Ok(())
}
