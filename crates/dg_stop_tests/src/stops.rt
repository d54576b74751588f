// Two members that are made, written and committed, and written and committed again, while calls fail.
ghost use Rattle.std.specs.Prelude.{◌≤◌};

use crate::calls::{commits, puts, whole};
use crate::plain_readings::{BEHIND, Expected, ROOM, SIZE, is_reopened};
use dg_io::{Checkpoint, CommitAnswer, MemRack, Rack};
use dg_stop::StopRack;
use std::alloc::Global;
use std::test::Fail;

/// What calls left: the bytes of both members behind, and the answers to both commits.
#[derive(Drop)]
pub struct Left {
    pub first: [u8; BEHIND],
    pub second: [u8; BEHIND],
    answers: (CommitAnswer, CommitAnswer),
}

// Makes both members, writes all their bytes and commits them.
fn begins<R: Checkpoint>(rack: &mut R) -> CommitAnswer {
    for member in 0..2u8 {
        if rack.blank(member, SIZE as u64).is_err() {
            return CommitAnswer::Lost;
        }
    }
    puts(rack, 0, 0, &[0x10; SIZE]);
    puts(rack, 1, 0, &[0x20; SIZE]);
    commits(rack, b"old!")
}

// Writes parts of two pages of member 0, a part of the first one again, and a page of member 1, and commits.
fn goes_on<R: Checkpoint>(rack: &mut R, writes: bool) -> CommitAnswer {
    if writes {
        puts(rack, 0, 100, &[0x11; 700]);
        puts(rack, 0, 100, &[0x12; 50]);
        puts(rack, 1, 512, &[0x21; 512]);
    }
    commits(rack, b"new!")
}

/// The numbers of so many calls.
pub fn calls(alloc: Global, from: u64, count: u64) -> Result<Vec<u64>, Fail> {
    let mut numbers = Vec::new(alloc);
    for call in from..from.saturating_add(count) {
        numbers.push(call)?;
    }
    Ok(numbers)
}

// The answers to both commits on a double rack over this one.
fn answers<R: Rack + Drop>(
    alloc: Global,
    rack: R,
    writes: bool,
) -> Result<(CommitAnswer, CommitAnswer), Fail> {
    let mut rack = StopRack::new(alloc, rack, 2, SIZE as u64, ROOM)?;
    let first = begins(&mut rack);
    let second = goes_on(&mut rack, writes);
    Ok((first, second))
}

/// What is left where so many calls fail, from one on.
pub fn left_by(alloc: Global, from: u64, count: u64, writes: bool) -> Result<Left, Fail> {
    let mut below = MemRack::new(alloc, 2, BEHIND as u64, calls(alloc, from, count)?)?;
    let answers = answers(alloc, &mut below, writes)?;
    below.mend();
    let first = whole(&mut below, 0);
    let second = whole(&mut below, 1);
    Ok(Left {
        first,
        second,
        answers,
    })
}

// No checkpoint.
fn nothing() -> Expected {
    Expected {
        sequence: 0,
        first: None,
        second: None,
        extra: [0; 4],
    }
}

// The first checkpoint.
fn old() -> Expected {
    Expected {
        sequence: 1,
        first: Some([0x10; SIZE]),
        second: Some([0x20; SIZE]),
        extra: *b"old!",
    }
}

// Puts equal bytes in place of others.
fn put(bytes: &mut [u8; SIZE], from: usize, to: usize, byte: u8)
    requires order { from ≤ to }
    requires end { to ≤ SIZE }
{
    for at in from..to {
        bytes[at] = byte;
    }
}

// The second one.
fn new(writes: bool) -> Expected {
    let mut first = [0x10; SIZE];
    let mut second = [0x20; SIZE];
    if writes {
        put(&mut first, 100, 800, 0x11);
        put(&mut first, 100, 150, 0x12);
        put(&mut second, 512, 1024, 0x21);
    }
    Expected {
        sequence: 2,
        first: Some(first),
        second: Some(second),
        extra: *b"new!",
    }
}

// Whether a commit was made.
fn is_made(answer: CommitAnswer) -> bool {
    match answer {
        CommitAnswer::Committed { .. } => true,
        CommitAnswer::Lost => false,
    }
}

/// What is to be reopened then, by the answers.
pub fn wanted(left: &Left, writes: bool) -> Expected {
    if is_made(left.answers.1) {
        new(writes)
    } else if is_made(left.answers.0) {
        old()
    } else {
        nothing()
    }
}

// How many of the first runs leave no checkpoint, how many the old one, and how many the new one, where all calls from one on fail. `None`
// where one isn't as its answers say.
fn stops(alloc: Global, runs: u64, writes: bool) -> Result<Option<(u32, u32, u32)>, Fail> {
    let mut counts = (0u32, 0u32, 0u32);
    for from in 0..runs {
        let left = left_by(alloc, from, 64, writes)?;
        let want = wanted(&left, writes);
        match want.sequence {
            0 => counts.0 = counts.0.saturating_add(1),
            1 => counts.1 = counts.1.saturating_add(1),
            _ => counts.2 = counts.2.saturating_add(1),
        }
        if !is_reopened(&left.first, &left.second, &want) {
            return Ok(None);
        }
    }
    Ok(Some(counts))
}

// Calls 0 and 1 make the members, the next eight write them, and calls 10 to 17 are the first commit: three on each member, and a committed
// header on each. From call 17 on it is made. Six calls write again, and calls 24 to 31 are the second commit.
#[test]
fn a_stop_leaves_the_old_checkpoint_or_the_new_one(rt: HostRuntime) -> Result<(), Fail> {
    assert!(rt; stops(rt.alloc(), 34, true)? == Some((17, 14, 3)));
    Ok(())
}

// Without the writes calls 18 to 25 are the second commit.
#[test]
fn a_stop_of_a_commit_of_nothing_new(rt: HostRuntime) -> Result<(), Fail> {
    assert!(rt; stops(rt.alloc(), 28, false)? == Some((17, 8, 3)));
    Ok(())
}

// The second commit where one call fails, and what is to be reopened then.
fn falls(call: u64) -> (CommitAnswer, Expected) {
    let mut want = new(true);
    let fell = if call < 27 || call == 30 { 1 } else { 2 };
    if call >= 30 {
        return (CommitAnswer::Committed { sequence: 2, fell }, want);
    }
    want.sequence = 4;
    if fell == 1 {
        want.first = None;
    } else {
        want.second = None;
    }
    (CommitAnswer::Committed { sequence: 4, fell }, want)
}

// A member on which the commit can't be prepared falls, and the commit begins again without it, with the next sequence that stands in the same
// places. One on which it was prepared is in it, though it falls at the committed header.
#[test]
fn one_call_that_fails(rt: HostRuntime) -> Result<(), Fail> {
    for call in 24..32u64 {
        let left = left_by(rt.alloc(), call, 1, true)?;
        let (answer, want) = falls(call);
        assert_eq!(rt; left.answers.1, answer);
        assert!(rt; is_reopened(&left.first, &left.second, &want));
    }
    Ok(())
}

// A plain rack makes no commit, and its calls are those of the rack behind.
#[test]
fn a_plain_rack_passes_calls_on(rt: HostRuntime) -> Result<(), Fail> {
    let alloc = rt.alloc();
    let below = MemRack::new(alloc, 2, SIZE as u64, calls(alloc, 1, 1)?)?;
    let mut rack = StopRack::plain(below);
    assert!(rt; Checkpoint::room(&rack) == None);
    assert!(rt; rack.blank(0, SIZE as u64).is_ok());
    assert!(rt; rack.blank(1, SIZE as u64).is_err());
    assert!(rt; rack.attach(0).is_ok());
    Ok(())
}
