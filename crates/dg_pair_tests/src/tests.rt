use dg_io::{MemRack, Rack};
use dg_model::MemberState;
use dg_pair::{
    Boundary, CopyAnswer, ExtendAnswer, FailAnswer, NoteAnswer, PairRead, PairWrite, ReplaceAnswer,
};
use std::test::Fail;

const L: usize = 512;

const SIZE: u64 = 1536;

// Calls 0 and 1 of the rack are the blanks. Call 2, a write, fails.
#[test]
fn one_serves_on(rt: HostRuntime) -> Result<(), Fail> {
    let alloc = rt.alloc();
    let fails = [2].to_vec(alloc)?;
    let mut rack = MemRack::new(alloc, 2, SIZE, fails).expect(&rt, "memory");
    let mut pair = Boundary::new(&mut rack, 0, 512, 2, SIZE);
    let mut buf = [0; L];
    assert_eq!(rt; pair.write(&mut rack, 1, &[7; L]), PairWrite::Kept);
    assert_eq!(rt; pair.member(0), MemberState::Out);
    assert_eq!(rt; pair.read(&mut rack, 1, &mut buf), PairRead::Got);
    assert_eq!(rt; buf, [7; L]);
    assert_eq!(rt; pair.fail(0), FailAnswer::Already);
    assert_eq!(rt; pair.fail(1), FailAnswer::Taken);
    assert_eq!(rt; pair.read(&mut rack, 1, &mut buf), PairRead::Lost);
    assert!(rt; pair.is_lost());
    Ok(())
}

// Slot 0 is copied and slot 1 passed. The member that was made anew then serves alone.
#[test]
fn a_refilled_member_serves(rt: HostRuntime) -> Result<(), Fail> {
    let alloc = rt.alloc();
    let fails = Vec::new(alloc);
    let mut rack = MemRack::new(alloc, 2, SIZE, fails).expect(&rt, "memory");
    let mut pair = Boundary::new(&mut rack, 0, 512, 2, SIZE);
    let mut buf = [0; L];
    assert_eq!(rt; pair.note(&mut rack, 0, 8, b"note"), NoteAnswer::Noted);
    assert_eq!(rt; pair.write(&mut rack, 0, &[9; L]), PairWrite::Kept);
    assert_eq!(rt; pair.fail(0), FailAnswer::Taken);
    assert_eq!(rt; pair.replace(&mut rack, 0, SIZE), ReplaceAnswer::Replaced);
    let MemberState::Filling(0) = pair.member(0) else {
        panic!(rt; "it has no slot yet");
    };
    assert_eq!(rt; pair.copy_slot(&mut rack, &mut buf), CopyAnswer::Copied);
    let MemberState::Filling(1) = pair.member(0) else {
        panic!(rt; "it has slot 0");
    };
    pair.pass_slot();
    let MemberState::Filling(2) = pair.member(0) else {
        panic!(rt; "slot 1 was passed");
    };
    pair.complete();
    assert_eq!(rt; pair.fail(1), FailAnswer::Taken);
    assert_eq!(rt; pair.read(&mut rack, 0, &mut buf), PairRead::Got);
    assert_eq!(rt; buf, [9; L]);
    Ok(())
}

// Call 0, the first blank, fails: member 0 is the one that is blanked first.
#[test]
fn the_even_member_is_blanked_first(rt: HostRuntime) -> Result<(), Fail> {
    let alloc = rt.alloc();
    let fails = [0].to_vec(alloc)?;
    let mut rack = MemRack::new(alloc, 2, SIZE, fails).expect(&rt, "memory");
    let mut pair = Boundary::new(&mut rack, 0, 512, 2, SIZE);
    let mut buf = [0; L];
    assert_eq!(rt; pair.fail(0), FailAnswer::Already);
    assert_eq!(rt; pair.write(&mut rack, 0, &[0xaa; L]), PairWrite::Kept);
    assert_eq!(rt; pair.read(&mut rack, 0, &mut buf), PairRead::Got);
    assert_eq!(rt; buf, [0xaa; L]);
    Ok(())
}

#[test]
fn a_member_is_made_longer(rt: HostRuntime) -> Result<(), Fail> {
    let alloc = rt.alloc();
    let fails = Vec::new(alloc);
    let mut rack = MemRack::new(alloc, 2, SIZE + 8, fails).expect(&rt, "memory");
    let mut pair = Boundary::new(&mut rack, 0, 512, 2, SIZE);
    assert_eq!(rt; pair.extend(&mut rack, 0, SIZE + 8), ExtendAnswer::Extended);
    assert_eq!(rt; pair.member(0), MemberState::Good);
    assert_eq!(rt; rack.attach(0), Ok(Some(SIZE + 8)));
    assert_eq!(rt; rack.attach(1), Ok(Some(SIZE)));
    Ok(())
}

// Member 1 has no room for more.
#[test]
fn a_member_without_room_falls(rt: HostRuntime) -> Result<(), Fail> {
    let alloc = rt.alloc();
    let fails = Vec::new(alloc);
    let mut rack = MemRack::new(alloc, 2, SIZE, fails).expect(&rt, "memory");
    let mut pair = Boundary::new(&mut rack, 0, 512, 2, SIZE);
    assert_eq!(rt; pair.extend(&mut rack, 1, SIZE + 8), ExtendAnswer::Fell);
    assert_eq!(rt; pair.member(1), MemberState::Out);
    assert_eq!(rt; pair.extend(&mut rack, 1, SIZE + 8), ExtendAnswer::NotGood);
    Ok(())
}

#[test]
fn marks_open(rt: HostRuntime) -> Result<(), Fail> {
    let pair = Boundary::opened(3, 512, 2, (false, true));
    assert_eq!(rt; pair.member(0), MemberState::Out);
    assert_eq!(rt; pair.member(1), MemberState::Good);
    Ok(())
}
