// A rack of the boundaries in use over one in memory. Only calls on members that are there are calls of the rack below, which are counted
// from 0.
use dg_io::{
    Checkpoint, CommitAnswer, Disks, DropAnswer, Failed, MemRack, MendAnswer, Rack, Reduces,
};
use dg_regroup::{FrontRack, LiveRack, read_extra};
use std::alloc::Global;
use std::process::Abort;
use std::test::Fail;

/// Boundaries 1 and 3 of four are in use.
const EXTRA: &[u8] = b"\0\0\0\0\0\0\0\0\x04\x02\x01\x03\0\0\0\0";

/// Boundaries 1 and 3 of a rack of eight members, whose calls with these numbers fail.
fn rack_of(rt: &impl Abort, alloc: Global, fails: &[u64]) -> Result<LiveRack<MemRack>, Fail> {
    let rack = MemRack::new(alloc, 8, 64, Vec::from_slice(alloc, fails)?)?;
    let Some(extra) = read_extra(alloc, EXTRA)? else {
        panic!(rt; "no extra bytes");
    };
    Ok(LiveRack::new(rack, extra.live.into_vec()))
}

#[test]
fn members_go_by_places(rt: HostRuntime) -> Result<(), Fail> {
    let mut rack = rack_of(&rt, rt.alloc(), &[2])?;
    assert_eq!(rt; rack.live(), b"\x01\x03".as_slice());
    assert_eq!(rt; rack.blank(3, 16), Ok(()));
    // members 4 and 5 aren't there
    assert_eq!(rt; rack.blank(4, 16), Err(Failed));
    assert_eq!(rt; rack.attach(4), Ok(None));
    assert_eq!(rt; rack.attach(5), Ok(None));
    assert_eq!(rt; rack.attach(3), Ok(Some(16)));
    // the third call of the rack below
    assert_eq!(rt; rack.blank(2, 16), Err(Failed));
    assert_eq!(rt; rack.attach(3), Ok(Some(16)));
    rack.drop_lost(0b01);
    assert_eq!(rt; rack.live(), b"\x03".as_slice());
    assert_eq!(rt; rack.attach(1), Ok(Some(16)));
    assert_eq!(rt; rack.attach(3), Ok(None));
    // a bit behind the last boundary is no one's
    rack.drop_lost(0b10);
    assert_eq!(rt; rack.live(), b"\x03".as_slice());
    rack.drop_lost(0b01);
    assert_eq!(rt; rack.live().len(), 0);
    assert_eq!(rt; rack.attach(1), Ok(None));
    Ok(())
}

#[test]
fn members_keep_their_bytes(rt: HostRuntime) -> Result<(), Fail> {
    let mut rack = rack_of(&rt, rt.alloc(), &[])?;
    assert_eq!(rt; rack.blank(2, 4), Ok(()));
    assert_eq!(rt; rack.write(2, 1, b"ab"), Ok(()));
    assert_eq!(rt; rack.extend(2, 6), Ok(()));
    let mut bytes = [9; 6];
    assert_eq!(rt; rack.read(2, 0, &mut bytes), Ok(()));
    assert!(rt; bytes == *b"\0ab\0\0\0");
    Ok(())
}

// The racks in memory are plain, and so is one of their boundaries in use.
#[test]
fn plain_racks_stay_plain(rt: HostRuntime) -> Result<(), Fail> {
    let mut rack = rack_of(&rt, rt.alloc(), &[])?;
    assert_eq!(rt; rack.room(), None);
    assert_eq!(rt; rack.disks(), None);
    assert_eq!(rt; rack.drop_disk(0, 0), DropAnswer::Plain);
    assert_eq!(rt; rack.mend(9, 0), MendAnswer::Plain);
    let none = CommitAnswer::Committed {
        sequence: 0,
        fell: 0,
    };
    assert_eq!(rt; rack.commit(0, b""), none);
    Ok(())
}

// All 16 boundaries that there may be are in use, and the racks below come back as they are.
#[test]
fn a_rack_of_all_boundaries_gives_its_rack_back(rt: HostRuntime) -> Result<(), Fail> {
    let alloc = rt.alloc();
    let below = MemRack::new(alloc, 32, 64, Vec::new(alloc))?;
    let mut rack = LiveRack::of_all(alloc, FrontRack::new(below, 8))?;
    assert_eq!(rt;
        rack.live(),
        b"\0\x01\x02\x03\x04\x05\x06\x07\x08\t\n\x0b\x0c\r\x0e\x0f".as_slice()
    );
    assert_eq!(rt; rack.blank(31, 16), Ok(()));
    assert_eq!(rt; rack.attach(32), Ok(None));
    let mut below = rack.into_rack().into_rack();
    assert_eq!(rt; below.attach(31), Ok(Some(16)));
    assert_eq!(rt; below.attach(30), Ok(Some(0)));
    Ok(())
}
