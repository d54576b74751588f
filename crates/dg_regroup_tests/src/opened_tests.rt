// Members that are longer than the array on them says, or are hidden. All values are worked out by hand.
use dg_io::{Failed, MemRack, Rack};
use dg_regroup::{FrontRack, LiveRack, read_extra};
use std::alloc::Global;
use std::process::Abort;
use std::test::Fail;

/// Boundaries 1 and 3 of four are in use.
const EXTRA: &[u8] = b"\0\0\0\0\0\0\0\0\x04\x02\x01\x03\0\0\0\0";

/// Member 2 has eight bytes and member 7 has four, of which the first four are shown.
fn rack_of(rt: &impl Abort, alloc: Global) -> Result<LiveRack<FrontRack<MemRack>>, Fail> {
    let mut rack = MemRack::new(alloc, 8, 64, Vec::new(alloc))?;
    assert!(rt; rack.blank(2, 8).is_ok());
    assert!(rt; rack.write(2, 2, b"abcd").is_ok());
    assert!(rt; rack.blank(7, 4).is_ok());
    let Some(extra) = read_extra(alloc, EXTRA)? else {
        panic!(rt; "no extra bytes");
    };
    Ok(LiveRack::<MemRack>::opened(rack, extra.live.into_vec(), 4))
}

/// The first four bytes of a member that is found.
fn first_bytes<R: Rack>(rt: &impl Abort, rack: &mut R, member: u8) -> [u8; 4] {
    let Ok(Some(length)) = rack.attach(member) else {
        panic!(rt; "no member");
    };
    assert!(rt; length >= 4);
    let mut bytes = [9; 4];
    assert!(rt; rack.read(member, 0, &mut bytes).is_ok());
    bytes
}

/// Makes a member that is found longer.
fn lengthen<R: Rack>(rt: &impl Abort, rack: &mut R, member: u8, length: u64) -> Result<(), Failed> {
    let Ok(Some(found)) = rack.attach(member) else {
        panic!(rt; "no member");
    };
    assert!(rt; found <= length);
    rack.extend(member, length)
}

#[test]
fn members_are_found_by_what_they_show(rt: HostRuntime) -> Result<(), Fail> {
    let mut rack = rack_of(&rt, rt.alloc())?;
    assert_eq!(rt; rack.attach(0), Ok(Some(4)));
    // member 3 is there, and has fewer bytes
    assert_eq!(rt; rack.attach(1), Ok(None));
    assert_eq!(rt; rack.attach(3), Ok(Some(4)));
    // what is made anew shows all its bytes
    assert_eq!(rt; rack.blank(0, 10), Ok(()));
    assert_eq!(rt; rack.attach(0), Ok(Some(10)));
    assert_eq!(rt; lengthen(&rt, &mut rack, 0, 12), Ok(()));
    assert_eq!(rt; rack.attach(0), Ok(Some(12)));
    Ok(())
}

#[test]
fn the_first_bytes_are_read_and_never_made_more(rt: HostRuntime) -> Result<(), Fail> {
    let mut rack = rack_of(&rt, rt.alloc())?;
    assert!(rt; first_bytes(&rt, &mut rack, 0) == *b"\0\0ab");
    assert_eq!(rt; lengthen(&rt, &mut rack, 0, 6), Err(Failed));
    assert!(rt; first_bytes(&rt, &mut rack, 0) == *b"\0\0ab");
    assert_eq!(rt; rack.attach(0), Ok(Some(4)));
    Ok(())
}

/// Members 0, 1 and 5 have as many bytes, and the first two are hidden.
fn hiding_two(rt: &impl Abort, alloc: Global) -> Result<FrontRack<MemRack>, Fail> {
    let mut rack = MemRack::new(alloc, 8, 64, Vec::new(alloc))?;
    assert!(rt; rack.blank(0, 4).is_ok());
    assert!(rt; rack.blank(1, 4).is_ok());
    assert!(rt; rack.blank(5, 4).is_ok());
    let mut hidden = [false; 32];
    hidden[0] = true;
    hidden[1] = true;
    Ok(FrontRack::hiding(rack, &hidden))
}

#[test]
fn hidden_members_are_not_found_until_they_are_made_anew(rt: HostRuntime) -> Result<(), Fail> {
    let mut rack = hiding_two(&rt, rt.alloc())?;
    assert_eq!(rt; rack.attach(0), Ok(None));
    assert_eq!(rt; rack.attach(1), Ok(None));
    assert_eq!(rt; rack.attach(5), Ok(Some(4)));
    assert_eq!(rt; rack.blank(1, 10), Ok(()));
    assert_eq!(rt; rack.attach(1), Ok(Some(10)));
    assert_eq!(rt; lengthen(&rt, &mut rack, 1, 12), Ok(()));
    assert_eq!(rt; rack.attach(1), Ok(Some(12)));
    // the rack below has what is hidden
    assert_eq!(rt; rack.attach(0), Ok(None));
    assert_eq!(rt; rack.into_rack().attach(0), Ok(Some(4)));
    Ok(())
}
