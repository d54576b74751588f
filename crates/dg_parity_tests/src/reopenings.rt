// Racks of groups of disks that are opened again.
ghost use Rattle.std.specs.Prelude.{◌≡◌, true, length, IfSome, IsSome};

use dg_io::{Disks, MemRack, Rack};
use dg_parity::ParityRack;
use std::alloc::Global;
use std::test::Fail;

// The member of a group of three disks has six chunks, in three stripes of two, so a disk has 2,048 bytes.
const SIZE: u64 = 3000;

// The length of a member that is there.
fn long<R: Rack>(rack: &mut R, member: u8) -> Option<u64>
    ensures stands { IsSome result → R.stands rack.new member ≡ true }
    ensures long { IfSome result (λ n. IfSome (R.bytes rack.new member) (λ all. length all ≡ n)) }
{
    match rack.attach(member) {
        Ok(found) => found,
        Err(_) => None,
    }
}

// Reads from a member, where it has so many bytes. Whether that was done.
fn reads<R: Rack>(rack: &mut R, member: u8, place: u64, buf: &mut [u8]) -> bool {
    let Some(all) = long(rack, member) else {
        return false;
    };
    if place > all {
        return false;
    }
    if buf.len() as u64 > all - place {
        return false;
    }
    rack.read(member, place, buf).is_ok()
}

// Writes to a member, where it has so many bytes. Whether that was done.
fn writes<R: Rack>(rack: &mut R, member: u8, place: u64, buf: &[u8]) -> bool {
    let Some(all) = long(rack, member) else {
        return false;
    };
    if place > all {
        return false;
    }
    if buf.len() as u64 > all - place {
        return false;
    }
    rack.write(member, place, buf).is_ok()
}

// Copies a disk of a group of three. Whether that was done.
fn copies<A: Rack, B: Rack>(from: &mut A, to: &mut B, member: u8) -> bool {
    let mut buf = [0; 2048];
    if !reads(from, member, 0, &mut buf) {
        return false;
    }
    if to.blank(member, 2048).is_err() {
        return false;
    }
    writes(to, member, 0, &buf)
}

// A rack in memory whose listed calls fail.
fn rack_of(alloc: Global, fails: &[u64]) -> Result<MemRack, Fail> {
    Ok(MemRack::new(alloc, 64, 2048, Vec::from_slice(alloc, fails)?)?)
}

// Makes group 0 of three disks, and writes to its member. Whether that was done.
fn makes(alloc: Global, below: &mut MemRack) -> Result<bool, Fail> {
    let mut rack = ParityRack::new(alloc, below, 4, 3)?;
    if rack.blank(0, SIZE).is_err() {
        return Ok(false);
    }
    Ok(writes(&mut rack, 0, 100, &[0x5a; 2500]))
}

// Opens a rack, and reads from the member of group 0: whether these bytes stand there.
fn holds(alloc: Global, below: &mut MemRack, place: u64, bytes: &[u8; 600]) -> Result<bool, Fail> {
    let mut rack = ParityRack::open(alloc, below)?;
    if rack.disks() != Some(3) {
        return Ok(false);
    }
    let mut got = [0; 600];
    if !reads(&mut rack, 0, place, &mut got) {
        return Ok(false);
    }
    Ok(got == *bytes)
}

// Opens a rack, and writes to the member of group 0. Whether that was done.
fn changes(
    alloc: Global,
    below: &mut MemRack,
    place: u64,
    bytes: &[u8; 600],
) -> Result<bool, Fail> {
    let mut rack = ParityRack::open(alloc, below)?;
    Ok(writes(&mut rack, 0, place, bytes))
}

#[test]
fn a_rack_without_headers_is_plain(rt: HostRuntime) -> Result<(), Fail> {
    let a = rt.alloc();
    let mut below = rack_of(a, &[])?;
    let mut rack = ParityRack::open(a, &mut below)?;
    assert!(rt; rack.disks() == None);
    assert!(rt; rack.blank(7, 600).is_ok());
    assert!(rt; writes(&mut rack, 7, 0, &[1; 600]));
    Ok(())
}

#[test]
fn a_member_reads_on(rt: HostRuntime) -> Result<(), Fail> {
    let a = rt.alloc();
    let mut below = rack_of(a, &[])?;
    assert!(rt; makes(a, &mut below)?);
    assert!(rt; holds(a, &mut below, 100, &[0x5a; 600])?);
    assert!(rt; holds(a, &mut below, 1700, &[0x5a; 600])?);
    below.remove(33);
    assert!(rt; holds(a, &mut below, 100, &[0x5a; 600])?);
    assert!(rt; holds(a, &mut below, 1700, &[0x5a; 600])?);
    below.remove(34);
    assert!(rt; !holds(a, &mut below, 100, &[0x5a; 600])?);
    Ok(())
}

// A disk that an opening missed has the header that the others had then. They get a new one before they are written, so it doesn't count when it is
// back; what it has is old.
#[test]
fn a_disk_that_was_missed(rt: HostRuntime) -> Result<(), Fail> {
    let a = rt.alloc();
    for j in 0..3u8 {
        let mut first = rack_of(a, &[])?;
        assert!(rt; makes(a, &mut first)?);
        let mut second = rack_of(a, &[])?;
        for i in 0..3u8 {
            assert!(rt; i == j || copies(&mut first, &mut second, 32 + i));
        }
        assert!(rt; changes(a, &mut second, 1000, &[0xc3; 600])?);
        assert!(rt; copies(&mut first, &mut second, 32 + j));
        assert!(rt; holds(a, &mut second, 1000, &[0xc3; 600])?);
        assert!(rt; holds(a, &mut second, 400, &[0x5a; 600])?);
        second.remove(32 + (j + 1) % 3);
        assert!(rt; !holds(a, &mut second, 1000, &[0xc3; 600])?);
    }
    Ok(())
}

// An opening without a write changes no header: the disk that was missed counts when it is back.
#[test]
fn a_disk_that_was_missed_by_a_reader(rt: HostRuntime) -> Result<(), Fail> {
    let a = rt.alloc();
    let mut first = rack_of(a, &[])?;
    assert!(rt; makes(a, &mut first)?);
    let mut second = rack_of(a, &[])?;
    assert!(rt; copies(&mut first, &mut second, 32));
    assert!(rt; copies(&mut first, &mut second, 34));
    assert!(rt; holds(a, &mut second, 1000, &[0x5a; 600])?);
    assert!(rt; copies(&mut first, &mut second, 33));
    second.remove(32);
    assert!(rt; holds(a, &mut second, 1000, &[0x5a; 600])?);
    Ok(())
}

// The copy takes nine calls, three a disk. Of an opening each call fails in turn: two on each of the three disks, and one on each of the others.
#[test]
fn each_call_of_an_opening_fails(rt: HostRuntime) -> Result<(), Fail> {
    let a = rt.alloc();
    let mut first = rack_of(a, &[])?;
    assert!(rt; makes(a, &mut first)?);
    for call in 0..131u64 {
        let mut second = rack_of(a, &[9 + call])?;
        for i in 0..3u8 {
            assert!(rt; copies(&mut first, &mut second, 32 + i));
        }
        assert!(rt; holds(a, &mut second, 1000, &[0x5a; 600])?);
    }
    for call in 0..6u64 {
        let mut second = rack_of(a, &[6 + call])?;
        assert!(rt; copies(&mut first, &mut second, 32));
        assert!(rt; copies(&mut first, &mut second, 33));
        assert!(rt; holds(a, &mut second, 1000, &[0x5a; 600])? == (call >= 4));
    }
    Ok(())
}
