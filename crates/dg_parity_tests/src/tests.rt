// Groups over a rack in memory, whose calls are counted from 0.
ghost use Rattle.dg_parity.specs.Kept.{IsKept};

use dg_io::{DropAnswer, MemRack, MendAnswer, Rack};
use dg_parity::{
    Group, Header, Spot, blank, drop_disk, extend, fill_header, is_counted, locate, mend, read,
    read_header, write,
};
use std::alloc::Global;
use std::test::Fail;

// 69,993 bytes are 137 chunks, in 69 stripes of two.
const SIZE: u64 = 69993;

// A rack with room for the disks of four groups, whose listed calls fail.
fn rack_of(alloc: Global, room: u64, fails: &[u64]) -> Result<MemRack, Fail> {
    Ok(MemRack::new(alloc, 64, room, Vec::from_slice(alloc, fails)?)?)
}

// Drops a disk of the group, if it has that one.
fn drops<R: Rack>(group: &mut Group, rack: &mut R, j: u8) -> DropAnswer
    requires { IsKept R.Rack group.old rack.old }
    ensures { IsKept R.Rack group.new rack.new }
{
    if j >= group.width() {
        return DropAnswer::Plain;
    }
    drop_disk(group, rack, j)
}

// Mends a disk of the group, if it has that one.
fn mends<R: Rack>(group: &mut Group, rack: &mut R, j: u8) -> MendAnswer
    requires { IsKept R.Rack group.old rack.old }
    ensures { IsKept R.Rack group.new rack.new }
{
    if j >= group.width() {
        return MendAnswer::Plain;
    }
    mend(group, rack, j)
}

#[test]
fn places(rt: HostRuntime) -> Result<(), Fail> {
    let first = Spot {
        disk: 2,
        parity: 0,
        place: 512,
    };
    assert!(rt; locate(3, 512) == first);
    let third = Spot {
        disk: 0,
        parity: 1,
        place: 1031,
    };
    assert!(rt; locate(3, 1031) == third);
    let last = Spot {
        disk: 7,
        parity: 6,
        place: 3584,
    };
    assert!(rt; locate(8, 48 * 512) == last);
    Ok(())
}

#[test]
fn header_bytes(rt: HostRuntime) -> Result<(), Fail> {
    let header = Header {
        epoch: 258,
        group: 3,
        place: 2,
        disks: 3,
        marks: 2,
        size: SIZE,
    };
    let mut page = [7; 512];
    fill_header(&header, &mut page);
    assert!(rt; page.starts_with(b"DGRAID-P\x02\x01\0\0\0\0\0\0"));
    assert!(rt; page[16..].starts_with(&[3, 2, 3, 2, 0, 0, 0, 0, 0x69, 0x11, 1, 0, 0, 0, 0, 0]));
    assert!(rt; page[32..].iter().all(|byte| *byte == 0));
    assert!(rt; read_header(&page) == Some(header));
    assert!(rt; is_counted(&header, 3, 2, 512 * 70));
    assert!(rt; !is_counted(&header, 3, 1, 512 * 70));
    assert!(rt; !is_counted(&header, 3, 2, 512 * 71));
    page[20] = 1;
    assert!(rt; read_header(&page) == None);
    Ok(())
}

// Block 3 of boundary 3 begins at byte 512 of its member.
#[test]
fn a_lost_disk(rt: HostRuntime) -> Result<(), Fail> {
    let mut rack = rack_of(rt.alloc(), 512 * 70, &[])?;
    let mut group = Group::new(3, 3);
    let mut buf = [0; 1024];
    let mut got = [1; 1024];
    assert!(rt; blank(&mut group, &mut rack, SIZE));
    buf[0] = 0xaa;
    assert!(rt; write(&mut group, &mut rack, 512, &buf));
    assert!(rt; drops(&mut group, &mut rack, 2) == DropAnswer::Dropped(false));
    assert!(rt; read(&mut group, &mut rack, 512, &mut got));
    assert!(rt; got == buf);
    buf[0] = 0xbb;
    assert!(rt; write(&mut group, &mut rack, 512, &buf));
    assert!(rt; drops(&mut group, &mut rack, 2) == DropAnswer::Already);
    assert!(rt; read(&mut group, &mut rack, 512, &mut got));
    assert!(rt; got == buf);
    assert!(rt; drops(&mut group, &mut rack, 1) == DropAnswer::Dropped(true));
    assert!(rt; !read(&mut group, &mut rack, 512, &mut got));
    assert!(rt; mends(&mut group, &mut rack, 1) == MendAnswer::Lost);
    Ok(())
}

#[test]
fn a_mended_disk(rt: HostRuntime) -> Result<(), Fail> {
    let mut rack = rack_of(rt.alloc(), 512 * 70, &[])?;
    let mut group = Group::new(3, 3);
    let mut buf = [0; 1024];
    let mut got = [1; 1024];
    assert!(rt; blank(&mut group, &mut rack, SIZE));
    buf[0] = 0xaa;
    buf[700] = 0x55;
    assert!(rt; write(&mut group, &mut rack, 512, &buf));
    assert!(rt; mends(&mut group, &mut rack, 2) == MendAnswer::NotOut);
    assert!(rt; drops(&mut group, &mut rack, 2) == DropAnswer::Dropped(false));
    assert!(rt; mends(&mut group, &mut rack, 2) == MendAnswer::Mended(69));
    assert!(rt; drops(&mut group, &mut rack, 0) == DropAnswer::Dropped(false));
    assert!(rt; read(&mut group, &mut rack, 512, &mut got));
    assert!(rt; got == buf);
    Ok(())
}

/// How a run went.
#[derive(Clone, Copy, Debug, PartialEq, Eq)]
enum Ending {
    /// A call failed, and two disks are out.
    Lost,
    /// A call failed, though the group isn't lost.
    Failed,
    /// All calls were done, and these bytes were read.
    Read([u8; 1500]),
}

// How a run ends in which a call failed.
fn ended(group: &Group) -> Ending {
    if group.is_lost() {
        Ending::Lost
    } else {
        Ending::Failed
    }
}

// Two writes that overlap, the mending of a disk that went out, and a read.
fn run(alloc: Global, fails: &[u64]) -> Result<Ending, Fail> {
    let mut rack = rack_of(alloc, 512 * 5, fails)?;
    let mut group = Group::new(0, 3);
    let mut got = [0; 1500];
    if !blank(&mut group, &mut rack, 3000) {
        return Ok(ended(&group));
    }
    if !write(&mut group, &mut rack, 100, &[0x11; 1500]) {
        return Ok(ended(&group));
    }
    if !write(&mut group, &mut rack, 700, &[0x2f; 1500]) {
        return Ok(ended(&group));
    }
    mends(&mut group, &mut rack, 1);
    if !read(&mut group, &mut rack, 600, &mut got) {
        return Ok(ended(&group));
    }
    Ok(Ending::Read(got))
}

// What is read where no byte is lost.
fn expected() -> Ending {
    let mut bytes = [0x2f; 1500];
    for byte in &mut bytes[..100] {
        *byte = 0x11;
    }
    Ending::Read(bytes)
}

// One call behind fails, whichever it is: nothing is lost.
#[test]
fn one_call_fails(rt: HostRuntime) -> Result<(), Fail> {
    for call in 0..70 {
        assert!(rt; run(rt.alloc(), &[call])? == expected());
    }
    Ok(())
}

// Two calls fail: the bytes are right, or two disks are out.
#[test]
fn two_calls_fail(rt: HostRuntime) -> Result<(), Fail> {
    for first in 0..70 {
        for second in 0..first {
            let ending = run(rt.alloc(), &[first, second])?;
            assert!(rt; ending == Ending::Lost || ending == expected());
        }
    }
    Ok(())
}

// A disk is dropped, the member is written and gets longer without it, and it comes back.
fn run_without(alloc: Global, fails: &[u64]) -> Result<Ending, Fail> {
    let mut rack = rack_of(alloc, 512 * 5, fails)?;
    let mut group = Group::new(0, 3);
    let mut got = [0; 1500];
    if !blank(&mut group, &mut rack, 3000) {
        return Ok(ended(&group));
    }
    if !write(&mut group, &mut rack, 100, &[0x11; 1500]) {
        return Ok(ended(&group));
    }
    drops(&mut group, &mut rack, 2);
    if !write(&mut group, &mut rack, 700, &[0x2f; 1500]) {
        return Ok(ended(&group));
    }
    if !extend(&mut group, &mut rack, 4000) {
        return Ok(ended(&group));
    }
    mends(&mut group, &mut rack, 2);
    if !read(&mut group, &mut rack, 600, &mut got) {
        return Ok(ended(&group));
    }
    Ok(Ending::Read(got))
}

// Whichever calls fail: the bytes are right, or two disks are out.
#[test]
fn calls_fail_without_a_disk(rt: HostRuntime) -> Result<(), Fail> {
    assert!(rt; run_without(rt.alloc(), &[])? == expected());
    for first in 0..60 {
        for second in 0..first + 1 {
            let ending = run_without(rt.alloc(), &[first, second])?;
            assert!(rt; ending == Ending::Lost || ending == expected());
        }
    }
    Ok(())
}

// How many disks of a group are out.
fn outs(group: &Group) -> u8 {
    let mut count = 0;
    for j in 0..group.width() {
        if group.is_out(j) && count < 8 {
            count += 1;
        }
    }
    count
}

// How many disks are out once a slot of 4,096 bytes was written from a place on, while one call fails. The first six make the group.
fn outs_after(alloc: Global, place: u64, call: u64) -> Result<u8, Fail> {
    let mut rack = rack_of(alloc, 512 * 12, &[call])?;
    let mut group = Group::new(0, 3);
    blank(&mut group, &mut rack, 512 * 20);
    write(&mut group, &mut rack, place, &[7; 4096]);
    Ok(outs(&group))
}

// A slot that begins within a stripe takes two reads and three writes, and one of whole stripes three writes.
#[test]
fn calls_of_a_slot(rt: HostRuntime) -> Result<(), Fail> {
    assert!(rt; outs_after(rt.alloc(), 512, 6)? == 1);
    assert!(rt; outs_after(rt.alloc(), 512, 10)? == 1);
    assert!(rt; outs_after(rt.alloc(), 512, 11)? == 0);
    assert!(rt; outs_after(rt.alloc(), 1024, 8)? == 1);
    assert!(rt; outs_after(rt.alloc(), 1024, 9)? == 0);
    Ok(())
}
