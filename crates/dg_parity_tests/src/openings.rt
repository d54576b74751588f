// Openings of groups: of disks that were put together by hand, and of those that calls on a group left.
ghost use Rattle.std.specs.Prelude.{◌≤◌};

use dg_io::{Disks, DropAnswer, Failed, MemRack, Rack};
use dg_parity::{
    Group, Header, ParityRack, blank, disk_length, drop_disk, fill_header, open_group, write,
};
use std::alloc::Global;
use std::test::Fail;

// A header of group 0, in which no disk is marked.
fn header(epoch: u64, place: u8, disks: u8, marks: u8, size: u64) -> Header {
    Header {
        epoch,
        group: 0,
        place,
        disks,
        marks,
        size,
    }
}

// Makes a disk of so many bytes that begins with a header.
fn put_disk<R: Rack>(rack: &mut R, member: u8, long: u64, header: &Header) -> Result<(), Failed>
    requires { 512 ≤ long }
{
    let mut page = [0; 512];
    fill_header(header, &mut page);
    rack.blank(member, long)?;
    rack.write(member, 0, &page)
}

/// How an opening finds a group of three disks.
#[derive(Clone, Copy, Debug, PartialEq, Eq)]
enum Opening {
    /// No disk has a header that counts.
    Nothing,
    /// Two disks are out.
    Lost,
    /// One disk is out.
    Without(u8),
    /// None is out.
    Whole,
}

// What an opening makes of group 0, as one of three disks.
fn opens<R: Rack>(rack: &mut R) -> Opening {
    let Some(group) = open_group(rack, 0, 3) else {
        return Opening::Nothing;
    };
    state_of(&group)
}

// Which disk of a group is out.
fn state_of(group: &Group) -> Opening {
    if group.is_lost() {
        return Opening::Lost;
    }
    for j in 0..group.width() {
        if group.is_out(j) {
            return Opening::Without(j);
        }
    }
    Opening::Whole
}

// What an opening makes of three disks with these headers.
fn opens_with(alloc: Global, headers: &[Header]) -> Result<Opening, Fail> {
    let mut rack = MemRack::new(alloc, 64, 512 * 9, Vec::new(alloc))?;
    for header in headers {
        let long = 512 * 4;
        if header.place < 8 && put_disk(&mut rack, 32 + header.place, long, header).is_err() {
            return Ok(Opening::Lost);
        }
    }
    Ok(opens(&mut rack))
}

// A member of 3,000 bytes is six chunks, in three stripes of two.
#[test]
fn headers_by_hand(rt: HostRuntime) -> Result<(), Fail> {
    let a = rt.alloc();
    let first = header(5, 0, 3, 0, 3000);
    let second = header(5, 1, 3, 0, 3000);
    let third = header(5, 2, 3, 0, 3000);
    assert!(rt; disk_length(3, 3000) == 512 * 4);
    assert!(rt; opens_with(a, &[])? == Opening::Nothing);
    assert!(rt; opens_with(a, &[first, second, third])? == Opening::Whole);
    assert!(rt; opens_with(a, &[first, third])? == Opening::Without(1));
    assert!(rt; opens_with(a, &[third])? == Opening::Lost);
    assert!(rt; opens_with(a, &[first, second, header(4, 2, 3, 0, 3000)])? == Opening::Without(2));
    assert!(rt; opens_with(a, &[header(4, 0, 3, 0, 3000), second, third])? == Opening::Without(0));
    assert!(rt; opens_with(a, &[first, second, header(6, 2, 3, 0, 3000)])? == Opening::Lost);
    assert!(rt; opens_with(a, &[first, second, header(5, 2, 3, 0, 2999)])? == Opening::Without(2));
    assert!(rt; opens_with(a, &[first, second, header(5, 2, 3, 0, 5000)])? == Opening::Without(2));
    assert!(rt; opens_with(a, &[first, second, header(5, 2, 4, 0, 4600)])? == Opening::Without(2));
    assert!(rt;
        opens_with(a, &[first, second, header(1 << 63, 2, 3, 0, 3000)])? == Opening::Without(2)
    );
    assert!(rt; opens_with(a, &[first, second, header(5, 2, 3, 1, 3000)])? == Opening::Without(2));
    let marked = [
        header(7, 0, 3, 2, 3000),
        header(7, 1, 3, 2, 3000),
        header(7, 2, 3, 2, 3000),
    ];
    assert!(rt; opens_with(a, &marked)? == Opening::Without(1));
    Ok(())
}

// Makes group 0 of three disks, writes to it, drops disk 2 and writes again. False where the group is lost.
fn leave<R: Rack>(rack: &mut R, drops: bool) -> bool {
    let mut group = Group::new(0, 3);
    if !blank(&mut group, rack, 3000) {
        return false;
    }
    if !write(&mut group, rack, 100, &[0x11; 900]) {
        return false;
    }
    if !drops {
        return true;
    }
    if drop_disk(&mut group, rack, 2) != DropAnswer::Dropped(false) {
        return false;
    }
    write(&mut group, rack, 700, &[0x2f; 900])
}

// A disk that was out when the group was written has the header that it had, and doesn't count at the next opening.
#[test]
fn a_disk_that_comes_back(rt: HostRuntime) -> Result<(), Fail> {
    let a = rt.alloc();
    let mut rack = MemRack::new(a, 64, 512 * 9, Vec::new(a))?;
    assert!(rt; leave(&mut rack, false));
    assert!(rt; opens(&mut rack) == Opening::Whole);
    let mut other = MemRack::new(a, 64, 512 * 9, Vec::new(a))?;
    assert!(rt; leave(&mut other, true));
    assert!(rt; opens(&mut other) == Opening::Without(2));
    other.remove(32);
    assert!(rt; opens(&mut other) == Opening::Lost);
    Ok(())
}

// How many disks each group has of a rack that is opened.
fn width(alloc: Global, rack: &mut MemRack) -> Result<Option<u8>, Fail> {
    Ok(ParityRack::open(alloc, rack)?.disks())
}

// The width of an array is that of the least disk, by group and then by place.
#[test]
fn the_width_of_an_array(rt: HostRuntime) -> Result<(), Fail> {
    let a = rt.alloc();
    let mut rack = MemRack::new(a, 160, 512 * 9, Vec::new(a))?;
    assert!(rt; width(a, &mut rack)? == None);
    let four = header(2, 1, 4, 0, 3000);
    assert!(rt; put_disk(&mut rack, 33, 512 * 3, &four).is_ok());
    let three = header(2, 2, 3, 0, 3000);
    assert!(rt; put_disk(&mut rack, 34, 512 * 4, &three).is_ok());
    assert!(rt; width(a, &mut rack)? == Some(4));
    Ok(())
}
