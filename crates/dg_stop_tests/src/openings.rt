// Openings of racks in memory, whose members are made by hand.
ghost use Rattle.std.specs.Prelude.{◌+◌, ◌≤◌, length};

use dg_io::{Checkpoint, Failed, MemRack, NoMemory, Rack};
use dg_stop::{Header, Opened, StopRack, fill_header};
use std::alloc::Global;
use std::test::Fail;

/// Bytes of a double member of one page with little room: two headers, two tables of one page, and two places of its page.
const LONG: usize = 3072;

/// A header of commit 1 of a member of 500 bytes.
fn header(member: u8, committed: bool) -> Header {
    Header {
        sequence: 1,
        committed,
        member,
        size: 500,
        room: 16,
        extra: 3,
    }
}

/// Puts bytes at a place.
fn put_at(all: &mut [u8; LONG], at: usize, bytes: &[u8])
    requires { at + length bytes.now ≤ LONG }
{
    let end = at + bytes.len();
    all[at..end].copy_from_slice(bytes);
}

/// A member with this header, whose table names the second place of its page.
fn image(header: &Header) -> [u8; LONG] {
    let mut page = [0; 512];
    fill_header(header, &mut page);
    let mut all = [0; LONG];
    put_at(&mut all, 512, &page);
    put_at(&mut all, 1536, b"\x01abc");
    put_at(&mut all, 2048, b"first");
    put_at(&mut all, 2560, b"hello");
    all
}

/// Makes two members with these marks.
fn put<R: Rack>(rack: &mut R, first: bool, second: bool) -> Result<(), Failed> {
    let one = image(&header(0, first));
    let two = image(&header(1, second));
    rack.blank(0, LONG as u64)?;
    rack.write(0, 0, &one)?;
    rack.blank(1, LONG as u64)?;
    rack.write(1, 0, &two)
}

/// How a member begins that was never saved by itself.
const BLANK: [u8; 8] = [0; 8];

/// A committed member that begins with these bytes.
fn begun(member: u8, begins: &[u8; 8]) -> [u8; LONG] {
    let mut all = image(&header(member, true));
    put_at(&mut all, 0, begins);
    all
}

/// Makes two committed members that begin so.
fn put_begun<R: Rack>(rack: &mut R, first: &[u8; 8], second: &[u8; 8]) -> Result<(), Failed> {
    let one = begun(0, first);
    let two = begun(1, second);
    rack.blank(0, LONG as u64)?;
    rack.write(0, 0, &one)?;
    rack.blank(1, LONG as u64)?;
    rack.write(1, 0, &two)
}

/// The first five bytes of a member that stands.
fn says<R: Rack>(rack: &mut R, member: u8) -> Option<[u8; 5]> {
    let Ok(Some(length)) = rack.attach(member) else {
        return None;
    };
    if length != 500 {
        return None;
    }
    let mut text = [0; 5];
    let Ok(()) = rack.read(member, 0, &mut text) else {
        return None;
    };
    Some(text)
}

/// What an opening gives: how many extra bytes, and what two members say.
#[derive(Clone, Copy, Debug, PartialEq, Eq)]
struct Opening {
    extra: usize,
    first: Option<[u8; 5]>,
    second: Option<[u8; 5]>,
}

const WHOLE: Opening = Opening {
    extra: 3,
    first: Some(*b"hello"),
    second: Some(*b"hello"),
};

fn open<R: Rack + Drop>(alloc: Global, rack: R) -> Result<Opening, NoMemory> {
    let Opened {
        mut rack,
        extra,
        ..
    } = StopRack::open(alloc, rack)?;
    Ok(Opening {
        extra: extra.len(),
        first: says(&mut rack, 0),
        second: says(&mut rack, 1),
    })
}

/// Whether an opening marks each of two members as one on which a call failed.
fn marks<R: Rack + Drop>(alloc: Global, rack: R) -> Result<(bool, bool), NoMemory> {
    let opened = StopRack::open(alloc, rack)?;
    Ok((opened.failed[0], opened.failed[1]))
}

#[test]
fn a_rack_without_headers_is_plain(rt: HostRuntime) -> Result<(), Fail> {
    let alloc = rt.alloc();
    let rack = MemRack::new(alloc, 2, 8, Vec::new(alloc))?;
    let opened = StopRack::open(alloc, rack)?;
    assert!(rt; matches!(opened.rack, StopRack::Plain(_)));
    assert!(rt; opened.extra.is_empty());
    Ok(())
}

// The calls that make the members come first, and then one that looks for each member, or one more that reads its headers.
#[test]
fn a_member_on_which_a_call_failed_is_marked(rt: HostRuntime) -> Result<(), Fail> {
    let alloc = rt.alloc();
    let bare = MemRack::new(alloc, 2, 8, Vec::from_slice(alloc, &[0])?)?;
    assert_eq!(rt; marks(alloc, bare)?, (true, false));
    let mut rack = MemRack::new(alloc, 2, LONG as u64, Vec::from_slice(alloc, &[7])?)?;
    put(&mut rack, true, false)?;
    assert_eq!(rt; marks(alloc, &mut rack)?, (false, true));
    assert_eq!(rt; marks(alloc, &mut rack)?, (false, false));
    Ok(())
}

/// What an opening of two members that begin so gives, if it is double. No call on it fails.
fn open_begun(
    alloc: Global,
    first: &[u8; 8],
    second: &[u8; 8],
) -> Result<(Option<Opening>, bool), Fail> {
    let mut below = MemRack::new(alloc, 2, LONG as u64, Vec::new(alloc))?;
    put_begun(&mut below, first, second)?;
    let Opened {
        mut rack,
        extra,
        failed,
    } = StopRack::open(alloc, below)?;
    let is_quiet = failed.iter().all(|mark| !*mark);
    if rack.room().is_none() {
        return Ok((None, is_quiet));
    }
    let opening = Opening {
        extra: extra.len(),
        first: says(&mut rack, 0),
        second: says(&mut rack, 1),
    };
    Ok((Some(opening), is_quiet))
}

// A committed header stands on the second page of each. It counts where the member doesn't begin as the label of a plain array.
#[test]
fn a_member_that_begins_as_a_label_has_no_header(rt: HostRuntime) -> Result<(), Fail> {
    let first_alone = Opening {
        second: None,
        ..WHOLE
    };
    let second_alone = Opening {
        first: None,
        ..WHOLE
    };
    for (first, second, want) in [
        (BLANK, BLANK, Some(WHOLE)),
        (BLANK, *b"DGRAID-1", Some(first_alone)),
        (*b"DGRAID-2", BLANK, Some(second_alone)),
        (*b"DGRAID-1", *b"DGRAID-2", None),
        (*b"DGRAID-3", *b"DGRAID-\0", Some(WHOLE)),
    ] {
        assert_eq!(rt; open_begun(rt.alloc(), &first, &second)?, (want, true));
    }
    Ok(())
}

// The member that was only prepared is committed by an opening, so that the next one finds it alone.
#[test]
fn an_opening_commits_what_is_prepared(rt: HostRuntime) -> Result<(), Fail> {
    let alloc = rt.alloc();
    let mut rack = MemRack::new(alloc, 2, LONG as u64, Vec::new(alloc))?;
    put(&mut rack, true, false)?;
    assert_eq!(rt; open(alloc, &mut rack)?, WHOLE);
    rack.remove(0);
    let alone = Opening {
        first: None,
        ..WHOLE
    };
    assert_eq!(rt; open(alloc, &mut rack)?, alone);
    Ok(())
}

#[test]
fn prepared_headers_alone_are_no_commit(rt: HostRuntime) -> Result<(), Fail> {
    let alloc = rt.alloc();
    let mut rack = MemRack::new(alloc, 2, LONG as u64, Vec::new(alloc))?;
    put(&mut rack, false, false)?;
    let nothing = Opening {
        extra: 0,
        first: None,
        second: None,
    };
    assert_eq!(rt; open(alloc, &mut rack)?, nothing);
    Ok(())
}

/// Two openings of a rack, in the first of which a call fails: what the second one gives.
fn open_again(alloc: Global, fails: u64) -> Result<Opening, Fail> {
    let mut rack = MemRack::new(alloc, 2, LONG as u64, Vec::from_slice(alloc, &[fails])?)?;
    put(&mut rack, true, false)?;
    open(alloc, &mut rack)?;
    rack.mend();
    Ok(open(alloc, &mut rack)?)
}

// Four calls make the members, and an opening makes less than fifty.
#[test]
fn a_failed_call_of_an_opening_does_no_harm(rt: HostRuntime) -> Result<(), Fail> {
    let alloc = rt.alloc();
    for fails in 4..54 {
        assert_eq!(rt; open_again(alloc, fails)?, WHOLE);
    }
    Ok(())
}
