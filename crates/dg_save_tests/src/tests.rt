ghost use Rattle.dg_save.specs.Labels.{IsFormat};

use dg_model::Home;
use dg_save::{
    LABEL_BYTES, Label, NoMemory, Phase, SavedState, Shape, Site, body_place, decode, encode,
    member_length, read_label, write_label,
};
use std::alloc::Global;
use std::test::Fail;

/// The array of the worked rows.
const ARRAY: Shape = Shape {
    l: 1024,
    n: 128,
    b: 4,
    k: 64,
    m: 2,
};

#[test]
fn lengths_of_members(rt: HostRuntime) {
    assert!(rt; body_place(&ARRAY) == 67_072);
    assert!(rt; member_length(&ARRAY, 1) == 69_284);
    assert!(rt; member_length(&ARRAY, 2) == 69_993);
}

/// The front of a label: side 0 of boundary 1, sealed by save 3, with a body of 300 bytes.
const FRONT: [u8; 44] = [
    0x44, 0x47, 0x52, 0x41, 0x49, 0x44, 0x2d, 0x32, 3, 0, 0, 0, 0, 0, 0, 0, 0x53, 1, 0, 0, 0, 4, 0,
    0, 128, 0, 0, 0, 4, 0, 0, 0, 64, 0, 0, 0, 2, 0, 0, 0, 44, 1, 0, 0,
];

fn label_with(place: usize, byte: u8) -> [u8; LABEL_BYTES] {
    let mut bytes = [0; LABEL_BYTES];
    bytes[..44].copy_from_slice(&FRONT);
    if place < LABEL_BYTES {
        bytes[place] = byte;
    }
    bytes
}

#[test]
fn labels_of_both_formats(rt: HostRuntime) -> Result<(), Fail> {
    for (digit, format, seal, sealed) in [(0x31, 1, 0x53, true), (0x32, 2, 0x4f, false)] {
        let mut bytes = label_with(7, digit);
        bytes[16] = seal;
        let label = read_label(&bytes).ok_or("a label")?;
        let want = Label {
            format,
            sequence: 3,
            sealed,
            boundary: 1,
            side: 0,
            shape: ARRAY,
            body: 300,
        };
        assert!(rt; label == want);
    }
    Ok(())
}

#[test]
fn label_of_a_label(rt: HostRuntime) {
    let bytes = label_with(7, 0x31);
    let mut again = [0xff; LABEL_BYTES];
    if let Some(label) = read_label(&bytes) {
        write_label(&label, &mut again);
    }
    assert!(rt; again == bytes);
}

#[test]
fn no_labels(rt: HostRuntime) {
    let rows = [
        ("magic", 6, 0x2b),
        ("format 0", 7, 0x30),
        ("format 3", 7, 0x33),
        ("sequence 0", 8, 0),
        ("sequence 2^63", 15, 0x80),
        ("seal", 16, 0x54),
        ("boundary B", 17, 4),
        ("side", 18, 2),
        ("the byte behind the side", 19, 1),
        ("L", 21, 5),
        ("N 0", 24, 0),
    ];
    for (name, place, byte) in rows {
        assert!(rt; read_label(&label_with(place, byte)).is_none(), "{name}");
    }
    let rows = [
        ("B 1", 28, 1),
        ("B 2^24", 31, 1),
        ("K 0", 32, 0),
        ("m over B", 36, 5),
        ("m 0", 36, 0),
        ("a body past its room", 41, 12),
        ("the first byte behind", 44, 1),
        ("the last byte", 511, 1),
    ];
    for (name, place, byte) in rows {
        assert!(rt; read_label(&label_with(place, byte)).is_none(), "{name}");
    }
}

const SMALL: Shape = Shape {
    l: 512,
    n: 3,
    b: 2,
    k: 2,
    m: 1,
};

/// A settled state: block 1 is pending, block 2 is on both boundaries; a home, a copy and two recent inodes.
const BODY: [u8; 56] = [
    1, 0, 0, 0, 0, 0, 1, 0, 0, 0, 1, 1, 1, 0, 0, 0, 0, 2, 0, 0, 1, 0, 0, 0, 1, 2, 0, 0, 0, 1, 0, 0,
    0, 3, 0, 0, 0, 0, 1, 0, 0, 0, 3, 0, 0, 0, 1, 2, 3, 0, 0, 0, 2, 0, 0, 0,
];

/// How much of it stands in format 1.
const FORMAT_1: usize = 38;

/// What the body says, and the body that is made of that.
fn read_back(
    alloc: Global,
    body: &[u8],
    format: u8,
) -> Result<Option<(SavedState, Vec<u8>)>, NoMemory>
    requires { IsFormat format }
{
    match decode(alloc, body, &SMALL, format)? {
        Some(state) => {
            let bytes = encode(alloc, &state, format)?;
            Ok(Some((state, bytes)))
        }
        None => Ok(None),
    }
}

fn is_body(alloc: Global, body: &[u8], format: u8) -> Result<bool, NoMemory>
    requires { IsFormat format }
{
    Ok(decode(alloc, body, &SMALL, format)?.is_some())
}

/// Whether the body is still one once a byte is changed.
fn changed(alloc: Global, place: usize, byte: u8) -> Result<bool, NoMemory> {
    let mut body = BODY;
    if place < body.len() {
        body[place] = byte;
    }
    is_body(alloc, &body, 2)
}

#[test]
fn body_of_format_2(rt: HostRuntime) -> Result<(), Fail> {
    let read = read_back(rt.alloc(), &BODY, 2).ok().ok_or("no memory")?;
    let (state, bytes) = read.ok_or("a body")?;
    assert!(rt; state.shape == SMALL && state.phase == Phase::Settled);
    assert!(rt; state.good.as_slice() == [true, true, false, true].as_slice());
    assert!(rt; state.pending.as_slice() == [false, true, false].as_slice());
    assert!(rt; state.sites.as_vec().len() == 3);
    assert!(rt;
        state.homes.as_slice()
            == [Home {
                inode: 3,
                boundary: 0
            }]
            .as_slice()
    );
    assert!(rt;
        state.copies.as_slice()
            == [Home {
                inode: 3,
                boundary: 1
            }]
            .as_slice()
    );
    assert!(rt; state.recent.as_slice() == [3, 2].as_slice());
    assert!(rt; bytes.as_slice() == BODY.as_slice());
    Ok(())
}

#[test]
fn body_of_format_1(rt: HostRuntime) -> Result<(), Fail> {
    let (front, _) = BODY.split_at(FORMAT_1);
    let read = read_back(rt.alloc(), front, 1).ok().ok_or("no memory")?;
    let (state, bytes) = read.ok_or("a body")?;
    assert!(rt; state.copies.as_slice().is_empty() && state.recent.as_slice().is_empty());
    assert!(rt; bytes.as_slice() == front);
    Ok(())
}

#[test]
fn no_bodies(rt: HostRuntime) -> Result<(), Fail> {
    let rows = [
        ("phase 3", 0, 3),
        ("copies in Loose", 0, 0),
        ("copies in Worn", 0, 2),
        ("padding", 3, 1),
        ("a member's mark of 2", 4, 2),
        ("a block's mark of 2", 9, 2),
        ("boundary B", 12, 2),
        ("slot K+1", 13, 3),
        ("a slot twice", 13, 2),
        ("a boundary twice", 24, 0),
        ("a home on boundary B", 37, 2),
    ];
    for (name, place, byte) in rows {
        assert!(rt;
            !changed(rt.alloc(), place, byte).ok().ok_or("no memory")?,
            "{name}"
        );
    }
    let rows = [
        ("a copy of a file without a home", 42, 4),
        ("a copy on the home", 46, 0),
        ("a byte less", 47, 3),
        ("a byte too many", 47, 1),
        ("two equal inodes", 52, 3),
    ];
    for (name, place, byte) in rows {
        assert!(rt;
            !changed(rt.alloc(), place, byte).ok().ok_or("no memory")?,
            "{name}"
        );
    }
    Ok(())
}

#[test]
fn lists_that_are_refused(rt: HostRuntime) -> Result<(), Fail> {
    let front = [1, 0, 0, 0, 0, 0, 0, 0, 0, 0, 0, 0, 0, 0];
    let falling = [2, 0, 0, 0, 5, 0, 0, 0, 0, 4, 0, 0, 0, 1];
    let rising = [2, 0, 0, 0, 4, 0, 0, 0, 0, 5, 0, 0, 0, 1];
    let many = [
        4, 0, 0, 0, 1, 0, 0, 0, 0, 2, 0, 0, 0, 0, 3, 0, 0, 0, 0, 4, 0, 0, 0, 0,
    ];
    let huge = [255, 255, 255, 255];
    let rows: [(&str, &[u8], bool); 4] = [
        ("inodes that rise", &rising, true),
        ("inodes that fall", &falling, false),
        ("more homes than blocks", &many, false),
        ("more homes than bytes", &huge, false),
    ];
    for (name, homes, is) in rows {
        let body = joined(rt.alloc(), &front, homes).ok().ok_or("no memory")?;
        let found = is_body(rt.alloc(), &body, 1).ok().ok_or("no memory")?;
        assert!(rt; found == is, "{name}");
    }
    for (count, is) in [(16, true), (17, false)] {
        let body = with_recent(rt.alloc(), &front, count)
            .ok()
            .ok_or("no memory")?;
        let found = is_body(rt.alloc(), &body, 2).ok().ok_or("no memory")?;
        assert!(rt; found == is);
    }
    Ok(())
}

fn joined(alloc: Global, front: &[u8], rest: &[u8]) -> Result<Vec<u8>, NoMemory> {
    let mut body = Vec::new(alloc);
    if body.extend_from_slice(front).is_err() || body.extend_from_slice(rest).is_err() {
        return Err(NoMemory);
    }
    Ok(body)
}

/// A body without homes and copies, and with so many recent inodes.
fn with_recent(alloc: Global, front: &[u8], count: u8) -> Result<Vec<u8>, NoMemory> {
    let mut body = joined(alloc, front, &[0, 0, 0, 0, 0, 0, 0, 0, count])?;
    for inode in 0..count {
        if body.extend_from_slice(&[inode, 0, 0, 0]).is_err() {
            return Err(NoMemory);
        }
    }
    Ok(body)
}
