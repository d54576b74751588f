// What stands beside a saved state, as bytes that were written by hand.
use dg_regroup::{read_extra, write_extra};
use std::test::Fail;

/// Members of 600 bytes; boundaries 0, 1 and 3 of four are in use; blocks 36 and 292 were cut.
const CUT: &[u8] = b"\x58\x02\0\0\0\0\0\0\x04\x03\0\x01\x03\x02\0\0\0\x24\0\0\0\x24\x01\0\0";

/// The same members, with all boundaries in use and no block cut: 18 bytes.
const WHOLE: &[u8] = b"\x58\x02\0\0\0\0\0\0\x04\x04\0\x01\x02\x03\0\0\0\0";

/// None of these says anything.
static DAMAGED: [&[u8]; 10] = [
    b"",
    b"\x58\x02\0\0\0\0\0\0\x04",
    // one byte too few, and one left over
    b"\x58\x02\0\0\0\0\0\0\x04\x04\0\x01\x02\x03\0\0\0",
    b"\x58\x02\0\0\0\0\0\0\x04\x04\0\x01\x02\x03\0\0\0\0\0",
    // boundaries in use that don't ascend, or aren't among the four
    b"\x58\x02\0\0\0\0\0\0\x04\x03\0\x01\x01\0\0\0\0",
    b"\x58\x02\0\0\0\0\0\0\x04\x03\x01\0\x03\0\0\0\0",
    b"\x58\x02\0\0\0\0\0\0\x04\x03\0\x01\x04\0\0\0\0",
    // seventeen boundaries
    b"\x58\x02\0\0\0\0\0\0\x11\x01\0\0\0\0\0",
    // cut blocks that don't ascend
    b"\x58\x02\0\0\0\0\0\0\x04\x01\0\x02\0\0\0\x24\x01\0\0\x24\0\0\0",
    b"\x58\x02\0\0\0\0\0\0\x04\x01\0\x02\0\0\0\x24\0\0\0\x24\0\0\0",
];

#[test]
fn extra_bytes_are_read_and_written(rt: HostRuntime) -> Result<(), Fail> {
    let alloc = rt.alloc();
    let Some(extra) = read_extra(alloc, CUT)? else {
        panic!(rt; "no extra bytes");
    };
    assert_eq!(rt; extra.length, 600);
    assert_eq!(rt; extra.boundaries, 4);
    assert_eq!(rt; extra.live.as_slice(), b"\0\x01\x03".as_slice());
    assert_eq!(rt; extra.cut.as_slice(), [36, 292].as_slice());
    assert_eq!(rt; write_extra(alloc, &extra)?.as_slice(), CUT);
    Ok(())
}

#[test]
fn where_no_block_was_cut_there_are_eighteen_bytes(rt: HostRuntime) -> Result<(), Fail> {
    let alloc = rt.alloc();
    let Some(extra) = read_extra(alloc, WHOLE)? else {
        panic!(rt; "no extra bytes");
    };
    assert_eq!(rt; extra.live.as_slice(), b"\0\x01\x02\x03".as_slice());
    assert_eq!(rt; extra.cut.as_slice().len(), 0);
    assert_eq!(rt; write_extra(alloc, &extra)?.as_slice(), WHOLE);
    Ok(())
}

#[test]
fn damaged_bytes_say_nothing(rt: HostRuntime) -> Result<(), Fail> {
    for bytes in &DAMAGED {
        assert!(rt; read_extra(rt.alloc(), bytes)?.is_none());
    }
    Ok(())
}
