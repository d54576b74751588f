use dg_stop::{Header, fill_header, next_after, read_header, table_len};
use std::test::Fail;

// Every number has bytes of its own, and they stand in the little-endian order.
#[test]
fn a_header_is_one_page(rt: HostRuntime) -> Result<(), Fail> {
    let mut page = [9; 512];
    let header = Header {
        sequence: 0x0102,
        committed: true,
        member: 5,
        size: 0x010203,
        room: 300,
        extra: 7,
    };
    fill_header(&header, &mut page);
    assert!(rt; page.starts_with(b"DGRAID-S\x02\x01\0\0\0\0\0\0\x43\x05\0\0\0\0\0\0"));
    assert!(rt; page[24..].starts_with(b"\x03\x02\x01\0\0\0\0\0\x2c\x01\0\0\x07\0\0\0"));
    assert!(rt; page[40..].iter().all(|byte| *byte == 0));
    Ok(())
}

// A member of 69,993 bytes has 137 pages, whose bits take 18 bytes; with room for 126 extra bytes a table is one page, and with more it is two.
#[test]
fn a_table_takes_whole_pages(rt: HostRuntime) -> Result<(), Fail> {
    assert_eq!(rt; table_len(69_993, 126), 512);
    assert_eq!(rt; table_len(69_993, 494), 512);
    assert_eq!(rt; table_len(69_993, 495), 1024);
    assert_eq!(rt; table_len(0, 0), 0);
    Ok(())
}

#[test]
fn the_next_commit_stands_in_the_other_places(rt: HostRuntime) -> Result<(), Fail> {
    assert_eq!(rt; next_after(0, 0), 1);
    assert_eq!(rt; next_after(1, 1), 2);
    assert_eq!(rt; next_after(1, 2), 4);
    assert_eq!(rt; next_after(4, 6), 7);
    Ok(())
}

// The header of a member of 1,000 bytes: two pages, which stand in 4,096 bytes.
const HEADER: Header = Header {
    sequence: 5,
    committed: true,
    member: 3,
    size: 1000,
    room: 10,
    extra: 7,
};

fn read_back(header: &Header, place: u64, length: u64) -> Option<Header> {
    let mut page = [0; 512];
    fill_header(header, &mut page);
    read_header(&page, place, 3, length)
}

#[test]
fn a_header_is_read_with_either_mark(rt: HostRuntime) -> Result<(), Fail> {
    let prepared = Header {
        committed: false,
        ..HEADER
    };
    assert_eq!(rt; read_back(&HEADER, 1, 4096), Some(HEADER));
    assert_eq!(rt; read_back(&prepared, 1, 4096), Some(prepared));
    assert_eq!(rt; read_header(&[0; 512], 0, 3, 4096), None);
    Ok(())
}

#[test]
fn a_header_counts_on_its_own_member_alone(rt: HostRuntime) -> Result<(), Fail> {
    let other = Header {
        member: 4,
        ..HEADER
    };
    let crowded = Header {
        extra: 11,
        ..HEADER
    };
    assert_eq!(rt; read_back(&HEADER, 0, 4096), None);
    assert_eq!(rt; read_back(&HEADER, 1, 4095), None);
    assert_eq!(rt; read_back(&HEADER, 1, u64::MAX), None);
    assert_eq!(rt; read_back(&other, 1, 4096), None);
    assert_eq!(rt; read_back(&crowded, 1, 4096), None);
    Ok(())
}

#[test]
fn sequences_have_bounds(rt: HostRuntime) -> Result<(), Fail> {
    let none = Header {
        sequence: 0,
        ..HEADER
    };
    let greatest = Header {
        sequence: (1 << 62) - 1,
        ..HEADER
    };
    let past = Header {
        sequence: 1 << 62,
        ..HEADER
    };
    assert_eq!(rt; read_back(&none, 0, 4096), None);
    assert_eq!(rt; read_back(&greatest, 1, 4096), Some(greatest));
    assert_eq!(rt; read_back(&past, 0, 4096), None);
    Ok(())
}
