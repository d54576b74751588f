use crate::volumes::{LARGE, SMALL, superblock};
use std::test::Fail;
use ufs_inode::{
    Inode, Kind, has_pointers, inode_at, inodes_near, place_of, read_inode, slot_address, span,
};
use ufs_model::{Address, Endian};
use ufs_super::read_super;

fn file(mode: u16, size: u64) -> Inode {
    let db = [34, 0, 0, 0, 0, 0, 0, 0, 0, 0, 0, 127];
    Inode {
        mode,
        size,
        db,
        ib: [84, 0, 126],
    }
}

/// The same numbers with the lowest byte first, and with the highest.
#[test]
fn fields_of_an_inode(rt: HostRuntime) {
    let inode = file(0o100644, (1 << 56) + 5);
    let mut little = [0; 128];
    little[8] = 5;
    little[40] = 34;
    assert_eq!(rt; read_inode(&little, Endian::Little), None);
    little[0] = 0xa4;
    little[1] = 0x81;
    little[15] = 1;
    little[84] = 127;
    little[88] = 84;
    little[96] = 126;
    assert_eq!(rt; read_inode(&little, Endian::Little), Some(inode));
    let mut big = [0; 128];
    big[15] = 5;
    big[43] = 34;
    assert_eq!(rt; read_inode(&big, Endian::Big), None);
    big[0] = 0x81;
    big[1] = 0xa4;
    big[8] = 1;
    big[87] = 127;
    big[91] = 84;
    big[99] = 126;
    assert_eq!(rt; read_inode(&big, Endian::Big), Some(inode));
}

/// Each kind, and whether files of 59 and of 60 bytes have pointers.
#[test]
fn kinds_of_modes(rt: HostRuntime) -> Result<(), Fail> {
    let g = read_super(&superblock(&SMALL), 1024, 128)?;
    for (mode, kind, short, long) in [
        (0o010644, Kind::Pipe, false, false),
        (0o020600, Kind::Character, false, false),
        (0o040755, Kind::Directory, true, true),
        (0o060600, Kind::Block, false, false),
        (0o100644, Kind::Regular, true, true),
        (0o120777, Kind::Link, false, true),
        (0o140777, Kind::Socket, false, false),
        (0o000644, Kind::Unknown, false, false),
        (0o160000, Kind::Unknown, false, false),
    ] {
        assert_eq!(rt; file(mode, 0).kind(), kind, "mode {mode:o}");
        assert_eq!(rt; has_pointers(&g, &file(mode, 59)), short, "mode {mode:o}");
        assert_eq!(rt; has_pointers(&g, &file(mode, 60)), long, "mode {mode:o}");
    }
    Ok(())
}

#[test]
fn places_of_inodes(rt: HostRuntime) -> Result<(), Fail> {
    let g = read_super(&superblock(&SMALL), 1024, 128)?;
    assert_eq!(rt; (g.ncg, g.ipg), (1, 32));
    assert_eq!(rt; place_of(&g, 2), (28, 256));
    assert_eq!(rt; place_of(&g, 31), (31, 896));
    let g = read_super(&superblock(&LARGE), 1024, 8192)?;
    assert_eq!(rt; (g.ncg, g.ipg), (4, 256));
    assert_eq!(rt; place_of(&g, 700), (4215, 512));
    assert_eq!(rt; place_of(&g, 1023), (6303, 896));
    Ok(())
}

/// The blocks with inodes have eight each, and the inodes of a block are those whose place it is.
#[test]
fn inodes_of_blocks(rt: HostRuntime) -> Result<(), Fail> {
    let g = read_super(&superblock(&SMALL), 1024, 128)?;
    for (block, wanted) in [
        (0, (0, 0)),
        (27, (0, 0)),
        (28, (0, 8)),
        (30, (16, 24)),
        (31, (24, 32)),
        (32, (0, 0)),
        (127, (0, 0)),
        (128, (0, 0)),
        (0xffff_ffff, (0, 0)),
    ] {
        assert_eq!(rt; inodes_near(&g, block), wanted, "block {block}");
    }
    let g = read_super(&superblock(&LARGE), 1024, 8192)?;
    for (block, wanted) in [
        (31, (0, 0)),
        (32, (0, 8)),
        (63, (248, 256)),
        (64, (0, 0)),
        (2080, (0, 0)),
        (2112, (256, 264)),
        (4215, (696, 704)),
        (6303, (1016, 1024)),
        (6304, (0, 0)),
    ] {
        assert_eq!(rt; inodes_near(&g, block), wanted, "block {block}");
    }
    Ok(())
}

#[test]
fn inode_of_a_block(rt: HostRuntime) {
    let mut block = [0; 512];
    block[257] = 0x81;
    block[385] = 0x41;
    assert_eq!(rt; inode_at(&block, 128, Endian::Little), None);
    assert_eq!(rt;
        inode_at(&block, 256, Endian::Little).map(|inode| inode.mode),
        Some(0x8100)
    );
    assert_eq!(rt;
        inode_at(&block, 384, Endian::Big).map(|inode| inode.mode),
        Some(0x0041)
    );
}

#[test]
fn spans_of_slots(rt: HostRuntime) -> Result<(), Fail> {
    let g = read_super(&superblock(&SMALL), 1024, 128)?;
    for (size, slot, wanted) in [
        (0, 0, 4),
        (1, 0, 1),
        (1024, 0, 1),
        (1025, 0, 2),
        (3072, 0, 3),
        (3073, 0, 4),
        (4096, 0, 4),
        (5, 1, 4),
        (4097, 1, 1),
        (5596, 1, 2),
        (45057, 11, 1),
        (49152, 11, 4),
        (5, 12, 4),
        (49153, 12, 4),
        (49153, 14, 4),
    ] {
        assert!(rt; slot <= 14);
        assert_eq!(rt;
            span(&g, &file(0o100644, size), slot),
            wanted,
            "{size} bytes, slot {slot}"
        );
    }
    let inode = file(0o100644, 5);
    for (slot, wanted) in [
        (0, Address::At(34, 1)),
        (1, Address::Hole),
        (11, Address::Wild),
        (12, Address::At(84, 4)),
        (13, Address::Hole),
        (14, Address::Wild),
    ] {
        assert_eq!(rt; slot_address(&g, &inode, slot), wanted, "slot {slot}");
    }
    Ok(())
}
