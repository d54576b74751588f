use crate::volumes::{LARGE, SMALL, superblock, superblock_in};
use std::test::Fail;
use ufs_group::{BadGroup, group_block, is_free, is_used, read_group};
use ufs_model::Endian;
use ufs_super::read_super;

/// The bytes of a number in the order of bytes.
fn digits(value: u32, endian: Endian) -> [u8; 4] {
    match endian {
        Endian::Little => value.to_le_bytes(),
        Endian::Big => value.to_be_bytes(),
    }
}

fn put_in_group(bytes: &mut [u8; 4096], at: usize, value: u32, endian: Endian) {
    if at <= 4092 {
        bytes[at..at + 4].copy_from_slice(&digits(value, endian));
    }
}

/// Inodes 0 to 3 and 15 are used, and fragment 34 is free. The maps are bytes, and have no order.
fn group_in(endian: Endian) -> [u8; 4096] {
    let mut bytes = [0; 4096];
    for (at, value) in [(4, 0x0009_0255), (12, 0), (20, 128), (92, 256), (96, 260)] {
        put_in_group(&mut bytes, at, value, endian);
    }
    bytes[256] = 0x0f;
    bytes[257] = 0x80;
    bytes[264] = 0x04;
    bytes
}

#[test]
fn places_of_group_blocks(rt: HostRuntime) -> Result<(), Fail> {
    let g = read_super(&superblock(&SMALL), 1024, 128)?;
    assert_eq!(rt; g.ncg, 1);
    assert_eq!(rt; group_block(&g, 0), 24);
    let g = read_super(&superblock(&LARGE), 1024, 8192)?;
    assert_eq!(rt; g.ncg, 4);
    assert_eq!(rt; group_block(&g, 3), 6264);
    Ok(())
}

/// A group block in the other order than its superblock.
#[test]
fn other_order_refuses(rt: HostRuntime) -> Result<(), Fail> {
    let g = read_super(&superblock(&SMALL), 1024, 128)?;
    assert_eq!(rt; (g.ncg, g.bsize), (1, 4096));
    assert_eq!(rt;
        read_group(&group_in(Endian::Big), &g, 0).err(),
        Some(BadGroup::Magic)
    );
    Ok(())
}

#[test]
fn marks_of_the_maps(rt: HostRuntime) -> Result<(), Fail> {
    for endian in [Endian::Little, Endian::Big] {
        let g = read_super(&superblock_in(&SMALL, endian), 1024, 128)?;
        assert_eq!(rt; (g.ncg, g.bsize), (1, 4096));
        let bytes = group_in(endian);
        let group = read_group(&bytes, &g, 0)?;
        for i in 0..g.ipg {
            assert_eq!(rt; is_used(&bytes, &group, i), i < 4 || i == 15, "inode {i}");
        }
        for i in 0..group.count {
            assert_eq!(rt; is_free(&bytes, &group, i), i == 34, "fragment {i}");
        }
    }
    Ok(())
}
