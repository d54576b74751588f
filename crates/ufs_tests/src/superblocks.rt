ghost use Rattle.std.specs.Prelude.{◌+◌, ◌≤◌};

use crate::volumes::{LARGE, SMALL, put_in, superblock, superblock_in};
use std::test::Fail;
use ufs_model::Endian;
use ufs_super::{
    Address, BadSuper, Geometry, Role, SystemKind, address, cgbase, cgstart, end_of, group_of,
    is_data_run, read_super, role,
};

/// The magic number tells the order of bytes, and in both orders the fields are the same.
#[test]
fn superblocks_in_both_orders(rt: HostRuntime) -> Result<(), Fail> {
    for (values, n) in [(&SMALL, 128), (&LARGE, 8192)] {
        let little = read_super(&superblock_in(values, Endian::Little), 1024, n)?;
        let big = read_super(&superblock_in(values, Endian::Big), 1024, n)?;
        assert_eq!(rt; (little.endian, big.endian), (Endian::Little, Endian::Big));
        let turned = Geometry {
            endian: Endian::Little,
            ..big
        };
        assert_eq!(rt; turned, little);
    }
    Ok(())
}

/// One field of the small volume's superblock, whose numbers have the highest byte first, has the
/// lowest byte first.
#[test]
fn one_number_in_the_other_order_refuses(rt: HostRuntime) {
    for (at, value, refused) in [
        (1372, 0x0001_1955, Some(BadSuper::Magic)),
        (1372, 0x0001_1954, Some(BadSuper::Format)),
        (1324, 2, Some(BadSuper::Format)),
        (48, 4096, Some(BadSuper::Bsize)),
        (52, 1024, Some(BadSuper::Fsize)),
        (120, 32, Some(BadSuper::Inopb)),
        (44, 1, Some(BadSuper::Groups)),
        (24, 0, None),
    ] {
        let mut bytes = superblock_in(&SMALL, Endian::Big);
        put_in(&mut bytes, at, value, Endian::Little);
        assert_eq!(rt;
            read_super(&bytes, 1024, 128).err(),
            refused,
            "{value} at {at}"
        );
    }
}

#[test]
fn roles_of_the_small_volume(rt: HostRuntime) -> Result<(), Fail> {
    let g = read_super(&superblock(&SMALL), 1024, 128)?;
    for (first, end, wanted) in [
        (0, 8, Role::System(SystemKind::Boot)),
        (8, 10, Role::System(SystemKind::Super)),
        (10, 16, Role::System(SystemKind::Boot)),
        (16, 24, Role::System(SystemKind::Copy)),
        (24, 28, Role::System(SystemKind::Group)),
        (28, 32, Role::System(SystemKind::Inodes)),
        (32, 33, Role::System(SystemKind::Summary)),
        (33, 128, Role::Data(0)),
        (128, 130, Role::Outside),
    ] {
        for block in first..end {
            assert_eq!(rt; role(&g, block), wanted, "block {block}");
        }
    }
    Ok(())
}

#[test]
fn groups_of_the_large_volume(rt: HostRuntime) -> Result<(), Fail> {
    let g = read_super(&superblock(&LARGE), 1024, 8192)?;
    assert_eq!(rt; g.ncg, 4);
    assert_eq!(rt;
        (cgbase(&g, 3), cgstart(&g, 3), end_of(&g, 3)),
        (6144, 6240, 8192)
    );
    assert_eq!(rt; g.size, 8192);
    assert_eq!(rt; (group_of(&g, 6143), group_of(&g, 6144)), (2, 3));
    assert!(rt; is_data_run(&g, 2040, 8));
    for (pointer, wanted) in [
        (0, Address::Hole),
        (64, Address::Wild),
        (65, Address::At(65, 8)),
        (2040, Address::At(2040, 8)),
        (2041, Address::Wild),
        (2088, Address::At(2088, 8)),
        (2089, Address::Wild),
        (2143, Address::Wild),
        (2144, Address::At(2144, 8)),
        (8184, Address::At(8184, 8)),
        (8185, Address::Wild),
        (0xffff_ffff, Address::Wild),
    ] {
        assert_eq!(rt; address(&g, pointer, 8), wanted, "pointer {pointer}");
    }
    Ok(())
}
