use ufs_model::{
    Endian, accepted_superblocks, is_path, own_blocks_of_groups, u16_at, u32_at, u64_at,
};

/// The magic number of a superblock after two bytes, as volumes of both orders have it.
#[test]
fn numbers_in_both_orders(rt: HostRuntime) {
    let little = [0xff, 0xff, 0x54, 0x19, 0x01, 0x00, 0x00, 0x00, 0x00, 0x00];
    let big = [0xff, 0xff, 0x00, 0x01, 0x19, 0x54, 0x00, 0x00, 0x00, 0x00];
    assert_eq!(rt; u32_at(&little, 2, Endian::Little), 0x0001_1954);
    assert_eq!(rt; u32_at(&big, 2, Endian::Big), 0x0001_1954);
    assert_eq!(rt; u16_at(&little, 2, Endian::Little), 0x1954);
    assert_eq!(rt; u16_at(&big, 4, Endian::Big), 0x1954);
    assert_eq!(rt; u64_at(&little, 2, Endian::Little), 0x0001_1954);
    assert_eq!(rt; u64_at(&big, 2, Endian::Big), 0x0001_1954_0000_0000);
}

/// The laws are functions that do nothing.
#[test]
fn laws_can_be_called(_rt: HostRuntime) {
    accepted_superblocks();
    own_blocks_of_groups();
}

/// Paths, and what is none.
#[test]
fn paths_by_their_form(rt: HostRuntime) {
    for (path, wanted) in [
        (b"/".as_slice(), true),
        (b"/a".as_slice(), true),
        (b"/d/b".as_slice(), true),
        (b"".as_slice(), false),
        (b"a".as_slice(), false),
        (b"//".as_slice(), false),
        (b"/a/".as_slice(), false),
        (b"/a//b".as_slice(), false),
        (b"/a\0".as_slice(), false),
    ] {
        assert_eq!(rt; is_path(path), wanted);
    }
    let longest = [b'a'; 256];
    assert!(rt; !is_path(&longest));
}
