use crate::volumes::{item, small_spec};
use dg_words::Order;
use std::test::Fail;
use ufs_build::{ItemKind, Items, build, trace_order};
use ufs_model::Endian;
use ufs_super::read_super;

/// The blocks of a volume with one file, worked out by hand: the superblock in 8 and 9, the group block 24, the inodes 28, the
/// root's directory 33 and the file 34.
#[test]
fn orders_of_blocks(rt: HostRuntime) -> Result<(), Fail> {
    let alloc = rt.alloc();
    let mut items = Vec::new(alloc);
    items.push(item(alloc, b"/a", ItemKind::File, b"hello")?)?;
    let image = build(alloc, &small_spec(Endian::Little), &Items::new(items))?;
    assert_eq!(rt; image.len(), 131_072);
    let g = read_super(&image[8192..], 1024, 128)
        .ok()
        .ok_or("superblock")?;
    assert_eq!(rt; g.size, 128);
    for (order, wanted) in [
        (Order::Up, [8, 9, 24, 28, 33, 34]),
        (Order::Down, [34, 33, 28, 24, 9, 8]),
        (Order::Late, [33, 34, 28, 24, 9, 8]),
    ] {
        let blocks = trace_order(alloc, order, &g, &image)?;
        assert_eq!(rt; blocks.as_slice(), wanted.as_slice());
    }
    Ok(())
}
