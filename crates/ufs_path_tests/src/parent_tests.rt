// Which directory names each inode. The pairs are worked out by hand.
ghost use Rattle.std.specs.Prelude.{◌≡◌, length};

use crate::tests::{NOTHING, image, put};
use dg_io::{Loss, MemView};
use std::alloc::Global;
use std::process::Abort;
use std::test::Fail;
use ufs_path::{Levels, parents};
use ufs_samples::Which;

/// An inode and a directory.
type Pair = (u32, u32);

/// Compares the parents of a volume that loses a block. `None` where there is no answer.
fn check(
    rt: &impl Abort,
    alloc: Global,
    image: Vec<u8>,
    loss: Loss,
    wanted: Option<&[Pair]>,
) -> Result<(), Fail>
    requires { length image.items ≡ 131072 }
{
    let mut view = MemView::new(image, 1024, 128, vec![in alloc; loss]?);
    let mut levels = Levels::new(alloc, 1024)?;
    let found = parents(alloc, &mut view, &mut levels)?;
    assert_eq!(rt; found.is_some(), wanted.is_some());
    let (Some(found), Some(wanted)) = (found, wanted) else {
        return Ok(());
    };
    assert_eq!(rt; found.len(), wanted.len());
    for (parent, (inode, directory)) in found.iter().zip(wanted) {
        assert_eq!(rt; parent.inode, *inode);
        assert_eq!(rt; parent.directory, *directory, "inode {inode}");
    }
    Ok(())
}

/// The parents of the volume with files.
const FILES: [Pair; 5] = [(3, 2), (4, 2), (5, 4), (6, 2), (7, 2)];

/// The same where nothing names inode 5.
const FEWER: [Pair; 4] = [(3, 2), (4, 2), (6, 2), (7, 2)];

/// The directory `/d` has its entries at this byte, and names inode 5 at that one.
const ENTRIES: usize = 35_840;

const NAMED: usize = 35_864;

/// Inode 3 stands here.
const FILE: usize = 29_056;

#[test]
fn bytes_that_are_put_in(rt: HostRuntime) -> Result<(), Fail> {
    let alloc = rt.alloc();
    for (at, bytes, wanted) in [
        // A directory whose first entry has no length is refused, and so names nothing.
        (ENTRIES + 4, b"\0\0".as_slice(), FEWER.as_slice()),
        // `/d/b` names inode 3, as `/a` does, and none names inode 5.
        (NAMED, b"\x03".as_slice(), FEWER.as_slice()),
        // There is no geometry.
        (8192 + 1372, b"\0\0\0\0".as_slice(), [].as_slice()),
    ] {
        let mut volume = image(alloc, Which::F)?;
        if at < 131_000 && bytes.len() <= 4 {
            put(&mut volume, at, bytes);
        }
        check(&rt, alloc, volume, NOTHING, Some(wanted))?;
    }
    Ok(())
}

/// Inode 3 is a directory too, of the block of `/d`: so it is the least one that names inode 5.
#[test]
fn directories_of_one_block(rt: HostRuntime) -> Result<(), Fail> {
    let alloc = rt.alloc();
    let mut volume = image(alloc, Which::F)?;
    put(&mut volume, FILE, b"\xed\x41");
    put(&mut volume, FILE + 8, b"\0\x02\0\0\0\0\0\0");
    put(&mut volume, FILE + 40, b"\x23\0\0\0");
    let wanted = [(3, 2), (4, 2), (5, 3), (6, 2), (7, 2)];
    check(&rt, alloc, volume, NOTHING, Some(&wanted))
}

/// The blocks of directories and of inodes are read, and those of files aren't. The other order of bytes says the same.
#[test]
fn blocks_that_are_gone(rt: HostRuntime) -> Result<(), Fail> {
    let alloc = rt.alloc();
    for (which, block, there) in [
        (Which::F, 8, false),
        (Which::F, 28, false),
        (Which::F, 33, false),
        (Which::F, 35, false),
        (Which::F, 34, true),
        (Which::Fb, 34, true),
    ] {
        let loss = Loss { block, fetch: 0 };
        let wanted = if there { Some(FILES.as_slice()) } else { None };
        check(&rt, alloc, image(alloc, which)?, loss, wanted)?;
    }
    Ok(())
}
