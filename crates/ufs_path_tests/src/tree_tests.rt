// The listing of a whole volume.
ghost use Rattle.std.specs.Prelude.{◌≡◌, length};

use crate::list_tests::MemListing;
use crate::tests::{NOTHING, image, put};
use dg_io::{Loss, MemView};
use std::alloc::Global;
use std::test::Fail;
use ufs_path::{BadRead, CatAnswer, Levels, tree};
use ufs_samples::Which;

/// What `tree` answers on a volume that loses a block, how many entries a listing with so much room takes, and the inode of the last one.
fn grow(
    alloc: Global,
    image: Vec<u8>,
    loss: Loss,
    room: usize,
) -> Result<(CatAnswer, usize, u32), Fail>
    requires { length image.items ≡ 131072 }
{
    let mut view = MemView::new(image, 1024, 128, vec![in alloc; loss]?);
    let mut levels = Levels::new(alloc, 1024)?;
    let mut out = MemListing::new(room);
    let answer = tree(alloc, &mut view, &mut levels, &mut out)?;
    Ok((answer, out.entries, out.last))
}

/// The root, and the inode that the entry `b` of `/d` names, stand at these bytes.
const ROOT: usize = 28_928;

const NAMED: usize = 35_864;

/// `/d/b` is the root: of 32 inodes, so that there are entries at 32 depths, four at one and one at the next. Else the root is no directory
/// or isn't allocated, or an entry names the inode below the root.
#[test]
fn volumes_that_are_not_sound(rt: HostRuntime) -> Result<(), Fail> {
    let alloc = rt.alloc();
    for (at, bytes, wanted, entries) in [
        (NAMED, b"\x02".as_slice(), CatAnswer::Given(80), 80),
        (ROOT, b"\xa4\x81".as_slice(), CatAnswer::NotDirectory, 0),
        (ROOT, b"\0\0".as_slice(), CatAnswer::Bad(BadRead::Entry), 0),
        (NAMED, b"\x01".as_slice(), CatAnswer::Bad(BadRead::Entry), 0),
    ] {
        let mut volume = image(alloc, Which::F)?;
        if at < 131_000 && bytes.len() <= 4 {
            put(&mut volume, at, bytes);
        }
        let (answer, taken, _) = grow(alloc, volume, NOTHING, 99)?;
        assert_eq!(rt; answer, wanted);
        assert!(rt; taken == entries);
    }
    Ok(())
}

/// The last entry of the root is that of inode 7, and the second one is that of inode 4.
#[test]
fn blocks_and_listings_that_fail(rt: HostRuntime) -> Result<(), Fail> {
    let alloc = rt.alloc();
    for (block, room, wanted, entries, last) in [
        (8, 9, CatAnswer::Unavailable, 0, 0),
        (28, 9, CatAnswer::Unavailable, 0, 0),
        (33, 9, CatAnswer::Unavailable, 0, 0),
        (35, 9, CatAnswer::Unavailable, 0, 0),
        (34, 9, CatAnswer::Given(5), 5, 7),
        (34, 2, CatAnswer::SinkFault, 2, 4),
    ] {
        let loss = Loss { block, fetch: 0 };
        let (answer, taken, inode) = grow(alloc, image(alloc, Which::F)?, loss, room)?;
        assert_eq!(rt; answer, wanted, "block {block}");
        assert!(rt; taken == entries && inode == last);
    }
    Ok(())
}
