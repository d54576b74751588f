ghost use Rattle.std.specs.Prelude.{◌≡◌, length};

use crate::tests::{NOTHING, image};
use dg_io::{Failed, Loss, MemView};
use std::alloc::Global;
use std::test::Fail;
use ufs_model::Kind;
use ufs_path::{CatAnswer, Levels, Listing, is_path, ls};
use ufs_samples::Which;

/// A listing in memory: how many entries it took, and the inode of the last one. It takes so many.
#[derive(Drop)]
pub struct MemListing {
    /// The entries that it took.
    pub entries: usize,
    /// The inode of the last one.
    pub last: u32,
    room: usize,
    faults: u64,
}

impl MemListing {
    /// A listing that takes so many entries.
    pub fn new(room: usize) -> MemListing {
        MemListing {
            entries: 0,
            last: 0,
            room,
            faults: 0,
        }
    }
}

impl Listing for MemListing {
    ghost took = { λ old entries new. Unit {0} };

    ghost took_part = { λ old entries new. Unit {0} };

    ghost faults = { λ listing. listing.faults };

    fn line(
        &mut self,
        _depth: u32,
        inode: u32,
        _kind: Kind,
        _size: u64,
        _name: &[u8],
    ) -> Result<(), Failed> {
        if self.room == 0 {
            self.faults = self.faults.saturating_add(1);
            return Err(Failed);
        }
        self.room = self.room.saturating_sub(1);
        self.entries = self.entries.saturating_add(1);
        self.last = inode;
        Ok(())
    }

    ghost nothing = { λ s. tt };

    ghost then = { λ a b c x y first second. tt };

    ghost then_part = { λ a b c x y first second. tt };

    ghost part = { λ a b x y first. tt };
}

/// What `ls` answers for `/d` on a volume that loses a block, how many entries a listing with so much room takes, and the inode of the last
/// one.
fn list(
    alloc: Global,
    image: Vec<u8>,
    loss: Loss,
    room: usize,
) -> Result<(CatAnswer, usize, u32), Fail>
    requires { length image.items ≡ 131072 }
{
    let mut view = MemView::new(image, 1024, 128, vec![in alloc; loss]?);
    let mut levels = Levels::new(alloc, 1024)?;
    let mut out = MemListing::new(room);
    let path = b"/d".as_slice();
    if !is_path(path) {
        return Err("path".into());
    }
    let answer = ls(&mut view, &mut levels, path, &mut out);
    Ok((answer, out.entries, out.last))
}

/// The directory's block 35 is fetched as the sixth, the seventh and the eleventh, and block 28, with
/// the inodes, before the sixth, as the eighth to the tenth, and as the twelfth to the fourteenth. The entries name the inodes 4, 2 and 5.
#[test]
fn blocks_of_a_directory_that_are_gone(rt: HostRuntime) -> Result<(), Fail> {
    let alloc = rt.alloc();
    for (block, fetch, wanted, entries, last) in [
        (8, 0, CatAnswer::Unavailable, 0, 0),
        (28, 0, CatAnswer::Unavailable, 0, 0),
        (33, 0, CatAnswer::Unavailable, 0, 0),
        (35, 0, CatAnswer::Unavailable, 0, 0),
        (35, 7, CatAnswer::Unavailable, 0, 0),
        (28, 10, CatAnswer::Unavailable, 0, 0),
        (35, 11, CatAnswer::Cut(0), 0, 0),
        (28, 12, CatAnswer::Cut(0), 0, 0),
        (28, 13, CatAnswer::Cut(1), 1, 4),
        (28, 14, CatAnswer::Cut(2), 2, 2),
        (28, 15, CatAnswer::Given(3), 3, 5),
    ] {
        let loss = Loss { block, fetch };
        let (answer, taken, inode) = list(alloc, image(alloc, Which::F)?, loss, 9)?;
        assert_eq!(rt; answer, wanted, "block {block} from fetch {fetch} on");
        assert!(rt; taken == entries && inode == last);
    }
    Ok(())
}

#[test]
fn a_listing_that_fails(rt: HostRuntime) -> Result<(), Fail> {
    let alloc = rt.alloc();
    let (answer, taken, inode) = list(alloc, image(alloc, Which::F)?, NOTHING, 2)?;
    assert_eq!(rt; answer, CatAnswer::SinkFault);
    assert!(rt; taken == 2 && inode == 2);
    Ok(())
}
