ghost use Rattle.std.specs.Prelude.{◌≡◌, ◌+◌, ◌≤◌, IfOk, length};

use dg_io::{Loss, MemSink, MemView};
use std::alloc::Global;
use std::test::Fail;
use ufs_path::{CatAnswer, Inode, Levels, LookFault, cat, is_path, look};
use ufs_samples::{Which, sample_image};

/// The 128 blocks of a volume.
pub fn image(alloc: Global, which: Which) -> Result<Vec<u8>, Fail>
    ensures { IfOk result (λ image. length image.items ≡ 131072) }
{
    match sample_image(alloc, which) {
        Ok(image) => Ok(image),
        Err(_) => Err("memory".into()),
    }
}

/// What `cat` answers on a volume that loses a block, and the bytes that it hands on to a receiver
/// with so much room.
fn read(
    alloc: Global,
    image: Vec<u8>,
    path: &[u8],
    loss: Loss,
    room: usize,
) -> Result<(CatAnswer, Vec<u8>), Fail>
    requires { length image.items ≡ 131072 }
{
    let mut view = MemView::new(image, 1024, 128, vec![in alloc; loss]?);
    let mut levels = Levels::new(alloc, 1024)?;
    let mut out = MemSink::new(alloc, room, Vec::new(alloc))?;
    if !is_path(path) {
        return Err("path".into());
    }
    let answer = cat(&mut view, &mut levels, path, &mut out);
    Ok((answer, Vec::from_slice(alloc, out.taken())?))
}

/// What a path leads to on a volume that loses a block.
fn found(
    alloc: Global,
    image: Vec<u8>,
    path: &[u8],
    loss: Loss,
) -> Result<Result<(u32, Inode), LookFault>, Fail>
    requires { length image.items ≡ 131072 }
{
    let mut view = MemView::new(image, 1024, 128, vec![in alloc; loss]?);
    let mut levels = Levels::new(alloc, 1024)?;
    if !is_path(path) {
        return Err("path".into());
    }
    Ok(look(&mut view, &mut levels, path))
}

/// Writes bytes at a place.
pub fn put(image: &mut [u8], at: usize, bytes: &[u8])
    requires { at + length bytes.now ≤ length image.old }
    ensures { length image.new ≡ length image.old }
{
    image[at..at + bytes.len()].copy_from_slice(bytes);
}

/// Nothing that a file needs.
pub const NOTHING: Loss = Loss {
    block: 127,
    fetch: 0,
};

/// The blocks 8 and 9 have the superblock, 28 the inodes, 33 the root's directory and 35 that of `/d`. The file has the blocks 36 to 83
/// directly, and 88 to 91 through the blocks 84 to 87. The inode is found without the file's own blocks.
#[test]
fn blocks_that_are_gone(rt: HostRuntime) -> Result<(), Fail> {
    let alloc = rt.alloc();
    for block in 0..128 {
        let loss = Loss { block, fetch: 0 };
        let (answer, bytes) = read(alloc, image(alloc, Which::F)?, b"/d/b", loss, 65536)?;
        let (wanted, length) = match block {
            8 | 9 | 28 | 33 | 35..=91 => (CatAnswer::Unavailable, 0),
            _ => (CatAnswer::Given(53_248), 53_248),
        };
        assert_eq!(rt; answer, wanted, "block {block}");
        assert!(rt; bytes.len() == length);
    }
    for block in [8, 9, 28, 33, 35, 36] {
        let loss = Loss { block, fetch: 0 };
        match found(alloc, image(alloc, Which::F)?, b"/d/b", loss)? {
            Ok((number, inode)) => {
                assert!(rt; block == 36 && number == 5 && inode.size == 53_248);
            }
            Err(fault) => assert!(rt; block < 36 && fault == LookFault::Unavailable),
        }
    }
    Ok(())
}

#[test]
fn blocks_that_are_gone_later(rt: HostRuntime) -> Result<(), Fail> {
    let alloc = rt.alloc();
    // The file's block is fetched sixth, and again seventh.
    let loss = Loss {
        block: 34,
        fetch: 7,
    };
    let (answer, bytes) = read(alloc, image(alloc, Which::F)?, b"/a", loss, 8192)?;
    assert_eq!(rt; answer, CatAnswer::Cut(0));
    assert!(rt; bytes.is_empty());

    // Of four file blocks, the last is lost the second time.
    let loss = Loss {
        block: 51,
        fetch: 30,
    };
    let (answer, bytes) = read(alloc, image(alloc, Which::X)?, b"/p", loss, 16384)?;
    assert_eq!(rt; answer, CatAnswer::Cut(12288));
    assert!(rt; bytes.len() == 12288 && bytes.iter().all(|byte| *byte == b'p'));
    Ok(())
}

#[test]
fn a_receiver_that_fails(rt: HostRuntime) -> Result<(), Fail> {
    let alloc = rt.alloc();
    let (answer, bytes) = read(alloc, image(alloc, Which::X)?, b"/p", NOTHING, 10000)?;
    assert_eq!(rt; answer, CatAnswer::SinkFault);
    assert!(rt; bytes.len() == 8192);
    Ok(())
}
