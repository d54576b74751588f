ghost use Rattle.std.specs.Prelude.{◌≡◌, ◌+◌, ◌*◌, ◌^◌, ◌<◌, ◌≤◌, IfOk, length};
ghost use Rattle.ufs_model.specs.Geometries.{IsGeometryOn};

use dg_io::{Loss, MemView};
use std::alloc::Global;
use std::test::Fail;
use ufs_inode::{Inode, read_inode};
use ufs_pointer::{BlockAnswer, Chain, FileBlock, Levels, file_block, locate, read_file_block};
use ufs_samples::{Which, sample_image};
use ufs_super::{Geometry, read_super};

/// The byte at which each field of a superblock stands, from `sblkno` to `magic`.
const FIELDS: [usize; 21] = [
    8, 12, 16, 20, 24, 28, 36, 44, 48, 52, 56, 116, 120, 152, 156, 160, 184, 188, 1320, 1324, 1372,
];

/// One group of 128 fragments of 1024 bytes, four a file block, and 32 inodes.
const SMALL: [u32; 21] = [
    16,
    24,
    28,
    32,
    0,
    0xffff_ffff,
    128,
    1,
    4096,
    1024,
    4,
    1024,
    32,
    32,
    16,
    4096,
    32,
    128,
    60,
    2,
    0x0001_1954,
];

/// One group of 1024 fragments of 65536 bytes, one a file block, and 512 inodes.
const LARGE: [u32; 21] = [
    1,
    2,
    3,
    4,
    0,
    0xffff_ffff,
    1024,
    1,
    65536,
    65536,
    1,
    16384,
    512,
    4,
    16,
    65536,
    512,
    1024,
    60,
    2,
    0x0001_1954,
];

fn put(bytes: &mut [u8], at: usize, value: u32)
    requires { at + 4 ≤ length bytes.old }
{
    bytes[at..at + 4].copy_from_slice(&value.to_le_bytes());
}

fn superblock(values: &[u32; 21]) -> [u8; 1376] {
    let mut bytes = [0; 1376];
    for (at, value) in FIELDS.iter().zip(values) {
        if *at <= 1372 {
            put(&mut bytes, *at, *value);
        }
    }
    bytes
}

/// The last file block of each way, and the first of the next.
#[test]
fn ways_to_file_blocks(rt: HostRuntime) -> Result<(), Fail> {
    let small = read_super(&superblock(&SMALL), 1024, 128)?;
    let large = read_super(&superblock(&LARGE), 65536, 1024)?;
    for (n, in_small, in_large) in [
        (0, Chain::Direct(0), Chain::Direct(0)),
        (11, Chain::Direct(11), Chain::Direct(11)),
        (12, Chain::One(0), Chain::One(0)),
        (1035, Chain::One(1023), Chain::One(1023)),
        (1036, Chain::Two(0, 0), Chain::One(1024)),
        (16395, Chain::Two(14, 1023), Chain::One(16383)),
        (16396, Chain::Two(15, 0), Chain::Two(0, 0)),
        (1049611, Chain::Two(1023, 1023), Chain::Two(63, 1023)),
        (1049612, Chain::Three(0, 0, 0), Chain::Two(63, 1024)),
        (
            268451851,
            Chain::Three(255, 14, 1023),
            Chain::Two(16383, 16383),
        ),
        (268451852, Chain::Three(255, 15, 0), Chain::Three(0, 0, 0)),
        (
            1073741823,
            Chain::Three(1022, 1022, 1011),
            Chain::Three(2, 16382, 16371),
        ),
    ] {
        assert!(rt; n < 0x4000_0000);
        assert_eq!(rt; locate(&small, n), in_small, "block {n}");
        assert_eq!(rt; locate(&large, n), in_large, "block {n}");
    }
    Ok(())
}

/// The pointers of the indirect blocks at 96 (double), 100 (single behind the double one) and 108 (triple): the block, the number of the
/// pointer, and the pointer.
const POINTERS: [(usize, usize, u32); 4] = [(96, 0, 100), (96, 1, 28), (100, 0, 104), (108, 0, 96)];

/// A long file whose first twelve file blocks stand in a row.
const FILE: Inode = Inode {
    mode: 0o100644,
    size: 1 << 31,
    db: [36, 40, 44, 48, 52, 56, 60, 64, 68, 72, 76, 80],
    ib: [84, 96, 108],
};

/// So many blocks of zeros.
fn zeros(alloc: Global, blocks: u32) -> Result<Vec<u8>, Fail>
    requires { blocks ≤ 1024 }
    ensures { IfOk result (λ bytes. length bytes.items ≡ blocks * 1024) }
{
    Ok(vec![in alloc; 0; blocks as usize * 1024]?)
}

/// Where file block `n` of an inode is found, on a volume of `count` blocks that loses one.
fn found(
    alloc: Global,
    image: Vec<u8>,
    count: u32,
    g: &Geometry,
    inode: &Inode,
    n: u32,
    loss: Loss,
) -> Result<BlockAnswer, Fail>
    requires image { length image.items ≡ count * 1024 }
    requires geometry { IsGeometryOn 1024 count g.now }
    requires block { n < 2 ^ 30 }
{
    let mut view = MemView::new(image, 1024, count, vec![in alloc; loss]?);
    let mut levels = Levels::new(alloc, 1024).ok().ok_or("levels")?;
    Ok(file_block(&mut view, g, inode, n, &mut levels))
}

/// Where file block `n` of the file is found, on a volume that loses a block.
fn answer(alloc: Global, n: u32, loss: Loss) -> Result<BlockAnswer, Fail>
    requires { n < 2 ^ 30 }
{
    let g = read_super(&superblock(&SMALL), 1024, 128)?;
    let mut image = zeros(alloc, 128)?;
    for (block, i, value) in &POINTERS {
        let at = *block * 1024 + 4 * *i;
        if at < 131000 && at + 4 <= image.len() {
            put(&mut image, at, *value);
        }
    }
    found(alloc, image, 128, &g, &FILE, n, loss)
}

/// File block 1049612 is found through the blocks 108 to 111, 96 to 99 and 100 to 103, which are
/// fetched in this order. The data at 104 aren't needed.
#[test]
fn chains_of_file_blocks(rt: HostRuntime) -> Result<(), Fail> {
    for (n, block, fetch, wanted) in [
        (1049612, 103, 0, BlockAnswer::Gone),
        (1049612, 108, 1, BlockAnswer::Gone),
        (1049612, 97, 6, BlockAnswer::Gone),
        (1049612, 103, 12, BlockAnswer::Gone),
        (1049612, 103, 13, BlockAnswer::At(104, 4)),
        (1049612, 108, 2, BlockAnswer::At(104, 4)),
        (1049612, 84, 0, BlockAnswer::At(104, 4)),
        (1049612, 104, 0, BlockAnswer::At(104, 4)),
        (1050636, 104, 0, BlockAnswer::Wild),
        (2098188, 104, 0, BlockAnswer::Hole),
        // Through the double one alone.
        (1036, 108, 0, BlockAnswer::At(104, 4)),
        (1036, 99, 0, BlockAnswer::Gone),
        (1037, 108, 0, BlockAnswer::Hole),
        (2060, 108, 0, BlockAnswer::Wild),
        (3084, 108, 0, BlockAnswer::Hole),
    ] {
        assert!(rt; n < 0x4000_0000);
        let loss = Loss { block, fetch };
        assert_eq!(rt;
            answer(rt.alloc(), n, loss)?,
            wanted,
            "block {n} without {block} from fetch {fetch} on"
        );
    }
    Ok(())
}

/// The 128 blocks of the volume with files.
fn volume(alloc: Global) -> Result<Vec<u8>, Fail>
    ensures { IfOk result (λ image. length image.items ≡ 131072) }
{
    match sample_image(alloc, Which::F) {
        Ok(image) => Ok(image),
        Err(_) => Err("memory".into()),
    }
}

/// What is read of file block `n` of inode 5 of the volume with files. The inodes begin at block 28.
fn read_of_volume(alloc: Global, n: u32, loss: Loss) -> Result<Option<FileBlock>, Fail>
    requires { n < 2 ^ 30 }
{
    let image = volume(alloc)?;
    let g = read_super(&image[8192..9568], 1024, 128)?;
    let inode = read_inode(&image[29312..29440], g.endian).ok_or("inode")?;
    let mut view = MemView::new(image, 1024, 128, vec![in alloc; loss]?);
    let mut levels = Levels::new(alloc, 1024).ok().ok_or("levels")?;
    Ok(read_file_block(&mut view, &g, &inode, n, &mut levels))
}

/// The file has the blocks 36 to 83 directly, and 88 to 91 through the indirect block at 84. Its last block has data, unless one of its
/// fragments or its indirect block is gone. Behind it is a hole.
#[test]
fn file_blocks_that_are_read(rt: HostRuntime) -> Result<(), Fail> {
    for (n, block, wanted) in [
        (0, 84, Some(FileBlock::Data)),
        (0, 39, None),
        (12, 84, None),
        (12, 87, None),
        (12, 91, None),
        (12, 92, Some(FileBlock::Data)),
        (13, 91, Some(FileBlock::Hole)),
        (13, 84, None),
    ] {
        assert!(rt; n < 0x4000_0000);
        let loss = Loss { block, fetch: 0 };
        assert_eq!(rt;
            read_of_volume(rt.alloc(), n, loss)?,
            wanted,
            "block {n} without {block}"
        );
    }
    Ok(())
}
