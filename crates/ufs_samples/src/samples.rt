ghost use Rattle.std.specs.Prelude.{◌≡◌, IfOk, vec_len};

use crate::items::{many_files, no_files, two_files};
use dg_model::NoMemory;
use std::alloc::Global;
use ufs_build::{Items, Spec, build};
use ufs_model::Endian;

/// Bytes of an image: 128 fragments of 1024 bytes.
const IMAGE_BYTES: usize = 131_072;

/// Which volume. Each has one group of 128 fragments, four a file block, and 32 inodes; the root's directory is inode 2, at
/// fragment 33.
#[derive(Clone, Copy, Debug, PartialEq, Eq)]
pub enum Which {
    /// No files.
    E,
    /// `/a` is inode 3, the bytes `hello` at fragment 34. `/d` is the directory inode 4, at 35, with
    /// `/d/b`, inode 5: 53,248 bytes, byte o being `1 + o/1024`, at 36 to 83 and, through the
    /// indirect block at 84, at 88 to 91. `/z` is the empty inode 6. `/h` is inode 7: a hole of a
    /// file block and then 1500 bytes `h` at 92 and 93.
    F,
    /// `/p` is inode 3, 16,384 bytes `p` at fragments 36 to 51. `/q` is inode 4, 16,384 bytes `q` at
    /// 52 to 67.
    X,
    /// The files of F, with the highest byte of each number first.
    Fb,
}

/// What a volume is built with.
fn spec_of(which: Which) -> Spec {
    let endian = match which {
        Which::E | Which::F | Which::X => Endian::Little,
        Which::Fb => Endian::Big,
    };
    Spec {
        l: 1024,
        frag: 4,
        ncg: 1,
        fpg: 128,
        ipg: 32,
        cgoffset: 0,
        cgmask: 0xffff_ffff,
        endian,
    }
}

/// The files of a volume.
fn items_of(alloc: Global, which: Which) -> Result<Items, NoMemory> {
    let items = match which {
        Which::E => Ok(no_files(alloc)),
        Which::F | Which::Fb => many_files(alloc),
        Which::X => two_files(alloc),
    };
    items.map_err(|_| NoMemory)
}

/// The image of a volume. Its files have room, so that none is given only for want of memory.
pub fn sample_image(alloc: Global, which: Which) -> Result<Vec<u8>, NoMemory>
    ensures { IfOk result (λ image. vec_len image ≡ IMAGE_BYTES) }
{
    let items = items_of(alloc, which)?;
    let Ok(image) = build(alloc, &spec_of(which), &items) else {
        return Err(NoMemory);
    };
    if image.len() != IMAGE_BYTES {
        return Err(NoMemory);
    }
    Ok(image)
}
