//! Items and specs, and what a volume tells.
ghost use Rattle.std.specs.Prelude.{◌≡◌, ◌*◌, ◌+◌, ◌<◌, ◌≤◌, ◌^◌, IfOk, length};

use dg_claims::{Claims, scan};
use dg_io::{MemSink, MemView};
use dg_model::Bytes;
use std::alloc::Global;
use std::test::Fail;
use ufs_build::{Item, ItemKind, Spec};
use ufs_check::{Levels, Verdict, check};
use ufs_model::{Endian, is_path};
use ufs_path::{CatAnswer, cat};

/// One group of 128 fragments of 1024 bytes, four a file block, with 32 inodes.
pub fn small_spec(endian: Endian) -> Spec {
    Spec {
        l: 1024,
        frag: 4,
        ncg: 1,
        fpg: 128,
        ipg: 32,
        cgoffset: 0,
        cgmask: 0xffff_ffff,
        endian,
    }
}

/// Four groups of 2048 fragments of 1024 bytes, eight a file block, with 256 inodes each.
pub fn large_spec(endian: Endian) -> Spec {
    Spec {
        l: 1024,
        frag: 8,
        ncg: 4,
        fpg: 2048,
        ipg: 256,
        cgoffset: 32,
        cgmask: 0xffff_fffc,
        endian,
    }
}

/// A copy of bytes.
pub fn bytes_of(alloc: Global, bytes: &[u8]) -> Result<Bytes, Fail> {
    Ok(Bytes::new(Vec::from_slice(alloc, bytes)?))
}

/// An item that isn't sparse.
pub fn item(alloc: Global, path: &[u8], kind: ItemKind, bytes: &[u8]) -> Result<Item, Fail> {
    Ok(Item {
        path: bytes_of(alloc, path)?,
        kind,
        bytes: bytes_of(alloc, bytes)?,
        sparse: false,
    })
}

/// The claims of a volume.
fn claims_of(alloc: Global, image: Vec<u8>, count: u32, levels: &mut Levels) -> Result<Claims, Fail>
    requires size { length image.items ≡ count * 1024 }
    requires count { count < 2 ^ 20 }
    requires levels { levels.old.fragment ≡ 1024 }
    ensures { levels.new.fragment ≡ 1024 }
{
    let mut view = MemView::new(image, 1024, count, Vec::new(alloc));
    match scan(alloc, &mut view, levels) {
        Ok(Some(claims)) => Ok(claims),
        Ok(None) => Err("claims".into()),
        Err(_) => Err("memory".into()),
    }
}

/// What is told of a volume.
pub fn verdict_of(alloc: Global, image: &[u8], count: u32) -> Result<Verdict, Fail>
    requires size { length image.now ≡ count * 1024 }
    requires count { count < 2 ^ 20 }
{
    let mut levels = Levels::new(alloc, 1024)?;
    let claims = claims_of(alloc, Vec::from_slice(alloc, image)?, count, &mut levels)?;
    let mut view = MemView::new(Vec::from_slice(alloc, image)?, 1024, count, Vec::new(alloc));
    Ok(check(alloc, &mut view, &mut levels, &claims)?)
}

/// What `cat` answers for a path of a volume, and the bytes that it gives, of which there is room for so many.
pub fn contents_of(
    alloc: Global,
    image: &[u8],
    count: u32,
    path: &[u8],
    room: usize,
) -> Result<(CatAnswer, Vec<u8>), Fail>
    requires size { length image.now ≡ count * 1024 }
    requires count { count < 2 ^ 20 }
{
    let mut view = MemView::new(Vec::from_slice(alloc, image)?, 1024, count, Vec::new(alloc));
    let mut levels = Levels::new(alloc, 1024)?;
    let mut out = MemSink::new(alloc, room, Vec::new(alloc))?;
    if !is_path(path) {
        return Err("path".into());
    }
    let answer = cat(&mut view, &mut levels, path, &mut out);
    Ok((answer, Vec::from_slice(alloc, out.taken())?))
}
