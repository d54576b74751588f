//! Volumes with bytes put in, their claims, and the places at which bytes are put in.
ghost use Rattle.std.specs.Prelude.{◌≡◌, ◌*◌, ◌≤◌, IfOk, length};

use dg_claims::{Claims, scan};
use dg_io::{Loss, MemView};
use std::alloc::Global;
use std::test::Fail;
use ufs_check::{Levels, Verdict, check};
use ufs_samples::{Which, sample_image};

/// Bytes that are put in at a place of an image.
pub type Edit<'a> = (usize, &'a [u8]);

/// A block that isn't read.
const NOTHING: Loss = Loss { block: 1, fetch: 0 };

/// The first byte of inode 3, and of the entry `b` in `/d`.
pub const INODE_3: usize = 28 * 1024 + 3 * 128;

pub const ENTRY_B: usize = 35 * 1024 + 24;

/// Writes bytes at a place, if they fit.
fn put(image: &mut [u8], at: usize, bytes: &[u8])
    ensures { length image.new ≡ length image.old }
{
    if at <= image.len() && bytes.len() <= image.len() - at {
        image[at..at + bytes.len()].copy_from_slice(bytes);
    }
}

/// Writes an image at the front of a longer one, and bytes at their places.
fn lay_out(image: &mut [u8], rows: &[u8], edits: &[Edit])
    ensures { length image.new ≡ length image.old }
{
    put(image, 0, rows);
    for (at, bytes) in edits {
        put(image, *at, bytes);
    }
}

/// A volume with more blocks of zeros after it, and with bytes put in.
fn edited(alloc: Global, which: Which, count: u32, edits: &[Edit]) -> Result<Vec<u8>, Fail>
    requires { count ≤ 256 }
    ensures { IfOk result (λ image. length image.items ≡ count * 1024) }
{
    let rows = sample_image(alloc, which)?;
    let mut image = vec![in alloc; 0; count as usize * 1024]?;
    lay_out(&mut image, &rows, edits);
    Ok(image)
}

/// The claims of a volume of so many blocks with bytes put in.
fn claims_of(
    alloc: Global,
    which: Which,
    count: u32,
    edits: &[Edit],
    levels: &mut Levels,
) -> Result<Claims, Fail>
    requires count { count ≤ 256 }
    requires levels { levels.old.fragment ≡ 1024 }
    ensures { levels.new.fragment ≡ 1024 }
{
    let image = edited(alloc, which, count, edits)?;
    let mut view = MemView::new(image, 1024, count, Vec::new(alloc));
    match scan(alloc, &mut view, levels) {
        Ok(Some(claims)) => Ok(claims),
        Ok(None) => Err("claims".into()),
        Err(_) => Err("memory".into()),
    }
}

/// What is told of a volume of so many blocks with bytes put in, by these claims, where a block becomes
/// gone.
fn told_by(
    alloc: Global,
    which: Which,
    count: u32,
    edits: &[Edit],
    loss: Loss,
    levels: &mut Levels,
    claims: &Claims,
) -> Result<Verdict, Fail>
    requires count { count ≤ 256 }
    requires levels { levels.old.fragment ≡ 1024 }
{
    let image = edited(alloc, which, count, edits)?;
    let mut view = MemView::new(image, 1024, count, vec![in alloc; loss]?);
    Ok(check(alloc, &mut view, levels, claims)?)
}

/// What is told of a volume of so many blocks with bytes put in, where a block becomes gone after its
/// claims were scanned.
pub fn verdict_without(
    alloc: Global,
    which: Which,
    count: u32,
    edits: &[Edit],
    loss: Loss,
) -> Result<Verdict, Fail>
    requires { count ≤ 256 }
{
    let mut levels = Levels::new(alloc, 1024)?;
    let claims = claims_of(alloc, which, count, edits, &mut levels)?;
    told_by(alloc, which, count, edits, loss, &mut levels, &claims)
}

/// What is told of the volume F by the claims of a volume with bytes put in.
pub fn verdict_by(alloc: Global, other: Which, edits: &[Edit]) -> Result<Verdict, Fail> {
    let mut levels = Levels::new(alloc, 1024)?;
    let claims = claims_of(alloc, other, 128, edits, &mut levels)?;
    told_by(alloc, Which::F, 128, &[], NOTHING, &mut levels, &claims)
}
