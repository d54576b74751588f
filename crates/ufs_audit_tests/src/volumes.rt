//! Volumes with bytes put in, and what an audit finds on them.
ghost use Rattle.std.specs.Prelude.{◌≡◌, ◌*◌, IfOk, length};

use dg_io::{Loss, MemView};
use std::alloc::Global;
use std::test::Fail;
use ufs_audit::{Findings, ImageView, audit};
use ufs_check::Levels;
use ufs_samples::{Which, sample_image};

/// Bytes that are put in at a place of an image.
pub type Edit<'a> = (usize, &'a [u8]);

/// The first byte of inode 3, of the entry `b` in `/d`, and of the root's directory.
pub const INODE_3: usize = 28 * 1024 + 3 * 128;

pub const ENTRY_B: usize = 35 * 1024 + 24;

pub const ROOT: usize = 33 * 1024;

/// Writes bytes at a place, if they fit.
fn put(image: &mut [u8], at: usize, bytes: &[u8])
    ensures { length image.new ≡ length image.old }
{
    if at <= image.len() && bytes.len() <= image.len() - at {
        image[at..at + bytes.len()].copy_from_slice(bytes);
    }
}

/// Writes an image at the front of a longer one, and bytes at their places.
fn lay_out(image: &mut [u8], rows: &[u8], edits: &[Edit])
    ensures { length image.new ≡ length image.old }
{
    put(image, 0, rows);
    for (at, bytes) in edits {
        put(image, *at, bytes);
    }
}

/// A volume with bytes put in.
fn edited(alloc: Global, which: Which, edits: &[Edit]) -> Result<Vec<u8>, Fail>
    ensures { IfOk result (λ image. length image.items ≡ 128 * 1024) }
{
    let rows = sample_image(alloc, which)?;
    let mut image = vec![in alloc; 0; 128 * 1024]?;
    lay_out(&mut image, &rows, edits);
    Ok(image)
}

/// What is found on a volume with bytes put in.
pub fn found_on(alloc: Global, which: Which, edits: &[Edit]) -> Result<Findings, Fail> {
    let image = edited(alloc, which, edits)?;
    let mut view = ImageView::new(image, 1024, 128);
    let mut levels = Levels::new(alloc, 1024)?;
    match audit(alloc, &mut view, &mut levels)? {
        Some(findings) => Ok(findings),
        None => Err("gone".into()),
    }
}

/// Whether the volume F can be audited without a block.
pub fn is_found_without(alloc: Global, block: u32) -> Result<bool, Fail> {
    let image = edited(alloc, Which::F, &[])?;
    let loss = Loss { block, fetch: 0 };
    let mut view = MemView::new(image, 1024, 128, vec![in alloc; loss]?);
    let mut levels = Levels::new(alloc, 1024)?;
    Ok(audit(alloc, &mut view, &mut levels)?.is_some())
}
