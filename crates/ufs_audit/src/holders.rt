// Which fragments directories claim, level by level from the top.
ghost use Rattle.std.specs.Prelude.{◌≡◌, ◌==◌, ◌&&◌, Some, IfOk};
ghost use Rattle.std.specs.Bool.{Decides};
ghost use Rattle.dg_claims.specs.Kept.{table_of};
ghost use Rattle.dg_model.specs.Marks.{is_marked};
ghost use Rattle.ufs_audit.specs.Holders.{AreHeld, AreMarks, HasMarkedHolder, leads_by};

use dg_claims::{ClaimSource, Claims};
use dg_io::NoMemory;
use std::alloc::Global;
use ufs_check::Geometry;

/// Whether a number has a mark.
pub fn is_set(marks: &[bool], n: u32) -> bool
    ensures { result ≡ is_marked marks.now n }
{
    match marks.get(n as usize) {
        Some(mark) => *mark,
        None => false,
    }
}

/// Whether a source leads to a directory: a slot by its inode, and a pointer by the fragment that it stands in.
fn leads(source: &ClaimSource, directories: &[bool], above: &[bool]) -> bool
    ensures { result ≡ leads_by directories.now above.now source.now }
{
    match source {
        ClaimSource::Slot { inode, .. } => is_set(directories, *inode),
        ClaimSource::Pointer { fragment, .. } => is_set(above, *fragment),
    }
}

/// Whether a claim is at a level, and leads to a directory.
fn is_holder(
    height: u8,
    source: &ClaimSource,
    level: u8,
    directories: &[bool],
    above: &[bool],
) -> bool
    ensures { result ≡ (height == level) && leads_by directories.now above.now source.now }
{
    height == level && leads(source, directories, above)
}

/// Whether a claim on a fragment at a level leads to a directory.
fn is_held(claims: &Claims, f: u32, level: u8, directories: &[bool], above: &[bool]) -> bool
    ensures { Decides result (HasMarkedHolder (table_of claims.now) directories.now above.now level f) }
{
    for i in 0..claims.claims_on(f) {
        let Some((height, source)) = claims.claim(f, i) else {
            return false;
        };
        if is_holder(height, &source, level, directories, above) {
            return true;
        }
    }
    false
}

/// A mark for each fragment on which a claim at a level leads to a directory.
fn held_at(
    alloc: Global,
    claims: &Claims,
    size: u32,
    level: u8,
    directories: &[bool],
    above: &[bool],
) -> Result<Vec<bool>, NoMemory>
    ensures { IfOk result (λ marks. AreMarks (HasMarkedHolder (table_of claims.now) directories.now above.now level) size marks.items) }
{
    let mut marks = Vec::new(alloc);
    for f in 0..size {
        if marks
            .push(is_held(claims, f, level, directories, above))
            .is_err()
        {
            return Err(NoMemory);
        }
    }
    Ok(marks)
}

/// A mark for each fragment that a directory claims as one of its data.
pub fn held_by(
    alloc: Global,
    claims: &Claims,
    g: &Geometry,
    directories: &[bool],
) -> Result<Vec<bool>, NoMemory>
    requires { (table_of claims.now).geometry ≡ Some g.now }
    ensures { IfOk result (λ marks. AreMarks (AreHeld (table_of claims.now) directories.now 0) g.now.size marks.items) }
{
    claims.claims_inside();
    let top = Vec::new(alloc);
    let third = held_at(alloc, claims, g.size, 3, directories, &top)?;
    let second = held_at(alloc, claims, g.size, 2, directories, &third)?;
    let first = held_at(alloc, claims, g.size, 1, directories, &second)?;
    held_at(alloc, claims, g.size, 0, directories, &first)
}
