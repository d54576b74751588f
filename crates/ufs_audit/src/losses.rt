// Blocks with a volume's structure that are gone.
ghost use Rattle.std.specs.Prelude.{◌≡◌, ◌≤◌, ◌<◌, Some, true, false, IfOk};
ghost use Rattle.std.specs.Bool.{Decides};
ghost use Rattle.dg_claims.specs.Kept.{table_of};
ghost use Rattle.dg_io.specs.ViewWords.{Keeps};
ghost use Rattle.ufs_audit.specs.Audits.{HasGeometry};
ghost use Rattle.ufs_audit.specs.Losses.{HadOn, IsBetween, IsClaimPart, IsGroupBlock, IsIndirect, IsInodeBlock, IsPart, TellsGone};
ghost use Rattle.ufs_audit.specs.Structures.{IsBehindSuper};
ghost use Rattle.ufs_check.specs.ViewWords.{FetchesOn, IsStructureOf, LosesOn};
ghost use Rattle.ufs_model.specs.Geometries.{IsGeometryOn};
ghost use Rattle.ufs_model.specs.Metadata.{IsStructure};
ghost use Rattle.ufs_pointer.specs.ViewWords.{FetchesKind, LosesKind};

use crate::directories::find_directories;
use crate::holders::{held_by, is_set};
use dg_claims::{Claims, scan, tables_of_volumes};
use dg_io::{NoMemory, View};
use std::alloc::Global;
use ufs_check::{Geometry, Levels};
use ufs_group::group_block;
use ufs_inode::place_of;
use ufs_pointer::read_geometry;

/// Whether one of the blocks from one to before another is gone.
fn range_has_gone<V: View>(view: &V, from: u32, end: u32) -> bool
    requires sound { V.is_sound view.now }
    requires within { end ≤ V.count view.now }
    ensures { TellsGone V.View view.now (IsBetween from end) result }
{
    for b in from..end {
        if view.gone(b) {
            return true;
        }
    }
    false
}

/// Whether a block of a group block is gone.
fn groups_have_gone<V: View>(view: &V, g: &Geometry) -> bool
    requires sound { V.is_sound view.now }
    requires geometry { IsGeometryOn (V.size view.now) (V.count view.now) g.now }
    ensures { TellsGone V.View view.now (IsGroupBlock g.now) result }
{
    for c in 0..g.ncg {
        let block = group_block(g, c);
        if range_has_gone(view, block, block + g.frag) {
            return true;
        }
    }
    false
}

/// Whether a block with an inode is gone.
fn inodes_have_gone<V: View>(view: &V, g: &Geometry) -> bool
    requires sound { V.is_sound view.now }
    requires geometry { IsGeometryOn (V.size view.now) (V.count view.now) g.now }
    ensures { TellsGone V.View view.now (IsInodeBlock g.now) result }
{
    for i in 0..g.ncg * g.ipg {
        let (block, _) = place_of(g, i);
        if view.gone(block) {
            return true;
        }
    }
    false
}

/// Whether a fragment is one of an indirect block.
fn is_indirect(claims: &Claims, f: u32) -> bool
    ensures { Decides result (IsIndirect (table_of claims.now) f) }
{
    claims.claims_inside();
    if claims.has_level(f, 1) {
        return true;
    }
    if claims.has_level(f, 2) {
        return true;
    }
    claims.has_level(f, 3)
}

/// Whether a fragment of an indirect block is gone, or one that has a mark.
fn claims_have_gone<V: View>(view: &V, claims: &Claims, marks: &[bool]) -> bool
    requires sound { V.is_sound view.now }
    ensures { TellsGone V.View view.now (IsClaimPart (table_of claims.now) marks.now) result }
{
    let (_, count) = view.shape();
    for f in 0..count {
        if view.gone(f) && (is_set(marks, f) || is_indirect(claims, f)) {
            return true;
        }
    }
    false
}

/// Whether a block that is one of these is gone.
fn parts_have_gone<V: View>(view: &V, g: &Geometry, claims: &Claims, marks: &[bool]) -> bool
    requires sound { V.is_sound view.now }
    requires geometry { IsGeometryOn (V.size view.now) (V.count view.now) g.now }
    ensures { TellsGone V.View view.now (IsPart g.now (table_of claims.now) marks.now) result }
{
    if groups_have_gone(view, g) {
        return true;
    }
    if inodes_have_gone(view, g) {
        return true;
    }
    claims_have_gone(view, claims, marks)
}

/// A table is of this geometry.
fn is_of(claims: &Claims, g: &Geometry) -> bool
    ensures { Decides result ((table_of claims.now).geometry ≡ Some g.now) }
{
    claims.geometry() == Some(*g)
}

/// Whether a block with the structure of a volume of this geometry is gone, beside those of its superblock.
fn volume_has_gone<V: View>(
    alloc: Global,
    view: &mut V,
    g: &Geometry,
    levels: &mut Levels,
) -> Result<bool, NoMemory>
    requires sound { V.is_sound view.old }
    requires geometry { IsGeometryOn (V.size view.old) (V.count view.old) g.now }
    requires levels { levels.old.fragment ≡ V.size view.old }
    ensures keeps { Keeps V.View view.old view.new }
    ensures levels { levels.new.fragment ≡ levels.old.fragment }
    ensures gone { IfOk result (λ gone. gone ≡ true → LosesOn V.View view.old view.new (HasGeometry V.View view.old g.now) (IsStructureOf V.View view.old)) }
    ensures there { IfOk result (λ gone. gone ≡ false → HadOn V.View view.old view.new (HasGeometry V.View view.old g.now) (IsBehindSuper (V.size view.old) (V.count view.old))) }
    ensures fetched { FetchesOn V.View view.old view.new (HasGeometry V.View view.old g.now) (IsStructureOf V.View view.old) }
{
    tables_of_volumes();
    let Some(claims) = scan(alloc, view, levels)? else {
        return Ok(true);
    };
    if !is_of(&claims, g) {
        return Ok(false);
    }
    claims.claims_inside();
    let Some(directories) = find_directories(alloc, view, g, levels)? else {
        return Ok(true);
    };
    let marks = held_by(alloc, &claims, g, &directories)?;
    Ok(parts_have_gone(view, g, &claims, &marks))
}

/// Whether a block with the volume's structure is gone. Where none is gone at all, nothing is read.
pub fn structure_has_gone<V: View>(
    alloc: Global,
    view: &mut V,
    levels: &mut Levels,
) -> Result<bool, NoMemory>
    requires sound { V.is_sound view.old }
    requires levels { levels.old.fragment ≡ V.size view.old }
    ensures keeps { Keeps V.View view.old view.new }
    ensures levels { levels.new.fragment ≡ levels.old.fragment }
    ensures gone { IfOk result (λ gone. gone ≡ true → LosesKind V.View view.old view.new (IsStructure (V.size view.old) (V.count view.old))) }
    ensures there { IfOk result (λ gone. gone ≡ false
        → HadOn V.View view.old view.new (V.stands_for view.old) (IsStructure (V.size view.old) (V.count view.old))) }
    ensures fetched { FetchesKind V.View view.old view.new (IsStructure (V.size view.old) (V.count view.old)) }
{
    let (_, count) = view.shape();
    if !range_has_gone(view, 0, count) {
        return Ok(false);
    }
    let g = match read_geometry(view, levels) {
        None => return Ok(true),
        Some(Err(_bad)) => return Ok(false),
        Some(Ok(g)) => g,
    };
    volume_has_gone(alloc, view, &g, levels)
}
