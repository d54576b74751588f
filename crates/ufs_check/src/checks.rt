// The first malformation of a volume.
ghost use Rattle.std.specs.Prelude.{◌≡◌, ◌≤◌, true, ℕ, Ok, Some, IfNone, IfOk, IfSome};
ghost use Rattle.std.specs.Bool.{Decides};
ghost use Rattle.dg_io.specs.ViewWords.{Keeps};
ghost use Rattle.ufs_model.specs.Blocks.{Volume};
ghost use Rattle.ufs_model.specs.Geometries.{IsGeometryOn};
ghost use Rattle.ufs_model.specs.Malformations.{IsFirstMalformation, IsSoundVolume, order_of};
ghost use Rattle.ufs_model.specs.Metadata.{IsMetadataBy};
ghost use Rattle.ufs_model.specs.Superblocks.{geometry_of};
ghost use Rattle.dg_claims.specs.Kept.{table_of};
ghost use Rattle.dg_claims.specs.Tables.{accepted};
ghost use Rattle.dg_claims.specs.There.{HadKind, HadOn};
ghost use Rattle.ufs_check.specs.Directories.{IsDirectoryRead};
ghost use Rattle.ufs_check.specs.Links.{AreLinks};
ghost use Rattle.ufs_check.specs.Needs.{IsDirectoryBlock, IsNeededBy};
ghost use Rattle.ufs_check.specs.Verdicts.{AreFaults, AreMetadataFaults, AreTreeFaults, no_metadata_fault};
ghost use Rattle.ufs_check.specs.ViewWords.{FetchesOn, IsClaimed, IsMetadataOf, IsNeededOf, IsOfGeometry, IsOfTable, IsStructureOf, LosesOn};
ghost use Rattle.ufs_pointer.specs.ViewWords.{FetchesKind, LosesKind};

use crate::directories::{check_directories, directories_are_structure};
use crate::faults::{Faults, MetadataFaults, TreeFaults, no_tree, verdict_of};
use crate::fragments::check_fragments;
use crate::groups::check_groups;
use crate::inodes::check_inodes;
use crate::links::judge_links;
use crate::parents::LinkTable;
use crate::verdicts::Verdict;
use dg_claims::Claims;
use dg_io::{NoMemory, View};
use std::alloc::Global;
use ufs_model::{BadKind, BadSuper, Geometry};
use ufs_pointer::{Levels, read_geometry};

/// A table is of this geometry.
fn is_of(claims: &Claims, g: &Geometry) -> bool
    ensures { Decides result ((table_of claims.now).geometry ≡ Some g.now) }
{
    claims.geometry() == Some(*g)
}

/// What is wrong by metadata alone, by the claims of the volume. There is no answer where a block of it
/// is gone.
pub fn check_metadata<V: View>(
    alloc: Global,
    view: &mut V,
    g: &Geometry,
    levels: &mut Levels,
    claims: &Claims,
) -> Result<Option<MetadataFaults>, NoMemory>
    requires sound { V.is_sound view.old }
    requires geometry { IsGeometryOn (V.size view.old) (V.count view.old) g.now }
    requires levels { levels.old.fragment ≡ V.size view.old }
    requires table { (table_of claims.now).geometry ≡ Some g.now }
    ensures keeps { Keeps V.View view.old view.new }
    ensures levels { levels.new.fragment ≡ levels.old.fragment }
    ensures found { IfOk result (λ answer. IfSome answer (λ faults. V.tells view.new → (v : Volume) → IsClaimed V.View view.old g.now (table_of claims.now) v
        → AreMetadataFaults g.now v faults)) }
    ensures there { IfOk result (λ answer. IfSome answer (λ faults.
        HadOn V.View view.old view.new (IsClaimed V.View view.old g.now (table_of claims.now)) (IsMetadataBy g.now))) }
    ensures gone { IfOk result (λ answer. IfNone answer
        (LosesOn V.View view.old view.new (IsClaimed V.View view.old g.now (table_of claims.now)) (IsMetadataBy g.now))) }
    ensures fetched { FetchesOn V.View view.old view.new (IsClaimed V.View view.old g.now (table_of claims.now)) (IsMetadataBy g.now) }
{
    let Some(groups) = check_groups(alloc, view, g, levels)? else {
        return Ok(None);
    };
    let Some(inodes) = check_inodes(alloc, view, g, levels)? else {
        return Ok(None);
    };
    let Some(fragments) = check_fragments(alloc, view, g, levels, claims)? else {
        return Ok(None);
    };
    Ok(Some(MetadataFaults {
        groups,
        inodes,
        fragments,
    }))
}

/// What is wrong in directories, and what their entries say of inodes. There is no answer where a block
/// that is read for it is gone.
pub fn check_tree<V: View>(
    alloc: Global,
    view: &mut V,
    g: &Geometry,
    levels: &mut Levels,
) -> Result<Option<(TreeFaults, LinkTable)>, NoMemory>
    requires sound { V.is_sound view.old }
    requires geometry { IsGeometryOn (V.size view.old) (V.count view.old) g.now }
    requires levels { levels.old.fragment ≡ V.size view.old }
    ensures keeps { Keeps V.View view.old view.new }
    ensures levels { levels.new.fragment ≡ levels.old.fragment }
    ensures found { IfOk result (λ answer. IfSome answer (λ found. V.tells view.new → (v : Volume) → V.stands_for view.old v
        → AreTreeFaults g.now v (found.0) × AreLinks g.now v (found.1))) }
    ensures there { IfOk result (λ answer. IfSome answer (λ found. HadKind V.View view.old view.new (IsDirectoryBlock g.now))) }
    ensures gone { IfOk result (λ answer. IfNone answer (LosesKind V.View view.old view.new (IsDirectoryRead g.now))) }
    ensures fetched { FetchesKind V.View view.old view.new (IsDirectoryRead g.now) }
{
    let Some(found) = check_directories(alloc, view, g, levels)? else {
        return Ok(None);
    };
    let (directories, table) = found;
    let links = judge_links(alloc, g, &table)?;
    Ok(Some((TreeFaults { directories, links }, table)))
}

/// What the passes find, by the claims of the volume: in directories only where nothing is found by
/// metadata. There is no answer where a block with the volume's structure is gone.
fn check_volume<V: View>(
    alloc: Global,
    view: &mut V,
    g: &Geometry,
    levels: &mut Levels,
    claims: &Claims,
) -> Result<Option<Faults>, NoMemory>
    requires sound { V.is_sound view.old }
    requires geometry { IsGeometryOn (V.size view.old) (V.count view.old) g.now }
    requires levels { levels.old.fragment ≡ V.size view.old }
    requires table { (table_of claims.now).geometry ≡ Some g.now }
    ensures keeps { Keeps V.View view.old view.new }
    ensures levels { levels.new.fragment ≡ levels.old.fragment }
    ensures found { IfOk result (λ answer. IfSome answer (λ faults. V.tells view.new → (v : Volume) → IsClaimed V.View view.old g.now (table_of claims.now) v
        → AreFaults g.now v faults)) }
    ensures metadata { IfOk result (λ answer. IfSome answer (λ faults.
        HadOn V.View view.old view.new (IsClaimed V.View view.old g.now (table_of claims.now)) (IsMetadataBy g.now))) }
    ensures there { IfOk result (λ answer. IfSome answer (λ faults. no_metadata_fault faults.metadata ≡ true
        → HadOn V.View view.old view.new (IsClaimed V.View view.old g.now (table_of claims.now)) (IsNeededBy g.now))) }
    ensures gone { IfOk result (λ answer. IfNone answer
        (LosesOn V.View view.old view.new (IsOfGeometry V.View view.old g.now (table_of claims.now)) (IsStructureOf V.View view.old))) }
    ensures fetched { FetchesOn V.View view.old view.new (IsOfGeometry V.View view.old g.now (table_of claims.now)) (IsStructureOf V.View view.old) }
{
    directories_are_structure();
    let Some(metadata) = check_metadata(alloc, view, g, levels, claims)? else {
        return Ok(None);
    };
    if !metadata.is_none() {
        let tree = no_tree(alloc);
        return Ok(Some(Faults { metadata, tree }));
    }
    let Some(found) = check_tree(alloc, view, g, levels)? else {
        return Ok(None);
    };
    let (tree, _table) = found;
    Ok(Some(Faults { metadata, tree }))
}

/// The first malformation of the volume on a view, where the table has the volume's claims. A table of
/// another geometry has them of no volume on the view; then the superblock is told as malformed. The
/// buffers are for blocks of the view's size.
pub fn check<V: View>(
    alloc: Global,
    view: &mut V,
    levels: &mut Levels,
    claims: &Claims,
) -> Result<Verdict, NoMemory>
    requires sound { V.is_sound view.old }
    requires levels { levels.old.fragment ≡ V.size view.old }
    ensures keeps { Keeps V.View view.old view.new }
    ensures levels { levels.new.fragment ≡ levels.old.fragment }
    ensures is_sound { result ≡ Ok Verdict.Sound → V.tells view.new → (v : Volume)
        → IsOfTable V.View view.old (table_of claims.now) v → IsSoundVolume (V.size view.old) (V.count view.old) v }
    ensures tabled { result ≡ Ok Verdict.Sound → V.tells view.new → (v : Volume) → V.stands_for view.old v
        → (table_of claims.now).geometry ≡ accepted ((geometry_of (V.size view.old) (V.count view.old) v).value) }
    ensures malformed { (kind : BadKind) (n : ℕ) → result ≡ Ok (Verdict.Malformed kind n) → V.tells view.new → (v : Volume)
        → IsOfTable V.View view.old (table_of claims.now) v → IsFirstMalformation (V.size view.old) (V.count view.old) v kind n }
    ensures there { result ≡ Ok Verdict.Sound
        → HadOn V.View view.old view.new (IsOfTable V.View view.old (table_of claims.now)) (IsNeededOf V.View view.old) }
    ensures metadata { (kind : BadKind) (n : ℕ) → result ≡ Ok (Verdict.Malformed kind n)
        → HadOn V.View view.old view.new (IsOfTable V.View view.old (table_of claims.now)) (IsMetadataOf V.View view.old) }
    ensures directories { (kind : BadKind) (n : ℕ) → result ≡ Ok (Verdict.Malformed kind n) → order_of BadKind.Hole ≤ order_of kind
        → HadOn V.View view.old view.new (IsOfTable V.View view.old (table_of claims.now)) (IsNeededOf V.View view.old) }
    ensures gone { result ≡ Ok Verdict.Gone
        → LosesOn V.View view.old view.new (IsOfTable V.View view.old (table_of claims.now)) (IsStructureOf V.View view.old) }
    ensures fetched { FetchesOn V.View view.old view.new (IsOfTable V.View view.old (table_of claims.now)) (IsStructureOf V.View view.old) }
{
    let g = match read_geometry(view, levels) {
        None => return Ok(Verdict::Gone),
        Some(Err(bad)) => return Ok(Verdict::Malformed(BadKind::Super(bad), 0)),
        Some(Ok(g)) => g,
    };
    if !is_of(claims, &g) {
        return Ok(Verdict::Malformed(BadKind::Super(BadSuper::Layout), 0));
    }
    match check_volume(alloc, view, &g, levels, claims)? {
        None => Ok(Verdict::Gone),
        Some(faults) => Ok(verdict_of(&faults)),
    }
}
