// All that is wrong with a volume, and what is noted beside it.
ghost use Rattle.std.specs.Prelude.{◌≡◌, Some, IfNone, IfOk, IfSome};
ghost use Rattle.dg_io.specs.ViewWords.{Keeps};
ghost use Rattle.ufs_model.specs.Blocks.{Volume};
ghost use Rattle.ufs_model.specs.Geometries.{IsGeometryOn};
ghost use Rattle.ufs_model.specs.Metadata.{IsMetadataBy};
ghost use Rattle.dg_claims.specs.Kept.{table_of};
ghost use Rattle.dg_claims.specs.There.{HadOn};
ghost use Rattle.ufs_check.specs.Links.{AreLinks};
ghost use Rattle.ufs_check.specs.Needs.{IsNeededBy};
ghost use Rattle.ufs_check.specs.Surveys.{AreNotes, IsSurvey};
ghost use Rattle.ufs_check.specs.ViewWords.{FetchesOn, IsClaimed, IsOfGeometry, IsStructureOf, LosesOn};
ghost use Rattle.ufs_pointer.specs.ViewWords.{FetchesKind, LosesKind};

use crate::checks::{check_metadata, check_tree};
use crate::directories::directories_are_structure;
use crate::faults::Faults;
use crate::parents::LinkTable;
use crate::unclaimed::find_unclaimed;
use crate::unnamed::find_unnamed;
use dg_claims::Claims;
use dg_io::{NoMemory, View};
use std::alloc::Global;
use ufs_model::Geometry;
use ufs_pointer::Levels;

/// What is noted beside the malformations.
#[derive(Drop)]
pub struct Notes {
    /// The allocated inodes above the root's that no entry names but `.` and `..`, ascending.
    pub unnamed: Vec<u32>,
    /// The fragments of data that are marked used and not claimed, ascending.
    pub unclaimed: Vec<u32>,
}

/// What is noted, by the claims of the volume and by its entries. There is no answer where a block of
/// inodes is gone, or one of a group.
fn find_notes<V: View>(
    alloc: Global,
    view: &mut V,
    g: &Geometry,
    levels: &mut Levels,
    claims: &Claims,
    table: &LinkTable,
) -> Result<Option<Notes>, NoMemory>
    requires sound { V.is_sound view.old }
    requires geometry { IsGeometryOn (V.size view.old) (V.count view.old) g.now }
    requires levels { levels.old.fragment ≡ V.size view.old }
    ensures keeps { Keeps V.View view.old view.new }
    ensures levels { levels.new.fragment ≡ levels.old.fragment }
    ensures found { IfOk result (λ answer. IfSome answer (λ notes. V.tells view.new → (v : Volume) → IsClaimed V.View view.old g.now (table_of claims.now) v
        → AreLinks g.now v table.now → AreNotes g.now v notes)) }
    ensures gone { IfOk result (λ answer. IfNone answer (LosesKind V.View view.old view.new (IsMetadataBy g.now))) }
    ensures fetched { FetchesKind V.View view.old view.new (IsMetadataBy g.now) }
{
    let Some(unnamed) = find_unnamed(alloc, view, g, levels, table)? else {
        return Ok(None);
    };
    let Some(unclaimed) = find_unclaimed(alloc, view, g, levels, claims)? else {
        return Ok(None);
    };
    Ok(Some(Notes { unnamed, unclaimed }))
}

/// All that is wrong with a volume of this geometry, and what is noted beside it, by the claims of the
/// volume. There is no answer where a block with the volume's structure is gone.
pub fn survey<V: View>(
    alloc: Global,
    view: &mut V,
    g: &Geometry,
    levels: &mut Levels,
    claims: &Claims,
) -> Result<Option<(Faults, Notes)>, NoMemory>
    requires sound { V.is_sound view.old }
    requires geometry { IsGeometryOn (V.size view.old) (V.count view.old) g.now }
    requires levels { levels.old.fragment ≡ V.size view.old }
    requires table { (table_of claims.now).geometry ≡ Some g.now }
    ensures keeps { Keeps V.View view.old view.new }
    ensures levels { levels.new.fragment ≡ levels.old.fragment }
    ensures found { IfOk result (λ answer. IfSome answer (λ found. V.tells view.new → (v : Volume) → IsClaimed V.View view.old g.now (table_of claims.now) v
        → IsSurvey g.now v (found.0) (found.1))) }
    ensures there { IfOk result (λ answer. IfSome answer (λ found.
        HadOn V.View view.old view.new (IsClaimed V.View view.old g.now (table_of claims.now)) (IsNeededBy g.now))) }
    ensures gone { IfOk result (λ answer. IfNone answer
        (LosesOn V.View view.old view.new (IsOfGeometry V.View view.old g.now (table_of claims.now)) (IsStructureOf V.View view.old))) }
    ensures fetched { FetchesOn V.View view.old view.new (IsOfGeometry V.View view.old g.now (table_of claims.now)) (IsStructureOf V.View view.old) }
{
    directories_are_structure();
    let Some(metadata) = check_metadata(alloc, view, g, levels, claims)? else {
        return Ok(None);
    };
    let Some(found) = check_tree(alloc, view, g, levels)? else {
        return Ok(None);
    };
    let (tree, table) = found;
    let Some(notes) = find_notes(alloc, view, g, levels, claims, &table)? else {
        return Ok(None);
    };
    Ok(Some((Faults { metadata, tree }, notes)))
}
