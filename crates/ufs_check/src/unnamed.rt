// The inodes that no entry names.
ghost use Rattle.std.specs.Prelude.{◌≡◌, ◌<◌, IfNone, IfOk, IfSome};
ghost use Rattle.std.specs.Bool.{Decides};
ghost use Rattle.dg_io.specs.ViewWords.{Keeps};
ghost use Rattle.ufs_model.specs.Audits.{AreAll, IsUnnamed};
ghost use Rattle.ufs_model.specs.Blocks.{Volume};
ghost use Rattle.ufs_model.specs.Geometries.{IsGeometryOn};
ghost use Rattle.ufs_model.specs.Malformations.{inode_at};
ghost use Rattle.ufs_model.specs.Metadata.{IsMetadataBy};
ghost use Rattle.ufs_model.specs.declared.geometries.Geometry.{Geometry};
ghost use Rattle.ufs_check.specs.Links.{AreLinks};
ghost use Rattle.ufs_pointer.specs.ViewWords.{FetchesKind, LosesKind};

use crate::entries::read_named;
use crate::notes::note;
use crate::parents::{LinkTable, is_entered};
use dg_io::{NoMemory, View};
use std::alloc::Global;
use ufs_model::{Geometry, Inode, ROOT_INODE};
use ufs_pointer::Levels;

/// An inode is allocated, and no entry is for it but `.` and `..`.
fn is_unnamed(i: u32, named: &Option<Inode>, table: &LinkTable) -> bool
    requires { 2 < i }
    ensures { (g : Geometry) (v : Volume) → AreLinks g v table.now → named.now ≡ inode_at g v i → Decides result (IsUnnamed g v i) }
{
    if named.is_none() {
        return false;
    }
    !is_entered(table, i)
}

/// The allocated inodes above the root's that no entry names but `.` and `..`. There is no answer where a
/// block of inodes is gone.
pub fn find_unnamed<V: View>(
    alloc: Global,
    view: &mut V,
    g: &Geometry,
    levels: &mut Levels,
    table: &LinkTable,
) -> Result<Option<Vec<u32>>, NoMemory>
    requires sound { V.is_sound view.old }
    requires geometry { IsGeometryOn (V.size view.old) (V.count view.old) g.now }
    requires levels { levels.old.fragment ≡ V.size view.old }
    ensures keeps { Keeps V.View view.old view.new }
    ensures levels { levels.new.fragment ≡ levels.old.fragment }
    ensures found { IfOk result (λ answer. IfSome answer (λ unnamed. V.tells view.new → (v : Volume) → V.stands_for view.old v
        → AreLinks g.now v table.now → AreAll (IsUnnamed g.now v) unnamed.items)) }
    ensures gone { IfOk result (λ answer. IfNone answer (LosesKind V.View view.old view.new (IsMetadataBy g.now))) }
    ensures fetched { FetchesKind V.View view.old view.new (IsMetadataBy g.now) }
{
    let mut unnamed = Vec::new(alloc);
    for i in ROOT_INODE + 1..g.ncg * g.ipg {
        let Some(named) = read_named(view, g, i, levels) else {
            return Ok(None);
        };
        note(&mut unnamed, i, is_unnamed(i, &named, table))?;
    }
    Ok(Some(unnamed))
}
