// The pass over the group blocks.
ghost use Rattle.std.specs.Prelude.{◌≡◌, ◌+◌, ◌<◌, ◌≤◌, ℕ, List, IfNone, IfOk, IfSome, OnOk, length};
ghost use Rattle.dg_io.specs.ViewWords.{Keeps};
ghost use Rattle.ufs_model.specs.Blocks.{Volume};
ghost use Rattle.ufs_model.specs.Geometries.{IsGeometry, IsGeometryOn};
ghost use Rattle.ufs_model.specs.GroupMaps.{group_bytes};
ghost use Rattle.ufs_model.specs.Metadata.{IsMetadataBy};
ghost use Rattle.dg_claims.specs.There.{HadKind};
ghost use Rattle.ufs_check.specs.Groups.{AreGroupFaults, AreGroupFaultsBelow};
ghost use Rattle.ufs_check.specs.Needs.{IsGroupBlock};
ghost use Rattle.ufs_pointer.specs.ViewWords.{FetchesKind, LosesKind};

use crate::notes::note;
use crate::verdicts::GroupFaults;
use dg_io::{NoMemory, View};
use std::alloc::Global;
use ufs_group::{BadGroup, group_block, read_group};
use ufs_model::Geometry;
use ufs_pointer::Levels;

/// Notes what is wrong with the block of group `c`, where what is wrong with those of lower numbers is
/// noted.
fn note_group(g: &Geometry, c: u32, bytes: &[u8], faults: &mut GroupFaults) -> Result<(), NoMemory>
    requires geometry { IsGeometry g.now }
    requires group { c < g.now.ncg }
    requires bytes { g.now.bsize ≤ length bytes.now }
    ensures { OnOk result ((v : Volume) → bytes.now ≡ (group_bytes g.now c v).value → AreGroupFaultsBelow g.now v c faults.old
        → AreGroupFaultsBelow g.now v (c + 1) faults.new) }
{
    let refused = read_group(bytes, g, c).err();
    note(&mut faults.magic, c, refused == Some(BadGroup::Magic))?;
    note(&mut faults.map, c, refused == Some(BadGroup::Map))?;
    Ok(())
}

/// What is wrong with the group blocks. There is no answer where a block of one is gone.
pub fn check_groups<V: View>(
    alloc: Global,
    view: &mut V,
    g: &Geometry,
    levels: &mut Levels,
) -> Result<Option<GroupFaults>, NoMemory>
    requires sound { V.is_sound view.old }
    requires geometry { IsGeometryOn (V.size view.old) (V.count view.old) g.now }
    requires levels { levels.old.fragment ≡ V.size view.old }
    ensures keeps { Keeps V.View view.old view.new }
    ensures levels { levels.new.fragment ≡ levels.old.fragment }
    ensures found { IfOk result (λ answer. IfSome answer (λ faults. V.tells view.new → (v : Volume) → V.stands_for view.old v
        → AreGroupFaults g.now v faults)) }
    ensures there { IfOk result (λ answer. IfSome answer (λ faults. HadKind V.View view.old view.new (IsGroupBlock g.now g.now.ncg))) }
    ensures gone { IfOk result (λ answer. IfNone answer (LosesKind V.View view.old view.new (IsMetadataBy g.now))) }
    ensures fetched { FetchesKind V.View view.old view.new (IsMetadataBy g.now) }
{
    let mut faults = GroupFaults {
        magic: Vec::new(alloc),
        map: Vec::new(alloc),
    };
    for c in 0..g.ncg {
        if !levels.read_block(view, group_block(g, c), g.frag) {
            return Ok(None);
        }
        note_group(g, c, levels.block(), &mut faults)?;
    }
    Ok(Some(faults))
}
