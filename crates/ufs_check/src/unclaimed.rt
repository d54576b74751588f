// The fragments in use that nothing claims.
ghost use Rattle.std.specs.Prelude.{◌≡◌, ◌/◌, ◌%◌, ◌<◌, ◌≤◌, ◌&&◌, Some, not, IfNone, IfOk, IfSome, length};
ghost use Rattle.std.specs.Bool.{Decides};
ghost use Rattle.dg_io.specs.ViewWords.{Keeps};
ghost use Rattle.ufs_model.specs.Audits.{AreAll, IsUnclaimed};
ghost use Rattle.ufs_model.specs.Blocks.{Volume};
ghost use Rattle.ufs_model.specs.Geometries.{IsGeometry, IsGeometryOn};
ghost use Rattle.ufs_model.specs.GroupMaps.{by_maps, group_bytes, group_in, is_free};
ghost use Rattle.ufs_model.specs.Metadata.{IsMetadataBy};
ghost use Rattle.ufs_model.specs.Roles.{is_data_of, role};
ghost use Rattle.dg_claims.specs.Kept.{table_of};
ghost use Rattle.ufs_check.specs.Fragments.{HasClaimsOf};
ghost use Rattle.ufs_check.specs.ViewWords.{IsClaimed};
ghost use Rattle.ufs_pointer.specs.ViewWords.{FetchesKind, LosesKind};

use crate::inodes::hold_group;
use crate::notes::note;
use dg_claims::Claims;
use dg_io::{NoMemory, View};
use std::alloc::Global;
use ufs_group::{is_free, read_group};
use ufs_model::{Geometry, Role};
use ufs_pointer::Levels;
use ufs_super::{group_of, role};

/// Fragment `f` is data, and marked used by the map of its group, whose block has the bytes. Where that is
/// refused, it isn't.
#[tactic(auto, unfolding(ufs_model::specs::Geometries::end_of, ufs_model::specs::Geometries::cgbase))]
fn is_used_data(g: &Geometry, f: u32, bytes: &[u8]) -> bool
    requires geometry { IsGeometry g.now }
    requires inside { f < g.now.size }
    requires bytes { g.now.bsize ≤ length bytes.now }
    ensures { result ≡ (is_data_of (f / g.now.fpg) (role g.now f)
        && by_maps (group_in g.now (f / g.now.fpg) bytes.now) (λ group. not (is_free bytes.now group (f % g.now.fpg)))) }
{
    if role(g, f) != Role::Data(group_of(g, f)) {
        return false;
    }
    match read_group(bytes, g, group_of(g, f)) {
        Ok(group) => !is_free(bytes, &group, f % g.fpg),
        Err(_) => false,
    }
}

/// Fragment `f` is data that is marked used and not claimed. The bytes are those of the group's block.
fn is_unclaimed(g: &Geometry, f: u32, bytes: &[u8], claims: &Claims) -> bool
    requires geometry { IsGeometry g.now }
    requires inside { f < g.now.size }
    requires bytes { g.now.bsize ≤ length bytes.now }
    ensures { (v : Volume) → HasClaimsOf g.now (table_of claims.now) v → bytes.now ≡ (group_bytes g.now (f / g.now.fpg) v).value
        → Decides result (IsUnclaimed g.now v f) }
{
    let number = claims.claims_on(f);
    if number != 0 {
        return false;
    }
    is_used_data(g, f, bytes)
}

/// The fragments of data that are marked used and not claimed, by the claims of the volume. There is no
/// answer where a group block is gone.
pub fn find_unclaimed<V: View>(
    alloc: Global,
    view: &mut V,
    g: &Geometry,
    levels: &mut Levels,
    claims: &Claims,
) -> Result<Option<Vec<u32>>, NoMemory>
    requires sound { V.is_sound view.old }
    requires geometry { IsGeometryOn (V.size view.old) (V.count view.old) g.now }
    requires levels { levels.old.fragment ≡ V.size view.old }
    ensures keeps { Keeps V.View view.old view.new }
    ensures levels { levels.new.fragment ≡ levels.old.fragment }
    ensures found { IfOk result (λ answer. IfSome answer (λ unclaimed. V.tells view.new → (v : Volume) → IsClaimed V.View view.old g.now (table_of claims.now) v
        → AreAll (IsUnclaimed g.now v) unclaimed.items)) }
    ensures gone { IfOk result (λ answer. IfNone answer (LosesKind V.View view.old view.new (IsMetadataBy g.now))) }
    ensures fetched { FetchesKind V.View view.old view.new (IsMetadataBy g.now) }
{
    let mut unclaimed = Vec::new(alloc);
    let mut group = None;
    for f in 0..g.size {
        if !hold_group(view, g, group_of(g, f), levels, &mut group) {
            return Ok(None);
        }
        note(
            &mut unclaimed,
            f,
            is_unclaimed(g, f, levels.block(), claims),
        )?;
    }
    Ok(Some(unclaimed))
}
