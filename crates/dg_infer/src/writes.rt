// The claims after a write of one block, where the geometry stays.
ghost use Rattle.std.specs.Prelude.{◌≡◌, ◌≤◌, ℕ, IfOk, OnOk, Some, length, true, false};
ghost use Rattle.dg_io.specs.ViewWords.{Keeps};
ghost use Rattle.ufs_model.specs.Claims.{source_fragments};
ghost use Rattle.ufs_model.specs.Geometries.{IsGeometryOn};
ghost use Rattle.ufs_pointer.specs.Fetches.{LosesOne};
ghost use Rattle.dg_claims.specs.Kept.{table_of};
ghost use Rattle.dg_claims.specs.Scans.{IsIndirect};
ghost use Rattle.dg_infer.specs.AtHand.{IsWriteOf, OnWrites};
ghost use Rattle.dg_infer.specs.Changes.{AreClaims};
ghost use Rattle.dg_infer.specs.Fetched.{FetchesPlaces, IsBegun};
ghost use Rattle.dg_infer.specs.Places.{IsClaimedAfter};
ghost use Rattle.dg_infer.specs.Watches.{IsTouched, IsWatched};

use crate::inodes::move_inodes;
use crate::levels::move_levels;
use crate::watches::Watch;
use dg_claims::{Claims, Geometry};
use dg_io::{NoMemory, View};
use std::alloc::Global;
use ufs_pointer::Levels;

/// Touches a block at each level above 0, before anything has changed.
pub fn watch_block(alloc: Global, claims: &Claims, block: u32) -> Result<Watch, NoMemory>
    ensures touched { IfOk result (λ watch. (level : ℕ) → 1 ≤ level → level ≤ 3 → IsTouched watch level block) }
    ensures watched { IfOk result (λ watch. IsWatched (table_of claims.now).claimed (table_of claims.now).claimed watch) }
{
    let mut watch = Watch::new(alloc);
    for level in 1..4u8 {
        watch.touch(claims, level, block)?;
    }
    Ok(watch)
}

/// Makes the claims of a volume those after a write of one block, where the geometry stays, and touches each fragment whose claims
/// may have changed. The block is touched. The view has the blocks after the write. It answers whether each block that had to be
/// read could be.
pub fn move_claims<V: View>(
    view: &mut V,
    g: &Geometry,
    levels: &mut Levels,
    claims: &mut Claims,
    watch: &mut Watch,
    block: u32,
    bytes: &[u8],
) -> Result<bool, NoMemory>
    requires sound { V.is_sound view.old }
    requires touched { (level : ℕ) → 1 ≤ level → level ≤ 3 → IsTouched watch.old level block }
    requires watched { IsWatched (table_of claims.old).claimed (table_of claims.old).claimed watch.old }
    requires geometry { IsGeometryOn (V.size view.old) (V.count view.old) g.now }
    requires levels { levels.old.fragment ≡ V.size view.old }
    requires table { (table_of claims.old).geometry ≡ Some g.now }
    requires bytes { length bytes.now ≡ V.size view.old }
    ensures keeps { Keeps V.View view.old view.new }
    ensures levels { levels.new.fragment ≡ levels.old.fragment }
    ensures geometry { (table_of claims.new).geometry ≡ (table_of claims.old).geometry }
    ensures watched { OnOk result (IsWatched (table_of claims.old).claimed (table_of claims.new).claimed watch.new) }
    ensures claims { IfOk result (λ got. got ≡ true → OnWrites V.View view.old view.new block bytes.now (λ v w.
        AreClaims (source_fragments g.now v) (table_of claims.old).claimed → AreClaims (source_fragments g.now w) (table_of claims.new).claimed)) }
    ensures lost { IfOk result (λ got. got ≡ false → LosesOne (λ w. V.stands_for view.old w
        × IsWriteOf block bytes.now (λ v. AreClaims (source_fragments g.now v) (table_of claims.old).claimed) w)
        (V.tells view.new) (V.count view.old) (IsIndirect g.now) (V.is_gone view.new)) }
    ensures fetched { FetchesPlaces V.fetched (IsBegun (table_of claims.old).claimed
        (IsClaimedAfter V.View view.old view.new g.now block bytes.now (table_of claims.old).claimed) 0 block) view.old view.new }
{
    move_inodes(claims, watch, g, block, bytes)?;
    move_levels(view, g, levels, claims, watch, block, bytes)
}
