ghost use Rattle.std.specs.Prelude.{◌≡◌, ◌-◌, ◌<◌, ◌≤◌, ℕ, List, IfOk, OnOk, Some, length, true, false};
ghost use Rattle.dg_io.specs.ViewWords.{Keeps};
ghost use Rattle.ufs_model.specs.Claims.{source_fragments};
ghost use Rattle.ufs_model.specs.Geometries.{IsGeometryOn};
ghost use Rattle.ufs_model.specs.declared.claims.ClaimSource.{ClaimSource};
ghost use Rattle.ufs_pointer.specs.Fetches.{LosesOne};
ghost use Rattle.dg_claims.specs.Kept.{table_of};
ghost use Rattle.dg_claims.specs.Scans.{IsIndirect};
ghost use Rattle.dg_claims.specs.Tables.{KeepsOffPointers};
ghost use Rattle.dg_infer.specs.AtHand.{OnVolumes, StandsWith};
ghost use Rattle.dg_infer.specs.Changes.{AreClaims, IsMoved, IsReady, IsReadyOn, IsRightBelow, KeepsOffLevel};
ghost use Rattle.dg_infer.specs.Claimed.{IsClaimedBy};
ghost use Rattle.dg_infer.specs.Fetched.{Begins, FetchesOnce, FetchesPlaces, IsBegun, IsNewAt, LosesClaimed};
ghost use Rattle.dg_infer.specs.Places.{IsClaimedReady};
ghost use Rattle.dg_infer.specs.Watches.{Grows, IsWatched, KeepsWatch, touch_at};

use crate::pointers::{drop_pointers, put_pointers};
use crate::watches::{Touch, Watch};
use dg_claims::{Claims, Geometry, read_fragment};
use dg_io::{NoMemory, View};
use ufs_pointer::Levels;

/// The highest level of an indirect block (`NIADDR`).
const HIGHEST: u8 = 3;

/// The pointers of a touched fragment at its level claim what they do after the write, whose block and bytes are at hand. It
/// answers whether the fragment could be read, where it has to be: where it has a claim there and had none.
fn move_touch<V: View>(
    view: &mut V,
    g: &Geometry,
    levels: &mut Levels,
    claims: &mut Claims,
    watch: &mut Watch,
    touch: Touch,
    block: u32,
    bytes: &[u8],
) -> Result<bool, NoMemory>
    requires sound { V.is_sound view.old }
    requires geometry { IsGeometryOn (V.size view.old) (V.count view.old) g.now }
    requires levels { levels.old.fragment ≡ V.size view.old }
    requires table { (table_of claims.old).geometry ≡ Some g.now }
    requires bytes { length bytes.now ≡ V.size view.old }
    requires low { 1 ≤ touch.level }
    requires high { touch.level ≤ 3 }
    ensures keeps { Keeps V.View view.old view.new }
    ensures levels { levels.new.fragment ≡ levels.old.fragment }
    ensures grows { Grows watch.old watch.new }
    ensures geometry { (table_of claims.new).geometry ≡ (table_of claims.old).geometry }
    ensures moved { IfOk result (λ got. got ≡ true → OnVolumes V.View view.old view.new block bytes.now (λ v.
        IsMoved (source_fragments g.now v) (table_of claims.old).claimed (table_of claims.new).claimed block touch)) }
    ensures others { KeepsOffPointers (table_of claims.old) (table_of claims.new) touch.fragment touch.level }
    ensures watched { OnOk result (KeepsWatch (table_of claims.old).claimed watch.old (table_of claims.new).claimed watch.new) }
    ensures lost { IfOk result (λ got. got ≡ false → IsClaimedBy (table_of claims.old).claimed touch.level touch.fragment
        × (touch.fragment < V.count view.old) × (V.is_gone view.new touch.fragment ≡ true)) }
    ensures fetched { FetchesOnce V.fetched (IsNewAt touch (table_of claims.old).claimed touch.level block) view.old view.new }
{
    claims.claims_inside();
    let now = claims.has_level(touch.fragment, touch.level);
    if !now {
        if !touch.was {
            return Ok(true);
        }
        drop_pointers(claims, watch, g, touch.fragment, touch.level)?;
        return Ok(true);
    }
    if touch.fragment == block {
        put_pointers(claims, watch, g, touch.fragment, touch.level, bytes)?;
        return Ok(true);
    }
    if touch.was {
        return Ok(true);
    }
    if !read_fragment(view, levels, touch.fragment) {
        return Ok(false);
    }
    put_pointers(
        claims,
        watch,
        g,
        touch.fragment,
        touch.level,
        levels.aside(),
    )?;
    Ok(true)
}

/// The same of number `k` of the touches, where it is at this level.
fn move_number<V: View>(
    view: &mut V,
    g: &Geometry,
    levels: &mut Levels,
    claims: &mut Claims,
    watch: &mut Watch,
    k: usize,
    level: u8,
    block: u32,
    bytes: &[u8],
) -> Result<bool, NoMemory>
    requires sound { V.is_sound view.old }
    requires geometry { IsGeometryOn (V.size view.old) (V.count view.old) g.now }
    requires levels { levels.old.fragment ≡ V.size view.old }
    requires table { (table_of claims.old).geometry ≡ Some g.now }
    requires bytes { length bytes.now ≡ V.size view.old }
    requires low { 1 ≤ level }
    requires high { level ≤ 3 }
    requires inside { k < length watch.old }
    ensures keeps { Keeps V.View view.old view.new }
    ensures levels { levels.new.fragment ≡ levels.old.fragment }
    ensures grows { Grows watch.old watch.new }
    ensures geometry { (table_of claims.new).geometry ≡ (table_of claims.old).geometry }
    ensures moved { IfOk result (λ got. got ≡ true → (touch_at watch.old k).level ≡ level
        → OnVolumes V.View view.old view.new block bytes.now (λ v.
        IsMoved (source_fragments g.now v) (table_of claims.old).claimed (table_of claims.new).claimed block (touch_at watch.old k))) }
    ensures others { (source : ClaimSource) → ((touch_at watch.old k).level ≡ level
        → (at : ℕ) → source ≡ ClaimSource.Pointer (touch_at watch.old k).fragment level at → ⊥)
        → (table_of claims.new).claimed source ≡ (table_of claims.old).claimed source }
    ensures watched { OnOk result (KeepsWatch (table_of claims.old).claimed watch.old (table_of claims.new).claimed watch.new) }
    ensures lost { IfOk result (λ got. got ≡ false → IsClaimedBy (table_of claims.old).claimed level (touch_at watch.old k).fragment
        × ((touch_at watch.old k).fragment < V.count view.old) × (V.is_gone view.new (touch_at watch.old k).fragment ≡ true)) }
    ensures fetched { FetchesOnce V.fetched (IsNewAt (touch_at watch.old k) (table_of claims.old).claimed level block) view.old view.new }
{
    let touch = watch.at(k);
    if touch.level != level {
        return Ok(true);
    }
    move_touch(view, g, levels, claims, watch, touch, block, bytes)
}

/// The pointers of all fragments at a level claim what they do after the write. It answers whether each fragment that has a claim
/// there, and had none, could be read.
fn move_level<V: View>(
    view: &mut V,
    g: &Geometry,
    levels: &mut Levels,
    claims: &mut Claims,
    watch: &mut Watch,
    level: u8,
    block: u32,
    bytes: &[u8],
) -> Result<bool, NoMemory>
    requires sound { V.is_sound view.old }
    requires geometry { IsGeometryOn (V.size view.old) (V.count view.old) g.now }
    requires levels { levels.old.fragment ≡ V.size view.old }
    requires table { (table_of claims.old).geometry ≡ Some g.now }
    requires bytes { length bytes.now ≡ V.size view.old }
    requires low { 1 ≤ level }
    requires high { level ≤ 3 }
    ensures keeps { Keeps V.View view.old view.new }
    ensures levels { levels.new.fragment ≡ levels.old.fragment }
    ensures grows { Grows watch.old watch.new }
    ensures geometry { (table_of claims.new).geometry ≡ (table_of claims.old).geometry }
    ensures right { IfOk result (λ got. got ≡ true → OnVolumes V.View view.old view.new block bytes.now (λ v.
        IsRightBelow (source_fragments g.now v) (table_of claims.old).claimed (table_of claims.new).claimed level block watch.old)) }
    ensures others { KeepsOffLevel (table_of claims.old).claimed (table_of claims.new).claimed level }
    ensures watched { OnOk result (KeepsWatch (table_of claims.old).claimed watch.old (table_of claims.new).claimed watch.new) }
    ensures lost { IfOk result (λ got. got ≡ false → LosesClaimed (table_of claims.old).claimed level (V.count view.old) (V.is_gone view.new)) }
    ensures fetched { FetchesOnce V.fetched (Begins watch.old (table_of claims.old).claimed level block (length watch.old)) view.old view.new }
{
    let count = watch.count();
    for k in 0..count {
        if !move_number(view, g, levels, claims, watch, k, level, block, bytes)? {
            return Ok(false);
        }
    }
    Ok(true)
}

/// The pointers of all fragments at all levels claim what they do after the write, level by level from the top, where the slots of
/// inodes do so already. It answers whether each fragment that has a claim above level 0, and had none there, could be read.
pub fn move_levels<V: View>(
    view: &mut V,
    g: &Geometry,
    levels: &mut Levels,
    claims: &mut Claims,
    watch: &mut Watch,
    block: u32,
    bytes: &[u8],
) -> Result<bool, NoMemory>
    requires sound { V.is_sound view.old }
    requires geometry { IsGeometryOn (V.size view.old) (V.count view.old) g.now }
    requires levels { levels.old.fragment ≡ V.size view.old }
    requires table { (table_of claims.old).geometry ≡ Some g.now }
    requires bytes { length bytes.now ≡ V.size view.old }
    ensures keeps { Keeps V.View view.old view.new }
    ensures levels { levels.new.fragment ≡ levels.old.fragment }
    ensures geometry { (table_of claims.new).geometry ≡ (table_of claims.old).geometry }
    ensures watched { OnOk result (KeepsWatch (table_of claims.old).claimed watch.old (table_of claims.new).claimed watch.new) }
    ensures right { IfOk result (λ got. got ≡ true → OnVolumes V.View view.old view.new block bytes.now (λ v.
        (sources before : ClaimSource → List ℕ)
        → IsReady (source_fragments g.now v) sources before (table_of claims.old).claimed block watch.old
        → AreClaims (source_fragments g.now v) (table_of claims.new).claimed)) }
    ensures lost { IfOk result (λ got. got ≡ false → LosesOne (λ v. StandsWith V.View view.old block bytes.now v
        × IsReadyOn g.now v (table_of claims.old).claimed block watch.old)
        (V.tells view.new) (V.count view.old) (IsIndirect g.now) (V.is_gone view.new)) }
    ensures fetched { (before : ClaimSource → List ℕ) → IsWatched before (table_of claims.old).claimed watch.old
        → FetchesPlaces V.fetched (IsBegun before
        (IsClaimedReady V.View view.old view.new g.now block bytes.now (table_of claims.old).claimed watch.old) 0 block) view.old view.new }
{
    for done in 0..HIGHEST {
        if !move_level(view, g, levels, claims, watch, HIGHEST - done, block, bytes)? {
            return Ok(false);
        }
    }
    Ok(true)
}
