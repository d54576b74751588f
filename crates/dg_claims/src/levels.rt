ghost use Rattle.std.specs.Prelude.{◌≡◌, ◌-◌, ◌<◌, ◌≤◌, ℕ, [], IfOk, Ok, Some, length, true, false};
ghost use Rattle.std.specs.List.{Contains};
ghost use Rattle.dg_io.specs.ViewWords.{Keeps};
ghost use Rattle.ufs_model.specs.Blocks.{Volume};
ghost use Rattle.ufs_model.specs.Claims.{source_fragments};
ghost use Rattle.ufs_model.specs.Geometries.{IsGeometryOn};
ghost use Rattle.ufs_model.specs.declared.claims.ClaimSource.{ClaimSource};
ghost use Rattle.ufs_pointer.specs.Fetches.{IsJust};
ghost use Rattle.ufs_pointer.specs.ViewWords.{FetchesKind, LosesKind};
ghost use Rattle.dg_claims.specs.Kept.{table_of};
ghost use Rattle.dg_claims.specs.Scans.{ClaimsAsOn, FetchesIndirect, HadAbove, HadLevel, HasNoPointers, IsAmong, IsRightAbove, LosesIndirect};
ghost use Rattle.dg_claims.specs.Tables.{KeepsOffPointers};
ghost use Rattle.dg_claims.specs.There.{HadKind};

use crate::claims::Claims;
use crate::inodes::read_fragment;
use dg_io::{NoMemory, View};
use std::alloc::Global;
use ufs_model::{ClaimSource, Geometry};
use ufs_pointer::Levels;

/// The highest level of an indirect block (`NIADDR`).
const HIGHEST: u8 = 3;

/// Has the pointers of a fragment that has a claim at a level claim what its bytes say. It answers whether the fragment could be
/// read.
fn scan_fragment<V: View>(
    view: &mut V,
    g: &Geometry,
    levels: &mut Levels,
    claims: &mut Claims,
    fragment: u32,
    level: u8,
) -> Result<bool, NoMemory>
    requires sound { V.is_sound view.old }
    requires geometry { IsGeometryOn (V.size view.old) (V.count view.old) g.now }
    requires levels { levels.old.fragment ≡ V.size view.old }
    requires table { (table_of claims.old).geometry ≡ Some g.now }
    requires inside { fragment < g.now.size }
    requires low { 1 ≤ level }
    requires high { level ≤ 3 }
    ensures keeps { Keeps V.View view.old view.new }
    ensures levels { levels.new.fragment ≡ levels.old.fragment }
    ensures geometry { (table_of claims.new).geometry ≡ (table_of claims.old).geometry }
    ensures pointers { IfOk result (λ got. got ≡ true → V.tells view.new → (v : Volume) → V.stands_for view.old v
        → (at : ℕ) → ClaimsAsOn g.now v (table_of claims.new).claimed (ClaimSource.Pointer fragment level at)) }
    ensures others { KeepsOffPointers (table_of claims.old) (table_of claims.new) fragment level }
    ensures gone { IfOk result (λ got. got ≡ false → V.is_gone view.new fragment ≡ true) }
    ensures there { IfOk result (λ got. got ≡ true → HadKind V.View view.old view.new (IsJust fragment)) }
    ensures fetched { FetchesKind V.View view.old view.new (IsJust fragment) }
{
    if !read_fragment(view, levels, fragment) {
        return Ok(false);
    }
    claims.of_pointers(fragment, level, levels.aside())?;
    Ok(true)
}

/// Has the pointers of these fragments, which have a claim at a level, claim what their bytes say. It answers whether each of
/// them could be read.
fn scan_fragments<V: View>(
    view: &mut V,
    g: &Geometry,
    levels: &mut Levels,
    claims: &mut Claims,
    fragments: &[u32],
    level: u8,
) -> Result<bool, NoMemory>
    requires sound { V.is_sound view.old }
    requires geometry { IsGeometryOn (V.size view.old) (V.count view.old) g.now }
    requires levels { levels.old.fragment ≡ V.size view.old }
    requires table { (table_of claims.old).geometry ≡ Some g.now }
    requires inside { (fragment : ℕ) → Contains fragments.now fragment → fragment < g.now.size }
    requires low { 1 ≤ level }
    requires high { level ≤ 3 }
    ensures keeps { Keeps V.View view.old view.new }
    ensures levels { levels.new.fragment ≡ levels.old.fragment }
    ensures geometry { (table_of claims.new).geometry ≡ (table_of claims.old).geometry }
    ensures pointers { IfOk result (λ got. got ≡ true → V.tells view.new → (v : Volume) → V.stands_for view.old v
        → (fragment at : ℕ) → Contains fragments.now fragment
        → ClaimsAsOn g.now v (table_of claims.new).claimed (ClaimSource.Pointer fragment level at)) }
    ensures others { (source : ClaimSource) → ((fragment at : ℕ) → Contains fragments.now fragment → source ≡ ClaimSource.Pointer fragment level at → ⊥)
        → (table_of claims.new).claimed source ≡ (table_of claims.old).claimed source }
    ensures lost { IfOk result (λ got. got ≡ false → LosesKind V.View view.old view.new (IsAmong fragments.now)) }
    ensures there { IfOk result (λ got. got ≡ true → HadKind V.View view.old view.new (IsAmong fragments.now)) }
    ensures fetched { FetchesKind V.View view.old view.new (IsAmong fragments.now) }
{
    for fragment in fragments {
        if !scan_fragment(view, g, levels, claims, *fragment, level)? {
            return Ok(false);
        }
    }
    Ok(true)
}

/// Has the pointers of all fragments with a claim at a level claim what they do. It answers whether each of these fragments could
/// be read.
fn scan_level<V: View>(
    alloc: Global,
    view: &mut V,
    g: &Geometry,
    levels: &mut Levels,
    claims: &mut Claims,
    level: u8,
) -> Result<bool, NoMemory>
    requires sound { V.is_sound view.old }
    requires geometry { IsGeometryOn (V.size view.old) (V.count view.old) g.now }
    requires levels { levels.old.fragment ≡ V.size view.old }
    requires table { (table_of claims.old).geometry ≡ Some g.now }
    requires low { 1 ≤ level }
    requires high { level ≤ 3 }
    requires none { HasNoPointers (table_of claims.old).claimed level }
    ensures keeps { Keeps V.View view.old view.new }
    ensures levels { levels.new.fragment ≡ levels.old.fragment }
    ensures geometry { (table_of claims.new).geometry ≡ (table_of claims.old).geometry }
    ensures none { HasNoPointers (table_of claims.new).claimed (level - 1) }
    ensures right { IfOk result (λ got. got ≡ true → V.tells view.new → (v : Volume) → V.stands_for view.old v
        → IsRightAbove (source_fragments g.now v) (table_of claims.old).claimed level
        → IsRightAbove (source_fragments g.now v) (table_of claims.new).claimed (level - 1)) }
    ensures lost { IfOk result (λ got. got ≡ false → LosesIndirect V.View view.old view.new g.now (table_of claims.old).claimed level) }
    ensures there { IfOk result (λ got. got ≡ true → HadLevel V.View view.old view.new g.now (table_of claims.old).claimed level) }
    ensures fetched { FetchesIndirect V.View view.old view.new g.now (table_of claims.old).claimed level }
{
    let fragments = claims.fragments_at(alloc, level)?;
    scan_fragments(view, g, levels, claims, &fragments, level)
}

/// Has all pointers of fragments with a claim claim what they do, level by level from the top. It answers whether each fragment
/// with a claim at a level above 0 could be read.
pub(crate) fn scan_levels<V: View>(
    alloc: Global,
    view: &mut V,
    g: &Geometry,
    levels: &mut Levels,
    claims: &mut Claims,
) -> Result<bool, NoMemory>
    requires sound { V.is_sound view.old }
    requires geometry { IsGeometryOn (V.size view.old) (V.count view.old) g.now }
    requires levels { levels.old.fragment ≡ V.size view.old }
    requires table { (table_of claims.old).geometry ≡ Some g.now }
    requires none { HasNoPointers (table_of claims.old).claimed 3 }
    ensures keeps { Keeps V.View view.old view.new }
    ensures levels { levels.new.fragment ≡ levels.old.fragment }
    ensures geometry { (table_of claims.new).geometry ≡ (table_of claims.old).geometry }
    ensures none { IfOk result (λ got. got ≡ true → HasNoPointers (table_of claims.new).claimed 0) }
    ensures right { IfOk result (λ got. got ≡ true → V.tells view.new → (v : Volume) → V.stands_for view.old v
        → IsRightAbove (source_fragments g.now v) (table_of claims.old).claimed 3 → IsRightAbove (source_fragments g.now v) (table_of claims.new).claimed 0) }
    ensures lost { IfOk result (λ got. got ≡ false → LosesIndirect V.View view.old view.new g.now (table_of claims.old).claimed 3) }
    ensures there { IfOk result (λ got. got ≡ true → HadAbove V.View view.old view.new g.now (table_of claims.old).claimed 0) }
    ensures fetched { FetchesIndirect V.View view.old view.new g.now (table_of claims.old).claimed 3 }
{
    for done in 0..HIGHEST {
        if !scan_level(alloc, view, g, levels, claims, HIGHEST - done)? {
            return Ok(false);
        }
    }
    Ok(true)
}
