// The pass over the fragments.
ghost use Rattle.std.specs.Prelude.{◌≡◌, ◌+◌, ◌/◌, ◌%◌, ◌<◌, ◌≤◌, ℕ, List, Some, None, true, false, IfNone, IfOk, IfSome, OnOk, length};
ghost use Rattle.std.specs.Bool.{Decides};
ghost use Rattle.dg_io.specs.ViewWords.{Keeps};
ghost use Rattle.ufs_model.specs.Blocks.{Volume, block_at};
ghost use Rattle.ufs_model.specs.Geometries.{IsGeometry, IsGeometryOn};
ghost use Rattle.ufs_model.specs.GroupMaps.{by_maps, group_bytes, group_in, is_free};
ghost use Rattle.ufs_model.specs.Metadata.{IsMetadataBy};
ghost use Rattle.dg_claims.specs.Kept.{table_of};
ghost use Rattle.dg_claims.specs.Scans.{IsIndirect};
ghost use Rattle.dg_claims.specs.There.{HadOn};
ghost use Rattle.ufs_check.specs.Fragments.{AreClaimFaultsBelow, AreFragmentFaults, AreFragmentFaultsBelow, ArePointerFaultsBelow, HasClaimsOf, IsUpperIn};
ghost use Rattle.ufs_frames.specs.Frames.{HasWholeUppers};
ghost use Rattle.ufs_check.specs.ViewWords.{FetchesOn, IsClaimed, LosesOn};
ghost use Rattle.ufs_check.specs.Limits.{IsInLimits, IsLimit};

use crate::inodes::hold_group;
use crate::limits::{Limit, read_limit};
use crate::notes::note;
use crate::pointers::{has_misaligned_pointer, has_past_pointer, has_wild_pointer};
use crate::verdicts::FragmentFaults;
use dg_claims::Claims;
use dg_io::{NoMemory, View};
use std::alloc::Global;
use ufs_group::{is_free, read_group};
use ufs_model::Geometry;
use ufs_pointer::Levels;
use ufs_super::group_of;

/// Fragment `f` is marked free by the map of its group, whose block has the bytes. Where that is
/// refused, it isn't.
#[tactic(auto, unfolding(ufs_model::specs::Geometries::end_of, ufs_model::specs::Geometries::cgbase))]
fn is_marked_free(g: &Geometry, f: u32, bytes: &[u8]) -> bool
    requires geometry { IsGeometry g.now }
    requires inside { f < g.now.size }
    requires bytes { g.now.bsize ≤ length bytes.now }
    ensures { result ≡ by_maps (group_in g.now (f / g.now.fpg) bytes.now) (λ group. is_free bytes.now group (f % g.now.fpg)) }
{
    match read_group(bytes, g, group_of(g, f)) {
        Ok(group) => is_free(bytes, &group, f % g.fpg),
        Err(_) => false,
    }
}

/// A fragment is one of an indirect block: it has a claim at a level above 0.
fn is_upper(claims: &Claims, f: u32) -> bool
    ensures { Decides result (IsUpperIn (table_of claims.now) f) }
{
    claims.claims_inside();
    claims.has_level(f, 1) || claims.has_level(f, 2) || claims.has_level(f, 3)
}

/// Notes what is wrong with the claims of fragment `f`, where what is wrong with those of lower numbers
/// is noted. The bytes are those of the group's block.
fn note_claims(
    g: &Geometry,
    f: u32,
    bytes: &[u8],
    claims: &Claims,
    faults: &mut FragmentFaults,
) -> Result<(), NoMemory>
    requires geometry { IsGeometry g.now }
    requires inside { f < g.now.size }
    requires bytes { g.now.bsize ≤ length bytes.now }
    ensures wild_in { faults.new.wild_in ≡ faults.old.wild_in }
    ensures align_in { faults.new.align_in ≡ faults.old.align_in }
    ensures past_in { faults.new.past_in ≡ faults.old.past_in }
    ensures claimed { OnOk result ((v : Volume) → HasClaimsOf g.now (table_of claims.now) v → bytes.now ≡ (group_bytes g.now (f / g.now.fpg) v).value
        → AreClaimFaultsBelow g.now v f faults.old → AreClaimFaultsBelow g.now v (f + 1) faults.new) }
{
    let number = claims.claims_on(f);
    note(&mut faults.twice, f, 2 <= number)?;
    note(
        &mut faults.free,
        f,
        1 <= number && is_marked_free(g, f, bytes),
    )?;
    Ok(())
}

/// Notes what is wrong with the pointers of fragment `f` of an indirect block, which has the bytes, where
/// what is wrong with fragments of lower numbers is noted.
fn note_pointers(
    g: &Geometry,
    f: u32,
    bytes: &[u8],
    claims: &Claims,
    limit: Option<Limit>,
    faults: &mut FragmentFaults,
) -> Result<(), NoMemory>
    requires geometry { IsGeometry g.now }
    requires limit { IfSome limit IsInLimits }
    requires bytes { length bytes.now ≡ g.now.fsize }
    requires upper { IsUpperIn (table_of claims.now) f }
    ensures twice { faults.new.twice ≡ faults.old.twice }
    ensures free { faults.new.free ≡ faults.old.free }
    ensures pointers { OnOk result ((v : Volume) → HasClaimsOf g.now (table_of claims.now) v → bytes.now ≡ block_at g.now.fsize v f
        → IsLimit g.now v f limit → ArePointerFaultsBelow g.now v f faults.old → ArePointerFaultsBelow g.now v (f + 1) faults.new) }
{
    note(&mut faults.wild_in, f, has_wild_pointer(g, bytes))?;
    note(&mut faults.align_in, f, has_misaligned_pointer(g, bytes))?;
    note(&mut faults.past_in, f, has_past_pointer(g, bytes, limit))?;
    Ok(())
}

/// Reads fragment `f`, if it is one of an indirect block, and notes what is wrong with its pointers. It
/// answers whether it could.
fn check_pointers<V: View>(
    view: &mut V,
    g: &Geometry,
    f: u32,
    levels: &mut Levels,
    claims: &Claims,
    faults: &mut FragmentFaults,
) -> Result<bool, NoMemory>
    requires sound { V.is_sound view.old }
    requires geometry { IsGeometryOn (V.size view.old) (V.count view.old) g.now }
    requires levels { levels.old.fragment ≡ V.size view.old }
    requires table { (table_of claims.now).geometry ≡ Some g.now }
    requires inside { f < g.now.size }
    ensures keeps { Keeps V.View view.old view.new }
    ensures levels { levels.new.fragment ≡ levels.old.fragment }
    ensures block { levels.new.block ≡ levels.old.block }
    ensures twice { faults.new.twice ≡ faults.old.twice }
    ensures free { faults.new.free ≡ faults.old.free }
    ensures found { IfOk result (λ could. could ≡ true → V.tells view.new → (v : Volume) → IsClaimed V.View view.old g.now (table_of claims.now) v
        → ArePointerFaultsBelow g.now v f faults.old → ArePointerFaultsBelow g.now v (f + 1) faults.new) }
    ensures whole { IfOk result (λ could. could ≡ true → V.tells view.new → (v : Volume) → V.stands_for view.old v → IsUpperIn (table_of claims.now) f
        → length (block_at g.now.fsize v f) ≡ g.now.fsize) }
    ensures there { IfOk result (λ could. could ≡ true → V.tells view.new → (v : Volume) → V.stands_for view.old v → IsUpperIn (table_of claims.now) f
        → V.is_gone view.old f ≡ false) }
    ensures gone { IfOk result (λ could. could ≡ false
        → LosesOn V.View view.old view.new (IsClaimed V.View view.old g.now (table_of claims.now)) (IsMetadataBy g.now)) }
    ensures fetched { FetchesOn V.View view.old view.new (IsClaimed V.View view.old g.now (table_of claims.now)) (IsMetadataBy g.now) }
{
    if !is_upper(claims, f) {
        return Ok(true);
    }
    let Some(limit) = read_limit(view, g, f, levels, claims) else {
        return Ok(false);
    };
    if !levels.read_aside(view, f) {
        return Ok(false);
    }
    note_pointers(g, f, levels.aside(), claims, limit, faults)?;
    Ok(true)
}

/// What is wrong with the fragments, by the claims of the volume. There is no answer where a group block
/// is gone, or a fragment of an indirect block.
pub fn check_fragments<V: View>(
    alloc: Global,
    view: &mut V,
    g: &Geometry,
    levels: &mut Levels,
    claims: &Claims,
) -> Result<Option<FragmentFaults>, NoMemory>
    requires sound { V.is_sound view.old }
    requires geometry { IsGeometryOn (V.size view.old) (V.count view.old) g.now }
    requires levels { levels.old.fragment ≡ V.size view.old }
    requires table { (table_of claims.now).geometry ≡ Some g.now }
    ensures keeps { Keeps V.View view.old view.new }
    ensures levels { levels.new.fragment ≡ levels.old.fragment }
    ensures found { IfOk result (λ answer. IfSome answer (λ faults. V.tells view.new → (v : Volume) → IsClaimed V.View view.old g.now (table_of claims.now) v
        → AreFragmentFaults g.now v faults)) }
    ensures whole { IfOk result (λ answer. IfSome answer (λ faults. V.tells view.new → (v : Volume) → IsClaimed V.View view.old g.now (table_of claims.now) v
        → HasWholeUppers g.now v)) }
    ensures there { IfOk result (λ answer. IfSome answer (λ faults.
        HadOn V.View view.old view.new (IsClaimed V.View view.old g.now (table_of claims.now)) (IsIndirect g.now))) }
    ensures gone { IfOk result (λ answer. IfNone answer
        (LosesOn V.View view.old view.new (IsClaimed V.View view.old g.now (table_of claims.now)) (IsMetadataBy g.now))) }
    ensures fetched { FetchesOn V.View view.old view.new (IsClaimed V.View view.old g.now (table_of claims.now)) (IsMetadataBy g.now) }
{
    claims.claims_inside();
    let mut faults = FragmentFaults {
        wild_in: Vec::new(alloc),
        align_in: Vec::new(alloc),
        twice: Vec::new(alloc),
        past_in: Vec::new(alloc),
        free: Vec::new(alloc),
    };
    let mut group = None;
    for f in 0..g.size {
        if !hold_group(view, g, group_of(g, f), levels, &mut group) {
            return Ok(None);
        }
        note_claims(g, f, levels.block(), claims, &mut faults)?;
        if !check_pointers(view, g, f, levels, claims, &mut faults)? {
            return Ok(None);
        }
    }
    Ok(Some(faults))
}
