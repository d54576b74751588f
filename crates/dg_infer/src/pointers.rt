ghost use Rattle.std.specs.Prelude.{◌≡◌, ◌-◌, ◌≤◌, ℕ, List, [], OnOk, Some, length};
ghost use Rattle.std.specs.List.{Contains};
ghost use Rattle.ufs_model.specs.Geometries.{IsGeometry};
ghost use Rattle.ufs_model.specs.declared.claims.ClaimSource.{ClaimSource};
ghost use Rattle.dg_claims.specs.Kept.{table_of};
ghost use Rattle.dg_claims.specs.Tables.{fragment_pointers};
ghost use Rattle.dg_infer.specs.Watches.{Grows, IsTouched, IsWatched, KeepsWatch};

use crate::watches::{Watch, watch_run};
use dg_claims::{ClaimSource, Claims, Geometry, pointer_run};
use dg_io::NoMemory;

/// Bytes of a pointer (`daddr_t`).
const POINTER_BYTES: u32 = 4;

/// Touches what the pointers of a fragment at a level claim.
fn watch_old(
    watch: &mut Watch,
    claims: &Claims,
    g: &Geometry,
    fragment: u32,
    level: u8,
) -> Result<(), NoMemory>
    requires geometry { IsGeometry g.now }
    requires table { (table_of claims.now).geometry ≡ Some g.now }
    requires low { 1 ≤ level }
    ensures grows { Grows watch.old watch.new }
    ensures touched { OnOk result ((at claimed : ℕ) → Contains ((table_of claims.now).claimed (ClaimSource.Pointer fragment level at)) claimed
        → IsTouched watch.new (level - 1) claimed) }
    ensures watched { KeepsWatch (table_of claims.now).claimed watch.old (table_of claims.now).claimed watch.new }
{
    claims.claims_inside();
    for at in 0..g.fsize / POINTER_BYTES {
        let source = ClaimSource::Pointer {
            fragment,
            level,
            at,
        };
        watch_run(watch, claims, level - 1, claims.run(&source))?;
    }
    Ok(())
}

/// Touches what the pointers in the bytes of a fragment that has a claim at a level lead to.
fn watch_new(
    watch: &mut Watch,
    claims: &Claims,
    g: &Geometry,
    level: u8,
    bytes: &[u8],
) -> Result<(), NoMemory>
    requires geometry { IsGeometry g.now }
    requires table { (table_of claims.now).geometry ≡ Some g.now }
    requires bytes { length bytes.now ≡ g.now.fsize }
    requires low { 1 ≤ level }
    ensures grows { Grows watch.old watch.new }
    ensures touched { OnOk result ((at claimed : ℕ) → Contains (fragment_pointers (table_of claims.now).geometry bytes.now at) claimed
        → IsTouched watch.new (level - 1) claimed) }
    ensures watched { KeepsWatch (table_of claims.now).claimed watch.old (table_of claims.now).claimed watch.new }
{
    for at in 0..g.fsize / POINTER_BYTES {
        watch_run(watch, claims, level - 1, pointer_run(g, bytes, at))?;
    }
    Ok(())
}

/// Has the pointers of a fragment at a level claim what its bytes say, and touches what that may change below.
pub fn put_pointers(
    claims: &mut Claims,
    watch: &mut Watch,
    g: &Geometry,
    fragment: u32,
    level: u8,
    bytes: &[u8],
) -> Result<(), NoMemory>
    requires geometry { IsGeometry g.now }
    requires table { (table_of claims.old).geometry ≡ Some g.now }
    requires bytes { length bytes.now ≡ g.now.fsize }
    requires low { 1 ≤ level }
    requires high { level ≤ 3 }
    ensures grows { Grows watch.old watch.new }
    ensures geometry { (table_of claims.new).geometry ≡ (table_of claims.old).geometry }
    ensures pointers { OnOk result ((at : ℕ) → (table_of claims.new).claimed (ClaimSource.Pointer fragment level at)
        ≡ fragment_pointers (table_of claims.old).geometry bytes.now at) }
    ensures others { (source : ClaimSource) → ((at : ℕ) → source ≡ ClaimSource.Pointer fragment level at → ⊥)
        → (table_of claims.new).claimed source ≡ (table_of claims.old).claimed source }
    ensures watched { OnOk result (KeepsWatch (table_of claims.old).claimed watch.old (table_of claims.new).claimed watch.new) }
{
    watch_old(watch, claims, g, fragment, level)?;
    watch_new(watch, claims, g, level, bytes)?;
    claims.of_pointers(fragment, level, bytes)
}

/// Has the pointers of a fragment at a level claim nothing, and touches what that may change below.
pub fn drop_pointers(
    claims: &mut Claims,
    watch: &mut Watch,
    g: &Geometry,
    fragment: u32,
    level: u8,
) -> Result<(), NoMemory>
    requires geometry { IsGeometry g.now }
    requires table { (table_of claims.old).geometry ≡ Some g.now }
    requires low { 1 ≤ level }
    ensures grows { Grows watch.old watch.new }
    ensures geometry { (table_of claims.new).geometry ≡ (table_of claims.old).geometry }
    ensures pointers { OnOk result ((at : ℕ) → (table_of claims.new).claimed (ClaimSource.Pointer fragment level at) ≡ []) }
    ensures others { (source : ClaimSource) → ((at : ℕ) → source ≡ ClaimSource.Pointer fragment level at → ⊥)
        → (table_of claims.new).claimed source ≡ (table_of claims.old).claimed source }
    ensures watched { OnOk result (KeepsWatch (table_of claims.old).claimed watch.old (table_of claims.new).claimed watch.new) }
{
    watch_old(watch, claims, g, fragment, level)?;
    claims.remove_pointers(fragment, level);
    Ok(())
}
