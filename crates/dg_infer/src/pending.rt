ghost use Rattle.std.specs.Prelude.{◌≡◌, ◌↔◌, ◌⊎◌, ◌<◌, ◌^◌, ℕ, IfOk, IfSome, List, length, slice_set, true, false};
ghost use Rattle.std.specs.Bool.{Decides};
ghost use Rattle.dg_model.specs.Marks.{is_marked, with_mark};
ghost use Rattle.ufs_model.specs.Geometries.{IsGeometry};
ghost use Rattle.ufs_model.specs.declared.claims.ClaimSource.{ClaimSource};
ghost use Rattle.dg_claims.specs.Kept.{table_of};
ghost use Rattle.dg_infer.specs.Known.{HasClaim, IsKnownBy, is_system_by};
ghost use Rattle.dg_infer.specs.Watches.{IsWatched};

use crate::watches::Watch;
use dg_claims::{Claims, Geometry};
use dg_io::NoMemory;
use std::alloc::Global;
use ufs_model::Role;
use ufs_super::role;

/// Whether some source claims the fragment.
pub fn is_claimed(claims: &Claims, fragment: u32) -> bool
    ensures { Decides result (HasClaim (table_of claims.now).claimed fragment) }
{
    claims.claims_on(fragment) != 0
}

/// Whether a block is one of the file system itself. None is without a geometry.
pub fn is_system(geometry: Option<Geometry>, block: u32) -> bool
    requires { IfSome geometry IsGeometry }
    ensures { result ≡ is_system_by geometry block }
{
    match geometry {
        Some(g) => match role(&g, block) {
            Role::System(_) => true,
            Role::Data(_) | Role::Outside => false,
        },
        None => false,
    }
}

/// Sets the mark of a block.
pub fn set_mark(marks: &mut [bool], block: u32, mark: bool)
    requires { block < length marks.old }
    ensures room { length marks.new ≡ length marks.old }
    ensures set { marks.new ≡ slice_set marks.old block mark }
    ensures here { is_marked marks.new block ≡ mark }
    ensures others { (b : ℕ) → (b ≡ block → ⊥) → is_marked marks.new b ≡ is_marked marks.old b }
{
    marks[block as usize] = mark;
}

/// Takes the mark from a fragment that is claimed.
fn clear_claimed(marks: &mut [bool], claims: &Claims, fragment: u32)
    ensures room { length marks.new ≡ length marks.old }
    ensures marks { (b : ℕ) → (is_marked marks.new b ≡ true)
        ↔ ((is_marked marks.old b ≡ true) × (b ≡ fragment → HasClaim (table_of claims.now).claimed b → ⊥)) }
{
    if fragment as usize >= marks.len() {
        return;
    }
    if !is_claimed(claims, fragment) {
        return;
    }
    set_mark(marks, fragment, false);
}

/// Takes the marks from the touched fragments that are claimed.
fn clear_touched(marks: &mut [bool], claims: &Claims, watch: &Watch)
    ensures room { length marks.new ≡ length marks.old }
    ensures fewer { (b : ℕ) → is_marked marks.new b ≡ true → is_marked marks.old b ≡ true }
    ensures marks { (before : ClaimSource → List ℕ) → IsWatched before (table_of claims.now).claimed watch.now
        → ((b : ℕ) → is_marked marks.old b ≡ true → HasClaim before b → ⊥)
        → (b : ℕ) → (is_marked marks.new b ≡ true) ↔ ((is_marked marks.old b ≡ true) × (HasClaim (table_of claims.now).claimed b → ⊥)) }
{
    let count = watch.count();
    for k in 0..count {
        clear_claimed(marks, claims, watch.at(k).fragment);
    }
}

/// The marks of pending blocks after a write of one block, where the geometry stays: those that were pending and the block, but for
/// those that are claimed now, and for a block of the file system itself. Blocks that were pending weren't claimed.
pub fn move_pending(marks: &mut [bool], claims: &Claims, watch: &Watch, block: u32, is_system: bool)
    requires { block < length marks.old }
    ensures room { length marks.new ≡ length marks.old }
    ensures fewer { (b : ℕ) → is_marked marks.new b ≡ true → (is_marked marks.old b ≡ true) ⊎ (b ≡ block) }
    ensures marks { (before : ClaimSource → List ℕ) → IsWatched before (table_of claims.now).claimed watch.now
        → ((b : ℕ) → is_marked marks.old b ≡ true → HasClaim before b → ⊥)
        → (b : ℕ) → (is_marked marks.new b ≡ true)
        ↔ (((is_marked marks.old b ≡ true) ⊎ (b ≡ block)) × (HasClaim (table_of claims.now).claimed b → ⊥) × (b ≡ block → is_system ≡ false)) }
{
    clear_touched(marks, claims, watch);
    let claimed = is_claimed(claims, block);
    set_mark(marks, block, !claimed && !is_system);
}

/// Whether a block is one of the file system itself, or claimed.
fn is_known(claims: &Claims, geometry: Option<Geometry>, block: u32) -> bool
    requires { IfSome geometry IsGeometry }
    ensures { Decides result (IsKnownBy geometry (table_of claims.now).claimed block) }
{
    if is_system(geometry, block) {
        return true;
    }
    is_claimed(claims, block)
}

/// Takes the mark from a block that is one of the file system itself, or claimed.
fn clear_if_known(marks: &mut [bool], claims: &Claims, geometry: Option<Geometry>, block: u32)
    requires geometry { IfSome geometry IsGeometry }
    requires inside { block < length marks.old }
    ensures room { length marks.new ≡ length marks.old }
    ensures marks { (b : ℕ) → (is_marked marks.new b ≡ true)
        ↔ ((is_marked marks.old b ≡ true) × (b ≡ block → IsKnownBy geometry (table_of claims.now).claimed b → ⊥)) }
{
    if !is_known(claims, geometry, block) {
        return;
    }
    set_mark(marks, block, false);
}

/// Takes the marks from all blocks of the file system itself, and from all claimed ones.
pub fn clear_known(marks: &mut [bool], claims: &Claims, geometry: Option<Geometry>)
    requires geometry { IfSome geometry IsGeometry }
    requires few { length marks.old < 2 ^ 32 }
    ensures room { length marks.new ≡ length marks.old }
    ensures marks { (b : ℕ) → (is_marked marks.new b ≡ true)
        ↔ ((is_marked marks.old b ≡ true) × (IsKnownBy geometry (table_of claims.now).claimed b → ⊥)) }
{
    for block in 0..marks.len() as u32 {
        clear_if_known(marks, claims, geometry, block);
    }
}

/// The marks of pending blocks after a write of one block with which the volume was read anew: those that were pending and the block,
/// but for those of the file system itself, and for claimed ones.
pub fn mark_anew(marks: &mut [bool], claims: &Claims, geometry: Option<Geometry>, block: u32)
    requires geometry { IfSome geometry IsGeometry }
    requires few { length marks.old < 2 ^ 32 }
    requires inside { block < length marks.old }
    ensures room { length marks.new ≡ length marks.old }
    ensures marks { (b : ℕ) → (is_marked marks.new b ≡ true)
        ↔ ((is_marked (with_mark marks.old block) b ≡ true) × (IsKnownBy geometry (table_of claims.now).claimed b → ⊥)) }
{
    set_mark(marks, block, true);
    clear_known(marks, claims, geometry);
}

/// The marks of those of some blocks that are neither of the file system itself nor claimed.
pub fn left_marks(
    alloc: Global,
    pending: &[bool],
    claims: &Claims,
    geometry: Option<Geometry>,
) -> Result<Vec<bool>, NoMemory>
    requires geometry { IfSome geometry IsGeometry }
    requires few { length pending.now < 2 ^ 32 }
    ensures room { IfOk result (λ marks. length marks.items ≡ length pending.now) }
    ensures marks { IfOk result (λ marks. (b : ℕ) → (is_marked marks.items b ≡ true)
        ↔ ((is_marked pending.now b ≡ true) × (IsKnownBy geometry (table_of claims.now).claimed b → ⊥))) }
{
    match pending.to_vec(alloc) {
        Ok(mut marks) => {
            clear_known(&mut marks, claims, geometry);
            Ok(marks)
        }
        Err(_) => Err(NoMemory),
    }
}
