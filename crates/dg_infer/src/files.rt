// The blocks of one file, found from its inode downwards.
ghost use Rattle.std.specs.Prelude.{◌≡◌, ◌↔◌, ◌+◌, ◌≤◌, ◌++◌, ◌∷◌, [], ℕ, IfOk, IfSome, OnOk, if◌then◌else◌, false};
ghost use Rattle.std.specs.Bool.{Decides};
ghost use Rattle.std.specs.List.{Contains};
ghost use Rattle.std.specs.List.Sorted.{IsStrictlyIncreasing};
ghost use Rattle.dg_model.specs.declared.wants.Want.TheVariants.{File};
ghost use Rattle.ufs_model.specs.Claims.{level_of};
ghost use Rattle.ufs_model.specs.Geometries.{IsGeometry};
ghost use Rattle.ufs_model.specs.declared.claims.ClaimSource.{ClaimSource};
ghost use Rattle.dg_claims.specs.Kept.{table_of};
ghost use Rattle.dg_claims.specs.Tables.{TableClaims};
ghost use Rattle.dg_infer.specs.Files.{Gains, IsOfPointer, IsOfSlot, IsOwnedAt, IsSoleSource};
ghost use Rattle.dg_infer.specs.Known.{is_system_by};
ghost use Rattle.dg_infer.specs.Wants.{IsWantBy};

use crate::inferences::Inference;
use crate::pending::is_system;
use crate::verdicts::is_regular;
use dg_claims::{ClaimSource, Claims, Geometry};
use dg_io::NoMemory;
use std::alloc::Global;

/// Slots of an inode (`NDADDR`, `NIADDR`).
const SLOTS: u8 = 15;

/// Bytes of a pointer (`daddr_t`).
const POINTER_BYTES: u32 = 4;

/// The highest level of an indirect block (`NIADDR`).
const HIGHEST: u8 = 3;

/// Whether the fragment has one claim.
fn has_one_claim(claims: &Claims, fragment: u32) -> bool
    ensures { (source : ClaimSource) → TableClaims (table_of claims.now) fragment source
        → Decides result (IsSoleSource claims.now source fragment) }
{
    claims.only_claim(fragment).is_some()
}

/// Puts a number last in the list, if it is wanted there.
fn put_if(list: &mut Vec<u32>, number: u32, wanted: bool) -> Result<(), NoMemory>
    ensures { OnOk result (list.new.items ≡ (if wanted then list.old.items ++ number ∷ [] else list.old.items)) }
{
    if wanted && list.push(number).is_err() {
        return Err(NoMemory);
    }
    Ok(())
}

/// Puts the fragments that a source alone claims last in the list.
fn put_claimed(list: &mut Vec<u32>, claims: &Claims, source: &ClaimSource) -> Result<(), NoMemory>
    ensures { OnOk result (Gains list.old.items list.new.items (IsSoleSource claims.now source.now)) }
{
    let Some(run) = claims.run(source) else {
        return Ok(());
    };
    for i in 0..run.count {
        let fragment = run.first + u32::from(i);
        put_if(list, fragment, has_one_claim(claims, fragment))?;
    }
    Ok(())
}

/// The same of a source that claims at a level, and nothing of any other.
fn put_claimed_at(
    list: &mut Vec<u32>,
    claims: &Claims,
    source: &ClaimSource,
    level: u8,
) -> Result<(), NoMemory>
    ensures { OnOk result (Gains list.old.items list.new.items
        (λ fragment. (level_of source.now ≡ level) × IsSoleSource claims.now source.now fragment)) }
{
    if source.level() != level {
        return Ok(());
    }
    put_claimed(list, claims, source)
}

/// Puts the fragments that slots of an inode alone claim at a level last in the list.
fn put_slots(list: &mut Vec<u32>, claims: &Claims, inode: u32, level: u8) -> Result<(), NoMemory>
    ensures { OnOk result (Gains list.old.items list.new.items (IsOfSlot claims.now inode level)) }
{
    claims.claims_inside();
    for slot in 0..SLOTS {
        put_claimed_at(list, claims, &ClaimSource::Slot { inode, slot }, level)?;
    }
    Ok(())
}

/// Puts the fragments that pointers of a fragment at a level alone claim last in the list.
fn put_pointers(
    list: &mut Vec<u32>,
    claims: &Claims,
    fragment: u32,
    level: u8,
) -> Result<(), NoMemory>
    ensures { OnOk result (Gains list.old.items list.new.items (IsOfPointer claims.now fragment level)) }
{
    claims.claims_inside();
    let Some(g) = claims.geometry() else {
        return Ok(());
    };
    for at in 0..g.fsize / POINTER_BYTES {
        let source = ClaimSource::Pointer {
            fragment,
            level,
            at,
        };
        put_claimed(list, claims, &source)?;
    }
    Ok(())
}

/// The fragments that belong to an inode by claims of a level, by those of the level above.
fn owned_at(
    alloc: Global,
    claims: &Claims,
    inode: u32,
    level: u8,
    uppers: &[u32],
) -> Result<Vec<u32>, NoMemory>
    requires level { level ≤ 3 }
    requires uppers { (fragment : ℕ) → Contains uppers.now fragment ↔ IsOwnedAt claims.now inode (level + 1) fragment }
    ensures { IfOk result (λ owned. (fragment : ℕ) → Contains owned.items fragment ↔ IsOwnedAt claims.now inode level fragment) }
{
    claims.claims_inside();
    let mut owned = Vec::new(alloc);
    put_slots(&mut owned, claims, inode, level)?;
    for place in 0..uppers.len() {
        put_pointers(&mut owned, claims, uppers[place], level + 1)?;
    }
    Ok(owned)
}

/// The fragments that belong to an inode, level by level from the top. The cost grows with their number.
fn owned_by(alloc: Global, claims: &Claims, inode: u32) -> Result<Vec<u32>, NoMemory>
    ensures { IfOk result (λ owned. (fragment : ℕ)
        → Contains owned.items fragment ↔ ((level : ℕ) × IsOwnedAt claims.now inode level fragment)) }
{
    claims.claims_inside();
    let mut all = Vec::new(alloc);
    let mut uppers = Vec::new(alloc);
    for done in 0..=HIGHEST {
        let owned = owned_at(alloc, claims, inode, HIGHEST - done, &uppers)?;
        let Ok(()) = all.extend_from_slice(&owned) else {
            return Err(NoMemory);
        };
        uppers = owned;
    }
    Ok(all)
}

/// Those of some blocks that aren't the file system's own.
fn without_system(
    alloc: Global,
    geometry: Option<Geometry>,
    blocks: &[u32],
) -> Result<Vec<u32>, NoMemory>
    requires { IfSome geometry IsGeometry }
    ensures { IfOk result (λ plain. (block : ℕ)
        → Contains plain.items block ↔ (Contains blocks.now block × (is_system_by geometry block ≡ false))) }
{
    let mut plain = Vec::new(alloc);
    for place in 0..blocks.len() {
        let block = blocks[place];
        put_if(&mut plain, block, !is_system(geometry, block))?;
    }
    Ok(plain)
}

/// Sorts a list, and leaves each number in it once.
fn sort_once(list: &mut Vec<u32>)
    ensures ascend { IsStrictlyIncreasing list.new.items }
    ensures same { (b : ℕ) → Contains list.new.items b ↔ Contains list.old.items b }
{
    list.sort_unstable();
    list.dedup();
}

impl Inference {
    /// The blocks that belong to a regular file, ascending: those that the plan takes for blocks of this file. The cost grows with the
    /// file, and not with the volume.
    pub fn file_blocks(&self, alloc: Global, inode: u32) -> Result<Vec<u32>, NoMemory>
        ensures ascend { IfOk result (λ blocks. IsStrictlyIncreasing blocks.items) }
        ensures are { IfOk result (λ blocks. (block : ℕ) → Contains blocks.items block ↔ IsWantBy self.now block (File inode)) }
    {
        if !is_regular(&self.kinds, inode) {
            return Ok(Vec::new(alloc));
        }
        let owned = owned_by(alloc, &self.claims, inode)?;
        let mut blocks = without_system(alloc, self.geometry, &owned)?;
        sort_once(&mut blocks);
        Ok(blocks)
    }
}
