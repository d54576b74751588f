ghost use Rattle.std.specs.Prelude.{◌≡◌, ◌-◌, ◌*◌, ◌<◌, ◌≤◌, ℕ, Some, OnOk, length};
ghost use Rattle.std.specs.List.{Contains};
ghost use Rattle.ufs_model.specs.Blocks.{Volume, block_at};
ghost use Rattle.ufs_model.specs.Claims.{slot_fragments, source_fragments};
ghost use Rattle.ufs_model.specs.Geometries.{IsGeometry};
ghost use Rattle.ufs_model.specs.Inodes.{inode_block};
ghost use Rattle.ufs_model.specs.declared.claims.ClaimSource.{ClaimSource};
ghost use Rattle.dg_claims.specs.Kept.{table_of};
ghost use Rattle.dg_claims.specs.Scans.{stored_fragments};
ghost use Rattle.dg_infer.specs.Claimed.{StandsIn};
ghost use Rattle.dg_infer.specs.Watches.{Grows, IsTouched, IsWatched, KeepsWatch};

use crate::watches::{Watch, watch_run};
use dg_claims::{ClaimSource, Claims, Geometry, Inode, slot_run};
use dg_io::NoMemory;
use ufs_inode::{inode_at, inodes_near, place_of};
use ufs_model::ROOT_INODE;

/// The last direct slot of an inode (`NDADDR`), and the number of all slots.
const LAST_DIRECT: u8 = 11;

const SLOTS: u8 = 15;

/// Touches what the slots of an inode claim.
fn watch_old(watch: &mut Watch, claims: &Claims, number: u32) -> Result<(), NoMemory>
    ensures grows { Grows watch.old watch.new }
    ensures touched { OnOk result ((slot claimed : ℕ) → Contains ((table_of claims.now).claimed (ClaimSource.Slot number slot)) claimed
        → IsTouched watch.new (slot - 11) claimed) }
    ensures watched { KeepsWatch (table_of claims.now).claimed watch.old (table_of claims.now).claimed watch.new }
{
    claims.claims_inside();
    for slot in 0..SLOTS {
        let source = ClaimSource::Slot {
            inode: number,
            slot,
        };
        watch_run(
            watch,
            claims,
            slot.saturating_sub(LAST_DIRECT),
            claims.run(&source),
        )?;
    }
    Ok(())
}

/// Touches what the slots of a stored inode lead to.
fn watch_new(
    watch: &mut Watch,
    claims: &Claims,
    g: &Geometry,
    inode: &Inode,
) -> Result<(), NoMemory>
    requires geometry { IsGeometry g.now }
    requires table { (table_of claims.now).geometry ≡ Some g.now }
    ensures grows { Grows watch.old watch.new }
    ensures touched { OnOk result ((slot claimed : ℕ) → Contains (slot_fragments g.now inode.now slot) claimed → IsTouched watch.new (slot - 11) claimed) }
    ensures watched { KeepsWatch (table_of claims.now).claimed watch.old (table_of claims.now).claimed watch.new }
{
    for slot in 0..SLOTS {
        watch_run(
            watch,
            claims,
            slot.saturating_sub(LAST_DIRECT),
            slot_run(g, inode, slot),
        )?;
    }
    Ok(())
}

/// The slots of an inode claim what it says after the write, and nothing where it is unallocated. It touches what that may change.
fn move_inode(
    claims: &mut Claims,
    watch: &mut Watch,
    g: &Geometry,
    number: u32,
    stored: Option<Inode>,
) -> Result<(), NoMemory>
    requires geometry { IsGeometry g.now }
    requires table { (table_of claims.old).geometry ≡ Some g.now }
    ensures grows { Grows watch.old watch.new }
    ensures geometry { (table_of claims.new).geometry ≡ (table_of claims.old).geometry }
    ensures slots { OnOk result ((slot : ℕ) → (table_of claims.new).claimed (ClaimSource.Slot number slot)
        ≡ stored_fragments (table_of claims.old).geometry number stored slot) }
    ensures others { (source : ClaimSource) → ((slot : ℕ) → source ≡ ClaimSource.Slot number slot → ⊥)
        → (table_of claims.new).claimed source ≡ (table_of claims.old).claimed source }
    ensures watched { OnOk result (KeepsWatch (table_of claims.old).claimed watch.old (table_of claims.new).claimed watch.new) }
{
    watch_old(watch, claims, number)?;
    match stored {
        Some(inode) => {
            watch_new(watch, claims, g, &inode)?;
            claims.of_inode(number, &inode)
        }
        None => {
            claims.remove_inode(number);
            Ok(())
        }
    }
}

/// The slots of an inode in the block claim what they do after the write.
fn move_number(
    claims: &mut Claims,
    watch: &mut Watch,
    g: &Geometry,
    number: u32,
    bytes: &[u8],
) -> Result<(), NoMemory>
    requires geometry { IsGeometry g.now }
    requires table { (table_of claims.old).geometry ≡ Some g.now }
    requires bytes { length bytes.now ≡ g.now.fsize }
    requires inside { number < g.now.ncg * g.now.ipg }
    ensures grows { Grows watch.old watch.new }
    ensures geometry { (table_of claims.new).geometry ≡ (table_of claims.old).geometry }
    ensures slots { OnOk result (2 ≤ number → (v : Volume) → bytes.now ≡ block_at g.now.fsize v (inode_block g.now number)
        → (slot : ℕ) → (table_of claims.new).claimed (ClaimSource.Slot number slot) ≡ source_fragments g.now v (ClaimSource.Slot number slot)) }
    ensures others { (source : ClaimSource) → (2 ≤ number → (slot : ℕ) → source ≡ ClaimSource.Slot number slot → ⊥)
        → (table_of claims.new).claimed source ≡ (table_of claims.old).claimed source }
    ensures watched { OnOk result (KeepsWatch (table_of claims.old).claimed watch.old (table_of claims.new).claimed watch.new) }
{
    if number < ROOT_INODE {
        return Ok(());
    }
    let (_, byte) = place_of(g, number);
    move_inode(claims, watch, g, number, inode_at(bytes, byte, g.endian))
}

/// The slots of all inodes in a block claim what they do after the write.
pub fn move_inodes(
    claims: &mut Claims,
    watch: &mut Watch,
    g: &Geometry,
    block: u32,
    bytes: &[u8],
) -> Result<(), NoMemory>
    requires geometry { IsGeometry g.now }
    requires table { (table_of claims.old).geometry ≡ Some g.now }
    requires bytes { length bytes.now ≡ g.now.fsize }
    ensures grows { Grows watch.old watch.new }
    ensures geometry { (table_of claims.new).geometry ≡ (table_of claims.old).geometry }
    ensures slots { OnOk result ((v : Volume) → bytes.now ≡ block_at g.now.fsize v block
        → (number slot : ℕ) → StandsIn g.now number block
        → (table_of claims.new).claimed (ClaimSource.Slot number slot) ≡ source_fragments g.now v (ClaimSource.Slot number slot)) }
    ensures others { (source : ClaimSource) → ((number slot : ℕ) → StandsIn g.now number block → source ≡ ClaimSource.Slot number slot → ⊥)
        → (table_of claims.new).claimed source ≡ (table_of claims.old).claimed source }
    ensures watched { OnOk result (KeepsWatch (table_of claims.old).claimed watch.old (table_of claims.new).claimed watch.new) }
{
    let (first, end) = inodes_near(g, block);
    for number in first..end {
        move_number(claims, watch, g, number, bytes)?;
    }
    Ok(())
}
