ghost use Rattle.std.specs.Prelude.{◌≡◌, ◌+◌, ◌*◌, ◌-◌, ◌<◌, ◌≤◌, ◌∷◌, ℕ, [], IfOk, IfSome, OnOk, Some, None, drop, length, take, true, false};
ghost use Rattle.dg_io.specs.ViewWords.{Keeps};
ghost use Rattle.ufs_model.specs.Blocks.{Volume, block_at};
ghost use Rattle.ufs_model.specs.Geometries.{IsGeometryOn};
ghost use Rattle.ufs_model.specs.Inodes.{inode_block, inode_in};
ghost use Rattle.ufs_model.specs.declared.claims.ClaimSource.{ClaimSource};
ghost use Rattle.ufs_model.specs.declared.numbers.Endian.{Endian};
ghost use Rattle.ufs_pointer.specs.Fetches.{IsJust};
ghost use Rattle.ufs_pointer.specs.ViewWords.{FetchesKind, LosesKind};
ghost use Rattle.dg_claims.specs.Kept.{table_of};
ghost use Rattle.dg_claims.specs.Scans.{ClaimsAsOn, HasInode, HoldsIn, stored_fragments};
ghost use Rattle.dg_claims.specs.Tables.{KeepsOffInode};
ghost use Rattle.dg_claims.specs.There.{HadKind, HadThen};

use crate::claims::Claims;
use dg_io::{NoMemory, View};
use ufs_inode::{inode_at, place_of};
use ufs_model::{ClaimSource, Endian, Geometry, ROOT_INODE};
use ufs_pointer::Levels;

/// Reads a fragment beside the block of data, once, and answers whether it could. Where it is gone, the fragment beside the
/// block has any bytes.
pub fn read_fragment<V: View>(view: &mut V, levels: &mut Levels, fragment: u32) -> bool
    requires sound { V.is_sound view.old }
    requires within { fragment < V.count view.old }
    requires levels { levels.old.fragment ≡ V.size view.old }
    ensures keeps { Keeps V.View view.old view.new }
    ensures levels { levels.new.fragment ≡ levels.old.fragment }
    ensures room { length levels.new.aside ≡ V.size view.old }
    ensures bytes { result ≡ true → V.tells view.new → (v : Volume) → V.stands_for view.old v
        → levels.new.aside ≡ block_at (V.size view.old) v fragment }
    ensures once { V.fetched view.old (fragment ∷ []) view.new }
    ensures gone { result ≡ false → V.is_gone view.new fragment ≡ true }
    ensures there { result ≡ true → HadKind V.View view.old view.new (IsJust fragment) }
{
    levels.read_aside(view, fragment)
}

/// Has a block beside the block of data, which is read where it isn't the one that is held there, and answers whether it could.
fn hold<V: View>(view: &mut V, levels: &mut Levels, held: &mut Option<u32>, block: u32) -> bool
    requires sound { V.is_sound view.old }
    requires within { block < V.count view.old }
    requires levels { levels.old.fragment ≡ V.size view.old }
    requires room { IfSome held.old (λ b. length levels.old.aside ≡ V.size view.old) }
    ensures keeps { Keeps V.View view.old view.new }
    ensures levels { levels.new.fragment ≡ levels.old.fragment }
    ensures held { result ≡ true → (held.new ≡ Some block) × (length levels.new.aside ≡ V.size view.old) }
    ensures bytes { result ≡ true → V.tells view.new → (v : Volume) → V.stands_for view.old v → HoldsIn (V.size view.old) v held.old levels.old.aside
        → levels.new.aside ≡ block_at (V.size view.old) v block }
    ensures gone { result ≡ false → V.is_gone view.new block ≡ true }
    ensures there { result ≡ true → HadThen V.View view.old view.new held.old block }
    ensures fetched { FetchesKind V.View view.old view.new (IsJust block) }
{
    if *held == Some(block) {
        return true;
    }
    *held = None;
    if !read_fragment(view, levels, block) {
        return false;
    }
    *held = Some(block);
    true
}

/// The slots of the inode at a byte of its block claim what it says. They claimed nothing.
fn claim_stored(
    claims: &mut Claims,
    number: u32,
    block: &[u8],
    byte: u32,
    endian: Endian,
) -> Result<(), NoMemory>
    requires inside { byte + 128 ≤ length block.now }
    requires bare { (slot : ℕ) → (table_of claims.old).claimed (ClaimSource.Slot number slot) ≡ [] }
    ensures geometry { (table_of claims.new).geometry ≡ (table_of claims.old).geometry }
    ensures slots { OnOk result ((slot : ℕ) → (table_of claims.new).claimed (ClaimSource.Slot number slot)
        ≡ stored_fragments (table_of claims.old).geometry number (inode_in endian (take 128 (drop byte block.now))) slot) }
    ensures others { KeepsOffInode (table_of claims.old) (table_of claims.new) number }
{
    match inode_at(block, byte, endian) {
        Some(inode) => claims.of_inode(number, &inode),
        None => Ok(()),
    }
}

/// Has the slots of an inode claim what the inode says. Its block is read where it isn't the one that is held. It answers
/// whether the block could be read.
fn scan_inode<V: View>(
    view: &mut V,
    g: &Geometry,
    levels: &mut Levels,
    claims: &mut Claims,
    held: &mut Option<u32>,
    number: u32,
) -> Result<bool, NoMemory>
    requires sound { V.is_sound view.old }
    requires geometry { IsGeometryOn (V.size view.old) (V.count view.old) g.now }
    requires levels { levels.old.fragment ≡ V.size view.old }
    requires table { (table_of claims.old).geometry ≡ Some g.now }
    requires low { 2 ≤ number }
    requires high { number < g.now.ncg * g.now.ipg }
    requires room { IfSome held.old (λ b. length levels.old.aside ≡ V.size view.old) }
    requires bare { (slot : ℕ) → (table_of claims.old).claimed (ClaimSource.Slot number slot) ≡ [] }
    ensures keeps { Keeps V.View view.old view.new }
    ensures levels { levels.new.fragment ≡ levels.old.fragment }
    ensures geometry { (table_of claims.new).geometry ≡ (table_of claims.old).geometry }
    ensures room { IfOk result (λ got. got ≡ true → IfSome held.new (λ b. length levels.new.aside ≡ V.size view.old)) }
    ensures slots { IfOk result (λ got. got ≡ true → V.tells view.new → (v : Volume) → V.stands_for view.old v
        → HoldsIn (V.size view.old) v held.old levels.old.aside → HoldsIn (V.size view.old) v held.new levels.new.aside
        × ((slot : ℕ) → ClaimsAsOn g.now v (table_of claims.new).claimed (ClaimSource.Slot number slot))) }
    ensures others { KeepsOffInode (table_of claims.old) (table_of claims.new) number }
    ensures held { IfOk result (λ got. got ≡ true → held.new ≡ Some (inode_block g.now number)) }
    ensures there { IfOk result (λ got. got ≡ true → HadThen V.View view.old view.new held.old (inode_block g.now number)) }
    ensures lost { IfOk result (λ got. got ≡ false → LosesKind V.View view.old view.new (HasInode g.now)) }
    ensures fetched { FetchesKind V.View view.old view.new (HasInode g.now) }
{
    let (block, byte) = place_of(g, number);
    if !hold(view, levels, held, block) {
        return Ok(false);
    }
    claim_stored(claims, number, levels.aside(), byte, g.endian)?;
    Ok(true)
}

/// Has the slots of all inodes claim what the inodes say. It answers whether each block with an inode could be read.
pub(crate) fn scan_inodes<V: View>(
    view: &mut V,
    g: &Geometry,
    levels: &mut Levels,
    claims: &mut Claims,
) -> Result<bool, NoMemory>
    requires sound { V.is_sound view.old }
    requires geometry { IsGeometryOn (V.size view.old) (V.count view.old) g.now }
    requires levels { levels.old.fragment ≡ V.size view.old }
    requires table { (table_of claims.old).geometry ≡ Some g.now }
    requires bare { (source : ClaimSource) → (table_of claims.old).claimed source ≡ [] }
    ensures keeps { Keeps V.View view.old view.new }
    ensures levels { levels.new.fragment ≡ levels.old.fragment }
    ensures geometry { (table_of claims.new).geometry ≡ (table_of claims.old).geometry }
    ensures slots { IfOk result (λ got. got ≡ true → V.tells view.new → (v : Volume) → V.stands_for view.old v
        → (number slot : ℕ) → ClaimsAsOn g.now v (table_of claims.new).claimed (ClaimSource.Slot number slot)) }
    ensures pointers { IfOk result (λ got. got ≡ true
        → (fragment level at : ℕ) → (table_of claims.new).claimed (ClaimSource.Pointer fragment level at) ≡ []) }
    ensures there { IfOk result (λ got. got ≡ true → HadKind V.View view.old view.new (HasInode g.now)) }
    ensures lost { IfOk result (λ got. got ≡ false → LosesKind V.View view.old view.new (HasInode g.now)) }
    ensures fetched { FetchesKind V.View view.old view.new (HasInode g.now) }
{
    let mut held = None;
    for number in ROOT_INODE..g.ncg * g.ipg {
        if !scan_inode(view, g, levels, claims, &mut held, number)? {
            return Ok(false);
        }
    }
    Ok(true)
}
