// A sweep over the blocks of a volume, which reads all inodes and all group blocks.
ghost use Rattle.std.specs.Prelude.{◌≡◌, ◌+◌, ◌<◌, ◌≤◌, ℕ, [], IfOk, OnOk, Some, length, true, false};
ghost use Rattle.dg_io.specs.ViewWords.{Keeps};
ghost use Rattle.dg_model.specs.Rereads.{IsAreaOf};
ghost use Rattle.ufs_model.specs.Blocks.{Volume, block_at};
ghost use Rattle.ufs_model.specs.Geometries.{IsGeometry, IsGeometryOn};
ghost use Rattle.ufs_model.specs.Metadata.{IsMetadataBy};
ghost use Rattle.ufs_pointer.specs.ViewWords.{LosesKind};
ghost use Rattle.dg_claims.specs.Kept.{table_of};
ghost use Rattle.dg_infer.specs.Areas.{IsAreaRest, IsInGroupBlock};
ghost use Rattle.dg_infer.specs.AtHand.{OnVolumes};
ghost use Rattle.dg_infer.specs.Claimed.{StandsIn};
ghost use Rattle.dg_infer.specs.Fetched.{FetchesOnce};
ghost use Rattle.dg_infer.specs.Sweeps.{AreKindsBefore, AreMarksBefore, AreSlotsBefore, HasGathered};
ghost use Rattle.dg_infer.specs.Watches.{Grows, KeepsWatch};

use crate::areas::push_bytes;
use crate::groups::{group_with, mark_group};
use crate::inodes::move_inodes;
use crate::kinds::move_kinds;
use crate::watches::Watch;
use dg_claims::{Claims, Geometry, read_fragment};
use dg_io::{NoMemory, View};
use std::collections::BTreeMap;
use ufs_group::group_block;
use ufs_inode::inodes_near;
use ufs_model::Kind;
use ufs_pointer::Levels;

/// What is read of a volume up to some block.
#[derive(Drop)]
pub struct Sweep {
    /// What the slots of inodes claim.
    pub claims: Claims,
    /// The fragments that they claim.
    pub watch: Watch,
    /// The kinds of inodes that have pointers.
    pub kinds: BTreeMap<u32, Kind>,
    /// A mark for each block that is marked free.
    pub free: Vec<bool>,
    /// The bytes of the group block that is being read, as far as it is.
    pub group: Vec<u8>,
}

/// Whether a block has inodes, or is part of a group block.
fn has_area(g: &Geometry, place: u32) -> bool
    requires { IsGeometry g.now }
    ensures area { result ≡ true → (v : Volume) → IsAreaOf g.now v place }
    ensures inodes { result ≡ false → (inode : ℕ) → StandsIn g.now inode place → ⊥ }
    ensures groups { result ≡ false → (c : ℕ) → c < g.now.ncg → IsInGroupBlock g.now c place → ⊥ }
{
    if group_with(g, place).is_some() {
        return true;
    }
    let (first, end) = inodes_near(g, place);
    first < end
}

/// Forgets what was taken of an earlier group block, where the first block of another comes.
fn begin_group(group: &mut Vec<u8>, first: u32, place: u32)
    ensures first { place ≡ first → group.new.items ≡ [] }
    ensures later { (place ≡ first → ⊥) → group.new.items ≡ group.old.items }
{
    if place == first {
        group.clear();
    }
}

/// Takes the bytes of a block, where it is part of a group block. With the last one the marks of its group are set.
fn take_piece(
    free: &mut [bool],
    group: &mut Vec<u8>,
    g: &Geometry,
    place: u32,
    bytes: &[u8],
) -> Result<(), NoMemory>
    requires geometry { IsGeometry g.now }
    requires bytes { length bytes.now ≡ g.now.fsize }
    requires room { g.now.size ≤ length free.old }
    requires gathered { HasGathered g.now place group.old.items }
    ensures room { length free.new ≡ length free.old }
    ensures gathered { OnOk result (HasGathered g.now (place + 1) group.new.items) }
    ensures marks { OnOk result ((v : Volume) → bytes.now ≡ block_at g.now.fsize v place
        → AreMarksBefore g.now v place free.old group.old.items → AreMarksBefore g.now v (place + 1) free.new group.new.items) }
{
    let Some(c) = group_with(g, place) else {
        return Ok(());
    };
    let first = group_block(g, c);
    begin_group(group, first, place);
    push_bytes(group, bytes)?;
    if place - first + 1 == g.frag {
        mark_group(free, g, c, group);
    }
    Ok(())
}

/// Takes the bytes of a block: its inodes, and what it is of a group block.
fn take_place(sweep: &mut Sweep, g: &Geometry, place: u32, bytes: &[u8]) -> Result<(), NoMemory>
    requires geometry { IsGeometry g.now }
    requires table { (table_of sweep.old.claims).geometry ≡ Some g.now }
    requires bytes { length bytes.now ≡ g.now.fsize }
    requires room { g.now.size ≤ length sweep.old.free.items }
    requires gathered { HasGathered g.now place sweep.old.group.items }
    ensures grows { Grows sweep.old.watch sweep.new.watch }
    ensures geometry { (table_of sweep.new.claims).geometry ≡ (table_of sweep.old.claims).geometry }
    ensures room { length sweep.new.free.items ≡ length sweep.old.free.items }
    ensures gathered { OnOk result (HasGathered g.now (place + 1) sweep.new.group.items) }
    ensures watched { OnOk result (KeepsWatch (table_of sweep.old.claims).claimed sweep.old.watch (table_of sweep.new.claims).claimed sweep.new.watch) }
    ensures slots { OnOk result ((v : Volume) → bytes.now ≡ block_at g.now.fsize v place
        → AreSlotsBefore g.now v place (table_of sweep.old.claims).claimed → AreSlotsBefore g.now v (place + 1) (table_of sweep.new.claims).claimed) }
    ensures kinds { OnOk result ((v : Volume) → bytes.now ≡ block_at g.now.fsize v place
        → AreKindsBefore g.now v place sweep.old.kinds.entries → AreKindsBefore g.now v (place + 1) sweep.new.kinds.entries) }
    ensures marks { OnOk result ((v : Volume) → bytes.now ≡ block_at g.now.fsize v place
        → AreMarksBefore g.now v place sweep.old.free.items sweep.old.group.items
        → AreMarksBefore g.now v (place + 1) sweep.new.free.items sweep.new.group.items) }
{
    move_inodes(&mut sweep.claims, &mut sweep.watch, g, place, bytes)?;
    move_kinds(&mut sweep.kinds, g, place, bytes)?;
    take_piece(&mut sweep.free, &mut sweep.group, g, place, bytes)
}

/// Takes a block, which is at hand or is read, where it has inodes or is part of a group block. It answers whether it could be read.
fn read_place<V: View>(
    view: &mut V,
    g: &Geometry,
    levels: &mut Levels,
    sweep: &mut Sweep,
    place: u32,
    block: u32,
    bytes: &[u8],
) -> Result<bool, NoMemory>
    requires sound { V.is_sound view.old }
    requires geometry { IsGeometryOn (V.size view.old) (V.count view.old) g.now }
    requires levels { levels.old.fragment ≡ V.size view.old }
    requires table { (table_of sweep.old.claims).geometry ≡ Some g.now }
    requires bytes { length bytes.now ≡ V.size view.old }
    requires inside { place < g.now.size }
    requires room { g.now.size ≤ length sweep.old.free.items }
    requires gathered { HasGathered g.now place sweep.old.group.items }
    ensures keeps { Keeps V.View view.old view.new }
    ensures levels { levels.new.fragment ≡ levels.old.fragment }
    ensures grows { Grows sweep.old.watch sweep.new.watch }
    ensures geometry { (table_of sweep.new.claims).geometry ≡ (table_of sweep.old.claims).geometry }
    ensures room { length sweep.new.free.items ≡ length sweep.old.free.items }
    ensures gathered { IfOk result (λ got. got ≡ true → HasGathered g.now (place + 1) sweep.new.group.items) }
    ensures watched { OnOk result (KeepsWatch (table_of sweep.old.claims).claimed sweep.old.watch (table_of sweep.new.claims).claimed sweep.new.watch) }
    ensures slots { IfOk result (λ got. got ≡ true → OnVolumes V.View view.old view.new block bytes.now (λ v.
        AreSlotsBefore g.now v place (table_of sweep.old.claims).claimed → AreSlotsBefore g.now v (place + 1) (table_of sweep.new.claims).claimed)) }
    ensures kinds { IfOk result (λ got. got ≡ true → OnVolumes V.View view.old view.new block bytes.now (λ v.
        AreKindsBefore g.now v place sweep.old.kinds.entries → AreKindsBefore g.now v (place + 1) sweep.new.kinds.entries)) }
    ensures marks { IfOk result (λ got. got ≡ true → OnVolumes V.View view.old view.new block bytes.now (λ v.
        AreMarksBefore g.now v place sweep.old.free.items sweep.old.group.items
        → AreMarksBefore g.now v (place + 1) sweep.new.free.items sweep.new.group.items)) }
    ensures lost { IfOk result (λ got. got ≡ false → LosesKind V.View view.old view.new (IsMetadataBy g.now)) }
    ensures fetched { FetchesOnce V.fetched (λ b. (place ≤ b) × IsAreaRest g.now (place + 1) block b) view.old view.new }
{
    if !has_area(g, place) {
        return Ok(true);
    }
    if place == block {
        take_place(sweep, g, place, bytes)?;
        return Ok(true);
    }
    if !read_fragment(view, levels, place) {
        return Ok(false);
    }
    take_place(sweep, g, place, levels.aside())?;
    Ok(true)
}

/// Takes all blocks with inodes and all group blocks, of which one may be at hand. It answers whether each other one could be read.
pub fn read_places<V: View>(
    view: &mut V,
    g: &Geometry,
    levels: &mut Levels,
    sweep: &mut Sweep,
    block: u32,
    bytes: &[u8],
) -> Result<bool, NoMemory>
    requires sound { V.is_sound view.old }
    requires geometry { IsGeometryOn (V.size view.old) (V.count view.old) g.now }
    requires levels { levels.old.fragment ≡ V.size view.old }
    requires table { (table_of sweep.old.claims).geometry ≡ Some g.now }
    requires bytes { length bytes.now ≡ V.size view.old }
    requires room { g.now.size ≤ length sweep.old.free.items }
    ensures keeps { Keeps V.View view.old view.new }
    ensures levels { levels.new.fragment ≡ levels.old.fragment }
    ensures grows { Grows sweep.old.watch sweep.new.watch }
    ensures geometry { (table_of sweep.new.claims).geometry ≡ (table_of sweep.old.claims).geometry }
    ensures room { length sweep.new.free.items ≡ length sweep.old.free.items }
    ensures watched { OnOk result (KeepsWatch (table_of sweep.old.claims).claimed sweep.old.watch (table_of sweep.new.claims).claimed sweep.new.watch) }
    ensures slots { IfOk result (λ got. got ≡ true → OnVolumes V.View view.old view.new block bytes.now (λ v.
        AreSlotsBefore g.now v 0 (table_of sweep.old.claims).claimed → AreSlotsBefore g.now v g.now.size (table_of sweep.new.claims).claimed)) }
    ensures kinds { IfOk result (λ got. got ≡ true → OnVolumes V.View view.old view.new block bytes.now (λ v.
        AreKindsBefore g.now v 0 sweep.old.kinds.entries → AreKindsBefore g.now v g.now.size sweep.new.kinds.entries)) }
    ensures marks { IfOk result (λ got. got ≡ true → OnVolumes V.View view.old view.new block bytes.now (λ v.
        AreMarksBefore g.now v 0 sweep.old.free.items sweep.old.group.items
        → AreMarksBefore g.now v g.now.size sweep.new.free.items sweep.new.group.items)) }
    ensures lost { IfOk result (λ got. got ≡ false → LosesKind V.View view.old view.new (IsMetadataBy g.now)) }
    ensures fetched { FetchesOnce V.fetched (IsAreaRest g.now g.now.size block) view.old view.new }
{
    for place in 0..g.size {
        if !read_place(view, g, levels, sweep, place, block, bytes)? {
            return Ok(false);
        }
    }
    Ok(true)
}
