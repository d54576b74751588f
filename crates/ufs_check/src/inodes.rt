// The pass over the inodes.
ghost use Rattle.std.specs.Prelude.{◌≡◌, ◌+◌, ◌*◌, ◌/◌, ◌%◌, ◌<◌, ◌≤◌, ℕ, List, Some, true, false, not, IfNone, IfOk, IfSome, OnOk, length};
ghost use Rattle.dg_io.specs.ViewWords.{Keeps};
ghost use Rattle.ufs_model.specs.Blocks.{Volume, block_at};
ghost use Rattle.ufs_model.specs.Geometries.{IsGeometry, IsGeometryOn};
ghost use Rattle.ufs_model.specs.GroupMaps.{by_maps, group_bytes, group_in, is_marked_unused, is_used};
ghost use Rattle.ufs_model.specs.Inodes.{has_pointers};
ghost use Rattle.ufs_model.specs.Malformations.{inode_at};
ghost use Rattle.ufs_model.specs.Metadata.{IsMetadataBy};
ghost use Rattle.dg_claims.specs.Scans.{HasInode};
ghost use Rattle.dg_claims.specs.There.{HadKind, HadThen};
ghost use Rattle.ufs_check.specs.Inodes.{AreInodeFaults, AreInodeFaultsBelow, ArePointedFaultsBelow};
ghost use Rattle.ufs_pointer.specs.ViewWords.{FetchesKind, LosesKind};

use crate::notes::note;
use crate::slots::{has_crossing, has_misaligned, has_past, has_wild};
use crate::verdicts::InodeFaults;
use dg_io::{NoMemory, View};
use std::alloc::Global;
use ufs_group::{group_block, is_used, read_group};
use ufs_inode::{has_pointers, inode_at, place_of};
use ufs_model::{Geometry, Inode, Kind, ROOT_INODE};
use ufs_pointer::Levels;

/// Files of so many bytes are malformed, and longer ones.
pub const TOO_LONG: u64 = 1 << 32;

/// Notes what is wrong with inode `i`, which has pointers, of the kinds that only such inodes have.
fn note_pointed(
    g: &Geometry,
    i: u32,
    inode: &Inode,
    faults: &mut InodeFaults,
) -> Result<(), NoMemory>
    requires geometry { IsGeometry g.now }
    requires pointers { has_pointers g.now inode.now ≡ true }
    ensures wrong_type { faults.new.wrong_type ≡ faults.old.wrong_type }
    ensures unused { faults.new.unused ≡ faults.old.unused }
    ensures pointed { OnOk result ((v : Volume) → inode_at g.now v i ≡ Some inode.now → ArePointedFaultsBelow g.now v i faults.old
        → ArePointedFaultsBelow g.now v (i + 1) faults.new) }
{
    note(&mut faults.filesize, i, TOO_LONG <= inode.size)?;
    note(&mut faults.past, i, has_past(g, inode))?;
    note(&mut faults.wild, i, has_wild(g, inode))?;
    note(&mut faults.align, i, has_misaligned(g, inode))?;
    note(&mut faults.run, i, has_crossing(g, inode))?;
    Ok(())
}

/// Notes what is wrong with inode `i`, if it is allocated, where what is wrong with inodes of lower numbers
/// is noted.
fn note_inode(
    g: &Geometry,
    i: u32,
    inode: Option<Inode>,
    unused: bool,
    faults: &mut InodeFaults,
) -> Result<(), NoMemory>
    requires geometry { IsGeometry g.now }
    ensures { OnOk result ((v : Volume) → inode_at g.now v i ≡ inode → (is_marked_unused g.now i v).value ≡ unused
        → AreInodeFaultsBelow g.now v i faults.old → AreInodeFaultsBelow g.now v (i + 1) faults.new) }
{
    let Some(inode) = inode else {
        return Ok(());
    };
    note(&mut faults.wrong_type, i, inode.kind() == Kind::Unknown)?;
    note(&mut faults.unused, i, unused)?;
    if !has_pointers(g, &inode) {
        return Ok(());
    }
    note_pointed(g, i, &inode, faults)?;
    Ok(())
}

/// Inode `i` is marked unused by the map of its group, whose block has the bytes. Where that is refused,
/// it isn't.
fn is_marked_unused(g: &Geometry, i: u32, bytes: &[u8]) -> bool
    requires geometry { IsGeometry g.now }
    requires number { i < g.now.ncg * g.now.ipg }
    requires bytes { g.now.bsize ≤ length bytes.now }
    ensures { result ≡ by_maps (group_in g.now (i / g.now.ipg) bytes.now) (λ group. not (is_used bytes.now group (i % g.now.ipg))) }
{
    match read_group(bytes, g, i / g.ipg) {
        Ok(group) => !is_used(bytes, &group, i % g.ipg),
        Err(_) => false,
    }
}

/// Reads the block of group `c`, where that of another group is held, and answers whether it could.
pub fn hold_group<V: View>(
    view: &mut V,
    g: &Geometry,
    c: u32,
    levels: &mut Levels,
    held: &mut Option<u32>,
) -> bool
    requires sound { V.is_sound view.old }
    requires geometry { IsGeometryOn (V.size view.old) (V.count view.old) g.now }
    requires levels { levels.old.fragment ≡ V.size view.old }
    requires group { c < g.now.ncg }
    requires room { IfSome held.old (λ c. g.now.bsize ≤ length levels.old.block) }
    ensures keeps { Keeps V.View view.old view.new }
    ensures levels { levels.new.fragment ≡ levels.old.fragment }
    ensures aside { levels.new.aside ≡ levels.old.aside }
    ensures held { held.new ≡ Some c }
    ensures room { g.now.bsize ≤ length levels.new.block }
    ensures holds { result ≡ true → V.tells view.new → (v : Volume) → V.stands_for view.old v
        → IfSome held.old (λ c. levels.old.block ≡ (group_bytes g.now c v).value) → levels.new.block ≡ (group_bytes g.now c v).value }
    ensures gone { result ≡ false → LosesKind V.View view.old view.new (IsMetadataBy g.now) }
    ensures fetched { FetchesKind V.View view.old view.new (IsMetadataBy g.now) }
{
    if *held == Some(c) {
        return true;
    }
    *held = Some(c);
    levels.read_block(view, group_block(g, c), g.frag)
}

/// Reads a block of inodes beside the group's, where another one is held, and answers whether it could.
fn hold_inodes<V: View>(
    view: &mut V,
    g: &Geometry,
    block: u32,
    levels: &mut Levels,
    held: &mut Option<u32>,
) -> bool
    requires sound { V.is_sound view.old }
    requires geometry { IsGeometryOn (V.size view.old) (V.count view.old) g.now }
    requires levels { levels.old.fragment ≡ V.size view.old }
    requires inside { block < g.now.size }
    requires metadata { (v : Volume) → IsMetadataBy g.now v block }
    requires room { IfSome held.old (λ b. length levels.old.aside ≡ g.now.fsize) }
    ensures keeps { Keeps V.View view.old view.new }
    ensures levels { levels.new.fragment ≡ levels.old.fragment }
    ensures group { levels.new.block ≡ levels.old.block }
    ensures held { held.new ≡ Some block }
    ensures room { length levels.new.aside ≡ g.now.fsize }
    ensures holds { result ≡ true → V.tells view.new → (v : Volume) → V.stands_for view.old v
        → IfSome held.old (λ b. levels.old.aside ≡ block_at g.now.fsize v b) → levels.new.aside ≡ block_at g.now.fsize v block }
    ensures there { result ≡ true → HadThen V.View view.old view.new held.old block }
    ensures gone { result ≡ false → LosesKind V.View view.old view.new (IsMetadataBy g.now) }
    ensures fetched { FetchesKind V.View view.old view.new (IsMetadataBy g.now) }
{
    if *held == Some(block) {
        return true;
    }
    *held = Some(block);
    levels.read_aside(view, block)
}

/// What is wrong with the inodes. There is no answer where a block of inodes is gone, or one of a group.
pub fn check_inodes<V: View>(
    alloc: Global,
    view: &mut V,
    g: &Geometry,
    levels: &mut Levels,
) -> Result<Option<InodeFaults>, NoMemory>
    requires sound { V.is_sound view.old }
    requires geometry { IsGeometryOn (V.size view.old) (V.count view.old) g.now }
    requires levels { levels.old.fragment ≡ V.size view.old }
    ensures keeps { Keeps V.View view.old view.new }
    ensures levels { levels.new.fragment ≡ levels.old.fragment }
    ensures found { IfOk result (λ answer. IfSome answer (λ faults. V.tells view.new → (v : Volume) → V.stands_for view.old v
        → AreInodeFaults g.now v faults)) }
    ensures there { IfOk result (λ answer. IfSome answer (λ faults. HadKind V.View view.old view.new (HasInode g.now))) }
    ensures gone { IfOk result (λ answer. IfNone answer (LosesKind V.View view.old view.new (IsMetadataBy g.now))) }
    ensures fetched { FetchesKind V.View view.old view.new (IsMetadataBy g.now) }
{
    let mut faults = InodeFaults {
        wrong_type: Vec::new(alloc),
        filesize: Vec::new(alloc),
        past: Vec::new(alloc),
        wild: Vec::new(alloc),
        align: Vec::new(alloc),
        run: Vec::new(alloc),
        unused: Vec::new(alloc),
    };
    let mut group = None;
    let mut inodes = None;
    for i in ROOT_INODE..g.ncg * g.ipg {
        let (block, byte) = place_of(g, i);
        if !hold_group(view, g, i / g.ipg, levels, &mut group) {
            return Ok(None);
        }
        if !hold_inodes(view, g, block, levels, &mut inodes) {
            return Ok(None);
        }
        let unused = is_marked_unused(g, i, levels.block());
        let inode = inode_at(levels.aside(), byte, g.endian);
        note_inode(g, i, inode, unused, &mut faults)?;
    }
    Ok(Some(faults))
}
