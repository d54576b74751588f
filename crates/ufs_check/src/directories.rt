// The pass over the directories.
ghost use Rattle.std.specs.Prelude.{◌≡◌, ◌+◌, ◌*◌, ◌/◌, ◌^◌, ◌<◌, ◌≤◌, ◌%◌, ◌==◌, ◌&&◌, ◌||◌, ℕ, List, Some, Ok, not, true, false, IfNone, IfOk, IfSome, OnOk, length};
ghost use Rattle.std.specs.Bool.{Decides};
ghost use Rattle.dg_io.specs.ViewWords.{Keeps};
ghost use Rattle.ufs_model.specs.Blocks.{Volume};
ghost use Rattle.ufs_model.specs.Geometries.{IsGeometryOn};
ghost use Rattle.ufs_model.specs.Inodes.{block_count, kind_of};
ghost use Rattle.ufs_model.specs.Malformations.{inode_at};
ghost use Rattle.ufs_model.specs.Metadata.{IsMetadataBy, IsStructure};
ghost use Rattle.ufs_model.specs.Paths.{block_of, bytes_in_block};
ghost use Rattle.ufs_model.specs.Superblocks.{geometry_of};
ghost use Rattle.ufs_model.specs.declared.geometries.Geometry.{Geometry};
ghost use Rattle.ufs_model.specs.declared.inodes.Kind.TheVariants.{Directory};
ghost use Rattle.dg_claims.specs.There.{HadKind};
ghost use Rattle.ufs_check.specs.Directories.{AreBlockFaultsBelow, AreDirectoryFaults, AreEntryFaultsBelow, AreAlike, IsBehind, IsDirectoryRead, IsFileRead, ScannedBelow, ScannedWhole, ScansBlock};
ghost use Rattle.ufs_check.specs.Links.{AreLinks, AreLinksBelow, TableBelow};
ghost use Rattle.ufs_check.specs.Needs.{IsBlockIn, IsBytesBlock, IsDirectoryBlock};
ghost use Rattle.ufs_check.specs.OwnedEntries.{AreOwned};
ghost use Rattle.ufs_frames.specs.Frames.{HasWholeUppers};
ghost use Rattle.ufs_pointer.specs.ViewWords.{FetchesKind, LosesKind};

use crate::entries::{has_refused, read_named};
use crate::inodes::TOO_LONG;
use crate::names::{has_mistyped, has_same_names, names_none, names_root};
use crate::notes::note;
use crate::owned_entries::{OwnedEntry, gather_chunks};
use crate::parents::{LinkTable, add_directory, empty_table};
use crate::verdicts::DirectoryFaults;
use dg_io::{NoMemory, View};
use std::alloc::Global;
use ufs_dir::CHUNK_BYTES;
use ufs_frames::{directories_need_structure, file_blocks_are_few, indirects_by_geometry};
use ufs_model::{Geometry, Inode, Kind, ROOT_INODE};
use ufs_pointer::{
    FileBlock, Levels, block_count, bytes_in_block, gap_length, gaps_read_the_same, read_file_block,
};

/// What is found in a directory.
#[derive(Drop)]
pub struct Scan {
    /// A file block is a hole.
    pub hole: bool,
    /// A chunk is refused.
    pub chunk: bool,
    /// The entries of each file block are read: none is a hole, has a chunk that is refused, or isn't
    /// reached since a pointer is wild.
    pub read: bool,
    /// The entries, where those of each file block are read.
    pub entries: Vec<OwnedEntry>,
}

/// Looks at the first `count` chunks in the block of data, and answers whether the inodes that they name
/// could be read.
fn scan_data<V: View>(
    alloc: Global,
    view: &mut V,
    g: &Geometry,
    count: usize,
    levels: &mut Levels,
    scan: &mut Scan,
) -> Result<bool, NoMemory>
    requires sound { V.is_sound view.old }
    requires geometry { IsGeometryOn (V.size view.old) (V.count view.old) g.now }
    requires levels { levels.old.fragment ≡ V.size view.old }
    requires few { count ≤ 128 }
    requires chunks { count * 512 ≤ length levels.old.block }
    ensures keeps { Keeps V.View view.old view.new }
    ensures levels { levels.new.fragment ≡ levels.old.fragment }
    ensures found { IfOk result (λ could. could ≡ true → V.tells view.new → (v : Volume) → V.stands_for view.old v
        → ScansBlock g.now v count (Ok (Some levels.old.block)) scan.old scan.new) }
    ensures gone { IfOk result (λ could. could ≡ false → LosesKind V.View view.old view.new (IsMetadataBy g.now)) }
    ensures fetched { FetchesKind V.View view.old view.new (IsMetadataBy g.now) }
{
    if has_refused(levels.block(), count, g.endian) {
        scan.chunk = true;
        scan.read = false;
        return Ok(true);
    }
    if !scan.read {
        return Ok(true);
    }
    gather_chunks(alloc, view, g, count, levels, &mut scan.entries)
}

/// The file block to go on with behind file block `n`, which leads nowhere: the first that is found
/// through another pointer. There is no answer where an indirect block is gone.
fn behind_gap<V: View>(
    view: &mut V,
    g: &Geometry,
    inode: &Inode,
    n: u32,
    levels: &mut Levels,
) -> Option<u32>
    requires sound { V.is_sound view.old }
    requires geometry { IsGeometryOn (V.size view.old) (V.count view.old) g.now }
    requires levels { levels.old.fragment ≡ V.size view.old }
    requires small { inode.now.size < 2 ^ 32 }
    requires block { n < block_count g.now inode.now }
    ensures keeps { Keeps V.View view.old view.new }
    ensures levels { levels.new.fragment ≡ levels.old.fragment }
    ensures order { IfSome result (IsBehind n (block_count g.now inode.now)) }
    ensures same { IfSome result (λ next. V.tells view.new → (v : Volume) → V.stands_for view.old v → AreAlike g.now inode.now v n next) }
    ensures gone { IfNone result (LosesKind V.View view.old view.new (IsFileRead g.now inode.now)) }
    ensures fetched { FetchesKind V.View view.old view.new (IsFileRead g.now inode.now) }
{
    gaps_read_the_same();
    let count = block_count(g, inode);
    let length = gap_length(view, g, inode, n, levels)?;
    Some(n + length.min(count - n))
}

/// Looks at file block `n` of a directory, and at all that are found through the same pointer, where it
/// leads nowhere. It answers with which file block to go on. There is no answer where a block that is read for it is gone.
fn scan_block<V: View>(
    alloc: Global,
    view: &mut V,
    g: &Geometry,
    inode: &Inode,
    n: u32,
    levels: &mut Levels,
    scan: &mut Scan,
) -> Result<Option<u32>, NoMemory>
    requires sound { V.is_sound view.old }
    requires geometry { IsGeometryOn (V.size view.old) (V.count view.old) g.now }
    requires levels { levels.old.fragment ≡ V.size view.old }
    requires small { inode.now.size < 2 ^ 32 }
    requires block { n < block_count g.now inode.now }
    ensures keeps { Keeps V.View view.old view.new }
    ensures levels { levels.new.fragment ≡ levels.old.fragment }
    ensures order { IfOk result (λ answer. IfSome answer (IsBehind n (block_count g.now inode.now))) }
    ensures found { IfOk result (λ answer. IfSome answer (λ next. V.tells view.new → (v : Volume) → V.stands_for view.old v
        → ScannedBelow g.now inode.now v n scan.old → ScannedBelow g.now inode.now v next scan.new)) }
    ensures there { IfOk result (λ answer. IfSome answer (λ next. HadKind V.View view.old view.new (IsBytesBlock g.now inode.now n next))) }
    ensures gone { IfOk result (λ answer. IfNone answer (LosesKind V.View view.old view.new (IsFileRead g.now inode.now))) }
    ensures fetched { FetchesKind V.View view.old view.new (IsFileRead g.now inode.now) }
{
    file_blocks_are_few();
    match read_file_block(view, g, inode, n, levels) {
        None => Ok(None),
        Some(FileBlock::Hole) => {
            scan.hole = true;
            scan.read = false;
            Ok(behind_gap(view, g, inode, n, levels))
        }
        Some(FileBlock::Wild) => {
            scan.read = false;
            Ok(behind_gap(view, g, inode, n, levels))
        }
        Some(FileBlock::Data) => {
            let count = bytes_in_block(g, inode, n) / CHUNK_BYTES;
            if !scan_data(alloc, view, g, count, levels, scan)? {
                return Ok(None);
            }
            Ok(Some(n + 1))
        }
    }
}

/// What is found in a directory. There is no answer where a block that is read for it is gone.
fn scan_directory<V: View>(
    alloc: Global,
    view: &mut V,
    g: &Geometry,
    inode: &Inode,
    levels: &mut Levels,
) -> Result<Option<Scan>, NoMemory>
    requires sound { V.is_sound view.old }
    requires geometry { IsGeometryOn (V.size view.old) (V.count view.old) g.now }
    requires levels { levels.old.fragment ≡ V.size view.old }
    requires small { inode.now.size < 2 ^ 32 }
    ensures keeps { Keeps V.View view.old view.new }
    ensures levels { levels.new.fragment ≡ levels.old.fragment }
    ensures found { IfOk result (λ answer. IfSome answer (λ scan. V.tells view.new → (v : Volume) → V.stands_for view.old v
        → ScannedWhole g.now inode.now v scan)) }
    ensures there { IfOk result (λ answer. IfSome answer (λ scan. HadKind V.View view.old view.new (IsBytesBlock g.now inode.now 0 (block_count g.now inode.now)))) }
    ensures gone { IfOk result (λ answer. IfNone answer (LosesKind V.View view.old view.new (IsFileRead g.now inode.now))) }
    ensures fetched { FetchesKind V.View view.old view.new (IsFileRead g.now inode.now) }
{
    let mut scan = Scan {
        hole: false,
        chunk: false,
        read: true,
        entries: Vec::new(alloc),
    };
    let count = block_count(g, inode);
    let mut n = 0;
    while n < count {
        let Some(next) = scan_block(alloc, view, g, inode, n, levels, &mut scan)? else {
            return Ok(None);
        };
        n = next;
    }
    Ok(Some(scan))
}

/// A directory doesn't consist of whole chunks, or one of its chunks is refused.
fn has_bad_chunk(inode: &Inode, scan: &Scan) -> bool
    ensures { result ≡ (not (inode.now.size % 512 == 0) || scan.now.chunk) }
{
    inode.size % CHUNK_BYTES as u64 != 0 || scan.chunk
}

/// The entries of a directory are read, of all its file blocks.
fn has_entries(inode: &Inode, scan: &Scan) -> bool
    ensures { result ≡ ((inode.now.size % 512 == 0) && scan.now.read) }
{
    inode.size % CHUNK_BYTES as u64 == 0 && scan.read
}

/// Notes the holes and chunks of directory `i`, in which this is found, where those of lower numbers are
/// noted.
fn note_blocks(
    i: u32,
    inode: &Inode,
    scan: &Scan,
    faults: &mut DirectoryFaults,
) -> Result<(), NoMemory>
    requires { inode.now.size < 2 ^ 32 }
    ensures entry { faults.new.entry ≡ faults.old.entry }
    ensures entry_type { faults.new.entry_type ≡ faults.old.entry_type }
    ensures names { faults.new.names ≡ faults.old.names }
    ensures root_named { faults.new.root_named ≡ faults.old.root_named }
    ensures blocks { OnOk result ((g : Geometry) (v : Volume) → inode_at g v i ≡ Some inode.now → kind_of inode.now.mode ≡ Directory
        → ScannedWhole g inode.now v scan.now → AreBlockFaultsBelow g v i faults.old → AreBlockFaultsBelow g v (i + 1) faults.new) }
{
    note(&mut faults.hole, i, scan.hole)?;
    note(&mut faults.chunk, i, has_bad_chunk(inode, scan))?;
    Ok(())
}

/// Notes what is wrong with the entries of directory `i` by themselves, where what is wrong with those of
/// lower numbers is noted.
fn note_entries(
    alloc: Global,
    i: u32,
    entries: &[OwnedEntry],
    faults: &mut DirectoryFaults,
) -> Result<(), NoMemory>
    ensures hole { faults.new.hole ≡ faults.old.hole }
    ensures chunk { faults.new.chunk ≡ faults.old.chunk }
    ensures entries { OnOk result ((g : Geometry) (v : Volume) → AreOwned g v i entries.now
        → AreEntryFaultsBelow g v i faults.old → AreEntryFaultsBelow g v (i + 1) faults.new) }
{
    let same = has_same_names(alloc, entries)?;
    note(&mut faults.entry, i, names_none(entries))?;
    note(&mut faults.entry_type, i, has_mistyped(entries))?;
    note(&mut faults.names, i, same)?;
    note(&mut faults.root_named, i, names_root(entries))?;
    Ok(())
}

/// Notes what is wrong with directory `i`, in which this is found, and keeps what its entries say of
/// inodes.
fn note_directory(
    alloc: Global,
    i: u32,
    inode: &Inode,
    scan: &Scan,
    table: &mut LinkTable,
    faults: &mut DirectoryFaults,
) -> Result<(), NoMemory>
    requires { inode.now.size < 2 ^ 32 }
    ensures { OnOk result ((g : Geometry) (v : Volume) → inode_at g v i ≡ Some inode.now → kind_of inode.now.mode ≡ Directory
        → ScannedWhole g inode.now v scan.now → AreLinksBelow g v i table.old faults.old → AreLinksBelow g v (i + 1) table.new faults.new) }
{
    note_blocks(i, inode, scan, faults)?;
    if !has_entries(inode, scan) {
        return Ok(());
    }
    note_entries(alloc, i, scan.entries.as_slice(), faults)?;
    add_directory(table, i, scan.entries.as_slice())?;
    Ok(())
}

/// The inode is a directory's.
pub fn is_directory(inode: &Inode) -> bool
    ensures { Decides result (kind_of inode.now.mode ≡ Directory) }
{
    inode.kind() == Kind::Directory
}

/// Looks at inode `i`, where it is a directory, and answers whether all could be read. A directory with
/// too many bytes isn't looked at.
fn scan_inode<V: View>(
    alloc: Global,
    view: &mut V,
    g: &Geometry,
    i: u32,
    levels: &mut Levels,
    table: &mut LinkTable,
    faults: &mut DirectoryFaults,
) -> Result<bool, NoMemory>
    requires sound { V.is_sound view.old }
    requires geometry { IsGeometryOn (V.size view.old) (V.count view.old) g.now }
    requires levels { levels.old.fragment ≡ V.size view.old }
    ensures keeps { Keeps V.View view.old view.new }
    ensures levels { levels.new.fragment ≡ levels.old.fragment }
    ensures found { IfOk result (λ could. could ≡ true → V.tells view.new → (v : Volume) → V.stands_for view.old v
        → AreLinksBelow g.now v i table.old faults.old → AreLinksBelow g.now v (i + 1) table.new faults.new) }
    ensures there { IfOk result (λ could. could ≡ true → HadKind V.View view.old view.new (IsBlockIn g.now i)) }
    ensures gone { IfOk result (λ could. could ≡ false → LosesKind V.View view.old view.new (IsDirectoryRead g.now)) }
    ensures fetched { FetchesKind V.View view.old view.new (IsDirectoryRead g.now) }
{
    let Some(named) = read_named(view, g, i, levels) else {
        return Ok(false);
    };
    let Some(inode) = named else {
        return Ok(true);
    };
    if !is_directory(&inode) {
        return Ok(true);
    }
    if TOO_LONG <= inode.size {
        return Ok(true);
    }
    let Some(scan) = scan_directory(alloc, view, g, &inode, levels)? else {
        return Ok(false);
    };
    note_directory(alloc, i, &inode, &scan, table, faults)?;
    Ok(true)
}

/// What is wrong with the directories, each of which is looked at by itself, and what their entries say of
/// inodes. There is no answer where a block that is read for it is gone.
pub fn check_directories<V: View>(
    alloc: Global,
    view: &mut V,
    g: &Geometry,
    levels: &mut Levels,
) -> Result<Option<(DirectoryFaults, LinkTable)>, NoMemory>
    requires sound { V.is_sound view.old }
    requires geometry { IsGeometryOn (V.size view.old) (V.count view.old) g.now }
    requires levels { levels.old.fragment ≡ V.size view.old }
    ensures keeps { Keeps V.View view.old view.new }
    ensures levels { levels.new.fragment ≡ levels.old.fragment }
    ensures found { IfOk result (λ answer. IfSome answer (λ found. V.tells view.new → (v : Volume) → V.stands_for view.old v
        → AreDirectoryFaults g.now v (found.0) × AreLinks g.now v (found.1))) }
    ensures there { IfOk result (λ answer. IfSome answer (λ found. HadKind V.View view.old view.new (IsDirectoryBlock g.now))) }
    ensures gone { IfOk result (λ answer. IfNone answer (LosesKind V.View view.old view.new (IsDirectoryRead g.now))) }
    ensures fetched { FetchesKind V.View view.old view.new (IsDirectoryRead g.now) }
{
    let mut table = empty_table(alloc);
    let mut faults = DirectoryFaults {
        hole: Vec::new(alloc),
        chunk: Vec::new(alloc),
        entry: Vec::new(alloc),
        entry_type: Vec::new(alloc),
        names: Vec::new(alloc),
        root_named: Vec::new(alloc),
    };
    for i in ROOT_INODE..g.ncg * g.ipg {
        if !scan_inode(alloc, view, g, i, levels, &mut table, &mut faults)? {
            return Ok(None);
        }
    }
    Ok(Some((faults, table)))
}

/// What is read to look at the directories of a volume has its structure, where each fragment of an
/// indirect block has its bytes.
pub fn directories_are_structure()
    ensures { (l n : ℕ) (g : Geometry) (v : Volume) (block : ℕ) → (geometry_of l n v).value ≡ Ok g → HasWholeUppers g v
        → IsDirectoryRead g v block → IsStructure l n v block }
{
    indirects_by_geometry();
    directories_need_structure();
}
