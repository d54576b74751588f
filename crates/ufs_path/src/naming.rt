// Which directory names an inode.
ghost use Rattle.std.specs.Prelude.{◌≡◌, ◌==◌, ◌+◌, ◌*◌, ◌^◌, ◌<◌, ◌≤◌, ◌∷◌, [], ℕ, List, Option};
ghost use Rattle.std.specs.Prelude.{None, Some, Ok, true, false, length, map, OnOk, IfOk, IfSome, IfNone};
ghost use Rattle.std.specs.BTreeMap.{get};
ghost use Rattle.std.specs.Cmp.Lexicographic.{pointwise};
ghost use Rattle.std.specs.Ordering.{nat_cmp};
ghost use Rattle.dg_io.specs.ViewWords.{Keeps};
ghost use Rattle.dg_model.specs.Wants.{AreParents};
ghost use Rattle.ufs_dir.specs.Steps.{entry_of};
ghost use Rattle.ufs_model.specs.Blocks.{Volume};
ghost use Rattle.ufs_model.specs.Chunks.{DirEntry, entries_in, used_entries};
ghost use Rattle.ufs_model.specs.Geometries.{IsGeometryOn};
ghost use Rattle.ufs_model.specs.Inodes.{block_count};
ghost use Rattle.ufs_model.specs.Paths.{chunks_in, entries_before};
ghost use Rattle.ufs_model.specs.Trees.{is_plain};
ghost use Rattle.ufs_path.specs.Consults.{ConsultsKind};
ghost use Rattle.ufs_path.specs.Parents.{AddsEntries, AddsEntry, AreParentsBy, Enters, EntersWhole, FitsTable, IsBlockRead};
ghost use Rattle.ufs_path.specs.Parents.{IsFileRead, IsParentRead, IsParentsRead, IsRunOf, KeptAre, directory_kept, kept_in};
ghost use Rattle.ufs_path.specs.Walks.{block_entries, entries_among};

use crate::blocks::directory_fault;
use crate::chunk_runs::{BlockRun, ChunkRun, Judged, find_run, judge_blocks, known_of, set_known};
use crate::entries::{chunk_at, read_entries};
use crate::faults::LookFault;
use crate::looks::read_named;
use dg_io::{NoMemory, View};
use dg_model::Parent;
use std::alloc::Global;
use std::collections::BTreeMap;
use ufs_dir::{CHUNK_BYTES, Entries, Entry, EntryStep};
use ufs_model::{Endian, Geometry, Inode, ROOT_INODE};
use ufs_pointer::{Levels, block_count, read_geometry};

/// What is kept of directories that were read.
#[derive(Drop)]
pub struct NamingTable {
    /// What is known of the chunks of their file blocks.
    pub runs: BTreeMap<ChunkRun, Judged>,
    /// Of each inode that one of them names the least such directory.
    pub directories: BTreeMap<u32, u32>,
}

/// Whether an entry has this name.
fn is_named(entry: &Entry<'_>, name: &[u8]) -> bool
    ensures { result ≡ pointwise ◌==◌ entry.now.name.now name.now }
{
    entry.name == name
}

/// Whether an entry is neither `.` nor `..`.
pub fn is_plain(entry: &Entry<'_>) -> bool
    ensures { result ≡ is_plain (entry_of entry.now) }
{
    !(is_named(entry, b".") || is_named(entry, b".."))
}

/// The directory that is kept of an inode with an entry in directory `i`, where this one was kept.
fn directory_kept(kept: Option<u32>, i: u32) -> u32
    ensures { result ≡ directory_kept kept i }
{
    match kept {
        Some(directory) => directory,
        None => i,
    }
}

/// Keeps directory `i` for the inode of a used entry, if the entry is neither `.` nor `..` and no directory is kept of it.
fn add_used(directories: &mut BTreeMap<u32, u32>, i: u32, entry: &Entry<'_>) -> Result<(), NoMemory>
    ensures { OnOk result (AddsEntry i (entry_of entry.now) directories.old directories.new) }
{
    if !is_plain(entry) {
        return Ok(());
    }
    let directory = directory_kept(directories.get(&entry.inode).copied(), i);
    if directories.insert(entry.inode, directory).is_err() {
        return Err(NoMemory);
    }
    Ok(())
}

/// The same of an entry, if it is used.
fn add_entry(
    directories: &mut BTreeMap<u32, u32>,
    i: u32,
    entry: &Entry<'_>,
) -> Result<(), NoMemory>
    ensures { OnOk result (AddsEntries i (used_entries (entry_of entry.now ∷ [])) (kept_in directories.old) (kept_in directories.new)) }
{
    if !entry.is_used() {
        return Ok(());
    }
    add_used(directories, i, entry)
}

/// The same of the entries of a chunk.
fn add_chunk(
    directories: &mut BTreeMap<u32, u32>,
    i: u32,
    chunk: &[u8],
    endian: Endian,
) -> Result<(), NoMemory>
    requires { length chunk.now ≡ CHUNK_BYTES }
    ensures { OnOk result (AddsEntries i (used_entries (entries_in endian 0 chunk.now)) (kept_in directories.old) (kept_in directories.new)) }
{
    let mut entries = Entries::new(chunk, endian);
    loop {
        match entries.next() {
            EntryStep::Entry(entry) => add_entry(directories, i, &entry)?,
            EntryStep::End | EntryStep::Bad(_) => return Ok(()),
        }
    }
}

/// The same of the entries of the first `count` chunks of a file block.
fn add_chunks(
    directories: &mut BTreeMap<u32, u32>,
    i: u32,
    block: &[u8],
    count: usize,
    endian: Endian,
) -> Result<(), NoMemory>
    requires { count * 512 ≤ length block.now }
    ensures { OnOk result (AddsEntries i (entries_among endian (chunks_in count block.now)) (kept_in directories.old) (kept_in directories.new)) }
{
    for k in 0..count {
        add_chunk(directories, i, &chunk_at(block, k), endian)?;
    }
    Ok(())
}

/// Keeps directory `i` for the inodes of the entries in its file block `n`, whose chunks are these and were not entered, and
/// answers whether they could be read.
fn enter_run<V: View>(
    view: &mut V,
    g: &Geometry,
    inode: &Inode,
    n: u32,
    i: u32,
    run: ChunkRun,
    levels: &mut Levels,
    table: &mut NamingTable,
) -> Result<bool, NoMemory>
    requires sound { V.is_sound view.old }
    requires geometry { IsGeometryOn (V.size view.old) (V.count view.old) g.now }
    requires levels { levels.old.fragment ≡ V.size view.old }
    requires block { n < 2 ^ 30 }
    ensures keeps { Keeps V.View view.old view.new }
    ensures levels { levels.new.fragment ≡ levels.old.fragment }
    ensures found { IfOk result (λ could. could ≡ true → V.tells view.new → (v : Volume) → V.stands_for view.old v → (entries : List DirEntry)
        → (block_entries g.now inode.now n v).value ≡ Ok entries → IsRunOf g.now inode.now n v (BlockRun.At run)
        → Enters g.now v i entries table.old table.new) }
    ensures consults { ConsultsKind V.View view.old view.new (V.stands_for view.old) (IsBlockRead g.now inode.now n) (result ≡ Ok false) }
{
    if let Some(Judged::Entered) = known_of(&table.runs, run) {
        return Ok(true);
    }
    match read_entries(view, g, inode, n, levels) {
        Ok(chunks) => {
            add_chunks(&mut table.directories, i, levels.block(), chunks, g.endian)?;
            set_known(&mut table.runs, run, Judged::Entered)?;
            Ok(true)
        }
        Err(fault) => match fault {
            LookFault::Unavailable => Ok(false),
            LookFault::NotFound | LookFault::NotDirectory | LookFault::Bad(_) => Ok(true),
        },
    }
}

/// Keeps directory `i` for the inodes of the entries in its file block `n`, and answers whether they could be read.
fn enter_block<V: View>(
    view: &mut V,
    g: &Geometry,
    inode: &Inode,
    n: u32,
    i: u32,
    levels: &mut Levels,
    table: &mut NamingTable,
) -> Result<bool, NoMemory>
    requires sound { V.is_sound view.old }
    requires geometry { IsGeometryOn (V.size view.old) (V.count view.old) g.now }
    requires levels { levels.old.fragment ≡ V.size view.old }
    requires block { n < 2 ^ 30 }
    ensures keeps { Keeps V.View view.old view.new }
    ensures levels { levels.new.fragment ≡ levels.old.fragment }
    ensures found { IfOk result (λ could. could ≡ true → V.tells view.new → (v : Volume) → V.stands_for view.old v → (entries : List DirEntry)
        → (block_entries g.now inode.now n v).value ≡ Ok entries → Enters g.now v i entries table.old table.new) }
    ensures consults { ConsultsKind V.View view.old view.new (V.stands_for view.old) (IsBlockRead g.now inode.now n) (result ≡ Ok false) }
{
    match find_run(view, g, inode, n, levels) {
        BlockRun::At(run) => enter_run(view, g, inode, n, i, run, levels, table),
        BlockRun::Unread => Ok(true),
        BlockRun::Gone => Ok(false),
    }
}

/// Keeps directory `i` for the inodes of its entries, all of which can be read, and answers whether they were.
fn enter_blocks<V: View>(
    view: &mut V,
    g: &Geometry,
    inode: &Inode,
    i: u32,
    levels: &mut Levels,
    table: &mut NamingTable,
) -> Result<bool, NoMemory>
    requires sound { V.is_sound view.old }
    requires geometry { IsGeometryOn (V.size view.old) (V.count view.old) g.now }
    requires levels { levels.old.fragment ≡ V.size view.old }
    requires small { inode.now.size < 2 ^ 32 }
    ensures keeps { Keeps V.View view.old view.new }
    ensures levels { levels.new.fragment ≡ levels.old.fragment }
    ensures found { IfOk result (λ could. could ≡ true → V.tells view.new → (v : Volume) → V.stands_for view.old v → (entries : List DirEntry)
        → (entries_before g.now inode.now (block_count g.now inode.now) v).value ≡ Ok entries → Enters g.now v i entries table.old table.new) }
    ensures consults { ConsultsKind V.View view.old view.new (V.stands_for view.old) (IsFileRead g.now inode.now) (result ≡ Ok false) }
{
    for n in 0..block_count(g, inode) {
        if !enter_block(view, g, inode, n, i, levels, table)? {
            return Ok(false);
        }
    }
    Ok(true)
}

/// Keeps directory `i` for the inodes of its entries, if all can be read, and answers whether no block that is read for it is gone.
fn enter_directory<V: View>(
    view: &mut V,
    g: &Geometry,
    inode: &Inode,
    i: u32,
    levels: &mut Levels,
    table: &mut NamingTable,
) -> Result<bool, NoMemory>
    requires sound { V.is_sound view.old }
    requires geometry { IsGeometryOn (V.size view.old) (V.count view.old) g.now }
    requires levels { levels.old.fragment ≡ V.size view.old }
    requires small { inode.now.size < 2 ^ 32 }
    ensures keeps { Keeps V.View view.old view.new }
    ensures levels { levels.new.fragment ≡ levels.old.fragment }
    ensures found { IfOk result (λ could. could ≡ true → V.tells view.new → (v : Volume) → V.stands_for view.old v
        → EntersWhole g.now v i ((entries_before g.now inode.now (block_count g.now inode.now) v).value) table.old table.new) }
    ensures consults { ConsultsKind V.View view.old view.new (V.stands_for view.old) (IsFileRead g.now inode.now) (result ≡ Ok false) }
{
    match judge_blocks(view, g, inode, levels, &mut table.runs)? {
        Some(true) => enter_blocks(view, g, inode, i, levels, table),
        Some(false) => Ok(true),
        None => Ok(false),
    }
}

/// The same of inode `i`, where it is a directory.
fn enter_inode<V: View>(
    view: &mut V,
    g: &Geometry,
    i: u32,
    levels: &mut Levels,
    table: &mut NamingTable,
) -> Result<bool, NoMemory>
    requires sound { V.is_sound view.old }
    requires geometry { IsGeometryOn (V.size view.old) (V.count view.old) g.now }
    requires levels { levels.old.fragment ≡ V.size view.old }
    ensures keeps { Keeps V.View view.old view.new }
    ensures levels { levels.new.fragment ≡ levels.old.fragment }
    ensures found { IfOk result (λ could. could ≡ true → V.tells view.new → (v : Volume) → V.stands_for view.old v
        → FitsTable g.now v i table.old → FitsTable g.now v (i + 1) table.new) }
    ensures consults { ConsultsKind V.View view.old view.new (V.stands_for view.old) (IsParentRead g.now) (result ≡ Ok false) }
{
    match read_named(view, g, i, levels) {
        Ok(inode) => match directory_fault(&inode) {
            Some(_) => Ok(true),
            None => enter_directory(view, g, &inode, i, levels, table),
        },
        Err(fault) => match fault {
            LookFault::Unavailable => Ok(false),
            LookFault::NotFound | LookFault::NotDirectory | LookFault::Bad(_) => Ok(true),
        },
    }
}

/// The inodes of a table with their directories, ascending by inode.
fn parents_in(alloc: Global, directories: &BTreeMap<u32, u32>) -> Result<Vec<Parent>, NoMemory>
    ensures { IfOk result (λ parents. KeptAre (kept_in directories.now) parents.items) }
{
    let mut parents = Vec::new(alloc);
    for (inode, directory) in directories {
        let parent = Parent {
            inode: *inode,
            directory: *directory,
        };
        if parents.push(parent).is_err() {
            return Err(NoMemory);
        }
    }
    Ok(parents)
}

/// The parents on a volume with a geometry.
fn parents_below<V: View>(
    alloc: Global,
    view: &mut V,
    g: &Geometry,
    levels: &mut Levels,
) -> Result<Option<Vec<Parent>>, NoMemory>
    requires sound { V.is_sound view.old }
    requires geometry { IsGeometryOn (V.size view.old) (V.count view.old) g.now }
    requires levels { levels.old.fragment ≡ V.size view.old }
    ensures keeps { Keeps V.View view.old view.new }
    ensures levels { levels.new.fragment ≡ levels.old.fragment }
    ensures found { IfOk result (λ answer. IfSome answer (λ parents. V.tells view.new → (v : Volume) → V.stands_for view.old v
        → AreParentsBy g.now v parents.items)) }
    ensures consults { ConsultsKind V.View view.old view.new (V.stands_for view.old) (IsParentRead g.now) (result ≡ Ok None) }
{
    let mut table = NamingTable {
        runs: BTreeMap::new(alloc),
        directories: BTreeMap::new(alloc),
    };
    for i in ROOT_INODE..g.ncg * g.ipg {
        if !enter_inode(view, g, i, levels, &mut table)? {
            return Ok(None);
        }
    }
    Ok(Some(parents_in(alloc, &table.directories)?))
}

/// Each inode that a directory of the volume on a view names by an entry other than `.` and `..`, with the least such directory;
/// of those alone whose entries aren't refused. Ascending by inode. There are none without a geometry, and there is no answer where
/// a block that is read for it is gone.
///
/// A file block is gone to twice for each directory that it is in; its chunks are read at most twice, however many file blocks are
/// at one place.
pub fn parents<V: View>(
    alloc: Global,
    view: &mut V,
    levels: &mut Levels,
) -> Result<Option<Vec<Parent>>, NoMemory>
    requires sound { V.is_sound view.old }
    requires levels { levels.old.fragment ≡ V.size view.old }
    ensures keeps { Keeps V.View view.old view.new }
    ensures levels { levels.new.fragment ≡ levels.old.fragment }
    ensures found { IfOk result (λ answer. IfSome answer (λ parents. V.tells view.new → (v : Volume) → V.stands_for view.old v
        → AreParents (V.size view.old) (V.count view.old) v parents.items)) }
    ensures consults { ConsultsKind V.View view.old view.new (V.stands_for view.old) (IsParentsRead (V.size view.old) (V.count view.old)) (result ≡ Ok None) }
{
    match read_geometry(view, levels) {
        Some(Ok(g)) => parents_below(alloc, view, &g, levels),
        Some(Err(_)) => Ok(Some(Vec::new(alloc))),
        None => Ok(None),
    }
}
