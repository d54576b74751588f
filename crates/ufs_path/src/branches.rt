// Entries of directories that are still to be listed.
ghost use Rattle.std.specs.Prelude.{◌≡◌, ◌++◌, ◌*◌, ◌^◌, ◌<◌, ◌≤◌, ◌∷◌, [], List, Some, Ok, length, map, IfOk, OnOk};
ghost use Rattle.dg_io.specs.ViewWords.{Keeps, Reads};
ghost use Rattle.ufs_dir.specs.Steps.{entry_of};
ghost use Rattle.ufs_model.specs.Chunks.{entries_in, used_entries};
ghost use Rattle.ufs_model.specs.Geometries.{IsGeometryOn};
ghost use Rattle.ufs_model.specs.Inodes.{kind_of};
ghost use Rattle.ufs_model.specs.Paths.{chunks_in, entries_before, is_directory};
ghost use Rattle.ufs_path.specs.Consults.{Consults};
ghost use Rattle.ufs_path.specs.Trees.{AddsBranches, AreBranches, IsUnreadIn, Opens, OpensBlocks, OpensEntry, branch_at, branch_of, branches_below, branches_in, left_on, opened};
ghost use Rattle.ufs_path.specs.Walks.{entries_among};

use crate::blocks::directory_fault;
use crate::entries::{chunk_at, read_entries};
use crate::faults::LookFault;
use crate::looks::read_named;
use crate::naming::is_plain;
use dg_io::{NoMemory, View};
use std::alloc::Global;
use ufs_dir::{CHUNK_BYTES, Entries, Entry, EntryStep};
use ufs_model::{Endian, Geometry, Inode, Kind};
use ufs_pointer::{Levels, block_count};

/// The most bytes that a name has.
const MOST_NAME: usize = 255;

/// An entry that is still to be listed.
#[derive(Drop)]
pub struct Pending {
    /// How deep it is below the root, whose own entries have depth 1.
    pub depth: u32,
    /// The inode that it names.
    pub inode: u32,
    /// Its name, and zeros after it.
    pub name: [u8; MOST_NAME],
    /// How many bytes the name has.
    pub length: u8,
}

impl Pending {
    ghost use Rattle.std.specs.Prelude.{◌≡◌, ◌≤◌, length};
    ghost use Rattle.ufs_dir.specs.Steps.{entry_of};
    ghost use Rattle.ufs_path.specs.Trees.{branch_at, branch_of};

    /// An entry of a directory whose entries have this depth.
    fn new(depth: u32, entry: &Entry<'_>) -> Pending
        requires { length entry.now.name.now ≤ 255 }
        ensures { branch_of result ≡ branch_at depth (entry_of entry.now) }
    {
        let mut name = [0; MOST_NAME];
        name[..entry.name.len()].copy_from_slice(entry.name);
        Pending {
            depth,
            inode: entry.inode,
            name,
            length: entry.name.len() as u8,
        }
    }

    /// Its name.
    pub fn name(&self) -> &[u8]
        ensures name { result.now ≡ (branch_of self.now).name }
        ensures short { length result.now ≤ 255 }
    {
        &self.name[..self.length as usize]
    }
}

/// Keeps a used entry, if it is neither `.` nor `..`.
fn push_used(kept: &mut Vec<Pending>, depth: u32, entry: &Entry<'_>) -> Result<(), NoMemory>
    requires { length entry.now.name.now ≤ 255 }
    ensures { OnOk result (AddsBranches depth (entry_of entry.now ∷ []) kept.old.items kept.new.items) }
{
    if !is_plain(entry) {
        return Ok(());
    }
    if kept.push(Pending::new(depth, entry)).is_err() {
        return Err(NoMemory);
    }
    Ok(())
}

/// The same of an entry, if it is used.
fn push_entry(kept: &mut Vec<Pending>, depth: u32, entry: &Entry<'_>) -> Result<(), NoMemory>
    requires { length entry.now.name.now ≤ 255 }
    ensures { OnOk result (AddsBranches depth (used_entries (entry_of entry.now ∷ [])) kept.old.items kept.new.items) }
{
    if !entry.is_used() {
        return Ok(());
    }
    push_used(kept, depth, entry)
}

/// The same of the entries of a chunk.
fn push_chunk(
    kept: &mut Vec<Pending>,
    depth: u32,
    chunk: &[u8],
    endian: Endian,
) -> Result<(), NoMemory>
    requires { length chunk.now ≡ CHUNK_BYTES }
    ensures { OnOk result (AddsBranches depth (used_entries (entries_in endian 0 chunk.now)) kept.old.items kept.new.items) }
{
    let mut entries = Entries::new(chunk, endian);
    loop {
        match entries.next() {
            EntryStep::Entry(entry) => push_entry(kept, depth, &entry)?,
            EntryStep::End | EntryStep::Bad(_) => return Ok(()),
        }
    }
}

/// The same of the entries of the first `count` chunks of a file block.
fn push_chunks(
    kept: &mut Vec<Pending>,
    depth: u32,
    block: &[u8],
    count: usize,
    endian: Endian,
) -> Result<(), NoMemory>
    requires { count * 512 ≤ length block.now }
    ensures { OnOk result (AddsBranches depth (entries_among endian (chunks_in count block.now)) kept.old.items kept.new.items) }
{
    for k in 0..count {
        push_chunk(kept, depth, &chunk_at(block, k), endian)?;
    }
    Ok(())
}

/// The entries in the first `count` file blocks of a directory, without `.` and `..`.
fn read_branches<V: View>(
    alloc: Global,
    view: &mut V,
    g: &Geometry,
    inode: &Inode,
    count: u32,
    depth: u32,
    levels: &mut Levels,
) -> Result<Result<Vec<Pending>, LookFault>, NoMemory>
    requires sound { V.is_sound view.old }
    requires geometry { IsGeometryOn (V.size view.old) (V.count view.old) g.now }
    requires levels { levels.old.fragment ≡ V.size view.old }
    requires few { count ≤ 2 ^ 20 }
    ensures keeps { Keeps V.View view.old view.new }
    ensures levels { levels.new.fragment ≡ levels.old.fragment }
    ensures found { IfOk result (AreBranches (Reads V.View view.old view.new (entries_before g.now inode.now count)) depth) }
    ensures consults { Consults V.View view.old view.new (entries_before g.now inode.now count) (IsUnreadIn result) }
{
    let mut kept = Vec::new(alloc);
    for n in 0..count {
        match read_entries(view, g, inode, n, levels) {
            Ok(chunks) => push_chunks(&mut kept, depth, levels.block(), chunks, g.endian)?,
            Err(fault) => return Ok(Err(fault)),
        }
    }
    Ok(Ok(kept))
}

/// Puts entries on a stack, the first of them last.
fn put_on(entries: Vec<Pending>, stack: &mut Vec<Pending>) -> Result<(), NoMemory>
    ensures { OnOk result (left_on stack.new.items ≡ map branch_of entries.items ++ left_on stack.old.items) }
{
    let mut kept = entries;
    while let Some(last) = kept.pop() {
        if stack.push(last).is_err() {
            return Err(NoMemory);
        }
    }
    Ok(())
}

/// Puts the entries in the first `count` file blocks of a directory on a stack, without `.` and `..`; these have the depth.
fn open_blocks<V: View>(
    alloc: Global,
    view: &mut V,
    g: &Geometry,
    inode: &Inode,
    count: u32,
    depth: u32,
    stack: &mut Vec<Pending>,
    levels: &mut Levels,
) -> Result<Result<(), LookFault>, NoMemory>
    requires sound { V.is_sound view.old }
    requires geometry { IsGeometryOn (V.size view.old) (V.count view.old) g.now }
    requires levels { levels.old.fragment ≡ V.size view.old }
    requires few { count ≤ 2 ^ 20 }
    ensures keeps { Keeps V.View view.old view.new }
    ensures levels { levels.new.fragment ≡ levels.old.fragment }
    ensures opens { IfOk result (OpensBlocks (Reads V.View view.old view.new (entries_before g.now inode.now count)) depth
        (left_on stack.old.items) (left_on stack.new.items)) }
    ensures consults { Consults V.View view.old view.new (entries_before g.now inode.now count) (IsUnreadIn result) }
{
    let found = read_branches(alloc, view, g, inode, count, depth, levels)?;
    match found {
        Ok(kept) => {
            put_on(kept, stack)?;
            Ok(Ok(()))
        }
        Err(fault) => Ok(Err(fault)),
    }
}

/// Puts the entries of a directory on a stack, without `.` and `..`; these have the depth.
fn open_directory<V: View>(
    alloc: Global,
    view: &mut V,
    g: &Geometry,
    inode: &Inode,
    depth: u32,
    stack: &mut Vec<Pending>,
    levels: &mut Levels,
) -> Result<Result<(), LookFault>, NoMemory>
    requires sound { V.is_sound view.old }
    requires geometry { IsGeometryOn (V.size view.old) (V.count view.old) g.now }
    requires levels { levels.old.fragment ≡ V.size view.old }
    ensures keeps { Keeps V.View view.old view.new }
    ensures levels { levels.new.fragment ≡ levels.old.fragment }
    ensures opens { IfOk result (Opens (Reads V.View view.old view.new (branches_in g.now depth inode.now))
        (left_on stack.old.items) (left_on stack.new.items)) }
    ensures consults { Consults V.View view.old view.new (branches_in g.now depth inode.now) (IsUnreadIn result) }
{
    match directory_fault(inode) {
        Some(fault) => Ok(Err(fault)),
        None => open_blocks(
            alloc,
            view,
            g,
            inode,
            block_count(g, inode),
            depth,
            stack,
            levels,
        ),
    }
}

/// Whether an inode is a directory.
pub fn is_directory(inode: &Inode) -> bool
    ensures { result ≡ is_directory (kind_of inode.now.mode) }
{
    match inode.kind() {
        Kind::Directory => true,
        Kind::Regular
        | Kind::Link
        | Kind::Pipe
        | Kind::Character
        | Kind::Block
        | Kind::Socket
        | Kind::Unknown => false,
    }
}

/// Puts the entries below an inode on a stack, if it is a directory. `depth` is that of an entry which names the inode.
pub fn open_inode<V: View>(
    alloc: Global,
    view: &mut V,
    g: &Geometry,
    inode: &Inode,
    depth: u32,
    stack: &mut Vec<Pending>,
    levels: &mut Levels,
) -> Result<Result<(), LookFault>, NoMemory>
    requires sound { V.is_sound view.old }
    requires geometry { IsGeometryOn (V.size view.old) (V.count view.old) g.now }
    requires levels { levels.old.fragment ≡ V.size view.old }
    ensures keeps { Keeps V.View view.old view.new }
    ensures levels { levels.new.fragment ≡ levels.old.fragment }
    ensures opens { IfOk result (Opens (Reads V.View view.old view.new (branches_below g.now depth inode.now))
        (left_on stack.old.items) (left_on stack.new.items)) }
    ensures consults { Consults V.View view.old view.new (branches_below g.now depth inode.now) (IsUnreadIn result) }
{
    if is_directory(inode) && depth < g.ncg * g.ipg {
        open_directory(alloc, view, g, inode, depth + 1, stack, levels)
    } else {
        Ok(Ok(()))
    }
}

/// Reads the inode that an entry names, and puts the entries below it on a stack.
pub fn open_entry<V: View>(
    alloc: Global,
    view: &mut V,
    g: &Geometry,
    entry: &Pending,
    stack: &mut Vec<Pending>,
    levels: &mut Levels,
) -> Result<Result<Inode, LookFault>, NoMemory>
    requires sound { V.is_sound view.old }
    requires geometry { IsGeometryOn (V.size view.old) (V.count view.old) g.now }
    requires levels { levels.old.fragment ≡ V.size view.old }
    ensures keeps { Keeps V.View view.old view.new }
    ensures levels { levels.new.fragment ≡ levels.old.fragment }
    ensures opens { IfOk result (OpensEntry (Reads V.View view.old view.new (opened g.now (branch_of entry.now)))
        (left_on stack.old.items) (left_on stack.new.items)) }
    ensures consults { Consults V.View view.old view.new (opened g.now (branch_of entry.now)) (IsUnreadIn result) }
{
    match read_named(view, g, entry.inode, levels) {
        Ok(inode) => {
            let below = open_inode(alloc, view, g, &inode, entry.depth, stack, levels)?;
            match below {
                Ok(()) => Ok(Ok(inode)),
                Err(fault) => Ok(Err(fault)),
            }
        }
        Err(fault) => Ok(Err(fault)),
    }
}
