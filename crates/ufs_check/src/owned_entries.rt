// The entries of a directory, gathered in memory with what they name.
ghost use Rattle.std.specs.Prelude.{◌≡◌, ◌++◌, ◌+◌, ◌*◌, ◌<◌, ◌≤◌, ℕ, [], ◌∷◌, None, true, false, length, IfOk, OnOk};
ghost use Rattle.std.specs.List.{list_any};
ghost use Rattle.dg_io.specs.ViewWords.{Keeps};
ghost use Rattle.ufs_dir.specs.Steps.{entry_of};
ghost use Rattle.ufs_model.specs.Blocks.{Volume};
ghost use Rattle.ufs_model.specs.Chunks.{entries_in, fault_in, used_entries};
ghost use Rattle.ufs_model.specs.Geometries.{IsGeometryOn};
ghost use Rattle.ufs_model.specs.Metadata.{IsMetadataBy};
ghost use Rattle.ufs_model.specs.Paths.{chunks_in};
ghost use Rattle.ufs_check.specs.Entries.{entries_all, is_refused};
ghost use Rattle.ufs_check.specs.OwnedEntries.{Sees, kind_in, seen_all};
ghost use Rattle.ufs_pointer.specs.ViewWords.{FetchesKind, LosesKind};

use crate::entries::read_named;
use dg_io::{NoMemory, View};
use std::alloc::Global;
use ufs_dir::{CHUNK_BYTES, Entries, Entry, EntryStep};
use ufs_model::{Geometry, Inode, Kind};
use ufs_pointer::Levels;

/// A used entry of a directory, with a name of its own.
#[derive(Drop)]
pub struct OwnedEntry {
    /// The inode that the entry names.
    pub inode: u32,
    /// The kind of file that the entry says its inode is, or 0 (`d_type` in `dir.h`).
    pub kind: u8,
    /// The name.
    pub name: Vec<u8>,
    /// The kind of the inode, if it is allocated and one from 2 to the last.
    pub named: Option<Kind>,
}

/// The kind of an inode, if there is one.
fn kind_of(named: &Option<Inode>) -> Option<Kind>
    ensures { result ≡ kind_in named.now }
{
    match named {
        Some(inode) => Some(inode.kind()),
        None => None,
    }
}

/// Keeps an entry, with the kind of the inode that it names.
fn keep_entry(
    alloc: Global,
    entry: &Entry<'_>,
    named: Option<Kind>,
    entries: &mut Vec<OwnedEntry>,
) -> Result<(), NoMemory>
    ensures { OnOk result (seen_all entries.new.items ≡ seen_all entries.old.items ++ (entry_of entry.now, named) ∷ []) }
{
    let Ok(name) = Vec::from_slice(alloc, entry.name) else {
        return Err(NoMemory);
    };
    let owned = OwnedEntry {
        inode: entry.inode,
        kind: entry.kind,
        name,
        named,
    };
    if entries.push(owned).is_err() {
        return Err(NoMemory);
    }
    Ok(())
}

/// Gathers an entry, where it is used, and answers whether its inode could be read.
fn gather_entry<V: View>(
    alloc: Global,
    view: &mut V,
    g: &Geometry,
    entry: &Entry<'_>,
    levels: &mut Levels,
    entries: &mut Vec<OwnedEntry>,
) -> Result<bool, NoMemory>
    requires sound { V.is_sound view.old }
    requires geometry { IsGeometryOn (V.size view.old) (V.count view.old) g.now }
    requires levels { levels.old.fragment ≡ V.size view.old }
    ensures keeps { Keeps V.View view.old view.new }
    ensures levels { levels.new.fragment ≡ levels.old.fragment }
    ensures block { levels.new.block ≡ levels.old.block }
    ensures found { IfOk result (λ could. could ≡ true → V.tells view.new → (v : Volume) → V.stands_for view.old v
        → Sees g.now v (used_entries (entry_of entry.now ∷ [])) entries.old.items entries.new.items) }
    ensures gone { IfOk result (λ could. could ≡ false → LosesKind V.View view.old view.new (IsMetadataBy g.now)) }
    ensures fetched { FetchesKind V.View view.old view.new (IsMetadataBy g.now) }
{
    if !entry.is_used() {
        return Ok(true);
    }
    let Some(named) = read_named(view, g, entry.inode, levels) else {
        return Ok(false);
    };
    keep_entry(alloc, entry, kind_of(&named), entries)?;
    Ok(true)
}

/// Gathers the entries of a chunk that isn't refused, and answers whether their inodes could be read.
fn gather_chunk<V: View>(
    alloc: Global,
    view: &mut V,
    g: &Geometry,
    chunk: &[u8],
    levels: &mut Levels,
    entries: &mut Vec<OwnedEntry>,
) -> Result<bool, NoMemory>
    requires sound { V.is_sound view.old }
    requires geometry { IsGeometryOn (V.size view.old) (V.count view.old) g.now }
    requires levels { levels.old.fragment ≡ V.size view.old }
    requires chunk { length chunk.now ≡ CHUNK_BYTES }
    requires whole { fault_in g.now.endian 0 chunk.now ≡ None }
    ensures keeps { Keeps V.View view.old view.new }
    ensures levels { levels.new.fragment ≡ levels.old.fragment }
    ensures block { levels.new.block ≡ levels.old.block }
    ensures found { IfOk result (λ could. could ≡ true → V.tells view.new → (v : Volume) → V.stands_for view.old v
        → Sees g.now v (used_entries (entries_in g.now.endian 0 chunk.now)) entries.old.items entries.new.items) }
    ensures gone { IfOk result (λ could. could ≡ false → LosesKind V.View view.old view.new (IsMetadataBy g.now)) }
    ensures fetched { FetchesKind V.View view.old view.new (IsMetadataBy g.now) }
{
    let mut walk = Entries::new(chunk, g.endian);
    loop {
        match walk.next() {
            EntryStep::Entry(entry) => {
                if !gather_entry(alloc, view, g, &entry, levels, entries)? {
                    return Ok(false);
                }
            }
            EntryStep::End => return Ok(true),
            EntryStep::Bad(_) => unreachable!(),
        }
    }
}

/// Gathers the entries of the first `count` chunks of the block of data, none of which is refused, and
/// answers whether their inodes could be read.
pub fn gather_chunks<V: View>(
    alloc: Global,
    view: &mut V,
    g: &Geometry,
    count: usize,
    levels: &mut Levels,
    entries: &mut Vec<OwnedEntry>,
) -> Result<bool, NoMemory>
    requires sound { V.is_sound view.old }
    requires geometry { IsGeometryOn (V.size view.old) (V.count view.old) g.now }
    requires levels { levels.old.fragment ≡ V.size view.old }
    requires few { count ≤ 128 }
    requires chunks { count * 512 ≤ length levels.old.block }
    requires whole { list_any (is_refused g.now.endian) (chunks_in count levels.old.block) ≡ false }
    ensures keeps { Keeps V.View view.old view.new }
    ensures levels { levels.new.fragment ≡ levels.old.fragment }
    ensures block { levels.new.block ≡ levels.old.block }
    ensures found { IfOk result (λ could. could ≡ true → V.tells view.new → (v : Volume) → V.stands_for view.old v
        → Sees g.now v (entries_all g.now.endian (chunks_in count levels.old.block)) entries.old.items entries.new.items) }
    ensures gone { IfOk result (λ could. could ≡ false → LosesKind V.View view.old view.new (IsMetadataBy g.now)) }
    ensures fetched { FetchesKind V.View view.old view.new (IsMetadataBy g.now) }
{
    let mut chunk = [0; CHUNK_BYTES];
    for i in 0..count {
        let start = i * CHUNK_BYTES;
        chunk.copy_from_slice(&levels.block()[start..start + CHUNK_BYTES]);
        if !gather_chunk(alloc, view, g, &chunk, levels, entries)? {
            return Ok(false);
        }
    }
    Ok(true)
}
