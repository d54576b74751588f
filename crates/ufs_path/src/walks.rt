// Handing on the entries of directories, with the inodes that they name.
ghost use Rattle.std.specs.Prelude.{◌≡◌, ◌+◌, ◌*◌, ◌^◌, ◌<◌, ◌≤◌, ◌∷◌, [], List, ℕ, length};
ghost use Rattle.dg_io.specs.ViewWords.{Keeps, Reads};
ghost use Rattle.ufs_dir.specs.Steps.{entry_of};
ghost use Rattle.ufs_model.specs.Chunks.{entries_in, used_entries};
ghost use Rattle.ufs_model.specs.Geometries.{IsGeometryOn};
ghost use Rattle.ufs_model.specs.Listings.{listed_entries};
ghost use Rattle.ufs_model.specs.Paths.{chunks_in, entries_before};
ghost use Rattle.ufs_model.specs.declared.numbers.Endian.TheVariants.{Little};
ghost use Rattle.ufs_pointer.specs.Fetches.{IsNeeded};
ghost use Rattle.ufs_path.specs.Walks.{IsFew, IsListed, IsWalked, ReadsEntries, entries_among, lines_before};
ghost use Rattle.ufs_path.specs.Consults.{Consults, ConsultsKind, IsUnreadWalk, StaysAtWalk};

use crate::entries::{chunk_at, read_entries};
use crate::faults::LookFault;
use crate::listings::Listing;
use crate::looks::read_named;
use dg_io::View;
use ufs_dir::{CHUNK_BYTES, Entries, Entry, EntryStep};
use ufs_model::{Geometry, Inode};
use ufs_pointer::Levels;

/// What became of entries that were to be handed on.
#[derive(Clone, Copy)]
pub enum Walked {
    /// All were handed on, so many.
    All(u32),
    /// So many were handed on, and then something wasn't read.
    Unread(u32, LookFault),
    /// The receiver failed.
    Failed,
}

/// Hands on a used entry of a directory. The block of data stays.
fn hand_entry<V: View, O: Listing>(
    view: &mut V,
    g: &Geometry,
    entry: &Entry<'_>,
    out: &mut O,
    levels: &mut Levels,
) -> Walked
    requires sound { V.is_sound view.old }
    requires geometry { IsGeometryOn (V.size view.old) (V.count view.old) g.now }
    requires levels { levels.old.fragment ≡ V.size view.old }
    requires short { length entry.now.name.now ≤ 255 }
    ensures keeps { Keeps V.View view.old view.new }
    ensures levels { levels.new.fragment ≡ levels.old.fragment }
    ensures block { levels.new.block ≡ levels.old.block }
    ensures later { O.faults out.old ≤ O.faults out.new }
    ensures few { IsFew 1 result }
    ensures rule { IsListed O.took O.took_part O.faults out.old out.new (entry_of entry.now ∷ [])
        (λ entries. Reads V.View view.old view.new (listed_entries g.now 1 entries)) result }
    ensures consults { Consults V.View view.old view.new (listed_entries g.now 1 (entry_of entry.now ∷ [])) (IsUnreadWalk result) }
    ensures stays { StaysAtWalk result (O.faults out.old) (O.faults out.new) }
{
    match read_named(view, g, entry.inode, levels) {
        Ok(inode) => match out.line(1, entry.inode, inode.kind(), inode.size, entry.name) {
            Ok(()) => Walked::All(1),
            Err(_) => Walked::Failed,
        },
        Err(fault) => Walked::Unread(0, fault),
    }
}

/// Hands on an entry of a directory, if it is used. The block of data stays.
fn list_entry<V: View, O: Listing>(
    view: &mut V,
    g: &Geometry,
    entry: &Entry<'_>,
    out: &mut O,
    levels: &mut Levels,
) -> Walked
    requires sound { V.is_sound view.old }
    requires geometry { IsGeometryOn (V.size view.old) (V.count view.old) g.now }
    requires levels { levels.old.fragment ≡ V.size view.old }
    requires short { length entry.now.name.now ≤ 255 }
    ensures keeps { Keeps V.View view.old view.new }
    ensures levels { levels.new.fragment ≡ levels.old.fragment }
    ensures block { levels.new.block ≡ levels.old.block }
    ensures later { O.faults out.old ≤ O.faults out.new }
    ensures few { IsFew 1 result }
    ensures rule { IsListed O.took O.took_part O.faults out.old out.new (used_entries (entry_of entry.now ∷ []))
        (λ entries. Reads V.View view.old view.new (listed_entries g.now 1 entries)) result }
    ensures consults { Consults V.View view.old view.new (listed_entries g.now 1 (used_entries (entry_of entry.now ∷ []))) (IsUnreadWalk result) }
    ensures stays { StaysAtWalk result (O.faults out.old) (O.faults out.new) }
{
    if entry.is_used() {
        hand_entry(view, g, entry, out, levels)
    } else {
        Walked::All(0)
    }
}

/// Hands on the used entries of a chunk. The block of data stays.
fn list_chunk<V: View, O: Listing>(
    view: &mut V,
    g: &Geometry,
    chunk: &[u8],
    out: &mut O,
    levels: &mut Levels,
) -> Walked
    requires sound { V.is_sound view.old }
    requires geometry { IsGeometryOn (V.size view.old) (V.count view.old) g.now }
    requires levels { levels.old.fragment ≡ V.size view.old }
    requires chunk { length chunk.now ≡ CHUNK_BYTES }
    ensures keeps { Keeps V.View view.old view.new }
    ensures levels { levels.new.fragment ≡ levels.old.fragment }
    ensures block { levels.new.block ≡ levels.old.block }
    ensures later { O.faults out.old ≤ O.faults out.new }
    ensures few { IsFew 512 result }
    ensures rule { IsListed O.took O.took_part O.faults out.old out.new (used_entries (entries_in g.now.endian 0 chunk.now))
        (λ entries. Reads V.View view.old view.new (listed_entries g.now 1 entries)) result }
    ensures consults { Consults V.View view.old view.new (listed_entries g.now 1 (used_entries (entries_in g.now.endian 0 chunk.now))) (IsUnreadWalk result) }
    ensures stays { StaysAtWalk result (O.faults out.old) (O.faults out.new) }
{
    let mut entries = Entries::new(chunk, g.endian);
    let mut given = 0;
    while let EntryStep::Entry(entry) = entries.next() {
        match list_entry(view, g, &entry, out, levels) {
            Walked::All(n) => given += n,
            Walked::Unread(n, fault) => return Walked::Unread(given + n, fault),
            Walked::Failed => return Walked::Failed,
        }
    }
    Walked::All(given)
}

/// Hands on the used entries in the first `count` chunks of the block of data.
fn list_chunks<V: View, O: Listing>(
    view: &mut V,
    g: &Geometry,
    count: usize,
    out: &mut O,
    levels: &mut Levels,
) -> Walked
    requires sound { V.is_sound view.old }
    requires geometry { IsGeometryOn (V.size view.old) (V.count view.old) g.now }
    requires levels { levels.old.fragment ≡ V.size view.old }
    requires inside { count * 512 ≤ length levels.old.block }
    requires small { count ≤ 128 }
    ensures keeps { Keeps V.View view.old view.new }
    ensures levels { levels.new.fragment ≡ levels.old.fragment }
    ensures later { O.faults out.old ≤ O.faults out.new }
    ensures few { IsFew (count * 512) result }
    ensures rule { IsListed O.took O.took_part O.faults out.old out.new (entries_among g.now.endian (chunks_in count levels.old.block))
        (λ entries. Reads V.View view.old view.new (listed_entries g.now 1 entries)) result }
    ensures consults { Consults V.View view.old view.new (listed_entries g.now 1 (entries_among g.now.endian (chunks_in count levels.old.block))) (IsUnreadWalk result) }
    ensures stays { StaysAtWalk result (O.faults out.old) (O.faults out.new) }
{
    let mut given = 0;
    for i in 0..count {
        let chunk = chunk_at(levels.block(), i);
        match list_chunk(view, g, &chunk, out, levels) {
            Walked::All(n) => given += n,
            Walked::Unread(n, fault) => return Walked::Unread(given + n, fault),
            Walked::Failed => return Walked::Failed,
        }
    }
    Walked::All(given)
}

/// Hands on the used entries in the first `count` file blocks of a directory.
pub fn list_blocks<V: View, O: Listing>(
    view: &mut V,
    g: &Geometry,
    inode: &Inode,
    count: u32,
    out: &mut O,
    levels: &mut Levels,
) -> Walked
    requires sound { V.is_sound view.old }
    requires geometry { IsGeometryOn (V.size view.old) (V.count view.old) g.now }
    requires levels { levels.old.fragment ≡ V.size view.old }
    requires small { inode.now.size < 2 ^ 32 }
    requires few { count ≤ 2 ^ 20 }
    ensures keeps { Keeps V.View view.old view.new }
    ensures levels { levels.new.fragment ≡ levels.old.fragment }
    ensures later { O.faults out.old ≤ O.faults out.new }
    ensures rule { IsWalked O.took O.took_part O.faults out.old out.new count
        (λ k. Reads V.View view.old view.new (entries_before g.now inode.now k))
        (λ entries. Reads V.View view.old view.new (listed_entries g.now 1 entries)) result }
    ensures consults { ConsultsKind V.View view.old view.new (λ v. V.stands_for view.old v × ReadsEntries g.now inode.now count v)
        (IsNeeded (lines_before g.now inode.now count)) (IsUnreadWalk result) }
    ensures stays { StaysAtWalk result (O.faults out.old) (O.faults out.new) }
{
    let mut given = 0;
    for n in 0..count {
        match read_entries(view, g, inode, n, levels) {
            Ok(chunks) => match list_chunks(view, g, chunks, out, levels) {
                Walked::All(more) => given += more,
                Walked::Unread(more, fault) => return Walked::Unread(given + more, fault),
                Walked::Failed => return Walked::Failed,
            },
            Err(fault) => return Walked::Unread(given, fault),
        }
    }
    Walked::All(given)
}
