ghost use Rattle.std.specs.Prelude.{◌≡◌, length};
ghost use Rattle.ufs_model.specs.Chunks.{fault_in, find_in};
ghost use Rattle.ufs_dir.specs.Parts.{inode_under};
ghost use Rattle.ufs_dir.specs.Steps.{entry_of};

use crate::walks::{CHUNK_BYTES, Entries, Entry, EntryStep};
use ufs_model::{BadEntry, Endian, Found};

/// Why a chunk is refused, if it is: its first fault.
pub fn check(chunk: &[u8], endian: Endian) -> Option<BadEntry>
    requires { length chunk.now ≡ CHUNK_BYTES }
    ensures { result ≡ fault_in endian 0 chunk.now }
{
    let mut entries = Entries::new(chunk, endian);
    loop {
        match entries.next() {
            EntryStep::Entry(_) => {}
            EntryStep::End => return None,
            EntryStep::Bad(bad) => return Some(bad),
        }
    }
}

/// The inode of the entry, if it is used and has the name.
fn inode_under(entry: &Entry<'_>, name: &[u8]) -> Option<u32>
    ensures { result ≡ inode_under name.now (entry_of entry.now) }
{
    if entry.is_used() && entry.name == name {
        Some(entry.inode)
    } else {
        None
    }
}

/// The inode of the first used entry of a chunk with the name. The chunk is judged whole: where it
/// is refused, so is the search, even if the name stands before the refused entry.
pub fn find(chunk: &[u8], name: &[u8], endian: Endian) -> Found
    requires { length chunk.now ≡ CHUNK_BYTES }
    ensures { result ≡ find_in endian name.now chunk.now }
{
    let mut entries = Entries::new(chunk, endian);
    let mut first = None;
    loop {
        match entries.next() {
            EntryStep::Entry(entry) => first = first.or(inode_under(&entry, name)),
            EntryStep::End => return first.map_or(Found::Absent, Found::At),
            EntryStep::Bad(bad) => return Found::Bad(bad),
        }
    }
}
