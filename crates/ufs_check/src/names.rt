// The names of a directory's entries, and what these name.
ghost use Rattle.std.specs.Prelude.{◌≡◌, ◌==◌, IfOk};
ghost use Rattle.std.specs.Bool.{Decides};
ghost use Rattle.std.specs.Cmp.Lexicographic.{pointwise};
ghost use Rattle.std.specs.List.{list_any};
ghost use Rattle.ufs_model.specs.Inodes.{entry_type_of};
ghost use Rattle.ufs_model.specs.Trees.{is_plain};
ghost use Rattle.ufs_check.specs.Names.{HasSameIn, is_mistyped, names_none, names_root};
ghost use Rattle.ufs_check.specs.OwnedEntries.{owned_of};

use crate::owned_entries::OwnedEntry;
use dg_io::NoMemory;
use std::alloc::Global;
use std::collections::BTreeSet;
use ufs_model::{Kind, ROOT_INODE};

/// The entry has this name.
pub fn is_named(entry: &OwnedEntry, name: &[u8]) -> bool
    ensures { result ≡ pointwise ◌==◌ entry.now.name.items name.now }
{
    entry.name.as_slice() == name
}

/// The entry is neither `.` nor `..`.
pub fn is_plain(entry: &OwnedEntry) -> bool
    ensures { result ≡ is_plain (owned_of entry.now) }
{
    !(is_named(entry, b".") || is_named(entry, b".."))
}

/// Two of the entries have one name, and each of them names an inode.
pub fn has_same_names(alloc: Global, entries: &[OwnedEntry]) -> Result<bool, NoMemory>
    ensures { IfOk result (λ same. Decides same (HasSameIn entries.now)) }
{
    let mut names = BTreeSet::new(alloc);
    for entry in entries {
        if entry.named.is_none() {
            continue;
        }
        let Ok(added) = names.insert(entry.name.as_slice()) else {
            return Err(NoMemory);
        };
        if !added {
            return Ok(true);
        }
    }
    Ok(false)
}

/// An entry that is neither `.` nor `..` names the root, and that is there.
pub fn names_root(entries: &[OwnedEntry]) -> bool
    ensures { result ≡ list_any names_root entries.now }
{
    entries.iter().any(|entry| is_plain(entry)
        && entry.inode == ROOT_INODE
        && entry.named.is_some())
}

/// An entry names no inode.
pub fn names_none(entries: &[OwnedEntry]) -> bool
    ensures { result ≡ list_any names_none entries.now }
{
    entries.iter().any(|entry| entry.named.is_none())
}

/// The type by which an entry names a file of the kind (`DT_FIFO` to `DT_SOCK` in `dir.h`).
fn entry_type(kind: Kind) -> Option<u8>
    ensures { result ≡ entry_type_of kind }
{
    match kind {
        Kind::Pipe => Some(1),
        Kind::Character => Some(2),
        Kind::Directory => Some(4),
        Kind::Block => Some(6),
        Kind::Regular => Some(8),
        Kind::Link => Some(10),
        Kind::Socket => Some(12),
        Kind::Unknown => None,
    }
}

/// The entry has a type that isn't that of its inode.
fn is_mistyped(entry: &OwnedEntry) -> bool
    ensures { result ≡ is_mistyped entry.now }
{
    match entry.named {
        Some(kind) => entry.kind != 0 && entry_type(kind) != Some(entry.kind),
        None => false,
    }
}

/// An entry has a type that isn't that of its inode.
pub fn has_mistyped(entries: &[OwnedEntry]) -> bool
    ensures { result ≡ list_any is_mistyped entries.now }
{
    entries.iter().any(|entry| is_mistyped(entry))
}
