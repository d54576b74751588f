use crate::heads::split_entry;
use std::marker::Model;
use ufs_model::{BadEntry, Endian};

/// The bytes of a chunk (`DIRBLKSIZ`).
pub const CHUNK_BYTES: usize = 512;

/// An entry of a directory, used or not.
#[derive(Clone, Copy, Debug, PartialEq, Eq)]
pub struct Entry<'a> {
    /// The inode that the entry names; 0 in an unused entry (`d_ino`).
    pub inode: u32,
    /// The kind of file that the entry says its inode is: the inode's kind bits shifted down by 12,
    /// or 0 where the entry doesn't say (`d_type`).
    pub kind: u8,
    /// The name, without the zero byte after it; a part of the chunk, and empty in an unused entry
    /// (`d_name`).
    pub name: &'a [u8],
}

impl Entry<'_> {
    ghost use Rattle.std.specs.Prelude.{◌≡◌};
    ghost use Rattle.ufs_model.specs.Chunks.{is_used_entry};
    ghost use Rattle.ufs_dir.specs.Steps.{entry_of};

    /// Whether the entry names an inode.
    pub fn is_used(&self) -> bool
        ensures { result ≡ is_used_entry (entry_of self.now) }
    {
        self.inode != 0
    }
}

/// What a call of [`Entries::next`] gives.
#[derive(Clone, Copy, Debug, PartialEq, Eq)]
pub enum EntryStep<'a> {
    /// The next entry.
    Entry(Entry<'a>),
    /// The chunk is read to its end.
    End,
    /// The entry here has this fault. The whole chunk is refused, with the entries before it.
    Bad(BadEntry),
}

/// What is left of a chunk. Contracts see the entries that are left, and the fault after them.
#[derive(Debug, Drop)]
pub struct Entries<'a> {
    rest: &'a [u8],
    endian: Endian,
}

impl<'a> Model for Entries<'a> {
    ghost use Rattle.ufs_dir.specs.Steps.{Left, left_in};

    ghost Value = { Left };

    ghost view = { λ entries. left_in entries.endian entries.rest.now };
}

impl<'a> Entries<'a> {
    ghost use Rattle.std.specs.Prelude.{◌≡◌, length};
    ghost use Rattle.ufs_dir.specs.Steps.{IsStep, left_in};

    /// The entries of a chunk, from its first on, whose numbers stand in this order of bytes.
    pub fn new(chunk: &'a [u8], endian: Endian) -> Entries<'a>
        requires { length chunk.now ≡ CHUNK_BYTES }
        ensures { result ≡ left_in endian chunk.now }
    {
        Entries {
            rest: chunk,
            endian,
        }
    }

    /// The next entry, used or unused, or the end of the chunk, or why the chunk is refused. After
    /// the end or a refusal each further call answers the same.
    pub fn next(&mut self) -> EntryStep<'a>
        ensures { IsStep self.old result self.new }
    {
        let rest = self.rest;
        if rest.is_empty() {
            return EntryStep::End;
        }
        match split_entry(rest, self.endian) {
            Ok((entry, after)) => {
                self.rest = after;
                EntryStep::Entry(entry)
            }
            Err(bad) => EntryStep::Bad(bad),
        }
    }
}
