ghost use Rattle.std.specs.Prelude.{◌≡◌};
ghost use Rattle.ufs_check.specs.Verdicts.{no_fragment_fault, no_group_fault, no_inode_fault, no_slot_fault};

use crate::notes::first_of;
use ufs_model::BadKind;

/// What a check of a volume finds.
#[derive(Clone, Copy, Debug, PartialEq, Eq)]
pub enum Verdict {
    /// No malformation.
    Sound,
    /// The first malformation: its kind, and the least number of which it is.
    Malformed(BadKind, u32),
    /// A block with the volume's structure is gone.
    Gone,
}

/// What is wrong with group blocks: of each kind the groups, ascending.
#[derive(Drop)]
pub struct GroupFaults {
    /// They have another magic number, or are another group's.
    pub magic: Vec<u32>,
    /// They count their fragments wrong, or their maps don't fit.
    pub map: Vec<u32>,
}

/// What is wrong with inodes: of each kind the inodes, ascending.
#[derive(Drop)]
pub struct InodeFaults {
    /// They have an unknown kind.
    pub wrong_type: Vec<u32>,
    /// They have pointers, and 2^32 bytes or more.
    pub filesize: Vec<u32>,
    /// They have a slot that isn't 0 and reaches no block of the file.
    pub past: Vec<u32>,
    /// They have a slot to fragments that aren't all data of one group.
    pub wild: Vec<u32>,
    /// They have a slot to a whole file block that doesn't begin at a multiple of its fragments.
    pub align: Vec<u32>,
    /// Their short last block crosses from one whole file block into the next.
    pub run: Vec<u32>,
    /// They are marked unused.
    pub unused: Vec<u32>,
}

/// What is wrong with directories, each of which is looked at by itself: of each kind the directories,
/// ascending.
#[derive(Drop)]
pub struct DirectoryFaults {
    /// They have a hole before their end.
    pub hole: Vec<u32>,
    /// They don't consist of whole chunks, or one of them is refused.
    pub chunk: Vec<u32>,
    /// They have an entry that names no allocated inode from 2 to the last.
    pub entry: Vec<u32>,
    /// They have an entry with a type that isn't 0 and isn't that of the inode.
    pub entry_type: Vec<u32>,
    /// They have two entries of one name.
    pub names: Vec<u32>,
    /// They have an entry for the root that is neither `.` nor `..`.
    pub root_named: Vec<u32>,
}

/// What is wrong with fragments: of each kind the fragments, ascending.
#[derive(Drop)]
pub struct FragmentFaults {
    /// They are of an indirect block, and have a pointer to fragments that aren't all data of one group.
    pub wild_in: Vec<u32>,
    /// They are of an indirect block, and have a pointer to a whole file block that doesn't begin at a
    /// multiple of its fragments.
    pub align_in: Vec<u32>,
    /// They have two or more claims.
    pub twice: Vec<u32>,
    /// They are of an indirect block of an inode that owns them, and have a pointer that isn't 0 and reaches
    /// no block of its file.
    pub past_in: Vec<u32>,
    /// They have a claim, and are marked free.
    pub free: Vec<u32>,
}

impl GroupFaults {
    /// Nothing is found.
    pub fn is_none(&self) -> bool
        ensures { result ≡ no_group_fault self.now }
    {
        first_of(&self.magic).is_none() && first_of(&self.map).is_none()
    }
}

impl InodeFaults {
    /// Nothing is found of slots.
    fn has_sound_slots(&self) -> bool
        ensures { result ≡ no_slot_fault self.now }
    {
        first_of(&self.past).is_none()
            && first_of(&self.wild).is_none()
            && first_of(&self.align).is_none()
            && first_of(&self.run).is_none()
    }

    /// Nothing is found.
    pub fn is_none(&self) -> bool
        ensures { result ≡ no_inode_fault self.now }
    {
        first_of(&self.wrong_type).is_none()
            && first_of(&self.filesize).is_none()
            && self.has_sound_slots()
            && first_of(&self.unused).is_none()
    }
}

impl FragmentFaults {
    /// Nothing is found.
    pub fn is_none(&self) -> bool
        ensures { result ≡ no_fragment_fault self.now }
    {
        first_of(&self.wild_in).is_none()
            && first_of(&self.align_in).is_none()
            && first_of(&self.twice).is_none()
            && first_of(&self.past_in).is_none()
            && first_of(&self.free).is_none()
    }
}
