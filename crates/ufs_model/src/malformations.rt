use crate::geometries::BadSuper;

/// What is wrong with a volume as a whole. The kinds stand in the order in which they are looked for;
/// each is of one number, which is told with it. The tests and their names are this project's.
#[derive(Clone, Copy, Debug, PartialEq, Eq)]
pub enum BadKind {
    /// A test of the superblock fails. The number is 0.
    Super(BadSuper),
    /// A group's block has another magic number, or is another group's.
    GroupMagic,
    /// A group's block counts its fragments wrong, or its maps don't fit.
    GroupMap,
    /// An inode has an unknown kind.
    WrongType,
    /// An inode that has pointers has 2^32 bytes or more.
    Filesize,
    /// An inode has a slot that isn't 0 and reaches no block of the file.
    Past,
    /// An inode has a wild slot.
    Wild,
    /// A fragment of an indirect block has a wild pointer.
    WildIn,
    /// An inode has a slot to a whole file block that doesn't begin at a multiple of its fragments.
    Align,
    /// A fragment of an indirect block has such a pointer.
    AlignIn,
    /// The short last block of an inode crosses from one whole file block into the next.
    Run,
    /// A fragment has two or more claims.
    Twice,
    /// A fragment of an indirect block has a pointer that isn't 0 and reaches no block of the file.
    PastIn,
    /// A fragment is claimed, and marked free.
    Free,
    /// An inode is allocated, and marked unused.
    Unused,
    /// A directory, by its inode, has a hole before its end.
    Hole,
    /// A directory doesn't consist of whole chunks, or one of them is refused.
    Chunk,
    /// A directory has an entry that names no allocated inode from 2 to the last.
    Entry,
    /// A directory has an entry with a type that isn't 0 and isn't that of the inode.
    EntryType,
    /// A directory's first two entries aren't `.` and `..` as they have to be.
    Dots,
    /// A directory has two entries of one name.
    Names,
    /// A directory is named by two entries that aren't `.` or `..`.
    DirTwice,
    /// A directory has an entry that isn't `.` or `..` and names the root.
    RootNamed,
}
