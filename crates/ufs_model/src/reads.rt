use crate::geometries::BadSuper;

/// What is wrong with a volume where an answer would have to be read from it. The tests and their
/// names are this project's.
#[derive(Clone, Copy, Debug, PartialEq, Eq)]
pub enum BadRead {
    /// A test of the superblock fails.
    Super(BadSuper),
    /// A pointer leads to fragments that aren't all data of one group.
    Wild,
    /// A file has 2^32 bytes or more.
    Filesize,
    /// A directory has a hole before its end.
    Hole,
    /// A directory doesn't consist of whole chunks, or one of them is refused.
    Chunk,
    /// An inode that is needed has a number below 2 or past the last one, or is unallocated.
    Entry,
}

/// Why a path gives nothing to read.
#[derive(Clone, Copy, Debug, PartialEq, Eq)]
pub enum PathRefusal {
    /// A directory on the path has no entry with the name.
    NotFound,
    /// A name is looked for in something else than a directory, or such a thing is to be listed.
    NotDirectory,
    /// Contents are asked of something else than a regular file.
    NotRegular,
    /// The volume isn't as it has to be.
    Bad(BadRead),
}
