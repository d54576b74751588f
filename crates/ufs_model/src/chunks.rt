/// Why a chunk of a directory is refused.
#[derive(Clone, Copy, Debug, PartialEq, Eq)]
pub enum BadEntry {
    /// The length of an entry doesn't fit the chunk or the entry's name.
    Reclen,
    /// A used entry has an empty name, or one with a zero byte or a slash.
    Name,
    /// Fewer bytes are left than the head of an entry takes.
    Cut,
}

/// What a search for a name in a chunk of a directory finds.
#[derive(Clone, Copy, Debug, PartialEq, Eq)]
pub enum Found {
    /// The inode of the first used entry with the name.
    At(u32),
    /// No used entry has the name.
    Absent,
    /// The chunk is refused.
    Bad(BadEntry),
}
