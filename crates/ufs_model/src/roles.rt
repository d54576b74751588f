/// What a block that holds no file's data is for.
#[derive(Clone, Copy, Debug, PartialEq, Eq)]
pub enum SystemKind {
    /// The superblock.
    Super,
    /// The room before the first group's own blocks.
    Boot,
    /// A group's copy of the superblock.
    Copy,
    /// A group's own block, with its maps.
    Group,
    /// A group's inodes.
    Inodes,
    /// The summary area.
    Summary,
}

/// What a block of the array is for, by the geometry of the volume on it.
#[derive(Clone, Copy, Debug, PartialEq, Eq)]
pub enum Role {
    /// A block of the file system itself.
    System(SystemKind),
    /// A fragment for data, with the number of its group.
    Data(u32),
    /// A block past the volume's end.
    Outside,
}
