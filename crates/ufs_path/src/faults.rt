use ufs_model::BadRead;

/// Why a path leads to no inode, or why nothing is read of a volume.
#[derive(Clone, Copy, Debug, PartialEq, Eq)]
pub enum LookFault {
    /// A directory on the path has no entry with the name.
    NotFound,
    /// A name is looked for in something else than a directory.
    NotDirectory,
    /// The volume isn't as it has to be.
    Bad(BadRead),
    /// A block that is needed is gone.
    Unavailable,
}

/// What became of a `cat` or an `ls`. A refusal hands nothing on.
#[derive(Clone, Copy, Debug, PartialEq, Eq)]
pub enum CatAnswer {
    /// All was handed on: so many bytes of a file, or entries of a directory.
    Given(u32),
    /// A directory on the path has no entry with the name. Nothing was handed on.
    NotFound,
    /// A name is looked for in something else than a directory, or such a thing is to be listed. Nothing
    /// was handed on.
    NotDirectory,
    /// The volume isn't as it has to be. Nothing was handed on.
    Bad(BadRead),
    /// A block that is needed is gone. Nothing was handed on.
    Unavailable,
    /// The path leads to something else than a regular file. Nothing was handed on.
    NotRegular,
    /// A block that is needed became gone in this call, after the first so many bytes or entries were
    /// handed on.
    Cut(u32),
    /// The receiver failed, after some bytes or entries were handed on.
    SinkFault,
}
