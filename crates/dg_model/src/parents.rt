/// An inode that a directory names, and the least directory that names it.
#[derive(Clone, Copy, Debug, PartialEq, Eq)]
pub struct Parent {
    pub inode: u32,
    /// The directory's inode.
    pub directory: u32,
}
