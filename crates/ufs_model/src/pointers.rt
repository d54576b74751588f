/// The way from an inode to the pointer of one of its file blocks. Each index is below the number
/// of pointers of an indirect block.
#[derive(Clone, Copy, Debug, PartialEq, Eq)]
pub enum Chain {
    /// The direct slot.
    Direct(u8),
    /// The index in the single indirect block.
    One(u32),
    /// The indices in the double indirect block and in the block that it leads to.
    Two(u32, u32),
    /// The indices in the triple indirect block and in the two blocks that it leads to.
    Three(u32, u32, u32),
}

/// What a pointer leads to.
#[derive(Clone, Copy, Debug, PartialEq, Eq)]
pub enum Address {
    /// Nothing: the pointer is 0, and what it stands for reads as zeros.
    Hole,
    /// Fragments that aren't all data of one group.
    Wild,
    /// The first fragment, and the number of fragments.
    At(u32, u32),
}
