/// What is answered for a file block.
#[derive(Clone, Copy, Debug, PartialEq, Eq)]
pub enum BlockAnswer {
    /// Nothing: a pointer on the chain is 0, and the file block reads as zeros.
    Hole,
    /// The first fragment, and the number of fragments.
    At(u32, u32),
    /// A pointer on the chain leads to fragments that aren't all data of one group.
    Wild,
    /// A fragment of an indirect block on the chain is gone.
    Gone,
}
