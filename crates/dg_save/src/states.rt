use crate::{Homes, Marks, Numbers, Phase, Shape, SiteLists};

/// The state of an array, as it is saved on each member.
#[derive(Debug, Drop)]
pub struct SavedState {
    pub shape: Shape,
    pub phase: Phase,
    /// By member: whether it is good. One that is being refilled isn't.
    pub good: Marks,
    /// By block: its sites, those of copies among them.
    pub sites: SiteLists,
    /// By block: whether it is pending.
    pub pending: Marks,
    /// The homes of files, ascending by inode.
    pub homes: Homes,
    /// The boundaries of copies, ascending by inode. None but of a settled array.
    pub copies: Homes,
    /// The inodes that were read last, the latest first.
    pub recent: Numbers,
}
