//! What stays of a UFS1 volume that changes elsewhere: what is read of it by a path, while the blocks stay that this needs; its claims,
//! while its metadata stays; its malformations, while its structure stays. So a block that nothing claims and that is none of the
//! file system itself may change, and nothing of this does.
//!
//! Each law is a public function that does nothing, whose contract is the law.
#![tactic(auto)]

mod loose_blocks;
mod reaches;
mod readings;
mod structures;
#[cfg(test)]
mod tests;

pub use crate::loose_blocks::{
    change_of_a_loose_block, change_of_loose_blocks, needed_blocks_are_used,
};
pub use crate::reaches::{file_blocks_are_few, files_are_tame, indirects_by_geometry};
pub use crate::readings::{parts_are_local, readings_are_local};
pub use crate::structures::{
    directories_need_structure, same_metadata, same_structure, volumes_of_whole_blocks,
};
