//! The group blocks of a UFS1 volume (`struct cg` in `fs.h` of 4.4BSD), with the maps of used inodes
//! and of free fragments.
#![tactic(auto)]

mod blocks;
mod maps;

pub use crate::blocks::{group_block, read_group};
pub use crate::maps::{is_free, is_used};
pub use ufs_model::{BadGroup, Group};
