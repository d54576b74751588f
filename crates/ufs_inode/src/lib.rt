//! The inodes of a UFS1 volume (`struct dinode` in `dinode.h` of 4.4BSD): their fields, kinds and
//! places, and what their slots lead to.
//!
//! An inode has fifteen slots, each with a pointer that counts fragments: 0 to 11 are the direct
//! ones, 12 to 14 the indirect ones. Pointer 0 leads nowhere.
#![tactic(auto)]

mod inodes;
mod places;
mod slots;

pub use crate::inodes::{has_pointers, inode_at, read_inode};
pub use crate::places::{inodes_inside, inodes_near, place_of};
pub use crate::slots::{slot_address, slot_of, span};
pub use ufs_model::{Inode, Kind};
