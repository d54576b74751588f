//! What stands in the volumes that `ufs_build` builds, as they are read by the definitions of UFS1.
//!
//! Each law is a public function that does nothing, whose contract is the law.
#![tactic(auto)]

mod claims;
mod directories;
mod files;
mod groups;
mod inodes;
mod owners;
mod parts;
mod paths;
mod rooms;
mod structures;
mod superblocks;

pub use crate::claims::built_claims_are_of_files;
pub use crate::directories::built_directories_have_their_entries;
pub use crate::files::{built_blocks_are_found, built_files_have_their_contents};
pub use crate::groups::built_groups_are_read;
pub use crate::inodes::{built_inodes_are_read, files_of_items, other_inodes_are_unallocated};
pub use crate::owners::built_fragments_belong_to_files;
pub use crate::parts::{built_volumes_are_made_of_parts, parts_are_apart};
pub use crate::paths::{
    built_directories_are_listed, built_files_are_read, built_paths_lead_to_their_items,
};
pub use crate::rooms::{directories_have_a_chunk_an_entry, files_with_room_are_placed};
pub use crate::structures::{
    built_volumes_are_sound, built_volumes_have_no_malformation_but_sizes,
};
pub use crate::superblocks::{built_volumes_have_their_geometry, geometries_are_of_specs};
