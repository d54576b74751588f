//! The superblock of a UFS1 volume (`struct fs` in `fs.h` of 4.4BSD): its geometry, and what that
//! says of each fragment.
//!
//! Addresses are counted in fragments, and fragment f is the array's block f. A call that is handed
//! a geometry has the condition that it passes the tests of a superblock.
#![tactic(auto)]

mod checks;
mod places;
mod roles;
mod runs;
mod superblocks;

pub use crate::places::{cgbase, cgstart, end_of, group_of};
pub use crate::roles::role;
pub use crate::runs::{address, is_data_run};
pub use crate::superblocks::read_super;
pub use ufs_model::{Address, BadSuper, Geometry, Role, SystemKind};
