//! The claims of a volume: which fragments are claimed, and by which slots of inodes and pointers of
//! indirect blocks (`di_db`, `di_ib` in `dinode.h` of 4.4BSD).
//!
//! Addresses are counted in fragments, and fragment f is block f of the view.
#![tactic(auto)]

mod claims;
mod inodes;
mod laws;
mod levels;
mod marks;
mod owners;
mod places;
mod runs;
mod scans;
mod spans;

pub use crate::claims::Claims;
pub use crate::inodes::read_fragment;
pub use crate::laws::{
    claims_of_sources, levels_of_claims, pointers_of_fragments, slots_of_inodes, tables_of_volumes,
};
pub use crate::runs::Run;
pub use crate::scans::scan;
pub use crate::spans::{pointer_run, slot_run};
pub use ufs_model::{ClaimSource, Geometry, Inode};
