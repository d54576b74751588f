//! What the blocks of a volume belong to, kept write by write (`di_db`, `di_ib` in `dinode.h` of 4.4BSD).
//!
//! Addresses are counted in fragments, and fragment f is block f of the view.
#![tactic(auto)]

mod areas;
mod chains;
mod files;
mod fresh;
mod groups;
mod inferences;
mod inodes;
mod kinds;
mod levels;
mod pending;
mod pointers;
mod seen;
mod superblocks;
mod sweeps;
mod verdicts;
mod watches;
mod writes;

pub use crate::inferences::{Inference, Inferred, Moved};
pub use ufs_model::{ClaimSource, Geometry};
