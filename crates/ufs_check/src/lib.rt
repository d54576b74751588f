//! What is wrong with a UFS1 volume, from a view of its blocks some of which may be gone: the first
//! malformation, or all, with what is noted beside them.
//!
//! Each pass goes once over one kind of structure, and keeps the numbers of each kind of fault that it
//! looks for. The pass over directories is made only where those before find nothing.
#![tactic(auto)]

mod checks;
mod directories;
mod entries;
mod faults;
mod fragments;
mod groups;
mod inodes;
mod limits;
mod links;
mod names;
mod notes;
mod owned_entries;
mod parents;
mod pointers;
mod reaches;
mod slots;
mod surveys;
mod unclaimed;
mod unnamed;
mod verdicts;

pub use crate::checks::check;
pub use crate::faults::{Faults, MetadataFaults, TreeFaults};
pub use crate::links::LinkFaults;
pub use crate::surveys::{Notes, survey};
pub use crate::verdicts::{DirectoryFaults, FragmentFaults, GroupFaults, InodeFaults, Verdict};
pub use ufs_model::{BadKind, BadSuper, Geometry};
pub use ufs_pointer::Levels;
