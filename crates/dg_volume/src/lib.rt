//! The typed volume: the flat array, what its blocks belong to, and what is known of it in its phase.
//!
//! A volume is loose as long as it is known what its blocks belong to. It is worn once a block was written while a boundary is lost.
//!
//! The label of the last save is kept. Where it is sealed, each call opens it on the good members before it writes the first of them.
#![tactic(auto)]

mod answers;
mod any;
mod audits;
mod besides;
mod commits;
mod copies;
mod cut_reads;
mod disks;
mod file_lists;
mod in_use;
mod left_lists;
mod lost_files;
mod lost_inodes;
mod opens;
mod paths;
mod phases;
mod plans;
mod queries;
mod refills;
mod regroups;
mod saves;
mod seals;
mod settled_paths;
mod settles;
mod volumes;
mod writes;

pub use audits::AuditAnswer;
pub use commits::CheckpointAnswer;
pub use copies::AnyDiffuse;
pub use dg_hot::{DiffuseAnswer, Hot};
pub use dg_label::SaveAnswer;
pub use dg_model::{NoMemory, Phase, Who};
pub use dg_store::{Boundary, Shape};
pub use disks::{DropDiskAnswer, MendDiskAnswer};
pub use opens::{OpenAnswer, open, open_kept};
pub use phases::{AnyPhase, InPhase, Loose, Settled, Worn};
pub use queries::WhoAnswer;
pub use refills::{RebuildAnswer, ReplaceAnswer};
pub use regroups::RegroupAnswer;
pub use settled_paths::{AnyHome, HomeAnswer, TreeAnswer};
pub use settles::{TendRun, Unsettled};
pub use ufs_path::{CatAnswer, Listing, LookFault, PathList};
pub use volumes::{FailAnswer, ReadAnswer, Volume};
pub use writes::{WriteAnswer, Wrote};
