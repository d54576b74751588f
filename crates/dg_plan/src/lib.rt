//! Where each block of the array is to stand: the plan, by what the blocks are for, the directories of files and the homes that
//! files have.
#![tactic(auto)]

mod directories;
mod files;
mod home_lists;
mod kept;
mod laws;
mod marks;
mod parent_lists;
mod placings;
mod plans;
mod strays;
mod target_lists;
mod want_lists;

pub use dg_model::{Home, NoMemory, NoRoom, Parent, Shape, Want};
pub use home_lists::Homes;
pub use laws::targets_of_plans;
pub use parent_lists::Parents;
pub use plans::plan;
pub use target_lists::Targets;
pub use want_lists::Wants;
