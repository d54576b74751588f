//! What an array promises of the files of its volume, as laws over single steps: where a settled array has lost fewer boundaries than
//! blocks of directories have places, a file is given exactly where its home or its copy survives and no block was cut that it needs.
//!
//! Each law is a public function that does nothing, whose contract is the law. The laws speak of steps whose bytes are told.
#![tactic(auto)]

mod chains;
mod cut_blocks;
mod needs;
mod orders;
mod promises;
mod regroups;
mod resumes;
mod rooms;
mod steady;
#[cfg(test)]
mod tests;

pub use crate::chains::{reads_keep_their_promise, runs_keep_their_promise};
pub use crate::cut_blocks::{cut_blocks_leave_paths, uncut_blocks_stay};
pub use crate::needs::{
    blocks_have_one_owner, files_are_read, files_need_their_blocks, needed_blocks_have_reasons,
};
pub use crate::orders::{order_is_kept, settled_is_in_order};
pub use crate::promises::{
    cat_keeps_its_promise, cats_without_faults_lose_none, few_losses_leave_files_whole,
    homes_are_of_owners,
};
pub use crate::regroups::{homes_left_ascend, uncut_files_stay};
pub use crate::resumes::{
    opened_arrays_are_steady, settled_arrays_keep_their_promise, steady_runs_keep_their_promise,
};
pub use crate::rooms::plans_have_room;
pub use crate::steady::{blank_arrays_are_steady, steps_keep_steady};
