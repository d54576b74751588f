//! What a saved array is when it is opened again, whichever members are taken away meanwhile, as laws over the model of an array.
//!
//! Each law is a public function that does nothing, whose contract is the law. The laws speak of steps and openings whose bytes are told.
#![tactic(auto)]

mod openings;
mod runs;
mod saves;
#[cfg(test)]
mod tests;

pub use crate::openings::{newest_saves_are_found, saved_arrays_are_opened};
pub use crate::runs::{
    boundaries_stay_in_use, runs_end_with_saves, saved_blocks_are_read, saved_states_are_resumed,
};
pub use crate::saves::{
    blank_members_are_older, saves_are_found_on_what_is_left, saves_leave_the_state,
};
