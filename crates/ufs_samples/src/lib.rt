//! The four small volumes that tests read, built from their files.
#![tactic(auto)]

mod items;
mod samples;

pub use dg_model::NoMemory;
pub use samples::{Which, sample_image};
