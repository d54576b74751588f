//! Opening a saved array: the members of a rack are found, their labels and bodies read, and the array that they say is made.
#![tactic(auto)]

mod bodies;
mod labels;
mod reopens;
mod rows;

pub use dg_io::NoMemory;
pub use dg_label::KeptLabel;
pub use dg_save::SavedState;
pub use reopens::{ReopenAnswer, Reopened, reopen};
