//! Moves of blocks to the boundaries that they are to stand on, one copy after another.
#![tactic(auto)]

mod cursors;
mod laws;
mod placements;
mod spares;
mod tends;

pub use dg_model::NoMemory;
pub use dg_plan::Targets;
pub use laws::limit_of_all;
pub use placements::missing;
pub use tends::{TendAnswer, tend};
