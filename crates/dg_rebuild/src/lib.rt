//! The refill of a member that was replaced: the blocks that are alive are copied, and dead ones are reaped on the way.
#![tactic(auto)]

mod rebuilds;
mod slots;

pub use dg_io::NoMemory;
pub use rebuilds::{RebuildAnswer, rebuild};
