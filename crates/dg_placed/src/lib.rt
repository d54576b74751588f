//! Whether each block of an array is in its place.
#![tactic(auto)]

mod files;
mod places;
mod standing;

pub use dg_io::NoMemory;
pub use places::is_placed;
