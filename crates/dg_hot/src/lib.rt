//! Popular files: the inodes that were read last, and copies of their files on a second boundary.
#![tactic(auto)]

mod copies;
mod emptiest;
mod home_lists;
mod hot;
mod spreads;

pub use dg_io::NoMemory;
pub use dg_plan::Homes;
pub use hot::Hot;
pub use spreads::{DiffuseAnswer, diffuse};
