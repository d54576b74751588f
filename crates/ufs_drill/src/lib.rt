//! The files of a drill (`items`), and the volume that they make, whose numbers are this project's own (`volumes`). Laws say that there is such
//! a volume for each drill, and how few blocks are whose (`laws`).
#![tactic(auto)]

mod items;
mod laws;
mod volumes;

pub use items::{byte_of, drill, file_path, next_size, sizes_of};
pub use laws::{drills_have_few_blocks, drills_have_volumes};
pub use volumes::drill_spec;
