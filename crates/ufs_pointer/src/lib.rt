//! Where the file blocks of an inode of a UFS1 volume stand, by its direct slots and through indirect
//! blocks (`NDADDR`, `NIADDR` in `dinode.h`, `NINDIR` in `fs.h` of 4.4BSD), and their bytes, read from
//! a view of the volume some of whose blocks may be gone.
//!
//! Addresses are counted in fragments, and fragment f is block f of the view.
#![tactic(auto)]

mod addresses;
mod answers;
mod areas;
mod chains;
mod file_blocks;
mod gaps;
mod indirect_blocks;
mod levels;
mod pointers;
mod superblocks;

pub use crate::answers::BlockAnswer;
pub use crate::areas::read_area;
pub use crate::chains::locate;
pub use crate::file_blocks::{FileBlock, block_count, bytes_in_block, read_file_block};
pub use crate::gaps::{gap_length, gaps_read_the_same};
pub use crate::levels::{Levels, file_block};
pub use crate::pointers::pointer;
pub use crate::superblocks::read_geometry;
pub use ufs_model::{Address, Chain};
