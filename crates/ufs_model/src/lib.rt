//! The plain types of a UFS1 volume, and the definitions that the contracts of its readers cite.
//!
//! The volume is UFS1 with the 4.4BSD inode format: `ufs/ffs/fs.h` (superblock, cylinder groups),
//! `ufs/ufs/dinode.h` (inodes) and `ufs/ufs/dir.h` (directories). Addresses are counted in
//! fragments, and fragment f is the array's block f. A volume's content is a list of blocks, each a
//! list of bytes.
#![tactic(auto)]

mod chunks;
mod claims;
mod geometries;
mod group_maps;
mod inodes;
mod laws;
mod malformations;
mod numbers;
mod paths;
mod pointers;
mod reads;
mod roles;

pub use crate::chunks::{BadEntry, Found};
pub use crate::claims::ClaimSource;
pub use crate::geometries::{BadSuper, Geometry};
pub use crate::group_maps::{BadGroup, Group};
pub use crate::inodes::{INODE_BYTES, Inode, Kind, ROOT_INODE};
pub use crate::laws::{accepted_superblocks, first_malformations, own_blocks_of_groups};
pub use crate::malformations::BadKind;
pub use crate::numbers::{Endian, u16_at, u32_at, u64_at};
pub use crate::paths::{is_name, is_path, next_name, path_names};
pub use crate::pointers::{Address, Chain};
pub use crate::reads::{BadRead, PathRefusal};
pub use crate::roles::{Role, SystemKind};
