//! Reading a UFS1 volume by path, from a view of its blocks some of which may be gone.
//!
//! A read of a file or a directory first consults all that its answer needs, and hands nothing on; so
//! each refusal comes before any byte or entry. Then it reads it again, and hands on the bytes or
//! entries. No call takes memory but [`Levels::new`], [`parents`], [`tree`]
//! and [`list_marked`].
#![tactic(auto)]

mod blocks;
mod branches;
mod cats;
mod chunk_runs;
mod directories;
mod entries;
mod faults;
mod files;
mod listings;
mod lists;
mod looks;
mod marked_paths;
mod names;
mod naming;
mod path_lists;
mod superblocks;
mod trees;
mod walks;

pub use cats::cat;
pub use faults::{CatAnswer, LookFault};
pub use listings::Listing;
pub use lists::ls;
pub use looks::look;
pub use marked_paths::list_marked;
pub use naming::parents;
pub use path_lists::PathList;
pub use superblocks::geometry;
pub use trees::tree;
pub use ufs_model::{BadRead, BadSuper, Geometry, Inode, is_path};
pub use ufs_pointer::Levels;
