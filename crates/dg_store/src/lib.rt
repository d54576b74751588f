//! The flat array over mirrored boundaries: each block reads as it was last written, until all its sites are lost.
#![tactic(auto)]

mod boundaries;
mod checkpoints;
mod disks;
mod lengths;
mod places;
mod reductions;
mod sites;
mod store;
mod views;

pub use checkpoints::standing_is_sound;
pub use dg_io::Fetched;
pub use dg_map::Map;
pub use dg_model::{Shape, Site};
pub use dg_pair::{Boundary, CopyAnswer, ExtendAnswer, FailAnswer, NoteAnswer, ReplaceAnswer};
pub use lengths::member_length;
pub use reductions::bits_leave_the_live;
pub use store::{PlaceAnswer, Store, StoreWrite};
