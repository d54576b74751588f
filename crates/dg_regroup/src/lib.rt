//! Going on after a loss: a rack and a view of what is left of an array, and how its sites and homes are counted anew.
#![tactic(auto)]

mod cut_overs;
mod cut_views;
mod extras;
mod front_racks;
mod laws;
mod live_racks;
mod lives;
mod marks;
mod places;

pub use cut_overs::{CutOver, cut_over};
pub use cut_views::CutView;
pub use dg_model::NoMemory;
pub use extras::{Extra, read_extra, write_extra};
pub use front_racks::FrontRack;
pub use laws::{extra_bytes_are_unique, gone_blocks_are_cut, names_tell_boundaries};
pub use live_racks::LiveRack;
pub use lives::numbers_below;
