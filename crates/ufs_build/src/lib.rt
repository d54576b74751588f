//! Volumes made of files, as images, and the order in which a trace writes the blocks of an image.
#![tactic(auto)]

mod addresses;
mod builds;
mod directories;
mod entries;
mod files;
mod images;
mod items;
mod maps;
mod nodes;
mod parents;
mod parts;
mod paths;
mod placings;
mod refusals;
mod spaces;
mod traces;
mod volumes;

pub use builds::build;
pub use dg_words::Order;
pub use items::{Item, ItemKind, Items};
pub use refusals::{BuildRefused, What};
pub use traces::trace_order;
pub use volumes::{Spec, volume_of_spec};
