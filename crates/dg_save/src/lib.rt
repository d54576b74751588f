//! What is saved on each member of an array: a label of 512 bytes, and a body that says the state of the array. All bytes are handed
//! in and out; nothing is read or written here.
//!
//! There are two formats. Format 2 says what format 1 does, and the copies and the inodes that were read last. Numbers stand with the
//! lowest byte first.
#![tactic(auto)]

mod checks;
mod decodes;
mod encodes;
mod labels;
mod laws;
mod lengths;
mod marks;
mod parts;
mod readers;
mod site_lists;
mod sites;
mod states;

pub use decodes::decode;
pub use dg_model::{Home, NoMemory, Numbers, Phase, Shape, Site};
pub use dg_plan::Homes;
pub use encodes::encode;
pub use labels::{LABEL_BYTES, Label, is_own_label, read_label, write_label};
pub use laws::{bodies_are_unique, bodies_have_room, labels_are_unique};
pub use lengths::{body_place, member_length};
pub use marks::Marks;
pub use site_lists::SiteLists;
pub use states::SavedState;
