//! Which slots of the array each block stands in.
//!
//! A block has a list of sites, in the order of taking. A site is a slot of a boundary, which both of its members have.
//! `K` slots of a boundary are counted, and one more, the spare slot, makes room for moves. A contract sees a `Map` as its
//! shape and each block's list of sites.
#![tactic(auto)]

mod bits;
mod boundary_slots;
mod faults;
mod maps;
mod renumbers;
mod restores;
mod site_lists;

pub use dg_model::{NoMemory, Shape, Site};
pub use faults::TakeFault;
pub use maps::Map;
