//! Tests of groups of disks with parity. They stand apart from the crate, so that both are proved side by side, and it only once.
#![tactic(auto)]

mod laws;
#[cfg(test)]
mod openings;
#[cfg(test)]
mod racks;
#[cfg(test)]
mod reopenings;
#[cfg(test)]
mod tests;

pub use laws::{noted_on, opened_again, reads_quietly, writes_quietly};
