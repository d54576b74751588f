//! The label of an array: it is written on each member by a save, beside a body that says the array's state, and its seal is opened before
//! the members are written again.
#![tactic(auto)]

mod labels;
mod laws;
mod passes;
mod places;
mod saves;
mod seals;
#[cfg(test)]
mod tests;

pub use dg_io::NoMemory;
pub use labels::{KeptLabel, note_long, with_bit};
pub use laws::labels_are_left;
pub use places::keep_left;
pub use saves::{SaveAnswer, save};
pub use seals::open_seal;
