//! The words of the command line: each command has one way to be written, and all other words are refused.
//!
//! `command` looks at the name and at the number of words. The values behind the name are taken out of the words by
//! `clap` (`values`), which prints nothing, and are read by the rules of the trace.
#![tactic(auto)]

mod commands;
mod numbers;
mod values;
mod words;

pub use commands::{Command, Order, WordsRefused};
pub use words::{command, words_are_one_command};
