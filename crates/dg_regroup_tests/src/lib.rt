//! Tests of going on after a loss. They stand apart from the crate, so that both are proved side by side, and it only once.
#![tactic(auto)]

#[cfg(test)]
mod cut_tests;
#[cfg(test)]
mod extra_tests;
#[cfg(test)]
mod live_tests;
#[cfg(test)]
mod opened_tests;
