//! Tests of the lines of traces and of replies. They stand apart from the crate, so that both are proved side by side, and it only once.
#![tactic(auto)]

#[cfg(test)]
mod line_tests;
#[cfg(test)]
mod tests;
