//! Tests of the commands `trace` and `audit` over an image. They stand apart from the crate, so that both are proved side by side, and it only once.
#![tactic(auto)]

#[cfg(test)]
mod tests;
