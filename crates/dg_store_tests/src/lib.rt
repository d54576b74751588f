//! Tests of the store. They stand apart from the crate, so that both are proved side by side, and it only once.
#![tactic(auto)]

#[cfg(test)]
mod plain_tests;
#[cfg(test)]
mod refill_tests;
#[cfg(test)]
mod site_tests;
#[cfg(test)]
mod tests;
