//! Tests of volumes that are built: they are sound, their files are read back, and what can't be built is refused. They stand
//! apart from the builder, which doesn't stand on the readers.
#![tactic(auto)]

#[cfg(test)]
mod build_tests;
#[cfg(test)]
mod law_tests;
#[cfg(test)]
mod order_tests;
#[cfg(test)]
mod refusal_tests;
#[cfg(test)]
mod row_tests;
#[cfg(test)]
mod volumes;
