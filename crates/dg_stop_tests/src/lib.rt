//! Tests of commits that may be stopped at any call. They stand apart from the crate, so that both are proved side by side, and it only once.
#![tactic(auto)]

#[cfg(test)]
mod calls;
#[cfg(test)]
mod openings;
#[cfg(test)]
mod plain_readings;
#[cfg(test)]
mod stopped_openings;
#[cfg(test)]
mod stops;
#[cfg(test)]
mod tests;
