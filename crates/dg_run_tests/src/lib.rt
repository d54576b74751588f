//! Tests of the top call over racks in memory. They stand apart from the crate, so that both are proved side by side, and it only once.
#![tactic(auto)]

#[cfg(test)]
mod cat_tests;
#[cfg(test)]
mod fault_tests;
#[cfg(test)]
mod left_tests;
#[cfg(test)]
mod list_tests;
#[cfg(test)]
mod regroup_tests;
#[cfg(test)]
mod runs;
#[cfg(test)]
mod safe_tests;
#[cfg(test)]
mod tests;
#[cfg(test)]
mod uses;
