//! Tests of reading by path, over images of volumes. They stand apart from the crate, so that both are proved side by side, and it only once.
//! What whole files and directories give is shown by `tests/rows`. Here are blocks that are gone, receivers that fail, and what no reply shows.
#![tactic(auto)]

#[cfg(test)]
mod list_tests;
#[cfg(test)]
mod parent_tests;
#[cfg(test)]
mod path_tests;
#[cfg(test)]
mod tests;
#[cfg(test)]
mod tree_tests;
