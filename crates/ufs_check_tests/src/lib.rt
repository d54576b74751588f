//! Tests of the check of a volume, over images of volumes in which bytes are changed. They stand apart
//! from the check, so that both are proved side by side. Each kind of malformation and their order are shown by `tests/rows`.
//! Here are blocks that are gone, how often they are fetched, and tables of another volume.
#![tactic(auto)]

#[cfg(test)]
mod check_tests;
#[cfg(test)]
mod volumes;
