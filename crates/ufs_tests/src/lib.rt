//! Tests of the numbers, superblocks, group blocks, inodes and chunks of a volume. They stand apart from these crates, so that each is proved only once.
#![tactic(auto)]

#[cfg(test)]
mod directories;
#[cfg(test)]
mod groups;
#[cfg(test)]
mod inodes;
#[cfg(test)]
mod numbers;
#[cfg(test)]
mod superblocks;
#[cfg(test)]
mod volumes;
