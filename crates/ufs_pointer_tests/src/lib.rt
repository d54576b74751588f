//! Tests of addresses and file blocks, over images of volumes. They stand apart from the crate, so that both are proved side by side, and it only once.
//! The edges of groups and both orders of bytes are shown by `tests/rows`. Here are triple indirect blocks, which no file of fewer than 2^32
//! bytes and blocks of 4096 reaches, and blocks that are gone.
#![tactic(auto)]

#[cfg(test)]
mod tests;
