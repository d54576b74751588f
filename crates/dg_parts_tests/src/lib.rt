//! Tests of the parts of an array: the map, moves, refills, openings, and whether blocks are in their places. They stand apart from these crates, so that
//! each is proved only once.
#![tactic(auto)]

#[cfg(test)]
mod maps;
#[cfg(test)]
mod moves;
#[cfg(test)]
mod openings;
#[cfg(test)]
mod placements;
#[cfg(test)]
mod refills;
