//! Tests of the volume over racks in memory. They stand apart from the crate, so that both are proved side by side, and it only once.
#![tactic(auto)]

#[cfg(test)]
mod calls;
#[cfg(test)]
mod checkpoint_faults;
#[cfg(test)]
mod cut_commits;
#[cfg(test)]
mod disk_faults;
#[cfg(test)]
mod double_commits;
#[cfg(test)]
mod even_blocks;
#[cfg(test)]
mod live_disks;
#[cfg(test)]
mod opened_tests;
#[cfg(test)]
mod regroup_faults;
#[cfg(test)]
mod regroup_tests;
#[cfg(test)]
mod settle_tests;
#[cfg(test)]
mod write_tests;
#[cfg(test)]
mod written;
