// Whether the parts of a state fit together, so that it can be saved.
ghost use Rattle.std.specs.Prelude.{◌≢◌, ◌↔◌, IfOk, IsTrue};
ghost use Rattle.std.specs.List.{All, AllPairs, Contains};
ghost use Rattle.dg_model.specs.Homes.{Ascend};
ghost use Rattle.dg_model.specs.Saves.{CanBeSaved};
ghost use Rattle.dg_model.specs.Shapes.{IsShape};
ghost use Rattle.dg_save.specs.Checks.{AreCopies, AreFiles, AreInOrder, AreRecent, IsElsewhere};
ghost use Rattle.dg_save.specs.Parts.{IsSpelled};
ghost use Rattle.dg_save.specs.States.{state_of};

use crate::sites::are_sites;
use crate::{Home, Homes, NoMemory, Phase, SavedState, Shape};
use std::alloc::Global;

/// Whether the numbers are those of an array.
pub fn is_shape(shape: &Shape) -> bool
    ensures { IsTrue result ↔ IsShape shape.now }
{
    Shape::check(
        shape.l,
        shape.n,
        u32::from(shape.b),
        shape.k,
        u32::from(shape.m),
    )
    .is_some()
}

/// Whether the state can be saved. It takes a byte for each slot of the array.
pub fn can_be_saved(alloc: Global, state: &SavedState) -> Result<bool, NoMemory>
    requires shape { IsShape state.now.shape }
    requires spelled { IsSpelled state.now.shape (state_of state.now) }
    ensures { IfOk result (λ can. IsTrue can ↔ CanBeSaved (state_of state.now)) }
{
    if !are_files(state) {
        return Ok(false);
    }
    are_sites(alloc, &state.shape, state.sites.as_vec())
}

/// Whether the homes, the copies and the inodes that were read last fit together.
fn are_files(state: &SavedState) -> bool
    ensures { IsTrue result ↔ AreFiles (state_of state.now) }
{
    let homes = &state.homes;
    homes.as_slice().len() <= state.shape.n as usize
        && are_homes(&state.shape, homes)
        && are_homes(&state.shape, &state.copies)
        && are_copies(state.phase, &state.copies, homes)
        && are_recent(state.recent.as_slice())
}

/// Whether the inodes rise, and each home is on a boundary of the array.
fn are_homes(shape: &Shape, homes: &Homes) -> bool
    ensures { IsTrue result ↔ AreInOrder shape.now homes.now }
{
    homes.ascend() && homes.as_slice().iter().all(|home| home.boundary < shape.b)
}

/// Whether there are none, or the array is settled and each is of a file with its home elsewhere.
fn are_copies(phase: Phase, copies: &Homes, homes: &Homes) -> bool
    requires { Ascend homes.now }
    ensures { IsTrue result ↔ AreCopies phase copies.now homes.now }
{
    match phase {
        Phase::Settled => are_elsewhere(copies.as_slice(), homes),
        _ => copies.as_slice().is_empty(),
    }
}

fn are_elsewhere(copies: &[Home], homes: &Homes) -> bool
    requires { Ascend homes.now }
    ensures { IsTrue result ↔ All (IsElsewhere homes.now) copies.now }
{
    for copy in copies {
        if !is_elsewhere(copy, homes) {
            return false;
        }
    }
    true
}

/// Whether the file of the copy has its home on another boundary.
fn is_elsewhere(copy: &Home, homes: &Homes) -> bool
    requires { Ascend homes.now }
    ensures { IsTrue result ↔ IsElsewhere homes.now copy.now }
{
    match homes.home_of(copy.inode) {
        Some(home) => home != copy.boundary,
        None => false,
    }
}

/// Whether there are at most sixteen, of which no two are equal.
fn are_recent(inodes: &[u32]) -> bool
    ensures { IsTrue result ↔ AreRecent inodes.now }
{
    inodes.len() <= 16 && are_distinct(inodes)
}

fn are_distinct(inodes: &[u32]) -> bool
    ensures { IsTrue result ↔ AllPairs (λ i j. i ≢ j) inodes.now }
{
    for place in 0..inodes.len() {
        if stands_in(&inodes[..place], inodes[place]) {
            return false;
        }
    }
    true
}

fn stands_in(inodes: &[u32], inode: u32) -> bool
    ensures { IsTrue result ↔ Contains inodes.now inode }
{
    inodes.contains(&inode)
}
