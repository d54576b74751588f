// Free fragments.
ghost use Rattle.std.specs.Prelude.{◌≡◌, ◌≤◌, ◌<◌, ◌+◌, ◌*◌, ◌^◌, ℕ, Bool, true, false, Some, None, MatchOption, IfOk, length, replicate, not, slice_set};
ghost use Rattle.ufs_build.specs.Placements.{fits, is_used, lowest, marked};
ghost use Rattle.ufs_build.specs.Spaces.{IsSearched, NoneBelow};
ghost use Rattle.ufs_model.specs.Geometries.{IsGeometry};
ghost use Rattle.ufs_model.specs.Numbers.{all_below};

use dg_model::NoMemory;
use std::alloc::Global;
use ufs_model::Geometry;
use ufs_super::is_data_run;

/// The fragments that blocks of files have, and how far was searched for free ones.
#[derive(Debug, Drop)]
pub struct Space {
    /// For each fragment, whether a block has it.
    pub used: Vec<bool>,
    /// For each number of fragments, a fragment below which no block of so many may begin.
    pub searched: Vec<u32>,
}

/// Numbers of fragments that a block may have, from 0 on.
const COUNTS: usize = 9;

impl Space {
    /// All fragments of a volume, none of which has a block.
    pub fn new(alloc: Global, g: &Geometry) -> Result<Space, NoMemory>
        ensures used { IfOk result (λ space. space.used.items ≡ replicate g.now.size false) }
        ensures searched { IfOk result (λ space. IsSearched g.now space.used.items space.searched.items) }
    {
        let Ok(used) = vec![in alloc; false; g.size as usize] else {
            return Err(NoMemory);
        };
        let Ok(searched) = vec![in alloc; 0u32; COUNTS] else {
            return Err(NoMemory);
        };
        Ok(Space { used, searched })
    }
}

/// Whether a fragment has a block.
fn is_used(used: &[bool], f: u64) -> bool
    requires { f < 2 ^ 63 }
    ensures { result ≡ is_used used.now f }
{
    match used.get(f as usize) {
        Some(is) => *is,
        None => false,
    }
}

/// None of so many fragments has a block.
fn are_free(used: &[bool], a: u32, k: u32) -> bool
    ensures { result ≡ all_below (λ i. not (is_used used.now (a + i))) k }
{
    for i in 0..k {
        if is_used(used, u64::from(a) + u64::from(i)) {
            return false;
        }
    }
    true
}

/// Whether a block of so many fragments may begin at one.
#[tactic(auto, unfolding(crate::specs::Placements::fits))]
fn fits(g: &Geometry, used: &[bool], k: u32, a: u32) -> bool
    requires geometry { IsGeometry g.now }
    ensures { result ≡ fits g.now used.now k a }
{
    u64::from(a % g.frag) + u64::from(k) <= u64::from(g.frag)
        && is_data_run(g, a, k)
        && are_free(used, a, k)
}

/// The lowest fragment from one on at which a block of so many may begin, or the volume's end.
fn next_fit(g: &Geometry, used: &[bool], k: u32, from: u32) -> u32
    requires geometry { IsGeometry g.now }
    requires below { NoneBelow g.now used.now k from }
    requires inside { from ≤ g.now.size }
    ensures below { NoneBelow g.now used.now k result }
    ensures inside { result ≤ g.now.size }
    ensures here { result < g.now.size → fits g.now used.now k result ≡ true }
{
    for a in from..g.size {
        if fits(g, used, k, a) {
            return a;
        }
    }
    g.size
}

/// Sets a mark of a list.
fn set_mark(marks: &mut Vec<bool>, index: u64)
    requires { index < 2 ^ 63 }
    ensures { marks.new.items ≡ slice_set marks.old.items index true }
{
    if let Some(mark) = marks.get_mut(index as usize) {
        *mark = true;
    }
}

/// Gives so many fragments from one on to a block.
fn mark(used: &mut Vec<bool>, a: u32, k: u32)
    ensures { used.new.items ≡ marked used.old.items a k }
{
    for i in 0..k {
        set_mark(used, u64::from(a) + u64::from(i));
    }
}

/// Gives a block of so many fragments the lowest place where it may begin.
pub fn take_run(space: &mut Space, g: &Geometry, k: u32) -> Option<u32>
    requires geometry { IsGeometry g.now }
    requires count { k < 9 }
    requires searched { IsSearched g.now space.old.used.items space.old.searched.items }
    ensures place { result ≡ lowest g.now space.old.used.items k }
    ensures taken { MatchOption result (space.new.used.items ≡ space.old.used.items) (λ a. space.new.used.items ≡ marked space.old.used.items a k) }
    ensures searched { IsSearched g.now space.new.used.items space.new.searched.items }
{
    let from = space.searched[k as usize];
    let a = next_fit(g, &space.used, k, from);
    space.searched[k as usize] = a;
    if a == g.size {
        return None;
    }
    mark(&mut space.used, a, k);
    Some(a)
}
