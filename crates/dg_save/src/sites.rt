// Whether lists of sites are a table: each site one of the array, no slot under two blocks, and no block twice on one boundary.
ghost use Rattle.std.specs.Prelude.{◌≡◌, ◌<◌, ◌≤◌, ◌↔◌, ◌+◌, ◌*◌, IfOk, IsTrue, length, slice_set, true};
ghost use Rattle.std.specs.Bool.{MatchBool, OnTrue};
ghost use Rattle.dg_model.specs.Shapes.{IsShape};
ghost use Rattle.dg_model.specs.Tables.{IsTable, count_on};
ghost use Rattle.dg_save.specs.Checks.{CanTake, IsVacant, Marks, place_in, table_of};

use crate::{NoMemory, Shape, Site};
use std::alloc::Global;

/// Whether these lists, one for each block, are those of an array with these numbers. It takes a byte for each slot.
pub fn are_sites(alloc: Global, shape: &Shape, lists: &Vec<Vec<Site>>) -> Result<bool, NoMemory>
    requires shape { IsShape shape.now }
    requires blocks { length lists.now.items ≡ shape.now.n }
    ensures { IfOk result (λ are. IsTrue are ↔ IsTable (table_of shape.now lists.now.items)) }
{
    let Ok(mut taken) = vec![in alloc; false; shape.b as usize * (shape.k as usize + 1)] else {
        return Err(NoMemory);
    };
    for block in 0..shape.n as usize {
        if !take_sites(&mut taken, shape, &lists[block]) {
            return Ok(false);
        }
    }
    Ok(true)
}

/// Marks the slots of one more block, whose sites are on different boundaries, and in which no block stood.
fn take_sites(taken: &mut Vec<bool>, shape: &Shape, sites: &[Site]) -> bool
    requires { length taken.old.items ≡ shape.now.b * (shape.now.k + 1) }
    ensures can { IsTrue result ↔ CanTake shape.now taken.old.items sites.now }
    ensures taken { OnTrue result (Marks shape.now taken.old.items sites.now taken.new.items) }
{
    for place in 0..sites.len() {
        if is_on(&sites[..place], sites[place].boundary) {
            return false;
        }
        if !take_site(taken, shape, sites[place]) {
            return false;
        }
    }
    true
}

/// Whether one of the sites is on the boundary.
fn is_on(sites: &[Site], boundary: u8) -> bool
    ensures { MatchBool result (0 < count_on boundary sites.now) (count_on boundary sites.now ≡ 0) }
{
    for site in sites {
        if site.boundary == boundary {
            return true;
        }
    }
    false
}

/// Marks the slot of a site of the array in which no block stood.
fn take_site(taken: &mut Vec<bool>, shape: &Shape, site: Site) -> bool
    requires { length taken.old.items ≡ shape.now.b * (shape.now.k + 1) }
    ensures vacant { IsTrue result ↔ IsVacant shape.now taken.old.items site }
    ensures taken { OnTrue result (taken.new.items ≡ slice_set taken.old.items (place_in shape.now site) true) }
{
    if site.boundary >= shape.b || site.slot > shape.k {
        return false;
    }
    let place = place_of(shape, site);
    if taken[place] {
        return false;
    }
    taken[place] = true;
    true
}

/// The place of the slot among all slots.
fn place_of(shape: &Shape, site: Site) -> usize
    requires boundary { site.boundary < shape.now.b }
    requires slot { site.slot ≤ shape.now.k }
    ensures place { result ≡ place_in shape.now site }
    ensures within { result < shape.now.b * (shape.now.k + 1) }
{
    site.boundary as usize * (shape.k as usize + 1) + site.slot as usize
}
