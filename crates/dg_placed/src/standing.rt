// On which boundaries the sites of one block are.
ghost use Rattle.std.specs.Prelude.{◌≡◌, ◌==◌, ◌++◌, ◌↔◌, ◌<◌, ℕ, IsTrue, option_to_list, take, true};
ghost use Rattle.std.specs.List.{list_any};
ghost use Rattle.dg_model.specs.Plans.{places_of};
ghost use Rattle.dg_model.specs.Shapes.{IsShape};
ghost use Rattle.dg_model.specs.Tables.{stands_on};
ghost use Rattle.dg_placed.specs.Standing.{StandOnJust};

use dg_map::{Shape, Site};

/// Whether one of the sites is on the boundary.
fn are_on(sites: &[Site], boundary: u8) -> bool
    ensures { result ≡ stands_on boundary sites.now }
{
    for site in sites {
        if site.boundary == boundary {
            return true;
        }
    }
    false
}

/// Whether the boundary is one of these.
fn is_one_of(boundary: u8, boundaries: &[u8]) -> bool
    ensures { result ≡ list_any (λ t. t == boundary) boundaries.now }
{
    for other in boundaries {
        if *other == boundary {
            return true;
        }
    }
    false
}

/// Whether each of the boundaries has one of the sites.
fn are_on_all(sites: &[Site], boundaries: &[u8]) -> bool
    ensures { IsTrue result ↔ ((s : ℕ) → list_any (λ t. t == s) boundaries.now ≡ true → stands_on s sites.now ≡ true) }
{
    for boundary in boundaries {
        if !are_on(sites, *boundary) {
            return false;
        }
    }
    true
}

/// Whether each of the sites is on one of the boundaries.
fn are_on_these(sites: &[Site], boundaries: &[u8]) -> bool
    ensures { IsTrue result ↔ ((s : ℕ) → stands_on s sites.now ≡ true → list_any (λ t. t == s) boundaries.now ≡ true) }
{
    for site in sites {
        if !is_one_of(site.boundary, boundaries) {
            return false;
        }
    }
    true
}

/// Whether the sites are on each of the boundaries, and on no other.
pub fn stand_on_just(sites: &[Site], boundaries: &[u8]) -> bool
    ensures { IsTrue result ↔ StandOnJust sites.now boundaries.now }
{
    are_on_all(sites, boundaries) && are_on_these(sites, boundaries)
}

/// Whether the sites are on just a file's home and the boundary with its copy, those of them that it has.
pub fn stand_on_homes(sites: &[Site], home: Option<u8>, copy: Option<u8>) -> bool
    ensures { IsTrue result ↔ StandOnJust sites.now (option_to_list home ++ option_to_list copy) }
{
    match (home, copy) {
        (Some(home), Some(copy)) => stand_on_just(sites, &[home, copy]),
        (Some(home), None) => stand_on_just(sites, &[home]),
        (None, Some(copy)) => stand_on_just(sites, &[copy]),
        (None, None) => stand_on_just(sites, &[]),
    }
}

/// The places of a block that has several: the first m of these.
fn places_of(shape: &Shape, block: u32) -> [u8; 16]
    requires shape { IsShape shape.now }
    requires block { block < shape.now.n }
    ensures { take shape.now.m result ≡ places_of shape.now block }
{
    let mut places = [0; 16];
    for place in 0..shape.m {
        let boundary = (block + u32::from(place)) % u32::from(shape.b);
        places[usize::from(place)] = boundary as u8;
    }
    places
}

/// Whether the sites of a block that has several places are on just these.
pub fn stand_on_places(sites: &[Site], shape: &Shape, block: u32) -> bool
    requires shape { IsShape shape.now }
    requires block { block < shape.now.n }
    ensures { IsTrue result ↔ StandOnJust sites.now (places_of shape.now block) }
{
    let places = places_of(shape, block);
    let (first, _) = places.split_at(usize::from(shape.m));
    stand_on_just(sites, first)
}
