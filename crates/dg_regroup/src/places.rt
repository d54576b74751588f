// The places of boundaries without the lost ones.
ghost use Rattle.std.specs.Prelude.{◌≡◌, ◌≤◌, length};
ghost use Rattle.dg_io.specs.Reduced.{places_left};
ghost use Rattle.dg_regroup.specs.Cuts.{new_place};

use crate::lives::is_lost;
use std::marker::Model;

const BOUNDARIES: usize = 16;

/// Which boundaries are left, and the place that each of them gets. Contracts see their old places, ascending.
#[derive(Drop)]
pub struct Places {
    lost: u16,
    boundaries: u8,
    places: [Option<u8>; BOUNDARIES],
    count: u8,
}

impl Model for Places {
    ghost use Rattle.std.specs.Prelude.{List, ℕ};
    ghost use Rattle.dg_regroup.specs.PlaceTables.{ArePlaces, left_by};

    ghost Value = { List ℕ };

    ghost view = { left_by };

    ghost invariant = { ArePlaces };
}

impl Places {
    ghost use Rattle.std.specs.Prelude.{◌≡◌, ◌≤◌, ℕ, None, length, slice_index_or};
    ghost use Rattle.dg_io.specs.Reduced.{places_left};
    ghost use Rattle.dg_regroup.specs.Cuts.{new_place};

    /// The places of so many boundaries without the lost ones: bit s is set for boundary s.
    pub fn new(lost: u16, boundaries: u8) -> Places
        requires { boundaries ≤ 16 }
        ensures { result ≡ places_left lost boundaries }
    {
        let mut places = [None; BOUNDARIES];
        let mut count = 0;
        for s in 0..boundaries {
            if !is_lost(lost, s as usize) {
                places[s as usize] = Some(count);
                count += 1;
            }
        }
        Places {
            lost,
            boundaries,
            places,
            count,
        }
    }

    /// The new place of each boundary, if it is left.
    pub fn as_slice(&self) -> &[Option<u8>]
        ensures { (s : ℕ) → slice_index_or result.now s None ≡ new_place self.now s }
    {
        &self.places
    }

    /// How many boundaries are left.
    pub fn count(&self) -> u8
        ensures { result ≡ length self.now }
    {
        self.count
    }

    /// The new place of a boundary, if it is left.
    pub fn place(&self, boundary: u8) -> Option<u8>
        ensures { result ≡ new_place self.now boundary }
    {
        match self.places.get(boundary as usize) {
            Some(place) => *place,
            None => None,
        }
    }
}
