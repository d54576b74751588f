ghost use Rattle.std.specs.Prelude.{◌≡◌, Some, None, OnOk, OnErr};
ghost use Rattle.std.specs.Bool.{Decides};
ghost use Rattle.ufs_model.specs.declared.claims.ClaimSource.{ClaimSource};
ghost use Rattle.dg_claims.specs.Runs.{HasAny, HasAnyEntry, IsUpTo, entry_at, run_at, run_of};
ghost use Rattle.dg_claims.specs.declared.places.Place.{Place};

use crate::places::Place;
use dg_io::NoMemory;
use std::alloc::Global;
use std::collections::BTreeMap;
use std::marker::Model;

/// Fragments in a row.
#[derive(Clone, Copy, Debug, PartialEq, Eq)]
pub struct Run {
    /// The first fragment.
    pub first: u32,
    /// The number of fragments, at most those of a file block.
    pub count: u8,
}

/// The fragments that each source claims. A source that claims none isn't there.
#[derive(Drop)]
pub struct Runs {
    map: BTreeMap<Place, Run>,
}

impl Model for Runs {
    ghost use Rattle.std.specs.Prelude.{List};
    ghost use Rattle.ufs_model.specs.declared.claims.ClaimSource.{ClaimSource};
    ghost use Rattle.dg_claims.specs.Runs.{by_source};
    ghost use Rattle.dg_claims.specs.declared.runs.Run.{Run};

    ghost Value = { List (ClaimSource × Run) };

    ghost view = { λ runs. by_source runs.map.entries };
}

impl Runs {
    /// No source claims anything.
    pub fn new(alloc: Global) -> Runs
        ensures { (source : ClaimSource) → run_of result source ≡ None }
    {
        Runs {
            map: BTreeMap::new(alloc),
        }
    }

    /// What the source claims.
    pub fn get(&self, place: Place) -> Option<Run>
        ensures { result ≡ run_at self.now place }
    {
        get_in(&self.map, place)
    }

    /// Whether a source from the first to the last of these claims something.
    pub fn has_any(&self, first: Place, last: Place) -> bool
        requires { IsUpTo first last }
        ensures { Decides result (HasAny self.now first last) }
    {
        has_any_in(&self.map, first, last)
    }

    /// Makes this run what the source claims.
    pub fn put(&mut self, place: Place, run: Run) -> Result<(), NoMemory>
        ensures place { OnOk result (run_at self.new place ≡ Some run) }
        ensures others { OnOk result ((other : Place) → (other ≡ place → ⊥) → run_at self.new other ≡ run_at self.old other) }
        ensures refused { OnErr result (self.new ≡ self.old) }
    {
        put_in(&mut self.map, place, run)
    }

    /// The source claims nothing from now on.
    pub fn remove(&mut self, place: Place)
        ensures place { run_at self.new place ≡ None }
        ensures others { (other : Place) → (other ≡ place → ⊥) → run_at self.new other ≡ run_at self.old other }
    {
        remove_in(&mut self.map, place);
    }
}

/// Whether a source from the first to the last of these is in a map.
fn has_any_in(map: &BTreeMap<Place, Run>, first: Place, last: Place) -> bool
    requires { IsUpTo first last }
    ensures { Decides result (HasAnyEntry map.now.entries first last) }
{
    map.range(first..=last).next().is_some()
}

/// The run of a source in a map.
fn get_in(map: &BTreeMap<Place, Run>, place: Place) -> Option<Run>
    ensures { result ≡ entry_at map.now.entries place }
{
    map.get(&place).copied()
}

/// Makes this the run of a source in a map.
fn put_in(map: &mut BTreeMap<Place, Run>, place: Place, run: Run) -> Result<(), NoMemory>
    ensures place { OnOk result (entry_at map.new.entries place ≡ Some run) }
    ensures others { OnOk result ((other : Place) → (other ≡ place → ⊥) → entry_at map.new.entries other ≡ entry_at map.old.entries other) }
    ensures refused { OnErr result (map.new.entries ≡ map.old.entries) }
{
    match map.insert(place, run) {
        Ok(_) => Ok(()),
        Err(_) => Err(NoMemory),
    }
}

/// Takes a source out of a map.
fn remove_in(map: &mut BTreeMap<Place, Run>, place: Place)
    ensures place { entry_at map.new.entries place ≡ None }
    ensures others { (other : Place) → (other ≡ place → ⊥) → entry_at map.new.entries other ≡ entry_at map.old.entries other }
{
    map.remove(&place);
}
