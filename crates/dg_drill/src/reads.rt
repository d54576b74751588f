// The files of a drill, read back.
ghost use Rattle.std.specs.Prelude.{◌≡◌, ◌≤◌, ◌<◌, ◌-◌, ◌^◌};
ghost use Rattle.dg_drill.specs.Chains.{HasRead, HasReadAll};
ghost use Rattle.dg_drill.specs.Drills.{read_event};
ghost use Rattle.ufs_drill.specs.Items.{bytes_of};
ghost use Rattle.dg_drill.specs.Outcomes.{outcome_by, with_outcome};
ghost use Rattle.dg_model.specs.States.{State};
ghost use Rattle.dg_volume.specs.Origins.{Always};
ghost use Rattle.dg_volume.specs.Volumes.{IsWell, Leaves, StandsIn, any_phase};

use crate::comparers::Comparer;
use dg_io::Rack;
use dg_volume::{AnyPhase, CatAnswer, Volume};
use ufs_drill::{file_path, next_size, sizes_of};

/// What became of reading a file.
#[derive(Clone, Copy, Debug, PartialEq, Eq)]
pub enum Outcome {
    /// All its bytes were given, and no others.
    Given,
    /// A block that it needs is gone.
    Unavailable,
    /// Anything else.
    Other,
}

/// What became of reading files.
#[derive(Clone, Copy, Debug, PartialEq, Eq)]
pub struct Tally {
    /// How many were given.
    pub given: u32,
    /// How many bytes these have.
    pub bytes: u64,
    /// How many were unavailable.
    pub unavailable: u32,
}

impl Tally {
    /// Adds a file of so many bytes.
    fn add(&mut self, outcome: Outcome, size: u32)
        requires given { self.old.given < 2 ^ 32 - 1 }
        requires bytes { self.old.bytes < 2 ^ 63 }
        requires unavailable { self.old.unavailable < 2 ^ 32 - 1 }
        ensures { self.new ≡ with_outcome outcome size self.old }
    {
        match outcome {
            Outcome::Given => {
                self.given += 1;
                self.bytes += u64::from(size);
            }
            Outcome::Unavailable => self.unavailable += 1,
            Outcome::Other => {}
        }
    }
}

/// What became of reading a file, by the answer, and by whether just its bytes were given.
fn outcome_of(answer: CatAnswer, whole: bool) -> Outcome
    ensures { result ≡ outcome_by answer whole }
{
    match answer {
        CatAnswer::Given(_) => {
            if whole {
                Outcome::Given
            } else {
                Outcome::Other
            }
        }
        CatAnswer::Unavailable => Outcome::Unavailable,
        _ => Outcome::Other,
    }
}

/// Reads file `k`, of so many bytes, and compares it with what it should be.
fn read_file<R: Rack>(k: u32, size: u32, volume: &mut Volume<AnyPhase, R>) -> Outcome
    requires well { IsWell any_phase R.Rack volume.old }
    ensures leaves { Leaves any_phase any_phase R.Rack volume.old volume.new }
    ensures read { HasRead R.Rack volume.old (read_event k) (bytes_of k size) result volume.new }
{
    let mut comparer = Comparer::new(k, size);
    let answer = volume.cat(&file_path(k), &mut comparer);
    outcome_of(answer, comparer.is_whole())
}

/// Reads the files of a drill, one after another.
pub fn read_files<R: Rack>(seed: u64, files: u32, volume: &mut Volume<AnyPhase, R>) -> Tally
    requires well { IsWell any_phase R.Rack volume.old }
    requires few { files ≤ 2000 }
    ensures leaves { Leaves any_phase any_phase R.Rack volume.old volume.new }
    ensures runs { (state : State) → StandsIn any_phase R.Rack Always volume.old state → HasReadAll R.Rack seed state files result volume.new }
{
    let mut sizes = sizes_of(seed);
    let mut tally = Tally {
        given: 0,
        bytes: 0,
        unavailable: 0,
    };
    for k in 0..files {
        let size = next_size(&mut sizes, k);
        let outcome = read_file(k, size, volume);
        tally.add(outcome, size);
    }
    tally
}
