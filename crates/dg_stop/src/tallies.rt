// The own counts of a rack over a rack.
ghost use Rattle.std.specs.Prelude.{◌≡◌, ℕ, slice_index};
ghost use Rattle.dg_model.specs.Causes.{RoseByOne};
ghost use Rattle.dg_stop.specs.DoubleCommits.{Faults, FaultsOne};
ghost use Rattle.dg_stop.specs.Doubles.{Notes};

use crate::marks::fell_at;
use crate::phases::MEMBERS;

const NUMBERS: usize = 256;

/// How often each member has failed, and how many calls were made, and how many that write.
#[derive(Drop)]
pub struct Tally {
    pub faults: [u64; NUMBERS],
    pub calls: u64,
    pub writes: u64,
}

impl Tally {
    /// No call was made.
    pub fn new() -> Tally
        ensures faults { (q : ℕ) → slice_index result.faults q ≡ 0 }
        ensures calls { result.calls ≡ 0 }
        ensures writes { result.writes ≡ 0 }
    {
        Tally {
            faults: [0; NUMBERS],
            calls: 0,
            writes: 0,
        }
    }

    /// One more call on a member, which failed or not.
    pub fn note(&mut self, member: u8, failed: bool)
        ensures notes { Notes member failed self.old self.new }
        ensures writes { self.new.writes ≡ self.old.writes }
    {
        self.calls = self.calls.saturating_add(1);
        if failed {
            let count = self.faults[member as usize];
            self.faults[member as usize] = count.saturating_add(1);
        }
    }

    /// The same of a call that writes.
    pub fn note_write(&mut self, member: u8, failed: bool)
        ensures notes { Notes member failed self.old self.new }
        ensures writes { RoseByOne self.old.writes self.new.writes }
    {
        self.writes = self.writes.saturating_add(1);
        self.note(member, failed);
    }

    /// One more fault of a member, if it fell in a commit.
    fn note_fault(&mut self, member: u8, fell: bool)
        ensures { FaultsOne member fell self.old self.new }
    {
        if fell {
            let count = self.faults[member as usize];
            self.faults[member as usize] = count.saturating_add(1);
        }
    }

    /// One more fault of each member that served in a commit and serves no more.
    pub fn note_fallen(&mut self, served: &[bool; MEMBERS], serves: &[bool; MEMBERS])
        ensures { Faults served.now serves.now self.old self.new }
    {
        for number in 0..MEMBERS as u8 {
            self.note_fault(number, fell_at(served, serves, number));
        }
    }
}
