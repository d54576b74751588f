// The own counts of a rack of groups.
ghost use Rattle.std.specs.Prelude.{◌≡◌};
ghost use Rattle.dg_model.specs.Causes.{RoseByOne};
ghost use Rattle.dg_parity.specs.Arrays.{HasNoCalls, Notes};

const NUMBERS: usize = 256;

/// How often each member has failed, and how many calls were made, and how many that write.
#[derive(Drop)]
pub struct Tally {
    pub(crate) faults: [u64; NUMBERS],
    pub(crate) calls: u64,
    pub(crate) writes: u64,
}

impl Tally {
    /// No call was made.
    pub(crate) fn new() -> Tally
        ensures { HasNoCalls result }
    {
        Tally {
            faults: [0; NUMBERS],
            calls: 0,
            writes: 0,
        }
    }

    /// One more call on a member, which failed or not.
    pub(crate) fn note(&mut self, member: u8, failed: bool)
        ensures notes { Notes member failed self.old self.new }
        ensures writes { self.new.writes ≡ self.old.writes }
    {
        self.calls = self.calls.saturating_add(1);
        if failed {
            let count = self.faults[member as usize];
            self.faults[member as usize] = count.saturating_add(1);
        }
    }

    /// The same of a call that writes.
    pub(crate) fn note_write(&mut self, member: u8, failed: bool)
        ensures notes { Notes member failed self.old self.new }
        ensures writes { RoseByOne self.old.writes self.new.writes }
    {
        self.writes = self.writes.saturating_add(1);
        self.note(member, failed);
    }
}
