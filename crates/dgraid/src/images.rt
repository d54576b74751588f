// Image files as a rack. It tells no bytes.
ghost use Rattle.std.specs.Prelude.{◌≡◌, ◌≢◌, ◌≤◌, ◌∷◌, [], ℕ, None, slice_index, IsErr, IsOk};
ghost use Rattle.std.proofs.lemmas.Bool.{false≢true};
ghost use Rattle.dg_io.specs.RackCalls.{RackCall};
ghost use Rattle.dg_model.specs.Causes.{Rose, RoseByOne};
ghost use Rattle.dgraid.specs.Images.{bytes_in, counts_in, disks_in, keeps_in, made_in, made_more, made_no_call, name_in, stands_in, steady_in, tells_in};

use crate::files::Purpose;
use crate::members::Members;
use crate::reports::report_member;
use crate::searches::Search;
use dg_io::{Failed, NoMemory, Rack};
use std::io;

/// Numbers that a member can have.
const NUMBERS: usize = 256;

/// The calls on a member, by the word for each that its failures are told with.
#[derive(Clone, Copy)]
enum Call {
    Blank,
    Attach,
    Read,
    Write,
    Extend,
}

impl Call {
    fn word(self) -> &'static str {
        match self {
            Call::Blank => "blank",
            Call::Attach => "attach",
            Call::Read => "read",
            Call::Write => "write",
            Call::Extend => "extend",
        }
    }

    // A bit of its own.
    fn bit(self) -> u8 {
        match self {
            Call::Blank => 1,
            Call::Attach => 2,
            Call::Read => 4,
            Call::Write => 8,
            Call::Extend => 16,
        }
    }
}

/// The members as image files in the current folder, and how often calls on each have failed. Of each member the first failure of each call
/// is told on standard error, anew once its image was made anew; `told` has a bit for each call of which that was done.
#[derive(Drop)]
pub struct ImageRack<'a> {
    rt: HostRuntime,
    members: Members<'a>,
    calls: u64,
    writes: u64,
    faults: [u64; NUMBERS],
    told: [u8; NUMBERS],
}

impl<'a> ImageRack<'a> {
    /// No file is open yet.
    pub fn new(
        rt: HostRuntime,
        purpose: Purpose,
        search: &'a Search,
    ) -> Result<ImageRack<'a>, NoMemory> {
        Ok(ImageRack {
            rt,
            members: Members::new(rt, purpose, search)?,
            calls: 0,
            writes: 0,
            faults: [0; NUMBERS],
            told: [0; NUMBERS],
        })
    }

    /// Closes all images. No call is made of them any more.
    pub fn close(&mut self) {
        self.members.let_all_go();
    }

    // Tells that the call failed, where that wasn't told of this member and call before.
    fn tell(&mut self, member: u8, call: Call, error: &io::Error)
        ensures calls { self.new.calls ≡ self.old.calls }
        ensures writes { self.new.writes ≡ self.old.writes }
        ensures faults { self.new.faults ≡ self.old.faults }
    {
        let told = self.told[member as usize];
        if told & call.bit() == 0 {
            self.told[member as usize] = told | call.bit();
            report_member(self.rt, member, call.word(), error);
        }
    }

    // The call fails.
    fn fault(&mut self, member: u8, call: Call, error: &io::Error) -> Result<(), Failed>
        ensures err { IsErr result }
        ensures calls { self.new.calls ≡ self.old.calls }
        ensures writes { self.new.writes ≡ self.old.writes }
        ensures rose { Rose (slice_index self.old.faults member) (slice_index self.new.faults member) }
        ensures later { slice_index self.old.faults member ≤ slice_index self.new.faults member }
        ensures others { (q : ℕ) → q ≢ member → slice_index self.new.faults q ≡ slice_index self.old.faults q }
    {
        self.tell(member, call, error);
        let count = self.faults[member as usize];
        self.faults[member as usize] = count.saturating_add(1);
        Err(Failed)
    }

    // What a call on the member's file gave.
    fn answer(&mut self, member: u8, call: Call, given: io::Result<()>) -> Result<(), Failed>
        ensures calls { self.new.calls ≡ self.old.calls }
        ensures writes { self.new.writes ≡ self.old.writes }
        ensures rose { IsErr result → Rose (slice_index self.old.faults member) (slice_index self.new.faults member) }
        ensures kept { IsOk result → slice_index self.new.faults member ≡ slice_index self.old.faults member }
        ensures later { slice_index self.old.faults member ≤ slice_index self.new.faults member }
        ensures others { (q : ℕ) → q ≢ member → slice_index self.new.faults q ≡ slice_index self.old.faults q }
    {
        match given {
            Ok(()) => Ok(()),
            Err(error) => self.fault(member, call, &error),
        }
    }
}

impl<'a> Rack for ImageRack<'a> {
    ghost name = { name_in };

    ghost bytes = { bytes_in };

    ghost counts = { counts_in };

    ghost stands = { stands_in };

    ghost steady = { steady_in };

    ghost tells = { tells_in };

    ghost keeps = { keeps_in };

    ghost disks = { disks_in };

    ghost made = { made_in };

    fn blank(&mut self, member: u8, length: u64) -> Result<(), Failed> {
        self.calls = self.calls.saturating_add(1);
        self.writes = self.writes.saturating_add(1);
        let given = self.members.blank(member, length);
        if given.is_ok() {
            self.told[member as usize] = 0;
        }
        self.answer(member, Call::Blank, given)
    }

    fn attach(&mut self, member: u8) -> Result<Option<u64>, Failed> {
        self.calls = self.calls.saturating_add(1);
        match self.members.attach(member) {
            Ok(found) => Ok(found),
            Err(error) => {
                self.fault(member, Call::Attach, &error)?;
                Ok(None)
            }
        }
    }

    fn read(&mut self, member: u8, place: u64, buf: &mut [u8]) -> Result<(), Failed> {
        self.calls = self.calls.saturating_add(1);
        let given = self.members.read(member, place, buf);
        self.answer(member, Call::Read, given)
    }

    fn write(&mut self, member: u8, place: u64, buf: &[u8]) -> Result<(), Failed> {
        self.calls = self.calls.saturating_add(1);
        self.writes = self.writes.saturating_add(1);
        let given = self.members.write(member, place, buf);
        self.answer(member, Call::Write, given)
    }

    fn extend(&mut self, member: u8, length: u64) -> Result<(), Failed> {
        self.calls = self.calls.saturating_add(1);
        self.writes = self.writes.saturating_add(1);
        let given = self.members.extend(member, length);
        self.answer(member, Call::Extend, given)
    }

    ghost made_none = { λ s. made_no_call s };

    ghost made_both = { λ a b c x y first second. made_more a b c x y first second };

    ghost after = { λ a b calls made. made };

    ghost tells_told = { λ s q h. false≢true h };

    ghost told = { λ s q h stand. absurd h };
}
