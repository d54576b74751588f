// Standard output as a sink. It tells no bytes.
ghost use Rattle.std.specs.Prelude.{None, ◌≡◌, ◌≤◌};
ghost use Rattle.std.specs.Io.{WritesAtMost};
ghost use Rattle.dg_model.specs.Causes.{Rose, RoseByOne};

use crate::reports::report;
use crate::searches::Search;
use crate::system::pause;
use dg_io::{Failed, Sink};
use std::io::{self, ErrorKind, Stdout, Write};

/// The reply where there is no saved array.
const NO_STATE: &[u8] = b"nostate\n";

/// Standard output, and how often a write to it has failed. The first failure is told on standard error. So is, in front of the reply that there
/// is no saved array, what was found of one.
#[derive(Drop)]
pub struct StandardOutput<'a> {
    rt: HostRuntime,
    stdout: Stdout,
    search: &'a Search,
    faults: u64,
    calls: u64,
}

/// Writes some bytes. A call that was interrupted is made again, and where there is no room yet it is waited for.
fn write_some(rt: HostRuntime, stdout: &mut Stdout, piece: &[u8]) -> io::Result<usize>
    ensures { WritesAtMost result piece.now }
{
    for _ in 0..u64::MAX {
        match stdout.write(piece) {
            Err(error) if error.kind() == ErrorKind::Interrupted => {}
            Err(error) if error.kind() == ErrorKind::WouldBlock => pause(rt),
            given => return given,
        }
    }
    Err(io::Error::from(ErrorKind::Interrupted))
}

impl<'a> StandardOutput<'a> {
    pub fn new(rt: HostRuntime, search: &'a Search) -> StandardOutput<'a> {
        StandardOutput {
            rt,
            stdout: rt.stdout(),
            search,
            faults: 0,
            calls: 0,
        }
    }

    // The call is counted.
    fn count(&mut self)
        ensures counted { RoseByOne self.old.calls self.new.calls }
        ensures faults { self.new.faults ≡ self.old.faults }
    {
        self.calls = self.calls.saturating_add(1);
    }

    // The call fails.
    fn fault(&mut self, error: &io::Error)
        ensures rose { Rose self.old.faults self.new.faults }
        ensures later { self.old.faults ≤ self.new.faults }
        ensures calls { self.new.calls ≡ self.old.calls }
    {
        if self.faults == 0 {
            report(self.rt, "standard output", "write", error);
        }
        self.faults = self.faults.saturating_add(1);
    }
}

impl<'a> Sink for StandardOutput<'a> {
    ghost taken = { λ _. None };

    ghost faults = { λ s. s.faults };

    ghost calls = { λ s. s.calls };

    ghost whole = { λ _. ⊥ };

    // A write that takes nothing of a piece has failed.
    fn write(&mut self, piece: &[u8]) -> Result<usize, Failed> {
        self.count();
        if piece == NO_STATE {
            self.search.tell(self.rt);
        }
        match write_some(self.rt, &mut self.stdout, piece) {
            Ok(n) if n > 0 || piece.is_empty() => Ok(n),
            Ok(_) => {
                self.fault(&io::Error::from(ErrorKind::WriteZero));
                Err(Failed)
            }
            Err(error) => {
                self.fault(&error);
                Err(Failed)
            }
        }
    }
}
