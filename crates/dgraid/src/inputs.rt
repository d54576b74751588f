// Standard input as a source. It tells no bytes.
ghost use Rattle.std.specs.Prelude.{None, ◌≡◌, ◌≤◌};
ghost use Rattle.std.specs.Io.{ReadsAtMost};
ghost use Rattle.dg_model.specs.Causes.{Rose};

use crate::reports::report;
use crate::system::pause;
use dg_io::{Failed, Source};
use std::io::{self, ErrorKind, Read, Stdin};

/// Standard input, and how often a read of it has failed. The first failure is told on standard error.
#[derive(Drop)]
pub struct StandardInput {
    rt: HostRuntime,
    stdin: Stdin,
    faults: u64,
    calls: u64,
}

/// Reads some bytes. A call that was interrupted is made again, and where there are none yet they are waited for.
fn read_some(rt: HostRuntime, stdin: &mut Stdin, buf: &mut [u8]) -> io::Result<usize>
    ensures { ReadsAtMost result buf.new }
{
    for _ in 0..u64::MAX {
        let given = stdin.read(buf);
        match given {
            Err(error) if error.kind() == ErrorKind::Interrupted => {}
            Err(error) if error.kind() == ErrorKind::WouldBlock => pause(rt),
            given => return given,
        }
    }
    Err(io::Error::from(ErrorKind::Interrupted))
}

impl StandardInput {
    pub fn new(rt: HostRuntime) -> StandardInput {
        StandardInput {
            rt,
            stdin: rt.stdin(),
            faults: 0,
            calls: 0,
        }
    }

    // The call fails.
    fn fault(&mut self, error: &io::Error)
        ensures rose { Rose self.old.faults self.new.faults }
        ensures later { self.old.faults ≤ self.new.faults }
        ensures calls { self.new.calls ≡ self.old.calls }
    {
        if self.faults == 0 {
            report(self.rt, "standard input", "read", error);
        }
        self.faults = self.faults.saturating_add(1);
    }
}

impl Source for StandardInput {
    ghost left = { λ _. None };

    ghost faults = { λ s. s.faults };

    ghost calls = { λ s. s.calls };

    fn read(&mut self, buf: &mut [u8]) -> Result<usize, Failed> {
        self.calls = self.calls.saturating_add(1);
        match read_some(self.rt, &mut self.stdin, buf) {
            Ok(n) => Ok(n),
            Err(error) => {
                self.fault(&error);
                Err(Failed)
            }
        }
    }
}
