// The input, through one buffer, in pieces of the source's choosing.
ghost use Rattle.std.specs.Prelude.{◌≡◌, ◌+◌, ◌-◌, ◌≤◌, ◌<◌, ◌++◌, [], ℕ, List, Option, length, take, slice_range, IfOk, IfSome, IfNone, OnErr};
ghost use Rattle.dg_io.specs.Faults.{HasCause};
ghost use Rattle.dg_io.specs.SourceReads.{LeavesSource};
ghost use Rattle.dg_io.specs.Told.{Told, IsSame};

use crate::pieces::{Scan, look, read_behind};
use dg_io::{Failed, NoMemory, Source};
use std::alloc::Global;

/// Bytes of the buffer. It has room for more than the longest line that can be accepted.
pub const ROOM: usize = 65536;

/// Bytes that were read and not yet used: those of the buffer from `at` to before `end`.
#[derive(Drop)]
pub struct Input {
    bytes: Vec<u8>,
    at: usize,
    end: usize,
    ghost size: { length bytes.items ≡ 65536 },
    ghost ordered: { at ≤ end },
    ghost within: { end ≤ 65536 },
}

/// What comes next in the input.
#[derive(Clone, Copy, Debug, PartialEq, Eq)]
pub enum LineStep {
    /// A line: where it begins in the buffer, and where its line feed stands.
    Line(usize, usize),
    /// The end of the input.
    End,
    /// Bytes without a line feed, as many as the limit.
    Full,
    /// So many bytes without a line feed, and then the end of the input.
    Cut(usize),
}

impl Input {
    ghost use Rattle.dg_run.specs.Endings.{GaveLines};
    ghost use Rattle.dg_run.specs.Inputs.{unread, ahead, empty_reads_of_step, line_in, TookStep, IsStep};
    ghost use Rattle.dg_run.specs.Bytes.{HasNoLineFeed};

    /// Nothing read yet. The buffer is taken here.
    pub fn new(alloc: Global) -> Result<Input, NoMemory>
        ensures { IfOk result (λ input. unread input ≡ []) }
    {
        match vec![in alloc; 0u8; ROOM] {
            Ok(bytes) => Ok(Input {
                bytes,
                at: 0,
                end: 0,
            }),
            Err(_) => Err(NoMemory),
        }
    }

    /// The bytes of a line that was taken.
    pub fn line(&self, from: usize, to: usize) -> &[u8]
        requires ordered { from ≤ to }
        requires within { to ≤ 65536 }
        ensures { result.now ≡ line_in self.now from to }
    {
        &self.bytes[from..to]
    }

    /// Moves the bytes to the front of the buffer.
    fn compact(&mut self)
        ensures unread { unread self.new ≡ unread self.old }
        ensures front { self.new.at ≡ 0 }
    {
        let at = self.at;
        let end = self.end;
        self.bytes.copy_within(at..end, 0);
        self.at = 0;
        self.end = end - at;
    }

    /// Sees that there is room behind the bytes.
    fn make_room(&mut self)
        requires { length (unread self.old) < 65536 }
        ensures unread { unread self.new ≡ unread self.old }
        ensures room { self.new.end < 65536 }
    {
        if self.end == ROOM {
            self.compact();
        }
    }

    /// Reads more bytes behind those that are there, and answers how many. None is the end of the input.
    fn fill<S: Source>(&mut self, source: &mut S) -> Result<usize, Failed>
        requires { length (unread self.old) < 65536 }
        ensures size { IfOk result (λ n. length (unread self.new) ≡ length (unread self.old) + n) }
        ensures front { IfOk result (λ n. take (length (unread self.old)) (unread self.new) ≡ unread self.old) }
        ensures end { IfOk result (λ n. n ≡ 0 → Told (λ before after. before ≡ unread self.old) (ahead self.old (S.left source.old)) (ahead self.new
            (S.left source.new))) }
        ensures same { Told IsSame (ahead self.old (S.left source.old)) (ahead self.new (S.left source.new)) }
        ensures err { OnErr result (unread self.new ≡ unread self.old) }
        ensures cause { HasCause (S.faults source.old) (S.faults source.new) result }
        ensures reads { LeavesSource S.calls S.left 1 source.old source.new }
        ensures gave_some { IfOk result (λ n. 0 < n → LeavesSource S.calls S.left 0 source.old source.new) }
    {
        self.make_room();
        let end = self.end;
        let n = read_behind(source, &mut self.bytes, end)?;
        self.end = end + n;
        Ok(n)
    }

    /// The bytes that wait in the buffer.
    fn waiting(&self) -> &[u8]
        ensures { result.now ≡ unread self.now }
    {
        &self.bytes[self.at..self.end]
    }

    /// Takes a line from the buffer, or finds that none can come: there is no line feed among the first bytes. The first
    /// `seen` ones are known to have none.
    fn find_line(&mut self, seen: usize, limit: usize) -> Option<LineStep>
        requires some { 0 < limit }
        requires seen { seen ≤ length (unread self.old) }
        requires none { HasNoLineFeed (take seen (unread self.old)) }
        ensures step { IfSome result (IsStep limit self.new) }
        ensures took { IfSome result (λ step. (left : Option (List ℕ)) → Told (TookStep limit self.new step) (ahead self.old left) (ahead self.new left)) }
        ensures same { IfNone result (unread self.new ≡ unread self.old) }
        ensures short { IfNone result (length (unread self.new) < limit) }
        ensures without { IfNone result (HasNoLineFeed (unread self.new)) }
        ensures there { IfSome result (λ step. empty_reads_of_step step ≡ 0) }
    {
        let from = self.at;
        match look(self.waiting(), seen, limit) {
            Scan::Found(n) => {
                self.at = from + n + 1;
                Some(LineStep::Line(from, from + n))
            }
            Scan::Unended => Some(LineStep::Full),
            Scan::More => None,
        }
    }

    /// Takes what comes next. A line has at most `limit` bytes, its line feed among them.
    pub fn next_line<S: Source>(&mut self, source: &mut S, limit: usize) -> Result<LineStep, Failed>
        requires some { 0 < limit }
        requires room { limit < 65536 }
        ensures step { IfOk result (IsStep limit self.new) }
        ensures took { IfOk result (λ step. Told (TookStep limit self.new step) (ahead self.old (S.left source.old)) (ahead self.new (S.left source.new))) }
        ensures err { OnErr result (Told (GaveLines []) (ahead self.old (S.left source.old)) (S.left source.new)) }
        ensures cause { HasCause (S.faults source.old) (S.faults source.new) result }
        ensures reads { LeavesSource S.calls S.left 1 source.old source.new }
        ensures step_reads { IfOk result (λ step. LeavesSource S.calls S.left (empty_reads_of_step step) source.old source.new) }
    {
        let mut seen = 0;
        loop {
            if let Some(step) = self.find_line(seen, limit) {
                return Ok(step);
            }
            seen = self.waiting().len();
            if self.fill(source)? == 0 {
                return Ok(if seen == 0 {
                    LineStep::End
                } else {
                    LineStep::Cut(seen)
                });
            }
        }
    }
}
