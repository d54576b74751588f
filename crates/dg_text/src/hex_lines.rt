// The bytes of a file as lines of one length.
ghost use Rattle.std.specs.Prelude.{◌<◌, ◌≤◌};

use crate::counts::write_number;
use crate::replies::{put, write_bytes_line};
use dg_io::{Pieces, Sink};
use dg_model::Failed;

// Bytes of the longest line: those of the largest block.
const LONGEST_LINE: usize = 4096;

/// Takes the bytes of a file piece by piece, and writes them as `bytes HEX` lines of `l` bytes each, but for the last,
/// which `end` or `cut` writes. It takes no memory. Once it has failed, it's of no more use.
#[derive(Drop)]
pub struct HexLines<'a, K> {
    sink: &'a mut K,
    l: u32,
    line: [u8; LONGEST_LINE],
    used: usize,
    ghost within: { used < l },
    ghost longest: { l ≤ 4096 },
}

impl<'a, K: Sink> HexLines<'a, K> {
    ghost use Rattle.std.specs.Prelude.{◌≡◌, ◌≤◌, ◌<◌, ◌+◌, ◌++◌, [], length, take, codes, IfOk, OnOk, OnErr};
    ghost use Rattle.dg_io.specs.Told.{Told, Took, TookPart};
    ghost use Rattle.dg_io.specs.Faults.{HasCause};
    ghost use Rattle.dg_io.specs.SinkCalls.{LeavesSink};
    ghost use Rattle.dg_text.specs.HexLines.{waiting, rest_lines, TookBytes, TookBytesPart, Ends, EndsPart, last_line, length_of, loan_of, sink_of};
    ghost use Rattle.dg_text.specs.Replies.{file_text};

    /// A receiver that writes to this sink, in lines of `l` bytes.
    pub fn new(sink: &'a mut K, l: u32) -> HexLines<'a, K>
        requires some { 1 ≤ l }
        requires most { l ≤ 4096 }
        ensures l { length_of result ≡ l }
        ensures nothing { waiting result ≡ [] }
        ensures same { loan_of result ≡ sink.entry.ghost_name }
        ensures sink { sink_of result ≡ sink.old }
    {
        HexLines {
            sink,
            l,
            line: [0; LONGEST_LINE],
            used: 0,
        }
    }

    // Takes some bytes of the front of a piece, and writes the line if that is full then.
    fn fill(&mut self, bytes: &[u8]) -> Result<usize, Failed>
        requires { 0 < length bytes.now }
        ensures some { IfOk result (λ n. 0 < n) }
        ensures within { IfOk result (λ n. n ≤ length bytes.now) }
        ensures ok { IfOk result (λ n. TookBytes K.Sink self.old (take n bytes.now) self.new) }
        ensures err { OnErr result (TookBytesPart K.Sink self.old bytes.now self.new) }
        ensures cause { HasCause (K.faults (sink_of self.old)) (K.faults (sink_of self.new)) result }
    {
        let room = self.l as usize - self.used;
        let count = room.min(bytes.len());
        let (front, _) = bytes.split_at(count);
        let line = &mut self.line;
        let end = put(line, self.used, front);
        if end < self.l as usize {
            self.used = end;
            return Ok(count);
        }
        self.used = 0;
        write_bytes_line(&mut *self.sink, &line[..end])?;
        Ok(count)
    }

    // Writes the line of the bytes that wait, if there are any.
    fn flush(&mut self) -> Result<(), Failed>
        ensures ok { OnOk result (Told (Took (file_text (rest_lines (waiting self.old)))) (K.taken (sink_of self.old)) (K.taken (sink_of self.new))) }
        ensures err { OnErr result (Told (TookPart (file_text (rest_lines (waiting self.old)))) (K.taken (sink_of self.old)) (K.taken (sink_of self.new))) }
        ensures sink { loan_of self.new ≡ loan_of self.old }
        ensures cause { HasCause (K.faults (sink_of self.old)) (K.faults (sink_of self.new)) result }
        ensures calls { LeavesSink K.whole K.calls (length (rest_lines (waiting self.old))) (length (file_text (rest_lines (waiting self.old))))
            (sink_of self.old) (sink_of self.new) }
    {
        let end = self.used;
        if end == 0 {
            return Ok(());
        }
        self.used = 0;
        let line = &mut self.line;
        write_bytes_line(&mut *self.sink, &line[..end])
    }

    // Writes the line of the bytes that wait, and the one that ends the file.
    fn finish(&mut self, word: &[u8], n: u32) -> Result<(), Failed>
        requires { length word.now ≤ 4 }
        ensures ok { OnOk result (Told (Took (file_text (rest_lines (waiting self.old)) ++ last_line word.now n)) (K.taken (sink_of self.old))
            (K.taken (sink_of self.new))) }
        ensures err { OnErr result (Told (TookPart (file_text (rest_lines (waiting self.old)) ++ last_line word.now n)) (K.taken (sink_of self.old))
            (K.taken (sink_of self.new))) }
        ensures sink { loan_of self.new ≡ loan_of self.old }
        ensures cause { HasCause (K.faults (sink_of self.old)) (K.faults (sink_of self.new)) result }
        ensures calls { LeavesSink K.whole K.calls (length (rest_lines (waiting self.old)) + 1)
            (length (file_text (rest_lines (waiting self.old)) ++ last_line word.now n)) (sink_of self.old) (sink_of self.new) }
    {
        self.flush()?;
        write_number(&mut *self.sink, word, n as u128)
    }

    /// Writes the bytes that wait as the last line, and the line that ends a file of `n` bytes.
    pub fn end(&mut self, n: u32) -> Result<(), Failed>
        ensures ok { OnOk result (Ends K.Sink (last_line (codes "end ") n) self.old self.new) }
        ensures err { OnErr result (EndsPart K.Sink (last_line (codes "end ") n) self.old self.new) }
        ensures sink { loan_of self.new ≡ loan_of self.old }
        ensures cause { HasCause (K.faults (sink_of self.old)) (K.faults (sink_of self.new)) result }
    {
        self.finish(b"end ", n)
    }

    /// Writes the bytes that wait as the last line, and the line that ends a file of which only the first `n` bytes
    /// could be read.
    pub fn cut(&mut self, n: u32) -> Result<(), Failed>
        ensures ok { OnOk result (Ends K.Sink (last_line (codes "cut ") n) self.old self.new) }
        ensures err { OnErr result (EndsPart K.Sink (last_line (codes "cut ") n) self.old self.new) }
        ensures sink { loan_of self.new ≡ loan_of self.old }
        ensures cause { HasCause (K.faults (sink_of self.old)) (K.faults (sink_of self.new)) result }
    {
        self.finish(b"cut ", n)
    }
}

impl<K: Sink> Pieces for HexLines<'_, K> {
    ghost use Rattle.dg_text.specs.HexLines.{TookBytes, TookBytesPart};
    ghost use Rattle.dg_text.specs.HexLineLaws.{took_nothing, took_then, took_then_part, took_part_of};

    ghost took = { TookBytes K.Sink };

    ghost took_part = { TookBytesPart K.Sink };

    ghost faults = { λ s. K.faults s.sink.now };

    fn piece(&mut self, bytes: &[u8]) -> Result<(), Failed> {
        let mut at = 0;
        while at < bytes.len() {
            let (_, rest) = bytes.split_at(at);
            let count = self.fill(rest)?;
            at += count;
        }
        Ok(())
    }

    ghost nothing = { λ s. took_nothing K.Sink s };

    ghost then = { λ a b c x y first second. took_then K.Sink a b c x y first second };

    ghost then_part = { λ a b c x y first second. took_then_part K.Sink a b c x y first second };

    ghost part = { λ a b x y first. took_part_of K.Sink a b x y first };
}
