// The lines of files that lost blocks. Each line of a path of a usual length is written by one call, without memory.
ghost use Rattle.std.specs.Prelude.{◌≡◌, ◌≤◌, ◌+◌, ◌++◌, length, take, codes, OnOk, OnErr};
ghost use Rattle.std.specs.Fmt.{decimal};
ghost use Rattle.dg_io.specs.Told.{Told, Took, TookPart};
ghost use Rattle.dg_io.specs.Faults.{HasCause};
ghost use Rattle.dg_io.specs.SinkCalls.{LeavesSink};
ghost use Rattle.std.specs.List.{sum_by};
ghost use Rattle.dg_text.specs.LineCalls.{path_calls, pieces};
ghost use Rattle.dg_text.specs.Replies.{ended_text, lost_line_of, lost_text};

use crate::counts::write_number;
use crate::listings::write_name;
use crate::replies::put;
use dg_io::Sink;
use dg_model::{Failed, LostPath};
use itoa::Buffer;

// Bytes of a line before its path: the word, and an inode's number of at most 10 digits with the space behind it.
const HEAD_ROOM: usize = 5 + 11;

// The longest path whose line is written by one call: that of an event. A path of a listing may be longer.
const LONGEST_PATH: usize = 1023;

// Bytes of the longest such line: those before the path, four for each byte of it, and the LF.
const LINE_ROOM: usize = HEAD_ROOM + 4 * LONGEST_PATH + 1;

/// Writes the lines of files that lost blocks, and the one that ends them.
pub fn write_lost<K: Sink>(sink: &mut K, files: &[LostPath], word: &[u8]) -> Result<(), Failed>
    requires word { length word.now ≤ 32 }
    ensures ok { OnOk result (Told (Took (ended_text (lost_text files.now) word.now (length files.now))) (K.taken sink.old) (K.taken sink.new)) }
    ensures err { OnErr result (Told (TookPart (ended_text (lost_text files.now) word.now (length files.now))) (K.taken sink.old) (K.taken sink.new)) }
    ensures cause { HasCause (K.faults sink.old) (K.faults sink.new) result }
    ensures calls { LeavesSink K.whole K.calls (sum_by path_calls files.now + 1)
        (length (ended_text (lost_text files.now) word.now (length files.now))) sink.old sink.new }
{
    write_files(sink, files)?;
    write_number(sink, word, files.len() as u128)
}

// Writes the lines of such files.
fn write_files<K: Sink>(sink: &mut K, files: &[LostPath]) -> Result<(), Failed>
    ensures ok { OnOk result (Told (Took (lost_text files.now)) (K.taken sink.old) (K.taken sink.new)) }
    ensures err { OnErr result (Told (TookPart (lost_text files.now)) (K.taken sink.old) (K.taken sink.new)) }
    ensures cause { HasCause (K.faults sink.old) (K.faults sink.new) result }
    ensures calls { LeavesSink K.whole K.calls (sum_by path_calls files.now) (length (lost_text files.now)) sink.old sink.new }
{
    for file in files {
        write_lost_line(sink, file.inode(), file.path())?;
    }
    Ok(())
}

/// Writes the line of a file that lost blocks.
pub fn write_lost_line<K: Sink>(sink: &mut K, inode: u32, path: &[u8]) -> Result<(), Failed>
    ensures ok { OnOk result (Told (Took (lost_line_of inode path.now)) (K.taken sink.old) (K.taken sink.new)) }
    ensures err { OnErr result (Told (TookPart (lost_line_of inode path.now)) (K.taken sink.old) (K.taken sink.new)) }
    ensures cause { HasCause (K.faults sink.old) (K.faults sink.new) result }
    ensures calls { LeavesSink K.whole K.calls (pieces 1023 (length path.now)) (length (lost_line_of inode path.now)) sink.old sink.new }
{
    let mut line = [0u8; LINE_ROOM];
    let head = spell_lost(&mut line, inode);
    write_name(sink, &mut line, head, path, LONGEST_PATH)
}

// Spells what such a line says before the path, and answers where it ends.
fn spell_lost(line: &mut [u8], inode: u32) -> usize
    requires { 16 ≤ length line.old }
    ensures end { result ≤ 16 }
    ensures text { take result line.new ≡ codes "lost " ++ (decimal inode ++ codes " ") }
{
    let mut digits = Buffer::new();
    let word = put(line, 0, b"lost ");
    let number = put(line, word, digits.format(inode).as_bytes());
    put(line, number, b" ")
}
