// Lines that end in numbers. Each is written by one call, without memory.
ghost use Rattle.std.specs.Prelude.{◌≡◌, ◌≤◌, ◌+◌, ◌++◌, length, take, codes, OnOk, OnErr};
ghost use Rattle.std.specs.Fmt.{decimal};
ghost use Rattle.dg_io.specs.Told.{Told, Took, TookPart};
ghost use Rattle.dg_io.specs.Faults.{HasCause};
ghost use Rattle.dg_io.specs.SinkCalls.{LeavesSink};
ghost use Rattle.dg_io.specs.SinkLines.{LeavesLines};

use crate::replies::put;
use dg_io::{Sink, write_all};
use dg_model::Failed;
use itoa::Buffer;

// Room for a line with one number, which has at most 40 digits.
const NUMBER_ROOM: usize = 96;

// Room for a line with two numbers, each of at most 40 digits.
const NUMBERS_ROOM: usize = 160;

/// Writes a line of a word of at most 32 bytes, its space among them, and a number.
pub fn write_number<K: Sink>(sink: &mut K, word: &[u8], n: u128) -> Result<(), Failed>
    requires { length word.now ≤ 32 }
    ensures ok { OnOk result (Told (Took (word.now ++ (decimal n ++ codes "\n"))) (K.taken sink.old) (K.taken sink.new)) }
    ensures err { OnErr result (Told (TookPart (word.now ++ (decimal n ++ codes "\n"))) (K.taken sink.old) (K.taken sink.new)) }
    ensures cause { HasCause (K.faults sink.old) (K.faults sink.new) result }
    ensures calls { LeavesSink K.whole K.calls 1 (length (word.now ++ (decimal n ++ codes "\n"))) sink.old sink.new }
    ensures lines { OnOk result (LeavesLines 255 K.whole K.calls K.taken sink.old sink.new) }
{
    let mut line = [0u8; NUMBER_ROOM];
    let end = spell_number(&mut line, word, n);
    write_all(sink, &line[..end])
}

/// Writes a line of a word, a number, a word between and another number. Each word has at most 32 bytes, its spaces among
/// them.
pub fn write_numbers<K: Sink>(
    sink: &mut K,
    word: &[u8],
    n: u32,
    between: &[u8],
    m: u32,
) -> Result<(), Failed>
    requires word { length word.now ≤ 32 }
    requires between { length between.now ≤ 32 }
    ensures ok { OnOk result (Told (Took (word.now ++ (decimal n ++ (between.now ++ (decimal m ++ codes "\n"))))) (K.taken sink.old) (K.taken sink.new)) }
    ensures err { OnErr result (Told (TookPart (word.now ++ (decimal n ++ (between.now ++ (decimal m ++ codes "\n"))))) (K.taken sink.old) (K.taken sink.new)) }
    ensures cause { HasCause (K.faults sink.old) (K.faults sink.new) result }
    ensures calls { LeavesSink K.whole K.calls 1 (length (word.now ++ (decimal n ++ (between.now ++ (decimal m ++ codes "\n"))))) sink.old sink.new }
{
    let mut line = [0u8; NUMBERS_ROOM];
    let end = spell_numbers(&mut line, word, n, between, m);
    write_all(sink, &line[..end])
}

// Spells a line with one number, and answers where it ends.
fn spell_number(line: &mut [u8], word: &[u8], n: u128) -> usize
    requires word { length word.now ≤ 32 }
    requires room { 96 ≤ length line.old }
    ensures end { result ≤ length line.new }
    ensures text { take result line.new ≡ word.now ++ (decimal n ++ codes "\n") }
{
    let mut digits = Buffer::new();
    let start = put(line, 0, word);
    let after = put(line, start, digits.format(n).as_bytes());
    put(line, after, b"\n")
}

// Spells a line with two numbers, and answers where it ends.
fn spell_numbers(line: &mut [u8], word: &[u8], n: u32, between: &[u8], m: u32) -> usize
    requires word { length word.now ≤ 32 }
    requires between { length between.now ≤ 32 }
    requires room { 160 ≤ length line.old }
    ensures end { result ≤ length line.new }
    ensures text { take result line.new ≡ word.now ++ (decimal n ++ (between.now ++ (decimal m ++ codes "\n"))) }
{
    let mut digits = Buffer::new();
    let start = put(line, 0, word);
    let first = put(line, start, digits.format(n).as_bytes());
    let middle = put(line, first, between);
    let second = put(line, middle, digits.format(m).as_bytes());
    put(line, second, b"\n")
}
