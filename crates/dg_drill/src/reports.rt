// What a drill prints.
ghost use Rattle.std.specs.Prelude.{◌≡◌, ◌++◌, List, Some, IfOk, OnOk, codes};
ghost use Rattle.std.specs.Fmt.{decimal};
ghost use Rattle.dg_drill.specs.Outcomes.{IsTally};
ghost use Rattle.dg_drill.specs.Reports.{boundary_of, first_line, report_text};
ghost use Rattle.dg_model.specs.declared.replies.Reply.{Reply};
ghost use Rattle.dg_text.specs.Replies.{reply_line};

use crate::reads::Tally;
use dg_io::Sink;
use dg_model::{Failed, NoMemory, Reply};
use dg_text::write_reply;
use itoa::Buffer;
use std::alloc::Global;

/// A line in memory. Writing to it fails where memory is wanting.
#[derive(Drop)]
struct Line {
    bytes: Vec<u8>,
    faults: u64,
    calls: u64,
}

impl Sink for Line {
    ghost use Rattle.std.specs.Prelude.{Some};

    ghost taken = { λ s. Some s.bytes.items };

    ghost faults = { λ s. s.faults };

    ghost calls = { λ s. s.calls };

    ghost whole = { λ _. Unit {0} };

    fn write(&mut self, piece: &[u8]) -> Result<usize, Failed> {
        self.calls = self.calls.saturating_add(1);
        if self.bytes.extend_from_slice(piece).is_err() {
            self.faults = self.faults.saturating_add(1);
            return Err(Failed);
        }
        Ok(piece.len())
    }
}

/// Appends bytes.
fn push(text: &mut Vec<u8>, bytes: &[u8]) -> Result<(), NoMemory>
    ensures { OnOk result (text.new.items ≡ text.old.items ++ bytes.now) }
{
    match text.extend_from_slice(bytes) {
        Ok(()) => Ok(()),
        Err(_) => Err(NoMemory),
    }
}

/// Appends a number.
fn push_number(text: &mut Vec<u8>, n: u64) -> Result<(), NoMemory>
    ensures { OnOk result (text.new.items ≡ text.old.items ++ decimal n) }
{
    let mut digits = Buffer::new();
    push(text, digits.format(n).as_bytes())
}

/// Appends a line of words and a number.
fn push_line(text: &mut Vec<u8>, words: &[u8], n: u64) -> Result<(), NoMemory>
    ensures { OnOk result (text.new.items ≡ text.old.items ++ (words.now ++ (decimal n ++ codes "\n"))) }
{
    push(text, words)?;
    push_number(text, n)?;
    push(text, b"\n")?;
    Ok(())
}

/// Appends a line of words and a number, and then other words and a number.
fn push_pair(
    text: &mut Vec<u8>,
    words: &[u8],
    n: u64,
    others: &[u8],
    m: u64,
) -> Result<(), NoMemory>
    ensures { OnOk result (text.new.items ≡ text.old.items ++ (words.now ++ (decimal n ++ (others.now ++ (decimal m ++ codes "\n"))))) }
{
    push(text, words)?;
    push_number(text, n)?;
    push_line(text, others, m)?;
    Ok(())
}

/// Appends the line of a reply.
fn push_reply(alloc: Global, text: &mut Vec<u8>, reply: &Reply) -> Result<(), NoMemory>
    ensures { OnOk result (text.new.items ≡ text.old.items ++ reply_line reply.now) }
{
    let mut line = Line {
        bytes: Vec::new(alloc),
        faults: 0,
        calls: 0,
    };
    match write_reply(&mut line, reply) {
        Ok(()) => push(text, &line.bytes),
        Err(_) => Err(NoMemory),
    }
}

/// The first line of each drill.
fn first_line(alloc: Global, seed: u64, files: u32) -> Result<Vec<u8>, NoMemory>
    ensures { IfOk result (λ text. text.items ≡ first_line seed files) }
{
    let mut text = Vec::new(alloc);
    push_pair(&mut text, b"drill ", seed, b" ", u64::from(files))?;
    Ok(text)
}

/// What is printed of a drill: by how many blocks were written, the reply to the `settle`, and what became of reading the files.
pub fn report_text(
    alloc: Global,
    seed: u64,
    files: u32,
    written: u64,
    settled: &Reply,
    tally: &Tally,
) -> Result<Vec<u8>, NoMemory>
    ensures { IfOk result (λ text. (replies : List Reply) → IsTally seed replies tally.now
        → text.items ≡ report_text seed files written settled.now replies) }
{
    let mut text = first_line(alloc, seed, files)?;
    push_line(&mut text, b"blocks ", written)?;
    push_reply(alloc, &mut text, settled)?;
    push_line(&mut text, b"lost ", seed % 4)?;
    push_pair(
        &mut text,
        b"given ",
        u64::from(tally.given),
        b" bytes ",
        tally.bytes,
    )?;
    push_line(&mut text, b"unavailable ", u64::from(tally.unavailable))?;
    Ok(text)
}
