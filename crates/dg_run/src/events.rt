// Events of the input.
ghost use Rattle.std.specs.Prelude.{◌≡◌, ◌≤◌, ◌<◌, ◌+◌, ◌++◌, ◌∷◌, [], ℕ, List, Option, length, IfOk, IfSome, OnErr};
ghost use Rattle.std.specs.Option.{option_copied};
ghost use Rattle.dg_model.specs.Causes.{Rose};
ghost use Rattle.dg_model.specs.Shapes.{IsShape};
ghost use Rattle.dg_io.specs.SourceReads.{LeavesSource};
ghost use Rattle.dg_io.specs.Told.{Told, AreAny};
ghost use Rattle.dg_model.specs.declared.shapes.Shape.{Shape};
ghost use Rattle.dg_text.specs.Lines.{longest};
ghost use Rattle.dg_run.specs.Bytes.{HasNoLineFeed};
ghost use Rattle.dg_run.specs.Endings.{GaveLines};
ghost use Rattle.dg_run.specs.Inputs.{ahead, BeginsWithLine, IsCutOff, IsFull};
ghost use Rattle.dg_run.specs.Refusals.{IsRefusedBy};
ghost use Rattle.dg_run.specs.Events.{IsTaken, TookEvent, TookLine, empty_reads_of_taken};

use crate::input::{Input, LineStep};
use dg_io::Source;
use dg_model::{Event as Spelled, NoMemory, Shape};
use dg_text::{BadLine, longest_line, read_line};
use std::alloc::Global;

/// What was taken of the input.
#[derive(Drop)]
pub enum Taken {
    /// The event that the next line spells in its place, and the bytes of the line, its line feed among them.
    Event(Spelled, u64),
    /// Nothing: the input is at its end.
    End,
    /// A line that is refused by this kind.
    Refused(BadLine),
}

/// Why a replay stops in the middle.
#[derive(Clone, Copy, Debug, PartialEq, Eq)]
pub enum Fault {
    /// The source failed.
    Read,
    /// The sink failed.
    Write,
    NoMemory,
}

/// The event that a line spells, given without its line feed, or why it is refused.
fn judge(alloc: Global, line: &[u8], shape: Option<&Shape>, room: u64) -> Result<Taken, NoMemory>
    requires none { HasNoLineFeed line.now }
    requires short { length line.now + 1 ≤ longest (option_copied shape) }
    ensures is { IfOk result (IsTaken (option_copied shape.entry) room) }
    ensures took { IfOk result (λ taken. (more : List ℕ) → TookEvent (option_copied shape.entry) room taken (line.now ++ 10 ∷ more) more) }
    ensures whole { IfOk result (λ taken. (more : List ℕ) → TookLine (longest (option_copied shape.entry)) room taken (line.now ++ 10 ∷ more) more) }
    ensures within { OnErr result (length line.now + 1 ≤ room) }
{
    let bytes = line.len() as u64 + 1;
    if bytes > room {
        return Ok(Taken::Refused(BadLine::Size));
    }
    match read_line(alloc, line, shape)? {
        Ok(event) => Ok(Taken::Event(event, bytes)),
        Err(kind) => Ok(Taken::Refused(kind)),
    }
}

/// Why bytes without a line feed are refused that are as many as a line may have.
fn judge_full(most: usize, room: u64) -> BadLine
    ensures fits { (shape : Option Shape) (text : List ℕ) → longest shape ≡ most → IsFull most text → IsRefusedBy shape room text result }
{
    if most as u64 <= room {
        BadLine::Long
    } else {
        BadLine::Size
    }
}

/// Why so many bytes without a line feed are refused behind which the input ends. A line may have more.
fn judge_cut(n: usize, room: u64) -> BadLine
    ensures fits { (shape : Option Shape) (text : List ℕ) → n < longest shape → IsCutOff n text → IsRefusedBy shape room text result }
{
    if n as u64 > room {
        BadLine::Size
    } else {
        BadLine::Cut
    }
}

/// Takes the event of the next line, which has no more bytes than the room.
pub fn take_event<S: Source>(
    alloc: Global,
    input: &mut Input,
    source: &mut S,
    shape: Option<&Shape>,
    room: u64,
) -> Result<Taken, Fault>
    requires { IfSome (option_copied shape) IsShape }
    ensures is { IfOk result (IsTaken (option_copied shape.entry) room) }
    ensures took { IfOk result (λ taken. Told (TookEvent (option_copied shape.entry) room taken) (ahead input.old (S.left source.old))
        (ahead input.new (S.left source.new))) }
    ensures whole { IfOk result (λ taken. Told (TookLine (longest (option_copied shape.entry)) room taken) (ahead input.old (S.left source.old))
        (ahead input.new (S.left source.new))) }
    ensures broken { result ≡ Err Fault.Read → Told (GaveLines []) (ahead input.old (S.left source.old)) (S.left source.new) }
    ensures wanting { result ≡ Err Fault.NoMemory → Told AreAny (ahead input.old (S.left source.old)) (S.left source.new) }
    ensures line { result ≡ Err Fault.NoMemory → Told (BeginsWithLine (longest (option_copied shape.entry)) room)
        (ahead input.old (S.left source.old)) (ahead input.new (S.left source.new)) }
    ensures later { S.faults source.old ≤ S.faults source.new }
    ensures kept { (result ≡ Err Fault.Read → ⊥) → S.faults source.new ≡ S.faults source.old }
    ensures read { result ≡ Err Fault.Read → Rose (S.faults source.old) (S.faults source.new) }
    ensures write { result ≡ Err Fault.Write → ⊥ }
    ensures reads { LeavesSource S.calls S.left 1 source.old source.new }
    ensures taken_reads { IfOk result (λ taken. LeavesSource S.calls S.left (empty_reads_of_taken taken) source.old source.new) }
{
    let most = longest_line(shape);
    match input.next_line(source, most) {
        Ok(LineStep::Line(from, to)) => match judge(alloc, input.line(from, to), shape, room) {
            Ok(taken) => Ok(taken),
            Err(_) => Err(Fault::NoMemory),
        },
        Ok(LineStep::End) => Ok(Taken::End),
        Ok(LineStep::Full) => Ok(Taken::Refused(judge_full(most, room))),
        Ok(LineStep::Cut(n)) => Ok(Taken::Refused(judge_cut(n, room))),
        Err(_) => Err(Fault::Read),
    }
}
