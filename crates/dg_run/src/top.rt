// The top call.
ghost use Rattle.std.specs.Prelude.{◌≡◌, ◌⊎◌, List, map, false, string_bytes};
ghost use Rattle.dg_io.specs.SinkLines.{LeavesLines};
ghost use Rattle.dg_io.specs.SourceReads.{LeavesSource};
ghost use Rattle.dg_io.specs.Told.{Told, Took, TookPart};
ghost use Rattle.dg_model.specs.Causes.{Rose};
ghost use Rattle.dg_run.specs.Calls.{facts_of};
ghost use Rattle.dg_run.specs.Completes.{Completes};
ghost use Rattle.dg_run.specs.Ends.{AreNoCommand, Ends, EndsUsage, line_bytes, reads_input, uses_array};
ghost use Rattle.dg_run.specs.Statuses.{code_of};
ghost use Rattle.dg_text.specs.Replies.{usage};
ghost use Rattle.dg_words.specs.Commands.{HasValues, IsCommand, TakesMemory};
ghost use Rattle.dg_words.specs.declared.commands.Command.{Command};

use crate::audits::serve_audit;
use crate::drills::serve_drill;
use crate::images::serve_trace;
use crate::replays::serve_replay;
use crate::resumes::serve_resume;
use crate::saved::{serve_directory, serve_file, serve_status};
use dg_io::{Rack, Sink, Source};
use dg_text::write_usage;
use dg_trace::{Asked, image_has_one_answer};
use dg_words::{Command, WordsRefused, command};
use std::alloc::Global;

/// How a run ended.
#[derive(Clone, Copy, Debug, PartialEq, Eq)]
pub enum Status {
    /// The input was read to its end and each event was answered.
    Done,
    /// The words are no command. The usage line was printed.
    Usage,
    /// A line is refused. Its number and the kind of the refusal were printed; the lines before it were done.
    BadLine,
    /// The source failed.
    ReadFault,
    /// The sink failed.
    WriteFault,
    /// Want of memory.
    NoMemory,
    /// There is no saved array.
    NoState,
    /// The saved array was changed since it was saved.
    Unclean,
    /// `cat` or `ls` gave no bytes and no listing, `trace` refuses its image, or `audit` does or tells a malformation.
    Refused,
}

impl Status {
    /// The exit status of the program.
    pub fn code(self) -> u8
        ensures { result ≡ code_of self }
    {
        match self {
            Status::Done => 0,
            Status::Usage => 1,
            Status::BadLine => 2,
            Status::ReadFault => 3,
            Status::WriteFault => 4,
            Status::NoMemory => 5,
            Status::NoState => 6,
            Status::Unclean => 7,
            Status::Refused => 8,
        }
    }
}

/// Answers words that are no command.
fn refuse_words<K: Sink>(sink: &mut K) -> Status
    ensures is { (result ≡ Status.Usage) ⊎ (result ≡ Status.WriteFault) }
    ensures usage { result ≡ Status.Usage → Told (Took usage) (K.taken sink.old) (K.taken sink.new) }
    ensures part { result ≡ Status.WriteFault → Told (TookPart usage) (K.taken sink.old) (K.taken sink.new) }
    ensures write { result ≡ Status.WriteFault → Rose (K.faults sink.old) (K.faults sink.new) }
    ensures kept { (result ≡ Status.WriteFault → ⊥) → K.faults sink.new ≡ K.faults sink.old }
    ensures lines { (result ≡ Status.WriteFault → ⊥) → LeavesLines 255 K.whole K.calls K.taken sink.old sink.new }
{
    match write_usage(sink) {
        Ok(()) => Status::Usage,
        Err(_) => Status::WriteFault,
    }
}

/// Does a command.
fn serve_command<S: Source, K: Sink, R: Rack>(
    alloc: Global,
    asked: &Command,
    source: &mut S,
    sink: &mut K,
    rack: &mut R,
) -> Status
    requires values { HasValues asked.now }
    ensures ends { Ends (R.steady rack.old) (R.tells rack.new) (facts_of S.Source K.Sink R.Rack source.old source.new sink.old sink.new rack.old rack.new) asked.now result }
    ensures usage { result ≡ Status.Usage → ⊥ }
    ensures quiet { reads_input asked.now ≡ false → source.new ≡ source.old }
    ensures idle { uses_array asked.now ≡ false → rack.new ≡ rack.old }
    ensures read { result ≡ Status.ReadFault → Rose (S.faults source.old) (S.faults source.new) }
    ensures write { result ≡ Status.WriteFault → Rose (K.faults sink.old) (K.faults sink.new) }
    ensures source_kept { (result ≡ Status.ReadFault → ⊥) → S.faults source.new ≡ S.faults source.old }
    ensures sink_kept { (result ≡ Status.WriteFault → ⊥) → K.faults sink.new ≡ K.faults sink.old }
    ensures lines { (result ≡ Status.WriteFault → ⊥) → LeavesLines (line_bytes asked.now) K.whole K.calls K.taken sink.old sink.new }
    ensures reads { LeavesSource S.calls S.left 1 source.old source.new }
{
    match asked {
        Command::Replay => serve_replay(alloc, source, sink, rack),
        Command::Resume => serve_resume(alloc, source, sink, rack),
        Command::Cat(path) => serve_file(alloc, path.as_slice(), sink, rack),
        Command::Ls(path) => serve_directory(alloc, path.as_slice(), sink, rack),
        Command::Status => serve_status(alloc, sink, rack),
        Command::Trace { order, b, k, m } => {
            let asked = Asked {
                order: *order,
                b: *b,
                k: *k,
                m: *m,
            };
            serve_trace(alloc, &asked, source, sink)
        }
        Command::Drill { seed, files } => serve_drill(alloc, *seed, *files, sink, rack),
        Command::Audit => serve_audit(alloc, source, sink),
    }
}

/// Does what the words say: with the trace in the source, the replies to the sink, and the members in the rack.
pub fn run<S: Source, K: Sink, R: Rack>(
    alloc: Global,
    words: &Vec<String>,
    source: &mut S,
    sink: &mut K,
    rack: &mut R,
) -> Status
    // Each command ends by its own rules.
    ensures ends { (command : Command) → IsCommand (map string_bytes words.now.items) command
        → Ends (R.steady rack.old) (R.tells rack.new) (facts_of S.Source K.Sink R.Rack source.old source.new sink.old sink.new rack.old rack.new) command result }

    // The usage line is printed exactly where the words are no command, and nothing else is done then.
    ensures usage { result ≡ Status.Usage → AreNoCommand (map string_bytes words.now.items) }
    ensures other { AreNoCommand (map string_bytes words.now.items)
        → EndsUsage (facts_of S.Source K.Sink R.Rack source.old source.new sink.old sink.new rack.old rack.new) result
        × (source.new ≡ source.old) × (rack.new ≡ rack.old) }

    // Memory is wanting only for a command, or for words of the form of one that takes values.
    ensures plain { result ≡ Status.NoMemory → AreNoCommand (map string_bytes words.now.items) → TakesMemory (map string_bytes words.now.items) }

    // A command that reads no input makes no call on the source, and one that uses no array none on the rack.
    ensures quiet { (command : Command) → IsCommand (map string_bytes words.now.items) command → reads_input command ≡ false
        → source.new ≡ source.old }
    ensures idle { (command : Command) → IsCommand (map string_bytes words.now.items) command → uses_array command ≡ false
        → rack.new ≡ rack.old }

    // The causes of the faults. Want of memory is free.
    ensures read { result ≡ Status.ReadFault → Rose (S.faults source.old) (S.faults source.new) }
    ensures write { result ≡ Status.WriteFault → Rose (K.faults sink.old) (K.faults sink.new) }
    ensures source_kept { (result ≡ Status.ReadFault → ⊥) → S.faults source.new ≡ S.faults source.old }
    ensures sink_kept { (result ≡ Status.WriteFault → ⊥) → K.faults sink.new ≡ K.faults sink.old }

    // A call of the sink takes a line or so many bytes, and each read of the source but one takes a byte.
    ensures lines { (command : Command) → IsCommand (map string_bytes words.now.items) command → (result ≡ Status.WriteFault → ⊥)
        → LeavesLines (line_bytes command) K.whole K.calls K.taken sink.old sink.new }
    ensures usage_lines { AreNoCommand (map string_bytes words.now.items) → (result ≡ Status.WriteFault → ⊥)
        → LeavesLines 255 K.whole K.calls K.taken sink.old sink.new }
    ensures reads { LeavesSource S.calls S.left 1 source.old source.new }

    // Where neither the source nor the sink fails, each command does what it is asked for, or says why it can't; or memory is wanting.
    ensures complete { (command : Command) → IsCommand (map string_bytes words.now.items) command
        → (Rose (S.faults source.old) (S.faults source.new) → ⊥) → (Rose (K.faults sink.old) (K.faults sink.new) → ⊥)
        → Completes (R.tells rack.new) (facts_of S.Source K.Sink R.Rack source.old source.new sink.old sink.new rack.old rack.new) command result }
{
    image_has_one_answer();
    match command(alloc, words) {
        Ok(asked) => serve_command(alloc, &asked, source, sink, rack),
        Err(WordsRefused::Usage) => refuse_words(sink),
        Err(WordsRefused::NoMemory) => Status::NoMemory,
    }
}
