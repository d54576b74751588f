// What each command answers where neither the source nor the sink fails.
ghost use Rattle.std.specs.Prelude.{◌≡◌, ◌⊎◌, List, ℕ, map, IsSome, Option, Result, Some, string_bytes};
ghost use Rattle.dg_model.specs.Causes.{Rose};
ghost use Rattle.dg_model.specs.declared.events.Event.{Event};
ghost use Rattle.dg_model.specs.declared.findings.Finding.{Finding};
ghost use Rattle.dg_run.specs.Bytes.{HasNoLineFeed};
ghost use Rattle.dg_run.specs.Completes.{answer_status};
ghost use Rattle.dg_run.specs.Ends.{asked_by};
ghost use Rattle.dg_run.specs.Replays.{IsInput};
ghost use Rattle.dg_text.specs.Lines.{input_of};
ghost use Rattle.dg_trace.specs.Answers.{IsAnswer};
ghost use Rattle.dg_trace.specs.Audits.{IsAudit};
ghost use Rattle.dg_trace.specs.declared.asked.TraceRefusal.{TraceRefusal};
ghost use Rattle.dg_uses.specs.Answers.{HasAudited};
ghost use Rattle.dg_words.specs.Commands.{IsCommand};
ghost use Rattle.dg_words.specs.declared.commands.Command.{Command};
ghost use Rattle.dg_words.specs.declared.commands.Order.{Order};
ghost use Rattle.ufs_model.specs.declared.geometries.Geometry.{Geometry};

use dg_io::{Rack, Sink, Source};
use dg_run::{Status, run};
use std::alloc::Global;

/// Acceptable lines are replayed. Where that is done, neither the source nor the sink has failed.
pub fn replay_lines<S: Source, K: Sink, R: Rack>(
    alloc: Global,
    words: &Vec<String>,
    source: &mut S,
    sink: &mut K,
    rack: &mut R,
) -> Status
    requires { IsCommand (map string_bytes words.now.items) Command.Replay }
    ensures kept { result ≡ Status.Done → (S.faults source.new ≡ S.faults source.old) × (K.faults sink.new ≡ K.faults sink.old) }
    ensures complete { (events : List Event) → IsInput events → S.left source.old ≡ Some (input_of events) → IsSome (S.left source.new)
        → (Rose (S.faults source.old) (S.faults source.new) → ⊥) → (Rose (K.faults sink.old) (K.faults sink.new) → ⊥)
        → (result ≡ Status.Done) ⊎ (result ≡ Status.NoMemory) }
{
    run(alloc, words, source, sink, rack)
}

/// An input that ends before a line feed: where want of memory is told, nothing was read of it, and nothing printed.
pub fn replay_a_cut_line<S: Source, K: Sink, R: Rack>(
    alloc: Global,
    words: &Vec<String>,
    source: &mut S,
    sink: &mut K,
    rack: &mut R,
) -> Status
    requires { IsCommand (map string_bytes words.now.items) Command.Replay }
    ensures { (text : List ℕ) → HasNoLineFeed text → S.left source.old ≡ Some text → IsSome (S.left source.new) → result ≡ Status.NoMemory
        → (S.left source.new ≡ S.left source.old) × (K.taken sink.new ≡ K.taken sink.old) }
{
    run(alloc, words, source, sink, rack)
}

/// An image is answered in the one way that it is to be answered.
pub fn answer_an_image<S: Source, K: Sink, R: Rack>(
    alloc: Global,
    words: &Vec<String>,
    source: &mut S,
    sink: &mut K,
    rack: &mut R,
) -> Status
    ensures { (order : Order) (b k m : ℕ) → IsCommand (map string_bytes words.now.items) (Command.Trace order b k m)
        → (image : List ℕ) (answer : Result Geometry TraceRefusal) → IsAnswer (asked_by order b k m) image answer
        → S.left source.old ≡ Some image → IsSome (S.left source.new)
        → (Rose (S.faults source.old) (S.faults source.new) → ⊥) → (Rose (K.faults sink.old) (K.faults sink.new) → ⊥)
        → (result ≡ answer_status answer) ⊎ (result ≡ Status.NoMemory) }
{
    run(alloc, words, source, sink, rack)
}

/// An image is audited: all that is to be found on it is printed, and the status tells whether a malformation is among it.
pub fn audit_an_image<S: Source, K: Sink, R: Rack>(
    alloc: Global,
    words: &Vec<String>,
    source: &mut S,
    sink: &mut K,
    rack: &mut R,
) -> Status
    ensures { IsCommand (map string_bytes words.now.items) Command.Audit → (image : List ℕ) (found : Option (List Finding)) → IsAudit image found
        → S.left source.old ≡ Some image → IsSome (S.left source.new)
        → (Rose (S.faults source.old) (S.faults source.new) → ⊥) → (Rose (K.faults sink.old) (K.faults sink.new) → ⊥)
        → HasAudited found (K.taken sink.old) (K.taken sink.new) result ⊎ (result ≡ Status.NoMemory) }
{
    run(alloc, words, source, sink, rack)
}
