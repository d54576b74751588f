// A drill: how many of its files are given, and how many aren't.
ghost use Rattle.std.specs.Prelude.{◌≡◌, ◌⊎◌, ℕ, map, string_bytes};
ghost use Rattle.dg_model.specs.Causes.{NoneRose, Rose};
ghost use Rattle.dg_uses.specs.Answers.{TellsEach};
ghost use Rattle.dg_uses.specs.Drilled.{LosesItsHomes};
ghost use Rattle.dg_words.specs.Commands.{IsCommand};
ghost use Rattle.dg_words.specs.declared.commands.Command.{Command};

use dg_drill::{drill_loses_its_homes, drills_give_their_files};
use dg_io::{Rack, Sink, Source};
use dg_run::{Status, run};
use std::alloc::Global;

/// Runs a drill. Where it is done and no member failed, it prints that its volume was settled, and how many of its files were given and how many were
/// unavailable: these are just as many as have their home on the boundary that was lost. Where neither the source nor the sink fails, it is done, or
/// memory is wanting.
pub fn drill_and_lose<S: Source, K: Sink, R: Rack>(
    alloc: Global,
    words: &Vec<String>,
    source: &mut S,
    sink: &mut K,
    rack: &mut R,
) -> Status
    ensures complete { (seed files : ℕ) → IsCommand (map string_bytes words.now.items) (Command.Drill seed files)
        → (Rose (S.faults source.old) (S.faults source.new) → ⊥) → (Rose (K.faults sink.old) (K.faults sink.new) → ⊥)
        → (result ≡ Status.Done) ⊎ (result ≡ Status.NoMemory) }
    ensures homes { (seed files : ℕ) → IsCommand (map string_bytes words.now.items) (Command.Drill seed files) → TellsEach (R.bytes rack.new)
        → NoneRose (R.counts rack.old).faults (R.counts rack.new).faults → result ≡ Status.Done
        → LosesItsHomes seed files (K.taken sink.old) (K.taken sink.new) (R.bytes rack.new) }
{
    drill_loses_its_homes();
    drills_give_their_files();
    run(alloc, words, source, sink, rack)
}
