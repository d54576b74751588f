// Of a replay that ends with a save, and a call on what is left of its members.
ghost use Rattle.std.specs.Prelude.{◌≡◌, ◌⊎◌, ◌<◌, ◌++◌, ◌∷◌, [], All, ℕ, List, Option, IsSome, Some, map, string_bytes};
ghost use Rattle.dg_kept.specs.Saved.{Save};
ghost use Rattle.dg_kept.specs.SavedRuns.{EndsWithSave, IsReading, WasLed};
ghost use Rattle.dg_model.specs.Causes.{NoneRose, Rose};
ghost use Rattle.dg_model.specs.States.{Counts, State};
ghost use Rattle.dg_model.specs.declared.events.Event.{Event};
ghost use Rattle.dg_model.specs.declared.replies.Reply.{Reply};
ghost use Rattle.dg_model.specs.declared.shapes.Shape.{Shape};
ghost use Rattle.dg_run.specs.Calls.{Facts, facts_of, met_by};
ghost use Rattle.dg_run.specs.Replays.{KeepsNone, Ran};
ghost use Rattle.dg_run.specs.Resumes.{AreLines, RanOn};
ghost use Rattle.dg_saved.specs.Calls.{Facts as SavedFacts};
ghost use Rattle.dg_saved.specs.Saved.{FoundNoState, FoundUnclean, HasRun, TellsArray};
ghost use Rattle.dg_saved.specs.Texts.{cat_text, ls_text};
ghost use Rattle.dg_text.specs.Lines.{input_of};
ghost use Rattle.dg_uses.specs.Promises.{IsToldAtEnd};
ghost use Rattle.dg_uses.specs.Saves.{GivesSaved, GoesOn, HasAnswered, HasGoneOn, HasGoneOnSoFar, HaveNoHeaders, IsAnswered};
ghost use Rattle.dg_uses.specs.Saves.{IsFoundAgain, KeepsNothing, first_of};
ghost use Rattle.dg_words.specs.Commands.{IsCommand};
ghost use Rattle.dg_words.specs.declared.commands.Command.{Command};

use dg_io::{Rack, Sink, Source};
use dg_kept::{
    newest_saves_are_found, runs_end_with_saves, saved_states_are_resumed,
    saves_are_found_on_what_is_left,
};
use dg_run::{Status, run};
use std::alloc::Global;

/// A replay after which the rack still tells each member of the array, and whose last event saved the array, led to the state that was saved,
/// and left it on the members, where the array keeps no checkpoint.
pub fn replays_leave_saves<R: Rack>()
    ensures { (start end : R) (before now : Counts) (images bytes : ℕ → Option (List ℕ)) (events : List Event) (replies : List Reply) (number : ℕ)
        → KeepsNone events → (ran : Ran before now images bytes (R.steady start) (R.tells end) (events ++ Event.Save ∷ []) (replies ++ Reply.Saved number ∷ []))
        → IsToldAtEnd (R.tells end) ran
        → EndsWithSave (WasLed before events replies) number ran.final.state bytes }
{
    runs_end_with_saves();
}

/// On what is left a call in which no count of faults rose finds a saved array, and none that was written since, where nothing is kept beside the state.
pub fn saves_are_found_again()
    ensures some { (old : State) (number : ℕ) (last : State) (held : ℕ → Option (List ℕ)) (save : Save) (facts : SavedFacts) → KeepsNothing facts
        → IsFoundAgain old number last held save facts.images facts.bytes → NoneRose facts.before.faults facts.now.faults → FoundNoState facts → ⊥ }
    ensures clean { (old : State) (number : ℕ) (last : State) (held : ℕ → Option (List ℕ)) (save : Save) (facts : SavedFacts)
        → IsFoundAgain old number last held save facts.images facts.bytes → NoneRose facts.before.faults facts.now.faults → FoundUnclean facts → ⊥ }
{
    saves_are_found_on_what_is_left();
    newest_saves_are_found();
}

/// Where no count rose in the opening, a resumed array goes on from the state that was saved; and so does an array that is asked for one
/// thing, where nothing is kept beside the state. The rack still tells each of its members at the end.
pub fn saved_arrays_go_on<R: Rack>()
    ensures resumed { (end : R) (old : State) (number : ℕ) (last : State) (held : ℕ → Option (List ℕ)) (save : Save) (facts : Facts)
        (events : List Event) (replies : List Reply) (ran : RanOn (R.tells end) facts events replies) → TellsArray (R.tells end) ran.source.saved.table
        → IsFoundAgain old number last held save facts.images facts.bytes
        → NoneRose facts.before.faults ran.opened.faults → GoesOn old save facts.images facts.bytes facts.before facts.now events replies }
    ensures asked { (end : R) (old : State) (number : ℕ) (last : State) (held : ℕ → Option (List ℕ)) (save : Save) (facts : SavedFacts)
        (event : Event) (reply : Reply) → KeepsNothing facts → (ran : HasRun (R.tells end) facts event reply) → TellsArray (R.tells end) ran.source.saved.table
        → IsFoundAgain old number last held save facts.images facts.bytes
        → NoneRose facts.before.faults ran.opened.faults
        → IsAnswered old save facts.images facts.bytes facts.before facts.now event reply }
{
    saves_are_found_on_what_is_left();
    newest_saves_are_found();
    saved_states_are_resumed();
}

/// After a replay up to a save, each block that is read of the array that goes on, before anything but readings was done, has its value of the
/// save, if it isn't gone.
pub fn saved_blocks_are_read_again()
    ensures { (start : Counts) (done : List Event) (given : List Reply) (number : ℕ) (last : State) (held : ℕ → Option (List ℕ))
        (end : EndsWithSave (WasLed start done given) number last held) (images bytes : ℕ → Option (List ℕ)) (before now : Counts)
        (front rest : List Event) (b : ℕ) (replies : List Reply)
        → IsFoundAgain end.old number last held end.save images bytes → All IsReading front → b < end.old.table.shape.n
        → (on : GoesOn end.old end.save images bytes before now (front ++ Event.Read b ∷ rest) replies)
        → GivesSaved end.old (first_of on) front b replies }
{}

/// Resumes what is left, where no member has the header of an array that keeps a checkpoint. Where no count of faults rose, there is a saved array; and
/// where all lines were done, it went on from the state that was saved. So it did where the source failed, by the lines that it gave whole. Lines that
/// are acceptable on any array are done where neither the source nor the sink fails, or memory is wanting.
pub fn resume_what_is_left<S: Source, K: Sink, R: Rack>(
    alloc: Global,
    words: &Vec<String>,
    source: &mut S,
    sink: &mut K,
    rack: &mut R,
) -> Status
    requires { IsCommand (map string_bytes words.now.items) Command.Resume }
    ensures opened { (old : State) (number : ℕ) (last : State) (held : ℕ → Option (List ℕ)) (save : Save)
        → IsFoundAgain old number last held save (R.bytes rack.old) (R.bytes rack.new) → HaveNoHeaders (R.bytes rack.old)
        → NoneRose (R.counts rack.old).faults (R.counts rack.new).faults
        → (result ≡ Status.NoState → ⊥) × (result ≡ Status.Unclean → ⊥) }
    ensures done { (old : State) (number : ℕ) (last : State) (held : ℕ → Option (List ℕ)) (save : Save)
        → IsFoundAgain old number last held save (R.bytes rack.old) (R.bytes rack.new) → HaveNoHeaders (R.bytes rack.old)
        → NoneRose (R.counts rack.old).faults (R.counts rack.new).faults
        → result ≡ Status.Done
        → HasGoneOn old save (facts_of S.Source K.Sink R.Rack source.old source.new sink.old sink.new rack.old rack.new) }
    ensures broke_off { (old : State) (number : ℕ) (last : State) (held : ℕ → Option (List ℕ)) (save : Save)
        → IsFoundAgain old number last held save (R.bytes rack.old) (R.bytes rack.new) → HaveNoHeaders (R.bytes rack.old)
        → NoneRose (R.counts rack.old).faults (R.counts rack.new).faults
        → result ≡ Status.ReadFault
        → HasGoneOnSoFar old save (facts_of S.Source K.Sink R.Rack source.old source.new sink.old sink.new rack.old rack.new) }
    ensures complete { (old : State) (number : ℕ) (last : State) (held : ℕ → Option (List ℕ)) (save : Save)
        → IsFoundAgain old number last held save (R.bytes rack.old) (R.bytes rack.new) → HaveNoHeaders (R.bytes rack.old)
        → NoneRose (R.counts rack.old).faults (R.counts rack.new).faults
        → (events : List Event) → ((shape : Shape) → AreLines shape events) → S.left source.old ≡ Some (input_of events) → IsSome (S.left source.new)
        → (Rose (S.faults source.old) (S.faults source.new) → ⊥) → (Rose (K.faults sink.old) (K.faults sink.new) → ⊥)
        → (result ≡ Status.Done) ⊎ (result ≡ Status.NoMemory) }
{
    saves_are_found_again();
    saved_arrays_go_on::<R>();
    run(alloc, words, source, sink, rack)
}

/// Asks what is left for a file, where no member has the header of an array that keeps a checkpoint. Where no count of faults rose, there is a saved
/// array; and it answered from the state that was saved. Where neither the source nor the sink fails, there is such an answer, or memory is wanting.
pub fn cat_what_is_left<S: Source, K: Sink, R: Rack>(
    alloc: Global,
    words: &Vec<String>,
    source: &mut S,
    sink: &mut K,
    rack: &mut R,
) -> Status
    ensures opened { (path : List ℕ) → IsCommand (map string_bytes words.now.items) (Command.Cat path)
        → (old : State) (number : ℕ) (last : State) (held : ℕ → Option (List ℕ)) (save : Save)
        → IsFoundAgain old number last held save (R.bytes rack.old) (R.bytes rack.new) → HaveNoHeaders (R.bytes rack.old)
        → NoneRose (R.counts rack.old).faults (R.counts rack.new).faults
        → (result ≡ Status.NoState → ⊥) × (result ≡ Status.Unclean → ⊥) }
    ensures answered { (path : List ℕ) → IsCommand (map string_bytes words.now.items) (Command.Cat path)
        → (old : State) (number : ℕ) (last : State) (held : ℕ → Option (List ℕ)) (save : Save)
        → IsFoundAgain old number last held save (R.bytes rack.old) (R.bytes rack.new) → HaveNoHeaders (R.bytes rack.old)
        → NoneRose (R.counts rack.old).faults (R.counts rack.new).faults
        → (result ≡ Status.Done) ⊎ (result ≡ Status.Refused)
        → HasAnswered old save (met_by (facts_of S.Source K.Sink R.Rack source.old source.new sink.old sink.new rack.old rack.new)) (Event.Cat path) cat_text }
    ensures complete { (path : List ℕ) → IsCommand (map string_bytes words.now.items) (Command.Cat path)
        → (old : State) (number : ℕ) (last : State) (held : ℕ → Option (List ℕ)) (save : Save)
        → IsFoundAgain old number last held save (R.bytes rack.old) (R.bytes rack.new) → HaveNoHeaders (R.bytes rack.old)
        → NoneRose (R.counts rack.old).faults (R.counts rack.new).faults
        → (Rose (S.faults source.old) (S.faults source.new) → ⊥) → (Rose (K.faults sink.old) (K.faults sink.new) → ⊥)
        → (result ≡ Status.Done) ⊎ ((result ≡ Status.Refused) ⊎ (result ≡ Status.NoMemory)) }
{
    saves_are_found_again();
    saved_arrays_go_on::<R>();
    run(alloc, words, source, sink, rack)
}

/// Asks what is left for a directory, where no member has the header of an array that keeps a checkpoint. Where no count of faults rose, there is a saved
/// array; and it answered from the state that was saved. Where neither the source nor the sink fails, there is such an answer, or memory is wanting.
pub fn ls_what_is_left<S: Source, K: Sink, R: Rack>(
    alloc: Global,
    words: &Vec<String>,
    source: &mut S,
    sink: &mut K,
    rack: &mut R,
) -> Status
    ensures opened { (path : List ℕ) → IsCommand (map string_bytes words.now.items) (Command.Ls path)
        → (old : State) (number : ℕ) (last : State) (held : ℕ → Option (List ℕ)) (save : Save)
        → IsFoundAgain old number last held save (R.bytes rack.old) (R.bytes rack.new) → HaveNoHeaders (R.bytes rack.old)
        → NoneRose (R.counts rack.old).faults (R.counts rack.new).faults
        → (result ≡ Status.NoState → ⊥) × (result ≡ Status.Unclean → ⊥) }
    ensures answered { (path : List ℕ) → IsCommand (map string_bytes words.now.items) (Command.Ls path)
        → (old : State) (number : ℕ) (last : State) (held : ℕ → Option (List ℕ)) (save : Save)
        → IsFoundAgain old number last held save (R.bytes rack.old) (R.bytes rack.new) → HaveNoHeaders (R.bytes rack.old)
        → NoneRose (R.counts rack.old).faults (R.counts rack.new).faults
        → (result ≡ Status.Done) ⊎ (result ≡ Status.Refused)
        → HasAnswered old save (met_by (facts_of S.Source K.Sink R.Rack source.old source.new sink.old sink.new rack.old rack.new)) (Event.Ls path) ls_text }
    ensures complete { (path : List ℕ) → IsCommand (map string_bytes words.now.items) (Command.Ls path)
        → (old : State) (number : ℕ) (last : State) (held : ℕ → Option (List ℕ)) (save : Save)
        → IsFoundAgain old number last held save (R.bytes rack.old) (R.bytes rack.new) → HaveNoHeaders (R.bytes rack.old)
        → NoneRose (R.counts rack.old).faults (R.counts rack.new).faults
        → (Rose (S.faults source.old) (S.faults source.new) → ⊥) → (Rose (K.faults sink.old) (K.faults sink.new) → ⊥)
        → (result ≡ Status.Done) ⊎ ((result ≡ Status.Refused) ⊎ (result ≡ Status.NoMemory)) }
{
    saves_are_found_again();
    saved_arrays_go_on::<R>();
    run(alloc, words, source, sink, rack)
}
