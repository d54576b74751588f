// What a replay leaves of members that aren't the array's, and how long its text is.
ghost use Rattle.std.specs.Prelude.{◌≡◌, ◌≤◌, ◌/◌, ◌^◌, ◌∷◌, ℕ, List, IsSome, Some, length, map, string_bytes};
ghost use Rattle.dg_io.specs.Told.{IsSame, Told};
ghost use Rattle.dg_model.specs.declared.events.Event.{Event};
ghost use Rattle.dg_model.specs.declared.shapes.Shape.{Shape};
ghost use Rattle.dg_text.specs.Lines.{AreInPlace, input_of};
ghost use Rattle.dg_words.specs.Commands.{IsCommand};
ghost use Rattle.dg_words.specs.declared.commands.Command.{Command};

use dg_io::{Rack, Sink, Source};
use dg_run::{Status, run};
use dg_text::input_is_unique;
use std::alloc::Global;

/// Replays lines. Where all are done, each member behind the boundaries of the first line, `array` or `safe`, has the bytes that it had, where it tells them;
/// and the text kept to the budget.
pub fn replay_beside_others<S: Source, K: Sink, R: Rack>(
    alloc: Global,
    words: &Vec<String>,
    source: &mut S,
    sink: &mut K,
    rack: &mut R,
) -> Status
    requires { IsCommand (map string_bytes words.now.items) Command.Replay }
    ensures others { (shape : Shape) (events : List Event) → AreInPlace (Event.Array shape ∷ events)
        → S.left source.old ≡ Some (input_of (Event.Array shape ∷ events)) → IsSome (S.left source.new) → result ≡ Status.Done
        → (q : ℕ) → shape.b ≤ q / 2 → Told IsSame (R.bytes rack.old q) (R.bytes rack.new q) }
    ensures safe { (shape : Shape) (events : List Event) → AreInPlace (Event.Safe shape ∷ events)
        → S.left source.old ≡ Some (input_of (Event.Safe shape ∷ events)) → IsSome (S.left source.new) → result ≡ Status.Done
        → (q : ℕ) → shape.b ≤ q / 2 → Told IsSame (R.bytes rack.old q) (R.bytes rack.new q) }
    ensures budget { (text : List ℕ) → S.left source.old ≡ Some text → IsSome (S.left source.new) → result ≡ Status.Done → length text ≤ 2 ^ 40 }
{
    input_is_unique();
    run(alloc, words, source, sink, rack)
}
