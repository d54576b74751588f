// What an opened array answers whether its members agree or not.
ghost use Rattle.std.specs.Prelude.{◌≡◌, ◌≤◌, ◌<◌, ◌^◌, ◌∷◌, [], ℕ, Bool, List, IsSome, Option, Some, codes, map, string_bytes};
ghost use Rattle.dg_io.specs.Told.{Told, Took};
ghost use Rattle.dg_model.specs.declared.events.Event.{Event};
ghost use Rattle.dg_model.specs.declared.replies.Reply.{Reply};
ghost use Rattle.dg_regroup.specs.declared.extras.Extra.{Extra};
ghost use Rattle.dg_run.specs.Calls.{Facts};
ghost use Rattle.dg_run.specs.Resumes.{RanOn, RanOnKept, WasFound};
ghost use Rattle.dg_saved.specs.Calls.{Facts as SeenFacts};
ghost use Rattle.dg_text.specs.Lines.{input_of};
ghost use Rattle.dg_uses.specs.Answers.{TellsEach};
ghost use Rattle.dg_words.specs.Commands.{IsCommand};
ghost use Rattle.dg_words.specs.declared.commands.Command.{Command};

use dg_io::{Rack, Sink, Source};
use dg_run::{Status, run};
use dg_text::line_is_unique;
use std::alloc::Global;

/// The read of a block past the last one is refused after any opening, also where two mirrors differ, and of an array of either kind.
pub fn reads_past_the_last_block_are_refused<R: Rack>()
    ensures plain { (end : R) (facts : Facts) (b : ℕ) (replies : List Reply) (ran : RanOn (R.tells end) facts (Event.Read b ∷ []) replies)
        → ran.source.saved.table.shape.n ≤ b → replies ≡ Reply.Range ∷ [] }
    ensures kept { (start end : R) (known : ℕ → Bool) (facts : Facts) (seen : SeenFacts) (said : Option Extra) (b : ℕ) (replies : List Reply)
        (ran : RanOnKept (R.tells end) (WasFound (R.steady start) known facts) facts seen said (Event.Read b ∷ []) replies)
        → ran.source.saved.table.shape.n ≤ b → replies ≡ Reply.Range ∷ [] }
{}

/// Resumes one line, the read of a block that no array has. Where that is done, the block is told to be out of range, whatever the members hold: two
/// mirrors may differ.
pub fn resume_a_far_read<S: Source, K: Sink, R: Rack>(
    alloc: Global,
    words: &Vec<String>,
    source: &mut S,
    sink: &mut K,
    rack: &mut R,
) -> Status
    requires { IsCommand (map string_bytes words.now.items) Command.Resume }
    ensures { (b : ℕ) → 2 ^ 20 ≤ b → b < 2 ^ 32 → TellsEach (R.bytes rack.old) → TellsEach (R.bytes rack.new)
        → S.left source.old ≡ Some (input_of (Event.Read b ∷ [])) → IsSome (S.left source.new) → result ≡ Status.Done
        → Told (Took (codes "range\n")) (K.taken sink.old) (K.taken sink.new) }
{
    line_is_unique();
    run(alloc, words, source, sink, rack)
}
