// Two calls, of which the second replays what the first one printed of an image.
ghost use Rattle.std.specs.Prelude.{◌≡◌, [], ℕ, List, IsSome, Some, map, string_bytes};
ghost use Rattle.dg_model.specs.Causes.{NoneRose};
ghost use Rattle.dg_run.specs.Ends.{asked_by};
ghost use Rattle.dg_uses.specs.Answers.{TellsEach};
ghost use Rattle.dg_uses.specs.Traced.{HoldsTraced};
ghost use Rattle.dg_words.specs.Commands.{IsCommand};
ghost use Rattle.dg_words.specs.declared.commands.Command.{Command};
ghost use Rattle.dg_words.specs.declared.commands.Order.{Order};

use dg_io::{Rack, Sink, Source};
use dg_run::{Status, run};
use dg_text::input_is_unique;
use dg_trace::{replay_holds_the_image, trace_is_an_input};
use std::alloc::Global;

/// Makes a trace of an image, and replays another input. Where both are done, that input is what the first call printed, and no member failed, each
/// of its lines was answered by `ok`, and the members hold the image's volume.
pub fn trace_and_replay<I: Source, T: Sink, S: Source, K: Sink, R: Rack>(
    alloc: Global,
    trace_words: &Vec<String>,
    image: &mut I,
    text: &mut T,
    trace_rack: &mut R,
    replay_words: &Vec<String>,
    source: &mut S,
    sink: &mut K,
    rack: &mut R,
) -> (Status, Status)
    ensures { (order : Order) (b k m : ℕ) → IsCommand (map string_bytes trace_words.now.items) (Command.Trace order b k m)
        → IsCommand (map string_bytes replay_words.now.items) Command.Replay → (bytes : List ℕ) → I.left image.old ≡ Some bytes → IsSome (I.left image.new)
        → T.taken text.old ≡ Some [] → IsSome (T.taken text.new) → S.left source.old ≡ T.taken text.new → IsSome (S.left source.new)
        → TellsEach (R.bytes rack.new) → NoneRose (R.counts rack.old).faults (R.counts rack.new).faults
        → result.0 ≡ Status.Done → result.1 ≡ Status.Done
        → HoldsTraced (asked_by order b k m) bytes (K.taken sink.old) (K.taken sink.new) (R.bytes rack.new) }
{
    input_is_unique();
    trace_is_an_input();
    replay_holds_the_image();
    let traced = run(alloc, trace_words, image, text, trace_rack);
    let replayed = run(alloc, replay_words, source, sink, rack);
    (traced, replayed)
}
