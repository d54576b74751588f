// What a replay promises of the files of its volume.
ghost use Rattle.std.specs.Prelude.{◌++◌, ◌∷◌, ℕ, List, Option};
ghost use Rattle.dg_model.specs.States.{Counts};
ghost use Rattle.dg_model.specs.declared.events.Event.{Event};
ghost use Rattle.dg_model.specs.declared.replies.Reply.{Reply};
ghost use Rattle.dg_model.specs.declared.shapes.Shape.{Shape};
ghost use Rattle.dg_promise.specs.Chains.{ReadsInRun};
ghost use Rattle.dg_promise.specs.Readings.{ReadsFrom};
ghost use Rattle.dg_run.specs.Replays.{Ran};
ghost use Rattle.dg_uses.specs.Promises.{IsToldAtEnd};

use dg_io::Rack;
use dg_promise::{
    blank_arrays_are_steady, reads_keep_their_promise, steady_runs_keep_their_promise,
};

/// Each `cat` of a run after which the rack still tells each member of the array: where the array is settled then, and fewer than m boundaries are lost, and
/// none is lost while the file is read, all of a regular file is given exactly where it has no home, or its home or its copy isn't lost;
/// it is unavailable exactly where that isn't so; and a path to none is refused. So it is of an array that keeps a checkpoint, from its blank state on.
pub fn cats_keep_their_promise<R: Rack>()
    ensures array { (start end : R) (before now : Counts) (images bytes : ℕ → Option (List ℕ)) (shape : Shape) (front rest : List Event) (path : List ℕ)
        (replies : List Reply) → (ran : Ran before now images bytes (R.steady start) (R.tells end) (Event.Array shape ∷ (front ++ Event.Cat path ∷ rest))
        (Reply.Done ∷ replies)) → IsToldAtEnd (R.tells end) ran
        → ReadsInRun ran.history.1.first shape front path rest replies ran.final.state }
    ensures safe { (start end : R) (before now : Counts) (images bytes : ℕ → Option (List ℕ)) (shape : Shape) (front rest : List Event) (path : List ℕ)
        (replies : List Reply) → (ran : Ran before now images bytes (R.steady start) (R.tells end) (Event.Safe shape ∷ (front ++ Event.Cat path ∷ rest))
        (Reply.Done ∷ replies)) → IsToldAtEnd (R.tells end) ran
        → ReadsFrom ran.history.0.state front path rest replies ran.final.state }
{
    reads_keep_their_promise();
    blank_arrays_are_steady();
    steady_runs_keep_their_promise();
}
