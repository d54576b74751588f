// What a replay promises of the files that are left, once lost boundaries were taken out of use.
ghost use Rattle.std.specs.Prelude.{◌++◌, ◌∷◌, [], ℕ, List, Option};
ghost use Rattle.dg_model.specs.Paths.{PathOf};
ghost use Rattle.dg_model.specs.States.{Counts};
ghost use Rattle.dg_model.specs.declared.events.Event.{Event};
ghost use Rattle.dg_model.specs.declared.replies.Reply.{Reply};
ghost use Rattle.dg_model.specs.declared.shapes.Shape.{Shape};
ghost use Rattle.dg_run.specs.Replays.{Ran};
ghost use Rattle.dg_uses.specs.LostFiles.{TellsLostFiles};
ghost use Rattle.dg_uses.specs.Promises.{IsToldAtEnd};

use dg_io::Rack;
use dg_promise::{blank_arrays_are_steady, few_losses_leave_files_whole, steps_keep_steady};

/// A replay after which the rack still tells each member of the array, and whose last event was answered by the files that lost blocks: whichever
/// boundaries were lost and taken out of use before, the array is settled on those that are left, the answer is right, and what the array promises holds
/// of the boundaries left. So it is of an array that keeps a checkpoint.
pub fn lost_files_are_told<R: Rack>()
    ensures array { (start end : R) (before now : Counts) (images bytes : ℕ → Option (List ℕ)) (shape : Shape) (events : List Event) (replies : List Reply)
        (lost : List PathOf) → (ran : Ran before now images bytes (R.steady start) (R.tells end) (Event.Array shape ∷ (events ++ Event.LostFiles ∷ []))
        (Reply.Done ∷ (replies ++ Reply.LostFiles lost ∷ []))) → IsToldAtEnd (R.tells end) ran → TellsLostFiles lost ran.final.state }
    ensures safe { (start end : R) (before now : Counts) (images bytes : ℕ → Option (List ℕ)) (shape : Shape) (events : List Event) (replies : List Reply)
        (lost : List PathOf) → (ran : Ran before now images bytes (R.steady start) (R.tells end)
        (Event.Safe shape ∷ (events ++ Event.LostFiles ∷ [])) (Reply.Done ∷ (replies ++ Reply.LostFiles lost ∷ [])))
        → IsToldAtEnd (R.tells end) ran → TellsLostFiles lost ran.final.state }
{
    blank_arrays_are_steady();
    steps_keep_steady();
    few_losses_leave_files_whole();
}
