// What all states keep that are reached from the blank array.
ghost use Rattle.dg_model.specs.Shapes.{IsShape};
ghost use Rattle.dg_model.specs.States.{Counts, IsBlank, State};
ghost use Rattle.dg_model.specs.Steps.{Step};
ghost use Rattle.dg_model.specs.declared.events.Event.{Event};
ghost use Rattle.dg_model.specs.declared.replies.Reply.{Reply};
ghost use Rattle.dg_model.specs.declared.shapes.Shape.{Shape};
ghost use Rattle.dg_promise.specs.Promises.{AreTold};
ghost use Rattle.dg_promise.specs.Steady.{FitsBlock, IsSteady};

use dg_plan::targets_of_plans;
use ufs_frames::{change_of_loose_blocks, parts_are_local, volumes_of_whole_blocks};

/// The blank array keeps what all states keep.
pub fn blank_arrays_are_steady()
    ensures { (shape : Shape) (before : Counts) (state : State) → IsShape shape → IsBlank shape before state → IsSteady state }
{}

/// Each step keeps it, of whichever event and with whichever reply: so a settled array is in order, by its last `settle` and by all that
/// came since.
pub fn steps_keep_steady()
    ensures { (old : State) (event : Event) (reply : Reply) (new : State) → FitsBlock old.table.shape.l event → IsSteady old
        → Step AreTold old event reply new → IsSteady new }
{
    targets_of_plans();
    volumes_of_whole_blocks();
    change_of_loose_blocks();
    parts_are_local();
}
