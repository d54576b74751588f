// What any run from the blank array promises.
ghost use Rattle.std.specs.Prelude.{◌≡◌, ◌++◌, ℕ, List, ◌∷◌, All};
ghost use Rattle.dg_model.specs.Runs.{Trace};
ghost use Rattle.dg_model.specs.Shapes.{IsShape};
ghost use Rattle.dg_model.specs.States.{Counts, State};
ghost use Rattle.dg_model.specs.Steps.{Step};
ghost use Rattle.dg_model.specs.declared.events.Event.{Event};
ghost use Rattle.dg_model.specs.declared.events.Event.TheVariants.{Array, Cat};
ghost use Rattle.dg_model.specs.declared.phases.Phase.TheVariants.{Settled};
ghost use Rattle.dg_model.specs.declared.replies.Reply.{Reply};
ghost use Rattle.dg_model.specs.declared.replies.Reply.TheVariants.{Done};
ghost use Rattle.dg_model.specs.declared.shapes.Shape.{Shape};
ghost use Rattle.dg_promise.specs.Chains.{ReadsInRun};
ghost use Rattle.dg_promise.specs.Promises.{AreTold, FewLost, IsAsPromised, LosesNone};
ghost use Rattle.dg_promise.specs.Steady.{FitsBlock};

use dg_plan::targets_of_plans;
use ufs_frames::{
    change_of_loose_blocks, files_are_tame, parts_are_local, volumes_of_whole_blocks,
};

/// Where a run from the blank array leaves it settled, with fewer than m lost boundaries, a `cat` that comes next, in which no boundary
/// becomes lost, keeps its promise.
pub fn runs_keep_their_promise()
    ensures { (before : Counts) (shape : Shape) (events : List Event) (replies : List Reply) (old : State) (path : List ℕ) (reply : Reply) (new : State)
        → IsShape shape → All (FitsBlock shape.l) events → Trace AreTold before (Array shape ∷ events) (Done ∷ replies) old → old.phase ≡ Settled
        → FewLost old → LosesNone old new → Step AreTold old (Cat path) reply new → IsAsPromised old path reply }
{
    targets_of_plans();
    files_are_tame();
    volumes_of_whole_blocks();
    change_of_loose_blocks();
    parts_are_local();
}

/// So does each `cat` in the middle of a run.
pub fn reads_keep_their_promise()
    ensures { (before : Counts) (shape : Shape) (front : List Event) (path : List ℕ) (rest : List Event) (replies : List Reply) (last : State)
        → IsShape shape → All (FitsBlock shape.l) front → Trace AreTold before (Array shape ∷ (front ++ Cat path ∷ rest)) (Done ∷ replies) last
        → ReadsInRun before shape front path rest replies last }
{
    runs_keep_their_promise();
}
