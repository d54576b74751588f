// What a run promises that begins with an opened array, and what stands from a `settle` to the next write.
ghost use Rattle.std.specs.Prelude.{◌≡◌, ◌++◌, ℕ, List, ◌∷◌, All, Option, length};
ghost use Rattle.dg_model.specs.Openings.{Found, Opens, Reduced};
ghost use Rattle.dg_model.specs.Runs.{Run};
ghost use Rattle.dg_model.specs.Saves.{CanBeSaved};
ghost use Rattle.dg_model.specs.States.{Counts, State};
ghost use Rattle.dg_model.specs.Steps.{Step};
ghost use Rattle.dg_model.specs.declared.events.Event.{Event};
ghost use Rattle.dg_model.specs.declared.events.Event.TheVariants.{Cat, Settle};
ghost use Rattle.dg_model.specs.declared.replies.Reply.{Reply};
ghost use Rattle.dg_model.specs.declared.replies.Reply.TheVariants.{Settled as SettledReply};
ghost use Rattle.dg_promise.specs.Promises.{AreTold, FewLost, IsAsPromised, LosesNone};
ghost use Rattle.dg_promise.specs.Readings.{NoneChanges, ReadsFrom};
ghost use Rattle.dg_promise.specs.Steady.{FitsBlock, IsSteady};

use crate::orders::order_is_kept;
use crate::promises::cat_keeps_its_promise;
use crate::steady::steps_keep_steady;

/// An array that is opened from a state which a body can say keeps what all states keep.
pub fn opened_arrays_are_steady()
    ensures { (taken : ℕ → Option Found) (beside : Option Reduced) (before : Counts) (state : State)
        → All (λ block. length block ≡ state.table.shape.l) state.blocks → (opens : Opens AreTold taken beside before state) → CanBeSaved opens.saved
        → IsSteady state }
{}

/// Each `cat` in the middle of a run from such a state keeps its promise.
pub fn steady_runs_keep_their_promise()
    ensures { (first : State) (front : List Event) (path : List ℕ) (rest : List Event) (replies : List Reply) (last : State)
        → IsSteady first → All (FitsBlock first.table.shape.l) front → Run AreTold first (front ++ Cat path ∷ rest) replies last
        → ReadsFrom first front path rest replies last }
{
    cat_keeps_its_promise();
    steps_keep_steady();
}

/// From a `settle` that was done to the next write that is done, whichever members fail, are replaced and refilled, and whatever is read, copied
/// and saved between them: a `cat` keeps its promise while fewer than m boundaries are lost.
pub fn settled_arrays_keep_their_promise()
    ensures { (first settled : State) (between : List Event) (replies : List Reply) (old : State) (path : List ℕ) (reply : Reply) (new : State)
        → IsSteady first → Step AreTold first Settle SettledReply settled → All (FitsBlock first.table.shape.l) between
        → Run AreTold settled between replies old → NoneChanges between replies → FewLost old → LosesNone old new
        → Step AreTold old (Cat path) reply new → IsAsPromised old path reply }
{
    cat_keeps_its_promise();
    order_is_kept();
    steps_keep_steady();
}
