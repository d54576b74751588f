// Runs that end with a save, and runs on what it left.
ghost use Rattle.std.specs.Prelude.{◌≡◌, ◌≢◌, ◌<◌, ◌++◌, ℕ, false, List, [], ◌∷◌, All, Option, None};
ghost use Rattle.dg_model.specs.Causes.{NoneRose};
ghost use Rattle.dg_model.specs.Moments.{HistoryOf, Moment};
ghost use Rattle.dg_model.specs.Openings.{Found, HasNoState, IsUnclean, Opens};
ghost use Rattle.dg_model.specs.Runs.{Run, Trace};
ghost use Rattle.dg_model.specs.States.{Counts, Holds, HoldsAll, State, gone_in};
ghost use Rattle.dg_model.specs.Steps.{Step};
ghost use Rattle.dg_model.specs.declared.events.Event.{Event};
ghost use Rattle.dg_model.specs.declared.events.Event.TheVariants.{Read, Regroup, Save as SaveEvent};
ghost use Rattle.dg_model.specs.declared.replies.Reply.{Reply};
ghost use Rattle.dg_model.specs.declared.replies.Reply.TheVariants.{Saved};
ghost use Rattle.dg_kept.specs.Opened.{AreTold};
ghost use Rattle.dg_kept.specs.Saved.{Save};
ghost use Rattle.dg_kept.specs.SavedRuns.{AreAllInUse, AreTakenAway, EndsWithSave, GivesBlock, IsReading, IsResumed, LeavesSave, WasLed};
ghost use Rattle.dg_kept.specs.Taken.{AreTaken};

use crate::openings::{newest_saves_are_found, saved_arrays_are_opened};
use crate::saves::{saves_are_found_on_what_is_left, saves_leave_the_state};

/// A run whose last event saved the array led to the state that was saved: a run from the blank array, one from a state in which the array was
/// opened, or one of an array of any kind.
pub fn runs_end_with_saves()
    ensures traced { (before : Counts) (events : List Event) (replies : List Reply) (number : ℕ) (last : State) (bytes : ℕ → Option (List ℕ))
        → Trace AreTold before (events ++ SaveEvent ∷ []) (replies ++ Saved number ∷ []) last → AreAllInUse last
        → HoldsAll bytes last → EndsWithSave (Trace AreTold before events replies) number last bytes }
    ensures resumed { (first : State) (events : List Event) (replies : List Reply) (number : ℕ) (last : State) (bytes : ℕ → Option (List ℕ))
        → Run AreTold first (events ++ SaveEvent ∷ []) (replies ++ Saved number ∷ []) last → AreAllInUse last
        → HoldsAll bytes last → EndsWithSave (Run AreTold first events replies) number last bytes }
    ensures of_kinds { (before : Counts) (events : List Event) (replies : List Reply) (number : ℕ) (last : Moment) (bytes : ℕ → Option (List ℕ))
        → HistoryOf AreTold before (events ++ SaveEvent ∷ []) (replies ++ Saved number ∷ []) last
        → AreAllInUse last.state → HoldsAll bytes last.state → EndsWithSave (WasLed before events replies) number last.state bytes }
{
    saves_leave_the_state();
}

/// After a save, whichever members are taken away, an opening in which no call fails isn't refused, and gives the saved state but for members that
/// are out.
pub fn saved_states_are_resumed()
    ensures some { (old : State) (number : ℕ) (last : State) (bytes images : ℕ → Option (List ℕ)) (save : Save) (taken : ℕ → Option Found)
        → LeavesSave old number last bytes save → AreTakenAway save last bytes images → AreTaken images taken
        → (IsUnclean taken → ⊥) × (HasNoState taken → ⊥) }
    ensures opened { (old : State) (number : ℕ) (last : State) (bytes images : ℕ → Option (List ℕ)) (save : Save) (taken : ℕ → Option Found)
        (before : Counts) (state : State)
        → LeavesSave old number last bytes save → AreTakenAway save last bytes images → AreTaken images taken → Opens AreTold taken None before state
        → NoneRose before.faults state.counts.faults → IsResumed old save images state }
{
    newest_saves_are_found();
    saved_arrays_are_opened();
    saves_are_found_on_what_is_left();
}

/// Of two runs, the first of which ends with a save, and the second begins with such an opening: each block that is read in the second one, before
/// anything but readings was done, has its value of the save, if it isn't gone.
pub fn saved_blocks_are_read()
    ensures { (before : Counts) (events : List Event) (replies : List Reply) (number : ℕ) (last : State) (bytes images : ℕ → Option (List ℕ))
        (end : EndsWithSave (Trace AreTold before events replies) number last bytes) (taken : ℕ → Option Found) (opened : Counts) (state : State)
        (readings : List Event) (answers : List Reply) (mid : State) (b : ℕ) (reply : Reply) (new : State)
        → AreTakenAway end.save last bytes images → AreTaken images taken → Opens AreTold taken None opened state
        → NoneRose opened.faults state.counts.faults → Holds images state → All IsReading readings → Run AreTold state readings answers mid
        → b < end.old.table.shape.n → Step AreTold mid (Read b) reply new → gone_in new b ≡ false → GivesBlock end.old.blocks b reply }
{
    saved_states_are_resumed();
}

/// In a run in which no boundaries are taken out of use all stay in use: in one from the blank array, and in one from an opening beside which
/// nothing else was saved.
pub fn boundaries_stay_in_use()
    ensures traced { (before : Counts) (events : List Event) (replies : List Reply) (last : State) → All (λ event. event ≢ Regroup) events
        → Trace AreTold before events replies last → AreAllInUse last }
    ensures resumed { (taken : ℕ → Option Found) (before : Counts) (first : State) (events : List Event) (replies : List Reply) (last : State)
        → All (λ event. event ≢ Regroup) events → Opens AreTold taken None before first → Run AreTold first events replies last → AreAllInUse last }
{}
