// What a step that saves an array leaves on its members.
ghost use Rattle.std.specs.Prelude.{◌≡◌, ◌*◌, ℕ, List, [], Option, take};
ghost use Rattle.dg_model.specs.Blocks.{zeros};
ghost use Rattle.dg_model.specs.States.{HoldsAll, State};
ghost use Rattle.dg_model.specs.Steps.{Step};
ghost use Rattle.dg_model.specs.declared.events.Event.TheVariants.{Save as SaveEvent};
ghost use Rattle.dg_model.specs.declared.replies.Reply.TheVariants.{Saved};
ghost use Rattle.dg_kept.specs.Opened.{AreTold};
ghost use Rattle.dg_kept.specs.Saved.{IsFoundOn, IsOlder, Save};
ghost use Rattle.dg_kept.specs.SavedRuns.{AreAllInUse, AreTakenAway, LeavesSave};

/// Where a state was saved with all its boundaries in use, each member that is good in the end has what was saved: the label with
/// the number of the reply, the state, and the blocks. One that is refilled then has no label.
pub fn saves_leave_the_state()
    ensures { (old : State) (number : ℕ) (new : State) (bytes : ℕ → Option (List ℕ)) → Step AreTold old SaveEvent (Saved number) new
        → AreAllInUse new → HoldsAll bytes new → (save : Save) × LeavesSave old number new bytes save }
{}

/// A member without bytes has no label, nor has one that begins with 512 zeros: it is older than any save.
pub fn blank_members_are_older()
    ensures empty { (save : Save) (q : ℕ) → IsOlder save q [] }
    ensures zeros { (save : Save) (q : ℕ) (all : List ℕ) → take 512 all ≡ zeros 512 → IsOlder save q all }
{}

/// Whichever members are taken away then, as long as a good one is left as it was, and each other one was left so too, or was out and has what was
/// saved or is older, or is gone: the save is found on what is left.
pub fn saves_are_found_on_what_is_left()
    ensures { (old : State) (number : ℕ) (new : State) (bytes images : ℕ → Option (List ℕ)) (save : Save) → LeavesSave old number new bytes save
        → AreTakenAway save new bytes images → IsFoundOn save images }
{}
