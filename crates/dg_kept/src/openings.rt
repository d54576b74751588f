// What is opened of members that have a save.
ghost use Rattle.std.specs.Prelude.{◌≡◌, ℕ, List, Option};
ghost use Rattle.dg_model.specs.Causes.{NoneRose};
ghost use Rattle.dg_model.specs.Openings.{Found, HasNoState, IsSource, IsUnclean, Opens, Reduced};
ghost use Rattle.dg_model.specs.Saves.{Label, SavedState};
ghost use Rattle.dg_model.specs.Seals.{label_on};
ghost use Rattle.dg_model.specs.States.{Counts, StandsFor, State};
ghost use Rattle.dg_model.specs.declared.members.MemberState.{MemberState};
ghost use Rattle.dg_kept.specs.Opened.{AreAsFound, AreTold, HoldsSaved, IsAsSaved, StaysSettled};
ghost use Rattle.dg_kept.specs.Saved.{IsFoundOn, IsSave, Save};
ghost use Rattle.dg_kept.specs.Taken.{AreTaken};

use dg_save::{bodies_are_unique, labels_are_unique};

/// Where a save is found on members, and no call fails, an opening isn't refused, the state that it takes is the saved one, and members hold the
/// blocks of the save that are good only where they may be.
pub fn newest_saves_are_found()
    ensures clean { (save : Save) (images : ℕ → Option (List ℕ)) (taken : ℕ → Option Found) → IsSave save → IsFoundOn save images → AreTaken images taken
        → IsUnclean taken → ⊥ }
    ensures some { (save : Save) (images : ℕ → Option (List ℕ)) (taken : ℕ → Option Found) → IsSave save → IsFoundOn save images → AreTaken images taken
        → HasNoState taken → ⊥ }
    ensures source { (save : Save) (images : ℕ → Option (List ℕ)) (taken : ℕ → Option Found) (q : ℕ) (label : Label) (saved : SavedState)
        → IsSave save → IsFoundOn save images → AreTaken images taken → IsSource taken q label saved
        → (label ≡ label_on save.label q) × (saved ≡ save.state) }
    ensures held { (save : Save) (images : ℕ → Option (List ℕ)) (taken : ℕ → Option Found) (q : ℕ) (label : Label) (saved : SavedState)
        (members : ℕ → MemberState)
        → IsSave save → IsFoundOn save images → AreTaken images taken → IsSource taken q label saved → AreAsFound taken label saved members
        → StandsFor saved.table members images save.blocks }
{
    labels_are_unique();
    bodies_are_unique();
}

/// So an array that is opened from them, on which no call fails, is the saved one but for members that are out: it has the saved sites, homes,
/// recent inodes and label, its marks, phase and copies by the rules of an opening, and each block that isn't gone.
pub fn saved_arrays_are_opened()
    ensures { (save : Save) (images : ℕ → Option (List ℕ)) (taken : ℕ → Option Found) (beside : Option Reduced) (before : Counts) (state : State)
        → IsSave save → IsFoundOn save images → AreTaken images taken → Opens AreTold taken beside before state
        → NoneRose before.faults state.counts.faults
        → IsAsSaved save images state × HoldsSaved save images state × StaysSettled save state }
{
    newest_saves_are_found();
    labels_are_unique();
    bodies_are_unique();
}
