// What a settled array promises while few boundaries are lost.
ghost use Rattle.std.specs.Prelude.{◌≡◌, ◌↔◌, ℕ, List, All, IsNone, length};
ghost use Rattle.dg_model.specs.Causes.{NoneRose};
ghost use Rattle.dg_model.specs.Changes.{IsInOrder};
ghost use Rattle.dg_model.specs.Homes.{home_of};
ghost use Rattle.dg_model.specs.States.{State};
ghost use Rattle.dg_model.specs.Steps.{Step};
ghost use Rattle.dg_model.specs.Tables.{IsTable};
ghost use Rattle.dg_model.specs.Valid.{KeepsPromise};
ghost use Rattle.dg_model.specs.Volumes.{IsRegularFile};
ghost use Rattle.dg_model.specs.declared.events.Event.TheVariants.{Cat};
ghost use Rattle.dg_model.specs.declared.replies.Reply.{Reply};
ghost use Rattle.dg_promise.specs.Promises.{AreTold, FewLost, IsAsPromised, LosesNone, OwnsNoWritten};

use ufs_frames::{files_are_tame, volumes_of_whole_blocks};

/// In a state in order with fewer than m lost boundaries, in a step in which no boundary becomes lost, a `cat` gives all of a regular
/// file exactly where no block was cut that is needed to read it, and the file has no home, or its home or its copy isn't lost; it is
/// unavailable exactly where that isn't so. A path that leads to no regular file is refused as reading it is, unless such a block was cut.
pub fn cat_keeps_its_promise()
    ensures { (old : State) (path : List ℕ) (reply : Reply) (new : State) → IsTable old.table
        → All (λ block. length block ≡ old.table.shape.l) old.blocks → IsInOrder AreTold old → FewLost old → LosesNone old new
        → Step AreTold old (Cat path) reply new → IsAsPromised old path reply }
{
    files_are_tame();
    volumes_of_whole_blocks();
}

/// A `cat` in which no member's count of faults rose loses no boundary.
pub fn cats_without_faults_lose_none()
    ensures { (old : State) (path : List ℕ) (reply : Reply) (new : State) → Step AreTold old (Cat path) reply new
        → NoneRose old.counts.faults new.counts.faults → LosesNone old new }
{}

/// What the state itself promises, whatever is read: no block is gone that the path needs, exactly where none of them was cut and the file
/// is served; for a path that leads to no regular file, exactly where none was cut.
pub fn few_losses_leave_files_whole()
    ensures { (state : State) (path : List ℕ) → IsTable state.table → All (λ block. length block ≡ state.table.shape.l) state.blocks
        → IsInOrder AreTold state → FewLost state → KeepsPromise state path }
{
    files_are_tame();
    volumes_of_whole_blocks();
}

/// In a state in order a regular file has no home exactly where it owns no written block.
pub fn homes_are_of_owners()
    ensures { (state : State) (i : ℕ) → IsInOrder AreTold state → IsRegularFile state.table.shape.l state.table.shape.n state.blocks i
        → IsNone (home_of state.homes i) ↔ OwnsNoWritten state i }
{}
