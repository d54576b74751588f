// What a path gives of a volume of which some blocks were cut.
ghost use Rattle.std.specs.Prelude.{◌≡◌, ℕ, Bool, List, length};
ghost use Rattle.dg_model.specs.States.{State};
ghost use Rattle.dg_model.specs.Steps.{Step};
ghost use Rattle.dg_model.specs.declared.events.Event.TheVariants.{Regroup};
ghost use Rattle.dg_model.specs.declared.replies.Reply.TheVariants.{Regrouped};
ghost use Rattle.dg_promise.specs.Promises.{AreTold};
ghost use Rattle.dg_promise.specs.Uncut.{KeepsUncut, NeedsNone};
ghost use Rattle.ufs_model.specs.Blocks.{Volume};
ghost use Rattle.ufs_model.specs.Listings.{ls_of};
ghost use Rattle.ufs_model.specs.Paths.{cat_of};

use ufs_frames::readings_are_local;

/// Taking lost boundaries out of use leaves each block that isn't cut afterwards.
pub fn uncut_blocks_stay()
    ensures { (old : State) (r c : ℕ) (new : State) → length old.cut ≡ length old.blocks → Step AreTold old Regroup (Regrouped r c) new
        → KeepsUncut old.table.shape.l new.cut old.blocks new.blocks }
{}

/// A path none of whose blocks is cut gives the same of a volume, before and after blocks were cut, and by the same blocks: whether it is
/// those that it needs before, or those that it needs after.
pub fn cut_blocks_leave_paths()
    ensures cat_before { (l n : ℕ) (path : List ℕ) (v w : Volume) (cut : List Bool) → KeepsUncut l cut v w → NeedsNone cut (cat_of l n path v)
        → cat_of l n path w ≡ cat_of l n path v }
    ensures cat_after { (l n : ℕ) (path : List ℕ) (v w : Volume) (cut : List Bool) → KeepsUncut l cut v w → NeedsNone cut (cat_of l n path w)
        → cat_of l n path w ≡ cat_of l n path v }
    ensures ls_before { (l n : ℕ) (path : List ℕ) (v w : Volume) (cut : List Bool) → KeepsUncut l cut v w → NeedsNone cut (ls_of l n path v)
        → ls_of l n path w ≡ ls_of l n path v }
    ensures ls_after { (l n : ℕ) (path : List ℕ) (v w : Volume) (cut : List Bool) → KeepsUncut l cut v w → NeedsNone cut (ls_of l n path w)
        → ls_of l n path w ≡ ls_of l n path v }
{
    readings_are_local();
}
