// Members of a rack in memory that are taken away after a save, one after another.
ghost use Rattle.std.specs.Prelude.{◌≡◌, ◌≢◌, ◌≤◌, ◌<◌, ◌/◌, [], ℕ, true, List, Option, Some};
ghost use Rattle.dg_io.specs.Racks.{counts_in, member_in};
ghost use Rattle.dg_kept.specs.Saved.{Save};
ghost use Rattle.dg_kept.specs.SavedRuns.{AreTakenAway, LeavesSave};
ghost use Rattle.dg_model.specs.Members.{is_good};
ghost use Rattle.dg_model.specs.States.{State};
ghost use Rattle.dg_model.specs.declared.members.MemberState.{MemberState};
ghost use Rattle.dg_uses.specs.Answers.{TellsEach};
ghost use Rattle.dg_uses.specs.Saves.{HaveNoHeaders};

use dg_io::MemRack;
use dg_kept::blank_members_are_older;

/// Before any member is taken away: where none of the array's is out, and those behind them have no bytes, what a save left is what members
/// were taken away from.
pub fn all_stand_at_first()
    ensures { (save : Save) (last : State) (held : ℕ → Option (List ℕ)) (one : ℕ) → one < 32 → is_good (last.members one) ≡ true → TellsEach held
        → ((q : ℕ) → q / 2 < last.table.shape.b → last.members q ≢ MemberState.Out)
        → ((q : ℕ) → last.table.shape.b ≤ q / 2 → held q ≡ Some [])
        → (away : AreTakenAway save last held held) × (away.one.0 ≡ one) }
{
    blank_members_are_older();
}

/// A save whose array has good members alone leaves no header on a member, where those behind them have no bytes.
pub fn good_members_have_no_headers()
    ensures { (old : State) (number : ℕ) (last : State) (held : ℕ → Option (List ℕ)) (save : Save) → LeavesSave old number last held save
        → ((q : ℕ) → q / 2 < last.table.shape.b → is_good (last.members q) ≡ true) → ((q : ℕ) → last.table.shape.b ≤ q / 2 → held q ≡ Some [])
        → HaveNoHeaders held }
{}

/// Takes a member away. As long as a good one stays as it was, what is left is what members were taken away from, and it is the same good one.
pub fn take_away(rack: &mut MemRack, member: u8)
    ensures away { (save : Save) (last : State) (held : ℕ → Option (List ℕ)) (away : AreTakenAway save last held (member_in rack.old))
        → away.one.0 ≢ member → (next : AreTakenAway save last held (member_in rack.new)) × (next.one.0 ≡ away.one.0) }
    ensures headers { HaveNoHeaders (member_in rack.old) → HaveNoHeaders (member_in rack.new) }
    ensures removed { member_in rack.new member ≡ Some [] }
    ensures others { (q : ℕ) → q ≢ member → member_in rack.new q ≡ member_in rack.old q }
    ensures counts { counts_in rack.new ≡ counts_in rack.old }
{
    blank_members_are_older();
    rack.remove(member);
}
