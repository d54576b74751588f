// Laws of going on after a loss.
ghost use Rattle.std.specs.Prelude.{◌≡◌, ◌<◌, ℕ, List, All, filter};
ghost use Rattle.std.specs.List.{range_with_len};
ghost use Rattle.dg_io.specs.Reduced.{places_left};
ghost use Rattle.dg_model.specs.Lives.{left_of};
ghost use Rattle.dg_model.specs.Sites.{is_gone};
ghost use Rattle.dg_model.specs.Tables.{IsTable, Table};
ghost use Rattle.dg_model.specs.declared.members.MemberState.{MemberState};
ghost use Rattle.dg_model.specs.declared.shapes.Shape.{Shape};
ghost use Rattle.dg_regroup.specs.Cuts.{AreMarkedLost, cut_off};
ghost use Rattle.dg_regroup.specs.Extras.{IsExtra, extra_bytes};
ghost use Rattle.dg_regroup.specs.LiveRacks.{named};
ghost use Rattle.dg_regroup.specs.declared.extras.Extra.{Extra};

/// The name of a rack of boundaries in use tells them, and the name of the rack below. So what keeps the name keeps both.
pub fn names_tell_boundaries()
    ensures { (one other : List ℕ) (n m : ℕ) → All (λ s. s < 16) one → All (λ s. s < 16) other → named n one ≡ named m other → (one ≡ other) × (n ≡ m) }
{}

/// Where bit s is set just for each lost boundary s, those that are left are those that aren't lost, and the blocks that
/// fall out are those that are gone.
pub fn gone_blocks_are_cut()
    ensures left { (lost : ℕ) (shape : Shape) (members : ℕ → MemberState) → AreMarkedLost lost shape members → places_left lost shape.b ≡ left_of shape members }
    ensures cut { (lost : ℕ) (table : Table) (members : ℕ → MemberState) → IsTable table → AreMarkedLost lost table.shape members
        → cut_off (places_left lost table.shape.b) table ≡ filter (λ b. is_gone table members b) (range_with_len 0 table.shape.n) }
{}

/// Bytes say one thing alone.
pub fn extra_bytes_are_unique()
    ensures { (one other : Extra) → IsExtra one → IsExtra other → extra_bytes one ≡ extra_bytes other → one ≡ other }
{}
