// A settled state is in order, and stays so.
ghost use Rattle.std.specs.Prelude.{◌≡◌, ◌≢◌, ℕ, List, [], All, length};
ghost use Rattle.dg_model.specs.Changes.{IsInOrder};
ghost use Rattle.dg_model.specs.Homes.{Ascend};
ghost use Rattle.dg_model.specs.States.{State};
ghost use Rattle.dg_model.specs.Steps.{Step};
ghost use Rattle.dg_model.specs.Tables.{IsTable};
ghost use Rattle.dg_model.specs.declared.events.Event.{Event};
ghost use Rattle.dg_model.specs.declared.events.Event.TheVariants.{Regroup, Settle, Write};
ghost use Rattle.dg_model.specs.declared.phases.Phase.TheVariants.{Settled};
ghost use Rattle.dg_model.specs.declared.replies.Reply.{Reply};
ghost use Rattle.dg_model.specs.declared.replies.Reply.TheVariants.{Settled as SettledReply};
ghost use Rattle.dg_promise.specs.Promises.{AreTold};

use dg_plan::targets_of_plans;
use ufs_frames::{change_of_loose_blocks, parts_are_local, volumes_of_whole_blocks};

/// A `settle` that was done, of a state that wasn't settled and has no copies, leads to a state in order.
pub fn settled_is_in_order()
    ensures { (old new : State) → IsTable old.table → Ascend old.homes → old.copies ≡ [] → old.phase ≢ Settled
        → Step AreTold old Settle SettledReply new → IsInOrder AreTold new }
{
    targets_of_plans();
}

/// A settled state in order stays settled and in order in each step but a write and one that takes boundaries out of use: while it is
/// read, while members fail, are replaced and refilled, which may reap dead blocks, while files get copies, and where it is saved.
pub fn order_is_kept()
    ensures { (old : State) (event : Event) (reply : Reply) (new : State) → IsTable old.table
        → All (λ block. length block ≡ old.table.shape.l) old.blocks → old.phase ≡ Settled → IsInOrder AreTold old
        → ((b : ℕ) (bytes : List ℕ) → event ≢ Write b bytes) → event ≢ Regroup → Step AreTold old event reply new
        → IsInOrder AreTold new × (new.phase ≡ Settled) }
{
    volumes_of_whole_blocks();
    change_of_loose_blocks();
    parts_are_local();
}
