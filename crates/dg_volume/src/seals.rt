// Opening the seal of the label, and what is written behind that.
ghost use Rattle.std.specs.Prelude.{◌≡◌, ◌+◌, ◌*◌, ◌<◌, ℕ, All, List, Option, false, true, length, max, min, IfOk, OnErr};
ghost use Rattle.std.specs.List.{list_any};
ghost use Rattle.dg_hot.specs.Spreads.{HasSpread, HasSpreadSome, IsLost};
ghost use Rattle.dg_label.specs.Labels.{HasOwnSeal};
ghost use Rattle.dg_model.specs.Copies.{lacks_copy};
ghost use Rattle.dg_model.specs.Homes.{Ascend};
ghost use Rattle.dg_model.specs.Moves.{AreTargets, missing_in};
ghost use Rattle.dg_model.specs.Placed.{IsPlaced};
ghost use Rattle.dg_model.specs.States.{has_lost};
ghost use Rattle.dg_model.specs.Tables.{sites_in};
ghost use Rattle.dg_model.specs.declared.shapes.Shape.{Shape};
ghost use Rattle.dg_model.specs.declared.wants.Want.{Want};
ghost use Rattle.dg_move.specs.Answers.{NamesLoss};
ghost use Rattle.dg_plan.specs.Targets.{blocks_in, wants_of};
ghost use Rattle.dg_store.specs.Answers.{IsAllLost, IsUnchanged, SameWritten};
ghost use Rattle.dg_store.specs.Leaves.{CallsAtMost};
ghost use Rattle.dg_store.specs.Stores.{IsSound, members_of, rack_of, shape_of, table_of};
ghost use Rattle.dg_volume.specs.Planned.{AreWanted, HasMovedArray};
ghost use Rattle.dg_volume.specs.Seals.{EndsMoves, FallsOn, HasStoredBlock, OpensWhere, Relabels, opening_calls};

use crate::file_lists::{any_lacks_copy, file_lists};
use dg_hot::{DiffuseAnswer, Hot, diffuse};
use dg_infer::Inference;
use dg_io::{NoMemory, Rack};
use dg_label::{KeptLabel, open_seal};
use dg_move::{TendAnswer, missing, tend};
use dg_plan::{Homes, Targets};
use dg_store::{Store, StoreWrite};
use std::alloc::Global;

/// Opens the seal where members are to be written.
pub fn open_where<R: Rack>(store: &mut Store<R>, label: &mut Option<KeptLabel>, writes: bool)
    requires sound { IsSound R.Rack store.old }
    requires seal { HasOwnSeal (shape_of store.old) label.old }
    ensures { OpensWhere R.Rack writes store.old store.new label.old label.new }
{
    if !writes {
        return;
    }
    open_seal(store, label);
}

/// Writes a block to its sites, behind the opening of the seal. A boundary that the opening loses doesn't refuse the write.
pub fn write_opened<R: Rack>(
    store: &mut Store<R>,
    label: &mut Option<KeptLabel>,
    block: u32,
    buf: &[u8],
) -> Result<StoreWrite, NoMemory>
    requires sound { IsSound R.Rack store.old }
    requires seal { HasOwnSeal (shape_of store.old) label.old }
    requires whole { has_lost (shape_of store.old) (members_of store.old) ≡ false }
    requires range { block < (shape_of store.old).n }
    requires size { length buf.now ≡ (shape_of store.old).l }
    ensures falls { FallsOn R.Rack store.old store.new }
    ensures stored { IfOk result (λ answer. answer ≡ StoreWrite.Stored → HasStoredBlock R.Rack block buf.now store.old store.new) }
    ensures lost { IfOk result (λ answer. answer ≡ StoreWrite.AllLost → IsAllLost R.Rack block store.old store.new) }
    ensures err { OnErr result (IsUnchanged R.Rack store.old store.new) }
    ensures most { CallsAtMost R.Rack store.old store.new
        (opening_calls label.old (2 * (shape_of store.old).b) + 2 * max 1 (length (sites_in (table_of store.old) block))) }
    ensures label { (line : Shape) → Relabels R.Rack line store.old store.new label.old label.new }
{
    open_where(store, label, true);
    store.write(block, buf)
}

/// Moves blocks to their targets, with at most `limit` copies. The seal is opened before the first of them.
pub fn move_within<R: Rack>(
    store: &mut Store<R>,
    label: &mut Option<KeptLabel>,
    targets: &Targets,
    limit: u32,
) -> Result<TendAnswer, NoMemory>
    requires sound { IsSound R.Rack store.old }
    requires seal { HasOwnSeal (shape_of store.old) label.old }
    requires size { blocks_in targets.now ≡ (shape_of store.old).n }
    requires targets { AreTargets (wants_of targets.now) (table_of store.old) }
    requires live { has_lost (shape_of store.old) (members_of store.old) ≡ false }
    ensures array { HasMovedArray R.Rack store.old store.new }
    ensures written { SameWritten (table_of store.old) (table_of store.new) }
    ensures label { (line : Shape) → Relabels R.Rack line store.old store.new label.old label.new }
    ensures moves { IfOk result (λ answer. EndsMoves (wants_of targets.now) limit (table_of store.old) (table_of store.new) (members_of store.new) answer) }
    ensures still { min limit (missing_in (wants_of targets.now) (table_of store.old)) ≡ 0 → rack_of store.new ≡ rack_of store.old }
    ensures lost { IfOk result (λ answer. NamesLoss (shape_of store.new) (members_of store.new) answer) }
{
    let copies = limit.min(missing(store, targets));
    open_where(store, label, copies > 0);
    if let Some(lost) = store.least_lost() {
        return Ok(TendAnswer::Lost(lost));
    }
    tend(store, targets, limit)
}

/// Copies the files that were read last, where one of them has a home and no copy. The seal is opened before that. The cost is
/// that of the files that are copied, and not of the array.
pub fn spread_recent<R: Rack>(
    alloc: Global,
    store: &mut Store<R>,
    label: &mut Option<KeptLabel>,
    hot: &Hot,
    inference: &Inference,
    homes: &Homes,
    copies: &mut Homes,
) -> Result<DiffuseAnswer, NoMemory>
    requires sound { IsSound R.Rack store.old }
    requires seal { HasOwnSeal (shape_of store.old) label.old }
    requires whole { has_lost (shape_of store.old) (members_of store.old) ≡ false }
    requires placed { (wants : List (Option Want)) × AreWanted (table_of store.old) inference.now wants
        × IsPlaced wants (table_of store.old) homes.now copies.old }
    ensures array { HasMovedArray R.Rack store.old store.new }
    ensures written { SameWritten (table_of store.old) (table_of store.new) }
    ensures label { (line : Shape) → Relabels R.Rack line store.old store.new label.old label.new }
    ensures placed { (wants : List (Option Want)) → AreWanted (table_of store.old) inference.now wants
        → IsPlaced wants (table_of store.new) homes.now copies.new }
    ensures whole { IfOk result (λ answer. (n : ℕ) → answer ≡ DiffuseAnswer.Diffused n
        → has_lost (shape_of store.new) (members_of store.new) ≡ false) }
    ensures diffused { (wants : List (Option Want)) → AreWanted (table_of store.old) inference.now wants
        → IfOk result (λ answer. (n : ℕ) → answer ≡ DiffuseAnswer.Diffused n
        → HasSpread wants homes.now hot.now (length hot.now) n copies.old copies.new store.old store.new) }
    ensures lost { IfOk result (λ answer. (s : ℕ) → answer ≡ DiffuseAnswer.Lost s → IsLost store.new s) }
    ensures still { list_any (lacks_copy homes.now copies.old) hot.now ≡ false → rack_of store.new ≡ rack_of store.old }
    ensures cut { (wants : List (Option Want)) → AreWanted (table_of store.old) inference.now wants
        → IfOk result (λ answer. (s : ℕ) → answer ≡ DiffuseAnswer.Lost s
        → HasSpreadSome wants homes.now hot.now copies.old copies.new store.old store.new) }
{
    let recent = hot.inodes(alloc)?;
    if !any_lacks_copy(homes, copies, &recent) {
        return Ok(DiffuseAnswer::Diffused(0));
    }
    let blocks = file_lists(alloc, store, inference, homes, copies, &recent)?;
    open_seal(store, label);
    if let Some(lost) = store.least_lost() {
        return Ok(DiffuseAnswer::Lost(lost));
    }
    diffuse(alloc, store, hot, &blocks, homes, copies)
}
