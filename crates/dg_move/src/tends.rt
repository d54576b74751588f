// Moves with a limit.
ghost use Rattle.std.specs.Prelude.{◌≡◌, ◌⊎◌, ◌+◌, ◌<◌, ◌≤◌, ℕ, length, true, false, IfNone, IfOk, IfSome, OnErr, OnOk, Some};
ghost use Rattle.dg_model.specs.Members.{is_lost};
ghost use Rattle.dg_model.specs.Moves.{AreTargets, IsCutByLoss, IsCutOff, IsTidy, is_missing, missing_in};
ghost use Rattle.dg_model.specs.States.{IsLeastLost, has_lost};
ghost use Rattle.dg_model.specs.Tables.{used_in};
ghost use Rattle.dg_plan.specs.Targets.{blocks_in, wants_of};
ghost use Rattle.dg_store.specs.Leaves.{CallsAtMost};
ghost use Rattle.dg_store.specs.Stores.{IsSound, members_of, rack_of, shape_of, table_of};
ghost use Rattle.dg_move.specs.Answers.{MovesTo, NamesLoss};
ghost use Rattle.dg_move.specs.Cursors.{AreCursors};
ghost use Rattle.dg_move.specs.Stops.{StoppedAt};
ghost use Rattle.dg_move.specs.Stores.{MovesOn, copy_calls, rounds_in};
ghost use Rattle.dg_move.specs.Turns.{IsNext, IsStopped, IsTurn, IsTurned, Meets, TurnsOrStops};

use crate::cursors::{cursors, first_missing, least_cursor};
use crate::placements::missing;
use crate::spares::{give_up_spare, tidy};
use dg_io::Rack;
use dg_model::NoMemory;
use dg_plan::Targets;
use dg_store::{PlaceAnswer, Store};

/// What became of moves.
#[derive(Clone, Copy, Debug, PartialEq, Eq)]
pub enum TendAnswer {
    /// So many placements were met, and so many are still missing.
    Tended { moved: u32, left: u32 },
    /// The lost boundary with the lowest number.
    Lost(u8),
}

/// Copies a block to a boundary that has a free slot, and then the block gives up its sites on no target. False where a
/// boundary was lost, and the copy doesn't stand.
fn move_block<R: Rack>(
    store: &mut Store<R>,
    targets: &Targets,
    block: u32,
    boundary: u8,
) -> Result<bool, NoMemory>
    requires sound { IsSound R.Rack store.old }
    requires size { blocks_in targets.now ≡ (shape_of store.old).n }
    requires targets { AreTargets (wants_of targets.now) (table_of store.old) }
    requires block { block < (shape_of store.old).n }
    requires boundary { boundary < (shape_of store.old).b }
    requires missing { is_missing (wants_of targets.now) (table_of store.old) block boundary ≡ true }
    requires room { used_in (table_of store.old) boundary ≤ (shape_of store.old).k }
    ensures on { MovesOn R.Rack (wants_of targets.now) store.old store.new }
    ensures meets { IfOk result (λ moved. moved ≡ true → Meets (wants_of targets.now) (table_of store.old) (table_of store.new) block boundary) }
    ensures stands { IfOk result (λ moved. moved ≡ true → is_lost (members_of store.new) boundary ≡ false) }
    ensures stopped { IfOk result (λ moved. moved ≡ false → IsStopped R.Rack block boundary store.old store.new) }
    ensures err { OnErr result (table_of store.new ≡ table_of store.old) }
    ensures most { CallsAtMost R.Rack store.old store.new (copy_calls (table_of store.old) 1) }
{
    match store.place(block, boundary, true)? {
        PlaceAnswer::Placed => {
            give_up_spare(store, targets, block);
            Ok(true)
        }
        PlaceAnswer::Full => unreachable!(),
        PlaceAnswer::Gone | PlaceAnswer::Lost(_) => Ok(false),
    }
}

/// One round on blocks that have no site to give up: the next placement is met. Where a boundary is lost, it may be that
/// nothing has changed.
fn turn<R: Rack>(
    store: &mut Store<R>,
    targets: &Targets,
    next: &mut [u32; 16],
) -> Result<(), NoMemory>
    requires sound { IsSound R.Rack store.old }
    requires size { blocks_in targets.now ≡ (shape_of store.old).n }
    requires targets { AreTargets (wants_of targets.now) (table_of store.old) }
    requires tidy { IsTidy (wants_of targets.now) (table_of store.old) }
    requires cursors { AreCursors (wants_of targets.now) (table_of store.old) next.old }
    requires some { 0 < missing_in (wants_of targets.now) (table_of store.old) }
    ensures on { MovesOn R.Rack (wants_of targets.now) store.old store.new }
    ensures turned { OnOk result (TurnsOrStops R.Rack (wants_of targets.now) store.old store.new next.new) }
    ensures next { (b s : ℕ) × IsNext (wants_of targets.now) (table_of store.old) b s }
    ensures err { OnErr result (table_of store.new ≡ table_of store.old) }
    ensures most { CallsAtMost R.Rack store.old store.new (copy_calls (table_of store.old) 1) }
{
    let Some(boundary) = least_cursor(store, next) else {
        unreachable!();
    };
    let block = next[boundary as usize];
    if !move_block(store, targets, block, boundary)? {
        return Ok(());
    }
    next[boundary as usize] = first_missing(store, targets, boundary, block + 1);
    Ok(())
}

/// So many rounds. They end with the least lost boundary as soon as one is lost.
fn run<R: Rack>(
    store: &mut Store<R>,
    targets: &Targets,
    rounds: u32,
) -> Result<Option<u8>, NoMemory>
    requires sound { IsSound R.Rack store.old }
    requires size { blocks_in targets.now ≡ (shape_of store.old).n }
    requires targets { AreTargets (wants_of targets.now) (table_of store.old) }
    requires live { has_lost (shape_of store.old) (members_of store.old) ≡ false }
    requires rounds { rounds ≤ missing_in (wants_of targets.now) (table_of store.old) }
    ensures on { MovesOn R.Rack (wants_of targets.now) store.old store.new }
    ensures still { rounds ≡ 0 → rack_of store.new ≡ rack_of store.old }
    ensures most { CallsAtMost R.Rack store.old store.new (copy_calls (table_of store.old) rounds) }
    ensures turned { IfOk result (λ lost. IfNone lost (IsTurned (wants_of targets.now) rounds rounds (table_of store.old) (table_of store.new))) }
    ensures tidy { IfOk result (λ lost. IfNone lost (IsTidy (wants_of targets.now) (table_of store.new))) }
    ensures left { IfOk result (λ lost. IfNone lost
        (missing_in (wants_of targets.now) (table_of store.new) + rounds ≡ missing_in (wants_of targets.now) (table_of store.old))) }
    ensures live { IfOk result (λ lost. IfNone lost (has_lost (shape_of store.new) (members_of store.new) ≡ false)) }
    ensures cut { IfOk result (λ lost. IfSome lost (λ s.
        IsCutByLoss (wants_of targets.now) (Some rounds) (table_of store.old) (table_of store.new) (members_of store.new))) }
    ensures stopped { IfOk result (λ lost. IfSome lost (λ s. StoppedAt R.Rack (wants_of targets.now) rounds store.old store.new)) }
    ensures lost { IfOk result (λ lost. IfSome lost (λ s. IsLeastLost (shape_of store.new) (members_of store.new) s)) }
    ensures err { OnErr result (IsCutOff (wants_of targets.now) (Some rounds) (table_of store.old) (table_of store.new)) }
{
    tidy(store, targets);
    let mut next = cursors(store, targets);
    'turns: for _moved in 0..rounds {
        turn(store, targets, &mut next)?;
        if let Some(lost) = store.least_lost() {
            return Ok(Some(lost));
        }
    }
    Ok(None)
}

/// Meets missing placements, the least first, until so many were met or none is missing. It ends as soon as a boundary is
/// lost. It goes over all blocks at its start; each move then takes a fixed number of steps per boundary, and no memory but
/// what the store takes for it.
pub fn tend<R: Rack>(
    store: &mut Store<R>,
    targets: &Targets,
    limit: u32,
) -> Result<TendAnswer, NoMemory>
    requires sound { IsSound R.Rack store.old }
    requires size { blocks_in targets.now ≡ (shape_of store.old).n }
    requires targets { AreTargets (wants_of targets.now) (table_of store.old) }
    requires live { has_lost (shape_of store.old) (members_of store.old) ≡ false }
    ensures on { MovesOn R.Rack (wants_of targets.now) store.old store.new }
    ensures moves { IfOk result (λ answer. MovesTo (wants_of targets.now) limit (table_of store.old) (table_of store.new) (members_of store.new) answer) }
    ensures stopped { IfOk result (λ answer. (s : ℕ) → answer ≡ TendAnswer.Lost s
        → StoppedAt R.Rack (wants_of targets.now) limit store.old store.new) }
    ensures lost { IfOk result (λ answer. NamesLoss (shape_of store.new) (members_of store.new) answer) }
    ensures still { rounds_in (wants_of targets.now) limit (table_of store.old) ≡ 0 → rack_of store.new ≡ rack_of store.old }
    ensures most { CallsAtMost R.Rack store.old store.new
        (copy_calls (table_of store.old) (rounds_in (wants_of targets.now) limit (table_of store.old))) }
    ensures err { OnErr result (IsCutOff (wants_of targets.now) (Some limit) (table_of store.old) (table_of store.new)) }
{
    let left = missing(store, targets);
    let rounds = limit.min(left);
    if rounds == 0 && left > 0 {
        return Ok(TendAnswer::Tended { moved: 0, left });
    }
    match run(store, targets, rounds)? {
        Some(lost) => Ok(TendAnswer::Lost(lost)),
        None => Ok(TendAnswer::Tended {
            moved: rounds,
            left: left - rounds,
        }),
    }
}
