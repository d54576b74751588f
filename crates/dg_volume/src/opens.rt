// Opening a saved array.
ghost use Rattle.std.specs.Prelude.{◌≡◌, ◌≢◌, ◌≤◌, AllPairs, IfOk, IfSome, length};
ghost use Rattle.dg_model.specs.Homes.{Ascend};
ghost use Rattle.dg_model.specs.Openings.{copies_after};
ghost use Rattle.dg_model.specs.Saves.{CanBeSaved};
ghost use Rattle.dg_regroup.specs.Extras.{IsExtra};
ghost use Rattle.dg_save.specs.States.{state_of};
ghost use Rattle.dg_store.specs.Stores.{IsSound, shape_of, table_of};
ghost use Rattle.dg_volume.specs.Besides.{AnswersKept, AnswersOpenKept, FitsTable, IsReducedOr};
ghost use Rattle.dg_volume.specs.Opens.{AnswersOpen, AnswersOrder, AnswersStill, IsMadeOf, IsPhaseOf};
ghost use Rattle.dg_volume.specs.Phases.{phase_in, phase_with};
ghost use Rattle.dg_volume.specs.Planned.{HasReadArray};
ghost use Rattle.dg_volume.specs.Volumes.{FitsArray, reduced_of};

use crate::besides::{can_open, in_use_of};
use crate::phases::{AnyPhase, Loose, Settled, Worn};
use crate::plans::{all_wants, checked};
use crate::volumes::Volume;
use dg_hot::Hot;
use dg_infer::Inference;
use dg_io::{Checkpoint, NoMemory, Rack};
use dg_model::Phase;
use dg_open::{ReopenAnswer, Reopened, SavedState, reopen};
use dg_placed::is_placed;
use dg_plan::Homes;
use dg_promise::blocks_have_one_owner;
use dg_regroup::{Extra, read_extra};
use dg_store::Store;
use std::alloc::Global;
use ufs_pointer::Levels;

/// What became of opening an array.
#[derive(Drop)]
pub enum OpenAnswer<R> {
    /// The array, whose phase is told now, and the files that were read last.
    Opened(Volume<AnyPhase, R>, Hot),
    /// There is no saved array. The rack is given back.
    NoState(R),
    /// The array was written after its last save. The rack is given back.
    Unclean(R),
}

/// Opens the array that was saved on a rack. Nothing is written.
///
/// All boundaries are in use, and no block was cut. It is worn where a boundary is lost; else settled where it was saved so, its volume is
/// sound and each block is in its place, and loose where it isn't. The files that were read last are those of the save.
pub fn open<R: Rack + Drop>(alloc: Global, rack: R) -> Result<OpenAnswer<R>, NoMemory>
    ensures { IfOk result (AnswersOpen R.Rack rack) }
{
    blocks_have_one_owner();
    match reopen(alloc, rack)? {
        ReopenAnswer::NoState(rack) => Ok(OpenAnswer::NoState(rack)),
        ReopenAnswer::Unclean(rack) => Ok(OpenAnswer::Unclean(rack)),
        ReopenAnswer::Found(reopened) => {
            let (volume, hot) = volume_of(alloc, reopened, None)?;
            Ok(OpenAnswer::Opened(volume, hot))
        }
    }
}

/// Opens the array that was saved on a rack, with the extra bytes that the rack keeps beside it. Nothing is written.
///
/// The bytes say which boundaries are in use, and which blocks were cut. Where there are none, all boundaries are in use, and no block was cut.
/// Where they say nothing there is no state, and no call is made. Behind the opening by labels there is none either where what they say doesn't fit
/// the array (it has as many boundaries as are in use, and each cut block is one of its own and has no site), or where the rack has less room than
/// such an array may need.
pub fn open_kept<R: Checkpoint + Drop>(
    alloc: Global,
    rack: R,
    extra: &[u8],
) -> Result<OpenAnswer<R>, NoMemory>
    ensures { IfOk result (AnswersOpenKept R.Rack R.room_of rack extra.now) }
{
    if extra.is_empty() {
        return open_with(alloc, rack, None);
    }
    match read_extra(alloc, extra)? {
        Some(kept) => open_with(alloc, rack, Some(kept)),
        None => Ok(OpenAnswer::NoState(rack)),
    }
}

/// Opens the array that was saved on a rack, with what is kept beside it.
fn open_with<R: Checkpoint + Drop>(
    alloc: Global,
    rack: R,
    kept: Option<Extra>,
) -> Result<OpenAnswer<R>, NoMemory>
    requires { IfSome kept IsExtra }
    ensures { IfOk result (AnswersKept R.Rack (R.room_of rack) kept rack) }
{
    blocks_have_one_owner();
    let room = rack.room();
    match reopen(alloc, rack)? {
        ReopenAnswer::NoState(rack) => Ok(OpenAnswer::NoState(rack)),
        ReopenAnswer::Unclean(rack) => Ok(OpenAnswer::Unclean(rack)),
        ReopenAnswer::Found(reopened) => {
            if !can_open(&reopened.store, room, &kept) {
                let Reopened { store, .. } = reopened;
                return Ok(OpenAnswer::NoState(store.into_rack()));
            }
            let (volume, hot) = volume_of(alloc, reopened, kept)?;
            Ok(OpenAnswer::Opened(volume, hot))
        }
    }
}

/// The volume of what was found, with what is kept beside it, and the files that were read last.
fn volume_of<R: Rack + Drop>(
    alloc: Global,
    reopened: Reopened<R>,
    kept: Option<Extra>,
) -> Result<(Volume<AnyPhase, R>, Hot), NoMemory>
    requires sound { IsSound R.Rack reopened.store }
    requires form { CanBeSaved (state_of reopened.saved) }
    requires table { table_of reopened.store ≡ (state_of reopened.saved).table }
    requires extra { IfSome kept IsExtra }
    requires fits { IfSome kept (FitsTable (table_of reopened.store)) }
    ensures made { IfOk result (λ made. IsMadeOf R.Rack reopened made.0 made.1) }
    ensures in_use { IfOk result (λ made. IsReducedOr (table_of reopened.store) kept (reduced_of made.0)) }
{
    let Reopened {
        mut store,
        saved,
        label,
    } = reopened;
    let in_use = in_use_of(alloc, &store, kept)?;
    let mut levels = Levels::new(alloc, store.shape().l)?;
    let phase = phase_on(alloc, &mut store, &mut levels, &saved)?;
    let hot = hot_of(alloc, saved.recent.as_slice())?;
    let SavedState {
        pending,
        homes,
        copies,
        ..
    } = saved;
    let copies = copies_in(alloc, &phase, copies);
    let volume = Volume {
        store,
        phase,
        pending: pending.into_vec(),
        homes,
        copies,
        in_use,
        levels,
        given: None,
        label: Some(label),
    };
    Ok((volume, hot))
}

/// The phase of an array, by its saved state and its volume.
fn phase_on<R: Rack>(
    alloc: Global,
    store: &mut Store<R>,
    levels: &mut Levels,
    saved: &SavedState,
) -> Result<AnyPhase, NoMemory>
    requires sound { IsSound R.Rack store.old }
    requires levels { levels.old.fragment ≡ (shape_of store.old).l }
    requires form { CanBeSaved (state_of saved.now) }
    requires table { table_of store.old ≡ (state_of saved.now).table }
    ensures reads { HasReadArray R.Rack store.old store.new }
    ensures levels { levels.new.fragment ≡ levels.old.fragment }
    ensures phase { IfOk result (IsPhaseOf R.Rack store.old store.new (state_of saved.now)) }
{
    if store.is_degraded() {
        return Ok(AnyPhase::Worn(Worn));
    }
    let Some(inference) = Inference::restored(alloc, store, levels, saved.pending.as_slice())?
    else {
        return Ok(AnyPhase::Worn(Worn));
    };
    let settled = is_still_settled(alloc, store, levels, &inference, saved)?;
    if store.is_degraded() {
        return Ok(AnyPhase::Worn(Worn));
    }
    Ok(phase_with(inference, settled))
}

/// The phase of a volume of which this is inferred.
fn phase_with(inference: Inference, settled: bool) -> AnyPhase
    ensures { result ≡ phase_with inference settled }
{
    if settled {
        AnyPhase::Settled(Settled { inference })
    } else {
        AnyPhase::Loose(Loose { inference })
    }
}

/// Whether an array was saved as settled, and is in order.
fn is_still_settled<R: Rack>(
    alloc: Global,
    store: &mut Store<R>,
    levels: &mut Levels,
    inference: &Inference,
    saved: &SavedState,
) -> Result<bool, NoMemory>
    requires sound { IsSound R.Rack store.old }
    requires levels { levels.old.fragment ≡ (shape_of store.old).l }
    requires fits { FitsArray (shape_of store.old) inference.now }
    requires homes { Ascend saved.now.homes }
    requires copies { Ascend saved.now.copies }
    ensures reads { HasReadArray R.Rack store.old store.new }
    ensures levels { levels.new.fragment ≡ levels.old.fragment }
    ensures still { IfOk result (AnswersStill R.Rack store.old store.new inference.now (state_of saved.now)) }
{
    match saved.phase {
        Phase::Settled => is_in_order(alloc, store, levels, inference, &saved.homes, &saved.copies),
        Phase::Loose => Ok(false),
        Phase::Worn => Ok(false),
    }
}

/// Whether each block is in its place, and the volume is sound. No more where a boundary was lost meanwhile.
fn is_in_order<R: Rack>(
    alloc: Global,
    store: &mut Store<R>,
    levels: &mut Levels,
    inference: &Inference,
    homes: &Homes,
    copies: &Homes,
) -> Result<bool, NoMemory>
    requires sound { IsSound R.Rack store.old }
    requires levels { levels.old.fragment ≡ (shape_of store.old).l }
    requires fits { FitsArray (shape_of store.old) inference.now }
    requires homes { Ascend homes.now }
    requires copies { Ascend copies.now }
    ensures reads { HasReadArray R.Rack store.old store.new }
    ensures levels { levels.new.fragment ≡ levels.old.fragment }
    ensures order { IfOk result (AnswersOrder R.Rack store.old store.new inference.now homes.now copies.now) }
{
    let wants = all_wants(alloc, store, inference)?;
    if !is_placed(alloc, store.map(), &wants, homes, copies)? {
        return Ok(false);
    }
    match checked(alloc, store, levels, inference)? {
        Ok(()) => Ok(true),
        Err(_) => Ok(false),
    }
}

/// The copies that an array has in a phase: none but where it is settled.
fn copies_in(alloc: Global, phase: &AnyPhase, copies: Homes) -> Homes
    ensures { result ≡ copies_after (phase_in phase.now) copies }
{
    match phase {
        AnyPhase::Settled(_) => copies,
        AnyPhase::Loose(_) => Homes::new(Vec::new(alloc)),
        AnyPhase::Worn(_) => Homes::new(Vec::new(alloc)),
    }
}

/// The files that were read last, as they were saved.
fn hot_of(alloc: Global, recent: &[u32]) -> Result<Hot, NoMemory>
    requires few { length recent.now ≤ 16 }
    requires once { AllPairs (λ i j. i ≢ j) recent.now }
    ensures { IfOk result (λ hot. hot ≡ recent.now) }
{
    let mut hot = Hot::new(alloc)?;
    let mut place = recent.len();
    while place > 0 {
        place -= 1;
        hot.touch(recent[place])?;
    }
    Ok(hot)
}
