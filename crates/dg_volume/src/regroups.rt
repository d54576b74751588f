// Going on without the lost boundaries.
ghost use Rattle.std.specs.Prelude.{◌≡◌, ◌≤◌, IfNone, IfOk, IfSome, OnErr, Some, length};
ghost use Rattle.dg_model.specs.Homes.{Ascend};
ghost use Rattle.dg_model.specs.declared.phases.Phase.{Phase};
ghost use Rattle.dg_store.specs.Stores.{IsSound};
ghost use Rattle.dg_store.specs.Stores as stores;
ghost use Rattle.dg_volume.specs.Phases.{kept_in, phase_in};
ghost use Rattle.dg_volume.specs.Planned.{HasReadArray};
ghost use Rattle.dg_volume.specs.Regroups.{AnswersRegroup, AreRemains, GoesOn, HasBoundaries, HasTooFew, IsPhaseLeft, IsTakenOut, KeepsOrLeaves, gone_count, lost_count};
ghost use Rattle.dg_volume.specs.Volumes.{IsWell, any_phase, given_of, live_of, marks_by, rack_of, shape_of};

use crate::in_use::InUse;
use crate::left_lists::{
    count_gone, count_lost, has_good, mark_gone, numbers_at, places_left, unmark_gone,
};
use crate::phases::{AnyPhase, Loose, Worn};
use crate::volumes::Volume;
use crate::writes::take_inference;
use dg_infer::Inference;
use dg_io::{NoMemory, Rack, Reduces};
use dg_label::{keep_left, labels_are_left, open_seal};
use dg_map::Map;
use dg_plan::Homes;
use dg_promise::homes_left_ascend;
use dg_regroup::{CutOver, cut_over};
use dg_store::{Store, bits_leave_the_live};
use std::alloc::Global;
use ufs_pointer::Levels;

/// What became of going on without the lost boundaries.
#[derive(Clone, Copy, Debug, PartialEq, Eq)]
pub enum RegroupAnswer {
    /// No boundary is lost. Nothing has changed.
    Whole,
    /// The other boundaries are too few. The seal of the label is open, and all else is as it was.
    TooFew,
    /// So many boundaries were taken out of use, and so many blocks with them.
    Regrouped { boundaries: u32, blocks: u32 },
}

/// What is left of an array without its lost boundaries. All memory for it is taken.
#[derive(Drop)]
pub(crate) struct Remains {
    /// The sites that are left, under the new places of their boundaries.
    map: Map,
    /// The homes, under these places.
    homes: Homes,
    /// The numbers of the boundaries that are left, by the first line.
    live: Vec<u8>,
    /// What is inferred until the volume was read anew.
    blank: Inference,
}

/// What is left of an array. `None` where the boundaries that aren't lost are too few.
fn remains_of<R: Rack>(
    alloc: Global,
    store: &Store<R>,
    homes: &Homes,
    copies: &Homes,
    in_use: &InUse,
) -> Result<Option<Remains>, NoMemory>
    requires sound { IsSound R.Rack store.now }
    requires copies { Ascend copies.now }
    ensures few { IfOk result (λ found. IfNone found (HasTooFew store.now)) }
    ensures left { IfOk result (λ found. IfSome found (AreRemains store.now homes.now copies.now in_use.now.live.items)) }
{
    bits_leave_the_live(store);
    let shape = *store.shape();
    let Some(over) = cut_over(alloc, store.map(), shape, homes, copies, store.lost())? else {
        return Ok(None);
    };
    let CutOver { map, homes, .. } = over;
    let places = places_left(alloc, store)?;
    let live = numbers_at(alloc, in_use, &places)?;
    let blank = Inference::new(alloc, shape.l, shape.n)?;
    Ok(Some(Remains {
        map,
        homes,
        live,
        blank,
    }))
}

/// Takes the marks of pending blocks out of a phase, and makes it loose with another inference.
fn take_marks(phase: &mut AnyPhase, pending: &mut Vec<bool>, blank: Inference)
    ensures marks { pending.new.items ≡ marks_by (kept_in phase.old) pending.old.items }
    ensures phase { phase_in phase.new ≡ Phase.Loose }
    ensures kept { kept_in phase.new ≡ Some blank }
{
    let Some(inference) = take_inference(phase) else {
        *phase = AnyPhase::Loose(Loose { inference: blank });
        return;
    };
    *phase = AnyPhase::Loose(Loose { inference: blank });
    *pending = inference.into_marks();
}

/// The phase of what is left of an array, by its volume. No block that was cut is gone: it reads as zeros.
fn phase_left<R: Rack>(
    alloc: Global,
    store: &mut Store<R>,
    levels: &mut Levels,
    pending: &[bool],
) -> Result<AnyPhase, NoMemory>
    requires sound { IsSound R.Rack store.old }
    requires levels { levels.old.fragment ≡ (stores.shape_of store.old).l }
    requires marks { length pending.now ≡ (stores.shape_of store.old).n }
    ensures reads { HasReadArray R.Rack store.old store.new }
    ensures levels { levels.new.fragment ≡ levels.old.fragment }
    ensures phase { IfOk result (IsPhaseLeft R.Rack store.old store.new pending.now) }
{
    let Some(inference) = Inference::restored(alloc, store, levels, pending)? else {
        return Ok(AnyPhase::Worn(Worn));
    };
    if store.is_degraded() {
        return Ok(AnyPhase::Worn(Worn));
    }
    Ok(AnyPhase::Loose(Loose { inference }))
}

impl<R: Reduces> Volume<AnyPhase, R> {
    /// Takes the lost boundaries out of use, by what is left without them.
    fn take_out(&mut self, alloc: Global, remains: Remains) -> RegroupAnswer
        requires well { IsWell any_phase R.Rack self.old }
        requires boundaries { (shape_of self.old).b ≤ R.boundaries (rack_of self.old) }
        requires left { AreRemains self.old.store self.old.homes self.old.copies (live_of self.old) remains }
        ensures out { IsTakenOut R.Rack R.boundaries R.dropped remains self.old self.new }
        ensures answer { result ≡ RegroupAnswer.Regrouped (lost_count self.old) (gone_count self.old) }
    {
        let Remains {
            map,
            homes,
            live,
            blank,
        } = remains;
        let boundaries = count_lost(&self.store);
        let blocks = count_gone(&self.store);
        take_marks(&mut self.phase, &mut self.pending, blank);
        unmark_gone(&self.store, &mut self.pending);
        mark_gone(&self.store, &mut self.in_use.cut);
        bits_leave_the_live(&self.store);
        keep_left(&mut self.label, self.store.lost(), self.store.shape().b);
        self.store.reduce(map);
        self.in_use.live = live;
        self.homes = homes;
        let copies = Homes::new(Vec::new(alloc));
        self.copies = copies;
        RegroupAnswer::Regrouped { boundaries, blocks }
    }

    /// Goes on without the lost boundaries: they are taken out of use, and the blocks that stood on them alone are cut. The seal of the label is
    /// opened first, on the members that are good, and boundaries that are lost by that are taken out with them. Then it is read anew what blocks
    /// belong to.
    ///
    /// Want of memory leaves the volume as it was, but for the opened seal, or loose without the lost boundaries: then it isn't known what its
    /// blocks belong to. A rack of this name has as many boundaries as the array.
    pub fn regroup(&mut self, alloc: Global) -> Result<RegroupAnswer, NoMemory>
        requires well { IsWell any_phase R.Rack self.old }
        requires boundaries { HasBoundaries R.Rack R.boundaries self.old }
        ensures on { GoesOn any_phase R.Rack self.old self.new }
        ensures answer { IfOk result (AnswersRegroup R.Rack R.boundaries R.dropped self.old self.new) }
        ensures err { OnErr result (KeepsOrLeaves R.Rack R.boundaries R.dropped self.old self.new) }
        ensures given { given_of self.new ≡ given_of self.old }
    {
        if !self.store.is_degraded() {
            return Ok(RegroupAnswer::Whole);
        }
        if !has_good(&self.store) {
            return Ok(RegroupAnswer::TooFew);
        }
        labels_are_left::<R>();
        homes_left_ascend();
        open_seal(&mut self.store, &mut self.label);
        let found = remains_of(alloc, &self.store, &self.homes, &self.copies, &self.in_use)?;
        let Some(remains) = found else {
            return Ok(RegroupAnswer::TooFew);
        };
        let answer = self.take_out(alloc, remains);
        let phase = phase_left(alloc, &mut self.store, &mut self.levels, &self.pending)?;
        self.phase = phase;
        Ok(answer)
    }
}
