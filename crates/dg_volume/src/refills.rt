// Members that are replaced and refilled.
ghost use Rattle.std.specs.Prelude.{◌≡◌, ◌≢◌, ◌⊎◌, ◌+◌, ◌*◌, ◌<◌, ℕ, IfOk, IfSome, false, true, length, List};
ghost use Rattle.dg_label.specs.Labels.{HasOwnSeal};
ghost use Rattle.dg_model.specs.Marks.{is_marked};
ghost use Rattle.dg_model.specs.Members.{is_lost};
ghost use Rattle.dg_model.specs.declared.events.Event.{Event};
ghost use Rattle.dg_model.specs.declared.shapes.Shape.{Shape};
ghost use Rattle.dg_rebuild.specs.Answers.{HasNoFilling};
ghost use Rattle.dg_store.specs.Stores.{IsSound, members_of, table_of};
ghost use Rattle.dg_store.specs.Stores as stores;
ghost use Rattle.dg_volume.specs.Refills.{AreDeadMarks, AreReapMarks, HasFilling, IsDeadMark, KeepsReplaced, NotesAnew, OpensRefill, SparesFiles};
ghost use Rattle.dg_volume.specs.Refills.{rebuild_reply, rebuilt_at, replace_reply, replaced_as, told_of};
ghost use Rattle.dg_store.specs.Leaves.{IsCallOrBlankBelow};
ghost use Rattle.dg_volume.specs.Volumes.{FitsArray, IsWell, Leaves, LeavesBy, given_of, StepsSized, StepsTo};

use crate::phases::InPhase;
use crate::seals::open_where;
use crate::volumes::Volume;
use dg_infer::Inference;
use dg_io::{NoMemory, Rack};
use dg_label::{KeptLabel, note_long};
use dg_model::MemberState;
use dg_rebuild::{RebuildAnswer as Refilled, rebuild};
use dg_store::{ReplaceAnswer as MemberAnswer, Store, member_length};
use std::alloc::Global;
use ufs_frames::change_of_loose_blocks;

/// What became of a replacement of a member.
#[derive(Clone, Copy, Debug, PartialEq, Eq)]
pub enum ReplaceAnswer {
    /// The member is blank, and refilled from now on.
    Replaced,
    /// There is no such member.
    Range,
    /// Its boundary is lost, or isn't in use.
    Lost,
    /// The member isn't out.
    NotOut,
    /// The member couldn't be made anew, and stays out.
    Failed,
}

/// What became of a refill of a member.
#[derive(Clone, Copy, Debug, PartialEq, Eq)]
pub enum RebuildAnswer {
    /// So many slots were copied, and so many used ones are left.
    Copied { done: u32, left: u32 },
    /// There is no such boundary.
    Range,
    /// The boundary of this number, that of the refilled member, is lost, or isn't in use.
    Lost(u8),
    /// No member of the boundary is being refilled.
    NotFilling,
    /// The member that was refilled is out, by a fault of its own.
    Failed,
}

/// What is told of a refill of the boundary of this number.
fn told(boundary: u8, refilled: Result<Refilled, NoMemory>) -> Result<RebuildAnswer, NoMemory>
    ensures { result ≡ told_of boundary refilled }
{
    match refilled {
        Ok(Refilled::Copied { done, left }) => Ok(RebuildAnswer::Copied { done, left }),
        Ok(Refilled::Lost(_)) => Ok(RebuildAnswer::Lost(boundary)),
        Ok(Refilled::NotFilling) => Ok(RebuildAnswer::NotFilling),
        Ok(Refilled::Failed) => Ok(RebuildAnswer::Failed),
        Err(NoMemory) => Err(NoMemory),
    }
}

/// What is told of the boundary of this number, where a refilled member was lost.
fn rebuilt(boundary: u8, answer: RebuildAnswer) -> RebuildAnswer
    ensures { result ≡ rebuilt_at boundary answer }
{
    match answer {
        RebuildAnswer::Copied { done, left } => RebuildAnswer::Copied { done, left },
        RebuildAnswer::Range => RebuildAnswer::Range,
        RebuildAnswer::Lost(_) => RebuildAnswer::Lost(boundary),
        RebuildAnswer::NotFilling => RebuildAnswer::NotFilling,
        RebuildAnswer::Failed => RebuildAnswer::Failed,
    }
}

/// No marks for so many blocks.
fn no_marks(alloc: Global, n: u32) -> Result<Vec<bool>, NoMemory>
    ensures room { IfOk result (λ marks. length marks.items ≡ n) }
    ensures none { IfOk result (λ marks. (b : ℕ) → is_marked marks.items b ≡ false) }
{
    match vec![in alloc; false; n as usize] {
        Ok(marks) => Ok(marks),
        Err(_) => Err(NoMemory),
    }
}

/// Whether a block is dead.
fn dead_mark<R: Rack>(store: &Store<R>, inference: &Inference, block: u32) -> bool
    requires sound { IsSound R.Rack store.now }
    requires fits { FitsArray (stores.shape_of store.now) inference.now }
    requires block { block < (stores.shape_of store.now).n }
    ensures { IsDeadMark (table_of store.now) inference.now block result }
{
    inference.dead(store.written(block), block)
}

/// A mark for each block that is dead.
fn dead_marks<R: Rack>(
    alloc: Global,
    store: &Store<R>,
    inference: &Inference,
) -> Result<Vec<bool>, NoMemory>
    requires sound { IsSound R.Rack store.now }
    requires fits { FitsArray (stores.shape_of store.now) inference.now }
    ensures { IfOk result (λ marks. AreDeadMarks (table_of store.now) inference.now marks.items) }
{
    let mut marks = Vec::new(alloc);
    for block in 0..store.shape().n {
        if marks.push(dead_mark(store, inference, block)).is_err() {
            return Err(NoMemory);
        }
    }
    Ok(marks)
}

/// A mark for each block that may be reaped: each dead one, or none where a boundary is lost or the volume is worn.
fn reap_marks<S: InPhase, R: Rack>(
    alloc: Global,
    store: &Store<R>,
    phase: &S,
) -> Result<Vec<bool>, NoMemory>
    requires sound { IsSound R.Rack store.now }
    requires fits { IfSome (S.kept phase.now) (FitsArray (stores.shape_of store.now)) }
    ensures { IfOk result (λ marks. AreReapMarks store.now (S.phase phase.now) (S.kept phase.now) marks.items) }
{
    if store.is_degraded() {
        return no_marks(alloc, store.shape().n);
    }
    match phase.inference() {
        Some(inference) => dead_marks(alloc, store, inference),
        None => no_marks(alloc, store.shape().n),
    }
}

/// Whether a member is out while its boundary isn't lost.
fn can_replace<R: Rack>(store: &Store<R>, boundary: u8, side: u8) -> bool
    requires sound { IsSound R.Rack store.now }
    requires boundary { boundary < (stores.shape_of store.now).b }
    requires side { side < 2 }
    ensures out { result ≡ true → members_of store.now (2 * boundary + side) ≡ MemberState.Out }
    ensures live { result ≡ true → is_lost (members_of store.now) boundary ≡ false }
    ensures other { result ≡ false → (members_of store.now (2 * boundary + side) ≢ MemberState.Out) ⊎ (is_lost (members_of store.now) boundary ≡ true) }
{
    let pair = store.boundary(boundary);
    match pair.member(side) {
        MemberState::Out => !pair.is_lost(),
        MemberState::Good => false,
        MemberState::Filling(_) => false,
    }
}

/// Notes the length of a member, where it was made anew.
fn note_anew(label: &mut Option<KeptLabel>, member: u8, answer: MemberAnswer)
    requires { member < 32 }
    ensures { NotesAnew answer member label.old label.new }
{
    if let MemberAnswer::Replaced = answer {
        note_long(label, member);
    }
}

/// What is told of a member that was to be made anew.
fn answered(answer: MemberAnswer) -> ReplaceAnswer
    ensures { result ≡ replaced_as answer }
{
    match answer {
        MemberAnswer::Replaced => ReplaceAnswer::Replaced,
        MemberAnswer::Lost => ReplaceAnswer::Lost,
        MemberAnswer::NotOut => ReplaceAnswer::NotOut,
        MemberAnswer::Failed => ReplaceAnswer::Failed,
    }
}

/// Whether a member of a boundary is refilled.
fn is_filling<R: Rack>(store: &Store<R>, boundary: u8) -> bool
    requires sound { IsSound R.Rack store.now }
    requires boundary { boundary < (stores.shape_of store.now).b }
    ensures some { result ≡ true → HasFilling (members_of store.now) boundary }
    ensures none { result ≡ false → HasNoFilling (members_of store.now) boundary }
{
    let pair = store.boundary(boundary);
    if let MemberState::Filling(_) = pair.member(0) {
        return true;
    }
    match pair.member(1) {
        MemberState::Filling(_) => true,
        _ => false,
    }
}

/// What is told where the member that was refilled is out: its boundary by its place.
fn fell<R: Rack>(store: &Store<R>, boundary: u8) -> RebuildAnswer
    requires sound { IsSound R.Rack store.now }
    requires boundary { boundary < (stores.shape_of store.now).b }
    ensures lost { is_lost (members_of store.now) boundary ≡ true → result ≡ RebuildAnswer.Lost boundary }
    ensures live { is_lost (members_of store.now) boundary ≡ false → result ≡ RebuildAnswer.Failed }
{
    if store.boundary(boundary).is_lost() {
        RebuildAnswer::Lost(boundary)
    } else {
        RebuildAnswer::Failed
    }
}

/// Opens the seal where slots of a member may be copied. Where this takes the member away, it is told what the refill answers.
fn open_refill<R: Rack>(
    store: &mut Store<R>,
    label: &mut Option<KeptLabel>,
    boundary: u8,
    limit: u32,
) -> Option<RebuildAnswer>
    requires sound { IsSound R.Rack store.old }
    requires seal { HasOwnSeal (stores.shape_of store.old) label.old }
    requires boundary { boundary < (stores.shape_of store.old).b }
    ensures { (line : Shape) → OpensRefill R.Rack line boundary limit store.old store.new label.old label.new result }
{
    if !is_filling(store, boundary) {
        return None;
    }
    open_where(store, label, limit > 0);
    if is_filling(store, boundary) {
        return None;
    }
    Some(fell(store, boundary))
}

impl<S: InPhase, R: Rack> Volume<S, R> {
    /// Makes a member anew that is out, given by its boundary's number in the first line and its side. It is refilled then.
    pub fn replace(&mut self, boundary: u32, side: u32) -> ReplaceAnswer
        requires well { IsWell S.InPhase R.Rack self.old }
        ensures leaves { LeavesBy S.InPhase S.InPhase R.Rack IsCallOrBlankBelow self.old self.new }
        ensures steps { StepsTo S.InPhase S.InPhase R.Rack self.old (Event.Replace boundary side) (replace_reply boundary result) self.new }
        ensures keeps { KeepsReplaced R.Rack boundary side result self.old self.new }
        ensures given { given_of self.new ≡ given_of self.old }
    {
        if boundary >= self.in_use.boundaries as u32 || side >= 2 {
            return ReplaceAnswer::Range;
        }
        let Some(place) = self.in_use.place(boundary) else {
            return ReplaceAnswer::Lost;
        };
        let opens = can_replace(&self.store, place, side as u8);
        open_where(&mut self.store, &mut self.label, opens);
        let line = self.in_use.line(self.store.shape());
        let size = member_length(&line);
        let answer = self.store.replace(place, side as u8, size);
        note_anew(&mut self.label, 2 * place + side as u8, answer);
        answered(answer)
    }

    /// Refills the member of a boundary, given by its number in the first line, that was replaced, with at most `limit` copies of slots. Dead
    /// blocks that it passes are reaped, where no boundary is lost and the volume isn't worn: they have no site any more, and read as zeros.
    /// After want of memory the refill stands at the slot that it came to.
    pub fn rebuild(
        &mut self,
        alloc: Global,
        boundary: u32,
        limit: u32,
    ) -> Result<RebuildAnswer, NoMemory>
        requires well { IsWell S.InPhase R.Rack self.old }
        ensures leaves { Leaves S.InPhase S.InPhase R.Rack self.old self.new }
        ensures steps { IfOk result (λ answer.
            StepsSized S.InPhase S.InPhase R.Rack self.old (Event.Rebuild boundary limit) (rebuild_reply answer) self.new) }
        ensures spares { SparesFiles S.InPhase R.Rack self.old self.new }
        ensures given { given_of self.new ≡ given_of self.old }
    {
        change_of_loose_blocks();
        if boundary >= self.in_use.boundaries as u32 {
            return Ok(RebuildAnswer::Range);
        }
        let Some(place) = self.in_use.place(boundary) else {
            return Ok(RebuildAnswer::Lost(boundary as u8));
        };
        let ended = open_refill(&mut self.store, &mut self.label, place, limit);
        if let Some(answer) = ended {
            return Ok(rebuilt(boundary as u8, answer));
        }
        let dead = reap_marks(alloc, &self.store, &self.phase)?;
        let mut reaped = Vec::new(alloc);
        let refilled = rebuild(alloc, &mut self.store, place, limit, &dead, &mut reaped);
        self.phase.reaped(&reaped);
        told(boundary as u8, refilled)
    }
}
