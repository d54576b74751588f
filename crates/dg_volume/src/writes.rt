// A write of a block, which leads to the next phase.
ghost use Rattle.std.specs.Prelude.{◌≡◌, ◌≢◌, ◌<◌, IfOk, List, MatchOption, None, OnErr, Some, false, true, length, slice_set, ℕ};
ghost use Rattle.dg_infer.specs.Meanings as inferences;
ghost use Rattle.dg_model.specs.Marks.{AreLeft, with_mark};
ghost use Rattle.dg_model.specs.States.{has_lost};
ghost use Rattle.dg_model.specs.declared.phases.Phase.{Phase};
ghost use Rattle.dg_store.specs.Stores.{IsSound, KeepsBlocks, members_of};
ghost use Rattle.dg_store.specs.Stores as stores;
ghost use Rattle.dg_store.specs.Views.{ReadsOn};
ghost use Rattle.dg_volume.specs.Phases.{kept_in, phase_in};
ghost use Rattle.dg_volume.specs.Volumes.{FitsArray, IsWell, Leaves, given_of, any_phase, shape_of};
ghost use Rattle.dg_volume.specs.Writes.{AnswersWrite, IsFollowed, KeepsOrWrites, RereadsFew, WritesTo, write_reply};

use crate::phases::{AnyPhase, InPhase, Loose, Worn};
use crate::seals::write_opened;
use crate::volumes::Volume;
use dg_infer::{Inference, Inferred};
use dg_io::{NoMemory, Rack};
use dg_plan::Homes;
use dg_store::{Store, StoreWrite};
use std::alloc::Global;
use std::mem;
use ufs_pointer::Levels;

/// What became of a write, with the volume after it.
#[derive(Drop)]
pub enum Wrote<S, R> {
    /// The block was written, and no boundary is lost.
    Loose(Volume<Loose, R>),
    /// The block was written, and a boundary was lost in the same call.
    Worn(Volume<Worn, R>),
    /// There is no such block. Nothing has changed.
    Range(Volume<S, R>),
    /// A boundary was lost before, or all sites of the block were lost in this call. The block wasn't written.
    Degraded(Volume<S, R>),
}

/// What became of a write of a volume that changes in place.
#[derive(Clone, Copy, Debug, PartialEq, Eq)]
pub enum WriteAnswer {
    /// The block was written.
    Written,
    /// There is no such block. Nothing has changed.
    Range,
    /// A boundary was lost before, or all sites of the block were lost in this call. The block wasn't written.
    Degraded,
}

/// Makes an inference that of the volume after a write, once the block has its bytes at its sites. It answers whether no boundary is
/// lost: where one is, the marks of pending blocks stay, and all else of the inference is of no use any more.
fn follow<R: Rack>(
    alloc: Global,
    store: &mut Store<R>,
    levels: &mut Levels,
    inference: &mut Inference,
    block: u32,
    buf: &[u8],
) -> Result<bool, NoMemory>
    requires sound { IsSound R.Rack store.old }
    requires levels { levels.old.fragment ≡ (stores.shape_of store.old).l }
    requires fits { FitsArray (stores.shape_of store.old) inference.old }
    requires inside { block < (stores.shape_of store.old).n }
    requires bytes { length buf.now ≡ (stores.shape_of store.old).l }
    ensures sound { IsSound R.Rack store.new }
    ensures reads { ReadsOn R.Rack store.old store.new }
    ensures stands { KeepsBlocks R.Rack store.old store.new }
    ensures levels { levels.new.fragment ≡ levels.old.fragment }
    ensures size { (inference.new.l ≡ inference.old.l) × (inference.new.n ≡ inference.old.n) }
    ensures room { length inference.new.pending ≡ length inference.old.pending }
    ensures whole { IfOk result (λ whole. whole ≡ true → has_lost (stores.shape_of store.new) (members_of store.new) ≡ false) }
    ensures lost { IfOk result (λ whole. whole ≡ false → has_lost (stores.shape_of store.new) (members_of store.new) ≡ true) }
    ensures kept { IfOk result (λ whole. whole ≡ false → inference.new.pending ≡ inference.old.pending) }
    ensures inferred { IfOk result (λ whole. whole ≡ true → (V : List (List ℕ))
        → IsFollowed R.Rack store.old store.new inference.old block buf.now V → inferences.StandsFor inference.new (slice_set V block buf.now)) }
    ensures marks { IfOk result (λ whole. whole ≡ true → (V : List (List ℕ))
        → AreLeft (IsFollowed R.Rack store.old store.new inference.old block buf.now V) inference.old.l inference.old.n
        (slice_set V block buf.now) (with_mark inference.old.pending block) inference.new.pending) }
    ensures few { IfOk result (λ whole. whole ≡ true → (V : List (List ℕ))
        → RereadsFew R.Rack (IsFollowed R.Rack store.old store.new inference.old block buf.now V) store.old store.new
        V (slice_set V block buf.now) block) }
{
    let Inferred::Known(moved) = inference.written(alloc, store, levels, block, buf)? else {
        return Ok(false);
    };
    if store.is_degraded() {
        return Ok(false);
    }
    inference.mark(block, &moved);
    Ok(true)
}

/// The marks of a worn volume: those that its inference had, and the block's own.
fn worn_marks(inference: Inference, block: u32) -> Vec<bool>
    requires { block < inference.n }
    ensures { result.items ≡ with_mark inference.pending block }
{
    let mut marks = inference.into_marks();
    marks[block as usize] = true;
    marks
}

/// Takes what is inferred out of a phase, and leaves a worn one.
pub fn take_inference(phase: &mut AnyPhase) -> Option<Inference>
    ensures kept { MatchOption result (kept_in phase.old ≡ None) (λ inference. kept_in phase.old ≡ Some inference) }
    ensures worn { MatchOption result (phase_in phase.old ≡ Phase.Worn) (λ inference. phase_in phase.old ≢ Phase.Worn) }
    ensures left_phase { phase_in phase.new ≡ Phase.Worn }
    ensures left { kept_in phase.new ≡ None }
{
    mem::replace(phase, AnyPhase::Worn(Worn)).into_inference()
}

/// Makes a phase loose that isn't worn.
fn loosen(phase: &mut AnyPhase)
    ensures kept { kept_in phase.new ≡ kept_in phase.old }
    ensures worn { phase_in phase.new ≡ Phase.Worn → phase_in phase.old ≡ Phase.Worn }
    ensures loose { phase_in phase.new ≢ Phase.Settled }
{
    if let Some(inference) = take_inference(phase) {
        *phase = AnyPhase::Loose(Loose { inference });
    }
}

impl<S: InPhase + Drop, R: Rack + Drop> Volume<S, R> {
    /// Writes a block of L bytes to its sites, behind the opening of a seal, and follows what blocks belong to.
    pub fn write(self, alloc: Global, block: u32, buf: &[u8]) -> Result<Wrote<S, R>, NoMemory>
        requires well { IsWell S.InPhase R.Rack self }
        requires size { length buf.now ≡ (shape_of self).l }
        ensures { IfOk result (AnswersWrite S.InPhase R.Rack self block buf.now) }
    {
        if block >= self.store.shape().n {
            return Ok(Wrote::Range(self));
        }
        if self.store.is_degraded() {
            return Ok(Wrote::Degraded(self));
        }
        let Volume {
            mut store,
            phase,
            pending,
            homes,
            copies,
            mut in_use,
            mut levels,
            given,
            mut label,
        } = self;
        if let StoreWrite::AllLost = write_opened(&mut store, &mut label, block, buf)? {
            return Ok(Wrote::Degraded(Volume {
                store,
                phase,
                pending,
                homes,
                copies,
                in_use,
                levels,
                given,
                label,
            }));
        }
        let Some(mut inference) = phase.into_inference() else {
            unreachable!();
        };
        let copies = Homes::new(Vec::new(alloc));
        in_use.uncut(block);
        if follow(alloc, &mut store, &mut levels, &mut inference, block, buf)? {
            return Ok(Wrote::Loose(Volume {
                store,
                phase: Loose { inference },
                pending,
                homes,
                copies,
                in_use,
                levels,
                given,
                label,
            }));
        }
        Ok(Wrote::Worn(Volume {
            store,
            phase: Worn,
            pending: worn_marks(inference, block),
            homes,
            copies,
            in_use,
            levels,
            given,
            label,
        }))
    }
}

impl<R: Rack> Volume<AnyPhase, R> {
    /// Writes a block of L bytes to its sites, behind the opening of a seal, and follows what blocks belong to. After want of memory the volume
    /// is loose, and it isn't known what its blocks belong to; each block has its last value then, the written one its old or its new one.
    pub fn write_block(
        &mut self,
        alloc: Global,
        block: u32,
        buf: &[u8],
    ) -> Result<WriteAnswer, NoMemory>
        requires well { IsWell any_phase R.Rack self.old }
        requires size { length buf.now ≡ (shape_of self.old).l }
        ensures leaves { Leaves any_phase any_phase R.Rack self.old self.new }
        ensures steps { IfOk result (λ answer. WritesTo any_phase any_phase R.Rack self.old block buf.now (write_reply answer) self.new) }
        ensures err { OnErr result (KeepsOrWrites R.Rack block buf.now self.old self.new) }
        ensures given { given_of self.new ≡ given_of self.old }
    {
        if block >= self.store.shape().n {
            return Ok(WriteAnswer::Range);
        }
        if self.store.is_degraded() {
            return Ok(WriteAnswer::Degraded);
        }
        let Ok(written) = write_opened(&mut self.store, &mut self.label, block, buf) else {
            loosen(&mut self.phase);
            self.copies = Homes::new(Vec::new(alloc));
            return Err(NoMemory);
        };
        if let StoreWrite::AllLost = written {
            return Ok(WriteAnswer::Degraded);
        }
        let Some(mut inference) = take_inference(&mut self.phase) else {
            unreachable!();
        };
        self.copies = Homes::new(Vec::new(alloc));
        self.in_use.uncut(block);
        let followed = follow(
            alloc,
            &mut self.store,
            &mut self.levels,
            &mut inference,
            block,
            buf,
        );
        let Ok(whole) = followed else {
            self.phase = AnyPhase::Loose(Loose { inference });
            return Err(NoMemory);
        };
        if whole {
            self.phase = AnyPhase::Loose(Loose { inference });
            return Ok(WriteAnswer::Written);
        }
        self.pending = worn_marks(inference, block);
        Ok(WriteAnswer::Written)
    }
}
