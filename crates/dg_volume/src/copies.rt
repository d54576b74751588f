// Copies of the files that were read last.
ghost use Rattle.std.specs.Prelude.{◌≡◌, IfOk, OnErr};
ghost use Rattle.dg_model.specs.declared.events.Event.{Event};
ghost use Rattle.dg_model.specs.declared.phases.Phase.{Phase};
ghost use Rattle.dg_volume.specs.Copies.{StepsHot, any_diffuse_reply, diffuse_reply};
ghost use Rattle.dg_volume.specs.Numbers.{diffused_by};
ghost use Rattle.dg_volume.specs.Settles.{KeepsArray};
ghost use Rattle.dg_volume.specs.Volumes.{IsWell, Leaves, given_of, live_of, any_phase, phase_of, settled_phase};

use crate::phases::{AnyPhase, InPhase, Settled};
use crate::plans::inodes_fit;
use crate::seals::spread_recent;
use crate::volumes::Volume;
use dg_hot::{DiffuseAnswer, Hot};
use dg_io::{NoMemory, Rack};
use dg_model::Phase;
use std::alloc::Global;

/// What became of a spreading of copies, of a volume whose phase is told only when the program runs.
#[derive(Clone, Copy, Debug, PartialEq, Eq)]
pub enum AnyDiffuse {
    Is(DiffuseAnswer),
    /// The volume isn't settled. Nothing has changed.
    NotSettled,
}

impl<S: InPhase, R: Rack> Volume<S, R> {
    /// Copies the files that were read last, of a settled volume. A lost boundary is told by its place.
    fn spread(&mut self, alloc: Global, hot: &Hot) -> Result<DiffuseAnswer, NoMemory>
        requires well { IsWell S.InPhase R.Rack self.old }
        requires settled { phase_of S.InPhase self.old ≡ Phase.Settled }
        ensures leaves { Leaves S.InPhase S.InPhase R.Rack self.old self.new }
        ensures steps { IfOk result (λ answer.
            StepsHot S.InPhase S.InPhase R.Rack hot.now self.old Event.Diffuse (diffuse_reply (diffused_by (live_of self.new) answer)) self.new) }
        ensures err { OnErr result (KeepsArray R.Rack self.old self.new) }
        ensures given { given_of self.new ≡ given_of self.old }
    {
        if let Some(lost) = self.store.least_lost() {
            return Ok(DiffuseAnswer::Lost(lost));
        }
        let Some(inference) = self.phase.inference() else {
            unreachable!();
        };
        let answer = spread_recent(
            alloc,
            &mut self.store,
            &mut self.label,
            hot,
            inference,
            &self.homes,
            &mut self.copies,
        );
        inodes_fit(self.copies.as_slice());
        answer
    }
}

impl<R: Rack> Volume<Settled, R> {
    /// Copies the files that were read last, from the most recent one on. Each regular file that has a home and no copy gets one whole, on
    /// the boundary other than its home with the fewest used slots, the lowest number among equals, where all its blocks fit below K used
    /// slots; else it is skipped. A copy that a loss interrupts is given up whole.
    pub fn diffuse(&mut self, alloc: Global, hot: &Hot) -> Result<DiffuseAnswer, NoMemory>
        requires well { IsWell settled_phase R.Rack self.old }
        ensures leaves { Leaves settled_phase settled_phase R.Rack self.old self.new }
        ensures steps { IfOk result (λ answer.
            StepsHot settled_phase settled_phase R.Rack hot.now self.old Event.Diffuse (diffuse_reply answer) self.new) }
        ensures err { OnErr result (KeepsArray R.Rack self.old self.new) }
        ensures given { given_of self.new ≡ given_of self.old }
    {
        let answer = self.spread(alloc, hot)?;
        Ok(self.in_use.diffused(answer))
    }
}

impl<R: Rack> Volume<AnyPhase, R> {
    /// The same, where the volume is settled.
    pub fn diffuse(&mut self, alloc: Global, hot: &Hot) -> Result<AnyDiffuse, NoMemory>
        requires well { IsWell any_phase R.Rack self.old }
        ensures leaves { Leaves any_phase any_phase R.Rack self.old self.new }
        ensures steps { IfOk result (λ answer.
            StepsHot any_phase any_phase R.Rack hot.now self.old Event.Diffuse (any_diffuse_reply answer) self.new) }
        ensures err { OnErr result (KeepsArray R.Rack self.old self.new) }
        ensures given { given_of self.new ≡ given_of self.old }
    {
        match self.phase() {
            Phase::Settled => {
                let answer = self.spread(alloc, hot)?;
                Ok(AnyDiffuse::Is(self.in_use.diffused(answer)))
            }
            Phase::Loose => Ok(AnyDiffuse::NotSettled),
            Phase::Worn => Ok(AnyDiffuse::NotSettled),
        }
    }
}
