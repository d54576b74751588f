// Settling a volume, and moving its blocks beforehand.
ghost use Rattle.std.specs.Prelude.{◌≡◌, IfErr, IfOk, OnErr, Ok};
ghost use Rattle.dg_model.specs.declared.events.Event.{Event};
ghost use Rattle.dg_model.specs.declared.phases.Phase.{Phase};
ghost use Rattle.dg_model.specs.declared.replies.Reply.{Reply};
ghost use Rattle.dg_volume.specs.Numbers.{tended_by, unsettled_by};
ghost use Rattle.dg_volume.specs.Planned.{IsPutInPlace};
ghost use Rattle.dg_volume.specs.Settles.{GoesBy, KeepsArray, tend_reply, unsettled_reply};
ghost use Rattle.dg_volume.specs.Volumes.{IsWell, Leaves, given_of, live_of, StepsTo, loose_phase, settled_phase};

use crate::phases::{InPhase, Loose, Settled};
use crate::plans::{PlanAnswer, checked, inodes_fit, planned};
use crate::seals::move_within;
use crate::volumes::Volume;
use dg_io::{NoMemory, Rack};
use dg_model::NoRoom;
use dg_move::{TendAnswer, limit_of_all};
use dg_plan::targets_of_plans;
use std::alloc::Global;
use ufs_model::BadKind;

/// Why a volume isn't settled.
#[derive(Clone, Copy, Debug, PartialEq, Eq)]
pub enum Unsettled {
    /// A boundary is lost; this is the least one, by its number in the first line.
    Lost(u8),
    /// The volume isn't sound: its first malformation.
    Malformed(BadKind, u32),
    /// There is no room for this.
    NoSpace(NoRoom),
}

/// What became of moves.
#[derive(Clone, Copy, Debug, PartialEq, Eq)]
pub enum TendRun {
    /// So many missing placements were met, and so many are left.
    Tended { moved: u32, left: u32 },
    /// A boundary is lost; this is the least one, by its number in the first line.
    Lost(u8),
    /// There is no room for this.
    NoSpace(NoRoom),
}

impl<S: InPhase, R: Rack> Volume<S, R> {
    /// Meets at most `limit` missing placements of the plan, of a loose volume. A lost boundary is told by its place.
    pub(crate) fn tend_loose(&mut self, alloc: Global, limit: u32) -> Result<TendRun, NoMemory>
        requires well { IsWell S.InPhase R.Rack self.old }
        requires loose { S.phase self.old.phase ≡ Phase.Loose }
        ensures leaves { Leaves S.InPhase S.InPhase R.Rack self.old self.new }
        ensures steps { IfOk result (λ answer.
            StepsTo S.InPhase S.InPhase R.Rack self.old (Event.Tend limit) (tend_reply (tended_by (live_of self.new) answer)) self.new) }
        ensures err { OnErr result (KeepsArray R.Rack self.old self.new) }
        ensures given { given_of self.new ≡ given_of self.old }
    {
        targets_of_plans();
        if let Some(lost) = self.store.least_lost() {
            return Ok(TendRun::Lost(lost));
        }
        let Some(inference) = self.phase.inference() else {
            unreachable!();
        };
        match planned(
            alloc,
            &mut self.store,
            &mut self.levels,
            inference,
            &self.homes,
        )? {
            PlanAnswer::Lost(lost) => Ok(TendRun::Lost(lost)),
            PlanAnswer::NoSpace(bad) => Ok(TendRun::NoSpace(bad)),
            PlanAnswer::Found(targets) => {
                match move_within(&mut self.store, &mut self.label, &targets, limit)? {
                    TendAnswer::Tended { moved, left } => Ok(TendRun::Tended { moved, left }),
                    TendAnswer::Lost(lost) => Ok(TendRun::Lost(lost)),
                }
            }
        }
    }

    /// Checks a loose volume, and puts each block in its place by the plan. A lost boundary is told by its place.
    pub(crate) fn put_in_place(&mut self, alloc: Global) -> Result<Result<(), Unsettled>, NoMemory>
        requires well { IsWell S.InPhase R.Rack self.old }
        requires loose { S.phase self.old.phase ≡ Phase.Loose }
        ensures leaves { Leaves S.InPhase S.InPhase R.Rack self.old self.new }
        ensures put { result ≡ Ok (Ok tt) → IsPutInPlace S.InPhase R.Rack self.old self.new }
        ensures refused { IfOk result (λ answer. IfErr answer (λ unsettled.
            StepsTo S.InPhase S.InPhase R.Rack self.old Event.Settle (unsettled_reply (unsettled_by (live_of self.new) unsettled)) self.new)) }
        ensures err { OnErr result (KeepsArray R.Rack self.old self.new) }
        ensures given { given_of self.new ≡ given_of self.old }
    {
        targets_of_plans();
        limit_of_all();
        if let Some(lost) = self.store.least_lost() {
            return Ok(Err(Unsettled::Lost(lost)));
        }
        let Some(inference) = self.phase.inference() else {
            unreachable!();
        };
        if let Err(unsettled) = checked(alloc, &mut self.store, &mut self.levels, inference)? {
            return Ok(Err(unsettled));
        }
        match planned(
            alloc,
            &mut self.store,
            &mut self.levels,
            inference,
            &self.homes,
        )? {
            PlanAnswer::Lost(lost) => Ok(Err(Unsettled::Lost(lost))),
            PlanAnswer::NoSpace(bad) => Ok(Err(Unsettled::NoSpace(bad))),
            PlanAnswer::Found(targets) => {
                match move_within(&mut self.store, &mut self.label, &targets, u32::MAX)? {
                    TendAnswer::Tended { .. } => {
                        self.homes = targets.into_homes();
                        inodes_fit(self.homes.as_slice());
                        Ok(Ok(()))
                    }
                    TendAnswer::Lost(lost) => Ok(Err(Unsettled::Lost(lost))),
                }
            }
        }
    }
}

impl<R: Rack + Drop> Volume<Loose, R> {
    /// Checks the volume, and puts each block in its place by the plan. The loose volume is given back where it is refused.
    pub fn settle(
        mut self,
        alloc: Global,
    ) -> Result<Result<Volume<Settled, R>, (Volume<Loose, R>, Unsettled)>, NoMemory>
        requires well { IsWell loose_phase R.Rack self }
        ensures settled { IfOk result (λ answer. IfOk answer (GoesBy loose_phase settled_phase R.Rack self Event.Settle Reply.Settled)) }
        ensures refused { IfOk result (λ answer. IfErr answer (λ refused.
            GoesBy loose_phase loose_phase R.Rack self Event.Settle (unsettled_reply refused.1) refused.0)) }
    {
        if let Err(unsettled) = self.put_in_place(alloc)? {
            let told = self.in_use.unsettled(unsettled);
            return Ok(Err((self, told)));
        }
        let Volume {
            store,
            phase: Loose { inference },
            pending,
            homes,
            copies,
            in_use,
            levels,
            given,
            label,
        } = self;
        Ok(Ok(Volume {
            store,
            phase: Settled { inference },
            pending,
            homes,
            copies,
            in_use,
            levels,
            given,
            label,
        }))
    }

    /// Meets at most `limit` missing placements of the plan. The homes stay as they are.
    pub fn tend(&mut self, alloc: Global, limit: u32) -> Result<TendRun, NoMemory>
        requires well { IsWell loose_phase R.Rack self.old }
        ensures leaves { Leaves loose_phase loose_phase R.Rack self.old self.new }
        ensures steps { IfOk result (λ answer.
            StepsTo loose_phase loose_phase R.Rack self.old (Event.Tend limit) (tend_reply answer) self.new) }
        ensures err { OnErr result (KeepsArray R.Rack self.old self.new) }
        ensures given { given_of self.new ≡ given_of self.old }
    {
        let run = self.tend_loose(alloc, limit)?;
        Ok(self.in_use.tended(run))
    }
}
