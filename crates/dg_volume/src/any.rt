// A volume whose phase is told only when the program runs. Its calls that change the phase do so in place.
ghost use Rattle.std.specs.Prelude.{◌≡◌, IfOk, OnErr};
ghost use Rattle.dg_model.specs.declared.events.Event.{Event};
ghost use Rattle.dg_volume.specs.Settles.{KeepsArray, settle_reply, tend_reply};
ghost use Rattle.dg_volume.specs.Volumes.{IsSame, IsWell, Leaves, given_of, StepsTo, any_phase};

use crate::phases::{AnyPhase, InPhase};
use crate::settles::{TendRun, Unsettled};
use crate::volumes::Volume;
use dg_io::{NoMemory, Rack};
use dg_model::Phase;
use std::alloc::Global;

impl<S: InPhase + Drop, R: Rack> Volume<S, R> {
    /// The same volume, whose phase is told only when the program runs.
    pub fn into_any(self) -> Volume<AnyPhase, R>
        requires { IsWell S.InPhase R.Rack self }
        ensures { IsSame S.InPhase any_phase R.Rack self result }
    {
        let Volume {
            store,
            phase,
            pending,
            homes,
            copies,
            in_use,
            levels,
            given,
            label,
        } = self;
        Volume {
            store,
            phase: phase.into_any(),
            pending,
            homes,
            copies,
            in_use,
            levels,
            given,
            label,
        }
    }
}

impl<R: Rack> Volume<AnyPhase, R> {
    /// Checks the volume, and puts each block in its place by the plan. A settled one stays as it is.
    pub fn settle(&mut self, alloc: Global) -> Result<Result<(), Unsettled>, NoMemory>
        requires well { IsWell any_phase R.Rack self.old }
        ensures leaves { Leaves any_phase any_phase R.Rack self.old self.new }
        ensures steps { IfOk result (λ answer. StepsTo any_phase any_phase R.Rack self.old Event.Settle (settle_reply answer) self.new) }
        ensures err { OnErr result (KeepsArray R.Rack self.old self.new) }
        ensures given { given_of self.new ≡ given_of self.old }
    {
        if self.phase.phase() != Phase::Loose {
            return match self.store.least_lost() {
                Some(lost) => Ok(Err(Unsettled::Lost(self.in_use.number(lost)))),
                None => Ok(Ok(())),
            };
        }
        if let Err(unsettled) = self.put_in_place(alloc)? {
            return Ok(Err(self.in_use.unsettled(unsettled)));
        }
        self.phase.settle();
        Ok(Ok(()))
    }

    /// Meets at most `limit` missing placements of the plan. A settled volume has none.
    pub fn tend(&mut self, alloc: Global, limit: u32) -> Result<TendRun, NoMemory>
        requires well { IsWell any_phase R.Rack self.old }
        ensures leaves { Leaves any_phase any_phase R.Rack self.old self.new }
        ensures steps { IfOk result (λ answer. StepsTo any_phase any_phase R.Rack self.old (Event.Tend limit) (tend_reply answer) self.new) }
        ensures err { OnErr result (KeepsArray R.Rack self.old self.new) }
        ensures given { given_of self.new ≡ given_of self.old }
    {
        if self.phase.phase() != Phase::Loose {
            return match self.store.least_lost() {
                Some(lost) => Ok(TendRun::Lost(self.in_use.number(lost))),
                None => Ok(TendRun::Tended { moved: 0, left: 0 }),
            };
        }
        let run = self.tend_loose(alloc, limit)?;
        Ok(self.in_use.tended(run))
    }
}
