// All that is wrong with a volume.
ghost use Rattle.std.specs.Prelude.{◌≡◌, IfOk, OnErr};
ghost use Rattle.dg_model.specs.declared.events.Event.{Event};
ghost use Rattle.dg_volume.specs.Audits.{audit_reply};
ghost use Rattle.dg_volume.specs.Settles.{KeepsArray};
ghost use Rattle.dg_volume.specs.Volumes.{IsWell, Leaves, StepsTo, given_of};

use crate::phases::InPhase;
use crate::volumes::Volume;
use dg_io::{NoMemory, Rack};
use dg_model::Findings;
use std::alloc::Global;
use ufs_audit::{audit, lines_of};

/// What became of an audit.
#[derive(Debug, Drop)]
pub enum AuditAnswer {
    /// All malformations of the volume, and what belongs to nothing.
    Audited(Findings),
    /// A block with the volume's structure is gone.
    Unavailable,
}

impl<S: InPhase, R: Rack> Volume<S, R> {
    /// Finds all malformations of the volume, and what belongs to nothing. Blocks with its structure are read, and no others.
    pub fn audit(&mut self, alloc: Global) -> Result<AuditAnswer, NoMemory>
        requires well { IsWell S.InPhase R.Rack self.old }
        ensures leaves { Leaves S.InPhase S.InPhase R.Rack self.old self.new }
        ensures steps { IfOk result (λ answer. StepsTo S.InPhase S.InPhase R.Rack self.old Event.Audit (audit_reply answer) self.new) }
        ensures err { OnErr result (KeepsArray R.Rack self.old self.new) }
        ensures given { given_of self.new ≡ given_of self.old }
    {
        let Some(found) = audit(alloc, &mut self.store, &mut self.levels)? else {
            return Ok(AuditAnswer::Unavailable);
        };
        let lines = lines_of(alloc, &found)?;
        Ok(AuditAnswer::Audited(lines))
    }
}
