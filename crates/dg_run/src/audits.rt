// The command that audits an image.
ghost use Rattle.std.specs.Prelude.{◌≡◌, ◌↔◌, Err, Result};
ghost use Rattle.dg_io.specs.SinkLines.{LeavesLines};
ghost use Rattle.dg_io.specs.SourceReads.{LeavesSource};
ghost use Rattle.dg_model.specs.Causes.{Rose};
ghost use Rattle.dg_run.specs.Ends.{EndsAudit, audit_status};
ghost use Rattle.dg_trace.specs.Calls.{facts_of};

use crate::top::Status;
use dg_io::{Sink, Source};
use dg_trace::{AuditEnd, TraceFault, audit_image};
use std::alloc::Global;

/// The status of the command, by how the audit ended.
fn audit_status(end: Result<AuditEnd, TraceFault>) -> Status
    ensures is { result ≡ audit_status end }
    ensures read { (result ≡ Status.ReadFault) ↔ (end ≡ Err TraceFault.Read) }
    ensures write { (result ≡ Status.WriteFault) ↔ (end ≡ Err TraceFault.Write) }
    ensures usage { result ≡ Status.Usage → ⊥ }
{
    match end {
        Ok(AuditEnd::Sound) => Status::Done,
        Ok(AuditEnd::Malformed) => Status::Refused,
        Ok(AuditEnd::Length) => Status::Refused,
        Err(TraceFault::Read) => Status::ReadFault,
        Err(TraceFault::Write) => Status::WriteFault,
        Err(TraceFault::NoMemory) => Status::NoMemory,
    }
}

/// Tells all that is wrong with the volume of the image in the source.
pub fn serve_audit<S: Source, K: Sink>(alloc: Global, source: &mut S, sink: &mut K) -> Status
    ensures ends { EndsAudit (facts_of S.Source K.Sink source.old source.new sink.old sink.new) result }
    ensures read { result ≡ Status.ReadFault → Rose (S.faults source.old) (S.faults source.new) }
    ensures write { result ≡ Status.WriteFault → Rose (K.faults sink.old) (K.faults sink.new) }
    ensures source_kept { (result ≡ Status.ReadFault → ⊥) → S.faults source.new ≡ S.faults source.old }
    ensures sink_kept { (result ≡ Status.WriteFault → ⊥) → K.faults sink.new ≡ K.faults sink.old }
    ensures lines { (result ≡ Status.WriteFault → ⊥) → LeavesLines 255 K.whole K.calls K.taken sink.old sink.new }
    ensures reads { LeavesSource S.calls S.left 1 source.old source.new }
    ensures usage { result ≡ Status.Usage → ⊥ }
{
    let end = audit_image(alloc, source, sink);
    audit_status(end)
}
