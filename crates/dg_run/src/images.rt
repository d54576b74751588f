// The command that makes a trace of an image.
ghost use Rattle.std.specs.Prelude.{◌≡◌, ◌↔◌, Err, Result};
ghost use Rattle.dg_io.specs.SinkLines.{LeavesLines};
ghost use Rattle.dg_io.specs.SourceReads.{LeavesSource};
ghost use Rattle.dg_model.specs.Causes.{Rose};
ghost use Rattle.dg_run.specs.Ends.{EndsTrace, trace_status};
ghost use Rattle.dg_trace.specs.Calls.{facts_of};

use crate::top::Status;
use dg_io::{Sink, Source};
use dg_trace::{Asked, TraceEnd, TraceFault, write_trace};
use std::alloc::Global;

/// The status of the command, by how the trace ended.
fn trace_status(end: Result<TraceEnd, TraceFault>) -> Status
    ensures is { result ≡ trace_status end }
    ensures read { (result ≡ Status.ReadFault) ↔ (end ≡ Err TraceFault.Read) }
    ensures write { (result ≡ Status.WriteFault) ↔ (end ≡ Err TraceFault.Write) }
    ensures usage { result ≡ Status.Usage → ⊥ }
{
    match end {
        Ok(TraceEnd::Written) => Status::Done,
        Ok(TraceEnd::Refused(_)) => Status::Refused,
        Err(TraceFault::Read) => Status::ReadFault,
        Err(TraceFault::Write) => Status::WriteFault,
        Err(TraceFault::NoMemory) => Status::NoMemory,
    }
}

/// Writes the trace of the image in the source, or why there is none.
pub fn serve_trace<S: Source, K: Sink>(
    alloc: Global,
    asked: &Asked,
    source: &mut S,
    sink: &mut K,
) -> Status
    ensures ends { EndsTrace (facts_of S.Source K.Sink source.old source.new sink.old sink.new) asked.now result }
    ensures read { result ≡ Status.ReadFault → Rose (S.faults source.old) (S.faults source.new) }
    ensures write { result ≡ Status.WriteFault → Rose (K.faults sink.old) (K.faults sink.new) }
    ensures source_kept { (result ≡ Status.ReadFault → ⊥) → S.faults source.new ≡ S.faults source.old }
    ensures sink_kept { (result ≡ Status.WriteFault → ⊥) → K.faults sink.new ≡ K.faults sink.old }
    ensures lines { (result ≡ Status.WriteFault → ⊥) → LeavesLines 255 K.whole K.calls K.taken sink.old sink.new }
    ensures reads { LeavesSource S.calls S.left 1 source.old source.new }
    ensures usage { result ≡ Status.Usage → ⊥ }
{
    let end = write_trace(alloc, asked, source, sink);
    trace_status(end)
}
