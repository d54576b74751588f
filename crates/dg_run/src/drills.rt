// The command that drills an array.
ghost use Rattle.std.specs.Prelude.{◌≡◌, ◌↔◌, ◌≤◌};
ghost use Rattle.dg_io.specs.SinkLines.{LeavesLines};
ghost use Rattle.dg_drill.specs.Calls.{facts_of};
ghost use Rattle.dg_drill.specs.Drills.{EndsDrill};
ghost use Rattle.dg_model.specs.Causes.{Rose};
ghost use Rattle.dg_run.specs.Ends.{EndsDrilled, drill_status};

use crate::top::Status;
use dg_drill::{DrillEnd, run_drill};
use dg_io::{Rack, Sink};
use std::alloc::Global;

/// The status of a drill, by its end.
fn drill_status(end: DrillEnd) -> Status
    ensures is { result ≡ drill_status end }
    ensures write { (result ≡ Status.WriteFault) ↔ (end ≡ DrillEnd.WriteFault) }
    ensures memory { result ≡ Status.NoMemory → ⊥ }
    ensures read { result ≡ Status.ReadFault → ⊥ }
    ensures usage { result ≡ Status.Usage → ⊥ }
{
    match end {
        DrillEnd::Done => Status::Done,
        DrillEnd::WriteFault => Status::WriteFault,
    }
}

/// Does a drill on blank members, and prints what became of its files.
pub fn serve_drill<K: Sink, R: Rack>(
    alloc: Global,
    seed: u64,
    files: u32,
    sink: &mut K,
    rack: &mut R,
) -> Status
    requires few { (1 ≤ files) × (files ≤ 2000) }
    ensures ends { EndsDrilled (EndsDrill (R.tells rack.new) (facts_of K.Sink R.Rack sink.old sink.new rack.old rack.new) seed files)
        (K.taken sink.old) (K.taken sink.new) result }
    ensures write { result ≡ Status.WriteFault → Rose (K.faults sink.old) (K.faults sink.new) }
    ensures kept { (result ≡ Status.WriteFault → ⊥) → K.faults sink.new ≡ K.faults sink.old }
    ensures lines { (result ≡ Status.WriteFault → ⊥) → LeavesLines 255 K.whole K.calls K.taken sink.old sink.new }
    ensures read { result ≡ Status.ReadFault → ⊥ }
    ensures usage { result ≡ Status.Usage → ⊥ }
{
    match run_drill(alloc, seed, files, sink, &mut *rack) {
        Ok(drilled) => drill_status(drilled.end),
        Err(_) => Status::NoMemory,
    }
}
