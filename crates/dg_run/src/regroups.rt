// The event that goes on without the lost boundaries.
ghost use Rattle.std.specs.Prelude.{◌≡◌, ◌≤◌, OnOk};
ghost use Rattle.dg_io.specs.SinkLines.{LeavesLines};
ghost use Rattle.dg_model.specs.Causes.{Rose};
ghost use Rattle.dg_model.specs.declared.events.Event.{Event};
ghost use Rattle.dg_run.specs.Histories.{Continues, EventAnswered, EventCut, IsReady};

use crate::arrays::Running;
use crate::events::Fault;
use crate::replies::regroup_reply;
use crate::serve::send;
use dg_io::{Rack, Sink};
use dg_regroup::names_tell_boundaries;
use std::alloc::Global;

/// Takes the lost boundaries out of use, and writes the reply.
pub fn serve_regroup<R: Rack, K: Sink>(
    alloc: Global,
    array: &mut Running<R>,
    sink: &mut K,
) -> Result<(), Fault>
    requires ready { IsReady R.Rack array.old }
    ensures goes { Continues R.Rack array.old array.new }
    ensures answered { OnOk result (EventAnswered R.Rack Event.Regroup (K.taken sink.old) (K.taken sink.new) array.old array.new) }
    ensures part { result ≡ Err Fault.Write → EventCut R.Rack Event.Regroup (K.taken sink.old) (K.taken sink.new) array.old array.new }
    ensures wanting { result ≡ Err Fault.NoMemory → K.taken sink.new ≡ K.taken sink.old }
    ensures later { K.faults sink.old ≤ K.faults sink.new }
    ensures kept { (result ≡ Err Fault.Write → ⊥) → K.faults sink.new ≡ K.faults sink.old }
    ensures lines { (result ≡ Err Fault.Write → ⊥) → LeavesLines 255 K.whole K.calls K.taken sink.old sink.new }
    ensures read { result ≡ Err Fault.Read → ⊥ }
    ensures write { result ≡ Err Fault.Write → Rose (K.faults sink.old) (K.faults sink.new) }
{
    names_tell_boundaries();
    let Ok(answer) = array.volume.regroup(alloc) else {
        return Err(Fault::NoMemory);
    };
    send(sink, &regroup_reply(answer))
}
