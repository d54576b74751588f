// The event that tells the pending blocks.
ghost use Rattle.std.specs.Prelude.{◌≡◌, ◌≤◌, IfOk, OnErr, OnOk, length};
ghost use Rattle.dg_io.specs.Faults.{HasCause};
ghost use Rattle.dg_io.specs.SinkLines.{LeavesLines};
ghost use Rattle.dg_io.specs.Told.{Told, Took, TookPart};
ghost use Rattle.dg_model.specs.Causes.{Rose};
ghost use Rattle.dg_model.specs.Marks.{marked};
ghost use Rattle.dg_model.specs.declared.events.Event.{Event};
ghost use Rattle.dg_run.specs.Steps.{Answered, AnsweredPart, IsSound};
ghost use Rattle.dg_text.specs.Replies.{blocks_text};
ghost use Rattle.dg_volume.specs.Volumes.{IsWell, any_phase, marks_of};

use crate::arrays::Array;
use crate::events::Fault;
use dg_io::{Rack, Sink};
use dg_model::{Event, Failed};
use dg_text::{write_block_line, write_blocks_end};
use dg_volume::{AnyPhase, Volume};

/// Writes the line of each pending block, ascending, and answers how many they are.
fn write_pending<R: Rack, K: Sink>(
    volume: &Volume<AnyPhase, R>,
    sink: &mut K,
) -> Result<u32, Failed>
    requires { IsWell any_phase R.Rack volume.now }
    ensures count { IfOk result (λ count. count ≡ length (marked (marks_of any_phase volume.now))) }
    ensures ok { OnOk result (Told (Took (blocks_text (marked (marks_of any_phase volume.now)))) (K.taken sink.old) (K.taken sink.new)) }
    ensures err { OnErr result (Told (TookPart (blocks_text (marked (marks_of any_phase volume.now)))) (K.taken sink.old) (K.taken sink.new)) }
    ensures cause { HasCause (K.faults sink.old) (K.faults sink.new) result }
    ensures lines { OnOk result (LeavesLines 255 K.whole K.calls K.taken sink.old sink.new) }
{
    let mut count = 0;
    let mut from = 0;
    while let Some(block) = volume.next_pending(from) {
        write_block_line(sink, block)?;
        count += 1;
        from = block + 1;
    }
    Ok(count)
}

/// Writes the pending blocks, ascending, and how many they are.
pub fn serve_pending<R: Rack, K: Sink>(array: &Array<R>, sink: &mut K) -> Result<(), Fault>
    requires sound { IsSound R.Rack array.now }
    ensures answered { OnOk result (Answered R.Rack Event.Pending (K.taken sink.old) (K.taken sink.new) array.now array.now) }
    ensures part { result ≡ Err Fault.Write → AnsweredPart R.Rack Event.Pending (K.taken sink.old) (K.taken sink.new) array.now array.now }
    ensures later { K.faults sink.old ≤ K.faults sink.new }
    ensures kept { (result ≡ Err Fault.Write → ⊥) → K.faults sink.new ≡ K.faults sink.old }
    ensures lines { (result ≡ Err Fault.Write → ⊥) → LeavesLines 255 K.whole K.calls K.taken sink.old sink.new }
    ensures read { result ≡ Err Fault.Read → ⊥ }
    ensures memory { result ≡ Err Fault.NoMemory → ⊥ }
    ensures write { result ≡ Err Fault.Write → Rose (K.faults sink.old) (K.faults sink.new) }
{
    let Ok(count) = write_pending(&array.volume, sink) else {
        return Err(Fault::Write);
    };
    match write_blocks_end(sink, count) {
        Ok(()) => Ok(()),
        Err(_) => Err(Fault::Write),
    }
}
