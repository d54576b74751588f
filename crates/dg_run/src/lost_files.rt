// The event that lists the files that lost blocks.
ghost use Rattle.std.specs.Prelude.{◌≡◌, ◌≤◌, OnErr, OnOk};
ghost use Rattle.dg_io.specs.SinkLines.{LeavesLines};
ghost use Rattle.dg_model.specs.Causes.{Rose};
ghost use Rattle.dg_run.specs.Steps.{Answered, AnsweredPart, GoesOn, IsSound, WantedFor};

use crate::arrays::Array;
use crate::events::Fault;
use crate::paths::send_nothing;
use crate::serve::send;
use dg_io::{Rack, Sink};
use dg_model::{Event, Reply};
use dg_text::LostLines;
use dg_volume::{CatAnswer, TreeAnswer};
use std::alloc::Global;

/// Lists the files of a settled volume that lost blocks, and writes their paths as lines, or why there are none. Where memory is wanting the
/// lines of some first files may have been written, each whole.
pub fn serve_lost<R: Rack, K: Sink>(
    alloc: Global,
    array: &mut Array<R>,
    sink: &mut K,
) -> Result<(), Fault>
    requires sound { IsSound R.Rack array.old }
    ensures goes { GoesOn R.Rack array.old array.new }
    ensures answered { OnOk result (Answered R.Rack Event.LostFiles (K.taken sink.old) (K.taken sink.new) array.old array.new) }
    ensures part { result ≡ Err Fault.Write → AnsweredPart R.Rack Event.LostFiles (K.taken sink.old) (K.taken sink.new) array.old array.new }
    ensures wanting { result ≡ Err Fault.NoMemory → WantedFor R.Rack Event.LostFiles (K.taken sink.old) (K.taken sink.new) array.old array.new }
    ensures later { K.faults sink.old ≤ K.faults sink.new }
    ensures kept { (result ≡ Err Fault.Write → ⊥) → K.faults sink.new ≡ K.faults sink.old }
    ensures lines { (result ≡ Err Fault.Write → ⊥) → LeavesLines 255 K.whole K.calls K.taken sink.old sink.new }
    ensures read { result ≡ Err Fault.Read → ⊥ }
    ensures write { result ≡ Err Fault.Write → Rose (K.faults sink.old) (K.faults sink.new) }
{
    let mut files = LostLines::new(&mut *sink);
    let Ok(told) = array.volume.lost_files(alloc, &mut files) else {
        return Err(Fault::NoMemory);
    };
    let TreeAnswer::Is(answer) = told else {
        return send(sink, &Reply::NotSettled);
    };
    match answer {
        CatAnswer::Given(n) => match files.end(n) {
            Ok(()) => Ok(()),
            Err(_) => Err(Fault::Write),
        },
        CatAnswer::Cut(n) => match files.cut(n) {
            Ok(()) => Ok(()),
            Err(_) => Err(Fault::Write),
        },
        CatAnswer::SinkFault => Err(Fault::Write),
        nothing => send_nothing(sink, nothing),
    }
}
