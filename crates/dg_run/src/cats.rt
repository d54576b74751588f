// The event that reads a file by its path.
ghost use Rattle.std.specs.Prelude.{◌≡◌, ◌≤◌, true, OnOk, OnErr};
ghost use Rattle.dg_io.specs.SinkLines.{LeavesLines};
ghost use Rattle.dg_model.specs.Causes.{Rose};
ghost use Rattle.dg_run.specs.Steps.{Answered, AnsweredPart, GoesOn, IsSound, WantedFor};
ghost use Rattle.dg_volume.specs.Volumes.{touched_by};
ghost use Rattle.ufs_model.specs.Paths.{is_path};

use crate::arrays::Array;
use crate::events::Fault;
use crate::paths::send_nothing;
use dg_hot::Hot;
use dg_io::{NoMemory, Rack, Sink};
use dg_model::{Bytes, Event, Phase};
use dg_text::HexLines;
use dg_volume::CatAnswer;

/// Counts a file that was given in a phase among those read last.
fn touch(hot: &mut Hot, phase: Phase, given: Option<u32>) -> Result<(), NoMemory>
    ensures touched { OnOk result (hot.new ≡ touched_by phase given hot.old) }
    ensures err { OnErr result (hot.new ≡ hot.old) }
{
    match (phase, given) {
        (Phase::Settled, Some(inode)) => hot.touch(inode),
        _ => Ok(()),
    }
}

/// Reads the file at a path, and writes its bytes as lines, or why there are none.
pub fn serve_cat<R: Rack, K: Sink>(
    array: &mut Array<R>,
    sink: &mut K,
    path: &Bytes,
) -> Result<(), Fault>
    requires sound { IsSound R.Rack array.old }
    requires path { is_path path.now ≡ true }
    ensures goes { GoesOn R.Rack array.old array.new }
    ensures answered { OnOk result (Answered R.Rack (Event.Cat path.now) (K.taken sink.old) (K.taken sink.new) array.old array.new) }
    ensures part { result ≡ Err Fault.Write → AnsweredPart R.Rack (Event.Cat path.now) (K.taken sink.old) (K.taken sink.new) array.old array.new }
    ensures wanting { result ≡ Err Fault.NoMemory → WantedFor R.Rack (Event.Cat path.now) (K.taken sink.old) (K.taken sink.new) array.old array.new }
    ensures later { K.faults sink.old ≤ K.faults sink.new }
    ensures kept { (result ≡ Err Fault.Write → ⊥) → K.faults sink.new ≡ K.faults sink.old }
    ensures lines { (result ≡ Err Fault.Write → ⊥) → LeavesLines 255 K.whole K.calls K.taken sink.old sink.new }
    ensures read { result ≡ Err Fault.Read → ⊥ }
    ensures write { result ≡ Err Fault.Write → Rose (K.faults sink.old) (K.faults sink.new) }
{
    let phase = array.volume.phase();
    let mut lines = HexLines::new(&mut *sink, array.volume.shape().l);
    match array.volume.cat(path.as_slice(), &mut lines) {
        CatAnswer::Given(n) => {
            let Ok(()) = lines.end(n) else {
                return Err(Fault::Write);
            };
            match touch(&mut array.hot, phase, array.volume.given()) {
                Ok(()) => Ok(()),
                Err(_) => Err(Fault::NoMemory),
            }
        }
        CatAnswer::Cut(n) => match lines.cut(n) {
            Ok(()) => Ok(()),
            Err(_) => Err(Fault::Write),
        },
        CatAnswer::SinkFault => Err(Fault::Write),
        nothing => send_nothing(sink, nothing),
    }
}
