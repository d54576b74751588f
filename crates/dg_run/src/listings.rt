// The event that lists a directory by its path.
ghost use Rattle.std.specs.Prelude.{◌≡◌, ◌≤◌, true, OnErr, OnOk};
ghost use Rattle.dg_io.specs.SinkLines.{LeavesLines};
ghost use Rattle.dg_model.specs.Causes.{Rose};
ghost use Rattle.dg_run.specs.Steps.{Answered, AnsweredPart, GoesOn, IsSound};
ghost use Rattle.ufs_model.specs.Paths.{is_path};

use crate::arrays::Array;
use crate::events::Fault;
use crate::paths::send_nothing;
use dg_io::{Rack, Sink};
use dg_model::{Bytes, Event};
use dg_text::{Form, Lines};
use dg_volume::CatAnswer;

/// Lists the directory at a path, and writes its entries as lines, or why there are none.
pub fn serve_ls<R: Rack, K: Sink>(
    array: &mut Array<R>,
    sink: &mut K,
    path: &Bytes,
) -> Result<(), Fault>
    requires sound { IsSound R.Rack array.old }
    requires path { is_path path.now ≡ true }
    ensures goes { GoesOn R.Rack array.old array.new }
    ensures answered { OnOk result (Answered R.Rack (Event.Ls path.now) (K.taken sink.old) (K.taken sink.new) array.old array.new) }
    ensures part { result ≡ Err Fault.Write → AnsweredPart R.Rack (Event.Ls path.now) (K.taken sink.old) (K.taken sink.new) array.old array.new }
    ensures later { K.faults sink.old ≤ K.faults sink.new }
    ensures kept { (result ≡ Err Fault.Write → ⊥) → K.faults sink.new ≡ K.faults sink.old }
    ensures lines { (result ≡ Err Fault.Write → ⊥) → LeavesLines 255 K.whole K.calls K.taken sink.old sink.new }
    ensures read { result ≡ Err Fault.Read → ⊥ }
    ensures memory { result ≡ Err Fault.NoMemory → ⊥ }
    ensures write { result ≡ Err Fault.Write → Rose (K.faults sink.old) (K.faults sink.new) }
{
    let mut entries = Lines::new(&mut *sink, Form::Directory);
    match array.volume.ls(path.as_slice(), &mut entries) {
        CatAnswer::Given(n) => match entries.end(n) {
            Ok(()) => Ok(()),
            Err(_) => Err(Fault::Write),
        },
        CatAnswer::Cut(n) => match entries.cut(n) {
            Ok(()) => Ok(()),
            Err(_) => Err(Fault::Write),
        },
        CatAnswer::SinkFault => Err(Fault::Write),
        nothing => send_nothing(sink, nothing),
    }
}
