// Files of a saved array.
ghost use Rattle.std.specs.Prelude.{◌≡◌, ◌≢◌, true, IfOk, OnErr};
ghost use Rattle.dg_io.specs.SinkLines.{LeavesLines};
ghost use Rattle.dg_model.specs.Causes.{Rose};
ghost use Rattle.dg_model.specs.declared.events.Event.{Event};
ghost use Rattle.dg_saved.specs.Calls.{facts_of};
ghost use Rattle.dg_saved.specs.Ends.{EventOnce, LeavesSaved};
ghost use Rattle.dg_saved.specs.Serves.{EndsServed};
ghost use Rattle.dg_saved.specs.Texts.{cat_text, gives_file};
ghost use Rattle.dg_volume.specs.Volumes.{IsWell, Leaves, any_phase};
ghost use Rattle.ufs_model.specs.Paths.{is_path};

use crate::ends::{Ended, SavedEnd};
use crate::replies::tell_nothing;
use crate::unsaved::tell_unopened;
use dg_io::{Checkpoint, NoMemory, Rack, Sink};
use dg_text::Raw;
use dg_volume::{AnyPhase, CatAnswer, OpenAnswer, Volume, open_kept};
use std::alloc::Global;

/// Prints the bytes of the file at a path as they are, or the reply that says why there are none.
fn serve_cat<K: Sink, R: Rack>(
    path: &[u8],
    sink: &mut K,
    volume: &mut Volume<AnyPhase, R>,
) -> SavedEnd
    requires well { IsWell any_phase R.Rack volume.old }
    requires path { is_path path.now ≡ true }
    ensures leaves { Leaves any_phase any_phase R.Rack volume.old volume.new }
    ensures ends { EndsServed R.Rack volume.old (Event.Cat path.now) cat_text gives_file (K.taken sink.old) (K.taken sink.new) volume.new result }
    ensures write { result ≡ SavedEnd.WriteFault → Rose (K.faults sink.old) (K.faults sink.new) }
    ensures kept { result ≢ SavedEnd.WriteFault → K.faults sink.new ≡ K.faults sink.old }
    ensures lines { result ≢ SavedEnd.WriteFault → LeavesLines 1 K.whole K.calls K.taken sink.old sink.new }
{
    let mut bytes = Raw::new(&mut *sink);
    match volume.cat(path, &mut bytes) {
        CatAnswer::Given(_) => SavedEnd::Done,
        CatAnswer::Cut(_) => SavedEnd::Refused,
        CatAnswer::SinkFault => SavedEnd::WriteFault,
        nothing => tell_nothing(sink, nothing),
    }
}

/// Opens the saved array with the extra bytes that the rack keeps beside it, and prints the bytes of the file at a path as they are. Another reply is
/// printed as a line; after a cut nothing more is printed than the bytes that were read.
pub fn cat_saved<K: Sink, R: Checkpoint + Drop>(
    alloc: Global,
    path: &[u8],
    sink: &mut K,
    rack: R,
    extra: &[u8],
) -> Result<Ended<R>, NoMemory>
    requires path { is_path path.now ≡ true }
    ensures ends { IfOk result (λ ended. EventOnce R.Rack rack ended.rack (facts_of K.Sink R.Rack R.room_of extra.now sink.old sink.new rack ended.rack)
        (Event.Cat path.now) cat_text gives_file ended.end) }
    ensures none { OnErr result (sink.new ≡ sink.old) }
    ensures leaves { IfOk result (λ ended. LeavesSaved 1 K.Sink R.Rack sink.old sink.new rack ended.rack ended.end) }
{
    match open_kept(alloc, rack, extra)? {
        OpenAnswer::Opened(mut volume, _) => {
            let end = serve_cat(path, sink, &mut volume);
            Ok(Ended {
                rack: volume.into_rack(),
                end,
            })
        }
        unopened => Ok(tell_unopened(sink, unopened)),
    }
}
