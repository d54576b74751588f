// Directories of a saved array.
ghost use Rattle.std.specs.Prelude.{◌≡◌, ◌≢◌, true, IfOk, OnErr};
ghost use Rattle.dg_io.specs.SinkLines.{LeavesLines};
ghost use Rattle.dg_model.specs.Causes.{Rose};
ghost use Rattle.dg_model.specs.declared.events.Event.{Event};
ghost use Rattle.dg_saved.specs.Calls.{facts_of};
ghost use Rattle.dg_saved.specs.Ends.{EventOnce, LeavesSaved};
ghost use Rattle.dg_saved.specs.Serves.{EndsServed};
ghost use Rattle.dg_saved.specs.Texts.{gives_listing, ls_text};
ghost use Rattle.dg_volume.specs.Volumes.{IsWell, Leaves, any_phase};
ghost use Rattle.ufs_model.specs.Paths.{is_path};

use crate::ends::{Ended, SavedEnd};
use crate::replies::tell_nothing;
use crate::unsaved::tell_unopened;
use dg_io::{Checkpoint, NoMemory, Rack, Sink};
use dg_text::{Form, Lines};
use dg_volume::{AnyPhase, CatAnswer, OpenAnswer, Volume, open_kept};
use std::alloc::Global;

/// Prints the entries of the directory at a path as lines, and their number; of a listing that was cut its entries alone; or the reply that says
/// why there are none.
fn serve_ls<K: Sink, R: Rack>(
    path: &[u8],
    sink: &mut K,
    volume: &mut Volume<AnyPhase, R>,
) -> SavedEnd
    requires well { IsWell any_phase R.Rack volume.old }
    requires path { is_path path.now ≡ true }
    ensures leaves { Leaves any_phase any_phase R.Rack volume.old volume.new }
    ensures ends { EndsServed R.Rack volume.old (Event.Ls path.now) ls_text gives_listing (K.taken sink.old) (K.taken sink.new) volume.new result }
    ensures write { result ≡ SavedEnd.WriteFault → Rose (K.faults sink.old) (K.faults sink.new) }
    ensures kept { result ≢ SavedEnd.WriteFault → K.faults sink.new ≡ K.faults sink.old }
    ensures lines { result ≢ SavedEnd.WriteFault → LeavesLines 255 K.whole K.calls K.taken sink.old sink.new }
{
    let mut entries = Lines::new(&mut *sink, Form::Directory);
    match volume.ls(path, &mut entries) {
        CatAnswer::Given(n) => match entries.end(n) {
            Ok(()) => SavedEnd::Done,
            Err(_) => SavedEnd::WriteFault,
        },
        CatAnswer::Cut(_) => SavedEnd::Refused,
        CatAnswer::SinkFault => SavedEnd::WriteFault,
        nothing => tell_nothing(sink, nothing),
    }
}

/// Opens the saved array with the extra bytes that the rack keeps beside it, and prints the entries of the directory at a path, one a line, and their
/// number. Another reply is printed as a line; after a cut nothing more is printed than the entries that were read.
pub fn ls_saved<K: Sink, R: Checkpoint + Drop>(
    alloc: Global,
    path: &[u8],
    sink: &mut K,
    rack: R,
    extra: &[u8],
) -> Result<Ended<R>, NoMemory>
    requires path { is_path path.now ≡ true }
    ensures ends { IfOk result (λ ended. EventOnce R.Rack rack ended.rack (facts_of K.Sink R.Rack R.room_of extra.now sink.old sink.new rack ended.rack)
        (Event.Ls path.now) ls_text gives_listing ended.end) }
    ensures none { OnErr result (sink.new ≡ sink.old) }
    ensures leaves { IfOk result (λ ended. LeavesSaved 255 K.Sink R.Rack sink.old sink.new rack ended.rack ended.end) }
{
    match open_kept(alloc, rack, extra)? {
        OpenAnswer::Opened(mut volume, _) => {
            let end = serve_ls(path, sink, &mut volume);
            Ok(Ended {
                rack: volume.into_rack(),
                end,
            })
        }
        unopened => Ok(tell_unopened(sink, unopened)),
    }
}
