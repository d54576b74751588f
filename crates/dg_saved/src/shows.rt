// The state of a saved array.
ghost use Rattle.std.specs.Prelude.{◌≡◌, IfOk, OnErr};
ghost use Rattle.dg_saved.specs.Calls.{facts_of};
ghost use Rattle.dg_saved.specs.Ends.{LeavesSaved, StatusOnce};

use crate::ends::{Ended, SavedEnd, tell};
use crate::texts::text_of;
use crate::unsaved::tell_unopened;
use dg_io::{Checkpoint, NoMemory, Sink};
use dg_volume::{OpenAnswer, open_kept};
use std::alloc::Global;

/// Opens the saved array with the extra bytes that the rack keeps beside it, and prints its numbers, its phase, and of each boundary in use what its
/// members do and how many of its slots are used.
pub fn show_status<K: Sink, R: Checkpoint + Drop>(
    alloc: Global,
    sink: &mut K,
    rack: R,
    extra: &[u8],
) -> Result<Ended<R>, NoMemory>
    ensures ends { IfOk result (λ ended. StatusOnce R.Rack rack ended.rack (facts_of K.Sink R.Rack R.room_of extra.now sink.old sink.new rack ended.rack) ended.end) }
    ensures none { OnErr result (sink.new ≡ sink.old) }
    ensures leaves { IfOk result (λ ended. LeavesSaved 255 K.Sink R.Rack sink.old sink.new rack ended.rack ended.end) }
{
    match open_kept(alloc, rack, extra)? {
        OpenAnswer::Opened(volume, _) => {
            let text = text_of(alloc, &volume)?;
            let end = tell(sink, &text, SavedEnd::Done);
            Ok(Ended {
                rack: volume.into_rack(),
                end,
            })
        }
        unopened => Ok(tell_unopened(sink, unopened)),
    }
}
