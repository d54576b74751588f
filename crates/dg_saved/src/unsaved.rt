// A rack on which no saved array was opened.
ghost use Rattle.std.specs.Prelude.{ℕ, List};
ghost use Rattle.dg_saved.specs.Calls.{facts_of};
ghost use Rattle.dg_saved.specs.Ends.{EndsUnopened, LeavesSaved};
ghost use Rattle.dg_saved.specs.Unopened.{IsUnopened};
ghost use Rattle.dg_volume.specs.Besides.{AnswersOpenKept};

use crate::ends::{Ended, SavedEnd, tell};
use dg_io::{Checkpoint, Sink};
use dg_volume::OpenAnswer;

/// Prints why no array was opened, and gives the rack back.
pub fn tell_unopened<K: Sink, R: Checkpoint + Drop>(sink: &mut K, answer: OpenAnswer<R>) -> Ended<R>
    requires { IsUnopened answer }
    ensures ends { (before : R) (extra : List ℕ) → AnswersOpenKept R.Rack R.room_of before extra answer
        → EndsUnopened (facts_of K.Sink R.Rack R.room_of extra sink.old sink.new before result.rack) result.end }
    ensures leaves { (w : ℕ) → (before : R) (extra : List ℕ) → AnswersOpenKept R.Rack R.room_of before extra answer
        → LeavesSaved w K.Sink R.Rack sink.old sink.new before result.rack result.end }
{
    match answer {
        OpenAnswer::NoState(rack) => Ended {
            rack,
            end: tell(sink, b"nostate\n", SavedEnd::NoState),
        },
        OpenAnswer::Unclean(rack) => Ended {
            rack,
            end: tell(sink, b"unclean\n", SavedEnd::Unclean),
        },
        OpenAnswer::Opened(_, _) => unreachable!(),
    }
}
