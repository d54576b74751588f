// The reply at a path that gave nothing.
ghost use Rattle.std.specs.Prelude.{◌≡◌, ◌≢◌, ℕ, IsSome, Some, OnOk, OnErr};
ghost use Rattle.dg_io.specs.Faults.{HasCause};
ghost use Rattle.dg_io.specs.SinkLines.{LeavesLines};
ghost use Rattle.dg_io.specs.Told.{Told, Took, TookPart};
ghost use Rattle.dg_model.specs.Causes.{Rose};
ghost use Rattle.dg_model.specs.declared.replies.Reply.{Reply};
ghost use Rattle.dg_saved.specs.Serves.{EndsNothing, reply_at};
ghost use Rattle.dg_text.specs.Replies.{reply_line};

use crate::ends::SavedEnd;
use dg_io::Sink;
use dg_model::{Failed, Reply};
use dg_text::write_reply;
use dg_volume::CatAnswer;
use ufs_model::PathRefusal;

/// The reply to a path that gave nothing.
pub fn reply_at(answer: CatAnswer) -> Reply
    requires { IsSome (reply_at answer) }
    ensures is { reply_at answer ≡ Some result }
{
    match answer {
        CatAnswer::NotFound => Reply::Refused(PathRefusal::NotFound),
        CatAnswer::NotDirectory => Reply::Refused(PathRefusal::NotDirectory),
        CatAnswer::NotRegular => Reply::Refused(PathRefusal::NotRegular),
        CatAnswer::Bad(bad) => Reply::Refused(PathRefusal::Bad(bad)),
        CatAnswer::Unavailable => Reply::Unavailable,
        CatAnswer::Given(_) | CatAnswer::Cut(_) | CatAnswer::SinkFault => unreachable!(),
    }
}

/// Writes the reply to a path that gave nothing.
fn write_nothing<K: Sink>(sink: &mut K, answer: CatAnswer) -> Result<(), Failed>
    requires { IsSome (reply_at answer) }
    ensures ok { (reply : Reply) → reply_at answer ≡ Some reply → OnOk result (Told (Took (reply_line reply)) (K.taken sink.old) (K.taken sink.new)) }
    ensures err { (reply : Reply) → reply_at answer ≡ Some reply
        → OnErr result (Told (TookPart (reply_line reply)) (K.taken sink.old) (K.taken sink.new)) }
    ensures cause { HasCause (K.faults sink.old) (K.faults sink.new) result }
    ensures lines { (w : ℕ) → OnOk result (LeavesLines w K.whole K.calls K.taken sink.old sink.new) }
{
    let reply = reply_at(answer);
    write_reply(sink, &reply)
}

/// Prints the reply to a path that gave nothing, which ends a command.
pub fn tell_nothing<K: Sink>(sink: &mut K, answer: CatAnswer) -> SavedEnd
    requires { IsSome (reply_at answer) }
    ensures ends { (reply : Reply) → reply_at answer ≡ Some reply → EndsNothing (reply_line reply) (K.taken sink.old) (K.taken sink.new) result }
    ensures write { result ≡ SavedEnd.WriteFault → Rose (K.faults sink.old) (K.faults sink.new) }
    ensures kept { result ≢ SavedEnd.WriteFault → K.faults sink.new ≡ K.faults sink.old }
    ensures lines { (w : ℕ) → result ≢ SavedEnd.WriteFault → LeavesLines w K.whole K.calls K.taken sink.old sink.new }
{
    match write_nothing(sink, answer) {
        Ok(()) => SavedEnd::Refused,
        Err(_) => SavedEnd::WriteFault,
    }
}
