// What is answered at a path that gave nothing.
ghost use Rattle.std.specs.Prelude.{◌≡◌, ◌≤◌, IsSome, Some, OnOk, OnErr};
ghost use Rattle.dg_io.specs.SinkLines.{LeavesLines};
ghost use Rattle.dg_model.specs.Causes.{Rose};
ghost use Rattle.dg_model.specs.declared.replies.Reply.{Reply};
ghost use Rattle.dg_io.specs.Told.{Told, Took, TookPart};
ghost use Rattle.dg_text.specs.Replies.{reply_line};
ghost use Rattle.dg_saved.specs.Serves.{reply_at};

use crate::events::Fault;
use crate::serve::send;
use dg_io::Sink;
use dg_saved::reply_at;
use dg_volume::CatAnswer;

/// Writes the reply to a path that gave nothing.
pub fn send_nothing<K: Sink>(sink: &mut K, answer: CatAnswer) -> Result<(), Fault>
    requires { IsSome (reply_at answer) }
    ensures ok { (reply : Reply) → reply_at answer ≡ Some reply → OnOk result (Told (Took (reply_line reply)) (K.taken sink.old) (K.taken sink.new)) }
    ensures part { (reply : Reply) → reply_at answer ≡ Some reply
        → OnErr result (Told (TookPart (reply_line reply)) (K.taken sink.old) (K.taken sink.new)) }
    ensures later { K.faults sink.old ≤ K.faults sink.new }
    ensures kept { OnOk result (K.faults sink.new ≡ K.faults sink.old) }
    ensures lines { OnOk result (LeavesLines 255 K.whole K.calls K.taken sink.old sink.new) }
    ensures err { OnErr result (result ≡ Err Fault.Write) }
    ensures write { OnErr result (Rose (K.faults sink.old) (K.faults sink.new)) }
{
    let reply = reply_at(answer);
    send(sink, &reply)
}
