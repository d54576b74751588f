// The lines of an audit. Each is written by one call, without memory.
ghost use Rattle.std.specs.Prelude.{◌≡◌, ◌≤◌, ◌++◌, length, take, codes, OnOk, OnErr};
ghost use Rattle.std.specs.Fmt.{decimal};
ghost use Rattle.dg_io.specs.Told.{Told, Took, TookPart};
ghost use Rattle.dg_io.specs.Faults.{HasCause};
ghost use Rattle.dg_io.specs.SinkCalls.{LeavesSink};
ghost use Rattle.dg_io.specs.SinkLines.{LeavesLines};
ghost use Rattle.dg_text.specs.LineCalls.{calls_of};
ghost use Rattle.dg_text.specs.Replies.{finding_line, findings_text, reply_line};
ghost use Rattle.dg_model.specs.declared.replies.Reply.{Reply};

use crate::counts::write_number;
use crate::verdicts::write_kind;
use dg_io::Sink;
use dg_model::{Failed, Finding};

/// Writes the lines of an audit, and the one that ends them.
pub fn write_audit<K: Sink>(sink: &mut K, findings: &[Finding]) -> Result<(), Failed>
    ensures ok { OnOk result (Told (Took (reply_line (Reply.Audited findings.now))) (K.taken sink.old) (K.taken sink.new)) }
    ensures err { OnErr result (Told (TookPart (reply_line (Reply.Audited findings.now))) (K.taken sink.old) (K.taken sink.new)) }
    ensures cause { HasCause (K.faults sink.old) (K.faults sink.new) result }
    ensures calls { LeavesSink K.whole K.calls (calls_of (Reply.Audited findings.now)) (length (reply_line (Reply.Audited findings.now))) sink.old sink.new }
    ensures lines { OnOk result (LeavesLines 255 K.whole K.calls K.taken sink.old sink.new) }
{
    write_findings(sink, findings)?;
    write_number(sink, b"end ", findings.len() as u128)
}

// Writes the lines of an audit.
fn write_findings<K: Sink>(sink: &mut K, findings: &[Finding]) -> Result<(), Failed>
    ensures ok { OnOk result (Told (Took (findings_text findings.now)) (K.taken sink.old) (K.taken sink.new)) }
    ensures err { OnErr result (Told (TookPart (findings_text findings.now)) (K.taken sink.old) (K.taken sink.new)) }
    ensures cause { HasCause (K.faults sink.old) (K.faults sink.new) result }
    ensures calls { LeavesSink K.whole K.calls (length findings.now) (length (findings_text findings.now)) sink.old sink.new }
{
    for finding in findings {
        write_finding(sink, *finding)?;
    }
    Ok(())
}

// Writes a line of an audit.
fn write_finding<K: Sink>(sink: &mut K, finding: Finding) -> Result<(), Failed>
    ensures ok { OnOk result (Told (Took (finding_line finding)) (K.taken sink.old) (K.taken sink.new)) }
    ensures err { OnErr result (Told (TookPart (finding_line finding)) (K.taken sink.old) (K.taken sink.new)) }
    ensures cause { HasCause (K.faults sink.old) (K.faults sink.new) result }
    ensures calls { LeavesSink K.whole K.calls 1 (length (finding_line finding)) sink.old sink.new }
{
    match finding {
        Finding::Bad(kind, n) => write_kind(sink, b"bad ", kind, n),
        Finding::Unnamed(i) => write_number(sink, b"note unnamed ", i as u128),
        Finding::Unclaimed(f) => write_number(sink, b"note unclaimed ", f as u128),
    }
}
