// The trace of an image.
ghost use Rattle.std.specs.Prelude.{◌≡◌, Err, OnErr, OnOk};
ghost use Rattle.dg_io.specs.Faults.{HasCause};
ghost use Rattle.dg_io.specs.SinkLines.{LeavesLines};
ghost use Rattle.dg_io.specs.SourceReads.{LeavesSource};
ghost use Rattle.dg_io.specs.Told.{Told, Took, TookPart};
ghost use Rattle.dg_model.specs.Causes.{Rose};
ghost use Rattle.dg_trace.specs.Answers.{refusal_text};
ghost use Rattle.dg_text.specs.Lines.{AreBytes};
ghost use Rattle.dg_trace.specs.Ends.{Ends, EndsImage};
ghost use Rattle.dg_trace.specs.Calls.{facts_of};

use crate::asked::{Asked, TraceEnd, TraceFault, TraceRefusal};
use crate::images::read_image;
use crate::lines::write_lines;
use crate::volumes::check_image;
use dg_io::{Failed, Sink, Source, write_all};
use dg_model::Reply;
use dg_text::write_reply;
use std::alloc::Global;
use ufs_model::{BadRead, PathRefusal};

/// Prints why there is no trace.
fn write_refusal<K: Sink>(sink: &mut K, refusal: TraceRefusal) -> Result<(), Failed>
    ensures ok { OnOk result (Told (Took (refusal_text refusal)) (K.taken sink.old) (K.taken sink.new)) }
    ensures err { OnErr result (Told (TookPart (refusal_text refusal)) (K.taken sink.old) (K.taken sink.new)) }
    ensures cause { HasCause (K.faults sink.old) (K.faults sink.new) result }
    ensures lines { OnOk result (LeavesLines 255 K.whole K.calls K.taken sink.old sink.new) }
{
    match refusal {
        TraceRefusal::Length => write_all(sink, b"bad length\n"),
        TraceRefusal::Super(bad) => write_reply(
            sink,
            &Reply::Refused(PathRefusal::Bad(BadRead::Super(bad))),
        ),
        TraceRefusal::Limits => write_all(sink, b"bad limits\n"),
    }
}

/// Writes the trace of an image, or why there is none.
fn write_answer<K: Sink>(
    alloc: Global,
    asked: &Asked,
    image: &[u8],
    sink: &mut K,
) -> Result<TraceEnd, TraceFault>
    ensures ends { EndsImage asked.now image.now (K.taken sink.old) (K.taken sink.new) result }
    ensures bytes { AreBytes image.now }
    ensures write { result ≡ Err TraceFault.Write → Rose (K.faults sink.old) (K.faults sink.new) }
    ensures kept { (result ≡ Err TraceFault.Write → ⊥) → K.faults sink.new ≡ K.faults sink.old }
    ensures lines { (result ≡ Err TraceFault.Write → ⊥) → LeavesLines 255 K.whole K.calls K.taken sink.old sink.new }
    ensures read { result ≡ Err TraceFault.Read → ⊥ }
{
    match check_image(asked, image) {
        Ok(accepted) => {
            let g = accepted.geometry;
            let (volume, _) = image.split_at(g.size as usize * g.fsize as usize);
            match write_lines(alloc, asked.order, &g, accepted.shape, volume, sink) {
                Ok(()) => Ok(TraceEnd::Written),
                Err(fault) => Err(fault),
            }
        }
        Err(refusal) => match write_refusal(sink, refusal) {
            Ok(()) => Ok(TraceEnd::Refused(refusal)),
            Err(_) => Err(TraceFault::Write),
        },
    }
}

/// Makes the trace of the image in a source, and writes it to a sink: a line that makes an array for the volume, and a `write` line for each block that
/// isn't all zero, without the zeros at its end, in the order that is asked for. Replayed, it gives the volume.
///
/// The source is read to its end; of more than 2^28 bytes the first 2^28 + 1 are read. Where the image is refused, the reason is written, and no trace.
pub fn write_trace<S: Source, K: Sink>(
    alloc: Global,
    asked: &Asked,
    source: &mut S,
    sink: &mut K,
) -> Result<TraceEnd, TraceFault>
    ensures ends { Ends (facts_of S.Source K.Sink source.old source.new sink.old sink.new) asked.now result }

    // The causes of the faults. Want of memory is free.
    ensures read { result ≡ Err TraceFault.Read → Rose (S.faults source.old) (S.faults source.new) }
    ensures write { result ≡ Err TraceFault.Write → Rose (K.faults sink.old) (K.faults sink.new) }
    ensures source_kept { (result ≡ Err TraceFault.Read → ⊥) → S.faults source.new ≡ S.faults source.old }
    ensures sink_kept { (result ≡ Err TraceFault.Write → ⊥) → K.faults sink.new ≡ K.faults sink.old }

    // How often they are called.
    ensures lines { (result ≡ Err TraceFault.Write → ⊥) → LeavesLines 255 K.whole K.calls K.taken sink.old sink.new }
    ensures reads { LeavesSource S.calls S.left 1 source.old source.new }
{
    let image = read_image(alloc, source)?;
    write_answer(alloc, asked, &image, sink)
}
