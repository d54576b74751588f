// The audit of an image.
ghost use Rattle.std.specs.Prelude.{◌≡◌, ◌*◌, ◌∷◌, [], Err, IfOk, OnErr, OnOk, length};
ghost use Rattle.dg_io.specs.Faults.{HasCause};
ghost use Rattle.dg_io.specs.SinkLines.{LeavesLines};
ghost use Rattle.dg_io.specs.SourceReads.{LeavesSource};
ghost use Rattle.dg_io.specs.Told.{Told, Took, TookPart};
ghost use Rattle.dg_model.specs.Causes.{Rose};
ghost use Rattle.dg_model.specs.Findings.{TellsFindings};
ghost use Rattle.dg_model.specs.declared.findings.Finding.{Finding};
ghost use Rattle.dg_text.specs.Lines.{AreBytes};
ghost use Rattle.dg_trace.specs.Audits.{AuditEnds, EndsAudit, IsAudit, audit_text, blocks_in, end_of, has_bad, is_bad};
ghost use Rattle.dg_trace.specs.Calls.{facts_of};
ghost use Rattle.ufs_model.specs.Geometries.{IsGeometry};
ghost use Rattle.ufs_model.specs.declared.malformations.BadKind.{BadKind};

use crate::asked::TraceFault;
use crate::images::{MOST_BYTES, read_image};
use crate::volumes::{LEAST_BYTES, volume_on};
use dg_io::{Failed, NoMemory, Sink, Source, write_all};
use dg_model::{Finding, Findings};
use dg_text::write_audit;
use std::alloc::Global;
use ufs_audit::{ImageView, audit, lines_of};
use ufs_model::{BadKind, BadSuper, Geometry};
use ufs_pointer::Levels;

/// How an audit of an image ended.
#[derive(Clone, Copy, Debug, PartialEq, Eq)]
pub enum AuditEnd {
    /// Its lines were printed, and tell no malformation.
    Sound,
    /// Its lines were printed, and tell some.
    Malformed,
    /// The image has more than 2^28 bytes, or fewer than 9568, or fewer than its volume. That was printed.
    Length,
}

/// The line of a superblock that fails a test.
fn refusal_line(alloc: Global, bad: BadSuper) -> Result<Findings, NoMemory>
    ensures { IfOk result (λ lines. lines ≡ Finding.Bad (BadKind.Super bad) 0 ∷ []) }
{
    let mut lines = Vec::new(alloc);
    if lines.push(Finding::Bad(BadKind::Super(bad), 0)).is_err() {
        return Err(NoMemory);
    }
    Ok(Findings::new(lines))
}

/// The lines of a volume with this geometry, whose bytes these are.
fn volume_lines(alloc: Global, volume: Vec<u8>, g: &Geometry) -> Result<Findings, NoMemory>
    requires geometry { IsGeometry g.now }
    requires bytes { length volume.items ≡ g.now.size * g.now.fsize }
    ensures { IfOk result (TellsFindings g.now.fsize g.now.size (blocks_in g.now volume.items)) }
{
    let mut levels = Levels::new(alloc, g.fsize)?;
    let mut view = ImageView::new(volume, g.fsize, g.size);
    let Some(found) = audit(alloc, &mut view, &mut levels)? else {
        unreachable!()
    };
    let lines = lines_of(alloc, &found)?;
    Ok(lines)
}

/// The lines of an audit of an image. There are none where it has a wrong length.
fn image_lines(alloc: Global, mut image: Vec<u8>) -> Result<Option<Findings>, NoMemory>
    ensures { IfOk result (IsAudit image.items) }
{
    if image.len() < LEAST_BYTES || image.len() > MOST_BYTES {
        return Ok(None);
    }
    let g = match volume_on(&image) {
        Ok(g) => g,
        Err(bad) => return Ok(Some(refusal_line(alloc, bad)?)),
    };
    let bytes = g.size as usize * g.fsize as usize;
    if image.len() < bytes {
        return Ok(None);
    }
    image.truncate(bytes);
    Ok(Some(volume_lines(alloc, image, &g)?))
}

/// Whether a line tells a malformation.
fn is_bad(line: &Finding) -> bool
    ensures { result ≡ is_bad line.now }
{
    match line {
        Finding::Bad(_, _) => true,
        Finding::Unnamed(_) | Finding::Unclaimed(_) => false,
    }
}

/// Whether one of the lines does.
fn has_bad(lines: &[Finding]) -> bool
    ensures { result ≡ has_bad lines.now }
{
    lines.iter().any(|line| is_bad(line))
}

/// Prints what was found on an image, or that its length is wrong.
fn write_found<K: Sink>(sink: &mut K, found: &Option<Findings>) -> Result<(), Failed>
    ensures ok { OnOk result (Told (Took (audit_text found.now)) (K.taken sink.old) (K.taken sink.new)) }
    ensures err { OnErr result (Told (TookPart (audit_text found.now)) (K.taken sink.old) (K.taken sink.new)) }
    ensures cause { HasCause (K.faults sink.old) (K.faults sink.new) result }
    ensures lines { OnOk result (LeavesLines 255 K.whole K.calls K.taken sink.old sink.new) }
{
    match found {
        Some(lines) => write_audit(sink, lines.as_slice()),
        None => write_all(sink, b"bad length\n"),
    }
}

/// How an audit ends that found this, where that was printed.
fn end_of(found: &Option<Findings>) -> AuditEnd
    ensures { result ≡ end_of found.now }
{
    match found {
        Some(lines) => {
            if has_bad(lines.as_slice()) {
                AuditEnd::Malformed
            } else {
                AuditEnd::Sound
            }
        }
        None => AuditEnd::Length,
    }
}

/// The numbers in a slice of bytes are bytes.
fn are_bytes(image: &[u8])
    ensures { AreBytes image.now }
{}

/// Audits an image, and prints what was found.
fn audit_bytes<K: Sink>(alloc: Global, image: Vec<u8>, sink: &mut K) -> Result<AuditEnd, TraceFault>
    ensures ends { EndsAudit image.items (K.taken sink.old) (K.taken sink.new) result }
    ensures bytes { AreBytes image.items }
    ensures write { result ≡ Err TraceFault.Write → Rose (K.faults sink.old) (K.faults sink.new) }
    ensures kept { (result ≡ Err TraceFault.Write → ⊥) → K.faults sink.new ≡ K.faults sink.old }
    ensures lines { (result ≡ Err TraceFault.Write → ⊥) → LeavesLines 255 K.whole K.calls K.taken sink.old sink.new }
    ensures read { result ≡ Err TraceFault.Read → ⊥ }
{
    are_bytes(&image);
    let Ok(found) = image_lines(alloc, image) else {
        return Err(TraceFault::NoMemory);
    };
    match write_found(sink, &found) {
        Ok(()) => Ok(end_of(&found)),
        Err(_) => Err(TraceFault::Write),
    }
}

/// Tells all that is wrong with the volume of the image in a source, and what belongs to nothing: a line for each, and one with their number. Of a
/// superblock that fails a test it tells that alone. Where the image has a wrong length, that is told.
///
/// The source is read to its end; of more than 2^28 bytes the first 2^28 + 1 are read. All is found before the first line is written.
pub fn audit_image<S: Source, K: Sink>(
    alloc: Global,
    source: &mut S,
    sink: &mut K,
) -> Result<AuditEnd, TraceFault>
    ensures ends { AuditEnds (facts_of S.Source K.Sink source.old source.new sink.old sink.new) result }

    // The causes of the faults. Want of memory is free.
    ensures read { result ≡ Err TraceFault.Read → Rose (S.faults source.old) (S.faults source.new) }
    ensures write { result ≡ Err TraceFault.Write → Rose (K.faults sink.old) (K.faults sink.new) }
    ensures source_kept { (result ≡ Err TraceFault.Read → ⊥) → S.faults source.new ≡ S.faults source.old }
    ensures sink_kept { (result ≡ Err TraceFault.Write → ⊥) → K.faults sink.new ≡ K.faults sink.old }

    // How often they are called.
    ensures lines { (result ≡ Err TraceFault.Write → ⊥) → LeavesLines 255 K.whole K.calls K.taken sink.old sink.new }
    ensures reads { LeavesSource S.calls S.left 1 source.old source.new }
{
    let image = read_image(alloc, source)?;
    audit_bytes(alloc, image, sink)
}
