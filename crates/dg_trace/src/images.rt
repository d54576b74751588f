// The image, read from a source.
ghost use Rattle.std.specs.Prelude.{◌≡◌, ◌+◌, ◌<◌, ◌≤◌, ◌++◌, [], length, slice_range, IfOk, OnErr, OnOk};
ghost use Rattle.dg_io.specs.Faults.{HasCause};
ghost use Rattle.dg_io.specs.SourceReads.{LeavesSource};
ghost use Rattle.dg_io.specs.Told.{Gave, IsSame, Told};
ghost use Rattle.dg_model.specs.Causes.{Rose};
ghost use Rattle.dg_trace.specs.Images.{GaveImage, GavePart};

use crate::asked::TraceFault;
use crate::volumes::{LEAST_BYTES, volume_bytes};
use dg_io::{Failed, NoMemory, Source};
use std::alloc::Global;

/// The most bytes of an image.
pub const MOST_BYTES: usize = 1 << 28;

/// Bytes that are asked of the source at once.
const PIECE: usize = 65536;

/// Bytes for which room is taken at once.
const ROOM: usize = 1 << 20;

/// A buffer for what is read at once.
fn new_piece(alloc: Global) -> Result<Vec<u8>, NoMemory>
    ensures { IfOk result (λ piece. length piece.items ≡ 65536) }
{
    match vec![in alloc; 0u8; PIECE] {
        Ok(piece) => Ok(piece),
        Err(_) => Err(NoMemory),
    }
}

/// Reads bytes to a buffer from a place on, at most to its end, and answers how many. None is the end of the source.
fn read_behind<S: Source>(source: &mut S, piece: &mut Vec<u8>, at: usize) -> Result<usize, Failed>
    requires { at < length piece.old.items }
    ensures size { length piece.new.items ≡ length piece.old.items }
    ensures within { IfOk result (λ n. at + n ≤ length piece.new.items) }
    ensures gave { IfOk result (λ n. Told (Gave (slice_range piece.new.items at (at + n))) (S.left source.old) (S.left source.new)) }
    ensures end { IfOk result (λ n. n ≡ 0 → Told (λ before after. before ≡ []) (S.left source.old) (S.left source.new)) }
    ensures err { OnErr result (Told IsSame (S.left source.old) (S.left source.new)) }
    ensures cause { HasCause (S.faults source.old) (S.faults source.new) result }
    ensures takes { IfOk result (λ n. 0 < n → LeavesSource S.calls S.left 0 source.old source.new) }
    ensures reads { LeavesSource S.calls S.left 1 source.old source.new }
{
    source.read(&mut piece[at..])
}

/// Takes room for the whole volume, if its superblock is one. So an image is held once, and not once more while it grows.
fn make_room(image: &mut Vec<u8>) -> Result<(), NoMemory>
    requires { 9568 ≤ length image.old.items }
    ensures { OnOk result (image.new.items ≡ image.old.items) }
{
    let volume = volume_bytes(image).min(MOST_BYTES);
    match image.reserve_exact(volume.saturating_sub(image.len())) {
        Ok(()) => Ok(()),
        Err(_) => Err(NoMemory),
    }
}

/// Takes room for more bytes of an image, where there is none yet, always for as many. So grows an image whose superblock doesn't tell its length; the
/// vector by itself would take room for twice its bytes.
fn have_room(image: &mut Vec<u8>, more: usize) -> Result<(), NoMemory>
    ensures { OnOk result (image.new.items ≡ image.old.items) }
{
    if more <= image.capacity().saturating_sub(image.len()) {
        return Ok(());
    }
    match image.reserve_exact(ROOM) {
        Ok(()) => Ok(()),
        Err(_) => Err(NoMemory),
    }
}

/// Appends bytes to an image, and takes room for the rest once its superblock is there.
fn append(image: &mut Vec<u8>, piece: &[u8]) -> Result<(), NoMemory>
    ensures { OnOk result (image.new.items ≡ image.old.items ++ piece.now) }
{
    let before = image.len();
    have_room(image, piece.len())?;
    if image.extend_from_slice(piece).is_err() {
        return Err(NoMemory);
    }
    if before < LEAST_BYTES && image.len() >= LEAST_BYTES {
        make_room(image)?;
    }
    Ok(())
}

/// Reads an image to the end of the source. Of one with more than the most bytes it reads one byte past them, and no more.
pub fn read_image<S: Source>(alloc: Global, source: &mut S) -> Result<Vec<u8>, TraceFault>
    ensures image { IfOk result (λ image. Told (GaveImage image.items) (S.left source.old) (S.left source.new)) }
    ensures part { OnErr result (Told GavePart (S.left source.old) (S.left source.new)) }
    ensures write { result ≡ Err TraceFault.Write → ⊥ }
    ensures read { result ≡ Err TraceFault.Read → Rose (S.faults source.old) (S.faults source.new) }
    ensures kept { (result ≡ Err TraceFault.Read → ⊥) → S.faults source.new ≡ S.faults source.old }
    ensures reads { LeavesSource S.calls S.left 1 source.old source.new }
{
    let Ok(mut piece) = new_piece(alloc) else {
        return Err(TraceFault::NoMemory);
    };
    let mut image = Vec::new(alloc);
    let mut count = 0;
    while count <= MOST_BYTES {
        let room = PIECE.min(MOST_BYTES + 1 - count);
        let at = PIECE - room;
        let Ok(n) = read_behind(source, &mut piece, at) else {
            return Err(TraceFault::Read);
        };
        if n == 0 {
            return Ok(image);
        }
        let Ok(()) = append(&mut image, &piece[at..at + n]) else {
            return Err(TraceFault::NoMemory);
        };
        count += n;
    }
    Ok(image)
}
