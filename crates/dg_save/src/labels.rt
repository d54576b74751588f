ghost use Rattle.std.specs.Prelude.{◌≡◌, ◌+◌, ◌≤◌, ◌↔◌, ℕ, List, ◌++◌, length, MatchOption, IfSome, IsTrue};
ghost use Rattle.dg_model.specs.Saves.{HasLength, IsLabel, label_bytes, seal_byte};
ghost use Rattle.dg_model.specs.Blocks.{padded};
ghost use Rattle.dg_model.specs.Shapes.{IsShape};
ghost use Rattle.dg_save.specs.Labels.{HasNoLabel, HasShape, IsFormat, IsOwn, SaysJust, SaysLabel, format_in, label_of};

use crate::Shape;
use crate::lengths::{member_length, room};
use ufs_model::{Endian, u32_at, u64_at};

/// The bytes of a label.
pub const LABEL_BYTES: usize = 512;

/// What stands at the head of a member.
#[derive(Clone, Copy, Debug, PartialEq, Eq)]
pub struct Label {
    /// 1 or 2.
    pub format: u8,
    /// The number of the save, counted from 1.
    pub sequence: u64,
    /// Whether nothing was written since that save.
    pub sealed: bool,
    /// The member that it stands on.
    pub boundary: u8,
    pub side: u8,
    pub shape: Shape,
    /// The bytes of the body.
    pub body: u32,
}

const SEALED: u8 = b'S';

const OPENED: u8 = b'O';

/// The byte that says whether a label is sealed.
fn seal_of(sealed: bool) -> u8
    ensures { result ≡ seal_byte sealed }
{
    if sealed { SEALED } else { OPENED }
}

/// Writes the bytes at a place, and gives the place behind them.
fn put(buf: &mut [u8; LABEL_BYTES], at: usize, bytes: &[u8]) -> usize
    requires { at + length bytes.now ≤ LABEL_BYTES }
    ensures end { result ≡ at + length bytes.now }
    ensures bytes { (done : List ℕ) → length done ≡ at → buf.old ≡ padded 512 done → buf.new ≡ padded 512 (done ++ bytes.now) }
{
    let end = at + bytes.len();
    buf[at..end].copy_from_slice(bytes);
    end
}

/// Fills a buffer with the bytes of a label.
pub fn write_label(label: &Label, buf: &mut [u8; LABEL_BYTES])
    requires { IsLabel (label_of label.now) }
    ensures { buf.new ≡ label_bytes (label_of label.now) }
{
    *buf = [0; LABEL_BYTES];
    let at = put(buf, 0, b"DGRAID-");
    let at = put(buf, at, &[b'0' + label.format]);
    let at = put(buf, at, &label.sequence.to_le_bytes());
    let at = put(
        buf,
        at,
        &[seal_of(label.sealed), label.boundary, label.side, 0],
    );
    let at = put(buf, at, &label.shape.l.to_le_bytes());
    let at = put(buf, at, &label.shape.n.to_le_bytes());
    let at = put(buf, at, &u32::from(label.shape.b).to_le_bytes());
    let at = put(buf, at, &label.shape.k.to_le_bytes());
    let at = put(buf, at, &u32::from(label.shape.m).to_le_bytes());
    put(buf, at, &label.body.to_le_bytes());
}

/// The label that the bytes are. `None` where they aren't one.
pub fn read_label(buf: &[u8; LABEL_BYTES]) -> Option<Label>
    ensures { MatchOption result (HasNoLabel buf.now) (SaysLabel buf.now) }
{
    let label = numbers_of(buf)?;
    let mut again = [0; LABEL_BYTES];
    write_label(&label, &mut again);
    if again == *buf { Some(label) } else { None }
}

/// Whether a label is the own one of a member on which it was found, which has so many bytes. A label of format 1 may stand on a member
/// that is as long as one of format 2.
pub fn is_own_label(label: &Label, member: u8, length: u64) -> bool
    requires { IsLabel (label_of label.now) }
    ensures { IsTrue result ↔ IsOwn member length (label_of label.now) }
{
    label.boundary == member / 2 && label.side == member % 2 && has_length(label, length)
}

/// Whether a member of so many bytes may have the label.
fn has_length(label: &Label, length: u64) -> bool
    requires { IsLabel (label_of label.now) }
    ensures { IsTrue result ↔ HasLength (label_of label.now) length }
{
    length == member_length(&label.shape, label.format)
        || label.format == 1 && length == member_length(&label.shape, 2)
}

/// The label that the bytes are, if they are one. What stands between and behind the numbers isn't looked at.
fn numbers_of(buf: &[u8; LABEL_BYTES]) -> Option<Label>
    ensures is { IfSome result (λ label. IsLabel (label_of label)) }
    ensures exact { SaysJust buf.now result }
{
    let format = format_of(buf[7])?;
    let shape = shape_of(buf)?;
    let label = Label {
        format,
        sequence: u64_at(buf, 8, Endian::Little),
        sealed: buf[16] == SEALED,
        boundary: buf[17],
        side: buf[18],
        shape,
        body: u32_at(buf, 40, Endian::Little),
    };
    if is_label(&label) { Some(label) } else { None }
}

/// The numbers of the array that a label would be of.
fn shape_of(buf: &[u8; LABEL_BYTES]) -> Option<Shape>
    ensures is { IfSome result IsShape }
    ensures exact { HasShape buf.now result }
{
    let l = u32_at(buf, 20, Endian::Little);
    let n = u32_at(buf, 24, Endian::Little);
    let b = u32_at(buf, 28, Endian::Little);
    let k = u32_at(buf, 32, Endian::Little);
    let m = u32_at(buf, 36, Endian::Little);
    Shape::check(l, n, b, k, m)
}

/// The format whose digit this is.
fn format_of(digit: u8) -> Option<u8>
    ensures formats { IfSome result IsFormat }
    ensures value { result ≡ format_in digit }
{
    match digit {
        b'1' => Some(1),
        b'2' => Some(2),
        _ => None,
    }
}

/// Whether numbers of one of the formats, with the numbers of an array, are those of a label.
fn is_label(label: &Label) -> bool
    requires format { IsFormat label.now.format }
    requires shape { IsShape label.now.shape }
    ensures { IsTrue result ↔ IsLabel (label_of label.now) }
{
    label.sequence >= 1
        && label.sequence < 1 << 63
        && label.boundary < label.shape.b
        && label.side < 2
        && u64::from(label.body) <= room(&label.shape, label.format)
}
