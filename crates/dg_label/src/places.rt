// Bits of members whose boundaries get new places.
ghost use Rattle.std.specs.Prelude.{◌≡◌, ◌≢◌, ◌≤◌, ◌<◌, ◌+◌, ◌*◌, ◌/◌, ◌==◌, ℕ, false, length};
ghost use Rattle.std.specs.Int.{bit_at};
ghost use Rattle.dg_io.specs.Commits.{is_marked};
ghost use Rattle.dg_io.specs.Reduced.{member_before, places_left};
ghost use Rattle.dg_label.specs.Lefts.{KeepsLeft};

use crate::labels::{KeptLabel, with_bit};

/// The bits with that of one member, which isn't set yet, as another one has it in others.
fn copied_bit(kept: u32, member: u8, bits: u32, from: u8) -> u32
    requires members { (member < 32) × (from < 32) }
    requires clear { is_marked kept member ≡ false }
    ensures here { is_marked result member ≡ is_marked bits from }
    ensures others { (q : ℕ) → q ≢ member → is_marked result q ≡ is_marked kept q }
{
    if bits >> from & 1 == 1 {
        with_bit(kept, member)
    } else {
        kept
    }
}

/// The bits with those of the two members of a boundary, which aren't set yet, as those of another one have them in others.
fn copied_pair(kept: u32, boundary: u8, bits: u32, from: u8) -> u32
    requires boundaries { (boundary < 16) × (from < 16) }
    requires clear { (q : ℕ) → boundary ≤ q / 2 → is_marked kept q ≡ false }
    ensures first { is_marked result (2 * boundary) ≡ is_marked bits (2 * from) }
    ensures second { is_marked result (2 * boundary + 1) ≡ is_marked bits (2 * from + 1) }
    ensures others { (q : ℕ) → q / 2 ≢ boundary → is_marked result q ≡ is_marked kept q }
{
    let first = copied_bit(kept, 2 * boundary, bits, 2 * from);
    copied_bit(first, 2 * boundary + 1, bits, 2 * from + 1)
}

/// Whether a boundary is left: its bit isn't set.
fn is_left(lost: u16, boundary: u8) -> bool
    requires { boundary < 16 }
    ensures { result ≡ (bit_at lost boundary == 0) }
{
    lost >> boundary & 1 == 0
}

/// The bits of the members of the boundaries that are left of so many, under their new places. Bit s of `lost` is set for a boundary that isn't left.
fn bits_left(bits: u32, lost: u16, boundaries: u8) -> u32
    requires { boundaries ≤ 16 }
    ensures { (q : ℕ) → q / 2 < length (places_left lost boundaries)
        → is_marked result q ≡ is_marked bits (member_before (places_left lost boundaries) q) }
{
    let mut kept = 0;
    let mut place = 0;
    for boundary in 0..boundaries {
        if is_left(lost, boundary) {
            kept = copied_pair(kept, place, bits, boundary);
            place += 1;
        }
    }
    kept
}

/// Keeps what the label says of the members of the boundaries that are left of so many, under their new places. Bit s of `lost` is set for a boundary
/// that isn't left.
pub fn keep_left(label: &mut Option<KeptLabel>, lost: u16, boundaries: u8)
    requires { boundaries ≤ 16 }
    ensures { KeepsLeft (places_left lost boundaries) label.old label.new }
{
    if let Some(kept) = *label {
        *label = Some(KeptLabel {
            long: bits_left(kept.long, lost, boundaries),
            ..kept
        });
    }
}
