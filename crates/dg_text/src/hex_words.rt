// Hex words: bytes as pairs of hex digits in lower case, and `-` for none.
ghost use Rattle.std.specs.Prelude.{◌≡◌, ◌<◌, ◌≤◌, ◌*◌, ◌∷◌, [], ℕ, List, length, slice_index, false, IsTrue, IfOk, IfSome, IfNone};
ghost use Rattle.hex.specs.Hex.{encode_lower, lower_digits};
ghost use Rattle.dg_text.specs.Lines.{hex_word, AreBytes};
ghost use Rattle.dg_text.specs.Refusals.{IsHexWord};

use dg_model::{Bytes, NoMemory};
use std::alloc::Global;

// What each character is worth as a hex digit in lower case; 16 where it is none.
const VALUES: &[u8; 256] = &[
    16, 16, 16, 16, 16, 16, 16, 16, 16, 16, 16, 16, 16, 16, 16, 16, 16, 16, 16, 16, 16, 16, 16, 16,
    16, 16, 16, 16, 16, 16, 16, 16, 16, 16, 16, 16, 16, 16, 16, 16, 16, 16, 16, 16, 16, 16, 16, 16,
    0, 1, 2, 3, 4, 5, 6, 7, 8, 9, 16, 16, 16, 16, 16, 16, 16, 16, 16, 16, 16, 16, 16, 16, 16, 16,
    16, 16, 16, 16, 16, 16, 16, 16, 16, 16, 16, 16, 16, 16, 16, 16, 16, 16, 16, 16, 16, 16, 16, 10,
    11, 12, 13, 14, 15, 16, 16, 16, 16, 16, 16, 16, 16, 16, 16, 16, 16, 16, 16, 16, 16, 16, 16, 16,
    16, 16, 16, 16, 16, 16, 16, 16, 16, 16, 16, 16, 16, 16, 16, 16, 16, 16, 16, 16, 16, 16, 16, 16,
    16, 16, 16, 16, 16, 16, 16, 16, 16, 16, 16, 16, 16, 16, 16, 16, 16, 16, 16, 16, 16, 16, 16, 16,
    16, 16, 16, 16, 16, 16, 16, 16, 16, 16, 16, 16, 16, 16, 16, 16, 16, 16, 16, 16, 16, 16, 16, 16,
    16, 16, 16, 16, 16, 16, 16, 16, 16, 16, 16, 16, 16, 16, 16, 16, 16, 16, 16, 16, 16, 16, 16, 16,
    16, 16, 16, 16, 16, 16, 16, 16, 16, 16, 16, 16, 16, 16, 16, 16, 16, 16, 16, 16, 16, 16, 16, 16,
    16, 16, 16, 16, 16, 16, 16, 16, 16, 16, 16, 16, 16, 16,
];

/// The bytes that a word spells, if they are at most so many.
pub fn read_hex(alloc: Global, word: &[u8], most: usize) -> Result<Option<Bytes>, NoMemory>
    ensures found { IfOk result (λ r. IfSome r (λ bytes. (word.now ≡ hex_word bytes) × (length bytes ≤ most) × AreBytes bytes)) }
    ensures none { IfOk result (λ r. IfNone r (IsHexWord most word.now → ⊥)) }
{
    if word == b"-".as_slice() {
        return Ok(Some(Bytes::new(Vec::new(alloc))));
    }
    if word.is_empty() {
        return Ok(None);
    }
    let count = word.len() / 2;
    if word.len() != 2 * count {
        return Ok(None);
    }
    if count > most {
        return Ok(None);
    }
    let Ok(mut bytes) = vec![in alloc; 0u8; count] else {
        return Err(NoMemory);
    };
    if !decode(word, &mut bytes) {
        return Ok(None);
    }
    Ok(Some(Bytes::new(bytes)))
}

// Puts the bytes that pairs of digits spell into their places, in one pass without a branch. Where not all are digits in lower
// case, the answer is no, and what stands in the places is of no use.
fn decode(word: &[u8], bytes: &mut [u8]) -> bool
    requires { length word.now ≡ 2 * length bytes.old }
    ensures found { IsTrue result → (word.now ≡ encode_lower bytes.new) × AreBytes bytes.new }
    ensures none { result ≡ false → (spelled : List ℕ) → AreBytes spelled → word.now ≡ encode_lower spelled → ⊥ }
{
    let mut values = 0;
    for i in 0..bytes.len() {
        let first = value_of(word[2 * i]);
        let second = value_of(word[2 * i + 1]);
        values |= first | second;
        bytes[i] = first.wrapping_mul(16).wrapping_add(second);
    }
    values < 16
}

/// The byte that two hex digits in lower case spell.
#[inline]
pub fn byte_of(high: u8, low: u8) -> Option<u8>
    ensures found { IfSome result (λ x. (x < 256) × (encode_lower (x ∷ []) ≡ high ∷ low ∷ [])) }
    ensures none { IfNone result ((x : ℕ) → x < 256 → encode_lower (x ∷ []) ≡ high ∷ low ∷ [] → ⊥) }
{
    let first = value_of(high);
    let second = value_of(low);
    if first.max(second) > 15 {
        return None;
    }
    Some(first * 16 + second)
}

// What a character is worth as a hex digit in lower case; 16 where it is none.
#[inline]
fn value_of(digit: u8) -> u8
    ensures found { result < 16 → slice_index lower_digits result ≡ digit }
    ensures none { 16 ≤ result → (v : ℕ) → v < 16 → slice_index lower_digits v ≡ digit → ⊥ }
{
    VALUES[digit as usize]
}
