// Words of paths: each byte by itself, or as `\x` and two hex digits in lower case.
ghost use Rattle.std.specs.Prelude.{◌≡◌, ◌≤◌, ◌<◌, ◌++◌, ℕ, List, length, drop, true, false, IfOk, IfSome, IfNone, MatchOption};
ghost use Rattle.ufs_model.specs.Paths.{is_path};
ghost use Rattle.dg_text.specs.Lines.{is_plain, spelled_byte, path_word, AreBytes};
ghost use Rattle.dg_text.specs.Refusals.{IsPathWord};

use crate::hex_words::byte_of;
use crate::words::after_word;
use dg_model::{Bytes, NoMemory};
use std::alloc::Global;

// Bytes of the longest path.
const LONGEST_PATH: usize = 1023;

/// Whether a byte of a path stands for itself.
pub fn is_plain(byte: u8) -> bool
    ensures { result ≡ is_plain byte }
{
    matches!(byte, 0x21..=0x7e) && byte != b'\\'
}

// The byte that `\x` and two digits at the front of a word spell. None spells a byte that stands for itself.
fn escaped_byte(word: &[u8]) -> Option<u8>
    ensures found { IfSome result (λ x. (word.now ≡ spelled_byte x ++ drop 4 word.now) × (4 ≤ length word.now)) }
    ensures exact { (x : ℕ) (rest : List ℕ) → x < 256 → is_plain x ≡ false → word.now ≡ spelled_byte x ++ rest → result ≡ Some x }
{
    let digits = after_word(word, b"\\x")?;
    if digits.len() < 2 {
        return None;
    }
    let byte = byte_of(digits[0], digits[1])?;
    if is_plain(byte) {
        return None;
    }
    Some(byte)
}

// The byte that the front of a word spells, and how many characters spell it.
fn next_byte(word: &[u8]) -> Option<(u8, usize)>
    ensures found { IfSome result (λ r. (word.now ≡ spelled_byte r.0 ++ drop r.1 word.now) × (0 < r.1) × (r.1 ≤ length word.now) × (r.0 < 256)) }
    ensures exact { (x : ℕ) (rest : List ℕ) → x < 256 → word.now ≡ spelled_byte x ++ rest → MatchOption result ⊥ (λ r. (r.0 ≡ x) × (drop r.1 word.now ≡ rest)) }
{
    if word.is_empty() {
        return None;
    }
    let first = word[0];
    if is_plain(first) {
        return Some((first, 1));
    }
    let byte = escaped_byte(word)?;
    Some((byte, 4))
}

// The bytes that a word spells, if they are no more than those of the longest path.
fn spelled_bytes(alloc: Global, word: &[u8]) -> Result<Option<Vec<u8>>, NoMemory>
    ensures found { IfOk result (λ r. IfSome r (λ bytes. (word.now ≡ path_word bytes.items) × AreBytes bytes.items)) }
    ensures exact { IfOk result (λ r. (bytes : List ℕ) → length bytes ≤ 1023 → AreBytes bytes → word.now ≡ path_word bytes
        → MatchOption r ⊥ (λ found. found.items ≡ bytes)) }
{
    let mut bytes = Vec::new(alloc);
    let mut at = 0;
    while at < word.len() {
        let (_, rest) = word.split_at(at);
        let Some((byte, count)) = next_byte(rest) else {
            return Ok(None);
        };
        if bytes.len() == LONGEST_PATH {
            return Ok(None);
        }
        let Ok(()) = bytes.push(byte) else {
            return Err(NoMemory);
        };
        at += count;
    }
    Ok(Some(bytes))
}

/// The path that a word spells, as the bytes of the path; `None` where it spells none.
pub fn read_path(alloc: Global, word: &[u8]) -> Result<Option<Bytes>, NoMemory>
    ensures found { IfOk result (λ r. IfSome r (λ path. (word.now ≡ path_word path) × (is_path path ≡ true) × AreBytes path)) }
    ensures none { IfOk result (λ r. IfNone r (IsPathWord word.now → ⊥)) }
{
    let Some(bytes) = spelled_bytes(alloc, word)? else {
        return Ok(None);
    };
    if !ufs_model::is_path(&bytes) {
        return Ok(None);
    }
    Ok(Some(Bytes::new(bytes)))
}
