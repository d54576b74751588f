// Which bytes of the chunks of a disk a piece of a member has.
ghost use Rattle.std.specs.Prelude.{◌≡◌, ◌≢◌, ◌⊎◌, ◌+◌, ◌-◌, ◌/◌, ◌*◌, ◌<◌, ◌≤◌, ◌^◌, ℕ, true, false, length};
ghost use Rattle.dg_parity.specs.Stripes.{parity_of};
ghost use Rattle.dg_parity.specs.Runs.{byte_in, IsWindow, ChangesPage, IsSpan, Overlays, Gathers, GathersRow};
ghost use Rattle.dg_parity.specs.Updates.{has_all, has_part, is_read};

use crate::overlaps::copy_into;
use crate::windows::{LAST, Window, chunk_on, parity_on};
use crate::xors::xor_into;

/// Puts the bytes of a piece over the chunk of disk j in stripe t, which is the q-th one of a row.
pub(crate) fn overlay(n: u8, j: u8, t: u64, q: usize, at: u64, piece: &[u8], row: &mut [u8])
    requires least { 3 ≤ n }
    requires most { n ≤ 8 }
    requires disk { j < n }
    requires small { t < 2 ^ 56 }
    requires other { j ≢ parity_of n t }
    requires range { at + length piece.now < 2 ^ 64 }
    requires room { 512 * q + 512 ≤ length row.old }
    ensures { Overlays n j t q at piece.now row.old row.new }
{
    let i = chunk_on(n, t, j);
    if i > LAST {
        return;
    }
    let start = at.max(512 * i);
    let end = (at + piece.len() as u64).min((512 * i).saturating_add(512));
    if start >= end {
        return;
    }
    let low = 512 * q + (start - 512 * i) as usize;
    copy_into(
        row,
        low,
        piece,
        (start - at) as usize,
        (end - start) as usize,
    );
}

// Puts the parity of a stripe, or the bytes that a piece has of the chunk of disk j, into the q-th chunk of a row.
fn gather_chunk(
    n: u8,
    j: u8,
    t: u64,
    q: usize,
    at: u64,
    piece: &[u8],
    parities: &[u8],
    row: &mut [u8],
)
    requires least { 3 ≤ n }
    requires most { n ≤ 8 }
    requires disk { j < n }
    requires small { t < 2 ^ 56 }
    requires range { at + length piece.now < 2 ^ 64 }
    requires parities { 512 * q + 512 ≤ length parities.now }
    requires room { 512 * q + 512 ≤ length row.old }
    ensures { Gathers n j t q at piece.now parities.now row.old row.new }
{
    if j == parity_on(n, t) {
        copy_into(row, 512 * q, parities, 512 * q, 512);
        return;
    }
    overlay(n, j, t, q, at, piece, row);
}

/// Puts the parities of the stripes of a window, and the bytes that a piece has of the chunks of disk j, into a row.
pub(crate) fn gather(
    n: u8,
    j: u8,
    window: Window,
    at: u64,
    piece: &[u8],
    parities: &[u8],
    row: &mut [u8],
)
    requires least { 3 ≤ n }
    requires most { n ≤ 8 }
    requires disk { j < n }
    requires small { window.first + window.count < 2 ^ 56 }
    requires range { at + length piece.now < 2 ^ 64 }
    requires parities { 512 * window.count ≤ length parities.now }
    requires room { 512 * window.count ≤ length row.old }
    ensures { GathersRow n j window.first at piece.now parities.now row.new window.count }
{
    for q in 0..window.count {
        gather_chunk(n, j, window.first + q as u64, q, at, piece, parities, row);
    }
}

// How many bytes of the chunk of disk j in stripe t stand before a place of the member.
fn skip(n: u8, j: u8, t: u64, at: u64) -> usize
    requires least { 3 ≤ n }
    requires most { n ≤ 8 }
    requires disk { j < n }
    requires small { t < 2 ^ 56 }
    ensures parity { j ≡ parity_of n t → result ≡ 0 }
    ensures most { result ≤ 512 }
    ensures before { (r : ℕ) → j ≢ parity_of n t → r < result → byte_in n t j r < at }
    ensures behind { (r : ℕ) → j ≢ parity_of n t → result ≤ r → r < 512 → at ≤ byte_in n t j r }
{
    if j == parity_on(n, t) {
        return 0;
    }
    let i = chunk_on(n, t, j);
    if at / 512 < i {
        return 0;
    }
    if i < at / 512 {
        return 512;
    }
    (at % 512) as usize
}

// How many bytes of the chunk of disk j in stripe t stand from a place of the member on.
fn cut(n: u8, j: u8, t: u64, end: u64) -> usize
    requires least { 3 ≤ n }
    requires most { n ≤ 8 }
    requires disk { j < n }
    requires small { t < 2 ^ 56 }
    ensures parity { j ≡ parity_of n t → result ≡ 0 }
    ensures most { result ≤ 512 }
    ensures before { (r : ℕ) → j ≢ parity_of n t → r + result < 512 → byte_in n t j r < end }
    ensures behind { (r : ℕ) → j ≢ parity_of n t → 512 ≤ r + result → r < 512 → end ≤ byte_in n t j r }
{
    if j == parity_on(n, t) {
        return 0;
    }
    let i = chunk_on(n, t, j);
    if end / 512 < i {
        return 512;
    }
    if i < end / 512 {
        return 0;
    }
    512 - (end % 512) as usize
}

/// The bytes of a row that are written.
#[derive(Clone, Copy, Debug, PartialEq, Eq)]
pub(crate) struct Span {
    pub low: usize,
    pub high: usize,
}

/// The bytes of a row of disk j that are written: its parities, and those of its chunks that a piece has.
pub(crate) fn span_of(n: u8, j: u8, window: Window, at: u64, size: usize) -> Span
    requires least { 3 ≤ n }
    requires most { n ≤ 8 }
    requires disk { j < n }
    requires some { 0 < size }
    requires range { at + size < 2 ^ 64 }
    requires window { IsWindow n at size window }
    ensures { IsSpan n j at size window result.low result.high }
{
    let last = window.first + (window.count as u64 - 1);
    Span {
        low: skip(n, j, window.first, at),
        high: 512 * window.count - cut(n, j, last, at + size as u64),
    }
}

/// Whether chunk i has some of so many bytes.
fn is_touched(i: u64, at: u64, size: usize) -> bool
    requires some { 0 < size }
    requires range { at + size < 2 ^ 64 }
    ensures no { result ≡ false → (r : ℕ) → r < 512 → (512 * i + r < at) ⊎ (at + size ≤ 512 * i + r) }
    ensures exact { result ≡ has_part at size i }
{
    if i < at / 512 {
        return false;
    }
    i <= (at + (size as u64 - 1)) / 512
}

/// Whether all bytes of chunk i are among so many.
fn is_covered(i: u64, at: u64, size: usize) -> bool
    requires some { 0 < size }
    requires range { at + size < 2 ^ 64 }
    ensures yes { result ≡ true → (at ≤ 512 * i) × (512 * i + 512 ≤ at + size) }
    ensures no { result ≡ false → (512 * i < at) ⊎ (at + size < 512 * i + 512) }
    ensures exact { result ≡ has_all at size i }
{
    if i < at / 512 {
        return false;
    }
    if i == at / 512 && at % 512 != 0 {
        return false;
    }
    i < (at + size as u64) / 512
}

/// Whether a disk is read for the new parity of stripe t. That is the old one, changed by the old and the new bytes of the chunks that are
/// written, or the exclusive or of all chunks.
pub(crate) fn is_needed(n: u8, j: u8, t: u64, by_change: bool, at: u64, size: usize) -> bool
    requires least { 3 ≤ n }
    requires most { n ≤ 8 }
    requires disk { j < n }
    requires small { t < 2 ^ 56 }
    requires some { 0 < size }
    requires range { at + size < 2 ^ 64 }
    ensures parity { j ≡ parity_of n t → result ≡ by_change }
    ensures untouched { by_change ≡ true → result ≡ false → j ≢ parity_of n t → (r : ℕ) → r < 512
        → (byte_in n t j r < at) ⊎ (at + size ≤ byte_in n t j r) }
    ensures covered { by_change ≡ false → result ≡ false → j ≢ parity_of n t → (at ≤ byte_in n t j 0) × (byte_in n t j 0 + 512 ≤ at + size) }
    ensures partly { by_change ≡ false → result ≡ true → (byte_in n t j 0 < at) ⊎ (at + size < byte_in n t j 0 + 512) }
    ensures exact { result ≡ is_read n at size t by_change j }
{
    if j == parity_on(n, t) {
        return by_change;
    }
    let i = chunk_on(n, t, j);
    if by_change {
        return is_touched(i, at, size);
    }
    !is_covered(i, at, size)
}

/// Changes the new parity of stripe t by the chunk of disk j as it was, where the parity is made by change, and by that with a piece over it. By the
/// old parity it is changed in the first case alone.
pub(crate) fn change_page(
    n: u8,
    j: u8,
    t: u64,
    by_change: bool,
    at: u64,
    piece: &[u8],
    chunk: &mut [u8],
    page: &mut [u8],
)
    requires least { 3 ≤ n }
    requires most { n ≤ 8 }
    requires disk { j < n }
    requires small { t < 2 ^ 56 }
    requires range { at + length piece.now < 2 ^ 64 }
    requires chunk { length chunk.old ≡ 512 }
    requires page { length page.old ≡ 512 }
    ensures { ChangesPage n j t by_change at piece.now chunk.old page.old page.new }
{
    if j == parity_on(n, t) {
        if !by_change {
            return;
        }
        xor_into(page, chunk);
        return;
    }
    if !by_change {
        overlay(n, j, t, 0, at, piece, chunk);
        xor_into(page, chunk);
        return;
    }
    xor_into(page, chunk); // as it was
    overlay(n, j, t, 0, at, piece, chunk);
    xor_into(page, chunk);
}
