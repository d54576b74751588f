// Which bytes of a member stand in which chunks, and in which passes.
ghost use Rattle.std.specs.Prelude.{◌≡◌, ◌≢◌, ◌⊎◌, ◌+◌, ◌-◌, ◌/◌, ◌*◌, ◌<◌, ◌≤◌, ◌^◌, ℕ, true, length};
ghost use Rattle.std.specs.Bool.{OnTrue, OnFalse};
ghost use Rattle.dg_parity.specs.Stripes.{parity_of, spot_of};
ghost use Rattle.dg_parity.specs.Stripes.{stripe_of as stripe_by};
ghost use Rattle.dg_parity.specs.Runs.{among as among_by, begins, chunk_on as chunk_by, IsWindow, Scatters, ScattersRow};

use crate::overlaps::copy_common;

/// How many stripes a pass takes at most.
pub(crate) const STRIPES: usize = 16;

/// Bytes of a disk that a pass takes at most.
pub(crate) const ROW: usize = 512 * STRIPES;

// The last chunk of a member of any length.
pub(crate) const LAST: u64 = 0x7f_ffff_ffff_ffff;

/// The stripe of a byte of a member.
pub(crate) fn stripe_of(n: u8, at: u64) -> u64
    requires least { 3 ≤ n }
    ensures { result ≡ stripe_by n (at / 512) }
{
    at / 512 / (u64::from(n) - 1)
}

/// The disk with the parity of a stripe.
pub(crate) fn parity_on(n: u8, t: u64) -> u8
    requires least { 3 ≤ n }
    ensures { result ≡ parity_of n t }
{
    (t % u64::from(n)) as u8
}

// The number of disk j among those other than p.
fn among(p: u8, j: u8) -> u8
    requires { j ≢ p }
    ensures { result ≡ among_by p j }
{
    if j < p { j } else { j - 1 }
}

/// The chunk of disk j in stripe t, whose parity isn't there.
pub(crate) fn chunk_on(n: u8, t: u64, j: u8) -> u64
    requires least { 3 ≤ n }
    requires most { n ≤ 8 }
    requires disk { j < n }
    requires small { t < 2 ^ 56 }
    requires other { j ≢ parity_of n t }
    ensures { result ≡ chunk_by n t j }
{
    let p = parity_on(n, t);
    t * (u64::from(n) - 1) + u64::from(among(p, j))
}

/// How many bytes from a place on stand in 16 stripes from its own on, and are asked for.
pub(crate) fn in_window(n: u8, at: u64, left: usize) -> usize
    requires least { 3 ≤ n }
    requires most { n ≤ 8 }
    ensures some { 0 < left → 0 < result }
    ensures most { result ≤ left }
    ensures window { (k : ℕ) → k < result → stripe_by n ((at + k) / 512) < stripe_by n (at / 512) + 16 }
    ensures whole { (result ≡ left) ⊎ (stripe_by n ((at + result) / 512) ≡ stripe_by n (at / 512) + 16) }
    ensures begins { (result ≡ left) ⊎ (begins n (at + result) ≡ true) }
{
    let data = u64::from(n) - 1;
    let before = at / 512 % data * 512 + at % 512;
    let room = (16 * 512 * data - before) as usize;
    if left <= room {
        return left;
    }
    room
}

/// The stripes in which some bytes of a member stand.
#[derive(Clone, Copy, Debug, PartialEq, Eq)]
pub(crate) struct Window {
    /// The first of them.
    pub first: u64,
    pub count: usize,
}

/// The stripes in which bytes of a member stand that are read or written in one pass.
pub(crate) fn window_of(n: u8, at: u64, size: usize) -> Window
    requires least { 3 ≤ n }
    requires most { n ≤ 8 }
    requires some { 0 < size }
    requires range { at + size < 2 ^ 64 }
    requires window { stripe_by n ((at + (size - 1)) / 512) < stripe_by n (at / 512) + 16 }
    ensures { IsWindow n at size result }
{
    let first = stripe_of(n, at);
    let last = stripe_of(n, at + (size as u64 - 1));
    Window {
        first,
        count: (last - first + 1) as usize,
    }
}

/// Puts the bytes of a chunk where they are asked for.
pub(crate) fn scatter_chunk(n: u8, j: u8, t: u64, chunk: &[u8], at: u64, buf: &mut [u8])
    requires least { 3 ≤ n }
    requires most { n ≤ 8 }
    requires disk { j < n }
    requires small { t < 2 ^ 56 }
    requires size { length chunk.now ≡ 512 }
    requires range { at + length buf.old < 2 ^ 64 }
    ensures { Scatters n j t at chunk.now buf.old buf.new }
{
    if j == parity_on(n, t) {
        return;
    }
    let i = chunk_on(n, t, j);
    if i > LAST {
        return;
    }
    copy_common(buf, at, chunk, 512 * i);
}

/// Puts the bytes of a disk in some stripes where they are asked for.
pub(crate) fn scatter(n: u8, j: u8, first: u64, row: &[u8], at: u64, buf: &mut [u8])
    requires least { 3 ≤ n }
    requires most { n ≤ 8 }
    requires disk { j < n }
    requires small { first + length row.now < 2 ^ 56 }
    requires range { at + length buf.old < 2 ^ 64 }
    ensures { ScattersRow n j first at row.now buf.old buf.new }
{
    for q in 0..row.len() / 512 {
        scatter_chunk(
            n,
            j,
            first + q as u64,
            &row[512 * q..512 * q + 512],
            at,
            buf,
        );
    }
}

// Whether disk j has some of so many bytes in stripe t.
fn has_bytes(n: u8, j: u8, t: u64, at: u64, size: usize) -> bool
    requires least { 3 ≤ n }
    requires most { n ≤ 8 }
    requires disk { j < n }
    requires some { 0 < size }
    requires small { t < 2 ^ 56 }
    requires range { at + size < 2 ^ 64 }
    ensures yes { OnTrue result ((k : ℕ) × (k < size) × ((spot_of n (at + k)).disk ≡ j)) }
    ensures no { OnFalse result ((k : ℕ) → k < size → stripe_by n ((at + k) / 512) ≡ t → (spot_of n (at + k)).disk ≢ j) }
{
    if j == parity_on(n, t) {
        return false;
    }
    let i = chunk_on(n, t, j);
    if i < at / 512 {
        return false;
    }
    if (at + (size as u64 - 1)) / 512 < i {
        return false;
    }
    true
}

/// Whether disk j has some of the bytes of a window.
pub(crate) fn is_wanted(n: u8, j: u8, window: Window, at: u64, size: usize) -> bool
    requires least { 3 ≤ n }
    requires most { n ≤ 8 }
    requires disk { j < n }
    requires some { 0 < size }
    requires range { at + size < 2 ^ 64 }
    requires window { IsWindow n at size window }
    ensures yes { OnTrue result ((k : ℕ) × (k < size) × ((spot_of n (at + k)).disk ≡ j)) }
    ensures no { OnFalse result ((k : ℕ) → k < size → (spot_of n (at + k)).disk ≢ j) }
{
    for q in 0..window.count {
        if has_bytes(n, j, window.first + q as u64, at, size) {
            return true;
        }
    }
    false
}
