// What two runs of bytes have in common.
ghost use Rattle.std.specs.Prelude.{◌≡◌, ◌+◌, ◌-◌, ◌<◌, ◌≤◌, ◌^◌, ℕ, length, slice_index};

/// Copies so many bytes from one place to another.
pub(crate) fn copy_into(to: &mut [u8], low: usize, from: &[u8], skip: usize, count: usize)
    requires to { low + count ≤ length to.old }
    requires from { skip + count ≤ length from.now }
    ensures inside { (k : ℕ) → low ≤ k → k < low + count → slice_index to.new k ≡ slice_index from.now (skip + (k - low)) }
    ensures before { (k : ℕ) → k < low → slice_index to.new k ≡ slice_index to.old k }
    ensures behind { (k : ℕ) → low + count ≤ k → slice_index to.new k ≡ slice_index to.old k }
{
    for i in low..low + count {
        to[i] = from[skip + (i - low)];
    }
}

/// Copies the bytes that two runs have in common. The places are those of their first bytes.
pub(crate) fn copy_common(to: &mut [u8], to_at: u64, from: &[u8], from_at: u64)
    requires { to_at + length to.old < 2 ^ 64 }
    ensures inside { (k : ℕ) → k < length to.old → from_at ≤ to_at + k → to_at + k < from_at + length from.now
        → slice_index to.new k ≡ slice_index from.now (to_at + k - from_at) }
    ensures before { (k : ℕ) → k < length to.old → to_at + k < from_at → slice_index to.new k ≡ slice_index to.old k }
    ensures behind { (k : ℕ) → k < length to.old → from_at + length from.now ≤ to_at + k → slice_index to.new k ≡ slice_index to.old k }
{
    let start = to_at.max(from_at);
    let to_end = to_at + to.len() as u64;
    let end = to_end.min(from_at.saturating_add(from.len() as u64));
    if start >= end {
        return;
    }
    let low = (start - to_at) as usize;
    let skip = (start - from_at) as usize;
    copy_into(to, low, from, skip, (end - start) as usize);
}
