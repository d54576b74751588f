// The bytes of a block.
ghost use Rattle.std.specs.Prelude.{◌≡◌, ◌≢◌, ◌-◌, ◌≤◌, ◌<◌, ◌++◌, length, replicate, slice_index, take};
ghost use Rattle.dg_model.specs.Blocks.{IsTrimmed, padded};

/// Fills a block with these bytes, and zeros for its missing end.
pub fn fill_block(block: &mut [u8], bytes: &[u8])
    requires { length bytes.now ≤ length block.old }
    ensures { block.new ≡ padded (length block.old) bytes.now }
{
    block.fill(0);
    block[..bytes.len()].copy_from_slice(bytes);
}

/// How many bytes are left of a block without the zeros at its end.
fn trimmed_len(block: &[u8]) -> usize
    ensures within { result ≤ length block.now }
    ensures zeros { block.now ≡ take result block.now ++ replicate (length block.now - result) 0 }
    ensures last { 0 < result → slice_index block.now (result - 1) ≢ 0 }
{
    let mut n = block.len();
    while n > 0 && block[n - 1] == 0 {
        n -= 1;
    }
    n
}

/// A block without the zeros at its end.
pub fn trimmed(block: &[u8]) -> &[u8]
    ensures { IsTrimmed result.now block.now }
{
    &block[..trimmed_len(block)]
}
