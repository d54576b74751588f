// Laws on the calls of a write.
ghost use Rattle.std.specs.Prelude.{◌≡◌, ◌+◌, ◌-◌, ◌/◌, ◌<◌, ◌≤◌, min, ℕ, Bool, false};
ghost use Rattle.dg_parity.specs.Runs.{IsWhole};
ghost use Rattle.dg_parity.specs.Stripes.{stripe_of};
ghost use Rattle.dg_parity.specs.Updates.{least_reads, parts_in, reads_for, wholes_in, writes_in};

/// Where no disk is out, read-modify-write reads the parity and the chunks of which a part is written, and reconstruct-write the chunks that aren't
/// written whole. Both write the parity and the chunks of which a part is written.
pub fn calls_by_chunks()
    ensures reads { (n at size t : ℕ) (out : ℕ → Bool) → 3 ≤ n → ((j : ℕ) → j < n → out j ≡ false)
        → least_reads n out at size t ≡ min (parts_in n at size t + 1) (n - 1 - wholes_in n at size t) }
    ensures writes { (n at size t : ℕ) (out : ℕ → Bool) → 3 ≤ n → ((j : ℕ) → j < n → out j ≡ false)
        → writes_in n out at size t ≡ parts_in n at size t + 1 }
{}

/// Of a stripe that is written whole nothing is read. So a write reads for the stripes of its first and its last byte alone.
pub fn reads_at_ends()
    ensures whole { (n at size t : ℕ) (out : ℕ → Bool) → 3 ≤ n → IsWhole n t at size → least_reads n out at size t ≡ 0 }
    ensures ends { (n place count : ℕ) (out : ℕ → Bool) → 3 ≤ n → 0 < count → reads_for n out place count
        ≤ least_reads n out place count (stripe_of n (place / 512)) + least_reads n out place count (stripe_of n ((place + (count - 1)) / 512)) }
{}
