// The exclusive or of rows of bytes.
ghost use Rattle.std.specs.Prelude.{◌≡◌, length};
ghost use Rattle.dg_parity.specs.Exclusive.{IsXored};

/// Changes each byte of a row by that of another.
pub fn xor_into(row: &mut [u8], by: &[u8])
    requires { length row.old ≡ length by.now }
    ensures { IsXored row.old by.now row.new }
{
    for i in 0..row.len() {
        row[i] ^= by[i];
    }
}
