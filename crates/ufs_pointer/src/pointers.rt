ghost use Rattle.std.specs.Prelude.{◌≡◌, ◌+◌, ◌*◌, ◌≤◌, length};
ghost use Rattle.ufs_model.specs.Pointers.{pointer_in};

use ufs_model::{Endian, u32_at};

/// Pointer number `at`, counted from 0, in the bytes of an indirect block, whose numbers stand in
/// this order of bytes.
pub fn pointer(bytes: &[u8], at: u32, endian: Endian) -> u32
    requires { 4 * at + 4 ≤ length bytes.now }
    ensures { result ≡ pointer_in endian bytes.now at }
{
    u32_at(bytes, 4 * at as usize, endian)
}
