ghost use Rattle.std.specs.Prelude.{◌≡◌, ◌+◌, ◌≤◌, length};
ghost use Rattle.ufs_model.specs.Numbers.{number_at};

use byteorder::{BigEndian, ByteOrder, LittleEndian};

/// The order in which the bytes of a number stand.
#[derive(Clone, Copy, Debug, PartialEq, Eq)]
pub enum Endian {
    /// The lowest byte first.
    Little,
    /// The highest byte first.
    Big,
}

/// The number of 16 bits at byte `at`.
#[tactic(auto, unfolding(crate::specs::Numbers::number_at))]
pub fn u16_at(bytes: &[u8], at: usize, endian: Endian) -> u16
    requires { at + 2 ≤ length bytes.now }
    ensures { result ≡ number_at endian 2 bytes.now at }
{
    match endian {
        Endian::Little => LittleEndian::read_u16(&bytes[at..]),
        Endian::Big => BigEndian::read_u16(&bytes[at..]),
    }
}

/// The number of 32 bits at byte `at`.
#[tactic(auto, unfolding(crate::specs::Numbers::number_at))]
pub fn u32_at(bytes: &[u8], at: usize, endian: Endian) -> u32
    requires { at + 4 ≤ length bytes.now }
    ensures { result ≡ number_at endian 4 bytes.now at }
{
    match endian {
        Endian::Little => LittleEndian::read_u32(&bytes[at..]),
        Endian::Big => BigEndian::read_u32(&bytes[at..]),
    }
}

/// The number of 64 bits at byte `at`.
#[tactic(auto, unfolding(crate::specs::Numbers::number_at))]
pub fn u64_at(bytes: &[u8], at: usize, endian: Endian) -> u64
    requires { at + 8 ≤ length bytes.now }
    ensures { result ≡ number_at endian 8 bytes.now at }
{
    match endian {
        Endian::Little => LittleEndian::read_u64(&bytes[at..]),
        Endian::Big => BigEndian::read_u64(&bytes[at..]),
    }
}
