use ufs_model::Endian;

/// The byte at which each field of a superblock stands, from `sblkno` to `magic`.
const FIELDS: [usize; 21] = [
    8, 12, 16, 20, 24, 28, 36, 44, 48, 52, 56, 116, 120, 152, 156, 160, 184, 188, 1320, 1324, 1372,
];

/// One group of 128 fragments of 1024 bytes, four a file block, and 32 inodes.
pub const SMALL: [u32; 21] = [
    16,
    24,
    28,
    32,
    0,
    0xffff_ffff,
    128,
    1,
    4096,
    1024,
    4,
    1024,
    32,
    32,
    16,
    4096,
    32,
    128,
    60,
    2,
    0x0001_1954,
];

/// Four groups of 2048 fragments of 1024 bytes, eight a file block, and 256 inodes each, that start
/// 32 fragments later each.
pub const LARGE: [u32; 21] = [
    16,
    24,
    32,
    64,
    32,
    0xffff_fffc,
    8192,
    4,
    8192,
    1024,
    8,
    2048,
    64,
    64,
    64,
    8192,
    256,
    2048,
    60,
    2,
    0x0001_1954,
];

/// A number in the order of bytes.
pub fn put_in(bytes: &mut [u8; 1376], at: usize, value: u32, endian: Endian) {
    if at <= 1372 {
        let digits = match endian {
            Endian::Little => value.to_le_bytes(),
            Endian::Big => value.to_be_bytes(),
        };
        bytes[at..at + 4].copy_from_slice(&digits);
    }
}

/// A superblock with these fields in the order of bytes.
pub fn superblock_in(values: &[u32; 21], endian: Endian) -> [u8; 1376] {
    let mut bytes = [0; 1376];
    for (at, value) in FIELDS.iter().zip(values) {
        put_in(&mut bytes, *at, *value, endian);
    }
    bytes
}

pub fn superblock(values: &[u32; 21]) -> [u8; 1376] {
    superblock_in(values, Endian::Little)
}
