// A file of a volume.
ghost use Rattle.std.specs.Prelude.{◌<◌, ◌^◌, length};

/// A file of a volume.
#[derive(Clone, Copy, Debug)]
pub struct Node<'a> {
    /// The type bits and the permission bits.
    pub mode: u16,
    pub bytes: &'a [u8],
    /// Whether whole file blocks of zeros are holes.
    pub sparse: bool,
    /// Whether the bytes stand in the inode.
    pub inside: bool,
    ghost short: { length bytes.now < 2 ^ 62 },
}
