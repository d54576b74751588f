// An entry of a directory.
ghost use Rattle.std.specs.Prelude.{◌≤◌, length};

/// An entry of a directory.
#[derive(Clone, Copy)]
pub struct Entry<'a> {
    pub inode: u32,
    /// The type of the file that it names.
    pub kind: u8,
    pub name: &'a [u8],
    ghost short: { length name.now ≤ 255 },
}
