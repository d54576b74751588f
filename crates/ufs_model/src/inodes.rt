/// The bytes of an inode on a volume (`struct dinode`).
pub const INODE_BYTES: u32 = 128;

/// The first inode that is read, which is the root's (`ROOTINO`).
pub const ROOT_INODE: u32 = 2;

/// The fields of an allocated inode that are read. They have the names of `struct dinode` in
/// `dinode.h`, without the prefix `di_`.
#[derive(Clone, Copy, Debug, PartialEq, Eq)]
pub struct Inode {
    /// The type bits and the permission bits. It isn't 0.
    pub mode: u16,
    /// Bytes of the file.
    pub size: u64,
    /// The direct pointers, addresses in fragments: slots 0 to 11.
    pub db: [u32; 12],
    /// The single, double and triple indirect pointers: slots 12 to 14.
    pub ib: [u32; 3],
}

/// The kind of a file, by the type bits of its mode (`IFMT` in `dinode.h`).
#[derive(Clone, Copy, Debug, PartialEq, Eq)]
pub enum Kind {
    /// A regular file.
    Regular,
    /// A directory.
    Directory,
    /// A symbolic link.
    Link,
    /// A named pipe.
    Pipe,
    /// A character device.
    Character,
    /// A block device.
    Block,
    /// A socket.
    Socket,
    /// Type bits that mean none of the other kinds.
    Unknown,
}

/// The bits of a mode that tell the kind of file (`IFMT`).
const TYPE_BITS: u16 = 0o170000;

impl Inode {
    ghost use Rattle.std.specs.Prelude.{◌≡◌};
    ghost use Rattle.ufs_model.specs.Inodes.{kind_of};

    /// The kind of the file.
    #[tactic(auto, unfolding(crate::specs::Inodes::kind_of))]
    pub fn kind(&self) -> Kind
        ensures { result ≡ kind_of self.now.mode }
    {
        match self.mode & TYPE_BITS {
            0o100000 => Kind::Regular,
            0o040000 => Kind::Directory,
            0o120000 => Kind::Link,
            0o010000 => Kind::Pipe,
            0o020000 => Kind::Character,
            0o060000 => Kind::Block,
            0o140000 => Kind::Socket,
            _ => Kind::Unknown,
        }
    }
}
