use crate::numbers::Endian;

/// The numbers of a superblock that tell where everything else on its volume stands. They have the
/// names of `struct fs` in `fs.h`, without the prefix `fs_`.
#[derive(Clone, Copy, Debug, PartialEq, Eq)]
pub struct Geometry {
    /// Fragments from the start of a group to its copy of the superblock.
    pub sblkno: u32,
    /// Fragments from the start of a group to its group block.
    pub cblkno: u32,
    /// Fragments from the start of a group to its inodes.
    pub iblkno: u32,
    /// Fragments from the start of a group to its first data after the inodes.
    pub dblkno: u32,
    /// Fragments by which the starts of neighbouring groups are shifted.
    pub cgoffset: u32,
    /// The bits of a group's number that don't count for the shift.
    pub cgmask: u32,
    /// Fragments of the volume.
    pub size: u32,
    /// Cylinder groups of the volume.
    pub ncg: u32,
    /// Bytes of a file block.
    pub bsize: u32,
    /// Bytes of a fragment.
    pub fsize: u32,
    /// Fragments of a file block.
    pub frag: u32,
    /// Pointers of an indirect block.
    pub nindir: u32,
    /// Inodes of a file block.
    pub inopb: u32,
    /// The first fragment of the summary area.
    pub csaddr: u32,
    /// Bytes of the summary area.
    pub cssize: u32,
    /// Bytes of a group block that are in use.
    pub cgsize: u32,
    /// Inodes of a group.
    pub ipg: u32,
    /// Fragments of a group.
    pub fpg: u32,
    /// Symbolic links of fewer bytes than this stand in their inode.
    pub maxsymlinklen: u32,
    /// The order of the bytes of every number of the volume.
    pub endian: Endian,
}

/// The first test of a superblock that fails, in the order of the tests.
#[derive(Clone, Copy, Debug, PartialEq, Eq)]
pub enum BadSuper {
    /// The magic number.
    Magic,
    /// The inode format, and the longest link inside an inode.
    Format,
    /// The bytes of a file block.
    Bsize,
    /// The bytes of a fragment.
    Fsize,
    /// The fragments of a file block.
    Frag,
    /// The pointers of an indirect block.
    Nindir,
    /// The inodes of a file block.
    Inopb,
    /// The fragments of the volume.
    Size,
    /// The number and the size of the groups.
    Groups,
    /// The inodes of a group.
    Inodes,
    /// The places inside each group.
    Layout,
    /// The summary area.
    Summary,
}
