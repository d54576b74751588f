ghost use Rattle.std.specs.Prelude.{◌≡◌, ◌+◌, ◌≤◌, drop, length, take};
ghost use Rattle.ufs_model.specs.Inodes.{has_pointers, inode_in};
ghost use Rattle.ufs_model.specs.Numbers.{number_at};

use ufs_model::{Endian, Geometry, INODE_BYTES, Inode, Kind, u16_at, u32_at, u64_at};

/// A pointer of 32 bits at a byte of the inode.
fn pointer_at(bytes: &[u8], at: usize, endian: Endian) -> u32
    requires { at + 4 ≤ length bytes.now }
    ensures { result ≡ number_at endian 4 bytes.now at }
{
    u32_at(bytes, at, endian)
}

/// The inode in the first 128 bytes, whose numbers stand in this order of bytes. There is none where its mode is 0: it is unallocated.
#[tactic(auto, unfolding(ufs_model::specs::Inodes::inode_in))]
pub fn read_inode(bytes: &[u8], endian: Endian) -> Option<Inode>
    requires { 128 ≤ length bytes.now }
    ensures { result ≡ inode_in endian bytes.now }
{
    let mode = u16_at(bytes, 0, endian);
    if mode == 0 {
        return None;
    }
    let size = u64_at(bytes, 8, endian);
    let db = [
        pointer_at(bytes, 40, endian),
        pointer_at(bytes, 44, endian),
        pointer_at(bytes, 48, endian),
        pointer_at(bytes, 52, endian),
        pointer_at(bytes, 56, endian),
        pointer_at(bytes, 60, endian),
        pointer_at(bytes, 64, endian),
        pointer_at(bytes, 68, endian),
        pointer_at(bytes, 72, endian),
        pointer_at(bytes, 76, endian),
        pointer_at(bytes, 80, endian),
        pointer_at(bytes, 84, endian),
    ];
    let ib = [
        pointer_at(bytes, 88, endian),
        pointer_at(bytes, 92, endian),
        pointer_at(bytes, 96, endian),
    ];
    Some(Inode { mode, size, db, ib })
}

/// The inode that begins at a byte of its block, whose numbers stand in this order of bytes.
pub fn inode_at(block: &[u8], byte: u32, endian: Endian) -> Option<Inode>
    requires { byte + 128 ≤ length block.now }
    ensures { result ≡ inode_in endian (take 128 (drop byte block.now)) }
{
    let start = byte as usize;
    read_inode(&block[start..start + INODE_BYTES as usize], endian)
}

/// Whether the slots of the inode are pointers: those of a regular file, of a directory, and of a
/// symbolic link that is too long to stand in its inode.
pub fn has_pointers(g: &Geometry, inode: &Inode) -> bool
    ensures { result ≡ has_pointers g.now inode.now }
{
    match inode.kind() {
        Kind::Regular | Kind::Directory => true,
        Kind::Link => u64::from(g.maxsymlinklen) <= inode.size,
        Kind::Pipe | Kind::Character | Kind::Block | Kind::Socket | Kind::Unknown => false,
    }
}
