ghost use Rattle.std.specs.Prelude.{◌≡◌, ◌≤◌};
ghost use Rattle.ufs_model.specs.Geometries.{IsGeometry};
ghost use Rattle.ufs_model.specs.Inodes.{slot_of, span};
ghost use Rattle.ufs_model.specs.Pointers.{slot_address};

use ufs_model::{Address, Geometry, Inode};
use ufs_super::address;

/// Direct slots of an inode (`NDADDR`).
const DIRECT: u8 = 12;

/// The pointer in a slot.
pub fn slot_of(inode: &Inode, slot: u8) -> u32
    requires { slot ≤ 14 }
    ensures { result ≡ slot_of inode.now slot }
{
    if slot < DIRECT {
        inode.db[slot as usize]
    } else {
        inode.ib[(slot - DIRECT) as usize]
    }
}

/// The fragments that a slot claims where it isn't 0. All claim a whole file block, but the direct
/// one of the last block of a file, which claims as many as that block's bytes take (`dblksize`).
#[tactic(auto, unfolding(ufs_model::specs::Inodes::span))]
pub fn span(g: &Geometry, inode: &Inode, slot: u8) -> u32
    requires geometry { IsGeometry g.now }
    requires slot { slot ≤ 14 }
    ensures value { result ≡ span g.now inode.now slot }
    ensures some { 1 ≤ result }
    ensures whole { result ≤ g.now.frag }
{
    let block = u64::from(g.bsize);
    let start = u64::from(slot) * block;
    if DIRECT <= slot || start + block <= inode.size || inode.size <= start {
        return g.frag;
    }
    let last = (inode.size % block) as u32;
    last.div_ceil(g.fsize)
}

/// What a slot leads to.
pub fn slot_address(g: &Geometry, inode: &Inode, slot: u8) -> Address
    requires geometry { IsGeometry g.now }
    requires slot { slot ≤ 14 }
    ensures { result ≡ slot_address g.now inode.now slot }
{
    address(g, slot_of(inode, slot), span(g, inode, slot))
}
