ghost use Rattle.std.specs.Prelude.{◌≡◌, ◌+◌, ◌*◌, ◌/◌, ◌<◌, ◌≤◌, ℕ};
ghost use Rattle.ufs_model.specs.Geometries.{IsGeometry};
ghost use Rattle.ufs_model.specs.Inodes.{inode_block, inode_byte};
ghost use Rattle.ufs_model.specs.Roles.{role};
ghost use Rattle.ufs_model.specs.declared.geometries.Geometry.{Geometry};
ghost use Rattle.ufs_model.specs.declared.roles.Role.TheVariants.{System};
ghost use Rattle.ufs_model.specs.declared.roles.SystemKind.TheVariants.{Inodes};

use ufs_model::{Geometry, INODE_BYTES, own_blocks_of_groups};
use ufs_super::{cgstart, group_of};

/// The block with an inode, and the inode's first byte there (`ino_to_fsba`, `ino_to_fsbo`).
#[tactic(auto, unfolding(ufs_model::specs::Inodes::inode_block, ufs_model::specs::Inodes::inode_byte))]
pub fn place_of(g: &Geometry, inode: u32) -> (u32, u32)
    requires geometry { IsGeometry g.now }
    requires number { inode < g.now.ncg * g.now.ipg }
    ensures block { result.0 ≡ inode_block g.now inode }
    ensures byte { result.1 ≡ inode_byte g.now inode }
    ensures inside { result.0 < g.now.size }
    ensures whole { result.1 + 128 ≤ g.now.fsize }
    ensures role { role g.now result.0 ≡ System Inodes }
{
    own_blocks_of_groups();
    let in_group = inode % g.ipg;
    let area = cgstart(g, inode / g.ipg) + g.iblkno + g.frag * (in_group / g.inopb);
    let offset = INODE_BYTES * (in_group % g.inopb);
    (area + offset / g.fsize, offset % g.fsize)
}

/// The inodes that stand in a block: from one number to before another, none where these are the
/// same.
pub fn inodes_near(g: &Geometry, block: u32) -> (u32, u32)
    requires { IsGeometry g.now }
    ensures all { (inode : ℕ) → inode < g.now.ncg * g.now.ipg → inode_block g.now inode ≡ block → (result.0 ≤ inode) × (inode < result.1) }
    ensures each { (inode : ℕ) → result.0 ≤ inode → inode < result.1 → inode_block g.now inode ≡ block }
    ensures few { result.1 ≤ result.0 + g.now.fsize / 128 }
    ensures inside { result.1 ≤ g.now.ncg * g.now.ipg }
{
    if g.size <= block {
        return (0, 0);
    }
    let c = group_of(g, block);
    let start = cgstart(g, c);
    if block < start + g.iblkno {
        return (0, 0);
    }
    let after = block - (start + g.iblkno);
    let each = g.fsize / INODE_BYTES;
    let before = u64::from(after) * u64::from(each);
    if u64::from(g.ipg) <= before {
        return (0, 0);
    }
    let first = c * g.ipg + before as u32;
    (first, first + each)
}

/// Each inode stands inside the volume.
pub fn inodes_inside()
    ensures { (g : Geometry) (inode : ℕ) → IsGeometry g → inode < g.ncg * g.ipg → inode_block g inode < g.size }
{}
