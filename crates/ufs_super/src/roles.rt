ghost use Rattle.std.specs.Prelude.{◌≡◌, ◌+◌, ◌≤◌, ◌<◌};
ghost use Rattle.ufs_model.specs.Geometries.{IsGeometry, cgstart};
ghost use Rattle.ufs_model.specs.Roles.{has_super, is_within, role, role_in};

use crate::checks::SUPERBLOCK_END;
use crate::places::{cgstart, group_of};
use ufs_model::{Geometry, Role, SystemKind};

/// The first byte of the superblock on the volume (`SBOFF`).
const SUPERBLOCK_START: u64 = 8192;

/// The number is from one to before another.
fn is_within(low: u32, high: u32, number: u32) -> bool
    ensures { result ≡ is_within low high number }
{
    low <= number && number < high
}

/// A block of `l` bytes has a byte of the superblock.
fn has_super(l: u32, block: u32) -> bool
    ensures { result ≡ has_super l block }
{
    let (l, block) = (u64::from(l), u64::from(block));
    block * l < SUPERBLOCK_END && SUPERBLOCK_START < (block + 1) * l
}

/// The role of a block of group `c`, whose own blocks are counted from `start`.
#[tactic(auto, unfolding(ufs_model::specs::Roles::role_in))]
fn role_in(g: &Geometry, c: u32, start: u32, block: u32) -> Role
    requires geometry { IsGeometry g.now }
    requires own_blocks { start + g.now.dblkno ≤ g.now.size }
    ensures { result ≡ role_in g.now c start block }
{
    let summary_end = g.csaddr + g.cssize.div_ceil(g.fsize);
    if is_within(start + g.sblkno, start + g.cblkno, block) {
        Role::System(SystemKind::Copy)
    } else if is_within(start + g.cblkno, start + g.iblkno, block) {
        Role::System(SystemKind::Group)
    } else if is_within(start + g.iblkno, start + g.dblkno, block) {
        Role::System(SystemKind::Inodes)
    } else if is_within(g.csaddr, summary_end, block) {
        Role::System(SystemKind::Summary)
    } else {
        Role::Data(c)
    }
}

/// What a block of the array is for.
#[tactic(auto, unfolding(ufs_model::specs::Roles::role))]
pub fn role(g: &Geometry, block: u32) -> Role
    requires { IsGeometry g.now }
    ensures { result ≡ role g.now block }
{
    if g.size <= block {
        return Role::Outside;
    }
    if has_super(g.fsize, block) {
        return Role::System(SystemKind::Super);
    }
    if block < cgstart(g, 0) + g.sblkno {
        return Role::System(SystemKind::Boot);
    }
    let c = group_of(g, block);
    role_in(g, c, cgstart(g, c), block)
}
