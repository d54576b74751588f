ghost use Rattle.std.specs.Prelude.{◌≡◌, ◌+◌, ◌-◌, ◌<◌, ◌≤◌, IfOk, length};
ghost use Rattle.std.specs.Bool.{OnTrue};
ghost use Rattle.std.specs.Int.{div_ceil};
ghost use Rattle.ufs_group.specs.Maps.{IsGroupOf};
ghost use Rattle.ufs_model.specs.Geometries.{IsGeometry, cgbase, cgstart, end_of};
ghost use Rattle.ufs_model.specs.GroupMaps.{group_fields, group_in, group_magic_holds, maps_hold};

use ufs_model::{BadGroup, Endian, Geometry, Group, u32_at};
use ufs_super::{cgbase, cgstart, end_of};

/// The magic number of a group block (`CG_MAGIC`).
const MAGIC: u32 = 0x0009_0255;

/// The first fragment of group `c`'s group block, which is a file block (`cgtod`).
pub fn group_block(g: &Geometry, c: u32) -> u32
    requires geometry { IsGeometry g.now }
    requires group { c < g.now.ncg }
    ensures value { result ≡ cgstart g.now c + g.now.cblkno }
    ensures inside { result + g.now.frag ≤ g.now.size }
{
    cgstart(g, c) + g.cblkno
}

/// The fields that are read of group `c`'s block, as they stand.
#[tactic(auto, unfolding(ufs_model::specs::GroupMaps::group_fields))]
fn group_fields(bytes: &[u8], c: u32, endian: Endian) -> Group
    requires { 100 ≤ length bytes.now }
    ensures value { result ≡ group_fields endian c bytes.now }
    ensures number { result.c ≡ c }
{
    Group {
        c,
        iusedoff: u32_at(bytes, 92, endian),
        freeoff: u32_at(bytes, 96, endian),
        count: u32_at(bytes, 20, endian),
    }
}

/// The bytes are a group block, and that of group `c`.
#[tactic(auto, unfolding(ufs_model::specs::GroupMaps::group_magic_holds))]
fn group_magic_holds(bytes: &[u8], c: u32, endian: Endian) -> bool
    requires { 100 ≤ length bytes.now }
    ensures { result ≡ group_magic_holds endian c bytes.now }
{
    u32_at(bytes, 4, endian) == MAGIC && u32_at(bytes, 12, endian) == c
}

/// The group's fragments are counted right, and both maps end inside the bytes in use.
#[tactic(auto, unfolding(ufs_model::specs::GroupMaps::maps_hold))]
fn maps_hold(g: &Geometry, group: &Group) -> bool
    requires geometry { IsGeometry g.now }
    requires group { group.now.c < g.now.ncg }
    ensures value { result ≡ maps_hold g.now group.now }
    ensures count { OnTrue result (group.now.count ≡ end_of g.now group.now.c - cgbase g.now group.now.c) }
    ensures inodes { OnTrue result (group.now.iusedoff + div_ceil g.now.ipg 8 ≤ g.now.cgsize) }
    ensures fragments { OnTrue result (group.now.freeoff + div_ceil group.now.count 8 ≤ g.now.cgsize) }
{
    let inodes_end = u64::from(group.iusedoff) + u64::from(g.ipg.div_ceil(8));
    let fragments_end = u64::from(group.freeoff) + u64::from(group.count.div_ceil(8));
    let used = u64::from(g.cgsize);
    group.count == end_of(g, group.c) - cgbase(g, group.c)
        && inodes_end <= used
        && fragments_end <= used
}

/// Where the maps of group `c` stand in the bytes of its group block, or the first test that fails.
#[tactic(auto, unfolding(ufs_model::specs::GroupMaps::group_in))]
pub fn read_group(bytes: &[u8], g: &Geometry, c: u32) -> Result<Group, BadGroup>
    requires bytes { g.now.bsize ≤ length bytes.now }
    requires geometry { IsGeometry g.now }
    requires group { c < g.now.ncg }
    ensures value { result ≡ group_in g.now c bytes.now }
    ensures ok { IfOk result (λ group. IsGroupOf g.now c bytes.now group) }
{
    let group = group_fields(bytes, c, g.endian);
    if !group_magic_holds(bytes, c, g.endian) {
        return Err(BadGroup::Magic);
    }
    if !maps_hold(g, &group) {
        return Err(BadGroup::Map);
    }
    Ok(group)
}
