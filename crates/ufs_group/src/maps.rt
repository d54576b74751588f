ghost use Rattle.std.specs.Prelude.{◌≡◌};
ghost use Rattle.ufs_group.specs.Maps.{IsInMap};
ghost use Rattle.ufs_model.specs.GroupMaps.{is_free, is_set, is_used};

use ufs_model::Group;

/// Bit `i` of the map that begins at byte `start` (`isset` in `param.h`).
#[tactic(auto, unfolding(ufs_model::specs::GroupMaps::is_set))]
fn is_set(bytes: &[u8], start: u32, i: u32) -> bool
    requires { IsInMap bytes.now start i }
    ensures { result ≡ is_set bytes.now start i }
{
    bytes[start as usize + (i / 8) as usize] & (1 << (i % 8)) != 0
}

/// A fragment of the group, counted from its first one, is free (`cg_blksfree`). The bytes are those
/// of the group block.
pub fn is_free(bytes: &[u8], group: &Group, fragment: u32) -> bool
    requires { IsInMap bytes.now group.now.freeoff fragment }
    ensures { result ≡ is_free bytes.now group.now fragment }
{
    is_set(bytes, group.freeoff, fragment)
}

/// An inode of the group, counted from its first one, is used (`cg_inosused`). The bytes are those
/// of the group block.
pub fn is_used(bytes: &[u8], group: &Group, inode: u32) -> bool
    requires { IsInMap bytes.now group.now.iusedoff inode }
    ensures { result ≡ is_used bytes.now group.now inode }
{
    is_set(bytes, group.iusedoff, inode)
}
