// Which pointers of a fragment of an indirect block reach no block of their file.
ghost use Rattle.std.specs.Prelude.{◌≡◌, ◌+◌, ◌*◌, ◌/◌, ◌^◌, ◌<◌, ◌≤◌, ℕ, Some, IfNone, IfSome};
ghost use Rattle.std.specs.Bool.{Decides};
ghost use Rattle.dg_io.specs.ViewWords.{Keeps};
ghost use Rattle.ufs_model.specs.Blocks.{Volume};
ghost use Rattle.ufs_model.specs.Geometries.{IsGeometry, IsGeometryOn};
ghost use Rattle.ufs_model.specs.Malformations.{inode_at};
ghost use Rattle.ufs_model.specs.Metadata.{IsMetadataBy};
ghost use Rattle.dg_claims.specs.Kept.{table_of};
ghost use Rattle.ufs_check.specs.Fragments.{HasClaimsOf};
ghost use Rattle.ufs_check.specs.Limits.{IsInLimits, IsLimit, IsPastLimit};
ghost use Rattle.ufs_pointer.specs.ViewWords.{FetchesKind, LosesKind};
ghost use Rattle.ufs_check.specs.Reaches.{IsReach};

use crate::entries::read_named;
use crate::reaches::{Reach, reach_of, width};
use dg_claims::Claims;
use dg_io::View;
use ufs_model::{Geometry, Inode};
use ufs_pointer::Levels;

/// Which pointers of a fragment of an indirect block reach no block of their file.
#[derive(Clone, Copy, Debug, PartialEq, Eq)]
pub struct Limit {
    /// Blocks of the file.
    pub blocks: u64,
    /// The file block that is reached through the fragment's first pointer.
    pub first: u64,
    /// File blocks from one pointer to the next.
    pub width: u64,
}

/// Pointer number `at` of the fragment reaches no block of its file.
pub fn is_past(limit: &Limit, at: u32) -> bool
    requires limit { IsInLimits limit.now }
    requires index { at < 2 ^ 14 }
    ensures { Decides result (IsPastLimit (Some limit.now) at) }
{
    limit.blocks <= limit.first + u64::from(at) * limit.width
}

/// The limit of the pointers of a fragment, by what is reached through them, and by its inode, if that
/// is allocated.
fn limit_of(g: &Geometry, reach: &Reach, inode: Option<Inode>) -> Option<Limit>
    requires geometry { IsGeometry g.now }
    requires level { (1 ≤ reach.now.level) × (reach.now.level ≤ 3) }
    requires most { reach.now.first ≤ 2 ^ 48 }
    ensures limit { (v : Volume) (f : ℕ) → IsReach g.now v f (Some reach.now) → inode_at g.now v reach.now.inode ≡ inode → IsLimit g.now v f result }
    ensures fits { IfSome result IsInLimits }
{
    let inode = inode?;
    Some(Limit {
        blocks: inode.size.div_ceil(u64::from(g.bsize)),
        first: reach.first,
        width: width(g, reach.level),
    })
}

/// Reads what the limit of the pointers of fragment `f` takes: the inode above it. There is no answer
/// where that is gone.
pub fn read_limit<V: View>(
    view: &mut V,
    g: &Geometry,
    f: u32,
    levels: &mut Levels,
    claims: &Claims,
) -> Option<Option<Limit>>
    requires sound { V.is_sound view.old }
    requires geometry { IsGeometryOn (V.size view.old) (V.count view.old) g.now }
    requires levels { levels.old.fragment ≡ V.size view.old }
    requires table { (table_of claims.now).geometry ≡ Some g.now }
    ensures keeps { Keeps V.View view.old view.new }
    ensures levels { levels.new.fragment ≡ levels.old.fragment }
    ensures block { levels.new.block ≡ levels.old.block }
    ensures found { IfSome result (λ limit. V.tells view.new → (v : Volume) → V.stands_for view.old v → HasClaimsOf g.now (table_of claims.now) v
        → IsLimit g.now v f limit) }
    ensures fits { IfSome result (λ limit. IfSome limit IsInLimits) }
    ensures gone { IfNone result (LosesKind V.View view.old view.new (IsMetadataBy g.now)) }
    ensures fetched { FetchesKind V.View view.old view.new (IsMetadataBy g.now) }
{
    let Some(reach) = reach_of(claims, g, f) else {
        return Some(None);
    };
    let inode = read_named(view, g, reach.inode, levels)?;
    Some(limit_of(g, &reach, inode))
}
