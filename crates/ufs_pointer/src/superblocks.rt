// The superblock.
ghost use Rattle.std.specs.Prelude.{◌≡◌, ◌+◌, ◌-◌, ◌*◌, ◌/◌, ◌<◌, ◌≤◌, length, IfNone, IfOk, IfSome, is_some, min};
ghost use Rattle.std.specs.Bool.{then_some};
ghost use Rattle.dg_io.specs.ViewWords.{Keeps, Reads};
ghost use Rattle.ufs_model.specs.Blocks.{area_of, area_within};
ghost use Rattle.ufs_model.specs.Geometries.{IsGeometryOn};
ghost use Rattle.ufs_model.specs.Superblocks.{geometry_of};
ghost use Rattle.ufs_pointer.specs.Superblocks.{superblock_blocks};
ghost use Rattle.ufs_pointer.specs.ViewWords.{FetchesFor, FetchesFrom, LosesNeeded};

use crate::levels::Levels;
use dg_io::View;
use ufs_model::{BadSuper, Geometry};
use ufs_super::read_super;

/// The first byte of the superblock (`SBOFF`), and its bytes (`struct fs`).
const SUPERBLOCK: u32 = 8192;

const SUPERBLOCK_BYTES: u32 = 1376;

/// Reads `k` blocks from `a` on, which are inside the view where there are any, and answers whether
/// it could.
fn read_any<V: View>(view: &mut V, a: u32, k: u32, levels: &mut Levels) -> bool
    requires sound { V.is_sound view.old }
    requires within { 0 < k → a + k ≤ V.count view.old }
    requires levels { levels.old.fragment ≡ V.size view.old }
    requires few { k ≤ 8 }
    ensures keeps { Keeps V.View view.old view.new }
    ensures levels { levels.new.fragment ≡ levels.old.fragment }
    ensures rule { Reads V.View view.old view.new (area_of (V.size view.old) a k) (then_some result levels.new.block) }
    ensures room { length levels.new.block ≡ k * V.size view.old }
    ensures area { FetchesFrom V.View view.old view.new a k result }
    ensures fetched { FetchesFor V.View view.old view.new (area_of (V.size view.old) a k) (then_some result levels.new.block) }
{
    if k == 0 {
        levels.clear(0);
        return true;
    }
    levels.read_block(view, a, k)
}

/// Reads `k` blocks from `a` on, of which those past the last block are zeros, and answers whether
/// it could.
fn read_within<V: View>(view: &mut V, a: u32, k: u32, levels: &mut Levels) -> bool
    requires sound { V.is_sound view.old }
    requires levels { levels.old.fragment ≡ V.size view.old }
    requires few { k ≤ 8 }
    ensures keeps { Keeps V.View view.old view.new }
    ensures levels { levels.new.fragment ≡ levels.old.fragment }
    ensures rule { Reads V.View view.old view.new (area_within (V.size view.old) (V.count view.old) a k) (then_some result levels.new.block) }
    ensures room { length levels.new.block ≡ k * V.size view.old }
    ensures area { FetchesFrom V.View view.old view.new a (min k (V.count view.old - a)) result }
    ensures fetched { FetchesFor V.View view.old view.new (area_within (V.size view.old) (V.count view.old) a k) (then_some result levels.new.block) }
{
    let (_, n) = view.shape();
    let inside = k.min(n.saturating_sub(a));
    let got = read_any(view, a, inside, levels);
    levels.pad(inside, k);
    got
}

/// The geometry of the volume on a view, by its superblock, or the first test that the superblock
/// fails. There is no answer where a block of it is gone. The buffers are for blocks of the view's
/// size.
#[tactic(auto, using(crate::proofs::SuperLaws::geometry_read, crate::proofs::SuperLaws::geometry_unread, crate::proofs::SuperLaws::superblock_fits))]
pub fn read_geometry<V: View>(
    view: &mut V,
    levels: &mut Levels,
) -> Option<Result<Geometry, BadSuper>>
    requires sound { V.is_sound view.old }
    requires fragment { levels.old.fragment ≡ V.size view.old }
    ensures keeps { Keeps V.View view.old view.new }
    ensures fragment { levels.new.fragment ≡ levels.old.fragment }
    ensures rule { Reads V.View view.old view.new (geometry_of (V.size view.old) (V.count view.old)) result }
    ensures geometry { IfSome result (λ found. IfOk found (IsGeometryOn (V.size view.old) (V.count view.old))) }
    ensures area { FetchesFrom V.View view.old view.new (8192 / V.size view.old)
        (superblock_blocks (V.size view.old) (V.count view.old)) (is_some result) }
    ensures fetched { FetchesFor V.View view.old view.new (geometry_of (V.size view.old) (V.count view.old)) result }
    ensures lost { IfNone result (LosesNeeded V.View view.old view.new (geometry_of (V.size view.old) (V.count view.old))) }
{
    let l = levels.fragment_bytes();
    let (_, n) = view.shape();
    if !read_within(view, SUPERBLOCK / l, SUPERBLOCK_BYTES.div_ceil(l), levels) {
        return None;
    }
    Some(read_super(levels.block(), l, n))
}
