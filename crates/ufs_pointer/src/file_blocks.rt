// File blocks, read by their addresses.
ghost use Rattle.std.specs.Prelude.{◌≡◌, ◌+◌, ◌*◌, ◌^◌, ◌<◌, ◌≤◌, IfNone, IfSome, length};
ghost use Rattle.dg_io.specs.ViewWords.{Keeps, Reads};
ghost use Rattle.ufs_model.specs.Geometries.{IsGeometry, IsGeometryOn};
ghost use Rattle.ufs_model.specs.Inodes.{block_count};
ghost use Rattle.ufs_model.specs.Paths.{block_of, bytes_at, bytes_in_block};
ghost use Rattle.ufs_model.specs.declared.pointers.Address.TheVariants.{At};
ghost use Rattle.ufs_pointer.specs.FileBlocks.{IfData, block_said};
ghost use Rattle.ufs_pointer.specs.ViewWords.{FetchesFor, LosesNeeded};

use crate::answers::BlockAnswer;
use crate::levels::{Levels, file_block};
use dg_io::View;
use ufs_frames::file_blocks_are_few;
use ufs_model::{Geometry, Inode};

/// What there is of a file block.
#[derive(Clone, Copy, Debug, PartialEq, Eq)]
pub enum FileBlock {
    /// Its bytes are the block of data, [`Levels::block`].
    Data,
    /// A pointer on the way to it is 0.
    Hole,
    /// A pointer on the way to it is wild.
    Wild,
}

/// The number of file blocks of a file of less than 2^32 bytes.
pub fn block_count(g: &Geometry, inode: &Inode) -> u32
    requires geometry { IsGeometry g.now }
    requires small { inode.now.size < 2 ^ 32 }
    ensures value { result ≡ block_count g.now inode.now }
    ensures few { result ≤ 2 ^ 20 }
{
    file_blocks_are_few();
    inode.size.div_ceil(u64::from(g.bsize)) as u32
}

/// How many bytes of a file stand in its file block `n`: none past its end.
#[tactic(auto, using(crate::proofs::Sizes::block_fits))]
pub fn bytes_in_block(g: &Geometry, inode: &Inode, n: u32) -> usize
    requires { IsGeometry g.now }
    ensures value { result ≡ bytes_in_block g.now inode.now n }
    ensures small { result ≤ 65536 }
    ensures fits { result ≤ g.now.frag * g.now.fsize }
{
    let before = u64::from(n) * u64::from(g.bsize);
    u64::from(g.bsize).min(inode.size.saturating_sub(before)) as usize
}

/// Reads `k` fragments from `a` on, end to end.
#[tactic(auto, unfolding(ufs_model::specs::Paths::bytes_at, ufs_model::specs::Blocks::bind))]
fn read_run<V: View>(
    view: &mut V,
    g: &Geometry,
    a: u32,
    k: u32,
    levels: &mut Levels,
) -> Option<FileBlock>
    requires sound { V.is_sound view.old }
    requires geometry { IsGeometryOn (V.size view.old) (V.count view.old) g.now }
    requires levels { levels.old.fragment ≡ V.size view.old }
    requires inside { a + k ≤ g.now.size }
    requires few { k ≤ 8 }
    ensures keeps { Keeps V.View view.old view.new }
    ensures levels { levels.new.fragment ≡ levels.old.fragment }
    ensures room { length levels.new.block ≡ k * g.now.fsize }
    ensures rule { Reads V.View view.old view.new (bytes_at g.now (At a k)) (block_said result levels.new.block) }
    ensures fetched { FetchesFor V.View view.old view.new (bytes_at g.now (At a k)) (block_said result levels.new.block) }
    ensures lost { IfNone result (LosesNeeded V.View view.old view.new (bytes_at g.now (At a k))) }
{
    if !levels.read_block(view, a, k) {
        return None;
    }
    Some(FileBlock::Data)
}

/// Reads file block `n`, with every fragment that it claims, into the block of data. There is no answer
/// where a block on the way to it, or one of its own, is gone.
pub fn read_file_block<V: View>(
    view: &mut V,
    g: &Geometry,
    inode: &Inode,
    n: u32,
    levels: &mut Levels,
) -> Option<FileBlock>
    requires sound { V.is_sound view.old }
    requires geometry { IsGeometryOn (V.size view.old) (V.count view.old) g.now }
    requires levels { levels.old.fragment ≡ V.size view.old }
    requires block { n < 2 ^ 30 }
    ensures keeps { Keeps V.View view.old view.new }
    ensures levels { levels.new.fragment ≡ levels.old.fragment }
    ensures covered { IfSome result (λ found. IfData found (bytes_in_block g.now inode.now n ≤ length levels.new.block)) }
    ensures rule { Reads V.View view.old view.new (block_of g.now inode.now n) (block_said result levels.new.block) }
    ensures fetched { FetchesFor V.View view.old view.new (block_of g.now inode.now n) (block_said result levels.new.block) }
    ensures lost { IfNone result (LosesNeeded V.View view.old view.new (block_of g.now inode.now n)) }
{
    match file_block(view, g, inode, n, levels) {
        BlockAnswer::Hole => Some(FileBlock::Hole),
        BlockAnswer::Wild => Some(FileBlock::Wild),
        BlockAnswer::Gone => None,
        BlockAnswer::At(a, k) => read_run(view, g, a, k, levels),
    }
}
