ghost use Rattle.std.specs.Prelude.{◌≡◌, ◌^◌, ◌<◌, ◌≤◌};
ghost use Rattle.ufs_model.specs.Geometries.{IsGeometry};
ghost use Rattle.ufs_model.specs.Pointers.{locate_of};
ghost use Rattle.ufs_frames.specs.Chains.{IsChain};

use ufs_model::{Chain, Geometry};

/// Direct slots of an inode (`NDADDR`).
const DIRECT: u32 = 12;

/// The pointers of the blocks behind a double indirect block.
#[tactic(auto, using(crate::proofs::ChainLaws::square))]
pub fn double_count(g: &Geometry) -> u32
    requires { IsGeometry g.now }
    ensures value { result ≡ g.now.nindir ^ 2 }
    ensures more { 2 ^ 20 ≤ result }
    ensures less { result ≤ 2 ^ 28 }
{
    g.nindir * g.nindir
}

/// The way to file block `n`: the first 12 directly, the next nindir through slot 12, the next
/// nindir^2 through slot 13, and all others through slot 14.
#[tactic(auto, using(crate::proofs::ChainLaws::quotient_below), unfolding(ufs_model::specs::Pointers::locate_of))]
pub fn locate(g: &Geometry, n: u32) -> Chain
    requires geometry { IsGeometry g.now }
    requires block { n < 2 ^ 30 }
    ensures value { result ≡ locate_of g.now n }
    ensures indices { IsChain g.now.nindir result }
{
    if n < DIRECT {
        return Chain::Direct(n as u8);
    }
    let after_direct = n - DIRECT;
    if after_direct < g.nindir {
        return Chain::One(after_direct);
    }
    let after_single = after_direct - g.nindir;
    let double = double_count(g);
    if after_single < double {
        return Chain::Two(after_single / g.nindir, after_single % g.nindir);
    }
    let after_double = after_single - double;
    Chain::Three(
        after_double / double,
        after_double / g.nindir % g.nindir,
        after_double % g.nindir,
    )
}
