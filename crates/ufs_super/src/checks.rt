ghost use Rattle.std.specs.Prelude.{◌≡◌, ℕ, ◌+◌, ◌^◌, ◌<◌, ◌≤◌};
ghost use Rattle.std.specs.Bool.{OnTrue};
ghost use Rattle.ufs_model.specs.Geometries.{cgstart, end_of, is_block_size, is_fragment_count};
ghost use Rattle.ufs_model.specs.Numbers.{all_below};
ghost use Rattle.ufs_model.specs.Superblocks.{format_holds, frag_holds, group_fits, groups_hold, inodes_hold, layout_holds, summary_holds};

use ufs_model::Geometry;

/// The first byte of the volume after the superblock, which begins at byte 8192 (`SBOFF`).
pub const SUPERBLOCK_END: u64 = 9568;

/// Bytes of a superblock (`struct fs`).
const SUPERBLOCK_BYTES: u32 = 1376;

/// The inode format is that of 4.4BSD, and links of at most 60 bytes stand in their inode.
#[tactic(auto, unfolding(ufs_model::specs::Superblocks::format_holds))]
pub fn format_holds(inodefmt: u32, g: &Geometry) -> bool
    ensures { result ≡ format_holds inodefmt g.now }
{
    inodefmt == 2 && 1 <= g.maxsymlinklen && g.maxsymlinklen <= 60
}

/// A number of bytes that a file block may have.
#[tactic(auto, unfolding(ufs_model::specs::Geometries::is_block_size))]
pub fn is_block_size(bytes: u32) -> bool
    ensures value { result ≡ is_block_size bytes }
    ensures large { OnTrue result (4096 ≤ bytes) }
{
    bytes == 4096 || bytes == 8192 || bytes == 16384 || bytes == 32768 || bytes == 65536
}

/// A number of fragments that a file block may have.
#[tactic(auto, unfolding(ufs_model::specs::Geometries::is_fragment_count))]
fn is_fragment_count(fragments: u32) -> bool
    ensures { result ≡ is_fragment_count fragments }
{
    fragments == 1 || fragments == 2 || fragments == 4 || fragments == 8
}

/// A file block is so many fragments.
#[tactic(auto, unfolding(ufs_model::specs::Superblocks::frag_holds))]
pub fn frag_holds(g: &Geometry) -> bool
    ensures value { result ≡ frag_holds g.now }
    ensures large { OnTrue result (4096 ≤ g.now.bsize → 0 < g.now.fsize) }
{
    is_fragment_count(g.frag) && u64::from(g.bsize) == u64::from(g.frag) * u64::from(g.fsize)
}

/// The groups make up the volume, whose last group may be cut short.
#[tactic(auto, unfolding(ufs_model::specs::Superblocks::groups_hold))]
pub fn groups_hold(g: &Geometry) -> bool
    ensures { result ≡ groups_hold g.now }
{
    let (ncg, fpg, size) = (u64::from(g.ncg), u64::from(g.fpg), u64::from(g.size));
    1 <= ncg && 1 <= fpg && (ncg - 1) * fpg < size && size <= ncg * fpg
}

/// The inodes of a group fill file blocks, and all inodes have numbers of 32 bits.
#[tactic(auto, unfolding(ufs_model::specs::Superblocks::inodes_hold))]
pub fn inodes_hold(g: &Geometry) -> bool
    requires { 0 < g.now.inopb }
    ensures { result ≡ inodes_hold g.now }
{
    1 <= g.ipg && g.ipg % g.inopb == 0 && u64::from(g.ncg) * u64::from(g.ipg) < 1 << 32
}

/// Where the places of group c are counted from, for a geometry whose groups aren't tested yet.
#[tactic(auto, unfolding(ufs_model::specs::Geometries::cgstart, ufs_model::specs::Geometries::cgbase))]
fn wide_start(g: &Geometry, c: u32) -> u128
    ensures value { result ≡ cgstart g.now c }
    ensures small { result < 2 ^ 66 }
{
    let shifts = c & !g.cgmask;
    u128::from(g.fpg) * u128::from(c) + u128::from(g.cgoffset) * u128::from(shifts)
}

/// The first fragment after group c, for a geometry whose groups aren't tested yet.
#[tactic(auto, unfolding(ufs_model::specs::Geometries::end_of, ufs_model::specs::Geometries::cgbase))]
fn wide_end(g: &Geometry, c: u32) -> u128
    ensures { result ≡ end_of g.now c }
{
    (u128::from(g.fpg) * u128::from(c) + u128::from(g.fpg)).min(u128::from(g.size))
}

/// The own blocks of group c end inside it.
#[tactic(auto, unfolding(ufs_model::specs::Superblocks::group_fits))]
fn group_fits(g: &Geometry, c: u32) -> bool
    ensures { result ≡ group_fits g.now c }
{
    wide_start(g, c) + u128::from(g.dblkno) <= wide_end(g, c)
}

/// The own blocks of each group end inside it.
fn groups_fit(g: &Geometry) -> bool
    ensures { result ≡ all_below (group_fits g.now) g.now.ncg }
{
    for c in 0..g.ncg {
        if !group_fits(g, c) {
            return false;
        }
    }
    true
}

/// The places inside a group follow one another, each after the end of the one before.
#[tactic(auto, unfolding(ufs_model::specs::Superblocks::layout_holds))]
pub fn layout_holds(l: u32, g: &Geometry) -> bool
    requires fragments { 0 < l }
    requires inodes { 0 < g.now.inopb }
    ensures { result ≡ layout_holds l g.now }
{
    let copy_end = u64::from(g.sblkno) + u64::from(SUPERBLOCK_BYTES.div_ceil(l));
    let group_end = u64::from(g.cblkno) + u64::from(g.cgsize.div_ceil(l));
    let inodes_end = u64::from(g.iblkno) + u64::from(g.ipg / g.inopb) * u64::from(g.frag);
    100 <= g.cgsize
        && g.cgsize <= g.bsize
        && SUPERBLOCK_END <= u64::from(g.sblkno) * u64::from(l)
        && copy_end <= u64::from(g.cblkno)
        && group_end <= u64::from(g.iblkno)
        && inodes_end <= u64::from(g.dblkno)
        && groups_fit(g)
}

/// The summary area ends inside the volume.
#[tactic(auto, unfolding(ufs_model::specs::Superblocks::summary_holds))]
pub fn summary_holds(l: u32, g: &Geometry) -> bool
    requires { 0 < l }
    ensures { result ≡ summary_holds l g.now }
{
    u64::from(g.csaddr) + u64::from(g.cssize.div_ceil(l)) <= u64::from(g.size)
}
