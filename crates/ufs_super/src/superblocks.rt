ghost use Rattle.std.specs.Prelude.{◌≡◌, ◌+◌, ◌≤◌, IfOk, length};
ghost use Rattle.ufs_model.specs.Geometries.{IsGeometryOn};
ghost use Rattle.ufs_model.specs.Superblocks.{endian_of, field, fields, geometry_by, geometry_in};

use crate::checks::{
    format_holds, frag_holds, groups_hold, inodes_hold, is_block_size, layout_holds, summary_holds,
};
use ufs_model::{BadSuper, Endian, Geometry, accepted_superblocks, u32_at};

/// The magic number of a superblock (`FS_MAGIC`).
const MAGIC: u32 = 0x0001_1954;

/// The field of 32 bits at a byte of the superblock.
fn field(bytes: &[u8], at: usize, endian: Endian) -> u32
    requires { at + 4 ≤ length bytes.now }
    ensures { result ≡ field endian bytes.now at }
{
    u32_at(bytes, at, endian)
}

/// The order of the bytes of every number: the highest first where the magic number reads so, and
/// else the lowest.
#[tactic(auto, unfolding(ufs_model::specs::Superblocks::endian_of))]
fn endian_of(bytes: &[u8]) -> Endian
    requires { 1376 ≤ length bytes.now }
    ensures { result ≡ endian_of bytes.now }
{
    if field(bytes, 1372, Endian::Big) == MAGIC {
        Endian::Big
    } else {
        Endian::Little
    }
}

/// The fields of a geometry, as they stand, and their order of bytes.
#[tactic(auto, unfolding(ufs_model::specs::Superblocks::fields))]
fn fields(bytes: &[u8], endian: Endian) -> Geometry
    requires { 1376 ≤ length bytes.now }
    ensures { result ≡ fields endian bytes.now }
{
    Geometry {
        sblkno: field(bytes, 8, endian),
        cblkno: field(bytes, 12, endian),
        iblkno: field(bytes, 16, endian),
        dblkno: field(bytes, 20, endian),
        cgoffset: field(bytes, 24, endian),
        cgmask: field(bytes, 28, endian),
        size: field(bytes, 36, endian),
        ncg: field(bytes, 44, endian),
        bsize: field(bytes, 48, endian),
        fsize: field(bytes, 52, endian),
        frag: field(bytes, 56, endian),
        nindir: field(bytes, 116, endian),
        inopb: field(bytes, 120, endian),
        csaddr: field(bytes, 152, endian),
        cssize: field(bytes, 156, endian),
        cgsize: field(bytes, 160, endian),
        ipg: field(bytes, 184, endian),
        fpg: field(bytes, 188, endian),
        maxsymlinklen: field(bytes, 1320, endian),
        endian,
    }
}

/// The geometry in the bytes of a superblock that are read in an order, or the first test that
/// fails.
#[tactic(auto, unfolding(ufs_model::specs::Superblocks::geometry_by))]
fn geometry_by(bytes: &[u8], l: u32, n: u32, endian: Endian) -> Result<Geometry, BadSuper>
    requires { 1376 ≤ length bytes.now }
    ensures { result ≡ geometry_by endian bytes.now l n }
{
    let g = fields(bytes, endian);
    if field(bytes, 1372, endian) != MAGIC {
        return Err(BadSuper::Magic);
    }
    if !format_holds(field(bytes, 1324, endian), &g) {
        return Err(BadSuper::Format);
    }
    if !is_block_size(g.bsize) {
        return Err(BadSuper::Bsize);
    }
    if g.fsize != l {
        return Err(BadSuper::Fsize);
    }
    if !frag_holds(&g) {
        return Err(BadSuper::Frag);
    }
    if g.nindir != g.bsize / 4 {
        return Err(BadSuper::Nindir);
    }
    if g.inopb != g.bsize / 128 {
        return Err(BadSuper::Inopb);
    }
    if g.size < 1 || g.size > n {
        return Err(BadSuper::Size);
    }
    if !groups_hold(&g) {
        return Err(BadSuper::Groups);
    }
    if !inodes_hold(&g) {
        return Err(BadSuper::Inodes);
    }
    if !layout_holds(l, &g) {
        return Err(BadSuper::Layout);
    }
    if !summary_holds(l, &g) {
        return Err(BadSuper::Summary);
    }
    Ok(g)
}

/// The same in the order of bytes that the magic number tells.
#[tactic(auto, unfolding(ufs_model::specs::Superblocks::geometry_in))]
fn geometry_in(bytes: &[u8], l: u32, n: u32) -> Result<Geometry, BadSuper>
    requires { 1376 ≤ length bytes.now }
    ensures { result ≡ geometry_in bytes.now l n }
{
    geometry_by(bytes, l, n, endian_of(bytes))
}

/// The geometry in the bytes of a superblock, for a volume on `n` blocks of `l` bytes. All numbers
/// of the volume stand in the order of bytes that the magic number tells.
///
/// An error names the first test that fails, in the order of [`BadSuper`]. Bytes past the first 1376
/// aren't read.
pub fn read_super(bytes: &[u8], l: u32, n: u32) -> Result<Geometry, BadSuper>
    requires { 1376 ≤ length bytes.now }
    ensures value { result ≡ geometry_in bytes.now l n }
    ensures ok { IfOk result (λ g. IsGeometryOn l n g) }
{
    accepted_superblocks();
    geometry_in(bytes, l, n)
}
