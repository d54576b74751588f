// The volume on an image, and whether a trace can be made of it.
ghost use Rattle.std.specs.Prelude.{◌≡◌, ◌≤◌, IfErr, IfOk, length};
ghost use Rattle.ufs_model.specs.Geometries.{IsGeometry};
ghost use Rattle.ufs_model.specs.Superblocks.{endian_of};
ghost use Rattle.dg_trace.specs.Answers.{IsAccepted, IsRefused};
ghost use Rattle.dg_trace.specs.Volumes.{block_bytes_for, shape_for, volume_on};

use crate::asked::{Asked, TraceRefusal};
use crate::images::MOST_BYTES;
use dg_model::Shape;
use ufs_model::{BadSuper, Endian, Geometry, u32_at};
use ufs_super::read_super;

/// Where the superblock begins (`SBOFF`), and ends.
const SUPER_AT: usize = 8192;

pub const LEAST_BYTES: usize = 9568;

/// The magic number of a superblock (`FS_MAGIC`).
const MAGIC: u32 = 0x0001_1954;

/// The order of the bytes of a superblock's numbers.
#[tactic(auto, unfolding(ufs_model::specs::Superblocks::endian_of))]
fn endian_of(superblock: &[u8]) -> Endian
    requires { 1376 ≤ length superblock.now }
    ensures { result ≡ endian_of superblock.now }
{
    if u32_at(superblock, 1372, Endian::Big) == MAGIC {
        Endian::Big
    } else {
        Endian::Little
    }
}

/// The bytes of a block for which a superblock with such fragments is read.
fn block_bytes_for(fsize: u32) -> u32
    ensures { result ≡ block_bytes_for fsize }
{
    if fsize == 512 || fsize == 1024 || fsize == 2048 || fsize == 4096 {
        fsize
    } else {
        512
    }
}

/// The volume on an image, by its own numbers, or the first test of its superblock that fails.
#[tactic(auto, unfolding(crate::specs::Volumes::volume_on))]
pub fn volume_on(image: &[u8]) -> Result<Geometry, BadSuper>
    requires { 9568 ≤ length image.now }
    ensures value { result ≡ volume_on image.now }
    ensures tests { IfOk result (λ g. IsGeometry g) }
{
    let (_, superblock) = image.split_at(SUPER_AT);
    let endian = endian_of(superblock);
    let l = block_bytes_for(u32_at(superblock, 52, endian));
    read_super(superblock, l, u32_at(superblock, 36, endian))
}

/// How many bytes the volume on an image has, or 0 where its superblock is none.
pub fn volume_bytes(image: &[u8]) -> usize
    requires { 9568 ≤ length image.now }
{
    match volume_on(image) {
        Ok(geometry) => geometry.size as usize * geometry.fsize as usize,
        Err(_) => 0,
    }
}

/// A volume of which a trace can be made, and the array for it.
#[derive(Clone, Copy, Debug, PartialEq, Eq)]
pub struct Accepted {
    pub geometry: Geometry,
    pub shape: Shape,
}

/// The volume on an image and the array for it, or why no trace is made of it.
pub fn check_image(asked: &Asked, image: &[u8]) -> Result<Accepted, TraceRefusal>
    ensures ok { IfOk result (λ a. IsAccepted asked.now image.now a.geometry) }
    ensures shape { IfOk result (λ a. a.shape ≡ shape_for asked.now a.geometry) }
    ensures tests { IfOk result (λ a. IsGeometry a.geometry) }
    ensures err { IfErr result (IsRefused asked.now image.now) }
{
    if image.len() < LEAST_BYTES || image.len() > MOST_BYTES {
        return Err(TraceRefusal::Length);
    }
    let geometry = match volume_on(image) {
        Ok(geometry) => geometry,
        Err(bad) => return Err(TraceRefusal::Super(bad)),
    };
    if (image.len() as u64) < u64::from(geometry.size) * u64::from(geometry.fsize) {
        return Err(TraceRefusal::Length);
    }
    match Shape::check(geometry.fsize, geometry.size, asked.b, asked.k, asked.m) {
        Some(shape) => Ok(Accepted { geometry, shape }),
        None => Err(TraceRefusal::Limits),
    }
}
