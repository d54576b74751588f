ghost use Rattle.std.specs.Prelude.{◌≡◌, ◌-◌, ◌+◌, ◌*◌, ◌/◌, ◌<◌, ◌≤◌, ◌++◌, IfNone, IfOk, IfSome, IsSome, OnOk, length, replicate};
ghost use Rattle.std.specs.Bool.{Decides};
ghost use Rattle.std.specs.Int.{div_ceil};
ghost use Rattle.dg_io.specs.ViewWords.{Keeps};
ghost use Rattle.dg_model.specs.Volumes.{geometry_on};
ghost use Rattle.ufs_model.specs.Geometries.{IsGeometryOn};
ghost use Rattle.ufs_model.specs.Superblocks.{geometry_in};
ghost use Rattle.ufs_pointer.specs.Superblocks.{superblock_blocks};
ghost use Rattle.ufs_pointer.specs.ViewWords.{LosesKind};
ghost use Rattle.dg_infer.specs.Areas.{IsFrom, IsRest};
ghost use Rattle.dg_infer.specs.AtHand.{OnVolumes};
ghost use Rattle.dg_infer.specs.Fetched.{FetchesOnce};

use crate::areas::read_rest;
use dg_io::{NoMemory, View};
use std::alloc::Global;
use ufs_model::{BadSuper, Geometry};
use ufs_pointer::Levels;
use ufs_super::read_super;

/// The first byte of the superblock (`SBOFF`), and its bytes (`struct fs`).
const SUPERBLOCK: u32 = 8192;

const SUPERBLOCK_BYTES: u32 = 1376;

/// Whether a block of `l` bytes is one of those with the superblock.
pub fn is_in_superblock(l: u32, block: u32) -> bool
    requires { 512 ≤ l }
    ensures { Decides result (IsFrom (8192 / l) (div_ceil 1376 l) block) }
{
    let first = SUPERBLOCK / l;
    first <= block && block - first < SUPERBLOCK_BYTES.div_ceil(l)
}

/// Puts zeros behind bytes, so that they are so many.
fn pad(area: &mut Vec<u8>, size: usize) -> Result<(), NoMemory>
    requires { length area.old.items ≤ size }
    ensures { OnOk result (area.new.items ≡ area.old.items ++ replicate (size - length area.old.items) 0) }
{
    match area.resize(size, 0) {
        Ok(()) => Ok(()),
        Err(_) => Err(NoMemory),
    }
}

/// The geometry in the first bytes of a superblock, behind which zeros stand so that there are `size` bytes.
fn superblock_in(
    area: Vec<u8>,
    size: usize,
    l: u32,
    n: u32,
) -> Result<Option<Result<Geometry, BadSuper>>, NoMemory>
    requires fits { length area.items ≤ size }
    requires whole { 1376 ≤ size }
    ensures some { IfOk result IsSome }
    ensures value { IfOk result (λ read. IfSome read (λ found.
        found ≡ geometry_in (area.items ++ replicate (size - length area.items) 0) l n)) }
    ensures on { IfOk result (λ read. IfSome read (λ found. IfOk found (IsGeometryOn l n))) }
{
    let mut bytes = area;
    pad(&mut bytes, size)?;
    Ok(Some(read_super(&bytes, l, n)))
}

/// The geometry of the volume on a view, by its superblock, or the first test that the superblock fails. One of its blocks is at
/// hand. There is no answer where another is gone.
pub fn read_superblock<V: View>(
    alloc: Global,
    view: &mut V,
    levels: &mut Levels,
    block: u32,
    bytes: &[u8],
) -> Result<Option<Result<Geometry, BadSuper>>, NoMemory>
    requires sound { V.is_sound view.old }
    requires levels { levels.old.fragment ≡ V.size view.old }
    requires bytes { length bytes.now ≡ V.size view.old }
    requires low { 8192 / V.size view.old ≤ block }
    requires inside { block < V.count view.old }
    ensures keeps { Keeps V.View view.old view.new }
    ensures levels { levels.new.fragment ≡ levels.old.fragment }
    ensures geometry { IfOk result (λ read. IfSome read (λ found. OnVolumes V.View view.old view.new block bytes.now (λ v.
        found ≡ geometry_on (V.size view.old) (V.count view.old) v))) }
    ensures on { IfOk result (λ read. IfSome read (λ found. IfOk found (IsGeometryOn (V.size view.old) (V.count view.old)))) }
    ensures lost { IfOk result (λ read. IfNone read (LosesKind V.View view.old view.new
        (λ v b. IsFrom (8192 / V.size view.old) (superblock_blocks (V.size view.old) (V.count view.old)) b))) }
    ensures fetched { FetchesOnce V.fetched
        (IsRest (8192 / V.size view.old) (superblock_blocks (V.size view.old) (V.count view.old)) block) view.old view.new }
{
    let l = levels.fragment_bytes();
    let (_, n) = view.shape();
    let first = SUPERBLOCK / l;
    let count = SUPERBLOCK_BYTES.div_ceil(l);
    let inside = count.min(n - first);
    let Some(area) = read_rest(alloc, view, levels, first, inside, block, bytes)? else {
        return Ok(None);
    };
    superblock_in(area, count as usize * l as usize, l, n)
}
