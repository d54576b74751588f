// What is kept of a volume, read anew.
ghost use Rattle.std.specs.Prelude.{◌≡◌, ◌≤◌, ℕ, [], IfOk, IfNone, IfSome, Some, None, false, length, replicate};
ghost use Rattle.dg_io.specs.ViewWords.{Keeps};
ghost use Rattle.ufs_model.specs.Blocks.{Volume};
ghost use Rattle.dg_model.specs.Marks.{is_marked};
ghost use Rattle.ufs_model.specs.Geometries.{IsGeometry, IsGeometryOn};
ghost use Rattle.ufs_model.specs.Metadata.{IsMetadataBy};
ghost use Rattle.ufs_pointer.specs.Fetches.{LosesOne};
ghost use Rattle.dg_claims.specs.Kept.{table_of};
ghost use Rattle.dg_infer.specs.AtHand.{OnVolumes, StandsWith};
ghost use Rattle.dg_infer.specs.Fetched.{FetchesFresh};
ghost use Rattle.dg_infer.specs.Meanings.{AreParts};
ghost use Rattle.dg_infer.specs.Places.{IsClaimedRead};
ghost use Rattle.dg_infer.specs.Sweeps.{AreKindsBefore, AreMarksBefore, AreSlotsBefore};
ghost use Rattle.dg_infer.specs.Writes.{IsKnownWhole, FetchesWholeBy, LosesWholeBy};
ghost use Rattle.dg_infer.specs.Watches.{IsTouched, IsWatched};
ghost use Rattle.ufs_model.specs.declared.claims.ClaimSource.{ClaimSource};

use crate::levels::move_levels;
use crate::sweeps::{Sweep, read_places};
use crate::writes::watch_block;
use dg_claims::{Claims, Geometry};
use dg_io::{NoMemory, View};
use std::alloc::Global;
use std::collections::BTreeMap;
use ufs_inode::inodes_inside;
use ufs_model::Kind;
use ufs_pointer::Levels;

/// What is kept of a volume that is read anew.
#[derive(Drop)]
pub struct Parts {
    /// The claims.
    pub claims: Claims,
    /// The kinds of inodes that have pointers.
    pub kinds: BTreeMap<u32, Kind>,
    /// A mark for each block that is marked free.
    pub free: Vec<bool>,
}

/// No marks for so many blocks.
pub fn no_marks(alloc: Global, n: u32) -> Result<Vec<bool>, NoMemory>
    ensures room { IfOk result (λ marks. length marks.items ≡ n) }
    ensures none { IfOk result (λ marks. (b : ℕ) → is_marked marks.items b ≡ false) }
{
    match vec![in alloc; false; n as usize] {
        Ok(marks) => Ok(marks),
        Err(_) => Err(NoMemory),
    }
}

/// The parts of a volume without a geometry, on so many blocks.
pub fn no_parts(alloc: Global, n: u32) -> Result<Parts, NoMemory>
    ensures geometry { IfOk result (λ parts. (table_of parts.claims).geometry ≡ None) }
    ensures room { IfOk result (λ parts. length parts.free.items ≡ n) }
    ensures parts { IfOk result (λ parts. (v : Volume) → AreParts v None (table_of parts.claims) parts.kinds.entries parts.free.items) }
{
    Ok(Parts {
        claims: Claims::new(alloc, None)?,
        kinds: BTreeMap::new(alloc),
        free: no_marks(alloc, n)?,
    })
}

/// Nothing is read yet, and nothing is claimed.
fn new_sweep(alloc: Global, g: &Geometry, n: u32, block: u32) -> Result<Sweep, NoMemory>
    requires { IsGeometry g.now }
    ensures geometry { IfOk result (λ sweep. (table_of sweep.claims).geometry ≡ Some g.now) }
    ensures room { IfOk result (λ sweep. length sweep.free.items ≡ n) }
    ensures touched { IfOk result (λ sweep. (level : ℕ) → 1 ≤ level → level ≤ 3 → IsTouched sweep.watch level block) }
    ensures watched { IfOk result (λ sweep. IsWatched (table_of sweep.claims).claimed (table_of sweep.claims).claimed sweep.watch) }
    ensures none { IfOk result (λ sweep. (source : ClaimSource) → (table_of sweep.claims).claimed source ≡ []) }
    ensures slots { IfOk result (λ sweep. (v : Volume) → AreSlotsBefore g.now v 0 (table_of sweep.claims).claimed) }
    ensures kinds { IfOk result (λ sweep. (v : Volume) → AreKindsBefore g.now v 0 sweep.kinds.entries) }
    ensures marks { IfOk result (λ sweep. (v : Volume) → AreMarksBefore g.now v 0 sweep.free.items sweep.group.items) }
{
    let claims = Claims::new(alloc, Some(*g))?;
    let watch = watch_block(alloc, &claims, block)?;
    let free = no_marks(alloc, n)?;
    Ok(Sweep {
        claims,
        watch,
        kinds: BTreeMap::new(alloc),
        free,
        group: Vec::new(alloc),
    })
}

/// The parts of a volume with this geometry, of which one block may be at hand. There are none where another block that has to be
/// read is gone.
pub fn read_parts<V: View>(
    alloc: Global,
    view: &mut V,
    g: &Geometry,
    levels: &mut Levels,
    block: u32,
    bytes: &[u8],
) -> Result<Option<Parts>, NoMemory>
    requires sound { V.is_sound view.old }
    requires geometry { IsGeometryOn (V.size view.old) (V.count view.old) g.now }
    requires levels { levels.old.fragment ≡ V.size view.old }
    requires bytes { length bytes.now ≡ V.size view.old }
    ensures keeps { Keeps V.View view.old view.new }
    ensures levels { levels.new.fragment ≡ levels.old.fragment }
    ensures geometry { IfOk result (λ read. IfSome read (λ parts. (table_of parts.claims).geometry ≡ Some g.now)) }
    ensures room { IfOk result (λ read. IfSome read (λ parts. length parts.free.items ≡ V.count view.old)) }
    ensures parts { IfOk result (λ read. IfSome read (λ parts. OnVolumes V.View view.old view.new block bytes.now (λ v.
        AreParts v (Some g.now) (table_of parts.claims) parts.kinds.entries parts.free.items))) }
    ensures lost { IfOk result (λ read. IfNone read (LosesOne (StandsWith V.View view.old block bytes.now)
        (V.tells view.new) (V.count view.old) (IsMetadataBy g.now) (V.is_gone view.new))) }
    ensures fetched { FetchesFresh V.fetched g.now block (IsClaimedRead V.View view.old view.new g.now block bytes.now) view.old view.new }
{
    inodes_inside();
    let (_, n) = view.shape();
    let mut sweep = new_sweep(alloc, g, n, block)?;
    if !read_places(view, g, levels, &mut sweep, block, bytes)? {
        return Ok(None);
    }
    if !move_levels(
        view,
        g,
        levels,
        &mut sweep.claims,
        &mut sweep.watch,
        block,
        bytes,
    )? {
        return Ok(None);
    }
    Ok(Some(Parts {
        claims: sweep.claims,
        kinds: sweep.kinds,
        free: sweep.free,
    }))
}

/// A block of zeros.
fn zero_block(alloc: Global, l: u32) -> Result<Vec<u8>, NoMemory>
    ensures { IfOk result (λ bytes. bytes.items ≡ replicate l 0) }
{
    match vec![in alloc; 0; l as usize] {
        Ok(bytes) => Ok(bytes),
        Err(_) => Err(NoMemory),
    }
}

/// The parts of the volume on a view, whose superblock is read. There are none where another block that has to be read is gone. No
/// block is at hand but one past the last, which is zeros.
pub fn restored_parts<V: View>(
    alloc: Global,
    view: &mut V,
    levels: &mut Levels,
    geometry: Option<Geometry>,
) -> Result<Option<Parts>, NoMemory>
    requires sound { V.is_sound view.old }
    requires on { IfSome geometry (IsGeometryOn (V.size view.old) (V.count view.old)) }
    requires levels { levels.old.fragment ≡ V.size view.old }
    ensures keeps { Keeps V.View view.old view.new }
    ensures levels { levels.new.fragment ≡ levels.old.fragment }
    ensures geometry { IfOk result (λ read. IfSome read (λ parts. (table_of parts.claims).geometry ≡ geometry)) }
    ensures room { IfOk result (λ read. IfSome read (λ parts. length parts.free.items ≡ V.count view.old)) }
    ensures parts { IfOk result (λ read. IfSome read (λ parts. (v : Volume) → IsKnownWhole V.View view.old view.new v
        → AreParts v geometry (table_of parts.claims) parts.kinds.entries parts.free.items)) }
    ensures lost { IfOk result (λ read. IfNone read (LosesWholeBy V.View view.old view.new geometry)) }
    ensures fetched { FetchesWholeBy V.View view.old view.new geometry }
{
    let (l, n) = view.shape();
    let Some(g) = geometry else {
        return Ok(Some(no_parts(alloc, n)?));
    };
    let beyond = zero_block(alloc, l)?;
    read_parts(alloc, view, &g, levels, n, &beyond)
}
