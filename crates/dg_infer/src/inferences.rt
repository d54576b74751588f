ghost use Rattle.std.specs.Prelude.{◌≡◌, ◌<◌, ℕ, IfOk, IfSome, IfNone, List, Option, Some, None, false, length, replicate, slice_set};
ghost use Rattle.std.specs.Bool.{Decides};
ghost use Rattle.dg_io.specs.ViewWords.{Keeps};
ghost use Rattle.dg_model.specs.Blocks.{zeros};
ghost use Rattle.dg_model.specs.Marks.{AreLeft, with_mark};
ghost use Rattle.dg_model.specs.Volumes.{geometry_on};
ghost use Rattle.ufs_model.specs.Blocks.{Volume};
ghost use Rattle.ufs_model.specs.Geometries.{IsGeometryOn};
ghost use Rattle.ufs_model.specs.Metadata.{IsMetadata};
ghost use Rattle.ufs_pointer.specs.ViewWords.{LosesKind};
ghost use Rattle.dg_claims.specs.Kept.{table_of};
ghost use Rattle.dg_claims.specs.Tables.{accepted};
ghost use Rattle.dg_infer.specs.Bounds.{FetchesFollowing, FetchesKept, FetchesReread};
ghost use Rattle.dg_infer.specs.Meanings.{StandsFor};
ghost use Rattle.dg_infer.specs.Moves.{Follows, with_pending};
ghost use Rattle.dg_infer.specs.Places.{IsClaimedBehind};
ghost use Rattle.dg_infer.specs.Writes.{FetchesWhole, IsKnownWhole, IsKnownWrite, IsWriteTo, LosesWhole, LosesWritten, LosesWrittenTo};
ghost use Rattle.dg_infer.specs.declared.watches.Touch.{Touch};

use crate::fresh::{Parts, no_marks, no_parts, read_parts, restored_parts};
use crate::groups::move_free;
use crate::kinds::move_kinds;
use crate::pending::{is_system, left_marks, mark_anew, move_pending};
use crate::superblocks::{is_in_superblock, read_superblock};
use crate::watches::Watch;
use crate::writes::{move_claims, watch_block};
use dg_claims::{Claims, Geometry, tables_of_volumes};
use dg_io::{NoMemory, View};
use std::alloc::Global;
use std::collections::BTreeMap;
use std::marker::Model;
use ufs_model::{BadSuper, Kind};
use ufs_pointer::{Levels, read_geometry};

/// What a write touched of the claims on blocks: what moves the marks of pending blocks.
#[derive(Drop)]
pub struct Moved {
    /// The fragments whose claims may have changed. All blocks were read anew where there is none.
    touched: Option<Watch>,
}

impl Model for Moved {
    ghost use Rattle.std.specs.Prelude.{List, Option};
    ghost use Rattle.dg_infer.specs.declared.watches.Touch.{Touch};

    ghost Value = { Option (List Touch) };

    ghost view = { λ moved. moved.touched };
}

/// What became of an inference by a write.
#[derive(Drop)]
pub enum Inferred {
    /// But for its marks it is that of the volume after the write. [`Inference::mark`] moves them.
    Known(Moved),
    /// A block that has to be read for it is gone. But for its marks the inference is of no use any more.
    Gone,
}

/// What the blocks of a volume belong to, as far as it is kept from one write to the next.
#[derive(Drop)]
pub struct Inference {
    pub(crate) l: u32,
    pub(crate) n: u32,
    pub(crate) geometry: Option<Geometry>,
    pub(crate) claims: Claims,
    /// The kinds of inodes that have pointers.
    pub(crate) kinds: BTreeMap<u32, Kind>,
    /// A mark for each block that is pending.
    pub(crate) pending: Vec<bool>,
    /// A mark for each block that is marked free by its group.
    pub(crate) free: Vec<bool>,
}

impl Model for Inference {
    ghost use Rattle.dg_infer.specs.Inferences.{IsInference, kept_in};
    ghost use Rattle.dg_infer.specs.Meanings.{KeptInference};

    ghost Value = { KeptInference };

    ghost view = { kept_in };

    ghost invariant = { IsInference };
}

/// Whether two geometries are the same, or both are missing.
fn is_same(one: Option<Geometry>, other: Option<Geometry>) -> bool
    ensures { Decides result (one ≡ other) }
{
    match (one, other) {
        (Some(one), Some(other)) => one == other,
        (None, None) => true,
        (Some(_), None) | (None, Some(_)) => false,
    }
}

impl Inference {
    /// That of a volume of `n` blocks of `l` bytes, all zeros.
    pub fn new(alloc: Global, l: u32, n: u32) -> Result<Inference, NoMemory>
        ensures size { IfOk result (λ inference. (inference.l ≡ l) × (inference.n ≡ n)) }
        ensures pending { IfOk result (λ inference. inference.pending ≡ replicate n false) }
        ensures stands { IfOk result (λ inference. StandsFor inference (replicate n (zeros l))) }
    {
        tables_of_volumes();
        let parts = no_parts(alloc, n)?;
        let pending = no_marks(alloc, n)?;
        Ok(Inference {
            l,
            n,
            geometry: None,
            claims: parts.claims,
            kinds: parts.kinds,
            pending,
            free: parts.free,
        })
    }

    /// That of the volume on a view, of which those of some pending blocks are left that the volume doesn't know. There is none where a
    /// block that has to be read is gone. The buffers are for blocks of the view's size.
    pub fn restored<V: View>(
        alloc: Global,
        view: &mut V,
        levels: &mut Levels,
        pending: &[bool],
    ) -> Result<Option<Inference>, NoMemory>
        requires sound { V.is_sound view.old }
        requires levels { levels.old.fragment ≡ V.size view.old }
        requires marks { length pending.now ≡ V.count view.old }
        ensures keeps { Keeps V.View view.old view.new }
        ensures levels { levels.new.fragment ≡ levels.old.fragment }
        ensures size { IfOk result (λ restored. IfSome restored (λ inference.
            (inference.l ≡ V.size view.old) × (inference.n ≡ V.count view.old))) }
        ensures stands { IfOk result (λ restored. IfSome restored (λ inference. (v : Volume)
            → IsKnownWhole V.View view.old view.new v → StandsFor inference v)) }
        ensures pending { IfOk result (λ restored. IfSome restored (λ inference. (v : Volume)
            → AreLeft (IsKnownWhole V.View view.old view.new v) (V.size view.old) (V.count view.old) v pending.now inference.pending)) }
        ensures lost { IfOk result (λ restored. IfNone restored (LosesWhole V.View view.old view.new)) }
        ensures fetched { FetchesWhole V.View view.old view.new }
    {
        tables_of_volumes();
        let (l, n) = view.shape();
        let Some(found) = read_geometry(view, levels) else {
            return Ok(None);
        };
        let geometry = accepted(found);
        let Some(parts) = restored_parts(alloc, view, levels, geometry)? else {
            return Ok(None);
        };
        let marks = left_marks(alloc, pending, &parts.claims, geometry)?;
        Ok(Some(Inference {
            l,
            n,
            geometry,
            claims: parts.claims,
            kinds: parts.kinds,
            pending: marks,
            free: parts.free,
        }))
    }

    /// Makes it that of a volume after a write of one block, where the geometry stays.
    fn keep_by<V: View>(
        &mut self,
        alloc: Global,
        view: &mut V,
        g: &Geometry,
        levels: &mut Levels,
        block: u32,
        bytes: &[u8],
    ) -> Result<Option<Moved>, NoMemory>
        requires sound { V.is_sound view.old }
        requires levels { levels.old.fragment ≡ V.size view.old }
        requires size { self.old.l ≡ V.size view.old }
        requires count { self.old.n ≡ V.count view.old }
        requires known { self.old.geometry ≡ Some g.now }
        requires inside { block < self.old.n }
        requires bytes { length bytes.now ≡ self.old.l }
        ensures keeps { Keeps V.View view.old view.new }
        ensures levels { levels.new.fragment ≡ levels.old.fragment }
        ensures size { (self.new.l ≡ self.old.l) × (self.new.n ≡ self.old.n) }
        ensures stands { IfOk result (λ got. IfSome got (λ moved. (v : Volume)
            → IsWriteTo V.View view.old view.new self.old self.old.geometry block bytes.now v → Follows self.new moved (slice_set v block bytes.now))) }
        ensures pending { self.new.pending ≡ self.old.pending }
        ensures lost { IfOk result (λ got. IfNone got (LosesWrittenTo V.View view.old view.new self.old self.old.geometry block bytes.now)) }
        ensures fetched { FetchesKept V.fetched self.old.geometry block (table_of self.old.claims).claimed
            (IsClaimedBehind V.View view.old view.new self.old self.old.geometry block bytes.now) view.old view.new }
    {
        tables_of_volumes();
        let mut watch = watch_block(alloc, &self.claims, block)?;
        if !move_claims(view, g, levels, &mut self.claims, &mut watch, block, bytes)? {
            return Ok(None);
        }
        move_kinds(&mut self.kinds, g, block, bytes)?;
        if !move_free(alloc, view, g, levels, &mut self.free, block, bytes)? {
            return Ok(None);
        }
        Ok(Some(Moved {
            touched: Some(watch),
        }))
    }

    /// The same, where there may be no geometry.
    fn keep<V: View>(
        &mut self,
        alloc: Global,
        view: &mut V,
        levels: &mut Levels,
        block: u32,
        bytes: &[u8],
    ) -> Result<Option<Moved>, NoMemory>
        requires sound { V.is_sound view.old }
        requires levels { levels.old.fragment ≡ V.size view.old }
        requires size { self.old.l ≡ V.size view.old }
        requires count { self.old.n ≡ V.count view.old }
        requires inside { block < self.old.n }
        requires bytes { length bytes.now ≡ self.old.l }
        ensures keeps { Keeps V.View view.old view.new }
        ensures levels { levels.new.fragment ≡ levels.old.fragment }
        ensures size { (self.new.l ≡ self.old.l) × (self.new.n ≡ self.old.n) }
        ensures stands { IfOk result (λ got. IfSome got (λ moved. (v : Volume)
            → IsWriteTo V.View view.old view.new self.old self.old.geometry block bytes.now v → Follows self.new moved (slice_set v block bytes.now))) }
        ensures pending { self.new.pending ≡ self.old.pending }
        ensures lost { IfOk result (λ got. IfNone got (LosesWrittenTo V.View view.old view.new self.old self.old.geometry block bytes.now)) }
        ensures fetched { FetchesKept V.fetched self.old.geometry block (table_of self.old.claims).claimed
            (IsClaimedBehind V.View view.old view.new self.old self.old.geometry block bytes.now) view.old view.new }
    {
        tables_of_volumes();
        self.claims.claims_inside();
        let Some(g) = self.geometry else {
            return Ok(Some(Moved {
                touched: Some(Watch::new(alloc)),
            }));
        };
        self.keep_by(alloc, view, &g, levels, block, bytes)
    }

    /// Makes it that of a volume that was read anew.
    fn renew(&mut self, parts: Parts, geometry: Option<Geometry>) -> Moved
        requires geometry { (table_of parts.claims).geometry ≡ geometry }
        requires on { IfSome geometry (IsGeometryOn self.old.l self.old.n) }
        requires room { length parts.free.items ≡ self.old.n }
        ensures size { (self.new.l ≡ self.old.l) × (self.new.n ≡ self.old.n) }
        ensures geometry { self.new.geometry ≡ geometry }
        ensures claims { self.new.claims ≡ parts.claims }
        ensures kinds { self.new.kinds ≡ parts.kinds.entries }
        ensures free { self.new.free ≡ parts.free.items }
        ensures pending { self.new.pending ≡ self.old.pending }
        ensures moved { result ≡ None }
    {
        self.geometry = geometry;
        self.claims = parts.claims;
        self.kinds = parts.kinds;
        self.free = parts.free;
        Moved { touched: None }
    }

    /// Makes it that of a volume after a write of one block that gave it this geometry, or left it without one.
    fn follow<V: View>(
        &mut self,
        alloc: Global,
        view: &mut V,
        levels: &mut Levels,
        geometry: Option<Geometry>,
        block: u32,
        bytes: &[u8],
    ) -> Result<Option<Moved>, NoMemory>
        requires sound { V.is_sound view.old }
        requires levels { levels.old.fragment ≡ V.size view.old }
        requires size { self.old.l ≡ V.size view.old }
        requires count { self.old.n ≡ V.count view.old }
        requires on { IfSome geometry (IsGeometryOn self.old.l self.old.n) }
        requires inside { block < self.old.n }
        requires bytes { length bytes.now ≡ self.old.l }
        ensures keeps { Keeps V.View view.old view.new }
        ensures levels { levels.new.fragment ≡ levels.old.fragment }
        ensures size { (self.new.l ≡ self.old.l) × (self.new.n ≡ self.old.n) }
        ensures stands { IfOk result (λ got. IfSome got (λ moved. (v : Volume)
            → IsWriteTo V.View view.old view.new self.old geometry block bytes.now v → Follows self.new moved (slice_set v block bytes.now))) }
        ensures pending { self.new.pending ≡ self.old.pending }
        ensures lost { IfOk result (λ got. IfNone got (LosesWrittenTo V.View view.old view.new self.old geometry block bytes.now)) }
        ensures fetched { FetchesFollowing V.fetched self.old.geometry geometry block (table_of self.old.claims).claimed
            (IsClaimedBehind V.View view.old view.new self.old geometry block bytes.now) view.old view.new }
    {
        tables_of_volumes();
        if is_same(self.geometry, geometry) {
            return self.keep(alloc, view, levels, block, bytes);
        }
        let Some(g) = geometry else {
            let parts = no_parts(alloc, self.n)?;
            return Ok(Some(self.renew(parts, None)));
        };
        match read_parts(alloc, view, &g, levels, block, bytes)? {
            Some(parts) => Ok(Some(self.renew(parts, geometry))),
            None => Ok(None),
        }
    }

    /// Makes it, but for its marks of pending blocks, that of the volume after a write of a block, whose bytes are `new` now. The view has
    /// the blocks after the write, and the buffers are for blocks of its size. The marks stay as they were. After want of memory it is of no
    /// use any more, and after [`Inferred::Gone`] but for its marks.
    pub fn written<V: View>(
        &mut self,
        alloc: Global,
        view: &mut V,
        levels: &mut Levels,
        block: u32,
        new: &[u8],
    ) -> Result<Inferred, NoMemory>
        requires sound { V.is_sound view.old }
        requires levels { levels.old.fragment ≡ V.size view.old }
        requires size { self.old.l ≡ V.size view.old }
        requires count { self.old.n ≡ V.count view.old }
        requires inside { block < self.old.n }
        requires bytes { length new.now ≡ self.old.l }
        ensures keeps { Keeps V.View view.old view.new }
        ensures levels { levels.new.fragment ≡ levels.old.fragment }
        ensures size { (self.new.l ≡ self.old.l) × (self.new.n ≡ self.old.n) }
        ensures pending { self.new.pending ≡ self.old.pending }
        ensures stands { IfOk result (λ inferred. (moved : Option (List Touch)) → inferred ≡ Inferred.Known moved → (v : Volume)
            → IsKnownWrite V.View view.old view.new self.old block new.now v → Follows self.new moved (slice_set v block new.now)) }
        ensures gone { IfOk result (λ inferred. inferred ≡ Inferred.Gone → LosesWritten V.View view.old view.new self.old block new.now) }
        ensures fetched { IfOk result (λ inferred. (moved : Option (List Touch)) → inferred ≡ Inferred.Known moved → (v : Volume)
            → FetchesReread V.View view.old view.new (IsKnownWrite V.View view.old view.new self.old block new.now v) self.old.l self.old.n
            v (slice_set v block new.now) block) }
        ensures reread { (v : Volume)
            → FetchesReread V.View view.old view.new (IsKnownWrite V.View view.old view.new self.old block new.now v) self.old.l self.old.n
            v (slice_set v block new.now) block }
    {
        if !is_in_superblock(levels.fragment_bytes(), block) {
            return Ok(outcome(self.keep(alloc, view, levels, block, new)?));
        }
        match read_superblock(alloc, view, levels, block, new)? {
            Some(found) => {
                let got = self.follow(alloc, view, levels, accepted(found), block, new)?;
                Ok(outcome(got))
            }
            None => Ok(Inferred::Gone),
        }
    }

    /// Moves the marks of pending blocks after a write of a block, by what the write touched. All else stays.
    pub fn mark(&mut self, block: u32, moved: &Moved)
        requires inside { block < self.old.n }
        ensures stays { self.new ≡ with_pending self.old self.new.pending }
        ensures stands { (w : Volume) → Follows self.old moved.now w → StandsFor self.new w }
        ensures pending { (w : Volume)
            → AreLeft (Follows self.old moved.now w) self.old.l self.old.n w (with_mark self.old.pending block) self.new.pending }
    {
        match &moved.touched {
            Some(watch) => {
                let own = is_system(self.geometry, block);
                move_pending(&mut self.pending, &self.claims, watch, block, own);
            }
            None => mark_anew(&mut self.pending, &self.claims, self.geometry, block),
        }
    }

    /// A mark for each block that is pending, of an inference that is given up.
    pub fn into_marks(self) -> Vec<bool>
        ensures marks { result.items ≡ self.pending }
        ensures room { length result.items ≡ self.n }
    {
        let Inference { pending, .. } = self;
        pending
    }
}

/// The geometry, where the superblock isn't refused.
fn accepted(found: Result<Geometry, BadSuper>) -> Option<Geometry>
    ensures value { result ≡ accepted found }
    ensures on { (l n : ℕ) → IfOk found (IsGeometryOn l n) → IfSome result (IsGeometryOn l n) }
{
    match found {
        Ok(g) => Some(g),
        Err(_) => None,
    }
}

/// What became of an inference, by what was touched where each block that had to be read could be.
fn outcome(got: Option<Moved>) -> Inferred
    ensures known { (moved : Option (List Touch)) → result ≡ Inferred.Known moved → got ≡ Some moved }
    ensures gone { result ≡ Inferred.Gone → got ≡ None }
{
    match got {
        Some(moved) => Inferred::Known(moved),
        None => Inferred::Gone,
    }
}
