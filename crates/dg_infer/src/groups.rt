ghost use Rattle.std.specs.Prelude.{◌≡◌, ◌⊎◌, ◌+◌, ◌/◌, ◌%◌, ◌<◌, ◌≤◌, ℕ, IfNone, IfOk, IfSome, length, true, false};
ghost use Rattle.dg_io.specs.ViewWords.{Keeps};
ghost use Rattle.dg_model.specs.Marks.{is_marked};
ghost use Rattle.ufs_model.specs.Geometries.{IsGeometry, IsGeometryOn, cgbase, end_of};
ghost use Rattle.ufs_model.specs.GroupMaps.{by_maps, group_in, is_free};
ghost use Rattle.ufs_model.specs.Metadata.{IsMetadataBy};
ghost use Rattle.ufs_pointer.specs.ViewWords.{LosesKind};
ghost use Rattle.dg_infer.specs.Areas.{IsGroupRest, IsInGroupBlock};
ghost use Rattle.dg_infer.specs.AtHand.{OnWrites};
ghost use Rattle.dg_infer.specs.Fetched.{FetchesOnce};
ghost use Rattle.dg_infer.specs.Meanings.{free_by};

use crate::areas::read_rest;
use crate::pending::set_mark;
use dg_claims::Geometry;
use dg_io::{NoMemory, View};
use std::alloc::Global;
use ufs_group::{group_block, is_free, read_group};
use ufs_pointer::Levels;
use ufs_super::{cgbase, end_of, group_of};

/// Fragment `f` is marked free by the map of its group, whose block has the bytes. Where that is refused, it isn't.
#[tactic(auto, unfolding(ufs_model::specs::Geometries::end_of, ufs_model::specs::Geometries::cgbase))]
fn is_marked_free(g: &Geometry, f: u32, bytes: &[u8]) -> bool
    requires geometry { IsGeometry g.now }
    requires inside { f < g.now.size }
    requires bytes { g.now.bsize ≤ length bytes.now }
    ensures { result ≡ by_maps (group_in g.now (f / g.now.fpg) bytes.now) (λ group. is_free bytes.now group (f % g.now.fpg)) }
{
    match read_group(bytes, g, group_of(g, f)) {
        Ok(group) => is_free(bytes, &group, f % g.fpg),
        Err(_) => false,
    }
}

/// Sets the marks of the free fragments of a group, by its block's bytes.
pub fn mark_group(free: &mut [bool], g: &Geometry, c: u32, bytes: &[u8])
    requires geometry { IsGeometry g.now }
    requires group { c < g.now.ncg }
    requires bytes { g.now.bsize ≤ length bytes.now }
    requires room { g.now.size ≤ length free.old }
    ensures room { length free.new ≡ length free.old }
    ensures inside { (f : ℕ) → cgbase g.now c ≤ f → f < end_of g.now c
        → is_marked free.new f ≡ by_maps (group_in g.now (f / g.now.fpg) bytes.now) (λ group. is_free bytes.now group (f % g.now.fpg)) }
    ensures others { (f : ℕ) → ((f < cgbase g.now c) ⊎ (end_of g.now c ≤ f)) → is_marked free.new f ≡ is_marked free.old f }
{
    let first = cgbase(g, c);
    let end = end_of(g, c);
    for f in first..end {
        set_mark(free, f, is_marked_free(g, f, bytes));
    }
}

/// The group whose group block a block is part of, if there is one.
pub fn group_with(g: &Geometry, block: u32) -> Option<u32>
    requires geometry { IsGeometry g.now }
    ensures within { IfSome result (λ c. c < g.now.ncg) }
    ensures inside { IfSome result (λ c. IsInGroupBlock g.now c block) }
    ensures none { IfNone result ((c : ℕ) → c < g.now.ncg → IsInGroupBlock g.now c block → ⊥) }
{
    if g.size <= block {
        return None;
    }
    let c = group_of(g, block);
    let first = group_block(g, c);
    if block < first {
        return None;
    }
    if first + g.frag <= block {
        return None;
    }
    Some(c)
}

/// The marks of free fragments after a write of one block, which is at hand, where the geometry stays. It answers whether the rest
/// of the group block that the block is part of could be read, where it is part of one.
pub fn move_free<V: View>(
    alloc: Global,
    view: &mut V,
    g: &Geometry,
    levels: &mut Levels,
    free: &mut [bool],
    block: u32,
    bytes: &[u8],
) -> Result<bool, NoMemory>
    requires sound { V.is_sound view.old }
    requires geometry { IsGeometryOn (V.size view.old) (V.count view.old) g.now }
    requires levels { levels.old.fragment ≡ V.size view.old }
    requires bytes { length bytes.now ≡ V.size view.old }
    requires room { g.now.size ≤ length free.old }
    ensures keeps { Keeps V.View view.old view.new }
    ensures levels { levels.new.fragment ≡ levels.old.fragment }
    ensures room { length free.new ≡ length free.old }
    ensures marks { IfOk result (λ got. got ≡ true → OnWrites V.View view.old view.new block bytes.now (λ v w.
        ((f : ℕ) → is_marked free.old f ≡ free_by g.now v f) → (f : ℕ) → is_marked free.new f ≡ free_by g.now w f)) }
    ensures lost { IfOk result (λ got. got ≡ false → LosesKind V.View view.old view.new (IsMetadataBy g.now)) }
    ensures fetched { FetchesOnce V.fetched (IsGroupRest g.now block) view.old view.new }
{
    let Some(c) = group_with(g, block) else {
        return Ok(true);
    };
    let first = group_block(g, c);
    match read_rest(alloc, view, levels, first, g.frag, block, bytes)? {
        Some(area) => {
            mark_group(free, g, c, &area);
            Ok(true)
        }
        None => Ok(false),
    }
}
