// Which file blocks are reached through the pointers of indirect blocks (`NINDIR` in `fs.h`).
ghost use Rattle.std.specs.Prelude.{◌≡◌, ◌+◌, ◌-◌, ◌*◌, ◌/◌, ◌^◌, ◌<◌, ◌≤◌, ℕ, Some, IfNone, IfSome};
ghost use Rattle.std.specs.Bool.{Decides};
ghost use Rattle.ufs_model.specs.Blocks.{Volume};
ghost use Rattle.ufs_model.specs.Claims.{level_of};
ghost use Rattle.ufs_model.specs.declared.claims.ClaimSource.{ClaimSource};
ghost use Rattle.ufs_model.specs.Geometries.{IsGeometry};
ghost use Rattle.dg_claims.specs.Kept.{table_of};
ghost use Rattle.dg_claims.specs.Tables.{IsSource, TableClaims};
ghost use Rattle.ufs_check.specs.Fragments.{HasClaimsOf};
ghost use Rattle.ufs_check.specs.Reaches.{IsInRow, IsPlaceIn, IsReach, ReachesAs};

use crate::slots::first_block;
use dg_claims::{ClaimSource, Claims};
use ufs_model::Geometry;

/// Bytes of a pointer (`daddr_t`).
pub const POINTER_BYTES: u32 = 4;

/// What is reached through the pointers of a fragment of an indirect block.
#[derive(Clone, Copy, Debug, PartialEq, Eq)]
pub struct Reach {
    /// The level of the indirect block, 1 to 3.
    pub level: u8,
    /// The inode.
    pub inode: u32,
    /// The file block that is reached through the fragment's first pointer.
    pub first: u64,
}

/// The place of a fragment among those that a source claims.
fn place_in(claims: &Claims, source: ClaimSource, f: u32) -> u32
    requires claimed { TableClaims (table_of claims.now) f source }
    ensures place { IsPlaceIn ((table_of claims.now).claimed source) f result }
    ensures row { IsInRow ((table_of claims.now).claimed source) }
    ensures few { result < 8 }
{
    match claims.run(&source) {
        Some(run) => f - run.first,
        None => unreachable!(),
    }
}

/// File blocks from one pointer of an indirect block to the next.
pub fn width(g: &Geometry, level: u8) -> u64
    requires geometry { IsGeometry g.now }
    requires low { 1 ≤ level }
    requires high { level ≤ 3 }
    ensures value { result ≡ g.now.nindir ^ (level - 1) }
    ensures most { result ≤ 2 ^ 28 }
{
    let pointers = u64::from(g.nindir);
    match level {
        1 => 1,
        2 => pointers,
        _ => pointers * pointers,
    }
}

/// File blocks that are reached through an indirect block before a pointer: number `at` in the fragment
/// number `place`.
fn blocks_before(g: &Geometry, level: u8, place: u32, at: u32) -> u64
    requires geometry { IsGeometry g.now }
    requires low { 1 ≤ level }
    requires high { level ≤ 3 }
    requires place { place < 8 }
    requires index { at < g.now.fsize / 4 }
    ensures value { result ≡ (place * (g.now.fsize / 4) + at) * g.now.nindir ^ (level - 1) }
    ensures most { result ≤ 2 ^ 46 }
{
    let number = place * (g.fsize / POINTER_BYTES) + at;
    u64::from(number) * width(g, level)
}

/// The inode that owns a source, and the first file block that is reached through it. There is no answer
/// where a fragment on the way up has no claim at its level, or more than one claim.
fn first_through(claims: &Claims, g: &Geometry, source: ClaimSource) -> Option<(u32, u64)>
    requires geometry { IsGeometry g.now }
    requires table { (table_of claims.now).geometry ≡ Some g.now }
    requires source { IsSource (Some g.now) source }
    ensures reaches { (v : Volume) → HasClaimsOf g.now (table_of claims.now) v → ReachesAs g.now v source result }
    ensures inode { IfSome result (λ first. (2 ≤ first.0) × (first.0 < g.now.ncg * g.now.ipg)) }
    ensures most { IfSome result (λ first. first.1 + level_of source * 2 ^ 46 ≤ 2 ^ 48) }
{
    match source {
        ClaimSource::Slot { inode, slot } => Some((inode, first_block(g, slot))),
        ClaimSource::Pointer {
            fragment,
            level,
            at,
        } => {
            let upper = claims.only_claim(fragment)?;
            if upper.level() != level {
                return None;
            }
            let place = place_in(claims, upper, fragment);
            let (inode, first) = first_through(claims, g, upper)?;
            Some((inode, first + blocks_before(g, level, place, at)))
        }
    }
}

/// What is reached through the pointers of a fragment of an indirect block. There is no answer where the
/// fragment, or one on the way up, has no claim at its level, or more than one claim.
pub fn reach_of(claims: &Claims, g: &Geometry, f: u32) -> Option<Reach>
    requires geometry { IsGeometry g.now }
    requires table { (table_of claims.now).geometry ≡ Some g.now }
    ensures reaches { (v : Volume) → HasClaimsOf g.now (table_of claims.now) v → IsReach g.now v f result }
    ensures level { IfSome result (λ reach. (1 ≤ reach.level) × (reach.level ≤ 3)) }
    ensures inode { IfSome result (λ reach. (2 ≤ reach.inode) × (reach.inode < g.now.ncg * g.now.ipg)) }
    ensures most { IfSome result (λ reach. reach.first ≤ 2 ^ 48) }
{
    let source = claims.only_claim(f)?;
    let level = source.level();
    if level == 0 {
        return None;
    }
    let first_pointer = ClaimSource::Pointer {
        fragment: f,
        level,
        at: 0,
    };
    let (inode, first) = first_through(claims, g, first_pointer)?;
    Some(Reach {
        level,
        inode,
        first,
    })
}
