// What a block belongs to, by an inference.
ghost use Rattle.std.specs.Prelude.{◌≡◌, ◌<◌, ◌≤◌, ℕ, IfNone, IfSome, Some, false, length, slice_set, true};
ghost use Rattle.std.specs.Bool.{Decides};
ghost use Rattle.dg_model.specs.Blocks.{zeros};
ghost use Rattle.dg_model.specs.Marks.{IsDead, IsPlain, IsSpecial, IsVerdict, is_marked};
ghost use Rattle.dg_model.specs.Tables.{Table};
ghost use Rattle.dg_model.specs.Wants.{IsWant};
ghost use Rattle.dg_model.specs.declared.wants.Want.TheVariants.{Stray};
ghost use Rattle.ufs_model.specs.Blocks.{Volume};
ghost use Rattle.ufs_model.specs.Geometries.{IsGeometry};
ghost use Rattle.ufs_model.specs.declared.inodes.Kind.TheVariants.{Regular};
ghost use Rattle.dg_infer.specs.Fits.{FitsTable};
ghost use Rattle.dg_infer.specs.Known.{IsDataBy, role_by, verdict_by};
ghost use Rattle.dg_infer.specs.Meanings.{StandsFor, kind_at};
ghost use Rattle.dg_infer.specs.Wants.{IsWantBy};

use crate::chains::{Chain, chain_of};
use crate::inferences::Inference;
use crate::pending::{is_claimed, is_system};
use dg_claims::{Claims, Geometry, tables_of_volumes};
use dg_model::{Want, Who};
use std::collections::BTreeMap;
use ufs_frames::{needed_blocks_are_used, same_metadata};
use ufs_model::{Kind, Role};
use ufs_super::role;

/// The highest level of an indirect block (`NIADDR`).
const HIGHEST: u8 = 3;

/// Whether a block has a mark.
fn is_marked(marks: &[bool], block: u32) -> bool
    requires { block < length marks.now }
    ensures { result ≡ is_marked marks.now block }
{
    marks[block as usize]
}

/// The role of a block. It has none without a geometry.
fn role_of(geometry: Option<Geometry>, block: u32) -> Option<Role>
    requires { IfSome geometry IsGeometry }
    ensures { result ≡ role_by geometry block }
{
    match geometry {
        Some(g) => Some(role(&g, block)),
        None => None,
    }
}

/// What is told of a block of the file system itself, or of one outside of the volume.
fn own_verdict(geometry: Option<Geometry>, block: u32) -> Option<Who>
    requires { IfSome geometry IsGeometry }
    ensures { result ≡ verdict_by geometry block }
{
    match role_of(geometry, block) {
        Some(Role::System(kind)) => Some(Who::System(kind)),
        Some(Role::Outside) => Some(Who::Outside),
        Some(Role::Data(_)) | None => None,
    }
}

/// Whether an inode is kept as a regular file.
pub fn is_regular(kinds: &BTreeMap<u32, Kind>, inode: u32) -> bool
    ensures { Decides result (kind_at kinds.now.entries inode ≡ Some Regular) }
{
    match kinds.get(&inode) {
        Some(kind) => *kind == Kind::Regular,
        None => false,
    }
}

/// Whether a block is data of a group. None is without a geometry.
fn is_data(geometry: Option<Geometry>, block: u32) -> bool
    requires { IfSome geometry IsGeometry }
    ensures { Decides result (IsDataBy geometry block) }
{
    match role_of(geometry, block) {
        Some(Role::Data(_)) => true,
        Some(Role::System(_) | Role::Outside) | None => false,
    }
}

impl Inference {
    /// The claims.
    pub fn claims(&self) -> &Claims
        ensures { result.now ≡ self.now.claims }
    {
        &self.claims
    }

    /// Whether a block is dead, which is written or isn't.
    pub fn dead(&self, written: bool, block: u32) -> bool
        requires { block < self.now.n }
        ensures is { (table : Table) (v : Volume) → FitsTable self.now table block written → StandsFor self.now v
            → Decides result (IsDead table v self.now.pending block) }
        ensures mark { result ≡ true → is_marked self.now.pending block ≡ false }
        ensures stray { result ≡ true → IsWantBy self.now block Stray }
    {
        if !written {
            return false;
        }
        if is_marked(&self.pending, block) {
            return false;
        }
        if is_claimed(&self.claims, block) {
            return false;
        }
        if !is_marked(&self.free, block) {
            return false;
        }
        is_data(self.geometry, block)
    }

    /// What is told of a block that nothing claims, and that is neither one of the file system itself nor outside of the volume.
    fn unclaimed(&self, written: bool, block: u32) -> Who
        requires { block < self.now.n }
        ensures { (table : Table) (v : Volume) → FitsTable self.now table block written → StandsFor self.now v → IsPlain table v block
            → IsVerdict table v self.now.pending block result }
    {
        if is_marked(&self.pending, block) {
            return Who::Pending;
        }
        if self.dead(written, block) {
            return Who::Dead;
        }
        Who::Idle
    }

    /// What a block belongs to that is neither one of the file system itself nor outside of the volume.
    fn claimant(&self, written: bool, block: u32) -> Who
        requires { block < self.now.n }
        ensures { (table : Table) (v : Volume) → FitsTable self.now table block written → StandsFor self.now v
            → (IsSpecial table.shape.l table.shape.n v block → ⊥) → IsVerdict table v self.now.pending block result }
    {
        tables_of_volumes();
        match chain_of(&self.claims, block, HIGHEST) {
            Chain::Owned(inode, level) => Who::Inode(inode, level),
            Chain::Shared(count) => Who::Shared(count),
            Chain::Unclaimed => self.unclaimed(written, block),
        }
    }

    /// What a block belongs to, which is written or isn't.
    pub fn who(&self, written: bool, block: u32) -> Who
        requires { block < self.now.n }
        ensures { (table : Table) (v : Volume) → FitsTable self.now table block written → StandsFor self.now v
            → IsVerdict table v self.now.pending block result }
    {
        match own_verdict(self.geometry, block) {
            Some(own) => own,
            None => self.claimant(written, block),
        }
    }

    /// The first pending block from one on.
    pub fn next_pending(&self, from: u32) -> Option<u32>
        ensures some { IfSome result (λ b. (from ≤ b) × (is_marked self.now.pending b ≡ true)) }
        ensures first { IfSome result (λ b. (c : ℕ) → from ≤ c → c < b → is_marked self.now.pending c ≡ false) }
        ensures none { IfNone result ((c : ℕ) → from ≤ c → is_marked self.now.pending c ≡ false) }
    {
        for block in from..self.n {
            if is_marked(&self.pending, block) {
                return Some(block);
            }
        }
        None
    }

    /// What a block is to the plan.
    pub fn want(&self, block: u32) -> Want
        ensures is { (v : Volume) → StandsFor self.now v → IsWant self.now.l self.now.n v block result }
        ensures by { IsWantBy self.now block result }
    {
        if is_system(self.geometry, block) {
            return Want::Kept;
        }
        let Some((inode, _)) = self.claims.owner(block) else {
            return Want::Stray;
        };
        if is_regular(&self.kinds, inode) {
            return Want::File(inode);
        }
        Want::Kept
    }

    /// A dead block became one of zeros: nothing that is kept changes.
    pub fn reaped(&mut self, block: u32)
        ensures same { self.new ≡ self.old }
        ensures stands { (table : Table) (v : Volume) → FitsTable self.old table block true → StandsFor self.old v
            → IsDead table v self.old.pending block → StandsFor self.new (slice_set v block (zeros self.old.l)) }
    {
        needed_blocks_are_used();
        same_metadata();
        let _geometry = self.geometry;
    }
}
