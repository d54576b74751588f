ghost use Rattle.std.specs.Prelude.{◌≡◌, ◌+◌, ◌*◌, ◌/◌, ◌<◌, ◌≤◌, ◌^◌, ◌↔◌, ℕ, Some, None, [], ◌∷◌, ◌++◌, if◌then◌else◌, IfNone, IfOk, IfSome, List, MatchResult, OnOk, length, true, false};
ghost use Rattle.std.specs.Bool.{Decides};
ghost use Rattle.std.specs.List.{Contains};
ghost use Rattle.ufs_model.specs.Claims.{AreClaimsOn, HasClaimCount, IsClaimedAt, level_of};
ghost use Rattle.ufs_model.specs.Geometries.{IsGeometry};
ghost use Rattle.ufs_model.specs.Inodes.{is_inode_number};
ghost use Rattle.ufs_model.specs.Owners.{IsOnlyClaim};
ghost use Rattle.ufs_model.specs.declared.claims.ClaimSource.{ClaimSource};
ghost use Rattle.ufs_model.specs.declared.geometries.Geometry.{Geometry};
ghost use Rattle.dg_claims.specs.Kept.{HasNone, HasSources, IsRun, IsPlace, SetsFirst, size_in, table_of};
ghost use Rattle.dg_claims.specs.Marks.{AddsMarks, IsMarks, SameSources, Unmarks, marked_on};
ghost use Rattle.dg_claims.specs.Runs.{run_at, run_fragments};
ghost use Rattle.dg_claims.specs.Places.{place_of, pointer_place, slot_place};
ghost use Rattle.dg_claims.specs.Tables.{IsSource, KeepsOffInode, KeepsOffPointers, TableClaims, claim_at, fragment_pointers, inode_fragments};
ghost use Rattle.dg_claims.specs.declared.places.Place.{Place};

use crate::marks::Marks;
use crate::places::{Place, place_of, source_of};
use crate::runs::{Run, Runs};
use crate::spans::{pointer_run, slot_run};
use dg_io::NoMemory;
use std::alloc::Global;
use std::marker::Model;
use ufs_model::{ClaimSource, Geometry, Inode, ROOT_INODE};

/// Slots of an inode (`NDADDR`, `NIADDR`).
const SLOTS: u8 = 15;

/// Bytes of a pointer (`daddr_t`).
const POINTER_BYTES: u32 = 4;

/// The claims of a volume: what each slot and each pointer claims.
#[derive(Drop)]
pub struct Claims {
    geometry: Option<Geometry>,
    runs: Runs,
    marks: Marks,
}

impl Model for Claims {
    ghost use Rattle.dg_claims.specs.Kept.{IsKept, KeptClaims, kept_of};

    ghost Value = { KeptClaims };

    ghost view = { kept_of };

    ghost invariant = { IsKept };
}

/// The fragments of a volume.
fn size_in(g: Option<Geometry>) -> u32
    ensures { result ≡ size_in g }
{
    match g {
        Some(g) => g.size,
        None => 0,
    }
}

impl Claims {
    /// No source claims anything. It takes the memory for one claim of each fragment.
    #[tactic(auto, unfolding(crate::specs::Kept::claimed_by))]
    pub fn new(alloc: Global, g: Option<Geometry>) -> Result<Claims, NoMemory>
        requires { IfSome g IsGeometry }
        ensures geometry { IfOk result (λ claims. (table_of claims).geometry ≡ g) }
        ensures none { IfOk result (λ claims. (source : ClaimSource) → (table_of claims).claimed source ≡ []) }
    {
        let marks = Marks::new(alloc, size_in(g))?;
        Ok(Claims {
            geometry: g,
            runs: Runs::new(alloc),
            marks,
        })
    }

    /// The geometry.
    pub fn geometry(&self) -> Option<Geometry>
        ensures value { result ≡ (table_of self.now).geometry }
        ensures geometry { IfSome result IsGeometry }
    {
        self.geometry
    }

    /// The geometry. Each source that claims anything is one of the volume.
    fn known(&self) -> Option<Geometry>
        ensures value { result ≡ self.now.geometry }
        ensures geometry { IfSome result IsGeometry }
        ensures sources { HasSources self.now }
    {
        self.geometry
    }

    /// The geometry, where the inode is one from 2 to the last.
    fn geometry_with(&self, number: u32) -> Option<Geometry>
        ensures value { IfSome result (λ g. self.now.geometry ≡ Some g) }
        ensures geometry { IfSome result IsGeometry }
        ensures number { IfSome result (λ g. is_inode_number g number ≡ true) }
        ensures none { IfNone result ((g : Geometry) → self.now.geometry ≡ Some g → is_inode_number g number ≡ false) }
        ensures sources { HasSources self.now }
    {
        let g = self.known()?;
        if number < ROOT_INODE || g.ncg * g.ipg <= number {
            return None;
        }
        Some(g)
    }

    /// The slots of an inode claim what the inode says, and nothing that they claimed before. A number below 2 or past the
    /// last one is no inode's: its slots claim nothing.
    #[tactic(auto, using(crate::proofs::SourceLaws::no_inode, crate::proofs::SourceLaws::other_slots, crate::proofs::SourceLaws::all_slots))]
    pub fn of_inode(&mut self, number: u32, inode: &Inode) -> Result<(), NoMemory>
        ensures geometry { (table_of self.new).geometry ≡ (table_of self.old).geometry }
        ensures slots { OnOk result ((slot : ℕ) → (table_of self.new).claimed (ClaimSource.Slot number slot)
            ≡ inode_fragments (table_of self.old).geometry number inode.now slot) }
        ensures others { KeepsOffInode (table_of self.old) (table_of self.new) number }
    {
        let Some(g) = self.geometry_with(number) else {
            return Ok(());
        };
        self.clear_slots(number);
        for slot in 0..SLOTS {
            let place = Place::Slot {
                inode: number,
                slot,
            };
            self.set(place, slot_run(&g, inode, slot))?;
        }
        Ok(())
    }

    /// The pointers of a fragment that has a claim at a level, 1 to 3, claim what its bytes say, and nothing that they claimed
    /// before.
    #[tactic(auto, using(crate::proofs::SourceLaws::no_pointer, crate::proofs::SourceLaws::other_pointers, crate::proofs::SourceLaws::all_pointers))]
    pub fn of_pointers(&mut self, fragment: u32, level: u8, bytes: &[u8]) -> Result<(), NoMemory>
        requires low { 1 ≤ level }
        requires high { level ≤ 3 }
        requires bytes { IfSome (table_of self.old).geometry (λ g. length bytes.now ≡ g.fsize) }
        ensures geometry { (table_of self.new).geometry ≡ (table_of self.old).geometry }
        ensures pointers { OnOk result ((at : ℕ) → (table_of self.new).claimed (ClaimSource.Pointer fragment level at)
            ≡ fragment_pointers (table_of self.old).geometry bytes.now at) }
        ensures others { KeepsOffPointers (table_of self.old) (table_of self.new) fragment level }
    {
        let Some(g) = self.known() else {
            return Ok(());
        };
        self.clear_pointers(&g, fragment, level);
        for at in 0..g.fsize / POINTER_BYTES {
            let place = Place::Pointer {
                fragment,
                level,
                at: at as u16,
            };
            self.set(place, pointer_run(&g, bytes, at))?;
        }
        Ok(())
    }

    /// The source as the table keeps it. There is none without a geometry, and none where the source has a number too large for
    /// one that claims anything.
    #[tactic(auto, using(crate::proofs::SourceLaws::large_source))]
    fn place_in(&self, source: ClaimSource) -> Option<Place>
        ensures place { IfSome result (λ place. place ≡ place_of source) }
        ensures none { IfNone result ((table_of self.now).claimed source ≡ []) }
    {
        self.known()?;
        place_of(source)
    }

    /// The source claims nothing from now on.
    pub fn remove_source(&mut self, source: &ClaimSource)
        ensures geometry { (table_of self.new).geometry ≡ (table_of self.old).geometry }
        ensures removed { (table_of self.new).claimed source.now ≡ [] }
        ensures others { (other : ClaimSource) → (other ≡ source.now → ⊥) → (table_of self.new).claimed other ≡ (table_of self.old).claimed other }
    {
        if let Some(place) = self.place_in(*source) {
            self.clear(place);
        }
    }

    /// The slots of an inode claim nothing from now on.
    #[tactic(auto, using(crate::proofs::SourceLaws::other_slots, crate::proofs::SourceLaws::removed_slots))]
    pub fn remove_inode(&mut self, number: u32)
        ensures geometry { (table_of self.new).geometry ≡ (table_of self.old).geometry }
        ensures slots { (slot : ℕ) → (table_of self.new).claimed (ClaimSource.Slot number slot) ≡ [] }
        ensures others { KeepsOffInode (table_of self.old) (table_of self.new) number }
    {
        self.known();
        self.clear_slots(number);
    }

    /// The pointers of a fragment at a level claim nothing from now on.
    #[tactic(auto, using(crate::proofs::SourceLaws::bare_pointer, crate::proofs::SourceLaws::other_pointers, crate::proofs::SourceLaws::removed_pointers))]
    pub fn remove_pointers(&mut self, fragment: u32, level: u8)
        ensures geometry { (table_of self.new).geometry ≡ (table_of self.old).geometry }
        ensures pointers { (at : ℕ) → (table_of self.new).claimed (ClaimSource.Pointer fragment level at) ≡ [] }
        ensures others { KeepsOffPointers (table_of self.old) (table_of self.new) fragment level }
    {
        let Some(g) = self.known() else {
            return;
        };
        self.clear_pointers(&g, fragment, level);
    }

    /// The fragments that a source claims, if it claims some.
    pub fn run(&self, source: &ClaimSource) -> Option<Run>
        ensures value { run_fragments result ≡ (table_of self.now).claimed source.now }
        ensures run { IfSome result (IsRun (size_in (table_of self.now).geometry)) }
    {
        let place = self.place_in(*source)?;
        self.runs.get(place)
    }

    /// How many sources claim the fragment.
    pub fn claims_on(&self, fragment: u32) -> u32
        ensures { HasClaimCount (TableClaims (table_of self.now)) fragment result }
    {
        self.marks.count(fragment)
    }

    /// One of the claims on the fragment in their order, by its number from 0 on: its level, and the source. The cost grows with
    /// the number.
    pub fn claim(&self, fragment: u32, i: u32) -> Option<(u8, ClaimSource)>
        ensures listed { (count : ℕ) × HasClaimCount (TableClaims (table_of self.now)) fragment count }
        ensures claim { (sources : List ClaimSource) → AreClaimsOn (TableClaims (table_of self.now)) fragment sources → result ≡ claim_at sources i }
    {
        let source = source_of(self.marks.nth(fragment, i)?);
        Some((source.level(), source))
    }

    /// The source of a fragment that has one claim.
    pub fn only_claim(&self, fragment: u32) -> Option<ClaimSource>
        ensures only { IfSome result (IsOnlyClaim (TableClaims (table_of self.now)) fragment) }
        ensures none { IfNone result ((source : ClaimSource) → IsOnlyClaim (TableClaims (table_of self.now)) fragment source → ⊥) }
        ensures source { IfSome result (IsSource (table_of self.now).geometry) }
    {
        match self.marks.only(fragment) {
            Some(place) => Some(source_of(place)),
            None => None,
        }
    }

    /// Whether a source claims the fragment at the level.
    pub fn has_level(&self, fragment: u32, level: u8) -> bool
        ensures { Decides result (IsClaimedAt (TableClaims (table_of self.now)) level fragment) }
    {
        self.marks.has_level(fragment, level)
    }

    /// What is claimed is inside the volume, and claimed at a level of 0 to 3 by a source of the volume.
    pub fn claims_inside(&self)
        ensures inside { (fragment : ℕ) (source : ClaimSource) → TableClaims (table_of self.now) fragment source
            → fragment < size_in (table_of self.now).geometry }
        ensures levels { (fragment : ℕ) (source : ClaimSource) → TableClaims (table_of self.now) fragment source
            → level_of source ≤ 3 }
        ensures sources { (fragment : ℕ) (source : ClaimSource) → TableClaims (table_of self.now) fragment source
            → IsSource (table_of self.now).geometry source }
    {
        let _geometry = self.geometry;
    }

    /// The fragments with a claim at the level, each once, ascending.
    pub(crate) fn fragments_at(&self, alloc: Global, level: u8) -> Result<Vec<u32>, NoMemory>
        ensures claimed { IfOk result (λ fragments. (fragment : ℕ) → Contains fragments.items fragment
            ↔ IsClaimedAt (TableClaims (table_of self.now)) level fragment) }
        ensures inside { IfOk result (λ fragments. (fragment : ℕ) → Contains fragments.items fragment → fragment < size_in self.now.geometry) }
    {
        let mut fragments = Vec::new(alloc);
        for fragment in 0..size_in(self.geometry) {
            push_if(
                &mut fragments,
                fragment,
                self.marks.has_level(fragment, level),
            )?;
        }
        Ok(fragments)
    }

    /// Makes this run what the source claims, which claimed nothing.
    fn put(&mut self, place: Place, run: Run) -> Result<(), NoMemory>
        requires place { IsPlace self.old.geometry place }
        requires run { IsRun (size_in self.old.geometry) run }
        requires none { run_at self.old.runs place ≡ None }
        ensures geometry { self.new.geometry ≡ self.old.geometry }
        ensures put { OnOk result (run_at self.new.runs place ≡ Some run) }
        ensures others { (other : Place) → (other ≡ place → ⊥) → run_at self.new.runs other ≡ run_at self.old.runs other }
    {
        mark(&mut self.marks, place, run)?;
        match self.runs.put(place, run) {
            Ok(()) => Ok(()),
            Err(NoMemory) => {
                unmark(&mut self.marks, place, run);
                Err(NoMemory)
            }
        }
    }

    /// The source claims nothing from now on.
    fn clear(&mut self, place: Place)
        ensures geometry { self.new.geometry ≡ self.old.geometry }
        ensures none { run_at self.new.runs place ≡ None }
        ensures others { (other : Place) → (other ≡ place → ⊥) → run_at self.new.runs other ≡ run_at self.old.runs other }
    {
        if let Some(run) = self.runs.get(place) {
            unmark(&mut self.marks, place, run);
            self.runs.remove(place);
        }
    }

    /// The slots of an inode claim nothing from now on. One look-up tells where they claimed nothing.
    fn clear_slots(&mut self, number: u32)
        ensures geometry { self.new.geometry ≡ self.old.geometry }
        ensures cleared { SetsFirst self.old.runs self.new.runs (slot_place number) HasNone 15 }
    {
        let first = Place::Slot {
            inode: number,
            slot: 0,
        };
        let last = Place::Slot {
            inode: number,
            slot: SLOTS - 1,
        };
        if !self.runs.has_any(first, last) {
            return;
        }
        for slot in 0..SLOTS {
            self.clear(Place::Slot {
                inode: number,
                slot,
            });
        }
    }

    /// The pointers of a fragment at a level claim nothing from now on. One look-up tells where they claimed nothing.
    fn clear_pointers(&mut self, g: &Geometry, fragment: u32, level: u8)
        requires { IsGeometry g.now }
        ensures geometry { self.new.geometry ≡ self.old.geometry }
        ensures cleared { SetsFirst self.old.runs self.new.runs (pointer_place fragment level) HasNone (g.now.fsize / 4) }
    {
        let first = Place::Pointer {
            fragment,
            level,
            at: 0,
        };
        let last = Place::Pointer {
            fragment,
            level,
            at: u16::MAX,
        };
        if !self.runs.has_any(first, last) {
            return;
        }
        for at in 0..g.fsize / POINTER_BYTES {
            self.clear(Place::Pointer {
                fragment,
                level,
                at: at as u16,
            });
        }
    }

    /// Makes this run, if there is one, what the source claims, which claimed nothing.
    fn set(&mut self, place: Place, run: Option<Run>) -> Result<(), NoMemory>
        requires place { IsPlace self.old.geometry place }
        requires run { IfSome run (IsRun (size_in self.old.geometry)) }
        requires none { run_at self.old.runs place ≡ None }
        ensures geometry { self.new.geometry ≡ self.old.geometry }
        ensures set { OnOk result (run_at self.new.runs place ≡ run) }
        ensures others { (other : Place) → (other ≡ place → ⊥) → run_at self.new.runs other ≡ run_at self.old.runs other }
    {
        match run {
            Some(run) => self.put(place, run),
            None => Ok(()),
        }
    }
}

/// Puts a fragment last in the list, if it is wanted there.
fn push_if(fragments: &mut Vec<u32>, fragment: u32, wanted: bool) -> Result<(), NoMemory>
    ensures { OnOk result (fragments.new.items ≡ fragments.old.items ++ (if wanted then fragment ∷ [] else [])) }
{
    if wanted {
        return fragments.push(fragment).map_err(|_| NoMemory);
    }
    Ok(())
}

/// Each fragment of the run has the source too, which no fragment had; where memory is wanting, none has it still.
fn mark(marks: &mut Marks, place: Place, run: Run) -> Result<(), NoMemory>
    requires sound { IsMarks marks.old }
    requires fits { run.first + run.count < 2 ^ 32 }
    requires inside { run.first + run.count ≤ length marks.old.first.items }
    requires fresh { (fragment : ℕ) → Contains (marked_on marks.old fragment) place → ⊥ }
    ensures sound { IsMarks marks.new }
    ensures marked { MatchResult result (λ _. AddsMarks marks.old marks.new place run.first run.count) (λ _. SameSources marks.old marks.new) }
{
    for done in 0..run.count {
        let Ok(()) = marks.add(run.first + u32::from(done), place) else {
            let marked = Run {
                first: run.first,
                count: done,
            };
            unmark(marks, place, marked);
            return Err(NoMemory);
        };
    }
    Ok(())
}

/// The source is taken from each fragment of the run.
fn unmark(marks: &mut Marks, place: Place, run: Run)
    requires sound { IsMarks marks.old }
    requires fits { run.first + run.count < 2 ^ 32 }
    requires inside { run.first + run.count ≤ length marks.old.first.items }
    ensures sound { IsMarks marks.new }
    ensures unmarked { Unmarks marks.old marks.new place run.first run.count }
{
    for i in 0..run.count {
        marks.remove(run.first + u32::from(i), place);
    }
}
