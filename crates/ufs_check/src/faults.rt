// What all passes find, and the first of it.
ghost use Rattle.std.specs.Prelude.{◌≡◌, ◌∷◌, []};
ghost use Rattle.ufs_model.specs.Blocks.{Volume};
ghost use Rattle.ufs_model.specs.declared.geometries.Geometry.{Geometry};
ghost use Rattle.ufs_model.specs.declared.malformations.BadKind.TheVariants.{GroupMagic, GroupMap, WrongType, Filesize, Past, Wild, WildIn, Align, AlignIn, Run, Twice};
ghost use Rattle.ufs_model.specs.declared.malformations.BadKind.TheVariants.{PastIn, Free, Unused, Hole, Chunk, Entry, EntryType, Dots, Names, DirTwice, RootNamed};
ghost use Rattle.ufs_check.specs.Verdicts.{AreFaults, Judges, first_by, first_found, later, no_metadata_fault};

use crate::links::LinkFaults;
use crate::notes::first_of;
use crate::verdicts::{DirectoryFaults, FragmentFaults, GroupFaults, InodeFaults, Verdict};
use std::alloc::Global;
use ufs_model::BadKind;

/// What is found by metadata alone.
#[derive(Drop)]
pub struct MetadataFaults {
    /// Of group blocks.
    pub groups: GroupFaults,
    /// Of inodes.
    pub inodes: InodeFaults,
    /// Of fragments.
    pub fragments: FragmentFaults,
}

impl MetadataFaults {
    /// Nothing is found.
    pub fn is_none(&self) -> bool
        ensures { result ≡ no_metadata_fault self.now }
    {
        self.groups.is_none() && self.inodes.is_none() && self.fragments.is_none()
    }
}

/// What is found in directories.
#[derive(Drop)]
pub struct TreeFaults {
    /// In directories, each looked at by itself.
    pub directories: DirectoryFaults,
    /// Between the entries of directories.
    pub links: LinkFaults,
}

/// What all passes find.
#[derive(Drop)]
pub struct Faults {
    /// By metadata alone.
    pub metadata: MetadataFaults,
    /// In directories.
    pub tree: TreeFaults,
}

/// Nothing is found in directories.
pub fn no_tree(alloc: Global) -> TreeFaults {
    TreeFaults {
        directories: DirectoryFaults {
            hole: Vec::new(alloc),
            chunk: Vec::new(alloc),
            entry: Vec::new(alloc),
            entry_type: Vec::new(alloc),
            names: Vec::new(alloc),
            root_named: Vec::new(alloc),
        },
        links: LinkFaults {
            dots: Vec::new(alloc),
            dir_twice: Vec::new(alloc),
        },
    }
}

/// Keeps a kind with the number that is found of it, if there is one and none is kept.
fn keep(first: &mut Option<(BadKind, u32)>, kind: BadKind, number: Option<u32>)
    ensures { first.new ≡ later first.old kind number }
{
    let Some(number) = number else {
        return;
    };
    if first.is_none() {
        *first = Some((kind, number));
    }
}

/// Keeps the first kind of group blocks, inodes and slots.
fn keep_slots(faults: &Faults, first: &mut Option<(BadKind, u32)>)
    ensures { first.new ≡ first_by (first_found faults.now) first.old (GroupMagic ∷ GroupMap ∷ WrongType ∷ Filesize ∷ Past ∷ Wild ∷ []) }
{
    keep(
        first,
        BadKind::GroupMagic,
        first_of(&faults.metadata.groups.magic),
    );
    keep(
        first,
        BadKind::GroupMap,
        first_of(&faults.metadata.groups.map),
    );
    keep(
        first,
        BadKind::WrongType,
        first_of(&faults.metadata.inodes.wrong_type),
    );
    keep(
        first,
        BadKind::Filesize,
        first_of(&faults.metadata.inodes.filesize),
    );
    keep(first, BadKind::Past, first_of(&faults.metadata.inodes.past));
    keep(first, BadKind::Wild, first_of(&faults.metadata.inodes.wild));
}

/// Keeps the first kind of pointers and claims.
fn keep_claims(faults: &Faults, first: &mut Option<(BadKind, u32)>)
    ensures { first.new ≡ first_by (first_found faults.now) first.old (WildIn ∷ Align ∷ AlignIn ∷ Run ∷ Twice ∷ PastIn ∷ []) }
{
    keep(
        first,
        BadKind::WildIn,
        first_of(&faults.metadata.fragments.wild_in),
    );
    keep(
        first,
        BadKind::Align,
        first_of(&faults.metadata.inodes.align),
    );
    keep(
        first,
        BadKind::AlignIn,
        first_of(&faults.metadata.fragments.align_in),
    );
    keep(first, BadKind::Run, first_of(&faults.metadata.inodes.run));
    keep(
        first,
        BadKind::Twice,
        first_of(&faults.metadata.fragments.twice),
    );
    keep(
        first,
        BadKind::PastIn,
        first_of(&faults.metadata.fragments.past_in),
    );
}

/// Keeps the first kind of marks, and of directories each by itself.
fn keep_entries(faults: &Faults, first: &mut Option<(BadKind, u32)>)
    ensures { first.new ≡ first_by (first_found faults.now) first.old (Free ∷ Unused ∷ Hole ∷ Chunk ∷ Entry ∷ EntryType ∷ []) }
{
    keep(
        first,
        BadKind::Free,
        first_of(&faults.metadata.fragments.free),
    );
    keep(
        first,
        BadKind::Unused,
        first_of(&faults.metadata.inodes.unused),
    );
    keep(
        first,
        BadKind::Hole,
        first_of(&faults.tree.directories.hole),
    );
    keep(
        first,
        BadKind::Chunk,
        first_of(&faults.tree.directories.chunk),
    );
    keep(
        first,
        BadKind::Entry,
        first_of(&faults.tree.directories.entry),
    );
    keep(
        first,
        BadKind::EntryType,
        first_of(&faults.tree.directories.entry_type),
    );
}

/// Keeps the first kind of links between directories.
fn keep_links(faults: &Faults, first: &mut Option<(BadKind, u32)>)
    ensures { first.new ≡ first_by (first_found faults.now) first.old (Dots ∷ Names ∷ DirTwice ∷ RootNamed ∷ []) }
{
    keep(first, BadKind::Dots, first_of(&faults.tree.links.dots));
    keep(
        first,
        BadKind::Names,
        first_of(&faults.tree.directories.names),
    );
    keep(
        first,
        BadKind::DirTwice,
        first_of(&faults.tree.links.dir_twice),
    );
    keep(
        first,
        BadKind::RootNamed,
        first_of(&faults.tree.directories.root_named),
    );
}

/// The first malformation, by what all passes find.
pub fn verdict_of(faults: &Faults) -> Verdict
    ensures judges { (g : Geometry) (v : Volume) → AreFaults g v faults.now → Judges g v result }
    ensures there { result ≡ Verdict.Gone → ⊥ }
{
    let mut first = None;
    keep_slots(faults, &mut first);
    keep_claims(faults, &mut first);
    keep_entries(faults, &mut first);
    keep_links(faults, &mut first);
    match first {
        None => Verdict::Sound,
        Some((kind, number)) => Verdict::Malformed(kind, number),
    }
}
