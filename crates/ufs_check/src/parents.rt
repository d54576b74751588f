// What the entries of directories say of inodes: the directory that each stands in, and where `..` leads.
ghost use Rattle.std.specs.Prelude.{◌≡◌, ◌+◌, OnOk, Some};
ghost use Rattle.std.specs.Bool.{Decides};
ghost use Rattle.ufs_model.specs.Blocks.{Volume};
ghost use Rattle.ufs_model.specs.declared.geometries.Geometry.{Geometry};
ghost use Rattle.ufs_model.specs.declared.inodes.Kind.TheVariants.{Directory};
ghost use Rattle.ufs_check.specs.Links.{AddsEntry, AreLinks, FitsOwn, IsEmptyTable, IsEntered, ParentsBefore, SaysDots, SaysUp, SetsUp, TableBelow, linked};
ghost use Rattle.ufs_check.specs.OwnedEntries.{AreOwned};

use crate::names::{is_named, is_plain};
use crate::owned_entries::OwnedEntry;
use dg_io::NoMemory;
use std::alloc::Global;
use std::collections::BTreeMap;
use ufs_model::Kind;

/// What is kept of an inode's entries that are neither `.` nor `..`.
#[derive(Clone, Copy)]
pub struct Parent {
    /// The least directory with one.
    pub directory: u32,
    /// There are two or more.
    pub twice: bool,
    /// The inode is a directory.
    pub of_directory: bool,
}

/// What is kept of the first two entries of a directory.
#[derive(Clone, Copy)]
pub enum Up {
    /// They aren't `.` for itself and `..` for a directory, as far as they name inodes.
    Wrong,
    /// They are, and `..` names no inode.
    Unjudged,
    /// They are, and `..` names this directory.
    Leads(u32),
}

/// What is kept of the entries of directories, until all are read.
#[derive(Drop)]
pub struct LinkTable {
    /// Of each directory whose entries are read the first two.
    pub ups: BTreeMap<u32, Up>,
    /// The parents of inodes.
    pub parents: BTreeMap<u32, Parent>,
}

/// Nothing is kept.
pub fn empty_table(alloc: Global) -> LinkTable
    ensures { IsEmptyTable result }
{
    LinkTable {
        ups: BTreeMap::new(alloc),
        parents: BTreeMap::new(alloc),
    }
}

/// An entry that is neither `.` nor `..` is for inode `i`, where all entries are kept.
pub fn is_entered(table: &LinkTable, i: u32) -> bool
    ensures { (g : Geometry) (v : Volume) → AreLinks g v table.now → Decides result (IsEntered g v i) }
{
    table.parents.contains_key(&i)
}

/// What is kept of an inode with one more entry, of directory `i`.
fn linked(parent: Option<Parent>, i: u32, of_directory: bool) -> Parent
    ensures { result ≡ linked parent i of_directory }
{
    match parent {
        None => Parent {
            directory: i,
            twice: false,
            of_directory,
        },
        Some(parent) => Parent {
            directory: parent.directory,
            twice: true,
            of_directory: parent.of_directory,
        },
    }
}

/// The entry names a directory.
fn names_directory(entry: &OwnedEntry) -> bool
    ensures { Decides result (entry.now.named ≡ Some Directory) }
{
    entry.named == Some(Kind::Directory)
}

/// Keeps an entry of directory `i`, if it is neither `.` nor `..`.
fn add_link(parents: &mut BTreeMap<u32, Parent>, i: u32, entry: &OwnedEntry) -> Result<(), NoMemory>
    ensures { OnOk result (AddsEntry parents.old parents.new i entry.now) }
{
    let of_directory = names_directory(entry);
    if !is_plain(entry) {
        return Ok(());
    }
    let parent = linked(parents.get(&entry.inode).copied(), i, of_directory);
    if parents.insert(entry.inode, parent).is_err() {
        return Err(NoMemory);
    }
    Ok(())
}

/// Keeps the entries of directory `i`, where those of lower directories are kept.
fn add_links(
    parents: &mut BTreeMap<u32, Parent>,
    i: u32,
    entries: &[OwnedEntry],
) -> Result<(), NoMemory>
    ensures { OnOk result ((g : Geometry) (v : Volume) → AreOwned g v i entries.now
        → ParentsBefore g v i 0 parents.old → ParentsBefore g v (i + 1) 0 parents.new) }
{
    for entry in entries {
        add_link(parents, i, entry)?;
    }
    Ok(())
}

/// The entry is `.` for directory `i`, or names no inode.
fn fits_own(i: u32, own: &OwnedEntry) -> bool
    ensures { Decides result (FitsOwn i own.now) }
{
    own.named.is_none() || (is_named(own, b".") && own.inode == i)
}

/// What the second entry says by itself.
fn up_by(up: &OwnedEntry) -> Up
    ensures { SaysUp up.now result }
{
    if up.named.is_none() {
        return Up::Unjudged;
    }
    if names_directory(up) && is_named(up, b"..") {
        return Up::Leads(up.inode);
    }
    Up::Wrong
}

/// What the first two entries of directory `i` say.
fn up_of(i: u32, entries: &[OwnedEntry]) -> Up
    ensures { (g : Geometry) (v : Volume) → AreOwned g v i entries.now → SaysDots g v i result }
{
    if entries.len() < 2 {
        return Up::Wrong;
    }
    if !fits_own(i, &entries[0]) {
        return Up::Wrong;
    }
    up_by(&entries[1])
}

/// Keeps what the first two entries of directory `i` say.
fn add_up(ups: &mut BTreeMap<u32, Up>, i: u32, up: Up) -> Result<(), NoMemory>
    ensures { OnOk result (SetsUp ups.old ups.new i up) }
{
    if ups.insert(i, up).is_err() {
        return Err(NoMemory);
    }
    Ok(())
}

/// Keeps what the entries of directory `i` say, where those of lower directories are kept.
pub fn add_directory(table: &mut LinkTable, i: u32, entries: &[OwnedEntry]) -> Result<(), NoMemory>
    ensures { OnOk result ((g : Geometry) (v : Volume) → AreOwned g v i entries.now
        → TableBelow g v i table.old → TableBelow g v (i + 1) table.new) }
{
    add_up(&mut table.ups, i, up_of(i, entries))?;
    add_links(&mut table.parents, i, entries)
}
