// Files that have their places.
ghost use Rattle.std.specs.Prelude.{◌≡◌, ◌<◌, ◌≤◌, ℕ, None, List, Option, IfOk, OnOk, is_some, length, true};
ghost use Rattle.dg_plan.specs.Files.{blocks_at};
ghost use Rattle.dg_model.specs.Homes.{Ascend, home_of};
ghost use Rattle.dg_plan.specs.Beside.{Rise};
ghost use Rattle.dg_plan.specs.Placings.{ArePlaced, ArePositive, AreStayed, Goes, KeepsLeast, Stands, beside_in, homes_in, placed_of};
ghost use Rattle.dg_model.specs.Plans.{boundary_for, has_room, placed_on, stay_with};

use crate::directories::note;
use crate::strays::roomiest;
use crate::{Home, NoMemory};
use std::alloc::Global;
use std::collections::BTreeMap;

/// The room that boundaries have left, and the homes of files.
#[derive(Drop)]
pub struct Placing {
    pub rooms: Vec<u32>,
    /// The boundary of each file, by inode.
    pub homes: BTreeMap<u32, u8>,
    /// The home of the least file that is placed, of each directory.
    pub least: BTreeMap<u32, Home>,
}

/// Whether a boundary has room for so many blocks.
fn has_room(rooms: &Vec<u32>, boundary: u8, count: u32) -> bool
    ensures { result ≡ has_room boundary count rooms.now.items }
{
    match rooms.get(usize::from(boundary)) {
        Some(left) => count <= *left,
        None => count == 0,
    }
}

impl Placing {
    /// A file of so many blocks, which has no place, goes to a boundary that has room for them.
    fn put(&mut self, directory: Option<u32>, home: Home, count: u32) -> Result<(), NoMemory>
        requires none { home_of (homes_in self.old.homes.entries) home.inode ≡ None }
        requires rise { Rise (homes_in self.old.homes.entries) }
        requires within { home.boundary < length self.old.rooms.items }
        requires room { has_room home.boundary count self.old.rooms.items ≡ true }
        ensures placed { OnOk result (placed_of self.new ≡ placed_on home.inode count home.boundary (placed_of self.old)) }
        ensures least { OnOk result (KeepsLeast directory home.inode self.old self.new) }
    {
        if let Some(directory) = directory {
            note(&mut self.least, directory, home)?;
        }
        let Ok(_) = self.homes.insert(home.inode, home.boundary) else {
            return Err(NoMemory);
        };
        self.rooms[usize::from(home.boundary)] -= count;
        Ok(())
    }

    /// A file that has a home stays there where its blocks fit.
    pub fn stay(
        &mut self,
        files: &BTreeMap<u32, u32>,
        directory: Option<u32>,
        home: Home,
    ) -> Result<(), NoMemory>
        requires none { home_of (homes_in self.old.homes.entries) home.inode ≡ None }
        requires rise { Rise (homes_in self.old.homes.entries) }
        ensures placed { OnOk result (placed_of self.new ≡ stay_with (blocks_at files.now.entries home.inode) home (placed_of self.old)) }
        ensures least { OnOk result (KeepsLeast directory home.inode self.old self.new) }
    {
        let count = files.get(&home.inode).copied().unwrap_or(0);
        if count == 0 || !has_room(&self.rooms, home.boundary, count) {
            return Ok(());
        }
        self.put(directory, home, count)
    }

    /// The boundary of a file that goes beside this one, by its directory.
    fn beside(&self, directory: Option<u32>) -> Option<Home>
        ensures { result ≡ beside_in self.now.least directory }
    {
        match directory {
            Some(directory) => self.least.get(&directory).copied(),
            None => None,
        }
    }

    /// The boundary to which a file of so many blocks goes.
    fn boundary_for(&self, directory: Option<u32>, count: u32) -> u8
        requires some { 0 < length self.now.rooms.items }
        requires few { length self.now.rooms.items ≤ 16 }
        ensures { result ≡ boundary_for count (beside_in self.now.least directory) self.now.rooms.items }
    {
        match self.beside(directory) {
            Some(home) if has_room(&self.rooms, home.boundary, count) => home.boundary,
            _ => roomiest(&self.rooms) as u8,
        }
    }

    /// Whether a file is placed.
    fn has_place(&self, inode: u32) -> bool
        ensures { result ≡ is_some (home_of (homes_in self.now.homes.entries) inode) }
    {
        self.homes.contains_key(&inode)
    }

    /// A file of so many blocks, which has no place, goes to its boundary. False where there is no room for it.
    pub fn place(
        &mut self,
        directories: &BTreeMap<u32, u32>,
        inode: u32,
        count: u32,
    ) -> Result<bool, NoMemory>
        requires none { home_of (homes_in self.old.homes.entries) inode ≡ None }
        requires rise { Rise (homes_in self.old.homes.entries) }
        requires some { 0 < length self.old.rooms.items }
        requires few { length self.old.rooms.items ≤ 16 }
        requires count { 0 < count }
        ensures goes { IfOk result (λ placed. Goes directories.now count inode self.old self.new placed) }
        ensures stands { IfOk result (λ placed. placed ≡ true → Stands inode count self.old self.new) }
    {
        let directory = directories.get(&inode).copied();
        let boundary = self.boundary_for(directory, count);
        if !has_room(&self.rooms, boundary, count) {
            return Ok(false);
        }
        self.put(directory, Home { inode, boundary }, count)?;
        Ok(true)
    }

    /// Step 3: the files that have no place go to their boundaries, ascending by inode. The first one that finds no room, if one
    /// does.
    pub fn place_all(
        &mut self,
        files: &BTreeMap<u32, u32>,
        directories: &BTreeMap<u32, u32>,
    ) -> Result<Option<u32>, NoMemory>
        requires rise { Rise (homes_in self.old.homes.entries) }
        requires some { 0 < length self.old.rooms.items }
        requires few { length self.old.rooms.items ≤ 16 }
        requires counts { ArePositive files.now.entries }
        ensures size { IfOk result (λ lacking. lacking ≡ None → length self.new.rooms.items ≡ length self.old.rooms.items) }
        ensures placed { IfOk result (λ lacking. ArePlaced files.now directories.now self.old self.new lacking) }
    {
        for (inode, count) in files.iter() {
            if self.has_place(*inode) {
                continue;
            }
            if !self.place(directories, *inode, *count)? {
                return Ok(Some(*inode));
            }
        }
        Ok(None)
    }
}

/// Step 2: files that have homes stay there where their blocks fit, ascending by inode.
pub fn stay_all(
    alloc: Global,
    rooms: Vec<u32>,
    files: &BTreeMap<u32, u32>,
    directories: &BTreeMap<u32, u32>,
    homes: &[Home],
) -> Result<Placing, NoMemory>
    requires { Ascend homes.now }
    ensures rise { IfOk result (λ placing. Rise (homes_in placing.homes.entries)) }
    ensures size { IfOk result (λ placing. length placing.rooms.items ≡ length rooms.items) }
    ensures stayed { IfOk result (AreStayed files.now directories.now rooms.items homes.now) }
{
    let mut placing = Placing {
        rooms,
        homes: BTreeMap::new(alloc),
        least: BTreeMap::new(alloc),
    };
    for home in homes {
        let directory = directories.get(&home.inode).copied();
        placing.stay(files, directory, *home)?;
    }
    Ok(placing)
}
