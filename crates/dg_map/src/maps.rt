ghost use Rattle.std.specs.Prelude.{◌≡◌, ◌+◌, ◌-◌, ◌^◌, ◌++◌, ◌<◌, ◌≤◌, ℕ, List, [], ◌∷◌, length, IsOk, IsSome, IfErr, IfOk, IfSome, OnErr, OnOk, MatchOption};
ghost use Rattle.std.specs.List.{All};
ghost use Rattle.dg_model.specs.Shapes.{IsShape};
ghost use Rattle.dg_map.specs.Renumbers.{renumbered};
ghost use Rattle.dg_map.specs.Restores.{AreSites, table_with};
ghost use Rattle.dg_map.specs.Rows.{Appends, IsLists, row_of};
ghost use Rattle.dg_map.specs.Spreads.{HasNoSpread, IsLeastSpread};
ghost use Rattle.dg_map.specs.declared.faults.TakeFault.TheVariants.{Full};
ghost use Rattle.dg_map.specs.Takes.{TakesLowest, Undoes};
ghost use Rattle.dg_map.specs.Slots.{IsSlots, IsUnused, Puts, block_in, used_count};
ghost use Rattle.dg_map.specs.Refusals.{IsFullAt};
ghost use Rattle.dg_model.specs.Tables.{IsFree, IsLowestFree, IsTable, StandsIn, Table, count_on, empty_table, put_site, sites_in, used_in, without_site};

use crate::boundary_slots::Slots;
use crate::faults::TakeFault;
use crate::renumbers::{push_renumbered, take_slots};
use crate::restores::take_all;
use crate::site_lists::SiteLists;
use dg_model::{NoMemory, Shape, Site};
use std::alloc::Global;
use std::marker::Model;

/// The sites of every block. A contract sees the shape and each block's list of sites, in the order of taking.
///
/// Making one takes all its memory, at most `8 * b + 16` bytes a block and 5 bytes a slot. After that no call takes memory
/// or searches: each costs at most so many steps as there are boundaries.
#[derive(Drop)]
pub struct Map {
    shape: Shape,
    lists: SiteLists,
    /// The slots of each boundary.
    boundaries: Vec<Slots>,
}

impl Model for Map {
    ghost use Rattle.dg_model.specs.Tables.{Table};

    ghost Value = { Table };

    ghost use Rattle.dg_map.specs.Maps.{IsMap, table_of};

    ghost view = { table_of };

    ghost invariant = { IsMap };
}

impl Map {
    /// The map in which no block has a site.
    pub fn new(alloc: Global, shape: Shape) -> Result<Map, NoMemory>
        requires { IsShape shape }
        ensures empty { IfOk result (λ map. map ≡ empty_table shape) }
        ensures table { IfOk result IsTable }
    {
        Ok(Map {
            shape,
            lists: SiteLists::new(alloc, shape.n, shape.b)?,
            boundaries: free_boundaries(alloc, shape.b, shape.k + 1)?,
        })
    }

    /// The map in which each block has the sites of its list, in that order.
    pub fn restored(alloc: Global, shape: Shape, sites: &Vec<Vec<Site>>) -> Result<Map, NoMemory>
        requires { AreSites (table_with shape sites.now.items) }
        ensures sites { IfOk result (λ map. map ≡ table_with shape sites.now.items) }
        ensures table { IfOk result IsTable }
    {
        let mut map = Map::new(alloc, shape)?;
        for block in 0..shape.n {
            take_all(&mut map, block, &sites[block as usize])?;
        }
        Ok(map)
    }

    /// The map of this shape in which each site stands in its slot of the boundary that `numbers` has for its own. A site
    /// whose boundary has no such number is left out. Beside the new map it takes memory for the sites of one block alone.
    pub fn renumbered(
        &self,
        alloc: Global,
        shape: Shape,
        numbers: &[Option<u8>],
    ) -> Result<Map, NoMemory>
        requires { AreSites (renumbered shape numbers.now self.now) }
        ensures sites { IfOk result (λ map. map ≡ renumbered shape numbers.now self.now) }
        ensures table { IfOk result IsTable }
    {
        let _ = self.shape();
        let mut lists = SiteLists::begun(alloc, shape.n, shape.b)?;
        let mut boundaries = free_boundaries(alloc, shape.b, shape.k + 1)?;
        let mut sites = Vec::new(alloc);
        for block in 0..shape.n {
            sites.clear();
            push_renumbered(&mut sites, self.sites(block), numbers)?;
            lists.append(&sites)?;
            take_slots(&mut boundaries, block, &sites);
        }
        Ok(Map {
            shape,
            lists,
            boundaries,
        })
    }

    /// The shape that the map was made with.
    pub fn shape(&self) -> &Shape
        ensures shape { result.now ≡ self.now.shape }
        ensures table { IsTable self.now }
    {
        &self.shape
    }

    /// The sites of the block, in the order of taking.
    pub fn sites(&self, block: u32) -> &[Site]
        requires { block < self.now.shape.n }
        ensures sites { result.now ≡ sites_in self.now block }
        ensures table { IsTable self.now }
    {
        self.lists.of(block)
    }

    /// The least block that has more than one site, if there is one. It is found without a search.
    pub fn least_spread(&self) -> Option<u32>
        ensures spread { MatchOption result (HasNoSpread self.now) (IsLeastSpread self.now) }
        ensures table { IsTable self.now }
    {
        self.lists.first_spread()
    }

    /// The block that stands in the site. No block stands in a site that isn't one of the array.
    pub fn block_at(&self, site: Site) -> Option<u32>
        ensures block { MatchOption result (IsFree self.now site.boundary site.slot) (λ b. StandsIn self.now b site.boundary site.slot) }
        ensures within { IfSome result (λ b. b < self.now.shape.n) }
        ensures table { IsTable self.now }
    {
        if site.boundary >= self.shape.b {
            return None;
        }
        self.boundaries[site.boundary as usize].block_at(site.slot)
    }

    /// How many slots of the boundary are used.
    pub fn used(&self, boundary: u8) -> u32
        requires { boundary < self.now.shape.b }
        ensures used { result ≡ used_in self.now boundary }
        ensures most { result ≤ self.now.shape.k + 1 }
        ensures table { IsTable self.now }
    {
        self.boundaries[boundary as usize].used()
    }

    /// How many counted slots of the boundary are left: K less the used ones, and at least 0.
    pub fn room(&self, boundary: u8) -> u32
        requires { boundary < self.now.shape.b }
        ensures room { result ≡ self.now.shape.k - used_in self.now boundary }
        ensures table { IsTable self.now }
    {
        self.shape.k.saturating_sub(self.used(boundary))
    }

    /// Gives the block the lowest free slot of the boundary. `Full` where K or more of its slots are used.
    pub fn take(&mut self, block: u32, boundary: u8) -> Result<Site, TakeFault>
        requires block { block < self.old.shape.n }
        requires boundary { boundary < self.old.shape.b }
        requires none { count_on boundary (sites_in self.old block) ≡ 0 }
        ensures full { IsFullAt self.old.shape.k (used_in self.old boundary) result }
        ensures taken { IfOk result (λ site. TakesLowest self.old block boundary site self.new) }
        ensures refused { OnErr result (self.new ≡ self.old) }
        ensures memory { IfErr result (λ fault. fault ≡ Full) }
        ensures table { IsTable self.new }
    {
        if self.used(boundary) >= self.shape.k {
            return Err(TakeFault::Full);
        }
        Ok(self.take_lowest(block, boundary))
    }

    /// Gives the block the lowest free slot of the boundary, the spare one among them. `Full` where all K+1 are used.
    pub fn take_spare(&mut self, block: u32, boundary: u8) -> Result<Site, TakeFault>
        requires block { block < self.old.shape.n }
        requires boundary { boundary < self.old.shape.b }
        requires none { count_on boundary (sites_in self.old block) ≡ 0 }
        ensures full { IsFullAt (self.old.shape.k + 1) (used_in self.old boundary) result }
        ensures taken { IfOk result (λ site. TakesLowest self.old block boundary site self.new) }
        ensures refused { OnErr result (self.new ≡ self.old) }
        ensures memory { IfErr result (λ fault. fault ≡ Full) }
        ensures table { IsTable self.new }
    {
        if self.used(boundary) > self.shape.k {
            return Err(TakeFault::Full);
        }
        Ok(self.take_lowest(block, boundary))
    }

    /// Gives the block this very slot, which is free, as the last site of its list.
    pub fn retake(&mut self, block: u32, site: Site) -> Result<(), NoMemory>
        requires block { block < self.old.shape.n }
        requires boundary { site.boundary < self.old.shape.b }
        requires slot { site.slot ≤ self.old.shape.k }
        requires free { IsFree self.old site.boundary site.slot }
        requires none { count_on site.boundary (sites_in self.old block) ≡ 0 }
        ensures taken { OnOk result (self.new ≡ put_site self.old block site) }
        ensures undone { OnOk result (Undoes self.old block site self.new) }
        ensures refused { OnErr result (self.new ≡ self.old) }
        ensures memory { IsOk result }
        ensures table { IsTable self.new }
    {
        let slots = &mut self.boundaries[site.boundary as usize];
        slots.take_at(site.slot, block);
        self.lists.push(block, site);
        Ok(())
    }

    /// Takes the block's site on the boundary from it, and makes the slot free. Its other sites keep their order.
    pub fn drop_site(&mut self, block: u32, boundary: u8)
        requires block { block < self.old.shape.n }
        requires boundary { boundary < self.old.shape.b }
        requires one { 0 < count_on boundary (sites_in self.old block) }
        ensures dropped { self.new ≡ without_site self.old block boundary }
        ensures table { IsTable self.new }
    {
        let slot = self.lists.take_out(block, boundary);
        self.boundaries[boundary as usize].give_up(slot);
    }

    /// Gives the block the lowest free slot of a boundary that has one.
    fn take_lowest(&mut self, block: u32, boundary: u8) -> Site
        requires block { block < self.old.shape.n }
        requires boundary { boundary < self.old.shape.b }
        requires none { count_on boundary (sites_in self.old block) ≡ 0 }
        requires left { used_in self.old boundary ≤ self.old.shape.k }
        ensures taken { TakesLowest self.old block boundary result self.new }
        ensures table { IsTable self.new }
    {
        let slots = &mut self.boundaries[boundary as usize];
        place_lowest(slots, &mut self.lists, block, boundary)
    }
}

/// So many boundaries, each with so many slots, none of them used.
fn free_boundaries(alloc: Global, count: u8, most: u32) -> Result<Vec<Slots>, NoMemory>
    requires { most ≤ 2 ^ 20 + 1 }
    ensures count { IfOk result (λ boundaries. length boundaries.items ≡ count) }
    ensures unused { IfOk result (λ boundaries. All (IsUnused most) boundaries.items) }
{
    let mut boundaries = Vec::new(alloc);
    for _ in 0..count {
        let slots = Slots::new(alloc, most)?;
        let Ok(()) = boundaries.push(slots) else {
            return Err(NoMemory);
        };
    }
    Ok(boundaries)
}

/// Puts the block in the lowest free slot, and the site last in its list.
fn place_lowest(slots: &mut Slots, lists: &mut SiteLists, block: u32, boundary: u8) -> Site
    requires sound { IsSlots slots.old }
    requires left { used_count slots.old < slots.old.most }
    requires lists { IsLists lists.old }
    requires within { block < length lists.old.counts.items }
    requires room { length (row_of lists.old block) < lists.old.width }
    ensures slots { Puts slots.old slots.new result.slot block }
    ensures lists { Appends lists.old lists.new block result }
    ensures boundary { result.boundary ≡ boundary }
    ensures lowest { (k : ℕ) → k < result.slot → IsSome (block_in slots.old k) }
{
    let slot = slots.take(block);
    let site = Site { boundary, slot };
    lists.push(block, site);
    site
}
