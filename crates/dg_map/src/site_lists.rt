ghost use Rattle.std.specs.Prelude.{◌≡◌, ◌+◌, ◌*◌, ◌++◌, ◌∷◌, [], ◌<◌, ◌≤◌, ◌^◌, ℕ, false, IfOk, MatchOption, OnOk, length};
ghost use Rattle.std.specs.List.{Contains};
ghost use Rattle.dg_map.specs.Begun.{AddsRow, AreFirst, AreNone, GoesOn};
ghost use Rattle.dg_map.specs.Bits.{IsBits, Sets, has};
ghost use Rattle.dg_map.specs.Rows.{Appends, IsBare, IsFirstSpread, IsLists, IsUnspread, KeepsOff, SetsCount, SetsRow, count_of, row_of};
ghost use Rattle.dg_model.specs.Tables.{count_on, sites_off};

use crate::bits::Bits;
use dg_model::{NoMemory, Site};
use std::alloc::Global;

/// The sites of each block, in the order of taking. All their memory is taken at first.
#[derive(Drop)]
pub struct SiteLists {
    /// The places of a row: one for each boundary.
    width: u8,
    /// A row for each block, one after another.
    sites: Vec<Site>,
    /// How many places of its row each block uses, from the front.
    counts: Vec<u8>,
    /// The blocks that have more than one site.
    spread: Bits,
}

const _: () = prove!(size_of::<Site>() == 8);

impl SiteLists {
    /// So many blocks without sites, for so many boundaries.
    pub fn new(alloc: Global, blocks: u32, boundaries: u8) -> Result<SiteLists, NoMemory>
        requires blocks { blocks ≤ 2 ^ 20 }
        requires boundaries { boundaries ≤ 16 }
        ensures { IfOk result (IsBare blocks boundaries) }
    {
        let nowhere = Site {
            boundary: 0,
            slot: 0,
        };
        let Ok(sites) = vec![in alloc; nowhere; blocks as usize * boundaries as usize] else {
            return Err(NoMemory);
        };
        let Ok(counts) = vec![in alloc; 0; blocks as usize] else {
            return Err(NoMemory);
        };
        Ok(SiteLists {
            width: boundaries,
            sites,
            counts,
            spread: Bits::none(alloc, blocks)?,
        })
    }

    /// No block so far, where there are to be so many, for so many boundaries.
    pub fn begun(alloc: Global, blocks: u32, boundaries: u8) -> Result<SiteLists, NoMemory>
        requires blocks { blocks ≤ 2 ^ 20 }
        requires boundaries { boundaries ≤ 16 }
        ensures { IfOk result (AreNone blocks boundaries) }
    {
        let Ok(sites) = Vec::with_capacity(alloc, blocks as usize * boundaries as usize) else {
            return Err(NoMemory);
        };
        let Ok(counts) = Vec::with_capacity(alloc, blocks as usize) else {
            return Err(NoMemory);
        };
        Ok(SiteLists {
            width: boundaries,
            sites,
            counts,
            spread: Bits::none(alloc, blocks)?,
        })
    }

    /// One more block, which has these sites.
    pub fn append(&mut self, sites: &[Site]) -> Result<(), NoMemory>
        requires sound { AreFirst self.old }
        requires left { length self.old.counts.items < self.old.spread.bound }
        requires few { length sites.now ≤ self.old.width }
        ensures { OnOk result (AddsRow self.old self.new sites.now) }
    {
        let block = self.counts.len();
        append_row(&mut self.sites, sites, self.width)?;
        let Ok(()) = self.counts.push(sites.len() as u8) else {
            return Err(NoMemory);
        };
        set_spread(&mut self.spread, block as u32, sites.len() > 1);
        Ok(())
    }

    /// The sites of the block.
    pub fn of(&self, block: u32) -> &[Site]
        requires sound { IsLists self.now }
        requires within { block < length self.now.counts.items }
        ensures { result.now ≡ row_of self.now block }
    {
        let start = self.start(block);
        let count = self.counts[block as usize];
        &self.sites[start..start + count as usize]
    }

    /// The least block that has more than one site.
    pub fn first_spread(&self) -> Option<u32>
        requires { IsLists self.now }
        ensures { MatchOption result (IsUnspread self.now) (IsFirstSpread self.now) }
    {
        self.spread.least()
    }

    /// Puts the site last in the list of the block.
    pub fn push(&mut self, block: u32, site: Site)
        requires sound { IsLists self.old }
        requires within { block < length self.old.counts.items }
        requires room { length (row_of self.old block) < self.old.width }
        ensures { Appends self.old self.new block site }
    {
        let start = self.start(block);
        let count = self.counts[block as usize];
        self.sites[start + count as usize] = site;
        self.set_count(block, count + 1);
    }

    /// Takes the block's site on the boundary out of its list, and gives its slot.
    pub fn take_out(&mut self, block: u32, boundary: u8) -> u32
        requires sound { IsLists self.old }
        requires within { block < length self.old.counts.items }
        requires some { 0 < count_on boundary (row_of self.old block) }
        ensures slot { Contains (row_of self.old block) (record { boundary = boundary; slot = result }) }
        ensures rows { SetsRow self.old self.new block (sites_off boundary (row_of self.old block)) }
    {
        let slot = slot_on(self.of(block), boundary);
        let start = self.start(block);
        let count = self.counts[block as usize];
        let kept = keep_off(&mut self.sites, start, count, boundary);
        self.set_count(block, kept);
        slot
    }

    /// Where the block's row begins.
    fn start(&self, block: u32) -> usize
        requires sound { IsLists self.now }
        requires within { block < length self.now.counts.items }
        ensures start { result ≡ block * self.now.width }
        ensures end { result + self.now.width ≤ length self.now.sites.items }
    {
        block as usize * self.width as usize
    }

    /// Sets how many sites of its row the block has.
    fn set_count(&mut self, block: u32, count: u8)
        requires sound { IsLists self.old }
        requires within { block < length self.old.counts.items }
        requires few { count ≤ self.old.width }
        ensures { SetsCount self.old self.new block count }
    {
        self.counts[block as usize] = count;
        if count > 1 {
            self.spread.insert(block);
        } else if self.spread.has(block) {
            self.spread.remove(block);
        }
    }
}

/// Puts these sites last, and then as many others as a row of so many places lacks.
fn append_row(rows: &mut Vec<Site>, sites: &[Site], width: u8) -> Result<(), NoMemory>
    requires { length sites.now ≤ width }
    ensures { OnOk result (GoesOn rows.old.items rows.new.items sites.now width) }
{
    for site in sites {
        push(rows, *site)?;
    }
    let nowhere = Site {
        boundary: 0,
        slot: 0,
    };
    for _ in sites.len()..width as usize {
        push(rows, nowhere)?;
    }
    Ok(())
}

/// Puts a site last.
fn push(sites: &mut Vec<Site>, site: Site) -> Result<(), NoMemory>
    ensures { OnOk result (sites.new.items ≡ sites.old.items ++ site ∷ []) }
{
    match sites.push(site) {
        Ok(()) => Ok(()),
        Err(_) => Err(NoMemory),
    }
}

/// Puts a block that isn't there into the set, if it is to be.
fn set_spread(spread: &mut Bits, block: u32, to_be: bool)
    requires sound { IsBits spread.old }
    requires within { block < spread.old.bound }
    requires none { has spread.old block ≡ false }
    ensures { Sets spread.old spread.new block to_be }
{
    if to_be {
        spread.insert(block);
    }
}

/// Of so many sites from a place on, keeps those off the boundary, and says how many.
fn keep_off(sites: &mut Vec<Site>, start: usize, count: u8, boundary: u8) -> u8
    requires { start + count ≤ length sites.old.items }
    ensures { KeepsOff sites.old.items sites.new.items start count result boundary }
{
    let mut kept = 0;
    for place in 0..count {
        let site = sites[start + place as usize];
        if site.boundary != boundary {
            sites[start + kept as usize] = site;
            kept += 1;
        }
    }
    kept
}

/// The slot of the site on the boundary.
fn slot_on(sites: &[Site], boundary: u8) -> u32
    requires { 0 < count_on boundary sites.now }
    ensures { Contains sites.now (record { boundary = boundary; slot = result }) }
{
    for site in sites {
        if site.boundary == boundary {
            return site.slot;
        }
    }
    unreachable!()
}
