// The addresses of the blocks of a file.
ghost use Rattle.std.specs.Prelude.{◌≡◌, ◌≤◌, ◌<◌, ◌+◌, ◌*◌, ◌^◌, IfOk, length, slice_index, slice_set, replicate};
ghost use Rattle.ufs_build.specs.Placements.{address_at, addresses_at, count_through, first_through, indirect_count, no_addresses, with_address};
ghost use Rattle.ufs_model.specs.Geometries.{IsGeometry};

use dg_model::NoMemory;
use std::alloc::Global;
use std::marker::Model;
use ufs_model::Geometry;

/// Direct slots of an inode (`NDADDR`).
pub const DIRECT: u64 = 12;

/// The addresses of a file's blocks by their numbers, and of its indirect blocks at each level. An
/// address of 0 is none.
#[derive(Debug, Drop)]
pub struct FileAddresses {
    data_blocks: Vec<u32>,
    ones: Vec<u32>,
    twos: Vec<u32>,
    threes: Vec<u32>,
}

impl Model for FileAddresses {
    ghost use Rattle.ufs_build.specs.Placements.{Addresses};

    ghost Value = { Addresses };

    ghost view = { λ a. record { data_blocks = a.data_blocks.items; ones = a.ones.items; twos = a.twos.items; threes = a.threes.items } };
}

/// The first file block that is reached through the indirect blocks of a level.
pub fn first_through(g: &Geometry, level: u32) -> u64
    requires { IsGeometry g.now }
    ensures { result ≡ first_through g.now level }
{
    let nindir = u64::from(g.nindir);
    if level == 1 {
        DIRECT
    } else if level == 2 {
        DIRECT + nindir
    } else {
        DIRECT + nindir + nindir * nindir
    }
}

/// How many file blocks are reached through each indirect block of a level.
pub fn count_through(g: &Geometry, level: u32) -> u64
    requires { IsGeometry g.now }
    ensures count { result ≡ count_through g.now level }
    ensures some { 1 ≤ result }
{
    let nindir = u64::from(g.nindir);
    if level == 1 {
        nindir
    } else if level == 2 {
        nindir * nindir
    } else {
        nindir * nindir * nindir
    }
}

/// How many indirect blocks of a level a file of so many blocks may need.
fn indirect_count(g: &Geometry, level: u32, blocks: u64) -> u64
    requires { IsGeometry g.now }
    ensures count { result ≡ indirect_count g.now level blocks }
    ensures few { result ≤ blocks }
{
    blocks
        .saturating_sub(first_through(g, level))
        .div_ceil(count_through(g, level))
}

/// So many zeros.
fn zeros(alloc: Global, count: u64) -> Result<Vec<u32>, NoMemory>
    ensures { IfOk result (λ list. list.items ≡ replicate count 0) }
{
    match vec![in alloc; 0u32; count as usize] {
        Ok(list) => Ok(list),
        Err(_) => Err(NoMemory),
    }
}

/// A number of a list, or 0 past its end.
fn number_at(list: &[u32], index: u64) -> u32
    ensures { result ≡ slice_index list.now index }
{
    match list.get(index as usize) {
        Some(number) => *number,
        None => 0,
    }
}

/// Sets a number of a list.
fn set_number(list: &mut Vec<u32>, index: u64, number: u32)
    ensures { list.new.items ≡ slice_set list.old.items index number }
{
    if let Some(place) = list.get_mut(index as usize) {
        *place = number;
    }
}

impl FileAddresses {
    ghost use Rattle.ufs_build.specs.Placements.{address_at, addresses_at, no_addresses, with_address};

    /// No addresses yet, for a file of so many blocks.
    #[tactic(auto, unfolding(crate::specs::Placements::no_addresses))]
    pub fn new(alloc: Global, g: &Geometry, blocks: u64) -> Result<FileAddresses, NoMemory>
        requires { IsGeometry g.now }
        ensures { IfOk result (λ addresses. addresses ≡ no_addresses g.now blocks) }
    {
        let data_blocks = zeros(alloc, blocks)?;
        let ones = zeros(alloc, indirect_count(g, 1, blocks))?;
        let twos = zeros(alloc, indirect_count(g, 2, blocks))?;
        let threes = zeros(alloc, indirect_count(g, 3, blocks))?;
        Ok(FileAddresses {
            data_blocks,
            ones,
            twos,
            threes,
        })
    }

    /// The addresses of the blocks of a level, of which 0 are those of data.
    pub fn of_level(&self, level: u32) -> &[u32]
        ensures { result.now ≡ addresses_at self.now level }
    {
        if level == 0 {
            &self.data_blocks
        } else if level == 1 {
            &self.ones
        } else if level == 2 {
            &self.twos
        } else {
            &self.threes
        }
    }

    /// The address of a block at a level, or 0.
    pub fn at(&self, level: u32, index: u64) -> u32
        ensures { result ≡ address_at self.now level index }
    {
        number_at(self.of_level(level), index)
    }

    /// Gives a block at a level its address.
    #[tactic(auto, unfolding(crate::specs::Placements::with_address))]
    pub fn set(&mut self, level: u32, index: u64, address: u32)
        ensures { self.new ≡ with_address self.old level index address }
    {
        if level == 0 {
            set_number(&mut self.data_blocks, index, address)
        } else if level == 1 {
            set_number(&mut self.ones, index, address)
        } else if level == 2 {
            set_number(&mut self.twos, index, address)
        } else {
            set_number(&mut self.threes, index, address)
        }
    }
}
