//! For the benchmark of what is left of an array. The words are how many blocks the array has, and how often what is left of it
//! without one of its four boundaries is made. Each block has a site, and half of the blocks have two; one of 16 has a home. It
//! prints how many blocks are cut.
#![tactic(auto)]

ghost use Rattle.std.specs.Prelude.{◌≡◌};
ghost use Rattle.dg_model.specs.Shapes.{IsShape};
ghost use Rattle.dg_model.specs.Tables.{count_on};

use dg_map::{Map, Site, TakeFault};
use dg_model::{Home, Shape};
use dg_plan::Homes;
use dg_regroup::{NoMemory, cut_over};
use std::alloc::Global;
use std::env;
use std::io::{self, ErrorKind};

/// The lost boundary.
const LOST: u16 = 1 << 2;

/// How many blocks there are for each home.
const BLOCKS_OF_HOME: u32 = 16;

/// The number that a word is, or else 1.
fn number(word: Option<String>) -> u32 {
    match word {
        Some(word) => word.parse().unwrap_or(1),
        None => 1,
    }
}

/// The numbers of the two words.
fn numbers(rt: HostRuntime) -> io::Result<(u32, u32)> {
    let mut words = env::args(&rt)?;
    let blocks = number(words.nth(1));
    let times = number(words.next());
    Ok((blocks, times))
}

/// How many of the sites are on the boundary.
fn count(sites: &[Site], boundary: u8) -> usize
    ensures { result ≡ count_on boundary sites.now }
{
    sites
        .iter()
        .filter(|site| site.boundary == boundary)
        .count()
}

/// Gives a block a site on one of the four boundaries, where it has none there and a slot is left.
fn give(map: &mut Map, block: u32, number: u32) -> Result<(), NoMemory> {
    let boundary = (number % 4) as u8;
    let shape = *map.shape();
    if block >= shape.n || boundary >= shape.b || count(map.sites(block), boundary) != 0 {
        return Ok(());
    }
    match map.take(block, boundary) {
        Err(TakeFault::NoMemory) => Err(NoMemory),
        _ => Ok(()),
    }
}

/// The sites: four blocks with two each, and then four with one.
fn map_of(alloc: Global, shape: Shape) -> Result<Map, NoMemory>
    requires { IsShape shape }
{
    let mut map = Map::new(alloc, shape)?;
    for block in 0..shape.n {
        give(&mut map, block, block)?;
        if block / 4 % 2 == 0 {
            give(&mut map, block, block + 1)?;
        }
    }
    Ok(map)
}

/// A home for each 16 blocks.
fn homes_of(alloc: Global, blocks: u32) -> Result<Homes, NoMemory> {
    let mut homes = Vec::new(alloc);
    for file in 0..blocks / BLOCKS_OF_HOME {
        let home = Home {
            inode: file,
            boundary: (file % 4) as u8,
        };
        let Ok(()) = homes.push(home) else {
            return Err(NoMemory);
        };
    }
    Ok(Homes::new(homes))
}

/// Makes what is left so many times. The number of blocks that are cut.
fn cut_blocks(alloc: Global, map: &Map, homes: &Homes, times: u32) -> Result<usize, NoMemory> {
    if !homes.ascend() {
        return Ok(0);
    }
    let mut cut = 0;
    for _ in 0..times {
        match cut_over(alloc, map, *map.shape(), homes, homes, LOST)? {
            Some(left) => cut = left.cut.len(),
            None => return Ok(0),
        }
    }
    Ok(cut)
}

/// Want of memory, as an error of the system.
fn no_memory(_: NoMemory) -> io::Error {
    io::Error::from(ErrorKind::OutOfMemory)
}

fn main(rt: HostRuntime) -> io::Result<()> {
    let (blocks, times) = numbers(rt)?;
    let Some(shape) = Shape::check(1024, blocks, 4, blocks / 2, 2) else {
        return println!(rt; "no array has {} blocks", blocks);
    };
    let map = map_of(rt.alloc(), shape).map_err(no_memory)?;
    let homes = homes_of(rt.alloc(), shape.n).map_err(no_memory)?;
    let cut = cut_blocks(rt.alloc(), &map, &homes, times).map_err(no_memory)?;
    println!(rt; "{} blocks are cut", cut)
}
