//! For the benchmarks of the map and of evictions. The words are `map N B K`, which makes a map of so many blocks, boundaries and
//! slots, or `spread BITS` and `evict BITS`, which write half of 2^BITS blocks in memory and give each a second site, so that each
//! slot is used; `evict` then writes the other half, each of which takes the place of a second site. It prints how many slots of
//! boundary 0 are used.
#![tactic(auto)]

ghost use Rattle.std.specs.Prelude.{◌≡◌, ◌<◌, ◌≤◌, IfOk, length};
ghost use Rattle.dg_store.specs.Stores.{IsSound, shape_of};

use dg_io::{NoMemory, Rack, SureRack};
use dg_map::Map;
use dg_model::Shape;
use dg_store::Store;
use std::alloc::Global;
use std::env;
use std::io::{self, ErrorKind};

/// Bytes of a block.
const BLOCK: u32 = 512;

/// The words behind the program's name: the task, and up to three numbers, 0 where there is none.
fn words_of(rt: HostRuntime) -> io::Result<(Task, u32, u32, u32)> {
    let mut words = env::args(&rt)?;
    let task = match words.nth(1) {
        Some(word) => task_of(word.as_str()),
        None => Task::Map,
    };
    let mut numbers = [0; 3];
    for number in &mut numbers {
        if let Some(word) = words.next() {
            *number = word.parse().unwrap_or(0);
        }
    }
    Ok((task, numbers[0], numbers[1], numbers[2]))
}

/// What is measured.
#[derive(Clone, Copy, Debug, PartialEq, Eq)]
enum Task {
    Map,
    Spread,
    Evict,
}

fn task_of(word: &str) -> Task {
    if word == "spread" {
        Task::Spread
    } else if word == "evict" {
        Task::Evict
    } else {
        Task::Map
    }
}

/// Writes the blocks from one to before another, as far as there are so many.
fn write_all<R: Rack>(
    store: &mut Store<R>,
    from: u32,
    to: u32,
    bytes: &[u8],
) -> Result<(), NoMemory>
    requires sound { IsSound R.Rack store.old }
    requires size { length bytes.now ≡ (shape_of store.old).l }
    ensures sound { IsSound R.Rack store.new }
    ensures shape { shape_of store.new ≡ shape_of store.old }
{
    for block in from..to.min(store.shape().n) {
        store.write(block, bytes)?;
    }
    Ok(())
}

/// Gives a block of two boundaries that stands on one of them a site on the other one.
fn spread<R: Rack>(store: &mut Store<R>, block: u32) -> Result<(), NoMemory>
    requires sound { IsSound R.Rack store.old }
    requires range { block < (shape_of store.old).n }
    ensures sound { IsSound R.Rack store.new }
    ensures shape { shape_of store.new ≡ shape_of store.old }
{
    let sites = store.map().sites(block);
    if sites.len() != 1 || store.shape().b != 2 {
        return Ok(());
    }
    let other = if sites[0].boundary == 0 { 1 } else { 0 };
    store.place(block, other, false)?;
    Ok(())
}

/// Does this with each block before a number, as far as there are so many.
fn spread_all<R: Rack>(store: &mut Store<R>, to: u32) -> Result<(), NoMemory>
    requires sound { IsSound R.Rack store.old }
    ensures sound { IsSound R.Rack store.new }
    ensures shape { shape_of store.new ≡ shape_of store.old }
{
    for block in 0..to.min(store.shape().n) {
        spread(store, block)?;
    }
    Ok(())
}

/// The array of two boundaries, half of whose blocks have two sites and, where that is asked for, all others then one.
fn used_slots(alloc: Global, bits: u32, evicts: bool) -> Result<u32, NoMemory> {
    let blocks = 1 << bits.min(20);
    let Some(shape) = Shape::check(BLOCK, blocks, 2, blocks / 2, 1) else {
        return Ok(0);
    };
    let slots = u64::from(shape.k) + 1;
    let rack = SureRack::new(alloc, 4, 600 * slots + 1024)?;
    let mut store = Store::new(alloc, rack, shape)?;
    let bytes = [7; BLOCK as usize];
    write_all(&mut store, 0, blocks / 2, &bytes)?;
    spread_all(&mut store, blocks / 2)?;
    if evicts {
        write_all(&mut store, blocks / 2, blocks, &bytes)?;
    }
    Ok(store.map().used(0))
}

/// The used slots of boundary 0 of a map that is just made: none.
fn used_in_map(alloc: Global, blocks: u32, boundaries: u32, slots: u32) -> Result<u32, NoMemory> {
    let Some(shape) = Shape::check(BLOCK, blocks, boundaries, slots, 1) else {
        return Ok(0);
    };
    let map = Map::new(alloc, shape)?;
    Ok(map.used(0))
}

fn main(rt: HostRuntime) -> io::Result<()> {
    let (task, first, second, third) = words_of(rt)?;
    let alloc = rt.alloc();
    let used = match task {
        Task::Map => used_in_map(alloc, first, second, third),
        Task::Spread => used_slots(alloc, first, false),
        Task::Evict => used_slots(alloc, first, true),
    };
    match used {
        Ok(used) => println!(rt; "{} slots of boundary 0 are used", used),
        Err(NoMemory) => Err(io::Error::from(ErrorKind::OutOfMemory)),
    }
}
