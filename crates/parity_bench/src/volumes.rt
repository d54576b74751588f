// Writes of an array over racks in memory: its members are pairs, or groups of disks.
ghost use Rattle.std.specs.Prelude.{◌≡◌, ◌≤◌, length};
ghost use Rattle.dg_model.specs.Shapes.{IsShape};
ghost use Rattle.dg_store.specs.Stores.{IsSound, shape_of};

use crate::numbers::Numbers;
use crate::watched::{Moved, Seen, Watched};
use dg_io::{NoMemory, Rack, SureRack};
use dg_model::Shape;
use dg_parity::{ParityRack, disk_length};
use dg_store::{Store, StoreWrite};
use std::alloc::Global;

/// Boundaries of the array.
const BOUNDARIES: u8 = 2;

/// Members of an array of groups.
const DISKS: u8 = 48;

/// The most blocks are 2 to this.
const MOST_BITS: u32 = 17;

/// The most bytes of a block.
const MOST_SIZE: u32 = 4096;

/// How many writes were stored or reads made, and what was moved by them.
#[derive(Clone, Copy)]
pub struct Measured {
    pub done: u32,
    pub moved: Moved,
}

/// Writes a block, if there is such a one. Whether it was stored.
fn write_one<R: Rack>(store: &mut Store<R>, block: u32, bytes: &[u8]) -> Result<bool, NoMemory>
    requires sound { IsSound R.Rack store.old }
    requires size { length bytes.now ≡ (shape_of store.old).l }
    ensures sound { IsSound R.Rack store.new }
    ensures shape { shape_of store.new ≡ shape_of store.old }
{
    if block >= store.shape().n {
        return Ok(false);
    }
    Ok(store.write(block, bytes)? == StoreWrite::Stored)
}

/// Writes so many blocks of these bytes. How many were stored.
fn write_all<R: Rack>(store: &mut Store<R>, writes: u32, bytes: &[u8]) -> Result<u32, NoMemory>
    requires sound { IsSound R.Rack store.old }
    requires size { length bytes.now ≡ (shape_of store.old).l }
{
    let mut numbers = Numbers::new(1);
    let blocks = store.shape().n.max(1);
    let mut stored: u32 = 0;
    for _ in 0..writes {
        let block = numbers.below(blocks);
        if write_one(store, block, bytes)? {
            stored = stored.saturating_add(1);
        }
    }
    Ok(stored)
}

/// Makes the array over this rack and writes to it.
fn write_over<R: Rack + Drop>(
    alloc: Global,
    rack: R,
    seen: &Seen,
    shape: Shape,
    writes: u32,
) -> Result<Measured, NoMemory>
    requires { IsShape shape }
{
    let mut store = Store::new(alloc, rack, shape)?;
    let Ok(bytes) = vec![in alloc; 7; store.shape().l as usize] else {
        return Err(NoMemory);
    };
    seen.take();
    let done = write_all(&mut store, writes, &bytes)?;
    Ok(Measured {
        done,
        moved: seen.take(),
    })
}

/// Makes an array of 2^bits blocks of so many bytes and so many writes: of groups of so many disks, or of pairs where that is no width of a group.
/// `None` where there is no such array.
pub fn writes(
    alloc: Global,
    disks: u8,
    size: u32,
    bits: u32,
    count: u32,
) -> Result<Option<Measured>, NoMemory> {
    let blocks = 1 << bits.min(MOST_BITS);
    let Some(shape) = Shape::check(size.min(MOST_SIZE), blocks, 2, blocks / 2, 1) else {
        return Ok(None);
    };
    let length = u64::from(shape.k + 1) * u64::from(shape.l) + 40 * u64::from(shape.k) + 4096;
    let seen = Seen::new();
    if disks < 3 || disks > 8 {
        let rack = SureRack::new(alloc, 2 * BOUNDARIES, length)?;
        let watched = Watched { rack, seen: &seen };
        return Ok(Some(write_over(alloc, watched, &seen, shape, count)?));
    }
    let rack = SureRack::new(alloc, DISKS, disk_length(disks, length))?;
    let watched = Watched { rack, seen: &seen };
    let groups = ParityRack::new(alloc, watched, BOUNDARIES, disks)?;
    Ok(Some(write_over(alloc, groups, &seen, shape, count)?))
}
