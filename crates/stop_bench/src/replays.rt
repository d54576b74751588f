// Writes of an array over a rack in memory.
ghost use Rattle.std.specs.Prelude.{◌≡◌, length};
ghost use Rattle.dg_model.specs.Shapes.{IsShape};
ghost use Rattle.dg_store.specs.Stores.{IsSound, shape_of};

use crate::numbers::Numbers;
use dg_io::{NoMemory, Rack, SureRack};
use dg_model::Shape;
use dg_stop::StopRack;
use dg_store::{Store, StoreWrite};
use std::alloc::Global;

/// Members of the array.
const MEMBERS: u8 = 4;

/// The most blocks are 2 to this.
const MOST_BITS: u32 = 17;

/// The most bytes of a block.
const MOST_SIZE: u32 = 4096;

/// Whether a page of the rack has one place or two.
#[derive(Clone, Copy, Debug, PartialEq, Eq)]
pub enum Kind {
    Plain,
    Double,
}

/// Writes a block, if there is such a one. Whether it was stored.
fn write_one<R: Rack>(store: &mut Store<R>, block: u32, bytes: &[u8]) -> Result<bool, NoMemory>
    requires sound { IsSound R.Rack store.old }
    requires size { length bytes.now ≡ (shape_of store.old).l }
    ensures sound { IsSound R.Rack store.new }
    ensures shape { shape_of store.new ≡ shape_of store.old }
{
    if block >= store.shape().n {
        return Ok(false);
    }
    Ok(store.write(block, bytes)? == StoreWrite::Stored)
}

/// Writes so many blocks of these bytes. How many were stored.
fn write_all<R: Rack>(store: &mut Store<R>, writes: u32, bytes: &[u8]) -> Result<u32, NoMemory>
    requires sound { IsSound R.Rack store.old }
    requires size { length bytes.now ≡ (shape_of store.old).l }
{
    let mut numbers = Numbers::new(1);
    let blocks = store.shape().n.max(1);
    let mut stored: u32 = 0;
    for _ in 0..writes {
        let block = numbers.below(blocks);
        if write_one(store, block, bytes)? {
            stored = stored.saturating_add(1);
        }
    }
    Ok(stored)
}

/// Makes the array over this rack and writes to it.
fn write_over<R: Rack + Drop>(
    alloc: Global,
    rack: R,
    shape: Shape,
    writes: u32,
) -> Result<u32, NoMemory>
    requires { IsShape shape }
{
    let mut store = Store::new(alloc, rack, shape)?;
    let Ok(bytes) = vec![in alloc; 7; store.shape().l as usize] else {
        return Err(NoMemory);
    };
    write_all(&mut store, writes, &bytes)
}

/// Makes an array of 2^bits blocks of so many bytes and so many writes. How many were stored; none where there is no such array.
pub fn replays(
    alloc: Global,
    kind: Kind,
    size: u32,
    bits: u32,
    writes: u32,
) -> Result<u32, NoMemory> {
    let blocks = 1 << bits.min(MOST_BITS);
    let Some(shape) = Shape::check(size.min(MOST_SIZE), blocks, 2, blocks / 2, 1) else {
        return Ok(0);
    };
    let length = u64::from(shape.k + 1) * u64::from(shape.l) + 40 * u64::from(shape.k) + 4096;
    match kind {
        Kind::Plain => {
            let rack = SureRack::new(alloc, MEMBERS, length)?;
            write_over(alloc, StopRack::plain(rack), shape, writes)
        }
        Kind::Double => {
            let rack = SureRack::new(alloc, MEMBERS, 2 * length + length / 256 + 8192)?;
            let double = StopRack::new(alloc, rack, MEMBERS, length, 0)?;
            write_over(alloc, double, shape, writes)
        }
    }
}
