// A member of boundary 0 fails, is made anew and is refilled. Blocks of 512 bytes over two boundaries.
ghost use Rattle.std.specs.Prelude.{◌≡◌, ◌*◌, ◌<◌, ◌≤◌};
ghost use Rattle.dg_store.specs.Stores.{IsSound, shape_of};

use dg_io::{MemRack, Rack};
use dg_rebuild::{NoMemory, RebuildAnswer, rebuild};
use dg_store::{Fetched, Shape, Store, member_length};
use std::alloc::Global;
use std::test::Fail;

// The limit of a refill that goes on to the end.
const ALL: u32 = 99;

// Side 1 of boundary 0 fails and is made anew.
fn renew<R: Rack>(store: &mut Store<R>)
    requires sound { IsSound R.Rack store.old }
    requires boundaries { 0 < (shape_of store.old).b }
    ensures sound { IsSound R.Rack store.new }
    ensures shape { shape_of store.new ≡ shape_of store.old }
{
    let _ = store.fail(0, 1);
    let size = member_length(store.shape());
    let _ = store.replace(0, 1, size);
}

// Writes the first blocks that stand on boundary 0: 0, 2, 4 and so on, so many of them.
fn fill<R: Rack>(store: &mut Store<R>, count: u32)
    requires sound { IsSound R.Rack store.old }
    requires blocks { 2 * count ≤ (shape_of store.old).n }
    requires size { (shape_of store.old).l ≡ 512 }
    ensures sound { IsSound R.Rack store.new }
    ensures shape { shape_of store.new ≡ shape_of store.old }
{
    for number in 0..count {
        let _ = store.write(2 * number, &[7; 512]);
    }
}

// What a refill of boundary 0 of an array of four blocks answers where none is dead, and the last block that it reaps.
fn refill<R: Rack>(
    alloc: Global,
    store: &mut Store<R>,
) -> Result<(RebuildAnswer, Option<u32>), NoMemory>
    requires sound { IsSound R.Rack store.old }
    requires boundaries { 0 < (shape_of store.old).b }
    requires blocks { (shape_of store.old).n ≡ 4 }
    ensures sound { IsSound R.Rack store.new }
    ensures shape { shape_of store.new ≡ shape_of store.old }
{
    let mut reaped = Vec::new(alloc);
    let answer = rebuild(alloc, store, 0, ALL, &[false; 4], &mut reaped)?;
    Ok((answer, reaped.pop()))
}

// Whether a block reads as it was written, or else as zeros. It is none of both where it is gone.
fn reads_written<R: Rack>(store: &mut Store<R>, block: u32) -> Option<bool>
    requires sound { IsSound R.Rack store.old }
    requires blocks { block < (shape_of store.old).n }
    requires size { (shape_of store.old).l ≡ 512 }
    ensures sound { IsSound R.Rack store.new }
    ensures shape { shape_of store.new ≡ shape_of store.old }
{
    let mut buf = [0xee; 512];
    match store.read(block, &mut buf) {
        Fetched::Got => Some(buf.iter().all(|byte| *byte == 7)),
        Fetched::Gone => None,
    }
}

// Four blocks over two boundaries of two counted slots: blocks 0 and 2 are written, the member is refilled, and then the
// one that it was refilled from fails.
fn outcome(
    alloc: Global,
    fails: u64,
) -> Result<((RebuildAnswer, Option<u32>), Option<bool>, Option<bool>), Fail> {
    let shape = Shape::check(512, 4, 2, 2, 1).ok_or("shape")?;
    let mut calls = Vec::new(alloc);
    calls.push(fails)?;
    let rack = MemRack::new(alloc, 4, 4096, calls).ok().ok_or("rack")?;
    let Ok(mut store) = Store::new(alloc, rack, shape) else {
        return Err("store".into());
    };
    fill(&mut store, 2);
    renew(&mut store);
    let Ok(answer) = refill(alloc, &mut store) else {
        return Err("refill".into());
    };
    let _ = store.fail(0, 0);
    let first = reads_written(&mut store, 0);
    let second = reads_written(&mut store, 2);
    Ok((answer, first, second))
}

#[test]
fn each_call_fails_in_turn(rt: HostRuntime) -> Result<(), Fail> {
    use RebuildAnswer::{Copied, Failed, Lost, NotFilling};
    let copied = Copied { done: 2, left: 0 };
    for (call, answer) in [
        // Members 0 and 1 are blanked, and then those of the other boundary.
        (0, Lost(0)),
        (1, copied),
        (3, copied),
        // Both blocks are written.
        (4, Lost(0)),
        (5, copied),
        (6, Lost(0)),
        (7, copied),
        // The member is replaced.
        (8, NotFilling),
        // Each slot is copied: a read, and a write.
        (9, Lost(0)),
        (10, Failed),
        (11, Lost(0)),
        (12, Failed),
    ] {
        let kept = if answer == copied { Some(true) } else { None };
        assert_eq!(rt;
            outcome(rt.alloc(), call)?,
            ((answer, None), kept, kept),
            "{call}"
        );
    }
    Ok(())
}
