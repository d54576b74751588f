// Steps on an array of blocks of 512 bytes. The first calls blank the members, two a boundary; the calls after them are the
// steps'. All values are worked out by hand.
ghost use Rattle.std.specs.Prelude.{◌≡◌, ◌<◌};
ghost use Rattle.dg_model.specs.Tables.{count_on, sites_in};
ghost use Rattle.dg_store.specs.Stores.{IsSound, shape_of};

use dg_io::{MemRack, Rack};
use dg_store::{
    FailAnswer, Fetched, Map, PlaceAnswer, Shape, Site, Store, StoreWrite, member_length,
};
use std::alloc::Global;
use std::process::Abort;
use std::test::Fail;

/// Blocks, boundaries and counted slots of an array.
pub type Numbers = (u32, u32, u32);

/// Four blocks over two boundaries of two counted slots.
pub const TWO: Numbers = (4, 2, 2);

#[derive(Clone, Copy)]
pub enum Step {
    /// Fills a block with a byte.
    Write(u32, u8, StoreWrite),
    /// Reads a block that is filled with one byte, or is gone.
    Read(u32, Option<u8>),
    /// Makes both members of a boundary fail.
    Lose(u8),
    /// Copies a block to a boundary.
    Place(u32, u8, bool, PlaceAnswer),
    /// Gives up a block's site on a boundary.
    Unplace(u32, u8),
    /// Which boundaries are lost.
    Lost(u16),
    /// The number of a block's sites, and the boundary and the slot of the last one.
    Sites(u32, usize, (u8, u32)),
}

// The byte that the block is filled with, where it isn't gone.
fn filler<R: Rack>(store: &mut Store<R>, block: u32) -> Option<u8>
    requires sound { IsSound R.Rack store.old }
    requires range { block < (shape_of store.old).n }
    requires size { (shape_of store.old).l ≡ 512 }
    ensures sound { IsSound R.Rack store.new }
    ensures shape { shape_of store.new ≡ shape_of store.old }
{
    let mut buf = [0xee; 512];
    match store.read(block, &mut buf) {
        Fetched::Got if buf.iter().all(|byte| *byte == buf[0]) => Some(buf[0]),
        Fetched::Got => Some(0xee),
        Fetched::Gone => None,
    }
}

// How many of the block's sites are on the boundary.
fn sites_on(map: &Map, block: u32, boundary: u8) -> usize
    requires { block < map.now.shape.n }
    ensures { result ≡ count_on boundary (sites_in map.now block) }
{
    let sites = map.sites(block);
    sites
        .iter()
        .filter(|site| site.boundary == boundary)
        .count()
}

// A step.
fn act<R: Rack>(rt: &impl Abort, store: &mut Store<R>, step: Step)
    requires sound { IsSound R.Rack store.old }
    requires size { (shape_of store.old).l ≡ 512 }
    ensures sound { IsSound R.Rack store.new }
    ensures shape { shape_of store.new ≡ shape_of store.old }
{
    let (n, b) = (store.shape().n, store.shape().b);
    match step {
        Step::Write(block, byte, want) => {
            assert!(rt; block < n);
            assert_eq!(rt; store.write(block, &[byte; 512]), Ok(want));
        }
        Step::Read(block, want) => {
            assert!(rt; block < n);
            assert_eq!(rt; filler(store, block), want);
        }
        Step::Lose(boundary) => {
            assert!(rt; boundary < b);
            let first = store.fail(boundary, 0);
            let second = store.fail(boundary, 1);
            assert_eq!(rt; (first, second), (FailAnswer::Taken, FailAnswer::Taken));
        }
        Step::Lost(want) => assert_eq!(rt; store.lost(), want),
        Step::Sites(block, count, (boundary, slot)) => {
            assert!(rt; block < n);
            let sites = store.map().sites(block);
            assert_eq!(rt; sites.len(), count);
            assert_eq!(rt; sites.last(), Some(&Site { boundary, slot }));
        }
        Step::Place(block, boundary, spare, want) => place(
            rt,
            store,
            (block, boundary),
            spare,
            want,
        ),
        Step::Unplace(block, boundary) => unplace(rt, store, block, boundary),
    }
}

// A copy of a block that is written and has no site on the boundary.
fn place<R: Rack>(
    rt: &impl Abort,
    store: &mut Store<R>,
    to: (u32, u8),
    spare: bool,
    want: PlaceAnswer,
)
    requires sound { IsSound R.Rack store.old }
    ensures sound { IsSound R.Rack store.new }
    ensures shape { shape_of store.new ≡ shape_of store.old }
{
    let (block, boundary) = to;
    assert!(rt; block < store.shape().n);
    assert!(rt; boundary < store.shape().b);
    assert!(rt; store.written(block));
    assert!(rt; sites_on(store.map(), block, boundary) == 0);
    assert_eq!(rt; store.place(block, boundary, spare), Ok(want));
}

// A site of a block that has another one.
fn unplace<R: Rack>(rt: &impl Abort, store: &mut Store<R>, block: u32, boundary: u8)
    requires sound { IsSound R.Rack store.old }
    ensures sound { IsSound R.Rack store.new }
    ensures shape { shape_of store.new ≡ shape_of store.old }
{
    assert!(rt; block < store.shape().n);
    assert!(rt; sites_on(store.map(), block, boundary) > 0);
    assert!(rt; store.map().sites(block).len() > 1);
    store.unplace(block, boundary);
}

// All the steps.
fn act_all<R: Rack>(rt: &impl Abort, store: &mut Store<R>, steps: &[Step])
    requires sound { IsSound R.Rack store.old }
    requires size { (shape_of store.old).l ≡ 512 }
    ensures sound { IsSound R.Rack store.new }
    ensures shape { shape_of store.new ≡ shape_of store.old }
{
    for step in steps {
        act(rt, store, *step);
    }
}

/// Plays the steps, and answers whether a boundary is lost at the end.
pub fn play(
    rt: &impl Abort,
    alloc: Global,
    numbers: Numbers,
    fails: &[u64],
    steps: &[Step],
) -> Result<bool, Fail> {
    let (n, b, k) = numbers;
    let shape = Shape::check(512, n, b, k, 1).ok_or("shape")?;
    let rack = MemRack::new(alloc, shape.b.wrapping_mul(2), 4096, fails.to_vec(alloc)?)
        .ok()
        .ok_or("rack")?;
    let Ok(mut store) = Store::new(alloc, rack, shape) else {
        return Err("store".into());
    };
    act_all(rt, &mut store, steps);
    let degraded = store.is_degraded();
    assert_eq!(rt; *store.shape(), shape);
    assert!(rt; shape.b > 1);
    assert_eq!(rt; store.boundary(1).is_lost(), store.lost() & 2 != 0);
    let _rack = store.into_rack();
    Ok(degraded)
}

#[test]
fn a_block_reads_as_last_written_until_its_boundary_is_lost(rt: HostRuntime) -> Result<(), Fail> {
    let steps = [
        Step::Read(3, Some(0)),
        Step::Write(3, 7, StoreWrite::Stored),
        Step::Read(3, Some(7)),
        Step::Write(2, 9, StoreWrite::Stored),
        // Calls 9 and 10, to members 2 and 3, fail.
        Step::Read(3, None),
        Step::Write(1, 5, StoreWrite::AllLost),
        Step::Read(1, Some(0)),
        Step::Read(2, Some(9)),
    ];
    assert_eq!(rt; play(&rt, rt.alloc(), TWO, &[9, 10], &steps)?, true);
    Ok(())
}

#[test]
fn one_member_of_a_boundary_serves(rt: HostRuntime) -> Result<(), Fail> {
    let steps = [
        Step::Write(0, 0xaa, StoreWrite::Stored),
        Step::Read(0, Some(0xaa)),
    ];
    assert_eq!(rt; play(&rt, rt.alloc(), TWO, &[0], &steps)?, false);
    Ok(())
}

#[test]
fn a_second_site_survives_the_first_boundary(rt: HostRuntime) -> Result<(), Fail> {
    let steps = [
        Step::Write(1, 5, StoreWrite::Stored),
        Step::Place(1, 0, false, PlaceAnswer::Placed),
        Step::Sites(1, 2, (0, 0)),
        // Both sites are written.
        Step::Write(1, 6, StoreWrite::Stored),
        Step::Lose(1),
        Step::Lost(2),
        Step::Read(1, Some(6)),
        Step::Lose(0),
        Step::Lost(3),
        Step::Read(1, None),
    ];
    assert_eq!(rt; play(&rt, rt.alloc(), TWO, &[], &steps)?, true);
    Ok(())
}

#[test]
fn a_site_that_is_given_up_is_free(rt: HostRuntime) -> Result<(), Fail> {
    let steps = [
        Step::Write(1, 5, StoreWrite::Stored),
        Step::Place(1, 0, false, PlaceAnswer::Placed),
        Step::Unplace(1, 1),
        Step::Sites(1, 1, (0, 0)),
        Step::Write(3, 8, StoreWrite::Stored),
        Step::Sites(3, 1, (1, 0)),
        Step::Read(1, Some(5)),
        Step::Lose(0),
        Step::Lost(1),
        Step::Read(1, None),
        Step::Read(3, Some(8)),
    ];
    assert_eq!(rt; play(&rt, rt.alloc(), TWO, &[], &steps)?, true);
    Ok(())
}

#[test]
fn a_copy_is_refused_where_it_has_no_place(rt: HostRuntime) -> Result<(), Fail> {
    let steps = [
        Step::Write(0, 1, StoreWrite::Stored),
        Step::Write(2, 2, StoreWrite::Stored),
        Step::Write(1, 3, StoreWrite::Stored),
        Step::Write(3, 4, StoreWrite::Stored),
        Step::Place(1, 0, false, PlaceAnswer::Full),
        Step::Place(1, 0, true, PlaceAnswer::Placed),
        Step::Sites(1, 2, (0, 2)),
        // The spare slot is used, too.
        Step::Place(3, 0, true, PlaceAnswer::Full),
        Step::Unplace(1, 0),
        Step::Lose(1),
        Step::Place(3, 0, true, PlaceAnswer::Gone),
        Step::Place(2, 1, true, PlaceAnswer::Lost(1)),
        Step::Sites(2, 1, (0, 1)),
        Step::Read(2, Some(2)),
    ];
    assert_eq!(rt; play(&rt, rt.alloc(), TWO, &[], &steps)?, true);
    Ok(())
}

#[test]
fn a_first_site_is_where_there_is_room(rt: HostRuntime) -> Result<(), Fail> {
    let steps = [
        Step::Write(0, 1, StoreWrite::Stored),
        Step::Write(1, 2, StoreWrite::Stored),
        Step::Place(1, 0, false, PlaceAnswer::Placed),
        // Boundary 0 is full.
        Step::Write(2, 3, StoreWrite::Stored),
        Step::Sites(2, 1, (1, 1)),
        // So is boundary 1: the second site of block 1 is given up.
        Step::Write(3, 4, StoreWrite::Stored),
        Step::Sites(1, 1, (1, 0)),
        Step::Sites(3, 1, (0, 1)),
        Step::Lose(0),
        Step::Read(0, None),
        Step::Read(1, Some(2)),
        Step::Read(2, Some(3)),
        Step::Read(3, None),
    ];
    assert_eq!(rt; play(&rt, rt.alloc(), TWO, &[], &steps)?, true);
    Ok(())
}

#[test]
fn a_refused_write_gives_the_sites_back(rt: HostRuntime) -> Result<(), Fail> {
    let steps = [
        Step::Write(0, 1, StoreWrite::Stored),
        Step::Write(1, 2, StoreWrite::Stored),
        Step::Place(1, 0, false, PlaceAnswer::Placed),
        Step::Write(2, 3, StoreWrite::Stored),
        Step::Lose(0),
        // Its first site would be on boundary 0, in the slot that block 1 would have given up.
        Step::Write(3, 4, StoreWrite::AllLost),
        Step::Sites(1, 2, (0, 1)),
        Step::Read(1, Some(2)),
        Step::Read(3, Some(0)),
    ];
    assert_eq!(rt; play(&rt, rt.alloc(), TWO, &[], &steps)?, true);
    Ok(())
}

#[test]
fn a_member_has_room_for_its_slots_and_the_saved_state(rt: HostRuntime) -> Result<(), Fail> {
    let shape = Shape::check(1024, 64, 4, 32, 2).ok_or("shape")?;
    assert_eq!(rt;
        member_length(&shape),
        512 + 33 * 1024 + 77 + 2 * 4 + 12 * 64 + 5 * 4 * 33
    );
    Ok(())
}
