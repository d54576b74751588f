ghost use Rattle.std.specs.Prelude.{◌≡◌};
ghost use Rattle.dg_model.specs.Tables.{count_on};

use Answer::{Barred, Full, Left, NoMemory, Slot};
use Call::{GiveUp, Retake, Spare, Take};
use dg_map::{Map, Shape, Site, TakeFault};
use std::process::Abort;
use std::test::Fail;

/// A call on a map, for a block and a boundary.
#[derive(Clone, Copy, Debug)]
enum Call {
    Take,
    Spare,
    GiveUp,
    /// The slot.
    Retake(u32),
}

#[derive(Clone, Copy, Debug, PartialEq, Eq)]
enum Answer {
    /// The slot that was taken.
    Slot(u32),
    Full,
    NoMemory,
    /// The block that stands in the slot of the dropped site.
    Left(Option<u32>),
    /// A condition of the call isn't met.
    Barred,
}

fn count(sites: &[Site], boundary: u8) -> usize
    ensures { result ≡ count_on boundary sites.now }
{
    sites
        .iter()
        .filter(|site| site.boundary == boundary)
        .count()
}

fn taken(outcome: Result<Site, TakeFault>) -> Answer {
    match outcome {
        Ok(site) => Slot(site.slot),
        Err(TakeFault::Full) => Full,
        Err(TakeFault::NoMemory) => NoMemory,
    }
}

fn retaken(map: &mut Map, block: u32, site: Site) -> Answer {
    let shape = *map.shape();
    let is_off = block < shape.n
        && site.boundary < shape.b
        && count(map.sites(block), site.boundary) == 0;
    if !is_off || site.slot > shape.k {
        return Barred;
    }
    let None = map.block_at(site) else {
        return Barred;
    };
    match map.retake(block, site) {
        Ok(()) => Slot(site.slot),
        Err(_) => NoMemory,
    }
}

fn dropped(map: &mut Map, block: u32, boundary: u8) -> Answer {
    let shape = *map.shape();
    if block >= shape.n || boundary >= shape.b || count(map.sites(block), boundary) == 0 {
        return Barred;
    }
    let Some(site) = map
        .sites(block)
        .iter()
        .find(|site| site.boundary == boundary)
        .copied()
    else {
        return Barred;
    };
    map.drop_site(block, boundary);
    Left(map.block_at(site))
}

fn called(map: &mut Map, call: Call, block: u32, boundary: u8) -> Answer {
    let shape = *map.shape();
    match call {
        GiveUp => dropped(map, block, boundary),
        Retake(slot) => retaken(map, block, Site { boundary, slot }),
        _ if block >= shape.n || boundary >= shape.b || count(map.sites(block), boundary) != 0 =>
            Barred,
        Take => taken(map.take(block, boundary)),
        Spare => taken(map.take_spare(block, boundary)),
    }
}

/// The boundary and the slot of the block's site at this place of its list.
fn place(map: &Map, block: u32, at: usize) -> Option<(u8, u32)> {
    if block >= map.shape().n {
        return None;
    }
    map.sites(block)
        .get(at)
        .map(|site| (site.boundary, site.slot))
}

/// The used slots of the boundary, and those left.
fn counts(map: &Map, boundary: u8) -> Option<(u32, u32)> {
    if boundary >= map.shape().b {
        return None;
    }
    Some((map.used(boundary), map.room(boundary)))
}

/// A call, its block and boundary, its answer, the boundary's used slots and those left, and the block's sites.
type Row = (
    Call,
    u32,
    u8,
    Answer,
    (u32, u32),
    Option<(u8, u32)>,
    Option<(u8, u32)>,
);

static ROWS: [Row; 20] = [
    (Take, 0, 0, Slot(0), (1, 2), Some((0, 0)), None),
    (Take, 1, 0, Slot(1), (2, 1), Some((0, 1)), None),
    (Take, 2, 0, Slot(2), (3, 0), Some((0, 2)), None),
    (Take, 3, 0, Full, (3, 0), None, None),
    (Spare, 3, 0, Slot(3), (4, 0), Some((0, 3)), None),
    (Spare, 4, 0, Full, (4, 0), None, None),
    (Take, 4, 0, Full, (4, 0), None, None),
    (Take, 0, 1, Slot(0), (1, 2), Some((0, 0)), Some((1, 0))),
    (GiveUp, 1, 0, Left(None), (3, 0), None, None),
    (Take, 1, 0, Full, (3, 0), None, None),
    (GiveUp, 3, 0, Left(None), (2, 1), None, None),
    (Take, 4, 0, Slot(1), (3, 0), Some((0, 1)), None),
    (GiveUp, 0, 1, Left(None), (0, 3), Some((0, 0)), None),
    (Retake(0), 0, 1, Slot(0), (1, 2), Some((0, 0)), Some((1, 0))),
    (GiveUp, 0, 0, Left(None), (2, 1), Some((1, 0)), None),
    (Take, 0, 0, Slot(0), (3, 0), Some((1, 0)), Some((0, 0))),
    (Retake(3), 5, 1, Slot(3), (2, 1), Some((1, 3)), None),
    (Take, 3, 1, Slot(1), (3, 0), Some((1, 1)), None),
    (Spare, 1, 1, Slot(2), (4, 0), Some((1, 2)), None),
    (Spare, 5, 0, Slot(3), (4, 0), Some((1, 3)), Some((0, 3))),
];

/// One block gives up its only site, and then the last of two, and takes it again.
static AGAIN: [Row; 9] = [
    (Take, 2, 0, Slot(0), (1, 2), Some((0, 0)), None),
    (Take, 3, 0, Slot(1), (2, 1), Some((0, 1)), None),
    (GiveUp, 2, 0, Left(None), (1, 2), None, None),
    (Retake(0), 2, 0, Slot(0), (2, 1), Some((0, 0)), None),
    (GiveUp, 2, 0, Left(None), (1, 2), None, None),
    (Take, 2, 0, Slot(0), (2, 1), Some((0, 0)), None),
    (Take, 2, 1, Slot(0), (1, 2), Some((0, 0)), Some((1, 0))),
    (GiveUp, 2, 1, Left(None), (0, 3), Some((0, 0)), None),
    (Retake(0), 2, 1, Slot(0), (1, 2), Some((0, 0)), Some((1, 0))),
];

/// A call, its block and boundary, its answer, and the least block with more than one site then.
static SPREADS: [(Call, u32, u8, Answer, Option<u32>); 10] = [
    (Take, 4999, 0, Slot(0), None),
    (Take, 4999, 1, Slot(0), Some(4999)),
    (Take, 4100, 1, Slot(1), Some(4999)),
    (Take, 4100, 0, Slot(1), Some(4100)),
    (Take, 70, 0, Slot(2), Some(4100)),
    (Take, 70, 1, Slot(2), Some(70)),
    (GiveUp, 4100, 0, Left(None), Some(70)),
    (GiveUp, 70, 1, Left(None), Some(4999)),
    (GiveUp, 4999, 0, Left(None), None),
    (Take, 0, 0, Slot(0), None),
];

fn check_row(rt: &impl Abort, map: &mut Map, row: &Row) {
    let &(call, block, boundary, want, counted, first, second) = row;
    assert_eq!(rt;
        called(map, call, block, boundary),
        want,
        "{call:?} {block} {boundary}"
    );
    assert_eq!(rt;
        counts(map, boundary),
        Some(counted),
        "{call:?} {block} {boundary}"
    );
    assert_eq!(rt; place(map, block, 0), first, "{call:?} {block} {boundary}");
    assert_eq!(rt; place(map, block, 1), second, "{call:?} {block} {boundary}");
}

/// The block in each site after the last row.
fn check_blocks(rt: &impl Abort, map: &Map) {
    for (boundary, blocks) in [
        (0, [Some(0), Some(4), Some(2), Some(5), None]),
        (1, [Some(0), Some(3), Some(1), Some(5), None]),
        (2, [None; 5]),
    ] {
        for (slot, block) in (0..).zip(blocks) {
            assert_eq!(rt;
                map.block_at(Site { boundary, slot }),
                block,
                "{boundary} {slot}"
            );
        }
    }
}

// Six blocks on two boundaries of three counted slots and the spare one.
#[test]
fn takes_and_drops(rt: HostRuntime) -> Result<(), Fail> {
    let shape = Shape::check(512, 6, 2, 3, 1).ok_or("the shape")?;
    let Ok(mut map) = Map::new(rt.alloc(), shape) else {
        return Err("no memory".into());
    };
    assert_eq!(rt; *map.shape(), shape);
    for row in &ROWS {
        check_row(&rt, &mut map, row);
    }
    check_blocks(&rt, &map);
    Ok(())
}

#[test]
fn takes_a_last_site_again(rt: HostRuntime) -> Result<(), Fail> {
    let shape = Shape::check(512, 6, 2, 3, 1).ok_or("the shape")?;
    let Ok(mut map) = Map::new(rt.alloc(), shape) else {
        return Err("no memory".into());
    };
    for row in &AGAIN {
        check_row(&rt, &mut map, row);
    }
    Ok(())
}

// Blocks in three words of bits, two of them in one group.
#[test]
fn finds_spread_blocks(rt: HostRuntime) -> Result<(), Fail> {
    let shape = Shape::check(512, 5000, 2, 5000, 1).ok_or("the shape")?;
    let Ok(mut map) = Map::new(rt.alloc(), shape) else {
        return Err("no memory".into());
    };
    for &(call, block, boundary, want, least) in &SPREADS {
        assert_eq!(rt;
            called(&mut map, call, block, boundary),
            want,
            "{call:?} {block} {boundary}"
        );
        assert_eq!(rt; map.least_spread(), least, "{call:?} {block} {boundary}");
    }
    Ok(())
}
