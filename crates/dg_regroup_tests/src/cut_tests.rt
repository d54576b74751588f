// What is left of an array, worked out by hand.
ghost use Rattle.std.specs.Prelude.{◌≡◌, ◌<◌};
ghost use Rattle.dg_model.specs.Tables.{count_on, sites_in};

use dg_map::Map;
use dg_model::{Home, Shape, Site};
use dg_plan::Homes;
use dg_regroup::{CutOver, cut_over};
use std::alloc::Global;
use std::process::Abort;
use std::test::Fail;

/// A block, a boundary and a slot of it.
type Stand = (u32, u8, u32);

/// A settled volume of three files on four boundaries of 64 slots: its kept blocks, and the blocks of files 3 and 7. Those of
/// file 5 stand on boundary 2.
static STANDS: [Stand; 15] = [
    (8, 0, 0),
    (8, 1, 16),
    (9, 1, 0),
    (9, 2, 14),
    (24, 0, 1),
    (24, 1, 17),
    (28, 0, 2),
    (28, 1, 18),
    (33, 1, 1),
    (33, 2, 15),
    (34, 3, 14),
    (35, 3, 0),
    (35, 0, 18),
    (92, 3, 1),
    (93, 3, 2),
];

/// A file and the boundary of its home or its copy.
type Pair = (u32, u8);

const HOMES: &[Pair] = &[(3, 3), (5, 2), (7, 3)];

fn is_of_file_5(block: u32) -> bool {
    (36..85).contains(&block) || (88..92).contains(&block)
}

fn sites_on(map: &Map, block: u32, boundary: u8) -> usize
    requires { block < map.now.shape.n }
    ensures { result ≡ count_on boundary (sites_in map.now block) }
{
    let sites = map.sites(block);
    sites
        .iter()
        .filter(|site| site.boundary == boundary)
        .count()
}

/// Gives a block a site.
fn put(rt: &impl Abort, map: &mut Map, block: u32, site: Site) {
    let shape = *map.shape();
    assert!(rt; block < shape.n && site.boundary < shape.b && site.slot <= shape.k);
    assert_eq!(rt; sites_on(map, block, site.boundary), 0);
    let None = map.block_at(site) else {
        panic!(rt; "the slot is used");
    };
    assert!(rt; map.retake(block, site).is_ok());
}

/// Gives a block the lowest free slot of a boundary.
fn put_lowest(rt: &impl Abort, map: &mut Map, block: u32, boundary: u8) {
    let shape = *map.shape();
    assert!(rt; block < shape.n && boundary < shape.b);
    assert_eq!(rt; sites_on(map, block, boundary), 0);
    assert!(rt; map.take(block, boundary).is_ok());
}

/// The boundary and the slot of the block's site at this place of its list.
fn place(map: &Map, block: u32, at: usize) -> Option<(u8, u32)> {
    if block >= map.shape().n {
        return None;
    }
    map.sites(block)
        .get(at)
        .map(|site| (site.boundary, site.slot))
}

fn homes_of(alloc: Global, pairs: &[Pair]) -> Result<Homes, Fail> {
    let mut homes = Vec::new(alloc);
    for (inode, boundary) in pairs {
        homes.push(Home {
            inode: *inode,
            boundary: *boundary,
        })?;
    }
    Ok(Homes::new(homes))
}

/// Whether the homes are just these.
fn are(homes: &Homes, pairs: &[Pair]) -> bool {
    homes
        .as_slice()
        .iter()
        .map(|home| (home.inode, home.boundary))
        .eq(pairs.iter().copied())
}

/// What is left of an array, with its numbers.
fn left_of(
    rt: &impl Abort,
    alloc: Global,
    map: &Map,
    homes: &[Pair],
    copies: &[Pair],
    lost: u16,
) -> Result<Option<CutOver>, Fail> {
    let homes = homes_of(alloc, homes)?;
    let copies = homes_of(alloc, copies)?;
    assert!(rt; copies.ascend());
    Ok(cut_over(alloc, map, *map.shape(), &homes, &copies, lost)?)
}

fn empty_map(rt: &impl Abort, alloc: Global, n: u32, b: u32, k: u32, m: u32) -> Result<Map, Fail> {
    let Some(shape) = Shape::check(512, n, b, k, m) else {
        panic!(rt; "no shape");
    };
    Ok(Map::new(alloc, shape)?)
}

fn settled_map(rt: &impl Abort, alloc: Global) -> Result<Map, Fail> {
    let mut map = empty_map(rt, alloc, 128, 4, 64, 2)?;
    for (block, boundary, slot) in &STANDS {
        let site = Site {
            boundary: *boundary,
            slot: *slot,
        };
        put(rt, &mut map, *block, site);
    }
    for block in 0..128 {
        if is_of_file_5(block) {
            put_lowest(rt, &mut map, block, 2);
        }
    }
    Ok(map)
}

// Boundary 2 is lost, then boundary 0, and then there is one too few.
#[test]
fn lost_boundaries_are_cut_off_one_after_another(rt: HostRuntime) -> Result<(), Fail> {
    let alloc = rt.alloc();
    let map = settled_map(&rt, alloc)?;
    let Some(three) = left_of(&rt, alloc, &map, HOMES, &[], 0b100)? else {
        panic!(rt; "too few");
    };
    assert_eq!(rt; three.shape.b, 3);
    assert_eq!(rt; three.cut.len(), 53);
    assert!(rt; three.cut.iter().all(|block| is_of_file_5(*block)));
    assert!(rt; are(&three.homes, &[(3, 2), (7, 2)]));
    assert_eq!(rt; place(&three.map, 8, 1), Some((1, 16)));
    assert_eq!(rt; place(&three.map, 9, 0), Some((1, 0)));
    assert_eq!(rt; place(&three.map, 9, 1), None);
    assert_eq!(rt; place(&three.map, 34, 0), Some((2, 14)));
    assert_eq!(rt; place(&three.map, 35, 0), Some((2, 0)));
    assert_eq!(rt; place(&three.map, 35, 1), Some((0, 18)));
    assert_eq!(rt; place(&three.map, 36, 0), None);
    let Some(two) = left_of(&rt, alloc, &three.map, &[(3, 2), (7, 2)], &[], 0b001)? else {
        panic!(rt; "too few");
    };
    assert_eq!(rt; two.shape.b, 2);
    assert_eq!(rt; two.cut.len(), 0);
    assert!(rt; are(&two.homes, &[(3, 1), (7, 1)]));
    assert_eq!(rt; place(&two.map, 8, 0), Some((0, 16)));
    assert_eq!(rt; place(&two.map, 35, 0), Some((1, 0)));
    assert_eq!(rt; place(&two.map, 35, 1), None);
    assert!(rt; left_of(&rt, alloc, &two.map, &[(3, 1), (7, 1)], &[], 0b001)?.is_none());
    Ok(())
}

/// Blocks, boundaries, slots of a member and places of a naming block; the lost ones; and how many are left, if they are enough.
type Row = (u32, u32, u32, u32, u16, Option<u8>);

static ROWS: [Row; 9] = [
    (4, 2, 2, 1, 0, Some(2)),
    // fewer than two
    (4, 2, 4, 1, 0b01, None),
    (4, 3, 2, 2, 0b010, Some(2)),
    // fewer than a naming block has places
    (4, 3, 2, 3, 0b010, None),
    // fewer counted slots than blocks, and just as many
    (6, 3, 2, 2, 0b010, None),
    (6, 3, 3, 2, 0b010, Some(2)),
    // a bit behind the last boundary is no one's
    (4, 3, 2, 2, 0b1000, Some(3)),
    (4, 16, 1, 2, 0x8001, Some(14)),
    (4, 3, 2, 2, 0b111, None),
];

#[test]
fn enough_have_to_be_left(rt: HostRuntime) -> Result<(), Fail> {
    let alloc = rt.alloc();
    for (n, b, k, m, lost, want) in &ROWS {
        let map = empty_map(&rt, alloc, *n, *b, *k, *m)?;
        let left = left_of(&rt, alloc, &map, &[], &[], *lost)?;
        assert_eq!(rt; left.map(|over| over.shape.b), *want);
    }
    Ok(())
}

// The home of file 5 goes to its copy; file 6 has its copy on the lost boundary too; and there is none of file 7.
#[test]
fn a_home_goes_to_the_copy(rt: HostRuntime) -> Result<(), Fail> {
    let alloc = rt.alloc();
    let map = empty_map(&rt, alloc, 4, 4, 2, 1)?;
    let homes = &[(4, 3), (5, 2), (6, 2), (7, 2), (8, 0)];
    let Some(over) = left_of(&rt, alloc, &map, homes, &[(5, 1), (6, 2)], 0b100)? else {
        panic!(rt; "too few");
    };
    assert!(rt; are(&over.homes, &[(4, 2), (5, 1), (8, 0)]));
    Ok(())
}
