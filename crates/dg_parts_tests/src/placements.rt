ghost use Rattle.std.specs.Prelude.{◌≡◌, IsTrue, is_some};
ghost use Rattle.dg_model.specs.Shapes.{IsShape};
ghost use Rattle.dg_model.specs.Sites.{has_site};
ghost use Rattle.dg_model.specs.Tables.{count_on};
ghost use Rattle.dg_model.specs.Wants.{FitWants};

use dg_map::{Map, Shape, Site};
use dg_placed::is_placed;
use dg_plan::{Home, Homes, Want, Wants};
use std::alloc::Global;
use std::process::Abort;
use std::test::Fail;

/// What a block is to the plan, and the boundaries that it stands on.
type Block = (Option<Want>, &'static [u8]);

const BLANK: Block = (None, &[]);

const KEPT: Option<Want> = Some(Want::Kept);

const STRAY: Option<Want> = Some(Want::Stray);

const FILE_3: Option<Want> = Some(Want::File(3));

const FILE_5: Option<Want> = Some(Want::File(5));

/// Homes, or copies, as pairs of an inode and a boundary.
type Pairs = &'static [(u32, u8)];

/// The six blocks of an array with three boundaries and two places, homes, copies, and whether all are in their places.
type Row = (&'static [Block], Pairs, Pairs, bool);

const TWO: Pairs = &[(3, 2), (5, 0)];

/// Two files of two blocks, of which one has a copy, and two kept blocks.
const PLACED: &[Block] = &[
    (KEPT, &[0, 1]),
    (FILE_3, &[2]),
    (KEPT, &[0, 2]),
    (FILE_5, &[0, 1]),
    (STRAY, &[1]),
    (FILE_5, &[1, 0]),
];

const SHORT: &[Block] = &[(KEPT, &[0]), BLANK, BLANK, BLANK, BLANK, BLANK];

const LONG: &[Block] = &[(KEPT, &[0, 1, 2]), BLANK, BLANK, BLANK, BLANK, BLANK];

const ELSEWHERE: &[Block] = &[(KEPT, &[0, 2]), BLANK, BLANK, BLANK, BLANK, BLANK];

const SPREAD: &[Block] = &[
    BLANK,
    (FILE_3, &[2]),
    (FILE_3, &[2, 1]),
    BLANK,
    BLANK,
    BLANK,
];

const WHOLE: &[Block] = &[BLANK, (FILE_3, &[2]), (FILE_3, &[2]), BLANK, BLANK, BLANK];

static ROWS: [Row; 12] = [
    (PLACED, TWO, &[(5, 1)], true),
    (PLACED, TWO, &[], false),
    // the file's own home, and a file without a home
    (PLACED, TWO, &[(5, 0)], false),
    (PLACED, TWO, &[(4, 2), (5, 1)], false),
    (PLACED, &[(3, 2)], &[], false),
    (PLACED, &[(3, 2), (5, 0), (7, 1)], &[(5, 1)], false),
    (SHORT, &[], &[], false),
    (LONG, &[], &[], false),
    (ELSEWHERE, &[], &[], false),
    (SPREAD, &[(3, 2)], &[], false),
    (WHOLE, &[(3, 2)], &[], true),
    (WHOLE, &[(3, 1)], &[], false),
];

fn homes_of(alloc: Global, pairs: &[(u32, u8)]) -> Result<Homes, Fail> {
    let mut homes = Vec::new(alloc);
    for (inode, boundary) in pairs {
        homes.push(Home {
            inode: *inode,
            boundary: *boundary,
        })?;
    }
    Ok(Homes::new(homes))
}

fn wants_of(alloc: Global, blocks: &[Block]) -> Result<Wants, Fail> {
    let mut wants = Vec::new(alloc);
    for (want, _) in blocks {
        wants.push(*want)?;
    }
    Ok(Wants::new(wants))
}

fn count(sites: &[Site], boundary: u8) -> usize
    ensures { result ≡ count_on boundary sites.now }
{
    sites
        .iter()
        .filter(|site| site.boundary == boundary)
        .count()
}

fn take(map: &mut Map, block: u32, boundary: u8) -> Result<(), Fail> {
    let shape = *map.shape();
    if block >= shape.n || boundary >= shape.b || count(map.sites(block), boundary) != 0 {
        return Err("the row")?;
    }
    match map.take(block, boundary) {
        Ok(_) => Ok(()),
        Err(_) => Err("no room")?,
    }
}

fn map_of(alloc: Global, shape: Shape, blocks: &[Block]) -> Result<Map, Fail>
    requires { IsShape shape }
{
    let mut map = Map::new(alloc, shape)?;
    if blocks.len() != shape.n as usize {
        return Err("the row")?;
    }
    for block in 0..shape.n {
        for boundary in blocks[block as usize].1 {
            take(&mut map, block, *boundary)?;
        }
    }
    Ok(map)
}

/// Whether just the blocks that have sites have wants.
fn fit(map: &Map, wants: &[Option<Want>]) -> bool
    ensures { IsTrue result → FitWants map.now wants.now }
{
    if wants.len() != map.shape().n as usize {
        return false;
    }
    for block in 0..map.shape().n {
        if !fits(map.sites(block), wants[block as usize]) {
            return false;
        }
    }
    true
}

fn fits(sites: &[Site], want: Option<Want>) -> bool
    ensures { IsTrue result → is_some want ≡ has_site sites.now }
{
    match want {
        Some(_) => sites.len() != 0,
        None => sites.len() == 0,
    }
}

fn placed(alloc: Global, row: &Row) -> Result<bool, Fail> {
    let (blocks, homes, copies, _) = row;
    let shape = Shape::check(512, 6, 3, 4, 2).ok_or("the limits")?;
    let map = map_of(alloc, shape, blocks)?;
    let wants = wants_of(alloc, blocks)?;
    let homes = homes_of(alloc, homes)?;
    let copies = homes_of(alloc, copies)?;
    if !fit(&map, wants.as_slice()) || !homes.ascend() || !copies.ascend() {
        return Err("the row")?;
    }
    Ok(is_placed(alloc, &map, &wants, &homes, &copies)?)
}

#[test]
fn places(rt: HostRuntime) -> Result<(), Fail> {
    for row in &ROWS {
        assert_eq!(rt; placed(rt.alloc(), row)?, row.3);
    }
    Ok(())
}
