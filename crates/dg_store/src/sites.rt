// A block's first site, and the evictions before it. These functions work on the map alone.
ghost use Rattle.std.specs.Prelude.{◌≡◌, ◌<◌, ◌-◌, ℕ, [], ◌∷◌, length, IfNone, IfOk, IfSome, MatchOption, OnOk, OnErr, slice_get, Some};
ghost use Rattle.std.specs.List.{Contains};
ghost use Rattle.dg_model.specs.Sites.{Evicts, IsFewest, IsGivenFirst, IsFirstBoundary, IsPacked, IsLeastSpread};
ghost use Rattle.dg_model.specs.Tables.{Table, IsTable, sites_in, put_site, without_site};
ghost use Rattle.dg_store.specs.Answers.{reaped};
ghost use Rattle.dg_store.specs.Evictions.{GaveUp, IsEvicted, IsThinned, table_before};

use dg_io::NoMemory;
use dg_map::{Map, TakeFault};
use dg_model::Site;

/// A site that a block gave up to make room.
#[derive(Clone, Copy, Debug, PartialEq, Eq)]
pub struct GivenUp {
    pub block: u32,
    pub site: Site,
}

/// Gives a block its first site: the lowest free slot of boundary `block mod B` where that has fewer than K used slots,
/// else of the one with the fewest, the lowest number among equals. As long as each boundary is packed, the least block
/// with more than one site gives up its last one; these are added to the list, which is empty before.
pub fn give_first(map: &mut Map, block: u32, given_up: &mut Vec<GivenUp>) -> Result<Site, NoMemory>
    requires table { IsTable map.old }
    requires within { block < map.old.shape.n }
    requires none { sites_in map.old block ≡ [] }
    requires empty { given_up.old.items ≡ [] }
    ensures table { IsTable map.new }
    ensures given { IfOk result (λ site. IsGivenFirst map.old block map.new) }
    ensures last { IfOk result (λ site. sites_in map.new block ≡ site ∷ []) }
    ensures up { IfOk result (λ site. GaveUp given_up.new.items map.old (without_site map.new block site.boundary)) }
    ensures before { IfOk result (λ site. table_before given_up.new.items (without_site map.new block site.boundary) ≡ map.old) }
    ensures others { IfOk result (λ site. IsThinned map.old (without_site map.new block site.boundary)) }
    ensures err { OnErr result (IsThinned map.old map.new) }
{
    let boundary = make_room(map, block, given_up)?;
    match map.take(block, boundary) {
        Ok(site) => Ok(site),
        Err(TakeFault::NoMemory) => Err(NoMemory),
        Err(TakeFault::Full) => unreachable!(),
    }
}

/// Takes a block's only site from it, and gives the sites that were given up for it back, the last one first. The list is
/// empty then.
pub fn take_back(
    map: &mut Map,
    block: u32,
    site: Site,
    given_up: &mut Vec<GivenUp>,
) -> Result<(), NoMemory>
    ghost before: { Table }
    requires table { IsTable map.old }
    requires before { IsTable before }
    requires within { block < map.old.shape.n }
    requires site { sites_in map.old block ≡ site ∷ [] }
    requires up { GaveUp given_up.old.items before (without_site map.old block site.boundary) }
    ensures table { IsTable map.new }
    ensures ok { OnOk result (map.new ≡ before) }
    ensures empty { OnOk result (given_up.new.items ≡ []) }
    ensures err { OnErr result (IsThinned before map.new) }
{
    map.drop_site(block, site.boundary);
    while let Some(given) = given_up.pop() {
        map.retake(given.block, given.site)?;
    }
    Ok(())
}

/// Takes all sites of a block from it.
pub fn give_up_all(map: &mut Map, block: u32)
    requires table { IsTable map.old }
    requires within { block < map.old.shape.n }
    ensures table { IsTable map.new }
    ensures none { map.new ≡ reaped map.old block }
{
    while let Some(last) = last_of(map.sites(block)) {
        map.drop_site(block, last.boundary);
    }
}

/// Evicts until a boundary has room for the block's first site, and gives that boundary.
fn make_room(map: &mut Map, block: u32, given_up: &mut Vec<GivenUp>) -> Result<u8, NoMemory>
    requires table { IsTable map.old }
    requires within { block < map.old.shape.n }
    requires none { sites_in map.old block ≡ [] }
    requires empty { given_up.old.items ≡ [] }
    ensures table { IsTable map.new }
    ensures evicted { OnOk result ((count : ℕ) × Evicts count map.old map.new) }
    ensures boundary { IfOk result (λ boundary. IsFirstBoundary map.new block boundary) }
    ensures inside { IfOk result (λ boundary. boundary < map.new.shape.b) }
    ensures up { OnOk result (GaveUp given_up.new.items map.old map.new) }
    ensures others { IsThinned map.old map.new }
{
    loop {
        if let Some(boundary) = first_boundary(map, block) {
            return Ok(boundary);
        }
        evict_one(map, block, given_up)?;
    }
}

/// The boundary of the block's first site. `None` where each boundary is packed.
fn first_boundary(map: &Map, block: u32) -> Option<u8>
    requires { block < map.now.shape.n }
    ensures first { MatchOption result (IsPacked map.now) (λ boundary. IsFirstBoundary map.now block boundary) }
    ensures inside { IfSome result (λ boundary. boundary < map.now.shape.b) }
{
    let own = (block % u32::from(map.shape().b)) as u8;
    if map.room(own) > 0 {
        return Some(own);
    }
    let fewest = fewest(map);
    if map.room(fewest) > 0 {
        Some(fewest)
    } else {
        None
    }
}

/// The boundary with the fewest used slots, the lowest number among equals.
fn fewest(map: &Map) -> u8
    ensures { IsFewest map.now result }
{
    let mut fewest = 0;
    for boundary in 1..map.shape().b {
        if map.used(boundary) < map.used(fewest) {
            fewest = boundary;
        }
    }
    fewest
}

/// Makes the least block with more than one site give up its last one, and adds that to the list. Each boundary is packed,
/// and the given block has no site.
fn evict_one(map: &mut Map, block: u32, given_up: &mut Vec<GivenUp>) -> Result<(), NoMemory>
    requires table { IsTable map.old }
    requires packed { IsPacked map.old }
    requires within { block < map.old.shape.n }
    requires none { sites_in map.old block ≡ [] }
    ensures table { IsTable map.new }
    ensures evicted { OnOk result (IsEvicted map.old map.new given_up.old.items given_up.new.items) }
    ensures refused { OnErr result (map.new ≡ map.old) }
{
    let spread = least_spread(map, block);
    let site = last_site(map.sites(spread));
    let given = GivenUp {
        block: spread,
        site,
    };
    let Ok(()) = given_up.push(given) else {
        return Err(NoMemory);
    };
    map.drop_site(spread, site.boundary);
    Ok(())
}

/// The least block with more than one site. There is one, since each boundary is packed and the given block has no site.
fn least_spread(map: &Map, block: u32) -> u32
    requires packed { IsPacked map.now }
    requires within { block < map.now.shape.n }
    requires none { sites_in map.now block ≡ [] }
    ensures { IsLeastSpread map.now result }
{
    match map.least_spread() {
        Some(spread) => spread,
        None => unreachable!(),
    }
}

/// The last one of the sites, if there is one.
fn last_of(sites: &[Site]) -> Option<Site>
    ensures none { IfNone result (length sites.now ≡ 0) }
    ensures last { IfSome result (λ site. Contains sites.now site) }
{
    sites.last().copied()
}

/// The last one of the sites.
fn last_site(sites: &[Site]) -> Site
    requires { 0 < length sites.now }
    ensures { slice_get sites.now (length sites.now - 1) ≡ Some result }
{
    sites[sites.len() - 1]
}
