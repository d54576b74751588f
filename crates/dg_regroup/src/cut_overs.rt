// What is left of an array's sites and homes.
ghost use Rattle.std.specs.Prelude.{◌≡◌, ◌↔◌, ◌<◌, ◌++◌, ◌∷◌, [], IfOk, IfSome, None, OnOk, if◌then◌else◌, option_to_list};
ghost use Rattle.dg_io.specs.Reduced.{places_left};
ghost use Rattle.dg_model.specs.Homes.{Ascend};
ghost use Rattle.dg_model.specs.Regroups.{home_left, homes_left, moved_home, shape_left};
ghost use Rattle.dg_model.specs.Shapes.{IsShape};
ghost use Rattle.dg_regroup.specs.Cuts.{IsCutOver, IsTooFew, cut_between, loses_sites};

use crate::places::Places;
use dg_map::Map;
use dg_model::{Home, NoMemory, Shape};
use dg_plan::Homes;
use std::alloc::Global;

/// What is left of an array without its lost boundaries.
#[derive(Drop)]
pub struct CutOver {
    /// Its numbers, with as many boundaries as are left.
    pub shape: Shape,
    /// The sites that are left, under the new places of their boundaries.
    pub map: Map,
    /// The homes, under these places.
    pub homes: Homes,
    /// The blocks that had sites, all of them on lost boundaries. They ascend.
    pub cut: Vec<u32>,
}

/// What is left of an array without its lost boundaries: bit s of `lost` is set for boundary s. `None` where the others
/// are fewer than `m`, fewer than 2, or have fewer counted slots than there are blocks. It takes a few steps for each
/// block, site and home.
pub fn cut_over(
    alloc: Global,
    map: &Map,
    shape: Shape,
    homes: &Homes,
    copies: &Homes,
    lost: u16,
) -> Result<Option<CutOver>, NoMemory>
    requires shape { shape ≡ map.now.shape }
    requires copies { Ascend copies.now }
    ensures few { IfOk result (λ answer. (answer ≡ None) ↔ IsTooFew (places_left lost shape.b) shape) }
    ensures left { IfOk result (λ answer. IfSome answer (IsCutOver (places_left lost shape.b) map.now homes.now copies.now)) }
{
    let _ = map.shape();
    let places = Places::new(lost, shape.b);
    let Some(left) = shape_left(&places, &shape) else {
        return Ok(None);
    };
    let now = map.renumbered(alloc, left, places.as_slice())?;
    let cut = cut_off(alloc, map, &now)?;
    Ok(Some(CutOver {
        shape: left,
        map: now,
        homes: homes_left(alloc, &places, homes, copies)?,
        cut,
    }))
}

/// The numbers of what is left, if that is enough.
fn shape_left(places: &Places, shape: &Shape) -> Option<Shape>
    requires { IsShape shape.now }
    ensures shape { IfSome result (λ left. left ≡ shape_left places.now shape.now) }
    ensures few { (result ≡ None) ↔ IsTooFew places.now shape.now }
{
    let b = places.count();
    if b < shape.m || b < 2 || b as u64 * (shape.k as u64) < shape.n as u64 {
        return None;
    }
    Some(Shape {
        l: shape.l,
        n: shape.n,
        b,
        k: shape.k,
        m: shape.m,
    })
}

/// Puts an item last, if there is one.
fn push_some<T: Drop>(items: &mut Vec<T>, item: Option<T>) -> Result<(), NoMemory>
    ensures { OnOk result (items.new.items ≡ items.old.items ++ option_to_list item) }
{
    let Some(item) = item else {
        return Ok(());
    };
    match items.push(item) {
        Ok(()) => Ok(()),
        Err(_) => Err(NoMemory),
    }
}

/// A block, if it had sites and has none now.
fn cut_block(map: &Map, now: &Map, block: u32) -> Option<u32>
    requires before { block < map.now.shape.n }
    requires after { block < now.now.shape.n }
    ensures { option_to_list result ≡ (if loses_sites map.now now.now block then block ∷ [] else []) }
{
    if !map.sites(block).is_empty() && now.sites(block).is_empty() {
        Some(block)
    } else {
        None
    }
}

/// The blocks that had sites and have none now, ascending.
fn cut_off(alloc: Global, map: &Map, now: &Map) -> Result<Vec<u32>, NoMemory>
    requires { now.now.shape.n ≡ map.now.shape.n }
    ensures { IfOk result (λ cut. cut.items ≡ cut_between map.now now.now) }
{
    let mut cut = Vec::new(alloc);
    for block in 0..map.shape().n {
        push_some(&mut cut, cut_block(map, now, block))?;
    }
    Ok(cut)
}

/// A file's home on a boundary that is left.
fn moved_home(places: &Places, inode: u32, boundary: Option<u8>) -> Option<Home>
    ensures { result ≡ moved_home places.now inode boundary }
{
    let boundary = places.place(boundary?)?;
    Some(Home { inode, boundary })
}

/// The home of a file under the new places: where it was, or else where its copy is.
fn home_left(places: &Places, copies: &Homes, home: Home) -> Option<Home>
    requires { Ascend copies.now }
    ensures { result ≡ home_left places.now copies.now home }
{
    match moved_home(places, home.inode, Some(home.boundary)) {
        Some(moved) => Some(moved),
        None => moved_home(places, home.inode, copies.home_of(home.inode)),
    }
}

/// The homes that are left.
fn homes_left(
    alloc: Global,
    places: &Places,
    homes: &Homes,
    copies: &Homes,
) -> Result<Homes, NoMemory>
    requires { Ascend copies.now }
    ensures { IfOk result (λ left. left ≡ homes_left places.now copies.now homes.now) }
{
    let mut left = Vec::new(alloc);
    for home in homes.as_slice() {
        push_some(&mut left, home_left(places, copies, *home))?;
    }
    Ok(Homes::new(left))
}
