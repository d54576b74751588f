// Whether each block is in its place, by what it is to the plan.
ghost use Rattle.std.specs.Prelude.{◌≡◌, ◌<◌, ◌↔◌, ℕ, IfOk, IsTrue, length};
ghost use Rattle.dg_model.specs.Homes.{Ascend};
ghost use Rattle.dg_model.specs.Placed.{IsPlaced};
ghost use Rattle.dg_model.specs.Wants.{FitWants, want_of};
ghost use Rattle.dg_placed.specs.Standing.{IsInItsPlace};

use crate::files::{are_copies, have_blocks};
use crate::standing::{stand_on_homes, stand_on_places};
use dg_io::NoMemory;
use dg_map::Map;
use dg_plan::{Homes, Want, Wants};
use std::alloc::Global;

/// Whether a block is in its place, by what it is to the plan. A block that isn't written, or belongs to nothing, is.
fn is_in_its_place(map: &Map, homes: &Homes, copies: &Homes, block: u32, want: Option<Want>) -> bool
    requires block { block < map.now.shape.n }
    requires homes { Ascend homes.now }
    requires copies { Ascend copies.now }
    ensures { IsTrue result ↔ IsInItsPlace map.now homes.now copies.now block want }
{
    match want {
        Some(Want::Kept) => stand_on_places(map.sites(block), map.shape(), block),
        Some(Want::File(inode)) => {
            stand_on_homes(
                map.sites(block),
                homes.home_of(inode),
                copies.home_of(inode),
            )
        }
        Some(Want::Stray) => true,
        None => true,
    }
}

/// Whether each block is in its place.
fn are_in_their_places(map: &Map, homes: &Homes, copies: &Homes, wants: &[Option<Want>]) -> bool
    requires size { length wants.now ≡ map.now.shape.n }
    requires homes { Ascend homes.now }
    requires copies { Ascend copies.now }
    ensures { IsTrue result ↔ ((b : ℕ) → IsInItsPlace map.now homes.now copies.now b (want_of wants.now b)) }
{
    for block in 0..map.shape().n {
        if !is_in_its_place(map, homes, copies, block, wants[block as usize]) {
            return false;
        }
    }
    true
}

/// Whether each block stands on just its places: a kept block on its m boundaries, one of a file on the file's home and the boundary with its copy; just
/// the files with a written block have homes, and a copy stands on another boundary than its file's home. It takes time linear in the blocks,
/// but for the logarithm of the files.
pub fn is_placed(
    alloc: Global,
    map: &Map,
    wants: &Wants,
    homes: &Homes,
    copies: &Homes,
) -> Result<bool, NoMemory>
    requires fit { FitWants map.now wants.now }
    requires homes { Ascend homes.now }
    requires copies { Ascend copies.now }
    ensures { IfOk result (λ placed. IsTrue placed ↔ IsPlaced wants.now map.now homes.now copies.now) }
{
    let wants = wants.as_slice();
    if !are_copies(homes, copies.as_slice()) || !are_in_their_places(map, homes, copies, wants) {
        return Ok(false);
    }
    have_blocks(alloc, homes.as_slice(), wants)
}
