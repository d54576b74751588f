// Placements that are missing.
ghost use Rattle.std.specs.Prelude.{◌≡◌, ◌<◌, ◌≤◌, length};
ghost use Rattle.dg_model.specs.Moves.{count_upto, is_missing, missing_in};
ghost use Rattle.dg_model.specs.Tables.{stands_on};
ghost use Rattle.dg_plan.specs.Targets.{blocks_in, wants_of};
ghost use Rattle.dg_store.specs.Stores.{IsSound, shape_of, table_of};

use dg_io::Rack;
use dg_model::Site;
use dg_plan::Targets;
use dg_store::Store;

/// Whether one of the sites is on the boundary.
fn stands_on(sites: &[Site], boundary: u8) -> bool
    ensures { result ≡ stands_on boundary sites.now }
{
    for site in sites {
        if site.boundary == boundary {
            return true;
        }
    }
    false
}

/// Whether a block is to stand on a boundary, and doesn't.
pub fn is_missing<R: Rack>(store: &Store<R>, targets: &Targets, block: u32, boundary: u8) -> bool
    requires sound { IsSound R.Rack store.now }
    requires size { blocks_in targets.now ≡ (shape_of store.now).n }
    requires block { block < (shape_of store.now).n }
    requires boundary { boundary < (shape_of store.now).b }
    ensures { result ≡ is_missing (wants_of targets.now) (table_of store.now) block boundary }
{
    targets.wants(block, boundary) && !stands_on(store.map().sites(block), boundary)
}

/// How many boundaries a block is to stand on, and doesn't.
fn missing_at<R: Rack>(store: &Store<R>, targets: &Targets, block: u32) -> u32
    requires sound { IsSound R.Rack store.now }
    requires size { blocks_in targets.now ≡ (shape_of store.now).n }
    requires block { block < (shape_of store.now).n }
    ensures count { result ≡ count_upto (shape_of store.now).b (is_missing (wants_of targets.now) (table_of store.now) block) }
    ensures most { result ≤ 16 }
{
    let mut count = 0;
    for boundary in 0..store.shape().b {
        if is_missing(store, targets, block, boundary) {
            count += 1;
        }
    }
    count
}

/// How many placements are missing. It goes over all blocks once, and makes no call on the rack.
pub fn missing<R: Rack>(store: &Store<R>, targets: &Targets) -> u32
    requires sound { IsSound R.Rack store.now }
    requires size { blocks_in targets.now ≡ (shape_of store.now).n }
    ensures { result ≡ missing_in (wants_of targets.now) (table_of store.now) }
{
    let mut count = 0;
    for block in 0..store.shape().n {
        count += missing_at(store, targets, block);
    }
    count
}
