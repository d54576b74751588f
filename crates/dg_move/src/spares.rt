// Sites that blocks can do without.
ghost use Rattle.std.specs.Prelude.{◌≡◌, ◌≢◌, ◌<◌, ℕ, length, [], drop};
ghost use Rattle.dg_model.specs.Moves.{IsTidy, all_done, give_ups, has_met, off_target, spare, tidying};
ghost use Rattle.dg_model.specs.Tables.{sites_in};
ghost use Rattle.dg_plan.specs.Targets.{blocks_in, wants_of};
ghost use Rattle.dg_store.specs.Stores.{IsSound, shape_of, table_of};
ghost use Rattle.dg_move.specs.Spares.{AreWithin, IsFirstOf};
ghost use Rattle.dg_move.specs.Stores.{GivesUpOnly};

use dg_io::Rack;
use dg_model::Site;
use dg_plan::Targets;
use dg_store::Store;

/// Whether one of a block's sites is on a target.
fn has_met(sites: &[Site], targets: &Targets, block: u32) -> bool
    requires block { block < blocks_in targets.now }
    requires within { AreWithin sites.now }
    ensures { result ≡ has_met (wants_of targets.now block) sites.now }
{
    for site in sites {
        if targets.wants(block, site.boundary) {
            return true;
        }
    }
    false
}

/// The boundary of the first of a block's sites that is on no target.
fn first_off_target(sites: &[Site], targets: &Targets, block: u32) -> Option<u8>
    requires block { block < blocks_in targets.now }
    requires within { AreWithin sites.now }
    ensures { IsFirstOf result (off_target (wants_of targets.now block) sites.now) }
{
    for site in sites {
        if !targets.wants(block, site.boundary) {
            return Some(site.boundary);
        }
    }
    None
}

/// The boundary of the second site.
fn second(sites: &[Site]) -> Option<u8>
    ensures { IsFirstOf result (drop 1 sites.now) }
{
    if sites.len() > 1 {
        Some(sites[1].boundary)
    } else {
        None
    }
}

/// The boundary of the first of a block's sites that it can do without.
fn first_spare(sites: &[Site], targets: &Targets, block: u32) -> Option<u8>
    requires block { block < blocks_in targets.now }
    requires within { AreWithin sites.now }
    ensures { IsFirstOf result (spare (wants_of targets.now block) sites.now) }
{
    if has_met(sites, targets, block) {
        first_off_target(sites, targets, block)
    } else {
        second(sites)
    }
}

/// A block gives up the sites that it can do without, one after another.
pub fn give_up_spare<R: Rack>(store: &mut Store<R>, targets: &Targets, block: u32)
    requires sound { IsSound R.Rack store.old }
    requires size { blocks_in targets.now ≡ (shape_of store.old).n }
    requires block { block < (shape_of store.old).n }
    ensures only { GivesUpOnly R.Rack (wants_of targets.now) store.old store.new }
    ensures acts { table_of store.new
        ≡ all_done (table_of store.old) (give_ups block (spare (wants_of targets.now block) (sites_in (table_of store.old) block))) }
    ensures none { spare (wants_of targets.now block) (sites_in (table_of store.new) block) ≡ [] }
    ensures others { (b : ℕ) → b ≢ block → sites_in (table_of store.new) b ≡ sites_in (table_of store.old) b }
{
    while let Some(boundary) = first_spare(store.map().sites(block), targets, block) {
        store.unplace(block, boundary);
    }
}

/// Each block gives up the sites that it can do without.
pub fn tidy<R: Rack>(store: &mut Store<R>, targets: &Targets)
    requires sound { IsSound R.Rack store.old }
    requires size { blocks_in targets.now ≡ (shape_of store.old).n }
    ensures only { GivesUpOnly R.Rack (wants_of targets.now) store.old store.new }
    ensures acts { table_of store.new ≡ all_done (table_of store.old) (tidying (wants_of targets.now) (table_of store.old)) }
    ensures tidy { IsTidy (wants_of targets.now) (table_of store.new) }
{
    for block in 0..store.shape().n {
        give_up_spare(store, targets, block);
    }
}
