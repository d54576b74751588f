// Copies of blocks to a boundary, which are given up again where a boundary is lost.
ghost use Rattle.std.specs.Prelude.{◌≡◌, ◌+◌, ◌<◌, ◌≤◌, ℕ, length, true, false, IfOk, OnErr};
ghost use Rattle.dg_hot.specs.Copied.{AreApart, CanCopy, CanGiveUp, copies_to, give_ups_on};
ghost use Rattle.dg_hot.specs.Spreads.{Moved, copy_calls};
ghost use Rattle.dg_model.specs.Moves.{all_done, copy_to, done};
ghost use Rattle.dg_model.specs.Sites.{has_site};
ghost use Rattle.dg_model.specs.States.{has_lost};
ghost use Rattle.dg_model.specs.Tables.{count_on, sites_in, used_in};
ghost use Rattle.dg_store.specs.Leaves.{CallsAtMost};
ghost use Rattle.dg_store.specs.Stores.{IsSound, members_of, rack_of, shape_of, table_of};

use dg_io::{NoMemory, Rack};
use dg_store::{PlaceAnswer, Store};

// Copies a block to a boundary, or tells that one is lost.
fn copy_block<R: Rack>(store: &mut Store<R>, block: u32, boundary: u8) -> Result<bool, NoMemory>
    requires sound { IsSound R.Rack store.old }
    requires range { block < (shape_of store.old).n }
    requires boundary { boundary < (shape_of store.old).b }
    requires written { has_site (sites_in (table_of store.old) block) ≡ true }
    requires none { count_on boundary (sites_in (table_of store.old) block) ≡ 0 }
    requires room { used_in (table_of store.old) boundary < (shape_of store.old).k }
    ensures moved { Moved R.Rack store.old store.new }
    ensures copied { IfOk result (λ copied. copied ≡ true → table_of store.new ≡ done (table_of store.old) (copy_to block boundary)) }
    ensures lost { IfOk result (λ copied. copied ≡ false → has_lost (shape_of store.new) (members_of store.new) ≡ true) }
    ensures same { IfOk result (λ copied. copied ≡ false → table_of store.new ≡ table_of store.old) }
    ensures err { OnErr result (table_of store.new ≡ table_of store.old) }
    ensures most { CallsAtMost R.Rack store.old store.new (copy_calls (table_of store.old) 1) }
{
    match store.place(block, boundary, false) {
        Ok(answer) => match answer {
            PlaceAnswer::Placed => Ok(true),
            _ => Ok(false),
        },
        Err(NoMemory) => Err(NoMemory),
    }
}

/// Gives up the sites of some blocks on a boundary. Each of them has another site.
pub fn give_up<R: Rack>(store: &mut Store<R>, boundary: u8, blocks: &[u32])
    requires sound { IsSound R.Rack store.old }
    requires apart { AreApart blocks.now }
    requires can { CanGiveUp (table_of store.old) boundary blocks.now }
    ensures moved { Moved R.Rack store.old store.new }
    ensures rack { rack_of store.new ≡ rack_of store.old }
    ensures members { (q : ℕ) → members_of store.new q ≡ members_of store.old q }
    ensures table { table_of store.new ≡ all_done (table_of store.old) (give_ups_on boundary blocks.now) }
{
    for place in 0..blocks.len() {
        store.unplace(blocks[place], boundary);
    }
}

/// Copies some blocks to a boundary: all of them, or none where a boundary is lost.
pub fn copy_all<R: Rack>(
    store: &mut Store<R>,
    boundary: u8,
    blocks: &[u32],
) -> Result<bool, NoMemory>
    requires sound { IsSound R.Rack store.old }
    requires boundary { boundary < (shape_of store.old).b }
    requires apart { AreApart blocks.now }
    requires can { CanCopy (table_of store.old) boundary blocks.now }
    requires room { used_in (table_of store.old) boundary + length blocks.now ≤ (shape_of store.old).k }
    ensures moved { Moved R.Rack store.old store.new }
    ensures copied { IfOk result (λ copied. copied ≡ true
        → table_of store.new ≡ all_done (table_of store.old) (copies_to boundary blocks.now)) }
    ensures lost { IfOk result (λ copied. copied ≡ false → has_lost (shape_of store.new) (members_of store.new) ≡ true) }
    ensures same { IfOk result (λ copied. copied ≡ false → table_of store.new ≡ table_of store.old) }
    ensures err { OnErr result (table_of store.new ≡ table_of store.old) }
    ensures most { CallsAtMost R.Rack store.old store.new (copy_calls (table_of store.old) (length blocks.now)) }
{
    for place in 0..blocks.len() {
        match copy_block(store, blocks[place], boundary) {
            Ok(true) => {}
            Ok(false) => {
                give_up(store, boundary, &blocks[..place]);
                return Ok(false);
            }
            Err(NoMemory) => {
                give_up(store, boundary, &blocks[..place]);
                return Err(NoMemory);
            }
        }
    }
    Ok(true)
}
