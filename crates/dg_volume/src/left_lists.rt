// What is left of the lists of an array without its lost boundaries.
ghost use Rattle.std.specs.Prelude.{◌≡◌, ◌<◌, ◌++◌, ◌∷◌, ◌&&◌, ◌||◌, ℕ, IfOk, OnOk, [], if◌then◌else◌, length, map, not, true, false};
ghost use Rattle.dg_label.specs.Seals.{HasGood, HasNoGood};
ghost use Rattle.dg_model.specs.Lives.{boundary_at};
ghost use Rattle.dg_model.specs.Marks.{is_marked};
ghost use Rattle.dg_model.specs.Members.{is_lost};
ghost use Rattle.dg_model.specs.Moves.{count_upto};
ghost use Rattle.dg_model.specs.Sites.{is_gone};
ghost use Rattle.dg_store.specs.Reduced.{left_in};
ghost use Rattle.dg_store.specs.Stores.{IsSound, members_of, shape_of, table_of};

use crate::in_use::InUse;
use crate::saves::is_good;
use dg_io::{NoMemory, Rack};
use dg_store::Store;
use std::alloc::Global;

/// Whether some member is good.
pub fn has_good<R: Rack>(store: &Store<R>) -> bool
    requires { IsSound R.Rack store.now }
    ensures some { result ≡ true → HasGood store.now }
    ensures none { result ≡ false → HasNoGood store.now }
{
    for member in 0..2 * store.shape().b {
        if is_good(store, member) {
            return true;
        }
    }
    false
}

/// Whether a boundary is lost.
fn is_lost<R: Rack>(store: &Store<R>, place: u8) -> bool
    requires sound { IsSound R.Rack store.now }
    requires within { place < (shape_of store.now).b }
    ensures { result ≡ is_lost (members_of store.now) place }
{
    !is_good(store, 2 * place) && !is_good(store, 2 * place + 1)
}

/// How many boundaries are lost.
pub fn count_lost<R: Rack>(store: &Store<R>) -> u32
    requires { IsSound R.Rack store.now }
    ensures { result ≡ count_upto (shape_of store.now).b (is_lost (members_of store.now)) }
{
    let mut count = 0;
    for place in 0..store.shape().b {
        if is_lost(store, place) {
            count += 1;
        }
    }
    count
}

/// Puts a boundary last, if it isn't lost.
fn push_left<R: Rack>(store: &Store<R>, left: &mut Vec<u8>, place: u8) -> Result<(), NoMemory>
    requires sound { IsSound R.Rack store.now }
    requires within { place < (shape_of store.now).b }
    ensures { OnOk result (left.new.items ≡ left.old.items ++ (if not (is_lost (members_of store.now) place) then place ∷ [] else [])) }
{
    if is_lost(store, place) {
        return Ok(());
    }
    match left.push(place) {
        Ok(()) => Ok(()),
        Err(_) => Err(NoMemory),
    }
}

/// The places of the boundaries that aren't lost.
pub fn places_left<R: Rack>(alloc: Global, store: &Store<R>) -> Result<Vec<u8>, NoMemory>
    requires { IsSound R.Rack store.now }
    ensures { IfOk result (λ left. left.items ≡ left_in store.now) }
{
    let mut left = Vec::new(alloc);
    for place in 0..store.shape().b {
        push_left(store, &mut left, place)?;
    }
    Ok(left)
}

/// The numbers of the boundaries at some places.
pub fn numbers_at(alloc: Global, in_use: &InUse, places: &[u8]) -> Result<Vec<u8>, NoMemory>
    ensures { IfOk result (λ numbers. numbers.items ≡ map (boundary_at in_use.now.live.items) places.now) }
{
    let mut numbers = Vec::new(alloc);
    for at in 0..places.len() {
        let Ok(()) = numbers.push(in_use.number(places[at])) else {
            return Err(NoMemory);
        };
    }
    Ok(numbers)
}

/// The mark of a block, if it isn't gone.
fn still_marked<R: Rack>(store: &Store<R>, block: u32, mark: bool) -> bool
    requires sound { IsSound R.Rack store.now }
    requires range { block < (shape_of store.now).n }
    ensures { result ≡ (mark && not (is_gone (table_of store.now) (members_of store.now) block)) }
{
    mark && !store.is_gone(block)
}

/// Whether a block is marked or gone.
fn marked_or_gone<R: Rack>(store: &Store<R>, block: u32, mark: bool) -> bool
    requires sound { IsSound R.Rack store.now }
    requires range { block < (shape_of store.now).n }
    ensures { result ≡ (mark || is_gone (table_of store.now) (members_of store.now) block) }
{
    mark || store.is_gone(block)
}

/// Takes the marks from blocks that are gone.
pub fn unmark_gone<R: Rack>(store: &Store<R>, marks: &mut Vec<bool>)
    requires sound { IsSound R.Rack store.now }
    requires size { length marks.old.items ≡ (shape_of store.now).n }
    ensures size { length marks.new.items ≡ length marks.old.items }
    ensures marked { (b : ℕ) → b < (shape_of store.now).n
        → is_marked marks.new.items b ≡ (is_marked marks.old.items b && not (is_gone (table_of store.now) (members_of store.now) b)) }
{
    for block in 0..store.shape().n {
        let mark = still_marked(store, block, marks[block as usize]);
        marks[block as usize] = mark;
    }
}

/// Marks the blocks that are gone.
pub fn mark_gone<R: Rack>(store: &Store<R>, marks: &mut Vec<bool>)
    requires sound { IsSound R.Rack store.now }
    requires size { length marks.old.items ≡ (shape_of store.now).n }
    ensures size { length marks.new.items ≡ length marks.old.items }
    ensures marked { (b : ℕ) → b < (shape_of store.now).n
        → is_marked marks.new.items b ≡ (is_marked marks.old.items b || is_gone (table_of store.now) (members_of store.now) b) }
{
    for block in 0..store.shape().n {
        let mark = marked_or_gone(store, block, marks[block as usize]);
        marks[block as usize] = mark;
    }
}

/// How many blocks are gone.
pub fn count_gone<R: Rack>(store: &Store<R>) -> u32
    requires { IsSound R.Rack store.now }
    ensures { result ≡ count_upto (shape_of store.now).n (is_gone (table_of store.now) (members_of store.now)) }
{
    let mut count = 0;
    for block in 0..store.shape().n {
        if store.is_gone(block) {
            count += 1;
        }
    }
    count
}
