// Copies of the files that were read last.
ghost use Rattle.std.specs.Prelude.{◌≡◌, ◌≢◌, ◌<◌, ◌≤◌, ℕ, List, Option, length, true, false, None, Some, is_some, IfOk, OnErr, OnOk};
ghost use Rattle.std.specs.List.{list_any};
ghost use Rattle.dg_hot.specs.Copied.{AreApart, CanCopy, CanGiveUp, give_ups_on};
ghost use Rattle.dg_hot.specs.Spreads.{AreListed, HasSpread, HasSpreadSome, IsLost, Moved, SpreadsOrNot, copy_calls, count_in, spread_of, spread_with};
ghost use Rattle.dg_model.specs.Copies.{emptiest, fitted, lacks_copy};
ghost use Rattle.dg_model.specs.Homes.{Ascend, home_of, with_home};
ghost use Rattle.dg_model.specs.Moves.{all_done};
ghost use Rattle.dg_model.specs.Placed.{IsPlaced};
ghost use Rattle.dg_model.specs.States.{has_lost};
ghost use Rattle.dg_model.specs.declared.wants.Want.{Want};
ghost use Rattle.dg_store.specs.Leaves.{CallsAtMost};
ghost use Rattle.dg_store.specs.Stores.{IsSound, members_of, rack_of, shape_of, table_of};

use crate::Hot;
use crate::copies::{copy_all, give_up};
use crate::emptiest::emptiest;
use crate::home_lists::add_home;
use dg_io::{NoMemory, Rack};
use dg_model::Home;
use dg_plan::Homes;
use dg_store::Store;
use std::alloc::Global;

/// The answer to a spreading of copies.
#[derive(Clone, Copy, Debug, PartialEq, Eq)]
pub enum DiffuseAnswer {
    /// So many files got a copy.
    Diffused(u32),
    /// The boundary of this number is lost, and no lower one. A copy that this interrupts was given up.
    Lost(u8),
}

/// Copies the files that were read last, from the most recent one on. Each regular file that has a home and no copy gets one
/// whole, on the boundary other than its home with the fewest used slots, the lowest number among equals, where all its
/// blocks fit below K used slots; else it is skipped. The spare slot isn't used. A copy that a loss interrupts is given up
/// whole.
///
/// `blocks` has one list for each file, in the order of `hot`: its written blocks, ascending, where it has a home and no copy,
/// and else none. So the cost is that of the files that are copied, and not of the array: each of these blocks takes at most two calls for
/// each boundary, and nothing else takes one. The clauses hold by any wants that have each block in its place.
pub fn diffuse<R: Rack>(
    alloc: Global,
    store: &mut Store<R>,
    hot: &Hot,
    blocks: &[Vec<u32>],
    homes: &Homes,
    copies: &mut Homes,
) -> Result<DiffuseAnswer, NoMemory>
    requires sound { IsSound R.Rack store.old }
    requires whole { has_lost (shape_of store.old) (members_of store.old) ≡ false }
    requires listed { (wants : List (Option Want)) × AreListed wants (table_of store.old) homes.now copies.old hot.now blocks.now }
    ensures moved { Moved R.Rack store.old store.new }
    ensures placed { (wants : List (Option Want)) → AreListed wants (table_of store.old) homes.now copies.old hot.now blocks.now
        → IsPlaced wants (table_of store.new) homes.now copies.new }
    ensures whole { IfOk result (λ answer. (n : ℕ) → answer ≡ DiffuseAnswer.Diffused n
        → has_lost (shape_of store.new) (members_of store.new) ≡ false) }
    ensures diffused { (wants : List (Option Want)) → AreListed wants (table_of store.old) homes.now copies.old hot.now blocks.now
        → IfOk result (λ answer. (n : ℕ) → answer ≡ DiffuseAnswer.Diffused n
        → HasSpread wants homes.now hot.now (length hot.now) n copies.old copies.new store.old store.new) }
    ensures lost { IfOk result (λ answer. (s : ℕ) → answer ≡ DiffuseAnswer.Lost s → IsLost store.new s) }
    ensures cut { (wants : List (Option Want)) → AreListed wants (table_of store.old) homes.now copies.old hot.now blocks.now
        → IfOk result (λ answer. (s : ℕ) → answer ≡ DiffuseAnswer.Lost s
        → HasSpreadSome wants homes.now hot.now copies.old copies.new store.old store.new) }
    ensures still { list_any (lacks_copy homes.now copies.old) hot.now ≡ false → rack_of store.new ≡ rack_of store.old }
    ensures most { CallsAtMost R.Rack store.old store.new (copy_calls (table_of store.old) (count_in blocks.now)) }
    ensures err { (wants : List (Option Want)) → AreListed wants (table_of store.old) homes.now copies.old hot.now blocks.now
        → OnErr result (HasSpreadSome wants homes.now hot.now copies.old copies.new store.old store.new) }
{
    let files = hot.inodes(alloc)?;
    let mut gained = 0;
    for place in 0..files.len() {
        let more = spread_file(alloc, store, files[place], &blocks[place], homes, copies)?;
        gained += more;
        if let Some(lost) = store.least_lost() {
            return Ok(DiffuseAnswer::Lost(lost));
        }
    }
    Ok(DiffuseAnswer::Diffused(gained))
}

// Gives a file with these blocks a copy where it is to have one, and tells how many got one: one or none. Where it is to have one
// and gets none, a boundary is lost.
fn spread_file<R: Rack>(
    alloc: Global,
    store: &mut Store<R>,
    inode: u32,
    blocks: &[u32],
    homes: &Homes,
    copies: &mut Homes,
) -> Result<u32, NoMemory>
    requires sound { IsSound R.Rack store.old }
    requires homes { Ascend homes.now }
    requires copies { Ascend copies.old }
    requires apart { AreApart blocks.now }
    requires can { (h s : ℕ) → home_of homes.now inode ≡ Some h → s ≢ h → home_of copies.old inode ≡ None
        → CanCopy (table_of store.old) s blocks.now }
    ensures moved { Moved R.Rack store.old store.new }
    ensures spread { IfOk result (λ n. SpreadsOrNot
        (spread_with blocks.now inode (home_of homes.now inode) (home_of copies.old inode) (spread_of store.old copies.old))
        n copies.old copies.new store.old store.new) }
    ensures still { lacks_copy homes.now copies.old inode ≡ false → (store.new ≡ store.old) × (copies.new ≡ copies.old) }
    ensures few { IfOk result (λ n. n ≤ 1) }
    ensures most { CallsAtMost R.Rack store.old store.new (copy_calls (table_of store.old) (length blocks.now)) }
    ensures err { OnErr result (spread_of store.new copies.new ≡ spread_of store.old copies.old) }
{
    match homes.home_of(inode) {
        None => Ok(0),
        Some(boundary) => spread_homed(alloc, store, Home { inode, boundary }, blocks, copies),
    }
}

// The same of a file that has a home.
fn spread_homed<R: Rack>(
    alloc: Global,
    store: &mut Store<R>,
    home: Home,
    blocks: &[u32],
    copies: &mut Homes,
) -> Result<u32, NoMemory>
    requires sound { IsSound R.Rack store.old }
    requires ascend { Ascend copies.old }
    requires apart { AreApart blocks.now }
    requires can { (s : ℕ) → s ≢ home.boundary → home_of copies.old home.inode ≡ None → CanCopy (table_of store.old) s blocks.now }
    ensures moved { Moved R.Rack store.old store.new }
    ensures spread { IfOk result (λ n. SpreadsOrNot
        (spread_with blocks.now home.inode (Some home.boundary) (home_of copies.old home.inode) (spread_of store.old copies.old))
        n copies.old copies.new store.old store.new) }
    ensures still { is_some (home_of copies.old home.inode) ≡ true → (store.new ≡ store.old) × (copies.new ≡ copies.old) }
    ensures few { IfOk result (λ n. n ≤ 1) }
    ensures most { CallsAtMost R.Rack store.old store.new (copy_calls (table_of store.old) (length blocks.now)) }
    ensures err { OnErr result (spread_of store.new copies.new ≡ spread_of store.old copies.old) }
{
    match copies.home_of(home.inode) {
        Some(_) => Ok(0),
        None => copy_file(alloc, store, home, blocks, copies),
    }
}

// Gives a file with these blocks a copy on the boundary for it, where they fit there.
fn copy_file<R: Rack>(
    alloc: Global,
    store: &mut Store<R>,
    home: Home,
    blocks: &[u32],
    copies: &mut Homes,
) -> Result<u32, NoMemory>
    requires sound { IsSound R.Rack store.old }
    requires apart { AreApart blocks.now }
    requires can { (s : ℕ) → s ≢ home.boundary → CanCopy (table_of store.old) s blocks.now }
    ensures moved { Moved R.Rack store.old store.new }
    ensures spread { IfOk result (λ n. SpreadsOrNot
        (fitted home.inode (emptiest (table_of store.old) home.boundary) blocks.now (spread_of store.old copies.old))
        n copies.old copies.new store.old store.new) }
    ensures few { IfOk result (λ n. n ≤ 1) }
    ensures most { CallsAtMost R.Rack store.old store.new (copy_calls (table_of store.old) (length blocks.now)) }
    ensures err { OnErr result (spread_of store.new copies.new ≡ spread_of store.old copies.old) }
{
    match emptiest(store, home.boundary) {
        None => Ok(0),
        Some(boundary) => {
            let copy = Home {
                inode: home.inode,
                boundary,
            };
            copy_to(alloc, store, copy, blocks, copies)
        }
    }
}

// Gives a file with these blocks a copy on a boundary, where they fit there.
fn copy_to<R: Rack>(
    alloc: Global,
    store: &mut Store<R>,
    copy: Home,
    blocks: &[u32],
    copies: &mut Homes,
) -> Result<u32, NoMemory>
    requires sound { IsSound R.Rack store.old }
    requires boundary { copy.boundary < (shape_of store.old).b }
    requires apart { AreApart blocks.now }
    requires can { CanCopy (table_of store.old) copy.boundary blocks.now }
    ensures moved { Moved R.Rack store.old store.new }
    ensures spread { IfOk result (λ n. SpreadsOrNot
        (fitted copy.inode (Some copy.boundary) blocks.now (spread_of store.old copies.old))
        n copies.old copies.new store.old store.new) }
    ensures few { IfOk result (λ n. n ≤ 1) }
    ensures most { CallsAtMost R.Rack store.old store.new (copy_calls (table_of store.old) (length blocks.now)) }
    ensures err { OnErr result (spread_of store.new copies.new ≡ spread_of store.old copies.old) }
{
    let wanted = store.map().used(copy.boundary) as usize + blocks.len();
    let most = store.shape().k as usize;
    if wanted > most {
        return Ok(0);
    }
    match copy_all(store, copy.boundary, blocks) {
        Ok(true) => keep_copy(alloc, store, copy, blocks, copies),
        Ok(false) => Ok(0),
        Err(NoMemory) => Err(NoMemory),
    }
}

// Puts a copy that stands into the list, or gives it up where there is no memory for that.
fn keep_copy<R: Rack>(
    alloc: Global,
    store: &mut Store<R>,
    copy: Home,
    blocks: &[u32],
    copies: &mut Homes,
) -> Result<u32, NoMemory>
    requires sound { IsSound R.Rack store.old }
    requires apart { AreApart blocks.now }
    requires can { CanGiveUp (table_of store.old) copy.boundary blocks.now }
    ensures moved { Moved R.Rack store.old store.new }
    ensures one { IfOk result (λ n. n ≡ 1) }
    ensures added { OnOk result (copies.new ≡ with_home copy copies.old) }
    ensures stays { OnOk result (store.new ≡ store.old) }
    ensures err { OnErr result (copies.new ≡ copies.old) }
    ensures rack { rack_of store.new ≡ rack_of store.old }
    ensures back { OnErr result (table_of store.new ≡ all_done (table_of store.old) (give_ups_on copy.boundary blocks.now)) }
{
    match add_home(alloc, copies, copy) {
        Ok(()) => Ok(1),
        Err(NoMemory) => {
            give_up(store, copy.boundary, blocks);
            Err(NoMemory)
        }
    }
}
