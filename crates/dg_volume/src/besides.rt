// What a rack keeps beside a saved array.
ghost use Rattle.std.specs.Prelude.{◌≡◌, ◌<◌, All, IfOk, IfSome, IsSomeAnd, true, false, length};
ghost use Rattle.std.specs.List.Sorted.{IsStrictlyIncreasing};
ghost use Rattle.dg_model.specs.Marks.{marked};
ghost use Rattle.dg_regroup.specs.Extras.{IsExtra};
ghost use Rattle.dg_store.specs.Stores.{IsSound, shape_of, table_of};
ghost use Rattle.dg_volume.specs.Besides.{CanBeCut, CannotBeCut, CannotOpen, FitsNot, FitsTable, IsEnough, IsReducedBy, IsReducedOr, IsTooLittle};
ghost use Rattle.dg_volume.specs.Volumes.{reduced_in};

use crate::in_use::InUse;
use dg_io::{NoMemory, Rack};
use dg_regroup::Extra;
use dg_store::Store;
use std::alloc::Global;

/// Whether a rack's room is enough for what an array with so many blocks may keep.
fn is_enough(room: Option<u32>, blocks: u32) -> bool
    ensures some { result ≡ true → IsEnough blocks room }
    ensures none { result ≡ false → IsTooLittle blocks room }
{
    match room {
        Some(room) => 30 + 4 * blocks as u64 <= room as u64,
        None => true,
    }
}

/// Whether an array has a block, and that has no site.
fn can_be_cut<R: Rack>(store: &Store<R>, block: u32) -> bool
    requires { IsSound R.Rack store.now }
    ensures some { result ≡ true → CanBeCut (table_of store.now) block }
    ensures none { result ≡ false → CannotBeCut (table_of store.now) block }
{
    block < store.shape().n && !store.written(block)
}

/// Whether an array has as many boundaries as are in use, and each cut block is one that it has and that has no site.
fn fits_extra<R: Rack>(store: &Store<R>, extra: &Extra) -> bool
    requires { IsSound R.Rack store.now }
    ensures some { result ≡ true → FitsTable (table_of store.now) extra.now }
    ensures none { result ≡ false → FitsNot (table_of store.now) extra.now }
{
    if extra.live.as_slice().len() != store.shape().b as usize {
        return false;
    }
    let cut = extra.cut.as_slice();
    for place in 0..cut.len() {
        if !can_be_cut(store, cut[place]) {
            return false;
        }
    }
    true
}

/// Whether what is kept fits an array, if anything is.
fn fits<R: Rack>(store: &Store<R>, kept: &Option<Extra>) -> bool
    requires { IsSound R.Rack store.now }
    ensures some { result ≡ true → IfSome kept.now (FitsTable (table_of store.now)) }
    ensures none { result ≡ false → IsSomeAnd kept.now (FitsNot (table_of store.now)) }
{
    match kept {
        Some(extra) => fits_extra(store, extra),
        None => true,
    }
}

/// Whether an array can be opened with what is kept, by a rack with this room.
pub fn can_open<R: Rack>(store: &Store<R>, room: Option<u32>, kept: &Option<Extra>) -> bool
    requires sound { IsSound R.Rack store.now }
    ensures enough { result ≡ true → IsEnough (shape_of store.now).n room }
    ensures fits { result ≡ true → IfSome kept.now (FitsTable (table_of store.now)) }
    ensures none { result ≡ false → CannotOpen (table_of store.now) room kept.now }
{
    is_enough(room, store.shape().n) && fits(store, kept)
}

/// A mark for each of so many blocks: whether it is one of these.
fn marks_of(alloc: Global, blocks: &[u32], count: u32) -> Result<Vec<bool>, NoMemory>
    requires ascend { IsStrictlyIncreasing blocks.now }
    requires below { All (λ b. b < count) blocks.now }
    ensures size { IfOk result (λ marks. length marks.items ≡ count) }
    ensures marked { IfOk result (λ marks. marked marks.items ≡ blocks.now) }
{
    let Ok(mut marks) = vec![in alloc; false; count as usize] else {
        return Err(NoMemory);
    };
    for place in 0..blocks.len() {
        marks[blocks[place] as usize] = true;
    }
    Ok(marks)
}

/// The boundaries in use and the cut blocks of an array, by what is kept.
fn in_use_by<R: Rack>(alloc: Global, store: &Store<R>, extra: Extra) -> Result<InUse, NoMemory>
    requires form { IsExtra extra }
    requires fits { FitsTable (table_of store.now) extra }
    ensures long { IfOk result (λ in_use. in_use.long ≡ (shape_of store.now).b) }
    ensures reduced { IfOk result (λ in_use. IsReducedBy (table_of store.now) extra (reduced_in in_use)) }
{
    let shape = store.shape();
    let Extra {
        boundaries,
        live,
        cut,
        ..
    } = extra;
    let cut = marks_of(alloc, cut.as_slice(), shape.n)?;
    Ok(InUse {
        boundaries,
        long: shape.b,
        live: live.into_vec(),
        cut,
    })
}

/// The boundaries in use and the cut blocks of an array: where nothing is kept, all of them and none.
pub(crate) fn in_use_of<R: Rack>(
    alloc: Global,
    store: &Store<R>,
    kept: Option<Extra>,
) -> Result<InUse, NoMemory>
    requires sound { IsSound R.Rack store.now }
    requires form { IfSome kept IsExtra }
    requires fits { IfSome kept (FitsTable (table_of store.now)) }
    ensures long { IfOk result (λ in_use. in_use.long ≡ (shape_of store.now).b) }
    ensures reduced { IfOk result (λ in_use. IsReducedOr (table_of store.now) kept (reduced_in in_use)) }
{
    match kept {
        Some(extra) => in_use_by(alloc, store, extra),
        None => InUse::all(alloc, store.shape()),
    }
}
