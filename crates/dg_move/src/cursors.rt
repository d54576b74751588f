// The least missing placement of each boundary.
ghost use Rattle.std.specs.Prelude.{◌≡◌, ◌<◌, ◌≤◌, length, MatchOption};
ghost use Rattle.dg_plan.specs.Targets.{blocks_in, wants_of};
ghost use Rattle.dg_store.specs.Stores.{IsSound, shape_of, table_of};
ghost use Rattle.dg_move.specs.Cursors.{AllFull, AreCursors, IsFrom, IsLeastCursor};

use crate::placements::is_missing;
use dg_io::Rack;
use dg_plan::Targets;
use dg_store::Store;

/// The least block, of a number or greater, whose placement on a boundary is missing. The number of blocks where there is none.
pub fn first_missing<R: Rack>(store: &Store<R>, targets: &Targets, boundary: u8, from: u32) -> u32
    requires sound { IsSound R.Rack store.now }
    requires size { blocks_in targets.now ≡ (shape_of store.now).n }
    requires boundary { boundary < (shape_of store.now).b }
    requires from { from ≤ (shape_of store.now).n }
    ensures { IsFrom (wants_of targets.now) (table_of store.now) boundary from result }
{
    let blocks = store.shape().n;
    for block in from..blocks {
        if is_missing(store, targets, block, boundary) {
            return block;
        }
    }
    blocks
}

/// Such a block for each boundary.
pub fn cursors<R: Rack>(store: &Store<R>, targets: &Targets) -> [u32; 16]
    requires sound { IsSound R.Rack store.now }
    requires size { blocks_in targets.now ≡ (shape_of store.now).n }
    ensures { AreCursors (wants_of targets.now) (table_of store.now) result }
{
    let mut next = [0; 16];
    for boundary in 0..store.shape().b {
        next[boundary as usize] = first_missing(store, targets, boundary, 0);
    }
    next
}

/// The boundary of the least of these blocks, of the boundaries that have a free slot. The lowest one among equals.
pub fn least_cursor<R: Rack>(store: &Store<R>, next: &[u32; 16]) -> Option<u8>
    requires { IsSound R.Rack store.now }
    ensures { MatchOption result (AllFull (table_of store.now) next.now) (λ s. IsLeastCursor (table_of store.now) next.now s) }
{
    let shape = *store.shape();
    let mut least = 0;
    let mut block = shape.n;
    for boundary in 0..shape.b {
        let at = next[boundary as usize];
        if at < block && store.map().used(boundary) <= shape.k {
            least = boundary;
            block = at;
        }
    }
    if block < shape.n { Some(least) } else { None }
}
