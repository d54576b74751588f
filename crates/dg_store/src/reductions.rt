// A store that goes on without its lost boundaries.
ghost use Rattle.std.specs.Prelude.{◌≡◌, ◌+◌, ◌*◌, ◌≤◌, ◌<◌, ℕ, List, length};
ghost use Rattle.dg_model.specs.Lives.{left_of};
ghost use Rattle.dg_model.specs.Members.{is_good};
ghost use Rattle.dg_model.specs.Regroups.{members_left};
ghost use Rattle.dg_model.specs.Shapes.{IsShape};
ghost use Rattle.dg_model.specs.Tables.{IsTable};
ghost use Rattle.dg_io.specs.Reduced.{places_left};
ghost use Rattle.dg_pair.specs.declared.boundaries.Boundary.{Boundary as PairOf};
ghost use Rattle.dg_pair.specs.Boundaries.{members_of as boundary_members, number_of, IsWell};
ghost use Rattle.dg_store.specs.Reduced.{left_in, reduced, IsKept, IsMoved, IsReduced};
ghost use Rattle.dg_store.specs.Rows.{members_in, RowStands};
ghost use Rattle.dg_store.specs.Stores.{lost_bits, members_of, rack_of, shape_of, IsSound};

use crate::boundaries::is_lost_at;
use crate::{Boundary, Shape, Store};
use dg_io::{Rack, Reduces};
use dg_map::Map;
use dg_model::MemberState;

impl<R: Reduces> Store<R> {
    /// Goes on without the lost boundaries, in place. The map has the sites that are left, under the new places. A member
    /// that was being refilled is out. It makes no call on the rack, and takes no memory.
    pub fn reduce(&mut self, map: Map)
        requires sound { IsSound R.Rack self.old }
        requires boundaries { (shape_of self.old).b ≤ R.boundaries (rack_of self.old) }
        requires map { map ≡ reduced self.old }
        requires table { IsTable map }
        ensures { IsReduced R.Rack R.boundaries R.dropped self.old self.new }
    {
        let lost = self.lost();
        keep_live(&mut self.row, self.map.shape());
        self.rack.drop_lost(lost);
        self.map = map;
    }
}

/// The places that the bits of the lost boundaries leave are those of the boundaries that aren't lost.
pub fn bits_leave_the_live<R: Rack>(store: &Store<R>)
    requires { IsSound R.Rack store.now }
    ensures { places_left (lost_bits (members_of store.now) (shape_of store.now).b) (shape_of store.now).b ≡ left_in store.now }
{
    let _ = store.shape();
}

/// Keeps the boundaries that aren't lost, in their order, and gives each its new number.
fn keep_live(row: &mut Vec<Boundary>, shape: &Shape)
    requires shape { IsShape shape.now }
    requires stands { RowStands shape.now.l (shape.now.k + 1) row.old.items }
    requires count { length row.old.items ≡ shape.now.b }
    ensures count { length row.new.items ≡ length (left_of shape.now (members_in row.old.items)) }
    ensures stands { RowStands shape.now.l (shape.now.k + 1) row.new.items }
    ensures members { (q : ℕ) → members_in row.new.items q ≡ members_left (left_of shape.now (members_in row.old.items)) (members_in row.old.items) q }
{
    let mut kept = 0;
    for number in 0..shape.b {
        kept = keep_next(row, shape, number, kept);
    }
    row.truncate(kept as usize);
}

/// Keeps the next boundary, where it isn't lost, behind those that were kept, and answers how many are kept then.
fn keep_next(row: &mut Vec<Boundary>, shape: &Shape, number: u8, kept: u8) -> u8
    requires shape { IsShape shape.now }
    requires stands { RowStands shape.now.l (shape.now.k + 1) row.old.items }
    requires within { number < length row.old.items }
    requires few { length row.old.items ≤ 16 }
    requires behind { kept ≤ number }
    ensures { (was : List PairOf) → RowStands shape.now.l (shape.now.k + 1) was
        → IsKept shape.now.l (shape.now.k + 1) was row.old.items number kept → IsKept shape.now.l (shape.now.k + 1) was row.new.items (number + 1) result }
{
    if is_lost_at(row, shape, number) {
        return kept;
    }
    let boundary = moved(&row[number as usize], kept, shape);
    row[kept as usize] = boundary;
    kept + 1
}

/// The boundary under a new number, of its good members alone.
fn moved(boundary: &Boundary, number: u8, shape: &Shape) -> Boundary
    requires well { IsWell boundary.now }
    requires number { number < 128 }
    requires shape { IsShape shape.now }
    ensures { IsMoved boundary.now number shape.now.l (shape.now.k + 1) result }
{
    let good = (has_good(boundary, 0), has_good(boundary, 1));
    Boundary::opened(number, shape.l, shape.k + 1, good)
}

/// Whether the member of a side is good.
fn has_good(boundary: &Boundary, side: u8) -> bool
    requires well { IsWell boundary.now }
    requires side { side < 2 }
    ensures { result ≡ is_good (boundary_members boundary.now (2 * number_of boundary.now + side)) }
{
    matches!(boundary.member(side), MemberState::Good)
}
