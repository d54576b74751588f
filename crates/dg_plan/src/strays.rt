// Step 4 of the plan: blocks that belong to nothing.
ghost use Rattle.std.specs.Prelude.{◌≡◌, ◌<◌, ◌≤◌, ◌^◌, ℕ, Ok, Err, [], length, true, false, slice_index};
ghost use Rattle.dg_plan.specs.Folds.{strays_placed};
ghost use Rattle.dg_model.specs.Plans.{blocks_with, each_ok, is_stray, place_stray, roomiest};
ghost use Rattle.dg_plan.specs.Strays.{AreMarked, HasSeats};

use crate::{NoRoom, Want};

/// The boundary with the most room, the lowest one among equals.
pub fn roomiest(rooms: &Vec<u32>) -> usize
    requires { 0 < length rooms.now.items }
    ensures best { result ≡ roomiest rooms.now.items }
    ensures within { result < length rooms.now.items }
{
    let mut best = 0;
    for s in 0..rooms.len() {
        if rooms[s] > rooms[best] {
            best = s;
        }
    }
    best
}

/// Whether a block belongs to nothing.
fn has_one_place(want: Option<Want>) -> bool
    ensures { result ≡ is_stray want }
{
    matches!(want, Some(Want::Stray))
}

/// Gives each stray a place, and marks it. False where no boundary has room for one.
pub fn place_strays(rooms: &mut Vec<u32>, marks: &mut Vec<u16>, wants: &[Option<Want>]) -> bool
    requires some { 0 < length rooms.old.items }
    requires few { length rooms.old.items ≤ 16 }
    requires blocks { length wants.now ≡ length marks.old.items }
    ensures placed { result ≡ true → HasSeats wants.now rooms.old.items rooms.new.items marks.old.items marks.new.items }
    ensures none { result ≡ false → strays_placed wants.now rooms.old.items ≡ Err NoRoom.Strays }
{
    for block in 0..wants.len() {
        if has_one_place(wants[block]) {
            let boundary = roomiest(rooms);
            let left = rooms[boundary];
            if left == 0 {
                return false;
            }
            rooms[boundary] = left - 1;
            marks[block] = 1 << boundary;
        }
    }
    true
}
