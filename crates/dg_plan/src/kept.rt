// Step 1 of the plan: the places of blocks of the file system itself, of directories and of long links.
ghost use Rattle.std.specs.Prelude.{◌≡◌, ◌+◌, ◌<◌, ◌≤◌, ◌^◌, Ok, Err, length, true, false};
ghost use Rattle.std.specs.List.{flat_map};
ghost use Rattle.dg_model.specs.Shapes.{IsShape};
ghost use Rattle.dg_plan.specs.Folds.{kept_placed};
ghost use Rattle.dg_model.specs.Plans.{blocks_with, each_ok, is_kept, place_kept, places_of};

use crate::{NoRoom, Shape, Want};

/// Takes room for a block on a boundary. False where there is none.
fn take_room(rooms: &mut Vec<u32>, boundary: u32) -> bool
    requires { boundary < length rooms.old.items }
    ensures taken { result ≡ true → place_kept boundary rooms.old.items ≡ Ok rooms.new.items }
    ensures none { result ≡ false → place_kept boundary rooms.old.items ≡ Err NoRoom.System }
    ensures size { length rooms.new.items ≡ length rooms.old.items }
{
    let left = rooms[boundary as usize];
    if left == 0 {
        return false;
    }
    rooms[boundary as usize] = left - 1;
    true
}

/// Takes room for the places of a block. False where a boundary has none.
fn place_block(rooms: &mut Vec<u32>, shape: &Shape, block: u32) -> bool
    requires shape { IsShape shape.now }
    requires block { block < shape.now.n }
    requires size { length rooms.old.items ≡ shape.now.b }
    ensures placed { result ≡ true → each_ok place_kept (places_of shape.now block) rooms.old.items ≡ Ok rooms.new.items }
    ensures none { result ≡ false → each_ok place_kept (places_of shape.now block) rooms.old.items ≡ Err NoRoom.System }
    ensures size { length rooms.new.items ≡ length rooms.old.items }
{
    for place in 0..shape.m {
        let boundary = (block + u32::from(place)) % u32::from(shape.b);
        if !take_room(rooms, boundary) {
            return false;
        }
    }
    true
}

/// Whether a block has several places.
fn has_places(want: Option<Want>) -> bool
    ensures { result ≡ is_kept want }
{
    matches!(want, Some(Want::Kept))
}

/// Takes room for all places of kept blocks. False where a boundary has none.
pub fn place_kept(rooms: &mut Vec<u32>, shape: &Shape, wants: &[Option<Want>]) -> bool
    requires shape { IsShape shape.now }
    requires blocks { length wants.now ≡ shape.now.n }
    requires size { length rooms.old.items ≡ shape.now.b }
    ensures placed { result ≡ true → kept_placed shape.now wants.now rooms.old.items ≡ Ok rooms.new.items }
    ensures none { result ≡ false → kept_placed shape.now wants.now rooms.old.items ≡ Err NoRoom.System }
    ensures size { length rooms.new.items ≡ length rooms.old.items }
{
    for block in 0..shape.n {
        if has_places(wants[block as usize]) && !place_block(rooms, shape, block) {
            return false;
        }
    }
    true
}
