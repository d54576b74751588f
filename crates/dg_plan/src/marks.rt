// The marks of blocks: for each block a number, of which bit s says whether the block is to stand on boundary s.
ghost use Rattle.std.specs.Prelude.{◌≡◌, ◌<◌, ℕ, Some, length, slice_index, option_to_list};
ghost use Rattle.std.specs.BTreeMap.{get};
ghost use Rattle.std.specs.Ordering.{nat_cmp};
ghost use Rattle.dg_model.specs.Homes.{home_of};
ghost use Rattle.dg_model.specs.Plans.{places_of};
ghost use Rattle.dg_model.specs.Shapes.{IsShape};
ghost use Rattle.dg_model.specs.Wants.{want_of};
ghost use Rattle.dg_plan.specs.Marks.{AreFilesMarked, IsMarkBy, IsMarkOf};
ghost use Rattle.dg_plan.specs.Placings.{homes_in};

use crate::files::are_of_one_file;
use crate::{Shape, Want};
use std::collections::BTreeMap;

/// The mark of a block that has several places.
fn mark_of_places(shape: &Shape, block: u32) -> u16
    requires shape { IsShape shape.now }
    requires block { block < shape.now.n }
    ensures { IsMarkOf result (places_of shape.now block) }
{
    let mut mark = 0;
    for place in 0..shape.m {
        let boundary = (block + u32::from(place)) % u32::from(shape.b);
        mark |= 1 << boundary;
    }
    mark
}

/// The mark of a block of a file.
fn mark_of_home(homes: &BTreeMap<u32, u8>, inode: u32) -> u16
    requires { (i s : ℕ) → get nat_cmp homes.now i ≡ Some s → s < 16 }
    ensures { IsMarkOf result (option_to_list (home_of (homes_in homes.now.entries) inode)) }
{
    match homes.get(&inode) {
        Some(boundary) => 1 << *boundary,
        None => 0,
    }
}

/// The mark of a block by what it is. A block that belongs to nothing keeps the one that it has.
fn mark_of_block(
    shape: &Shape,
    homes: &BTreeMap<u32, u8>,
    want: Option<Want>,
    block: u32,
    mark: u16,
) -> u16
    requires shape { IsShape shape.now }
    requires block { block < shape.now.n }
    requires homes { (i s : ℕ) → get nat_cmp homes.now i ≡ Some s → s < 16 }
    ensures { IsMarkBy shape.now (homes_in homes.now.entries) block want mark result }
{
    match want {
        None => 0,
        Some(Want::Kept) => mark_of_places(shape, block),
        Some(Want::File(inode)) => mark_of_home(homes, inode),
        Some(Want::Stray) => mark,
    }
}

/// The mark of a block where those before it are marked: the one before a block of the same file has its mark.
fn next_mark(
    marks: &[u16],
    shape: &Shape,
    homes: &BTreeMap<u32, u8>,
    wants: &[Option<Want>],
    block: u32,
) -> u16
    requires shape { IsShape shape.now }
    requires block { block < shape.now.n }
    requires wants { length wants.now ≡ shape.now.n }
    requires marks { length marks.now ≡ shape.now.n }
    requires homes { (i s : ℕ) → get nat_cmp homes.now i ≡ Some s → s < 16 }
    requires marked { AreFilesMarked (homes_in homes.now.entries) wants.now marks.now block }
    ensures { IsMarkBy shape.now (homes_in homes.now.entries) block (want_of wants.now block) (slice_index marks.now block) result }
{
    let place = block as usize;
    if place > 0 && are_of_one_file(wants[place - 1], wants[place]) {
        return marks[place - 1];
    }
    mark_of_block(shape, homes, wants[place], block, marks[place])
}

/// Marks all blocks but those that belong to nothing.
pub fn mark_blocks(
    marks: &mut Vec<u16>,
    shape: &Shape,
    homes: &BTreeMap<u32, u8>,
    wants: &[Option<Want>],
)
    requires shape { IsShape shape.now }
    requires blocks { length wants.now ≡ shape.now.n }
    requires marks { length marks.old.items ≡ shape.now.n }
    requires homes { (i s : ℕ) → get nat_cmp homes.now i ≡ Some s → s < 16 }
    ensures size { length marks.new.items ≡ length marks.old.items }
    ensures marked { (b : ℕ) → b < shape.now.n →
        IsMarkBy shape.now (homes_in homes.now.entries) b (want_of wants.now b) (slice_index marks.old.items b) (slice_index marks.new.items b) }
{
    for block in 0..shape.n {
        let mark = next_mark(marks, shape, homes, wants, block);
        marks[block as usize] = mark;
    }
}
