// The homes and copies of files, against each other and against the blocks.
ghost use Rattle.std.specs.Prelude.{◌≡◌, ◌<◌, ◌↔◌, ℕ, Some, IfOk, IsTrue, length};
ghost use Rattle.dg_model.specs.Homes.{Ascend, home_of};
ghost use Rattle.dg_model.specs.declared.wants.Want.TheVariants.{File};
ghost use Rattle.dg_placed.specs.Used.{AreMarked, AreSet, HaveBlocks, IsCopy, IsMarked, IsPlaceOf};

use dg_io::NoMemory;
use dg_plan::{Home, Homes, Want};
use std::alloc::Global;

/// Whether the file has a home, and the copy is on another boundary.
fn is_copy(homes: &Homes, copy: Home) -> bool
    requires { Ascend homes.now }
    ensures { IsTrue result ↔ IsCopy homes.now copy.inode copy.boundary }
{
    match homes.home_of(copy.inode) {
        Some(home) => home != copy.boundary,
        None => false,
    }
}

/// Whether each copy is of a file with a home, and on another boundary.
pub fn are_copies(homes: &Homes, copies: &[Home]) -> bool
    requires homes { Ascend homes.now }
    requires copies { Ascend copies.now }
    ensures { IsTrue result ↔ ((i t : ℕ) → home_of copies.now i ≡ Some t → IsCopy homes.now i t) }
{
    for copy in copies {
        if !is_copy(homes, *copy) {
            return false;
        }
    }
    true
}

/// Where a file's home stands in the list, if it has one.
fn place_of(homes: &[Home], inode: u32) -> Option<usize>
    requires { Ascend homes.now }
    ensures { IsPlaceOf homes.now inode result }
{
    match homes.binary_search_by_key(&inode, |home| home.inode) {
        Ok(place) => Some(place),
        Err(_) => None,
    }
}

/// Marks the home of a file, where it has one.
fn mark_home(used: &mut Vec<bool>, homes: &[Home], inode: u32)
    requires homes { Ascend homes.now }
    requires size { length used.old.items ≡ length homes.now }
    ensures { IsMarked homes.now (Some (File inode)) used.old.items used.new.items }
{
    if let Some(place) = place_of(homes, inode) {
        used[place] = true;
    }
}

/// Marks the home of a block's file, where the block is of a file that has one.
fn mark_home_of(used: &mut Vec<bool>, homes: &[Home], want: Option<Want>)
    requires homes { Ascend homes.now }
    requires size { length used.old.items ≡ length homes.now }
    ensures { IsMarked homes.now want used.old.items used.new.items }
{
    match want {
        Some(Want::File(inode)) => mark_home(used, homes, inode),
        _ => {}
    }
}

/// For each home whether its file has one of the blocks.
fn used_homes(alloc: Global, homes: &[Home], wants: &[Option<Want>]) -> Result<Vec<bool>, NoMemory>
    requires { Ascend homes.now }
    ensures { IfOk result (λ used. AreMarked homes.now wants.now used.items) }
{
    let Ok(mut used) = vec![in alloc; false; homes.len()] else {
        return Err(NoMemory);
    };
    for block in 0..wants.len() {
        mark_home_of(&mut used, homes, wants[block]);
    }
    Ok(used)
}

/// Whether each home is of a file that has one of the blocks.
pub fn have_blocks(alloc: Global, homes: &[Home], wants: &[Option<Want>]) -> Result<bool, NoMemory>
    requires { Ascend homes.now }
    ensures { IfOk result (λ all. IsTrue all ↔ HaveBlocks homes.now wants.now) }
{
    let used = used_homes(alloc, homes, wants)?;
    Ok(are_set(&used))
}

/// Whether all marks are set.
fn are_set(marks: &[bool]) -> bool
    ensures { IsTrue result ↔ AreSet marks.now }
{
    for mark in marks {
        if !*mark {
            return false;
        }
    }
    true
}
