// Files that have a home and no copy, and the blocks of these.
ghost use Rattle.std.specs.Prelude.{◌≡◌, All, List, Option, IfOk, OnOk, ◌++◌, ◌∷◌, [], false, filter, if◌then◌else◌, map};
ghost use Rattle.std.specs.List.{list_any};
ghost use Rattle.dg_hot.specs.Spreads.{lists_in, to_copy};
ghost use Rattle.dg_model.specs.Copies.{lacks_copy};
ghost use Rattle.dg_model.specs.Homes.{Ascend};
ghost use Rattle.dg_model.specs.Plans.{blocks_of};
ghost use Rattle.dg_model.specs.Sites.{has_site};
ghost use Rattle.dg_model.specs.Tables.{sites_in};
ghost use Rattle.dg_model.specs.declared.wants.Want.{Want};
ghost use Rattle.dg_store.specs.Stores.{IsSound, table_of};
ghost use Rattle.dg_volume.specs.Planned.{AreWanted};

use dg_infer::Inference;
use dg_io::{NoMemory, Rack};
use dg_plan::Homes;
use dg_store::Store;
use std::alloc::Global;

/// Whether a file has a home and no copy.
fn lacks_copy(homes: &Homes, copies: &Homes, inode: u32) -> bool
    requires homes { Ascend homes.now }
    requires copies { Ascend copies.now }
    ensures { result ≡ lacks_copy homes.now copies.now inode }
{
    match homes.home_of(inode) {
        Some(_) => copies.home_of(inode).is_none(),
        None => false,
    }
}

/// Whether some of these files has a home and no copy.
pub fn any_lacks_copy(homes: &Homes, copies: &Homes, inodes: &[u32]) -> bool
    requires homes { Ascend homes.now }
    requires copies { Ascend copies.now }
    ensures { result ≡ list_any (lacks_copy homes.now copies.now) inodes.now }
{
    for inode in inodes {
        if lacks_copy(homes, copies, *inode) {
            return true;
        }
    }
    false
}

/// Whether a block is one of the array, and written.
fn is_written<R: Rack>(store: &Store<R>, block: u32) -> bool
    requires { IsSound R.Rack store.now }
    ensures { result ≡ has_site (sites_in (table_of store.now) block) }
{
    block < store.shape().n && store.written(block)
}

/// Puts a number at the end of a list, where it is wanted there.
fn push_if(list: &mut Vec<u32>, number: u32, wanted: bool) -> Result<(), NoMemory>
    ensures { OnOk result (list.new.items ≡ (if wanted then list.old.items ++ number ∷ [] else list.old.items)) }
{
    if wanted && list.push(number).is_err() {
        return Err(NoMemory);
    }
    Ok(())
}

/// Those of some blocks that are written, in their order.
fn written_ones<R: Rack>(
    alloc: Global,
    store: &Store<R>,
    blocks: &[u32],
) -> Result<Vec<u32>, NoMemory>
    requires { IsSound R.Rack store.now }
    ensures { IfOk result (λ written. written.items ≡ filter (λ b. has_site (sites_in (table_of store.now) b)) blocks.now) }
{
    let mut written = Vec::new(alloc);
    for place in 0..blocks.len() {
        let block = blocks[place];
        push_if(&mut written, block, is_written(store, block))?;
    }
    Ok(written)
}

/// The written blocks of a regular file, ascending.
fn file_list<R: Rack>(
    alloc: Global,
    store: &Store<R>,
    inference: &Inference,
    inode: u32,
) -> Result<Vec<u32>, NoMemory>
    requires { IsSound R.Rack store.now }
    ensures { IfOk result (λ blocks. (wants : List (Option Want)) → AreWanted (table_of store.now) inference.now wants
        → blocks.items ≡ blocks_of wants inode) }
{
    let blocks = inference.file_blocks(alloc, inode)?;
    written_ones(alloc, store, &blocks)
}

/// What is copied of a file: its written blocks, ascending, where it has a home and no copy, and else none.
fn list_to_copy<R: Rack>(
    alloc: Global,
    store: &Store<R>,
    inference: &Inference,
    homes: &Homes,
    copies: &Homes,
    inode: u32,
) -> Result<Vec<u32>, NoMemory>
    requires sound { IsSound R.Rack store.now }
    requires homes { Ascend homes.now }
    requires copies { Ascend copies.now }
    ensures { IfOk result (λ blocks. (wants : List (Option Want)) → AreWanted (table_of store.now) inference.now wants
        → blocks.items ≡ to_copy wants homes.now copies.now inode) }
{
    if !lacks_copy(homes, copies, inode) {
        return Ok(Vec::new(alloc));
    }
    file_list(alloc, store, inference, inode)
}

/// The same of some files, one list for each.
pub fn file_lists<R: Rack>(
    alloc: Global,
    store: &Store<R>,
    inference: &Inference,
    homes: &Homes,
    copies: &Homes,
    files: &[u32],
) -> Result<Vec<Vec<u32>>, NoMemory>
    requires sound { IsSound R.Rack store.now }
    requires homes { Ascend homes.now }
    requires copies { Ascend copies.now }
    ensures { IfOk result (λ lists. (wants : List (Option Want)) → AreWanted (table_of store.now) inference.now wants
        → lists_in lists.items ≡ map (to_copy wants homes.now copies.now) files.now) }
{
    let mut lists = Vec::new(alloc);
    for place in 0..files.len() {
        let list = list_to_copy(alloc, store, inference, homes, copies, files[place])?;
        if lists.push(list).is_err() {
            return Err(NoMemory);
        }
    }
    Ok(lists)
}
