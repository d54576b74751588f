// The directories of items.
ghost use Rattle.std.specs.Prelude.{◌≡◌, ◌+◌, ◌<◌, ◌≤◌, ◌^◌, ◌==◌, ◌++◌, ◌∷◌, [], ℕ, MatchOption, IfSome};
ghost use Rattle.std.specs.Prelude.{IfOk, IsOk, OnOk, MatchResult, Some, None, Ok, Err, length, slice_get, take, drop};
ghost use Rattle.std.specs.List.{All};
ghost use Rattle.std.specs.Bool.{OnTrue};
ghost use Rattle.std.specs.Cmp.Lexicographic.{pointwise};
ghost use Rattle.ufs_build.specs.Items.{HasShortName, HasSlash, directory_at, has_contents, is_dir};
ghost use Rattle.ufs_build.specs.Items.{name_of, parent_inode, parent_of, parents_after, parents_of, place_of_path, without_memory};
ghost use Rattle.ufs_build.specs.declared.items.Item.{Item};
ghost use Rattle.ufs_build.specs.declared.refusals.BuildRefused.TheVariants.{BadItem, NoMemory, TooMany};
ghost use Rattle.ufs_build.specs.declared.refusals.What.{What};

use crate::items::{Item, ItemKind};
use crate::paths::{has_place, is_same, split_path};
use crate::refusals::BuildRefused;
use std::alloc::Global;

/// The inode of the root's directory.
pub const ROOT: u32 = 2;

/// The inode of the first item.
pub const FIRST: u32 = 3;

/// Whether a kind is that of directories.
pub fn is_dir(kind: ItemKind) -> bool
    ensures { result ≡ is_dir kind }
{
    match kind {
        ItemKind::Dir => true,
        ItemKind::File | ItemKind::Link => false,
    }
}

/// A directory has no bytes of its own, and no item has 2^32 bytes.
#[tactic(auto, unfolding(crate::specs::Items::has_contents))]
fn has_contents(item: &Item) -> bool
    ensures { result ≡ has_contents item.now }
{
    let bytes = item.bytes.as_slice();
    !(is_dir(item.kind) && !bytes.is_empty()) && bytes.len() < 1 << 32
}

/// The first of the items with a path.
fn place_of_path(items: &[Item], path: &[u8]) -> Option<usize>
    ensures value { result ≡ place_of_path items.now path.now }
    ensures inside { IfSome result (λ k. k < length items.now) }
{
    items
        .iter()
        .position(|item| is_same(item.path.as_slice(), path))
}

/// The inode of the directory at a path, which is the root or among the items.
#[tactic(auto, unfolding(crate::specs::Items::directory_at))]
fn directory_at(items: &[Item], path: &[u8]) -> Option<u32>
    requires { length items.now + 3 < 2 ^ 32 }
    ensures { result ≡ directory_at items.now path.now }
{
    if path.is_empty() {
        return Some(ROOT);
    }
    let k = place_of_path(items, path)?;
    if is_dir(items[k].kind) {
        Some(k as u32 + FIRST)
    } else {
        None
    }
}

/// The inode of the directory of an item that comes after others. There is none where the item
/// can't stand there.
#[tactic(auto, unfolding(crate::specs::Items::parent_inode))]
fn parent_inode(before: &[Item], item: &Item) -> Option<u32>
    requires { length before.now + 3 < 2 ^ 32 }
    ensures value { result ≡ parent_inode before.now item.now }
    ensures short { IfSome result (λ inode. HasShortName item.now) }
    ensures slash { IfSome result (λ inode. slice_get item.now.path 0 ≡ Some 47) }
{
    let path = item.path.as_slice();
    if !has_place(path) || !has_contents(item) || place_of_path(before, path).is_some() {
        return None;
    }
    let (parent, _) = split_path(path);
    directory_at(before, parent)
}

/// Why items have no inodes of directories where memory is wanting at a place. The first item from
/// there on that can't stand where its path says is refused all the same.
fn without_memory(items: &[Item], from: usize) -> BuildRefused
    requires { length items.now + 3 < 2 ^ 32 }
    ensures { result ≡ without_memory (parents_after (take from items.now) (drop from items.now)) }
{
    for k in from..items.len() {
        let (before, rest) = items.split_at(k);
        if parent_inode(before, &rest[0]).is_none() {
            return BuildRefused::BadItem(k as u32);
        }
    }
    BuildRefused::NoMemory
}

/// The inodes of the items' directories. The first item that can't stand where its path says is
/// refused, also where memory is wanting for those before it.
#[tactic(auto, unfolding(crate::specs::Items::parents_of))]
pub fn parents_of(alloc: Global, items: &[Item]) -> Result<Vec<u32>, BuildRefused>
    requires { length items.now + 3 < 2 ^ 32 }
    ensures found { IfOk result (λ parents. parents_of items.now ≡ Ok parents.items) }
    ensures bad { (k : ℕ) → result ≡ Err (BadItem k) → parents_of items.now ≡ Err k }
    ensures memory { result ≡ Err NoMemory → IsOk (parents_of items.now) }
    ensures many { (what : What) → result ≡ Err (TooMany what) → ⊥ }
    ensures names { OnOk result (All HasShortName items.now) }
    ensures slashes { OnOk result (All HasSlash items.now) }
{
    let mut parents = Vec::new(alloc);
    for k in 0..items.len() {
        let (before, rest) = items.split_at(k);
        let Some(parent) = parent_inode(before, &rest[0]) else {
            return Err(BuildRefused::BadItem(k as u32));
        };
        if parents.push(parent).is_err() {
            return Err(without_memory(items, k + 1));
        }
    }
    Ok(parents)
}
