// The files that have written blocks.
ghost use Rattle.std.specs.Prelude.{◌≡◌, ◌+◌, ◌<◌, ◌≤◌, ◌^◌, ℕ, length, IfOk, OnOk};
ghost use Rattle.dg_model.specs.Plans.{is_file};
ghost use Rattle.dg_model.specs.Wants.{want_of};
ghost use Rattle.dg_plan.specs.Files.{add_want, are_of_one_file, blocks_at, files_with, with_blocks};

use crate::{NoMemory, Want};
use std::alloc::Global;
use std::collections::BTreeMap;

/// Whether a block is one of the file.
fn is_block_of(want: Option<Want>, inode: u32) -> bool
    ensures { result ≡ is_file inode want }
{
    match want {
        Some(Want::File(other)) => other == inode,
        _ => false,
    }
}

/// Whether both blocks are of one file.
pub fn are_of_one_file(first: Option<Want>, second: Option<Want>) -> bool
    ensures { result ≡ are_of_one_file first second }
{
    match first {
        Some(Want::File(inode)) => is_block_of(second, inode),
        _ => false,
    }
}

/// Where the blocks of one file begin of which the last stands before `end`. A block that is of no file stands by itself.
fn run_start(wants: &[Option<Want>], end: usize) -> usize
    requires some { 0 < end }
    requires within { end ≤ length wants.now }
    ensures before { result < end }
    ensures same { (k : ℕ) → result ≤ k → k < end → want_of wants.now k ≡ want_of wants.now result }
{
    let mut first = end - 1;
    while first > 0 && are_of_one_file(wants[first - 1], wants[first]) {
        first -= 1;
    }
    first
}

/// Counts so many blocks of a file more.
fn add_blocks(files: &mut BTreeMap<u32, u32>, inode: u32, count: u32) -> Result<(), NoMemory>
    requires { blocks_at files.old.entries inode + count ≤ 2 ^ 20 }
    ensures entries { OnOk result (files.new.entries ≡ with_blocks files.old.entries inode count) }
    ensures counts { OnOk result ((i : ℕ) → blocks_at files.new.entries i ≤ blocks_at files.old.entries i + count) }
{
    let before = files.get(&inode).copied().unwrap_or(0);
    let Ok(_) = files.insert(inode, before + count) else {
        return Err(NoMemory);
    };
    Ok(())
}

/// Counts so many blocks where they are of a file.
fn add_want(files: &mut BTreeMap<u32, u32>, want: Option<Want>, count: u32) -> Result<(), NoMemory>
    requires { (i : ℕ) → blocks_at files.old.entries i + count ≤ 2 ^ 20 }
    ensures entries { OnOk result (files.new.entries ≡ add_want count want files.old.entries) }
    ensures counts { OnOk result ((i : ℕ) → blocks_at files.new.entries i ≤ blocks_at files.old.entries i + count) }
{
    match want {
        Some(Want::File(inode)) => add_blocks(files, inode, count),
        _ => Ok(()),
    }
}

/// The files that have a written block, with their numbers of blocks, ascending by inode.
pub fn files_of(alloc: Global, wants: &[Option<Want>]) -> Result<BTreeMap<u32, u32>, NoMemory>
    requires { length wants.now ≤ 2 ^ 20 }
    ensures { IfOk result (λ files. files.entries ≡ files_with wants.now) }
{
    let mut files = BTreeMap::new(alloc);
    let mut end = wants.len();
    while end > 0 {
        let first = run_start(wants, end);
        add_want(&mut files, wants[first], (end - first) as u32)?;
        end = first;
    }
    Ok(files)
}
