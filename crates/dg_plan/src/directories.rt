// Directories of files, and the least placed file of each.
ghost use Rattle.std.specs.Prelude.{◌≡◌, ◌==◌, ℕ, cond, IfOk, OnOk};
ghost use Rattle.std.specs.BTreeMap.{get};
ghost use Rattle.std.specs.Ordering.{nat_cmp};
ghost use Rattle.dg_plan.specs.Beside.{lesser};
ghost use Rattle.dg_model.specs.Plans.{directory_of};

use crate::{Home, NoMemory, Parent};
use std::alloc::Global;
use std::collections::BTreeMap;

/// The directory of each inode that has one, by the first of the list that names it.
pub fn table_of_directories(
    alloc: Global,
    parents: &[Parent],
) -> Result<BTreeMap<u32, u32>, NoMemory>
    ensures { IfOk result (λ table. (i : ℕ) → get nat_cmp table i ≡ directory_of parents.now i) }
{
    let mut table = BTreeMap::new(alloc);
    let mut place = parents.len();
    while place > 0 {
        place -= 1;
        let parent = parents[place];
        let Ok(_) = table.insert(parent.inode, parent.directory) else {
            return Err(NoMemory);
        };
    }
    Ok(table)
}

/// Notes a file's home as that of the least file of its directory, where it is.
pub fn note(least: &mut BTreeMap<u32, Home>, directory: u32, home: Home) -> Result<(), NoMemory>
    ensures { OnOk result ((d : ℕ) → get nat_cmp least.new d ≡ cond (directory == d) (lesser home (get nat_cmp least.old d)) (get nat_cmp least.old d)) }
{
    if let Some(first) = least.get(&directory).copied() {
        if first.inode <= home.inode {
            return Ok(());
        }
    }
    let Ok(_) = least.insert(directory, home) else {
        return Err(NoMemory);
    };
    Ok(())
}
