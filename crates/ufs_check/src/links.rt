// What is wrong between the entries of directories.
ghost use Rattle.std.specs.Prelude.{◌≡◌, IfOk};
ghost use Rattle.ufs_model.specs.Blocks.{Volume};
ghost use Rattle.ufs_model.specs.Geometries.{IsGeometry};
ghost use Rattle.ufs_check.specs.Links.{AreLinkFaults, AreLinks, bad_dots_in, leads_in, named_twice_in};

use crate::notes::note;
use crate::parents::{LinkTable, Up};
use dg_io::NoMemory;
use std::alloc::Global;
use ufs_model::{Geometry, ROOT_INODE};

/// What is wrong between the entries of directories: of each kind the directories, ascending.
#[derive(Drop)]
pub struct LinkFaults {
    /// Their first two entries aren't `.` for themselves and `..` for their parent.
    pub dots: Vec<u32>,
    /// They are named by two entries that are neither `.` nor `..`.
    pub dir_twice: Vec<u32>,
}

/// `..` of directory `i` may name directory `p`.
fn may_lead(i: u32, p: u32, table: &LinkTable) -> bool
    ensures { result ≡ leads_in table.now i p }
{
    if i == ROOT_INODE {
        return p == ROOT_INODE;
    }
    match table.parents.get(&i) {
        None => true,
        Some(parent) => parent.directory == p,
    }
}

/// Inode `i` is a directory with other first entries than `.` for itself and `..` for its parent.
fn has_bad_dots(i: u32, table: &LinkTable) -> bool
    ensures { result ≡ bad_dots_in table.now i }
{
    match table.ups.get(&i).copied() {
        None => false,
        Some(Up::Wrong) => true,
        Some(Up::Unjudged) => false,
        Some(Up::Leads(p)) => !may_lead(i, p, table),
    }
}

/// Inode `i` is a directory that is named by two entries which are neither `.` nor `..`.
fn is_named_twice(i: u32, table: &LinkTable) -> bool
    ensures { result ≡ named_twice_in table.now i }
{
    match table.parents.get(&i) {
        None => false,
        Some(parent) => parent.of_directory && parent.twice,
    }
}

/// What is wrong between the entries of directories, all of which are kept.
pub fn judge_links(alloc: Global, g: &Geometry, table: &LinkTable) -> Result<LinkFaults, NoMemory>
    requires { IsGeometry g.now }
    ensures { IfOk result (λ faults. (v : Volume) → AreLinks g.now v table.now → AreLinkFaults g.now v faults) }
{
    let mut faults = LinkFaults {
        dots: Vec::new(alloc),
        dir_twice: Vec::new(alloc),
    };
    for i in ROOT_INODE..g.ncg * g.ipg {
        note(&mut faults.dots, i, has_bad_dots(i, table))?;
        note(&mut faults.dir_twice, i, is_named_twice(i, table))?;
    }
    Ok(faults)
}
