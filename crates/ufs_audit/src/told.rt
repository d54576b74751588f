// The lines of an audit.
ghost use Rattle.std.specs.Prelude.{◌≡◌, ◌++◌, IfOk, OnOk, map};
ghost use Rattle.dg_model.specs.Findings.{bad_line};
ghost use Rattle.dg_model.specs.declared.findings.Finding.{Finding};

use crate::audits::Findings;
use dg_io::NoMemory;
use dg_model::{Finding, Findings as Lines};
use std::alloc::Global;
use ufs_check::BadKind;

/// Puts the lines of malformations last.
fn tell_bad(lines: &mut Vec<Finding>, bad: &[(BadKind, u32)]) -> Result<(), NoMemory>
    ensures { OnOk result (lines.new.items ≡ lines.old.items ++ map bad_line bad.now) }
{
    for pair in bad {
        if lines.push(Finding::Bad(pair.0, pair.1)).is_err() {
            return Err(NoMemory);
        }
    }
    Ok(())
}

/// Puts the lines of inodes that no entry names last.
fn tell_unnamed(lines: &mut Vec<Finding>, inodes: &[u32]) -> Result<(), NoMemory>
    ensures { OnOk result (lines.new.items ≡ lines.old.items ++ map Finding.Unnamed inodes.now) }
{
    for inode in inodes {
        if lines.push(Finding::Unnamed(*inode)).is_err() {
            return Err(NoMemory);
        }
    }
    Ok(())
}

/// Puts the lines of fragments that nothing claims last.
fn tell_unclaimed(lines: &mut Vec<Finding>, fragments: &[u32]) -> Result<(), NoMemory>
    ensures { OnOk result (lines.new.items ≡ lines.old.items ++ map Finding.Unclaimed fragments.now) }
{
    for fragment in fragments {
        if lines.push(Finding::Unclaimed(*fragment)).is_err() {
            return Err(NoMemory);
        }
    }
    Ok(())
}

/// The lines of what an audit finds: the malformations, and then what is noted.
pub fn lines_of(alloc: Global, found: &Findings) -> Result<Lines, NoMemory>
    ensures { IfOk result (λ lines. lines ≡ map bad_line found.now.bad.items
        ++ (map Finding.Unnamed found.now.notes.unnamed.items ++ map Finding.Unclaimed found.now.notes.unclaimed.items)) }
{
    let mut lines = Vec::new(alloc);
    tell_bad(&mut lines, &found.bad)?;
    tell_unnamed(&mut lines, &found.notes.unnamed)?;
    tell_unclaimed(&mut lines, &found.notes.unclaimed)?;
    Ok(Lines::new(lines))
}
