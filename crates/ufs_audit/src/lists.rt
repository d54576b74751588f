// The malformations that all passes find, in their order.
ghost use Rattle.std.specs.Prelude.{◌≡◌, ◌++◌, ◌∷◌, [], IfOk, OnOk};
ghost use Rattle.ufs_model.specs.declared.malformations.BadKind.TheVariants.{GroupMagic, GroupMap, WrongType, Filesize, Past, Wild, WildIn, Align, AlignIn, Run, Twice};
ghost use Rattle.ufs_model.specs.declared.malformations.BadKind.TheVariants.{PastIn, Free, Unused, Hole, Chunk, Entry, EntryType, Dots, Names, DirTwice, RootNamed};
ghost use Rattle.ufs_check.specs.Verdicts.{all_kinds, found_in};
ghost use Rattle.ufs_audit.specs.Listed.{listed, pairs_of};

use dg_io::NoMemory;
use std::alloc::Global;
use ufs_check::{BadKind, Faults};

/// Puts the numbers of a kind last in the list.
fn add(bad: &mut Vec<(BadKind, u32)>, kind: BadKind, numbers: &[u32]) -> Result<(), NoMemory>
    ensures { OnOk result (bad.new.items ≡ bad.old.items ++ pairs_of kind numbers.now) }
{
    for number in numbers {
        if bad.push((kind, *number)).is_err() {
            return Err(NoMemory);
        }
    }
    Ok(())
}

/// Puts the faults of group blocks, inodes and slots.
fn add_slots(bad: &mut Vec<(BadKind, u32)>, faults: &Faults) -> Result<(), NoMemory>
    ensures { OnOk result (bad.new.items ≡ bad.old.items
        ++ listed (found_in faults.now) (GroupMagic ∷ GroupMap ∷ WrongType ∷ Filesize ∷ Past ∷ Wild ∷ [])) }
{
    add(bad, BadKind::GroupMagic, &faults.metadata.groups.magic)?;
    add(bad, BadKind::GroupMap, &faults.metadata.groups.map)?;
    add(bad, BadKind::WrongType, &faults.metadata.inodes.wrong_type)?;
    add(bad, BadKind::Filesize, &faults.metadata.inodes.filesize)?;
    add(bad, BadKind::Past, &faults.metadata.inodes.past)?;
    add(bad, BadKind::Wild, &faults.metadata.inodes.wild)?;
    Ok(())
}

/// Puts the faults of pointers, and of slots among them.
fn add_pointers(bad: &mut Vec<(BadKind, u32)>, faults: &Faults) -> Result<(), NoMemory>
    ensures { OnOk result (bad.new.items ≡ bad.old.items ++ listed (found_in faults.now) (WildIn ∷ Align ∷ AlignIn ∷ Run ∷ [])) }
{
    add(bad, BadKind::WildIn, &faults.metadata.fragments.wild_in)?;
    add(bad, BadKind::Align, &faults.metadata.inodes.align)?;
    add(bad, BadKind::AlignIn, &faults.metadata.fragments.align_in)?;
    add(bad, BadKind::Run, &faults.metadata.inodes.run)?;
    Ok(())
}

/// Puts the faults of claims and marks.
fn add_claims(bad: &mut Vec<(BadKind, u32)>, faults: &Faults) -> Result<(), NoMemory>
    ensures { OnOk result (bad.new.items ≡ bad.old.items ++ listed (found_in faults.now) (Twice ∷ PastIn ∷ Free ∷ Unused ∷ [])) }
{
    add(bad, BadKind::Twice, &faults.metadata.fragments.twice)?;
    add(bad, BadKind::PastIn, &faults.metadata.fragments.past_in)?;
    add(bad, BadKind::Free, &faults.metadata.fragments.free)?;
    add(bad, BadKind::Unused, &faults.metadata.inodes.unused)?;
    Ok(())
}

/// Puts the faults of directories, each by itself.
fn add_directories(bad: &mut Vec<(BadKind, u32)>, faults: &Faults) -> Result<(), NoMemory>
    ensures { OnOk result (bad.new.items ≡ bad.old.items ++ listed (found_in faults.now) (Hole ∷ Chunk ∷ Entry ∷ EntryType ∷ [])) }
{
    add(bad, BadKind::Hole, &faults.tree.directories.hole)?;
    add(bad, BadKind::Chunk, &faults.tree.directories.chunk)?;
    add(bad, BadKind::Entry, &faults.tree.directories.entry)?;
    add(bad, BadKind::EntryType, &faults.tree.directories.entry_type)?;
    Ok(())
}

/// Puts the faults between the entries of directories.
fn add_links(bad: &mut Vec<(BadKind, u32)>, faults: &Faults) -> Result<(), NoMemory>
    ensures { OnOk result (bad.new.items ≡ bad.old.items ++ listed (found_in faults.now) (Dots ∷ Names ∷ DirTwice ∷ RootNamed ∷ [])) }
{
    add(bad, BadKind::Dots, &faults.tree.links.dots)?;
    add(bad, BadKind::Names, &faults.tree.directories.names)?;
    add(bad, BadKind::DirTwice, &faults.tree.links.dir_twice)?;
    add(bad, BadKind::RootNamed, &faults.tree.directories.root_named)?;
    Ok(())
}

/// All malformations, by what the passes find.
pub fn list_all(alloc: Global, faults: &Faults) -> Result<Vec<(BadKind, u32)>, NoMemory>
    ensures { IfOk result (λ bad. bad.items ≡ listed (found_in faults.now) all_kinds) }
{
    let mut bad = Vec::new(alloc);
    add_slots(&mut bad, faults)?;
    add_pointers(&mut bad, faults)?;
    add_claims(&mut bad, faults)?;
    add_directories(&mut bad, faults)?;
    add_links(&mut bad, faults)?;
    Ok(bad)
}
