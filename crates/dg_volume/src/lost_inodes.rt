// The inodes that own cut blocks.
ghost use Rattle.std.specs.Prelude.{◌≡◌, ◌≤◌, ℕ, IfOk, OnOk, length, true};
ghost use Rattle.dg_infer.specs.Wants.{IsOfBy};
ghost use Rattle.dg_model.specs.Marks.{is_marked};
ghost use Rattle.dg_volume.specs.LostFiles.{AreLostMarks, GainsMarks};

use dg_infer::Inference;
use dg_io::NoMemory;
use std::alloc::Global;

/// Puts marks that are not set behind others, until there are so many.
fn grow(marks: &mut Vec<bool>, count: usize) -> Result<(), NoMemory>
    ensures long { OnOk result (count ≤ length marks.new.items) }
    ensures same { OnOk result ((i : ℕ) → is_marked marks.new.items i ≡ is_marked marks.old.items i) }
{
    while marks.len() < count {
        let Ok(()) = marks.push(false) else {
            return Err(NoMemory);
        };
    }
    Ok(())
}

/// Marks an inode.
fn mark_inode(marks: &mut Vec<bool>, inode: u32) -> Result<(), NoMemory>
    ensures { OnOk result (GainsMarks marks.old.items marks.new.items (λ i. i ≡ inode)) }
{
    grow(marks, inode as usize + 1)?;
    marks[inode as usize] = true;
    Ok(())
}

/// Marks the inode that owns a block.
fn mark_owner(marks: &mut Vec<bool>, inference: &Inference, block: u32) -> Result<(), NoMemory>
    ensures { OnOk result (GainsMarks marks.old.items marks.new.items (IsOfBy inference.now block)) }
{
    let Some((inode, _)) = inference.claims().owner(block) else {
        return Ok(());
    };
    mark_inode(marks, inode)
}

/// Marks the inode that owns a block, where it was cut.
fn mark_if(
    marks: &mut Vec<bool>,
    inference: &Inference,
    cut: bool,
    block: u32,
) -> Result<(), NoMemory>
    ensures { OnOk result (GainsMarks marks.old.items marks.new.items (λ i. (cut ≡ true) × IsOfBy inference.now block i)) }
{
    if cut {
        return mark_owner(marks, inference, block);
    }
    Ok(())
}

/// Marks the inodes that own one of the cut blocks. There are marks up to the greatest of these inodes.
pub(crate) fn lost_inodes(
    alloc: Global,
    inference: &Inference,
    cut: &[bool],
    count: u32,
) -> Result<Vec<bool>, NoMemory>
    requires { length cut.now ≡ count }
    ensures { IfOk result (λ marks. AreLostMarks inference.now cut.now marks.items) }
{
    let mut marks = Vec::new(alloc);
    for block in 0..count {
        mark_if(&mut marks, inference, cut[block as usize], block)?;
    }
    Ok(marks)
}
