ghost use Rattle.std.specs.Prelude.{◌≡◌, OnOk, slice_get};
ghost use Rattle.ufs_check.specs.Notes.{noted};

use dg_io::NoMemory;

/// Puts a number last among those of which something holds, if it holds of this one too.
pub fn note(numbers: &mut Vec<u32>, number: u32, holds: bool) -> Result<(), NoMemory>
    ensures { OnOk result (numbers.new.items ≡ noted numbers.old.items number holds) }
{
    if holds {
        return numbers.push(number).map_err(|_| NoMemory);
    }
    Ok(())
}

/// The first of some numbers.
pub fn first_of(numbers: &[u32]) -> Option<u32>
    ensures { result ≡ slice_get numbers.now 0 }
{
    numbers.first().copied()
}
