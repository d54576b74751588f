// What a blank double rack keeps in memory.
ghost use Rattle.std.specs.Prelude.{◌≡◌, ◌≤◌, ◌<◌, ◌^◌, ℕ, length, slice_get, IfOk};
ghost use Rattle.dg_stop.specs.Doubles.{IsBlank, most_of};
ghost use Rattle.dg_stop.specs.Phases.{size_in};

use crate::memories::Memory;
use crate::phases::MEMBERS;
use crate::places::Places;
use dg_io::NoMemory;
use std::alloc::Global;

/// Members of no bytes, each with memory for so many.
fn empty_places(alloc: Global, count: u8, most: u64) -> Result<Vec<Places>, NoMemory>
    requires { most < 2 ^ 48 }
    ensures count { IfOk result (λ all. length all.items ≡ count) }
    ensures sizes { IfOk result (λ all. (q : ℕ) → size_in all.items q ≡ 0) }
    ensures most { IfOk result (λ all. (q : ℕ) → q < count → most_of (slice_get all.items q) ≡ most) }
{
    let mut all = Vec::new(alloc);
    while all.len() < count as usize {
        let places = Places::new(alloc, most)?;
        if all.push(places).is_err() {
            return Err(NoMemory);
        }
    }
    Ok(all)
}

impl Memory {
    /// So many members, none of which was ever there, each with memory for a member of so many bytes.
    pub fn blank(alloc: Global, members: u8, most: u64, room: u32) -> Result<Memory, NoMemory>
        requires small { most < 2 ^ 48 }
        requires few { members ≤ 32 }
        ensures { IfOk result (λ it. IsBlank members most room it) }
    {
        let current = empty_places(alloc, members, most)?;
        let last = empty_places(alloc, members, most)?;
        Ok(Memory {
            current,
            last,
            stands: [false; MEMBERS],
            known: [false; MEMBERS],
            fell: [false; MEMBERS],
            room,
            commit: 0,
            top: 0,
        })
    }
}
