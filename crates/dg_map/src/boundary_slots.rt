ghost use Rattle.std.specs.Prelude.{◌≡◌, ◌+◌, ◌^◌, ◌<◌, ◌≤◌, ℕ, IsSome, IfOk, None};
ghost use Rattle.dg_map.specs.Slots.{GivesUp, IsSlots, IsUnused, Puts, block_in, used_count};

use crate::bits::Bits;
use dg_model::NoMemory;
use std::alloc::Global;

/// The slots of one boundary. All their memory is taken at first.
#[derive(Drop)]
pub struct Slots {
    /// The slots that there are, the spare one among them.
    most: u32,
    /// A number for each slot: the block in it, where it is used.
    blocks: Vec<u32>,
    /// The slots that aren't used.
    free: Bits,
    /// How many slots are used.
    used: u32,
}

impl Slots {
    /// So many slots, none of them used.
    pub fn new(alloc: Global, most: u32) -> Result<Slots, NoMemory>
        requires { most ≤ 2 ^ 20 + 1 }
        ensures { IfOk result (IsUnused most) }
    {
        let mut free = Bits::none(alloc, most)?;
        for slot in 0..most {
            free.insert(slot);
        }
        match vec![in alloc; 0; most as usize] {
            Ok(blocks) => Ok(Slots {
                most,
                blocks,
                free,
                used: 0,
            }),
            Err(_) => Err(NoMemory),
        }
    }

    /// The block in the slot.
    pub fn block_at(&self, slot: u32) -> Option<u32>
        requires { IsSlots self.now }
        ensures { result ≡ block_in self.now slot }
    {
        if slot >= self.most || self.free.has(slot) {
            return None;
        }
        Some(self.blocks[slot as usize])
    }

    /// How many slots are used.
    pub fn used(&self) -> u32
        requires { IsSlots self.now }
        ensures count { result ≡ used_count self.now }
        ensures most { result ≤ self.now.most }
    {
        self.used
    }

    /// Puts the block in the lowest free slot.
    pub fn take(&mut self, block: u32) -> u32
        requires sound { IsSlots self.old }
        requires left { used_count self.old < self.old.most }
        ensures slot { Puts self.old self.new result block }
        ensures lowest { (k : ℕ) → k < result → IsSome (block_in self.old k) }
    {
        let Some(slot) = self.free.least() else {
            unreachable!();
        };
        self.take_at(slot, block);
        slot
    }

    /// Puts the block in this slot.
    pub fn take_at(&mut self, slot: u32, block: u32)
        requires sound { IsSlots self.old }
        requires within { slot < self.old.most }
        requires free { block_in self.old slot ≡ None }
        ensures { Puts self.old self.new slot block }
    {
        self.free.remove(slot);
        self.blocks[slot as usize] = block;
        self.used += 1;
    }

    /// Makes the slot free.
    pub fn give_up(&mut self, slot: u32)
        requires sound { IsSlots self.old }
        requires used { IsSome (block_in self.old slot) }
        ensures { GivesUp self.old self.new slot }
    {
        self.free.insert(slot);
        self.used -= 1;
    }
}
