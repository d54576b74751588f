use crate::Homes;
use std::marker::Model;

/// For each block a number, of which bit s says whether the block is to stand on boundary s. Contracts see the numbers.
#[derive(Debug, Drop)]
pub struct Marks {
    items: Vec<u16>,
}

impl Model for Marks {
    ghost use Rattle.std.specs.Prelude.{List, ℕ};

    ghost Value = { List ℕ };

    ghost view = { λ marks. marks.items.items };
}

impl Marks {
    ghost use Rattle.std.specs.Prelude.{◌≡◌, ◌<◌, ◌^◌, ℕ, slice_index};

    /// Takes the numbers of a vector, without a copy.
    pub fn new(items: Vec<u16>) -> Marks
        ensures numbers { result ≡ items.items }
        ensures bits { (b : ℕ) → slice_index result b < 2 ^ 16 }
    {
        Marks { items }
    }

    /// The numbers, by block.
    pub fn as_slice(&self) -> &[u16]
        ensures { result.now ≡ self.now }
    {
        &self.items
    }
}

/// Where each block is to stand, and the homes of files.
#[derive(Debug, Drop)]
pub struct Targets {
    pub(crate) of: Marks,
    pub(crate) homes: Homes,
}

impl Targets {
    ghost use Rattle.std.specs.Prelude.{◌≡◌, ◌<◌};
    ghost use Rattle.dg_plan.specs.Targets.{blocks_in, homes_of, wants_of};

    /// Whether a block is to stand on a boundary.
    pub fn wants(&self, block: u32, boundary: u8) -> bool
        requires block { block < blocks_in self.now }
        requires boundary { boundary < 16 }
        ensures { result ≡ wants_of self.now block boundary }
    {
        self.of.as_slice()[block as usize] >> boundary & 1 == 1
    }

    /// The number of blocks.
    pub fn blocks(&self) -> usize
        ensures { result ≡ blocks_in self.now }
    {
        self.of.as_slice().len()
    }

    /// The homes of files, ascending by inode.
    pub fn homes(&self) -> &Homes
        ensures { result.now ≡ homes_of self.now }
    {
        &self.homes
    }

    /// The homes of files alone, without a copy.
    pub fn into_homes(self) -> Homes
        ensures { result ≡ homes_of self }
    {
        let Targets { of: _, homes } = self;
        homes
    }
}
