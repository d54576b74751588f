// A view of blocks in memory. Its fetches are counted from 1.
ghost use Rattle.std.specs.Prelude.{◌≡◌, ◌+◌, ◌*◌, ◌≤◌, ◌<◌, ◌^◌, ℕ, List, length};
ghost use Rattle.std.proofs.Math.Nat.{le_refl, le_trans};
ghost use Rattle.dg_io.specs.MemViews.{gone_in, IsImage};

use crate::{Fetched, View};

/// A block that becomes gone at a fetch, counted from 1. At 0 it is gone from the start.
#[derive(Clone, Copy, Debug, PartialEq, Eq)]
pub struct Loss {
    /// The block.
    pub block: u32,
    /// The number of the fetch.
    pub fetch: u64,
}

/// A view of the blocks of an image in memory, some of which become gone.
#[derive(Drop)]
pub struct MemView {
    image: Vec<u8>,
    size: u32,
    count: u32,
    losses: Vec<Loss>,
    fetches: u64,
    ghost whole: { length image.items ≡ count * size },
}

/// Whether a block is gone after so many fetches.
fn is_lost(losses: &[Loss], fetches: u64, block: u32) -> bool
    ensures { result ≡ gone_in losses.now fetches block }
{
    losses
        .iter()
        .any(|loss| loss.block == block && loss.fetch <= fetches)
}

impl MemView {
    ghost use Rattle.dg_io.specs.Fetches.{size_of, count_of, stands_in, gone_now};

    /// A view of an image of so many blocks of so many bytes.
    pub fn new(image: Vec<u8>, size: u32, count: u32, losses: Vec<Loss>) -> MemView
        requires { length image.items ≡ count * size }
        ensures size { size_of result ≡ size }
        ensures count { count_of result ≡ count }
        ensures blocks { (blocks : List (List ℕ)) → IsImage image.items count size blocks → stands_in result blocks }
        ensures gone { (b : ℕ) → gone_now result b ≡ gone_in losses.items 0 b }
    {
        MemView {
            image,
            size,
            count,
            losses,
            fetches: 0,
        }
    }
}

impl View for MemView {
    ghost use Rattle.dg_io.specs.Fetches.{size_of, count_of, stands_in, gone_now, CountsFetches, counts_none, counts_both};

    ghost stands_for = { stands_in };

    ghost tells = { λ _. Unit {0} };

    ghost is_gone = { gone_now };

    ghost count = { count_of };

    ghost size = { size_of };

    ghost is_sound = { λ _. Unit {0} };

    ghost goes_on = { λ a b. a.fetches ≤ b.fetches };

    ghost fetched = { CountsFetches };

    fn fetch(&mut self, block: u32, buf: &mut [u8]) -> Fetched {
        self.fetches = self.fetches.saturating_add(1);
        if is_lost(&self.losses, self.fetches, block) {
            return Fetched::Gone;
        }
        let size = self.size as usize;
        let from = block as usize * size;
        buf.copy_from_slice(&self.image[from..from + size]);
        Fetched::Got
    }

    fn gone(&self, block: u32) -> bool {
        is_lost(&self.losses, self.fetches, block)
    }

    fn shape(&self) -> (u32, u32) {
        (self.size, self.count)
    }

    ghost unchanged = { λ s. le_refl s.fetches };

    ghost further = { λ a b c first second. le_trans first second };

    ghost fetched_none = { λ s. counts_none s };

    ghost fetched_both = { λ a b c x y first second. counts_both a b c x y first second };
}
