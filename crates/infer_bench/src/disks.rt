// A view of blocks in memory that are written.
ghost use Rattle.std.specs.Prelude.{◌≡◌, ◌+◌, ◌*◌, ◌≤◌, ◌<◌, false, IfOk, length};

use dg_io::{Fetched, NoMemory, View};
use std::alloc::Global;

/// Bytes of a block.
pub const BLOCK: u32 = 512;

/// Blocks in memory, which are all there. It tells no bytes.
#[derive(Drop)]
pub struct Disk {
    image: Vec<u8>,
    count: u32,
    fetches: u64,
    ghost whole: { length image.items ≡ count * 512 },
}

/// Puts a block into an image.
fn put(image: &mut Vec<u8>, block: u32, bytes: &[u8])
    requires inside { block * 512 + 512 ≤ length image.old.items }
    requires bytes { length bytes.now ≡ 512 }
    ensures { length image.new.items ≡ length image.old.items }
{
    let from = block as usize * 512;
    image[from..from + 512].copy_from_slice(bytes);
}

impl Disk {
    /// So many blocks of zeros.
    pub fn new(alloc: Global, count: u32) -> Result<Disk, NoMemory>
        ensures { IfOk result (λ disk. disk.count ≡ count) }
    {
        let Ok(image) = vec![in alloc; 0u8; count as usize * 512] else {
            return Err(NoMemory);
        };
        Ok(Disk {
            image,
            count,
            fetches: 0,
        })
    }

    /// How many blocks there are.
    pub fn count(&self) -> u32
        ensures { result ≡ self.now.count }
    {
        self.count
    }

    /// How many fetches were made.
    pub fn fetches(&self) -> u64 {
        self.fetches
    }

    /// Writes a block.
    pub fn write(&mut self, block: u32, bytes: &[u8])
        requires inside { block < self.old.count }
        requires bytes { length bytes.now ≡ 512 }
        ensures { self.new.count ≡ self.old.count }
    {
        put(&mut self.image, block, bytes);
    }
}

impl View for Disk {
    ghost stands_for = { λ _ _. ⊥ };

    ghost tells = { λ _. ⊥ };

    ghost is_gone = { λ _ _. false };

    ghost count = { λ s. s.count };

    ghost size = { λ _. 512 };

    ghost is_sound = { λ _. Unit {0} };

    ghost goes_on = { λ _ _. Unit {0} };

    ghost fetched = { λ _ _ _. Unit {0} };

    fn fetch(&mut self, block: u32, buf: &mut [u8]) -> Fetched {
        self.fetches = self.fetches.saturating_add(1);
        let from = block as usize * 512;
        buf.copy_from_slice(&self.image[from..from + 512]);
        Fetched::Got
    }

    fn gone(&self, _block: u32) -> bool {
        false
    }

    fn shape(&self) -> (u32, u32) {
        (BLOCK, self.count)
    }

    ghost unchanged = { λ s. tt };

    ghost further = { λ a b c first second. tt };

    ghost fetched_none = { λ s. tt };

    ghost fetched_both = { λ a b c x y first second. tt };
}
