// A view of an image in memory.
ghost use Rattle.std.specs.Prelude.{◌≡◌, ◌*◌, ℕ, List, false, length};

use dg_io::{Fetched, View};

/// A view of the blocks of an image in memory, none of which is ever gone.
#[derive(Drop)]
pub struct ImageView {
    image: Vec<u8>,
    size: u32,
    count: u32,
    ghost whole: { length image.items ≡ count * size },
}

impl ImageView {
    ghost use Rattle.dg_io.specs.MemViews.{IsImage};
    ghost use Rattle.ufs_audit.specs.Images.{size_of, count_of, stands_in};

    /// A view of an image of so many blocks of so many bytes.
    pub fn new(image: Vec<u8>, size: u32, count: u32) -> ImageView
        requires { length image.items ≡ count * size }
        ensures size { size_of result ≡ size }
        ensures count { count_of result ≡ count }
        ensures blocks { (blocks : List (List ℕ)) → IsImage image.items count size blocks → stands_in result blocks }
    {
        ImageView { image, size, count }
    }
}

impl View for ImageView {
    ghost use Rattle.std.proofs.Common.{refl};
    ghost use Rattle.ufs_audit.specs.Images.{size_of, count_of, stands_in, same_both};

    ghost stands_for = { stands_in };

    ghost tells = { λ _. Unit {0} };

    ghost is_gone = { λ view b. false };

    ghost count = { count_of };

    ghost size = { size_of };

    ghost is_sound = { λ _. Unit {0} };

    ghost goes_on = { λ a b. b ≡ a };

    ghost fetched = { λ a blocks b. b ≡ a };

    fn fetch(&mut self, block: u32, buf: &mut [u8]) -> Fetched {
        let size = self.size as usize;
        let from = block as usize * size;
        buf.copy_from_slice(&self.image[from..from + size]);
        Fetched::Got
    }

    fn gone(&self, _block: u32) -> bool {
        false
    }

    fn shape(&self) -> (u32, u32) {
        (self.size, self.count)
    }

    ghost unchanged = { λ s. refl };

    ghost further = { λ a b c first second. same_both a b c first second };

    ghost fetched_none = { λ s. refl };

    ghost fetched_both = { λ a b c x y first second. same_both a b c first second };
}
