// Blocks, some of which may be gone.
ghost use Rattle.std.specs.Prelude.{◌≡◌, ◌<◌, ◌↔◌, ◌++◌, ◌∷◌, [], ℕ, List, Bool, IsTrue, length, replicate, slice_index_or};
ghost use Rattle.dg_io.specs.Views.{KeepsView};

/// What became of a read of a block.
#[derive(Clone, Copy, Debug, PartialEq, Eq)]
pub enum Fetched {
    /// The buffer has the block.
    Got,
    /// The block can't be read any more. The buffer has any bytes.
    Gone,
}

/// Blocks of one size, counted from 0, some of which can't be read any more.
pub trait View {
    /// That it stands for these blocks. It may stand for many lists where blocks are gone.
    ghost stands_for: { Self → List (List ℕ) → Type 0 };

    /// That it tells the bytes that it reads.
    ghost tells: { Self → Type 0 };

    /// Which blocks are gone.
    ghost is_gone: { Self → ℕ → Bool };

    /// The number of blocks.
    ghost count: { Self → ℕ };

    /// The number of bytes of a block.
    ghost size: { Self → ℕ };

    /// A condition of its own, which each call needs and keeps.
    ghost is_sound: { Self → Type 0 };

    /// What may have become of it by any number of fetches, beside what the other members say.
    ghost goes_on: { Self → Self → Type 0 };

    /// What may have become of it by fetches of just these blocks, one after another.
    ghost fetched: { Self → List ℕ → Self → Type 0 };

    /// Reads a block.
    fn fetch(&mut self, block: u32, buf: &mut [u8]) -> Fetched
        requires sound { is_sound self.old }
        requires within { block < count self.old }
        requires room { length buf.old ≡ size self.old }
        ensures keeps { KeepsView stands_for tells is_gone count size is_sound goes_on self.old self.new }
        ensures gone { (result ≡ Fetched.Gone) ↔ IsTrue (is_gone self.new block) }
        ensures bytes { result ≡ Fetched.Got → tells self.new → (v : List (List ℕ)) → stands_for self.old v
            → buf.new ≡ slice_index_or v block (replicate (size self.old) 0) }
        ensures fetched { fetched self.old (block ∷ []) self.new };

    /// Whether a block is gone. It calls nothing that could fail.
    fn gone(&self, block: u32) -> bool
        requires sound { is_sound self.now }
        requires within { block < count self.now }
        ensures { result ≡ is_gone self.now block };

    /// The bytes of a block, and the number of blocks.
    fn shape(&self) -> (u32, u32)
        requires { is_sound self.now }
        ensures size { result.0 ≡ size self.now }
        ensures count { result.1 ≡ count self.now };

    /// No fetch at all.
    ghost unchanged: { (s : Self) → goes_on s s };

    /// Fetches, and then others.
    ghost further: { (a b c : Self) → goes_on a b → goes_on b c → goes_on a c };

    /// No fetch is a fetch of no block.
    ghost fetched_none: { (s : Self) → fetched s [] s };

    /// Fetches of blocks, and then of others.
    ghost fetched_both: { (a b c : Self) (x y : List ℕ) → fetched a x b → fetched b y c → fetched a (x ++ y) c };
}
