// A file that is compared while it is read.
ghost use Rattle.std.specs.Prelude.{◌≡◌};
ghost use Rattle.dg_drill.specs.Comparisons.{fresh, is_whole, next_byte, next_bytes};

use dg_io::Pieces;
use dg_model::Failed;
use ufs_drill::byte_of;

/// Compares the bytes that it is handed with those of a file of a drill. It never fails.
#[derive(Drop)]
pub struct Comparer {
    /// The file's number.
    k: u32,
    /// How many bytes it has.
    size: u32,
    /// How many of them it was handed.
    at: u32,
    /// Whether no other byte was handed to it.
    same: bool,
}

impl Comparer {
    /// A comparer for file `k`, which has so many bytes.
    pub fn new(k: u32, size: u32) -> Comparer
        ensures { result ≡ fresh k size }
    {
        Comparer {
            k,
            size,
            at: 0,
            same: true,
        }
    }

    /// Takes one byte.
    fn next_byte(&mut self, byte: u8)
        ensures { self.new ≡ next_byte self.old byte }
    {
        if self.same && self.at < self.size && byte == byte_of(self.k, self.at) {
            self.at += 1;
        } else {
            self.same = false;
        }
    }

    /// Whether it was handed all bytes of the file, and no others.
    pub fn is_whole(&self) -> bool
        ensures { result ≡ is_whole self.now }
    {
        self.same && self.at == self.size
    }
}

impl Pieces for Comparer {
    ghost use Rattle.dg_drill.specs.Comparisons.{Compared, ComparedPart, compared_none, compared_part, compared_then, compared_then_part};

    ghost took = { Compared };

    ghost took_part = { ComparedPart };

    ghost faults = { λ s. 0 };

    fn piece(&mut self, bytes: &[u8]) -> Result<(), Failed> {
        for byte in bytes {
            self.next_byte(*byte);
        }
        Ok(())
    }

    ghost nothing = { λ s. compared_none s };

    ghost then = { λ a b c x y first second. compared_then a b c x y first second };

    ghost then_part = { λ a b c x y first second. compared_then_part a b c x y first second };

    ghost part = { λ a b x y first. compared_part a b x y first };
}
