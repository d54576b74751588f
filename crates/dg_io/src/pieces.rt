// Bytes that are handed on, piece by piece.
ghost use Rattle.std.specs.Prelude.{◌≡◌, ◌++◌, [], ℕ, List, OnOk, OnErr};
ghost use Rattle.dg_io.specs.Faults.{HasCause};

use dg_model::Failed;

/// Takes the bytes of a file, one piece after another.
pub trait Pieces {
    /// What it has become when it was handed these bytes.
    ghost took: { Self → List ℕ → Self → Type 0 };

    /// What it may have become when it failed at these bytes: it took a part of them, from their front.
    ghost took_part: { Self → List ℕ → Self → Type 0 };

    /// How often it has failed.
    ghost faults: { Self → ℕ };

    /// Takes the piece whole, or fails after a part of it.
    fn piece(&mut self, bytes: &[u8]) -> Result<(), Failed>
        ensures ok { OnOk result (took self.old bytes.now self.new) }
        ensures err { OnErr result (took_part self.old bytes.now self.new) }
        ensures cause { HasCause (faults self.old) (faults self.new) result };

    /// No piece at all.
    ghost nothing: { (s : Self) → took s [] s };

    /// Bytes, and then others.
    ghost then: { (a b c : Self) (x y : List ℕ) → took a x b → took b y c → took a (x ++ y) c };

    /// Bytes, and then a part of others.
    ghost then_part: { (a b c : Self) (x y : List ℕ) → took a x b → took_part b y c → took_part a (x ++ y) c };

    /// A part of bytes is a part of them and of those after them.
    ghost part: { (a b : Self) (x y : List ℕ) → took_part a x b → took_part a (x ++ y) b };
}
