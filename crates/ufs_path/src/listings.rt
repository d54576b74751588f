// Entries of a directory that are handed on, one by one.
ghost use Rattle.std.specs.Prelude.{◌≤◌, ◌++◌, ◌∷◌, [], ℕ, List, length, OnOk, OnErr};
ghost use Rattle.dg_io.specs.Faults.{HasCause};
ghost use Rattle.ufs_model.specs.Listings.{Listed};

use dg_io::Failed;
use ufs_model::Kind;

/// Takes the entries of a listing, one after another.
pub trait Listing {
    /// What it has become when it was handed these entries.
    ghost took: { Self → List Listed → Self → Type 0 };

    /// What it may have become when it failed at these entries: it took a part of them, from their front.
    ghost took_part: { Self → List Listed → Self → Type 0 };

    /// How often it has failed.
    ghost faults: { Self → ℕ };

    /// Takes an entry, or fails after a part of it. It is told how deep the entry is below the directory that is listed,
    /// whose own entries have depth 1; the inode that it names, with its kind and its size in bytes; and its name.
    fn line(
        &mut self,
        depth: u32,
        inode: u32,
        kind: Kind,
        size: u64,
        name: &[u8],
    ) -> Result<(), Failed>
        requires { length name.now ≤ 255 }
        ensures ok { OnOk result (took self.old (record { depth = depth; inode = inode; kind = kind; size = size; name = name.now } ∷ []) self.new) }
        ensures err { OnErr result (took_part self.old (record { depth = depth; inode = inode; kind = kind; size = size; name = name.now } ∷ []) self.new) }
        ensures cause { HasCause (faults self.old) (faults self.new) result };

    /// No entry at all.
    ghost nothing: { (s : Self) → took s [] s };

    /// Entries, and then others.
    ghost then: { (a b c : Self) (x y : List Listed) → took a x b → took b y c → took a (x ++ y) c };

    /// Entries, and then a part of others.
    ghost then_part: { (a b c : Self) (x y : List Listed) → took a x b → took_part b y c → took_part a (x ++ y) c };

    /// A part of entries is a part of them and of those after them.
    ghost part: { (a b : Self) (x y : List Listed) → took_part a x b → took_part a (x ++ y) b };
}

/// Takes each entry, and keeps none.
#[derive(Drop)]
pub struct Nowhere;

impl Listing for Nowhere {
    ghost use Rattle.std.specs.Prelude.{◌≡◌, ℕ, List};
    ghost use Rattle.ufs_model.specs.Listings.{Listed};

    ghost took = { λ old entries new. Unit {0} };

    ghost took_part = { λ old entries new. Unit {0} };

    ghost faults = { λ nowhere. 0 };

    fn line(
        &mut self,
        _depth: u32,
        _inode: u32,
        _kind: Kind,
        _size: u64,
        _name: &[u8],
    ) -> Result<(), Failed> {
        Ok(())
    }

    ghost nothing = { λ s. tt };

    ghost then = { λ a b c x y first second. tt };

    ghost then_part = { λ a b c x y first second. tt };

    ghost part = { λ a b x y first. tt };
}
