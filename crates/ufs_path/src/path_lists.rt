// Paths of regular files that are handed on, one by one.
ghost use Rattle.std.specs.Prelude.{◌++◌, ◌∷◌, [], ℕ, List, OnOk, OnErr};
ghost use Rattle.dg_io.specs.Faults.{HasCause};
ghost use Rattle.dg_model.specs.Paths.{PathOf};

use dg_io::Failed;

/// Takes the paths of regular files, one after another.
pub trait PathList {
    /// What it has become when it was handed these paths.
    ghost took: { Self → List PathOf → Self → Type 0 };

    /// What it may have become when it failed at these paths: it took a part of them, from their front.
    ghost took_part: { Self → List PathOf → Self → Type 0 };

    /// How often it has failed.
    ghost faults: { Self → ℕ };

    /// Takes the path of a file, or fails after a part of it. It is told the file's inode, and the bytes of the path, of which there may be
    /// more than a path of an event has.
    fn line(&mut self, inode: u32, path: &[u8]) -> Result<(), Failed>
        ensures ok { OnOk result (took self.old (record { inode = inode; path = path.now } ∷ []) self.new) }
        ensures err { OnErr result (took_part self.old (record { inode = inode; path = path.now } ∷ []) self.new) }
        ensures cause { HasCause (faults self.old) (faults self.new) result };

    /// No path at all.
    ghost nothing: { (s : Self) → took s [] s };

    /// Paths, and then others.
    ghost then: { (a b c : Self) (x y : List PathOf) → took a x b → took b y c → took a (x ++ y) c };

    /// Paths, and then a part of others.
    ghost then_part: { (a b c : Self) (x y : List PathOf) → took a x b → took_part b y c → took_part a (x ++ y) c };

    /// A part of paths is a part of them and of those after them.
    ghost part: { (a b : Self) (x y : List PathOf) → took_part a x b → took_part a (x ++ y) b };
}
