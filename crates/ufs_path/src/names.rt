// The path of an entry of a listing, by the names above it.
ghost use Rattle.std.specs.Prelude.{◌-◌, ◌++◌, ◌∷◌, [], ℕ, List, OnOk, take};
ghost use Rattle.ufs_path.specs.PathLists.{HasNames};

use dg_io::NoMemory;
use std::alloc::Global;

/// A path: its bytes, with a slash before each name, and where each of these slashes stands.
#[derive(Drop)]
pub(crate) struct Names {
    pub(crate) path: Vec<u8>,
    pub(crate) starts: Vec<usize>,
}

impl Names {
    /// No name at all.
    pub(crate) fn new(alloc: Global) -> Names
        ensures { HasNames result [] }
    {
        Names {
            path: Vec::new(alloc),
            starts: Vec::new(alloc),
        }
    }

    /// Leaves the first `count` names, or all where there are fewer.
    fn keep_first(&mut self, count: usize)
        ensures { (names : List (List ℕ)) → HasNames self.old names → HasNames self.new (take count names) }
    {
        if count < self.starts.len() {
            let start = self.starts[count];
            self.path.truncate(start);
            self.starts.truncate(count);
        }
    }

    /// Puts a name behind the others.
    fn push(&mut self, name: &[u8]) -> Result<(), NoMemory>
        ensures { OnOk result ((names : List (List ℕ)) → HasNames self.old names → HasNames self.new (names ++ name.now ∷ [])) }
    {
        if self.starts.push(self.path.len()).is_err() {
            return Err(NoMemory);
        }
        if self.path.push(b'/').is_err() {
            return Err(NoMemory);
        }
        if self.path.extend_from_slice(name).is_err() {
            return Err(NoMemory);
        }
        Ok(())
    }

    /// Leaves the names above an entry of this depth, and puts its own behind them. Where memory is wanting, no names stand any more.
    pub(crate) fn go_to(&mut self, depth: u32, name: &[u8]) -> Result<(), NoMemory>
        ensures { OnOk result ((names : List (List ℕ)) → HasNames self.old names
            → HasNames self.new (take (depth - 1) names ++ name.now ∷ [])) }
    {
        self.keep_first(depth.saturating_sub(1) as usize);
        self.push(name)
    }
}
