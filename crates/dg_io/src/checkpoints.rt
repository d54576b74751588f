// Racks that keep a checkpoint.
ghost use Rattle.std.specs.Prelude.{◌≡◌, ◌≤◌, ℕ, Option, true, IfSome, length};
ghost use Rattle.dg_io.specs.Commits.{is_marked, LeavesCommit};

use crate::Rack;

/// The answer to a commit.
#[derive(Clone, Copy, Debug, PartialEq, Eq)]
pub enum CommitAnswer {
    /// The checkpoint is the one of this commit. Bit q of `fell` is set for each member q that fell in it.
    Committed { sequence: u64, fell: u32 },
    /// No member that was to be kept stands.
    Lost,
}

/// A rack that keeps a checkpoint of its members, or is plain and keeps none.
pub trait Checkpoint: Rack {
    /// The room for extra bytes, or none of a plain rack.
    ghost room_of: { Self → Option ℕ };

    /// What a commit may leave of it, beside its members.
    ghost commits: { Self → Self → Type 0 };

    /// Keeps the bytes of the members whose bits are set, all of which stand, and the extra bytes.
    fn commit(&mut self, keep: u32, extra: &[u8]) -> CommitAnswer
        requires stand { (q : ℕ) → is_marked keep q ≡ true → Self.stands self.old q ≡ true }
        requires fits { IfSome (room_of self.old) (λ room. length extra.now ≤ room) }
        ensures leaves { LeavesCommit Self.Rack room_of keep extra.now result self.old self.new }
        ensures commits { commits self.old self.new };

    /// The room for extra bytes, or `None` of a plain rack.
    fn room(&self) -> Option<u32>
        ensures { result ≡ room_of self.now };
}

impl<R: Checkpoint> Checkpoint for &mut R {
    ghost room_of = { λ r. R.room_of r.now };

    ghost commits = { λ old new. R.commits old.now new.now };

    fn commit(&mut self, keep: u32, extra: &[u8]) -> CommitAnswer {
        (**self).commit(keep, extra)
    }

    fn room(&self) -> Option<u32> {
        (**self).room()
    }
}
