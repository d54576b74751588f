// The checkpoint that the rack of a store keeps.
ghost use Rattle.std.specs.Prelude.{◌≡◌, ◌≤◌, ℕ, true, IfSome, length};
ghost use Rattle.dg_io.specs.Commits.{is_marked};
ghost use Rattle.dg_pair.specs.Boundaries.{MembersStand};
ghost use Rattle.dg_store.specs.Commits.{CommitLeaves};
ghost use Rattle.dg_store.specs.Stores.{members_of, rack_of, IsSound, IsWhole};

use crate::Store;
use dg_io::{Checkpoint, CommitAnswer, Rack};

impl<R: Checkpoint> Store<R> {
    /// Keeps the bytes of the members whose bits are set, all of which stand, and the extra bytes. A member that falls in
    /// it isn't out by that: whoever commits makes it fail then.
    pub fn commit(&mut self, keep: u32, extra: &[u8]) -> CommitAnswer
        requires stand { (q : ℕ) → is_marked keep q ≡ true → R.stands (rack_of self.old) q ≡ true }
        requires fits { IfSome (R.room_of (rack_of self.old)) (λ room. length extra.now ≤ room) }
        ensures leaves { CommitLeaves R.Rack R.room_of keep extra.now result self.old self.new }
        ensures commits { R.commits (rack_of self.old) (rack_of self.new) }
    {
        self.rack.commit(keep, extra)
    }

    /// The room for extra bytes, or `None` of a rack that keeps no checkpoint.
    pub fn room(&self) -> Option<u32>
        ensures { result ≡ R.room_of (rack_of self.now) }
    {
        self.rack.room()
    }
}

/// Once each member that fell in a commit is out, so that each other one stands, the store is sound again.
pub fn standing_is_sound<R: Rack>(store: &Store<R>)
    requires whole { IsWhole R.Rack store.now }
    requires stand { MembersStand (members_of store.now) (R.stands (rack_of store.now)) }
    ensures { IsSound R.Rack store.now }
{
    let _ = store.shape();
}
