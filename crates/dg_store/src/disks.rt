// The disks of the rack of a store.
ghost use Rattle.std.specs.Prelude.{◌≡◌, ◌↔◌, ◌<◌, None, IfSome};
ghost use Rattle.dg_io.specs.DiskAnswers.{DropsDisk, MendsDisk};
ghost use Rattle.dg_store.specs.DiskCalls.{DiskLeaves};
ghost use Rattle.dg_store.specs.Stores.{rack_of};

use crate::Store;
use dg_io::{Disks, DropAnswer, MendAnswer};

impl<R: Disks> Store<R> {
    /// A disk of a group goes out. The group's member isn't out by that: where two of its disks are, whoever drops the disk
    /// makes it fail then.
    pub fn drop_disk(&mut self, s: u8, j: u8) -> DropAnswer
        requires place { IfSome (R.width (rack_of self.old)) (λ n. (s < R.groups (rack_of self.old)) × (j < n)) }
        ensures plain { (result ≡ DropAnswer.Plain) ↔ (R.width (rack_of self.old) ≡ None) }
        ensures answer { IfSome (R.width (rack_of self.old))
            (λ n. DropsDisk n s j (R.disks (rack_of self.old)) (R.disks (rack_of self.new)) result) }
        ensures leaves { DiskLeaves R.Rack R.width R.groups s j self.old self.new }
    {
        self.rack.drop_disk(s, j)
    }

    /// A disk of a group comes back, and is filled from the others.
    pub fn mend(&mut self, s: u8, j: u8) -> MendAnswer
        requires place { IfSome (R.width (rack_of self.old)) (λ n. (s < R.groups (rack_of self.old)) × (j < n)) }
        ensures plain { (result ≡ MendAnswer.Plain) ↔ (R.width (rack_of self.old) ≡ None) }
        ensures answer { IfSome (R.width (rack_of self.old))
            (λ n. MendsDisk n s j (R.disks (rack_of self.old)) (R.disks (rack_of self.new)) result) }
        ensures leaves { DiskLeaves R.Rack R.width R.groups s j self.old self.new }
    {
        self.rack.mend(s, j)
    }

    /// How many disks a group has, or `None` of a plain rack.
    pub fn disks(&self) -> Option<u8>
        ensures { result ≡ R.width (rack_of self.now) }
    {
        self.rack.disks()
    }
}
