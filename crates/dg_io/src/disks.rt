// Racks that may have groups of disks for members.
ghost use Rattle.std.specs.Prelude.{◌≡◌, ◌↔◌, ◌<◌, ℕ, Option, None, IfSome};
ghost use Rattle.dg_io.specs.DiskAnswers.{OneDisk, DropsDisk, MendsDisk, LeavesMembers};

use crate::Rack;

/// The answer to the loss of a disk.
#[derive(Clone, Copy, Debug, PartialEq, Eq)]
pub enum DropAnswer {
    /// The rack is a plain one: it has no disks.
    Plain,
    /// The disk was out.
    Already,
    /// It is out now. True where two disks of the group are out.
    Dropped(bool),
}

/// The answer to the mending of a disk.
#[derive(Clone, Copy, Debug, PartialEq, Eq)]
pub enum MendAnswer {
    /// The rack is a plain one: it has no disks.
    Plain,
    /// Two disks of the group are out.
    Lost,
    /// The disk wasn't out.
    NotOut,
    /// A call on the disk failed, and it stays out.
    Failed,
    /// The disk has its chunk of each of so many stripes.
    Mended(u32),
}

/// A rack whose members are groups of disks, or a plain one.
pub trait Disks: Rack {
    /// How many disks a group has, or none of a plain rack.
    ghost width: { Self → Option ℕ };

    /// How many groups it has.
    ghost groups: { Self → ℕ };

    /// A disk of a group goes out.
    fn drop_disk(&mut self, s: u8, j: u8) -> DropAnswer
        requires place { IfSome (width self.old) (λ n. (s < groups self.old) × (j < n)) }
        ensures plain { (result ≡ DropAnswer.Plain) ↔ (width self.old ≡ None) }
        ensures idle { width self.old ≡ None → self.new ≡ self.old }
        ensures answer { IfSome (width self.old) (λ n. DropsDisk n s j (Self.disks self.old) (Self.disks self.new) result) }
        ensures disks { OneDisk s j (Self.disks self.old) (Self.disks self.new) }
        ensures leaves { LeavesMembers Self.Rack self.old self.new }
        ensures width { width self.new ≡ width self.old }
        ensures groups { groups self.new ≡ groups self.old };

    /// A disk of a group comes back, and is filled from the others.
    fn mend(&mut self, s: u8, j: u8) -> MendAnswer
        requires place { IfSome (width self.old) (λ n. (s < groups self.old) × (j < n)) }
        ensures plain { (result ≡ MendAnswer.Plain) ↔ (width self.old ≡ None) }
        ensures idle { width self.old ≡ None → self.new ≡ self.old }
        ensures answer { IfSome (width self.old) (λ n. MendsDisk n s j (Self.disks self.old) (Self.disks self.new) result) }
        ensures disks { OneDisk s j (Self.disks self.old) (Self.disks self.new) }
        ensures leaves { LeavesMembers Self.Rack self.old self.new }
        ensures width { width self.new ≡ width self.old }
        ensures groups { groups self.new ≡ groups self.old };

    /// How many disks a group has, or `None` of a plain rack.
    fn disks(&self) -> Option<u8>
        ensures { result ≡ width self.now };
}

impl<R: Disks> Disks for &mut R {
    ghost width = { λ r. R.width r.now };

    ghost groups = { λ r. R.groups r.now };

    fn drop_disk(&mut self, s: u8, j: u8) -> DropAnswer {
        (**self).drop_disk(s, j)
    }

    fn mend(&mut self, s: u8, j: u8) -> MendAnswer {
        (**self).mend(s, j)
    }

    fn disks(&self) -> Option<u8> {
        (**self).disks()
    }
}
