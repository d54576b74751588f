// Racks that go on with fewer boundaries.
ghost use Rattle.std.specs.Prelude.{◌≡◌, ◌<◌, ◌^◌, ℕ, length};
ghost use Rattle.dg_io.specs.Reduced.{places_left, LeavesLeft};

use crate::Rack;

/// A rack of boundaries of two members each, which can go on without some of them.
pub trait Reduces: Rack {
    /// How many boundaries it has.
    ghost boundaries: { Self → ℕ };

    /// What stands beneath it may be so once the boundaries with these bits were taken out of use.
    ghost dropped: { Self → ℕ → Self → Type 0 };

    /// Takes the lost boundaries out of use: bit s is set for boundary s. Those that are left keep their order. No call is made.
    fn drop_lost(&mut self, lost: u16)
        requires { lost < 2 ^ boundaries self.old }
        ensures leaves { LeavesLeft Self.Rack (places_left lost (boundaries self.old)) self.old self.new }
        ensures dropped { dropped self.old lost self.new }
        ensures boundaries { boundaries self.new ≡ length (places_left lost (boundaries self.old)) };
}

impl<R: Reduces> Reduces for &mut R {
    ghost boundaries = { λ r. R.boundaries r.now };

    ghost dropped = { λ old lost new. R.dropped old.now lost new.now };

    fn drop_lost(&mut self, lost: u16) {
        (**self).drop_lost(lost)
    }
}
