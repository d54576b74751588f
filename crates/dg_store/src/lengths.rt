ghost use Rattle.std.specs.Prelude.{◌≡◌};
ghost use Rattle.dg_model.specs.Saves.{member_length as length_of};
ghost use Rattle.dg_model.specs.Shapes.{IsShape};

use crate::Shape;

/// The bytes that a member is blanked with: a label, its slots, and room for the saved state in format 2.
pub fn member_length(shape: &Shape) -> u64
    requires { IsShape shape.now }
    ensures { result ≡ length_of 2 shape.now }
{
    let l = shape.l as u64;
    let n = shape.n as u64;
    let b = shape.b as u64;
    let slots = shape.k as u64 + 1;
    512 + slots * l + (77 + 2 * b + 12 * n + 5 * b * slots)
}
