ghost use Rattle.std.specs.Prelude.{◌≡◌, ◌⊎◌};
ghost use Rattle.dg_model.specs.Saves.{body_place, member_length, room_of};
ghost use Rattle.dg_model.specs.Shapes.{IsShape};

use crate::Shape;
use crate::labels::LABEL_BYTES;

/// The most bytes that a body takes.
pub(crate) fn room(shape: &Shape, format: u8) -> u64
    requires { IsShape shape.now }
    ensures { result ≡ room_of format shape.now }
{
    let boundaries = u64::from(shape.b);
    let blocks = u64::from(shape.n);
    let sites = 5 * boundaries * (u64::from(shape.k) + 1);
    if format == 1 {
        8 + 2 * boundaries + 7 * blocks + sites
    } else {
        77 + 2 * boundaries + 12 * blocks + sites
    }
}

/// Where the body stands on a member, in bytes: behind the label and the slots.
pub fn body_place(shape: &Shape) -> u64
    requires { IsShape shape.now }
    ensures { result ≡ body_place shape.now }
{
    LABEL_BYTES as u64 + (u64::from(shape.k) + 1) * u64::from(shape.l)
}

/// The bytes of a member with a label of this format.
pub fn member_length(shape: &Shape, format: u8) -> u64
    requires shape { IsShape shape.now }
    requires format { (format ≡ 1) ⊎ (format ≡ 2) }
    ensures { result ≡ member_length format shape.now }
{
    body_place(shape) + room(shape, format)
}
