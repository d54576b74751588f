// The array of a drill.
ghost use Rattle.std.specs.Prelude.{◌≡◌};
ghost use Rattle.dg_drill.specs.Volumes.{drill_shape};
ghost use Rattle.dg_model.specs.Shapes.{IsShape};

use dg_model::Shape;

/// The numbers of the array: four boundaries, with a slot for each second block.
pub fn drill_shape() -> Shape
    ensures is { result ≡ drill_shape }
    ensures limits { IsShape result }
{
    Shape {
        l: 1024,
        n: 32_768,
        b: 4,
        k: 16_384,
        m: 3,
    }
}
