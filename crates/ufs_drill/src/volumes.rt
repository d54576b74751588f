// The volume of a drill.
ghost use Rattle.std.specs.Prelude.{◌≡◌};
ghost use Rattle.ufs_drill.specs.Volumes.{drill_spec};

use ufs_build::Spec;
use ufs_model::Endian;

/// The numbers of the volume: 32 MiB in sixteen groups.
pub fn drill_spec() -> Spec
    ensures { result ≡ drill_spec }
{
    Spec {
        l: 1024,
        frag: 8,
        ncg: 16,
        fpg: 2048,
        ipg: 256,
        cgoffset: 32,
        cgmask: 0xffff_fff8,
        endian: Endian::Little,
    }
}
