// The superblock.
ghost use Rattle.std.specs.Prelude.{◌≡◌, IfOk};
ghost use Rattle.dg_io.specs.ViewWords.{Keeps, Reads};
ghost use Rattle.ufs_model.specs.Geometries.{IsGeometryOn};
ghost use Rattle.ufs_model.specs.Paths.{volume_geometry};
ghost use Rattle.ufs_model.specs.Readings.{answered};
ghost use Rattle.ufs_path.specs.Answers.{refusal_of};
ghost use Rattle.ufs_path.specs.Consults.{Consults, IsUnread};

use crate::faults::LookFault;
use dg_io::View;
use ufs_model::{BadRead, Geometry};
use ufs_pointer::{Levels, read_geometry};

/// The geometry of the volume on a view. The buffers are for blocks of the view's size.
pub fn geometry<V: View>(view: &mut V, levels: &mut Levels) -> Result<Geometry, LookFault>
    requires sound { V.is_sound view.old }
    requires levels { levels.old.fragment ≡ V.size view.old }
    ensures keeps { Keeps V.View view.old view.new }
    ensures levels { levels.new.fragment ≡ levels.old.fragment }
    ensures rule { Reads V.View view.old view.new (volume_geometry (V.size view.old) (V.count view.old)) (answered refusal_of result) }
    ensures consults { Consults V.View view.old view.new (volume_geometry (V.size view.old) (V.count view.old)) (IsUnread result) }
    ensures ok { IfOk result (λ g. IsGeometryOn (V.size view.old) (V.count view.old) g) }
{
    match read_geometry(view, levels) {
        Some(Ok(g)) => Ok(g),
        Some(Err(kind)) => Err(LookFault::Bad(BadRead::Super(kind))),
        None => Err(LookFault::Unavailable),
    }
}
