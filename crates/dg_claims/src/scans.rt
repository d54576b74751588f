ghost use Rattle.std.specs.Prelude.{◌≡◌, ℕ, IfNone, IfOk, IfSome, Some};
ghost use Rattle.dg_io.specs.ViewWords.{Keeps};
ghost use Rattle.ufs_model.specs.Blocks.{Volume};
ghost use Rattle.ufs_model.specs.Claims.{IsClaim, source_fragments};
ghost use Rattle.ufs_model.specs.Geometries.{IsGeometryOn};
ghost use Rattle.ufs_model.specs.Metadata.{IsMetadata, IsMetadataBy};
ghost use Rattle.ufs_pointer.specs.ViewWords.{FetchesKind, LosesKind};
ghost use Rattle.dg_claims.specs.Kept.{table_of};
ghost use Rattle.dg_claims.specs.Scans.{IsClaimRead, IsClaimReadBy};
ghost use Rattle.dg_claims.specs.Tables.{HasClaims, IsTableOf};
ghost use Rattle.dg_claims.specs.There.{HadKind};

use crate::claims::Claims;
use crate::inodes::scan_inodes;
use crate::levels::scan_levels;
use dg_io::{NoMemory, View};
use std::alloc::Global;
use ufs_model::Geometry;
use ufs_pointer::{Levels, read_geometry};

/// The claims of a volume with this geometry. There are none where a block that has to be read is gone.
fn scan_volume<V: View>(
    alloc: Global,
    view: &mut V,
    g: &Geometry,
    levels: &mut Levels,
) -> Result<Option<Claims>, NoMemory>
    requires sound { V.is_sound view.old }
    requires geometry { IsGeometryOn (V.size view.old) (V.count view.old) g.now }
    requires levels { levels.old.fragment ≡ V.size view.old }
    ensures keeps { Keeps V.View view.old view.new }
    ensures levels { levels.new.fragment ≡ levels.old.fragment }
    ensures geometry { IfOk result (λ scanned. IfSome scanned (λ claims. (table_of claims).geometry ≡ Some g.now)) }
    ensures claims { IfOk result (λ scanned. IfSome scanned (λ claims. V.tells view.new → (v : Volume) → V.stands_for view.old v
        → HasClaims (table_of claims) (IsClaim (source_fragments g.now v)))) }
    ensures lost { IfOk result (λ scanned. IfNone scanned (LosesKind V.View view.old view.new (IsMetadataBy g.now))) }
    ensures there { IfOk result (λ scanned. IfSome scanned (λ claims. HadKind V.View view.old view.new (IsClaimReadBy g.now))) }
    ensures fetched { FetchesKind V.View view.old view.new (IsMetadataBy g.now) }
{
    let mut claims = Claims::new(alloc, Some(*g))?;
    if !scan_inodes(view, g, levels, &mut claims)? {
        return Ok(None);
    }
    if !scan_levels(alloc, view, g, levels, &mut claims)? {
        return Ok(None);
    }
    Ok(Some(claims))
}

/// The claims of the volume on a view. A volume whose superblock is refused has none. There is no table where a metadata block is
/// gone. The buffers are for blocks of the view's size.
pub fn scan<V: View>(
    alloc: Global,
    view: &mut V,
    levels: &mut Levels,
) -> Result<Option<Claims>, NoMemory>
    requires sound { V.is_sound view.old }
    requires levels { levels.old.fragment ≡ V.size view.old }
    ensures keeps { Keeps V.View view.old view.new }
    ensures levels { levels.new.fragment ≡ levels.old.fragment }
    ensures geometry { IfOk result (λ scanned. IfSome scanned (λ claims.
        IfSome (table_of claims).geometry (IsGeometryOn (V.size view.old) (V.count view.old)))) }
    ensures claims { IfOk result (λ scanned. IfSome scanned (λ claims. V.tells view.new → (v : Volume) → V.stands_for view.old v
        → IsTableOf (V.size view.old) (V.count view.old) v (table_of claims))) }
    ensures lost { IfOk result (λ scanned. IfNone scanned (LosesKind V.View view.old view.new (IsMetadata (V.size view.old) (V.count view.old)))) }
    ensures there { IfOk result (λ scanned. IfSome scanned (λ claims. HadKind V.View view.old view.new (IsClaimRead (V.size view.old) (V.count view.old)))) }
    ensures fetched { FetchesKind V.View view.old view.new (IsMetadata (V.size view.old) (V.count view.old)) }
{
    match read_geometry(view, levels) {
        Some(Ok(g)) => scan_volume(alloc, view, &g, levels),
        Some(Err(_)) => Ok(Some(Claims::new(alloc, None)?)),
        None => Ok(None),
    }
}
