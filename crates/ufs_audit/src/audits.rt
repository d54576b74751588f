// All malformations of a volume, and what is noted beside them.
ghost use Rattle.std.specs.Prelude.{◌≡◌, IfNone, IfOk, IfSome, None, Some};
ghost use Rattle.std.specs.Bool.{Decides};
ghost use Rattle.dg_io.specs.ViewWords.{Keeps};
ghost use Rattle.ufs_model.specs.Audits.{AreFindings};
ghost use Rattle.ufs_model.specs.Blocks.{Volume};
ghost use Rattle.ufs_model.specs.Geometries.{IsGeometryOn};
ghost use Rattle.ufs_model.specs.Metadata.{IsStructure};
ghost use Rattle.dg_claims.specs.Kept.{table_of};
ghost use Rattle.ufs_check.specs.ViewWords.{FetchesOn, IsStructureOf, LosesOn};
ghost use Rattle.ufs_audit.specs.Audits.{HasGeometry};
ghost use Rattle.ufs_audit.specs.Losses.{HadOn};
ghost use Rattle.ufs_audit.specs.Refusals.{IsRefusal};
ghost use Rattle.ufs_pointer.specs.ViewWords.{FetchesKind, LosesKind};

use crate::lists::list_all;
use crate::losses::structure_has_gone;
use dg_claims::{Claims, scan, tables_of_volumes};
use dg_io::{NoMemory, View};
use std::alloc::Global;
use ufs_check::{BadKind, BadSuper, Geometry, Levels, Notes, survey};
use ufs_pointer::read_geometry;

/// What an audit finds.
#[derive(Drop)]
pub struct Findings {
    /// The malformations, by kind and then by number.
    pub bad: Vec<(BadKind, u32)>,
    /// What is noted beside them.
    pub notes: Notes,
}

/// The one refusal of a superblock.
fn refused(alloc: Global, refusal: BadSuper) -> Result<Option<Findings>, NoMemory>
    ensures found { IfOk result (λ answer. IfSome answer (IsRefusal refusal)) }
    ensures there { IfOk result (λ answer. answer ≡ None → ⊥) }
{
    let mut bad = Vec::new(alloc);
    if bad.push((BadKind::Super(refusal), 0)).is_err() {
        return Err(NoMemory);
    }
    let notes = Notes {
        unnamed: Vec::new(alloc),
        unclaimed: Vec::new(alloc),
    };
    Ok(Some(Findings { bad, notes }))
}

/// A table is of this geometry.
fn is_of(claims: &Claims, g: &Geometry) -> bool
    ensures { Decides result ((table_of claims.now).geometry ≡ Some g.now) }
{
    claims.geometry() == Some(*g)
}

/// All that is found on a volume of this geometry. There is no answer where a block with its structure is
/// gone.
fn audit_volume<V: View>(
    alloc: Global,
    view: &mut V,
    g: &Geometry,
    levels: &mut Levels,
) -> Result<Option<Findings>, NoMemory>
    requires sound { V.is_sound view.old }
    requires geometry { IsGeometryOn (V.size view.old) (V.count view.old) g.now }
    requires levels { levels.old.fragment ≡ V.size view.old }
    ensures keeps { Keeps V.View view.old view.new }
    ensures levels { levels.new.fragment ≡ levels.old.fragment }
    ensures found { IfOk result (λ answer. IfSome answer (λ findings. V.tells view.new → (v : Volume) → HasGeometry V.View view.old g.now v
        → AreFindings (V.size view.old) (V.count view.old) v findings.bad.items findings.notes.unnamed.items findings.notes.unclaimed.items)) }
    ensures gone { IfOk result (λ answer. IfNone answer (LosesOn V.View view.old view.new (HasGeometry V.View view.old g.now) (IsStructureOf V.View view.old))) }
    ensures fetched { FetchesOn V.View view.old view.new (HasGeometry V.View view.old g.now) (IsStructureOf V.View view.old) }
{
    tables_of_volumes();
    let Some(claims) = scan(alloc, view, levels)? else {
        return Ok(None);
    };
    if !is_of(&claims, g) {
        return refused(alloc, BadSuper::Layout);
    }
    let Some(found) = survey(alloc, view, g, levels, &claims)? else {
        return Ok(None);
    };
    let (faults, notes) = found;
    let bad = list_all(alloc, &faults)?;
    Ok(Some(Findings { bad, notes }))
}

/// All that is found on a view by what is read of it. There is no answer where a block with the volume's
/// structure is gone.
fn find_all<V: View>(
    alloc: Global,
    view: &mut V,
    levels: &mut Levels,
) -> Result<Option<Findings>, NoMemory>
    requires sound { V.is_sound view.old }
    requires levels { levels.old.fragment ≡ V.size view.old }
    ensures keeps { Keeps V.View view.old view.new }
    ensures levels { levels.new.fragment ≡ levels.old.fragment }
    ensures found { IfOk result (λ answer. IfSome answer (λ findings. V.tells view.new → (v : Volume) → V.stands_for view.old v
        → AreFindings (V.size view.old) (V.count view.old) v findings.bad.items findings.notes.unnamed.items findings.notes.unclaimed.items)) }
    ensures gone { IfOk result (λ answer. IfNone answer (LosesKind V.View view.old view.new (IsStructure (V.size view.old) (V.count view.old)))) }
    ensures fetched { FetchesKind V.View view.old view.new (IsStructure (V.size view.old) (V.count view.old)) }
{
    match read_geometry(view, levels) {
        None => Ok(None),
        Some(Err(bad)) => refused(alloc, bad),
        Some(Ok(g)) => audit_volume(alloc, view, &g, levels),
    }
}

/// All that is wrong with the volume on a view, in its order, and what is noted beside it. There is no
/// answer where a block with the volume's structure is gone. The buffers are for blocks of the view's size.
pub fn audit<V: View>(
    alloc: Global,
    view: &mut V,
    levels: &mut Levels,
) -> Result<Option<Findings>, NoMemory>
    requires sound { V.is_sound view.old }
    requires levels { levels.old.fragment ≡ V.size view.old }
    ensures keeps { Keeps V.View view.old view.new }
    ensures levels { levels.new.fragment ≡ levels.old.fragment }
    ensures found { IfOk result (λ answer. IfSome answer (λ findings. V.tells view.new → (v : Volume) → V.stands_for view.old v
        → AreFindings (V.size view.old) (V.count view.old) v findings.bad.items findings.notes.unnamed.items findings.notes.unclaimed.items)) }
    ensures there { IfOk result (λ answer. IfSome answer (λ findings.
        HadOn V.View view.old view.new (V.stands_for view.old) (IsStructure (V.size view.old) (V.count view.old)))) }
    ensures gone { IfOk result (λ answer. IfNone answer (LosesKind V.View view.old view.new (IsStructure (V.size view.old) (V.count view.old)))) }
    ensures fetched { FetchesKind V.View view.old view.new (IsStructure (V.size view.old) (V.count view.old)) }
{
    let gone = structure_has_gone(alloc, view, levels)?;
    if gone {
        return Ok(None);
    }
    find_all(alloc, view, levels)
}
