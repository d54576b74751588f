// The contents of a file by its path.
ghost use Rattle.std.specs.Prelude.{◌≡◌, ◌≤◌, true};
ghost use Rattle.dg_io.specs.ViewWords.{Keeps, Reads};
ghost use Rattle.ufs_model.specs.Geometries.{IsGeometryOn};
ghost use Rattle.ufs_model.specs.Paths.{cat_of, is_path};
ghost use Rattle.ufs_path.specs.Answers.{IsAnswer};
ghost use Rattle.ufs_path.specs.Parts.{cat_below};
ghost use Rattle.ufs_path.specs.Consults.{Consults, IsUnanswered, StaysUnlessFailed};

use crate::faults::CatAnswer;
use crate::files::{hand_file, refused_answer};
use crate::looks::look_below;
use crate::superblocks::geometry;
use dg_io::{Pieces, View};
use ufs_model::Geometry;
use ufs_pointer::Levels;

/// Hands on the bytes of the file at a path of the volume with a geometry.
fn cat_below<V: View, O: Pieces>(
    view: &mut V,
    g: &Geometry,
    path: &[u8],
    out: &mut O,
    levels: &mut Levels,
) -> CatAnswer
    requires sound { V.is_sound view.old }
    requires geometry { IsGeometryOn (V.size view.old) (V.count view.old) g.now }
    requires levels { levels.old.fragment ≡ V.size view.old }
    requires path { is_path path.now ≡ true }
    ensures keeps { Keeps V.View view.old view.new }
    ensures levels { levels.new.fragment ≡ levels.old.fragment }
    ensures later { O.faults out.old ≤ O.faults out.new }
    ensures rule { IsAnswer O.took O.took_part O.faults out.old out.new
        (Reads V.View view.old view.new (cat_below path.now g.now)) result }
    ensures consults { Consults V.View view.old view.new (cat_below path.now g.now) (IsUnanswered result) }
    ensures stays { StaysUnlessFailed result (O.faults out.old) (O.faults out.new) }
{
    match look_below(view, g, path, levels) {
        Ok((_, inode)) => hand_file(view, g, &inode, out, levels),
        Err(fault) => refused_answer(fault),
    }
}

/// Hands on the bytes of the file at a path. A piece has at most the bytes of a file block. The
/// buffers are for blocks of the view's size.
pub fn cat<V: View, O: Pieces>(
    view: &mut V,
    levels: &mut Levels,
    path: &[u8],
    out: &mut O,
) -> CatAnswer
    requires sound { V.is_sound view.old }
    requires levels { levels.old.fragment ≡ V.size view.old }
    requires path { is_path path.now ≡ true }
    ensures keeps { Keeps V.View view.old view.new }
    ensures levels { levels.new.fragment ≡ levels.old.fragment }
    ensures later { O.faults out.old ≤ O.faults out.new }
    ensures rule { IsAnswer O.took O.took_part O.faults out.old out.new
        (Reads V.View view.old view.new (cat_of (V.size view.old) (V.count view.old) path.now)) result }
    ensures consults { Consults V.View view.old view.new (cat_of (V.size view.old) (V.count view.old) path.now) (IsUnanswered result) }
    ensures stays { StaysUnlessFailed result (O.faults out.old) (O.faults out.new) }
{
    match geometry(view, levels) {
        Ok(g) => cat_below(view, &g, path, out, levels),
        Err(fault) => refused_answer(fault),
    }
}
