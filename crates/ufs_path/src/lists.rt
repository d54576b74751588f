// The entries of a directory by its path.
ghost use Rattle.std.specs.Prelude.{◌≡◌, ◌^◌, ◌<◌, ◌≤◌, IfErr, OnOk, true};
ghost use Rattle.std.specs.Option.{option_map};
ghost use Rattle.dg_io.specs.ViewWords.{Keeps, Reads};
ghost use Rattle.ufs_model.specs.Geometries.{IsGeometryOn};
ghost use Rattle.ufs_model.specs.Listings.{listed_entries, listing_of, ls_of};
ghost use Rattle.ufs_model.specs.Paths.{entries_before, is_path};
ghost use Rattle.ufs_path.specs.Answers.{IsAnswer, refusal_of};
ghost use Rattle.ufs_path.specs.Walks.{AreConsulted, lines_before, ls_below};
ghost use Rattle.ufs_path.specs.Consults.{Consults, IsUnanswered, IsUnread, StaysUnlessFailed};

use crate::blocks::directory_fault;
use crate::entries::consult_entries;
use crate::faults::{CatAnswer, LookFault};
use crate::files::refused_answer;
use crate::listings::{Listing, Nowhere};
use crate::looks::look_below;
use crate::superblocks::geometry;
use crate::walks::{Walked, list_blocks};
use dg_io::View;
use ufs_model::{Geometry, Inode};
use ufs_pointer::{Levels, block_count};

/// Consults the entries in the first `count` file blocks of a directory, and then the inodes that
/// they name.
fn consult_lines<V: View>(
    view: &mut V,
    g: &Geometry,
    inode: &Inode,
    count: u32,
    levels: &mut Levels,
) -> Result<(), LookFault>
    requires sound { V.is_sound view.old }
    requires geometry { IsGeometryOn (V.size view.old) (V.count view.old) g.now }
    requires levels { levels.old.fragment ≡ V.size view.old }
    requires small { inode.now.size < 2 ^ 32 }
    requires few { count ≤ 2 ^ 20 }
    ensures keeps { Keeps V.View view.old view.new }
    ensures levels { levels.new.fragment ≡ levels.old.fragment }
    ensures ok { OnOk result (AreConsulted
        (Reads V.View view.old view.new (entries_before g.now inode.now count))
        (λ entries. Reads V.View view.old view.new (listed_entries g.now 1 entries))) }
    ensures err { IfErr result (λ fault. Reads V.View view.old view.new (lines_before g.now inode.now count) (option_map Err (refusal_of fault))) }
    ensures consults { Consults V.View view.old view.new (lines_before g.now inode.now count) (IsUnread result) }
{
    match consult_entries(view, g, inode, count, levels) {
        Ok(()) => {
            let mut nowhere = Nowhere;
            match list_blocks(view, g, inode, count, &mut nowhere, levels) {
                Walked::All(_) => Ok(()),
                Walked::Unread(_, fault) => Err(fault),
                Walked::Failed => unreachable!(),
            }
        }
        Err(fault) => Err(fault),
    }
}

/// Consults the entries in the first `count` file blocks of a directory and the inodes that they name,
/// and then hands them on.
fn list_consulted<V: View, O: Listing>(
    view: &mut V,
    g: &Geometry,
    inode: &Inode,
    count: u32,
    out: &mut O,
    levels: &mut Levels,
) -> CatAnswer
    requires sound { V.is_sound view.old }
    requires geometry { IsGeometryOn (V.size view.old) (V.count view.old) g.now }
    requires levels { levels.old.fragment ≡ V.size view.old }
    requires small { inode.now.size < 2 ^ 32 }
    requires few { count ≤ 2 ^ 20 }
    ensures keeps { Keeps V.View view.old view.new }
    ensures levels { levels.new.fragment ≡ levels.old.fragment }
    ensures later { O.faults out.old ≤ O.faults out.new }
    ensures rule { IsAnswer O.took O.took_part O.faults out.old out.new
        (Reads V.View view.old view.new (lines_before g.now inode.now count)) result }
    ensures consults { Consults V.View view.old view.new (lines_before g.now inode.now count) (IsUnanswered result) }
    ensures stays { StaysUnlessFailed result (O.faults out.old) (O.faults out.new) }
{
    match consult_lines(view, g, inode, count, levels) {
        Ok(()) => match list_blocks(view, g, inode, count, out, levels) {
            Walked::All(given) => CatAnswer::Given(given),
            Walked::Unread(given, _) => CatAnswer::Cut(given),
            Walked::Failed => CatAnswer::SinkFault,
        },
        Err(fault) => refused_answer(fault),
    }
}

/// Hands on the used entries of a directory.
fn list_directory<V: View, O: Listing>(
    view: &mut V,
    g: &Geometry,
    inode: &Inode,
    out: &mut O,
    levels: &mut Levels,
) -> CatAnswer
    requires sound { V.is_sound view.old }
    requires geometry { IsGeometryOn (V.size view.old) (V.count view.old) g.now }
    requires levels { levels.old.fragment ≡ V.size view.old }
    ensures keeps { Keeps V.View view.old view.new }
    ensures levels { levels.new.fragment ≡ levels.old.fragment }
    ensures later { O.faults out.old ≤ O.faults out.new }
    ensures rule { IsAnswer O.took O.took_part O.faults out.old out.new
        (Reads V.View view.old view.new (listing_of g.now inode.now)) result }
    ensures consults { Consults V.View view.old view.new (listing_of g.now inode.now) (IsUnanswered result) }
    ensures stays { StaysUnlessFailed result (O.faults out.old) (O.faults out.new) }
{
    match directory_fault(inode) {
        Some(fault) => refused_answer(fault),
        None => list_consulted(view, g, inode, block_count(g, inode), out, levels),
    }
}

/// Hands on the used entries of the directory at a path of the volume with a geometry.
fn ls_below<V: View, O: Listing>(
    view: &mut V,
    g: &Geometry,
    path: &[u8],
    out: &mut O,
    levels: &mut Levels,
) -> CatAnswer
    requires sound { V.is_sound view.old }
    requires geometry { IsGeometryOn (V.size view.old) (V.count view.old) g.now }
    requires levels { levels.old.fragment ≡ V.size view.old }
    requires path { is_path path.now ≡ true }
    ensures keeps { Keeps V.View view.old view.new }
    ensures levels { levels.new.fragment ≡ levels.old.fragment }
    ensures later { O.faults out.old ≤ O.faults out.new }
    ensures rule { IsAnswer O.took O.took_part O.faults out.old out.new
        (Reads V.View view.old view.new (ls_below path.now g.now)) result }
    ensures consults { Consults V.View view.old view.new (ls_below path.now g.now) (IsUnanswered result) }
    ensures stays { StaysUnlessFailed result (O.faults out.old) (O.faults out.new) }
{
    match look_below(view, g, path, levels) {
        Ok((_, inode)) => list_directory(view, g, &inode, out, levels),
        Err(fault) => refused_answer(fault),
    }
}

/// Hands on the used entries of the directory at a path, in the directory's order. All entries are consulted before the first
/// inode that one of them names.
pub fn ls<V: View, O: Listing>(
    view: &mut V,
    levels: &mut Levels,
    path: &[u8],
    out: &mut O,
) -> CatAnswer
    requires sound { V.is_sound view.old }
    requires levels { levels.old.fragment ≡ V.size view.old }
    requires path { is_path path.now ≡ true }
    ensures keeps { Keeps V.View view.old view.new }
    ensures levels { levels.new.fragment ≡ levels.old.fragment }
    ensures later { O.faults out.old ≤ O.faults out.new }
    ensures rule { IsAnswer O.took O.took_part O.faults out.old out.new
        (Reads V.View view.old view.new (ls_of (V.size view.old) (V.count view.old) path.now)) result }
    ensures consults { Consults V.View view.old view.new (ls_of (V.size view.old) (V.count view.old) path.now) (IsUnanswered result) }
    ensures stays { StaysUnlessFailed result (O.faults out.old) (O.faults out.new) }
{
    match geometry(view, levels) {
        Ok(g) => ls_below(view, &g, path, out, levels),
        Err(fault) => refused_answer(fault),
    }
}
