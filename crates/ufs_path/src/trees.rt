// The listing of a whole volume.
ghost use Rattle.std.specs.Prelude.{◌≡◌, ◌^◌, ◌<◌, ◌≤◌, Some, Ok, IfOk, OnErr, true};
ghost use Rattle.dg_io.specs.ViewWords.{Keeps, Reads};
ghost use Rattle.ufs_model.specs.Geometries.{IsGeometryOn};
ghost use Rattle.ufs_model.specs.Inodes.{kind_of};
ghost use Rattle.ufs_model.specs.Paths.{is_directory};
ghost use Rattle.ufs_model.specs.Trees.{tree_of};
ghost use Rattle.ufs_path.specs.Answers.{IsAnswer};
ghost use Rattle.ufs_path.specs.Consults.{Consults, StaysAtWalk, StaysUnlessFailed};
ghost use Rattle.ufs_path.specs.Trees.{Begins, HandsFront, HandsSome, IsGrown, IsUnansweredIn, IsUnreadWalkIn, all_lines, left_on, lines_below, lines_in, root_lines};

use crate::branches::{Pending, is_directory, open_entry, open_inode};
use crate::faults::CatAnswer;
use crate::files::refused_answer;
use crate::listings::{Listing, Nowhere};
use crate::looks::read_named;
use crate::superblocks::geometry;
use crate::walks::Walked;
use dg_io::{NoMemory, View};
use std::alloc::Global;
use ufs_model::{Geometry, Inode, ROOT_INODE};
use ufs_pointer::Levels;

/// Hands on the entries of a stack from its end, each with those below it. Fewer lines than 2^32 are handed on.
fn walk_stack<V: View, O: Listing>(
    alloc: Global,
    view: &mut V,
    g: &Geometry,
    entries: Vec<Pending>,
    out: &mut O,
    levels: &mut Levels,
) -> Result<Walked, NoMemory>
    requires sound { V.is_sound view.old }
    requires geometry { IsGeometryOn (V.size view.old) (V.count view.old) g.now }
    requires levels { levels.old.fragment ≡ V.size view.old }
    ensures keeps { Keeps V.View view.old view.new }
    ensures levels { levels.new.fragment ≡ levels.old.fragment }
    ensures later { O.faults out.old ≤ O.faults out.new }
    ensures rule { IfOk result (IsGrown O.took O.took_part O.faults out.old out.new
        (Reads V.View view.old view.new (all_lines g.now (left_on entries.items)))
        (Begins (V.stands_for view.old) (V.tells view.new) (all_lines g.now (left_on entries.items)))) }
    ensures part { OnErr result (HandsFront O.took out.old out.new
        (Begins (V.stands_for view.old) (V.tells view.new) (all_lines g.now (left_on entries.items)))) }
    ensures err_faults { OnErr result (O.faults out.new ≡ O.faults out.old) }
    ensures consults { Consults V.View view.old view.new (all_lines g.now (left_on entries.items)) (IsUnreadWalkIn result) }
    ensures stays { IfOk result (λ walked. StaysAtWalk walked (O.faults out.old) (O.faults out.new)) }
{
    let mut stack = entries;
    for given in 0..u32::MAX {
        match stack.pop() {
            Some(entry) => {
                let opened = open_entry(alloc, view, g, &entry, &mut stack, levels)?;
                match opened {
                    Ok(inode) => {
                        match out.line(
                            entry.depth,
                            entry.inode,
                            inode.kind(),
                            inode.size,
                            entry.name(),
                        ) {
                            Ok(()) => {}
                            Err(_) => return Ok(Walked::Failed),
                        }
                    }
                    Err(fault) => return Ok(Walked::Unread(given, fault)),
                }
            }
            None => return Ok(Walked::All(given)),
        }
    }
    Err(NoMemory)
}

/// Hands on the entries below an inode. `depth` is that of an entry which names it.
fn walk_below<V: View, O: Listing>(
    alloc: Global,
    view: &mut V,
    g: &Geometry,
    inode: &Inode,
    depth: u32,
    out: &mut O,
    levels: &mut Levels,
) -> Result<Walked, NoMemory>
    requires sound { V.is_sound view.old }
    requires geometry { IsGeometryOn (V.size view.old) (V.count view.old) g.now }
    requires levels { levels.old.fragment ≡ V.size view.old }
    ensures keeps { Keeps V.View view.old view.new }
    ensures levels { levels.new.fragment ≡ levels.old.fragment }
    ensures later { O.faults out.old ≤ O.faults out.new }
    ensures rule { IfOk result (IsGrown O.took O.took_part O.faults out.old out.new
        (Reads V.View view.old view.new (lines_below g.now depth inode.now))
        (Begins (V.stands_for view.old) (V.tells view.new) (lines_below g.now depth inode.now))) }
    ensures part { OnErr result (HandsFront O.took out.old out.new
        (Begins (V.stands_for view.old) (V.tells view.new) (lines_below g.now depth inode.now))) }
    ensures err_faults { OnErr result (O.faults out.new ≡ O.faults out.old) }
    ensures consults { Consults V.View view.old view.new (lines_below g.now depth inode.now) (IsUnreadWalkIn result) }
    ensures stays { IfOk result (λ walked. StaysAtWalk walked (O.faults out.old) (O.faults out.new)) }
{
    let mut stack = Vec::new(alloc);
    let opened = open_inode(alloc, view, g, inode, depth, &mut stack, levels)?;
    match opened {
        Ok(()) => walk_stack(alloc, view, g, stack, out, levels),
        Err(fault) => Ok(Walked::Unread(0, fault)),
    }
}

/// Consults the entries below an inode, and then hands them on.
fn list_below<V: View, O: Listing>(
    alloc: Global,
    view: &mut V,
    g: &Geometry,
    inode: &Inode,
    out: &mut O,
    levels: &mut Levels,
) -> Result<CatAnswer, NoMemory>
    requires sound { V.is_sound view.old }
    requires geometry { IsGeometryOn (V.size view.old) (V.count view.old) g.now }
    requires levels { levels.old.fragment ≡ V.size view.old }
    ensures keeps { Keeps V.View view.old view.new }
    ensures levels { levels.new.fragment ≡ levels.old.fragment }
    ensures later { O.faults out.old ≤ O.faults out.new }
    ensures rule { IfOk result (IsAnswer O.took O.took_part O.faults out.old out.new
        (Reads V.View view.old view.new (lines_below g.now 0 inode.now))) }
    ensures part { OnErr result (HandsSome O.took out.old out.new (Reads V.View view.old view.new (lines_below g.now 0 inode.now))) }
    ensures err_faults { OnErr result (O.faults out.new ≡ O.faults out.old) }
    ensures consults { Consults V.View view.old view.new (lines_below g.now 0 inode.now) (IsUnansweredIn result) }
    ensures stays { IfOk result (λ answer. StaysUnlessFailed answer (O.faults out.old) (O.faults out.new)) }
{
    let mut nowhere = Nowhere;
    let consulted = walk_below(alloc, view, g, inode, 0, &mut nowhere, levels)?;
    match consulted {
        Walked::All(_) => {
            let listed = walk_below(alloc, view, g, inode, 0, out, levels)?;
            match listed {
                Walked::All(given) => Ok(CatAnswer::Given(given)),
                Walked::Unread(given, _) => Ok(CatAnswer::Cut(given)),
                Walked::Failed => Ok(CatAnswer::SinkFault),
            }
        }
        Walked::Unread(_, fault) => Ok(refused_answer(fault)),
        Walked::Failed => unreachable!(),
    }
}

/// Hands on the entries of the volume whose root has this inode.
fn list_root<V: View, O: Listing>(
    alloc: Global,
    view: &mut V,
    g: &Geometry,
    root: &Inode,
    out: &mut O,
    levels: &mut Levels,
) -> Result<CatAnswer, NoMemory>
    requires sound { V.is_sound view.old }
    requires geometry { IsGeometryOn (V.size view.old) (V.count view.old) g.now }
    requires levels { levels.old.fragment ≡ V.size view.old }
    ensures keeps { Keeps V.View view.old view.new }
    ensures levels { levels.new.fragment ≡ levels.old.fragment }
    ensures later { O.faults out.old ≤ O.faults out.new }
    ensures rule { IfOk result (IsAnswer O.took O.took_part O.faults out.old out.new
        (Reads V.View view.old view.new (root_lines g.now root.now))) }
    ensures part { OnErr result (HandsSome O.took out.old out.new (Reads V.View view.old view.new (root_lines g.now root.now))) }
    ensures err_faults { OnErr result (O.faults out.new ≡ O.faults out.old) }
    ensures consults { Consults V.View view.old view.new (root_lines g.now root.now) (IsUnansweredIn result) }
    ensures stays { IfOk result (λ answer. StaysUnlessFailed answer (O.faults out.old) (O.faults out.new)) }
{
    if is_directory(root) {
        list_below(alloc, view, g, root, out, levels)
    } else {
        Ok(CatAnswer::NotDirectory)
    }
}

/// Hands on the entries of the volume with a geometry.
fn list_volume<V: View, O: Listing>(
    alloc: Global,
    view: &mut V,
    g: &Geometry,
    out: &mut O,
    levels: &mut Levels,
) -> Result<CatAnswer, NoMemory>
    requires sound { V.is_sound view.old }
    requires geometry { IsGeometryOn (V.size view.old) (V.count view.old) g.now }
    requires levels { levels.old.fragment ≡ V.size view.old }
    ensures keeps { Keeps V.View view.old view.new }
    ensures levels { levels.new.fragment ≡ levels.old.fragment }
    ensures later { O.faults out.old ≤ O.faults out.new }
    ensures rule { IfOk result (IsAnswer O.took O.took_part O.faults out.old out.new
        (Reads V.View view.old view.new (lines_in g.now))) }
    ensures part { OnErr result (HandsSome O.took out.old out.new (Reads V.View view.old view.new (lines_in g.now))) }
    ensures err_faults { OnErr result (O.faults out.new ≡ O.faults out.old) }
    ensures consults { Consults V.View view.old view.new (lines_in g.now) (IsUnansweredIn result) }
    ensures stays { IfOk result (λ answer. StaysUnlessFailed answer (O.faults out.old) (O.faults out.new)) }
{
    match read_named(view, g, ROOT_INODE, levels) {
        Ok(root) => list_root(alloc, view, g, &root, out, levels),
        Err(fault) => Ok(refused_answer(fault)),
    }
}

/// Hands on all entries of the volume on a view but `.` and `..`, depth first, each directory's in its order. All are consulted
/// before the first is handed on. Memory holds the entries, still to be listed, of the directories on one path. Where it is wanting,
/// some first entries may have been handed on. A listing of more entries than a `u32` counts is answered as want of memory.
pub fn tree<V: View, O: Listing>(
    alloc: Global,
    view: &mut V,
    levels: &mut Levels,
    out: &mut O,
) -> Result<CatAnswer, NoMemory>
    requires sound { V.is_sound view.old }
    requires levels { levels.old.fragment ≡ V.size view.old }
    ensures keeps { Keeps V.View view.old view.new }
    ensures levels { levels.new.fragment ≡ levels.old.fragment }
    ensures later { O.faults out.old ≤ O.faults out.new }
    ensures rule { IfOk result (IsAnswer O.took O.took_part O.faults out.old out.new
        (Reads V.View view.old view.new (tree_of (V.size view.old) (V.count view.old)))) }
    ensures part { OnErr result (HandsSome O.took out.old out.new (Reads V.View view.old view.new (tree_of (V.size view.old) (V.count view.old)))) }
    ensures err_faults { OnErr result (O.faults out.new ≡ O.faults out.old) }
    ensures consults { Consults V.View view.old view.new (tree_of (V.size view.old) (V.count view.old)) (IsUnansweredIn result) }
    ensures stays { IfOk result (λ answer. StaysUnlessFailed answer (O.faults out.old) (O.faults out.new)) }
{
    match geometry(view, levels) {
        Ok(g) => list_volume(alloc, view, &g, out, levels),
        Err(fault) => Ok(refused_answer(fault)),
    }
}
