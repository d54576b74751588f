// The paths of some regular files, by the entries of a listing.
ghost use Rattle.std.specs.Prelude.{◌≡◌, ◌<◌, ◌≤◌, ◌∷◌, [], IfOk, OnErr, OnOk};
ghost use Rattle.dg_io.specs.Faults.{HasCause};
ghost use Rattle.dg_io.specs.ViewWords.{Keeps, Reads};
ghost use Rattle.dg_model.specs.Causes.{RoseByOne};
ghost use Rattle.dg_model.specs.Marks.{is_marked};
ghost use Rattle.ufs_model.specs.Paths.{is_regular};
ghost use Rattle.ufs_model.specs.Trees.{tree_of};
ghost use Rattle.ufs_path.specs.Answers.{IsAnswer};
ghost use Rattle.ufs_path.specs.Consults.{Consults, StaysUnlessFailed};
ghost use Rattle.ufs_path.specs.PathLists.{HandsPaths, IsBegun, ReadsMarked, is_marked_file, told_of};
ghost use Rattle.ufs_path.specs.Trees.{IsUnansweredIn};

use crate::faults::CatAnswer;
use crate::listings::Listing;
use crate::names::Names;
use crate::path_lists::PathList;
use crate::trees::tree;
use dg_io::{Failed, NoMemory, View};
use std::alloc::Global;
use ufs_model::Kind;
use ufs_pointer::Levels;

/// Takes the entries of a listing, and hands on the paths of those that are regular files whose inodes are marked.
#[derive(Drop)]
pub(crate) struct MarkedPaths<'a, O> {
    pub(crate) marks: &'a [bool],
    pub(crate) out: &'a mut O,
    pub(crate) names: &'a mut Names,
    /// How many paths were handed on.
    pub(crate) given: u32,
    /// How often memory was wanting.
    pub(crate) wants: u64,
}

/// Whether an inode is marked.
fn is_marked(marks: &[bool], inode: u32) -> bool
    ensures { result ≡ is_marked marks.now inode }
{
    match marks.get(inode as usize) {
        Some(mark) => *mark,
        None => false,
    }
}

/// Whether a kind is that of a regular file.
fn is_regular(kind: Kind) -> bool
    ensures { result ≡ is_regular kind }
{
    match kind {
        Kind::Regular => true,
        Kind::Directory => false,
        Kind::Link => false,
        Kind::Pipe => false,
        Kind::Character => false,
        Kind::Block => false,
        Kind::Socket => false,
        Kind::Unknown => false,
    }
}

/// Whether an entry is a regular file whose inode is marked.
fn is_marked_file(marks: &[bool], kind: Kind, inode: u32) -> bool
    ensures { result ≡ is_marked_file marks.now kind inode }
{
    is_regular(kind) && is_marked(marks, inode)
}

/// One more than a count, which stands still at its type's end.
fn one_more(count: u64) -> u64
    ensures rose { RoseByOne count result }
    ensures some { 0 < result }
{
    count.saturating_add(1)
}

/// Hands on the path of a file.
fn hand_on<O: PathList>(out: &mut O, inode: u32, names: &Names) -> Result<(), Failed>
    ensures ok { OnOk result (O.took out.old (record { inode = inode; path = names.now.path.items } ∷ []) out.new) }
    ensures err { OnErr result (O.took_part out.old (record { inode = inode; path = names.now.path.items } ∷ []) out.new) }
    ensures cause { HasCause (O.faults out.old) (O.faults out.new) result }
{
    out.line(inode, &names.path)
}

impl<'a, O: PathList> MarkedPaths<'a, O> {
    ghost use Rattle.std.specs.Prelude.{◌≡◌, []};
    ghost use Rattle.ufs_path.specs.PathLists.{HasNames, IsBegun};

    /// Before the first entry.
    fn new(marks: &'a [bool], names: &'a mut Names, out: &'a mut O) -> MarkedPaths<'a, O>
        requires names { HasNames names.old [] }
        ensures begun { IsBegun result marks.now out.old }
        ensures same { result.out.ghost_name ≡ out.entry.ghost_name }
    {
        MarkedPaths {
            marks,
            out,
            names,
            given: 0,
            wants: 0,
        }
    }
}

impl<O: PathList> Listing for MarkedPaths<'_, O> {
    ghost use Rattle.std.specs.Prelude.{◌+◌};
    ghost use Rattle.ufs_path.specs.PathLists.{TookMarked, TookMarkedPart};
    ghost use Rattle.ufs_path.specs.PathListLaws.{took_both, took_none, took_part_behind, took_part_more};

    ghost took = { TookMarked O.took O.took_part O.faults };

    ghost took_part = { TookMarkedPart O.took O.took_part O.faults };

    ghost faults = { λ s. O.faults s.out.now + s.wants };

    fn line(
        &mut self,
        depth: u32,
        inode: u32,
        kind: Kind,
        _size: u64,
        name: &[u8],
    ) -> Result<(), Failed> {
        if self.names.go_to(depth, name).is_err() {
            self.wants = one_more(self.wants);
            return Err(Failed);
        }
        if !is_marked_file(self.marks, kind, inode) {
            return Ok(());
        }
        if self.given == u32::MAX {
            self.wants = one_more(self.wants);
            return Err(Failed);
        }
        hand_on(&mut *self.out, inode, &*self.names)?;
        self.given += 1;
        Ok(())
    }

    ghost nothing = { λ s. took_none O.took O.took_part O.faults O.nothing s };

    ghost then = { λ a b c x y first second. took_both O.took O.took_part O.faults O.then a b c x y first second };

    ghost then_part = { λ a b c x y first second. took_part_behind O.took O.took_part O.faults O.then O.then_part a b c x y first second };

    ghost part = { λ a b x y first. took_part_more O.took O.took_part O.faults O.part a b x y first };
}

/// An answer of a listing, as it is told of so many paths.
fn told_of(given: u32, answer: CatAnswer) -> CatAnswer
    ensures { result ≡ told_of given answer }
{
    match answer {
        CatAnswer::Given(_) => CatAnswer::Given(given),
        CatAnswer::NotFound => CatAnswer::NotFound,
        CatAnswer::NotDirectory => CatAnswer::NotDirectory,
        CatAnswer::Bad(bad) => CatAnswer::Bad(bad),
        CatAnswer::Unavailable => CatAnswer::Unavailable,
        CatAnswer::NotRegular => CatAnswer::NotRegular,
        CatAnswer::Cut(_) => CatAnswer::Cut(given),
        CatAnswer::SinkFault => CatAnswer::SinkFault,
    }
}

/// Hands on the paths of the marked files of the volume on a view, before the first entry.
fn list_into<V: View, O: PathList>(
    alloc: Global,
    view: &mut V,
    levels: &mut Levels,
    paths: &mut MarkedPaths<'_, O>,
) -> Result<CatAnswer, NoMemory>
    requires sound { V.is_sound view.old }
    requires levels { levels.old.fragment ≡ V.size view.old }
    requires begun { IsBegun paths.old paths.old.marks.now paths.old.out.now }
    ensures keeps { Keeps V.View view.old view.new }
    ensures levels { levels.new.fragment ≡ levels.old.fragment }
    ensures same { paths.new.out.ghost_name ≡ paths.old.out.ghost_name }
    ensures later { O.faults paths.old.out.now ≤ O.faults paths.new.out.now }
    ensures rule { IfOk result (IsAnswer O.took O.took_part O.faults paths.old.out.now paths.new.out.now
        (ReadsMarked (Reads V.View view.old view.new (tree_of (V.size view.old) (V.count view.old))) paths.old.marks.now)) }
    ensures part { OnErr result (HandsPaths O.took paths.old.out.now paths.new.out.now
        (ReadsMarked (Reads V.View view.old view.new (tree_of (V.size view.old) (V.count view.old))) paths.old.marks.now)) }
    ensures err_faults { OnErr result (O.faults paths.new.out.now ≡ O.faults paths.old.out.now) }
    ensures consults { Consults V.View view.old view.new (tree_of (V.size view.old) (V.count view.old)) (IsUnansweredIn result) }
    ensures stays { IfOk result (λ answer. StaysUnlessFailed answer (O.faults paths.old.out.now) (O.faults paths.new.out.now)) }
{
    let answer = tree(alloc, view, levels, paths)?;
    if paths.wants > 0 {
        return Err(NoMemory);
    }
    Ok(told_of(paths.given, answer))
}

/// Hands on the paths of the regular files on a view whose inodes are marked, in the order of its [`tree`], with their inodes. Mark i is for
/// inode i; an inode without a mark isn't marked. A file with several names has a path for each. All entries are consulted before the first
/// path is handed on. Memory holds what that of the listing does, and one path. Where it is wanting, some first paths may have been handed on.
pub fn list_marked<V: View, O: PathList>(
    alloc: Global,
    view: &mut V,
    levels: &mut Levels,
    marks: &[bool],
    out: &mut O,
) -> Result<CatAnswer, NoMemory>
    requires sound { V.is_sound view.old }
    requires levels { levels.old.fragment ≡ V.size view.old }
    ensures keeps { Keeps V.View view.old view.new }
    ensures levels { levels.new.fragment ≡ levels.old.fragment }
    ensures later { O.faults out.old ≤ O.faults out.new }
    ensures rule { IfOk result (IsAnswer O.took O.took_part O.faults out.old out.new
        (ReadsMarked (Reads V.View view.old view.new (tree_of (V.size view.old) (V.count view.old))) marks.now)) }
    ensures part { OnErr result (HandsPaths O.took out.old out.new
        (ReadsMarked (Reads V.View view.old view.new (tree_of (V.size view.old) (V.count view.old))) marks.now)) }
    ensures err_faults { OnErr result (O.faults out.new ≡ O.faults out.old) }
    ensures consults { Consults V.View view.old view.new (tree_of (V.size view.old) (V.count view.old)) (IsUnansweredIn result) }
    ensures stays { IfOk result (λ answer. StaysUnlessFailed answer (O.faults out.old) (O.faults out.new)) }
{
    let mut names = Names::new(alloc);
    let mut paths = MarkedPaths::new(marks, &mut names, &mut *out);
    list_into(alloc, view, levels, &mut paths)
}
