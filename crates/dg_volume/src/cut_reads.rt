// Reads by path over a store, of which some blocks were cut. The cut ones are gone, and no call is made for them.
ghost use Rattle.std.specs.Prelude.{◌≡◌, ◌≤◌, ℕ, List, IfOk, Ok, OnErr, true};
ghost use Rattle.dg_store.specs.Stores.{IsSound, StandsFor, TellsAll, shape_of};
ghost use Rattle.dg_volume.specs.CutReads.{LosesOne, ReadsCut, gone_with};
ghost use Rattle.dg_volume.specs.Planned.{HasReadArray};
ghost use Rattle.dg_volume.specs.Replies.{TellsInode};
ghost use Rattle.ufs_model.specs.Listings.{ls_of};
ghost use Rattle.ufs_model.specs.Paths.{cat_of, is_path, look_of};
ghost use Rattle.ufs_model.specs.Readings.{answered};
ghost use Rattle.ufs_model.specs.Trees.{file_of, tree_of};
ghost use Rattle.ufs_path.specs.Answers.{IsAnswer, refusal_of};
ghost use Rattle.ufs_path.specs.Consults.{IsUnanswered, IsUnread, StaysUnlessFailed};
ghost use Rattle.ufs_path.specs.Trees.{HandsSome, IsUnansweredIn};

use crate::in_use::InUse;
use crate::paths::read_file;
use dg_io::{NoMemory, Pieces, Rack};
use dg_regroup::CutView;
use dg_store::Store;
use std::alloc::Global;
use ufs_model::Inode;
use ufs_path::{CatAnswer, Levels, Listing, LookFault, look, ls, tree};

/// Hands on the bytes of the file at a path, and tells its inode where they are given whole. Else it tells the one that was told before.
pub(crate) fn cut_cat<R: Rack, O: Pieces>(
    store: &mut Store<R>,
    in_use: &InUse,
    levels: &mut Levels,
    path: &[u8],
    out: &mut O,
    before: Option<u32>,
) -> (CatAnswer, Option<u32>)
    requires sound { IsSound R.Rack store.old }
    requires levels { levels.old.fragment ≡ (shape_of store.old).l }
    requires path { is_path path.now ≡ true }
    ensures reads { HasReadArray R.Rack store.old store.new }
    ensures levels { levels.new.fragment ≡ levels.old.fragment }
    ensures later { O.faults out.old ≤ O.faults out.new }
    ensures rule { IsAnswer O.took O.took_part O.faults out.old out.new
        (ReadsCut R.Rack in_use.now.cut.items store.old store.new (cat_of (shape_of store.old).l (shape_of store.old).n path.now)) result.0 }
    ensures cause { IsUnanswered result.0 → LosesOne in_use.now.cut.items store.new }
    ensures inode { TellsInode (λ i. TellsAll R.Rack store.new → (v : List (List ℕ)) → StandsFor R.Rack store.old v
        → (file_of (shape_of store.old).l (shape_of store.old).n path.now v).value ≡ Ok i) before result.1 result.0 }
    ensures stays { StaysUnlessFailed result.0 (O.faults out.old) (O.faults out.new) }
{
    let mut view = CutView::new(&mut *store, &in_use.cut);
    read_file(&mut view, levels, path, out, before)
}

/// Hands on the used entries of the directory at a path, in the directory's order.
pub(crate) fn cut_ls<R: Rack, O: Listing>(
    store: &mut Store<R>,
    in_use: &InUse,
    levels: &mut Levels,
    path: &[u8],
    out: &mut O,
) -> CatAnswer
    requires sound { IsSound R.Rack store.old }
    requires levels { levels.old.fragment ≡ (shape_of store.old).l }
    requires path { is_path path.now ≡ true }
    ensures reads { HasReadArray R.Rack store.old store.new }
    ensures levels { levels.new.fragment ≡ levels.old.fragment }
    ensures later { O.faults out.old ≤ O.faults out.new }
    ensures rule { IsAnswer O.took O.took_part O.faults out.old out.new
        (ReadsCut R.Rack in_use.now.cut.items store.old store.new (ls_of (shape_of store.old).l (shape_of store.old).n path.now)) result }
    ensures cause { IsUnanswered result → LosesOne in_use.now.cut.items store.new }
    ensures stays { StaysUnlessFailed result (O.faults out.old) (O.faults out.new) }
{
    let mut view = CutView::new(&mut *store, &in_use.cut);
    ls(&mut view, levels, path, out)
}

/// Hands on all entries of the volume but `.` and `..`.
pub(crate) fn cut_tree<R: Rack, O: Listing>(
    alloc: Global,
    store: &mut Store<R>,
    in_use: &InUse,
    levels: &mut Levels,
    out: &mut O,
) -> Result<CatAnswer, NoMemory>
    requires sound { IsSound R.Rack store.old }
    requires levels { levels.old.fragment ≡ (shape_of store.old).l }
    ensures reads { HasReadArray R.Rack store.old store.new }
    ensures levels { levels.new.fragment ≡ levels.old.fragment }
    ensures later { O.faults out.old ≤ O.faults out.new }
    ensures rule { IfOk result (IsAnswer O.took O.took_part O.faults out.old out.new
        (ReadsCut R.Rack in_use.now.cut.items store.old store.new (tree_of (shape_of store.old).l (shape_of store.old).n))) }
    ensures part { OnErr result (HandsSome O.took out.old out.new
        (ReadsCut R.Rack in_use.now.cut.items store.old store.new (tree_of (shape_of store.old).l (shape_of store.old).n))) }
    ensures err_faults { OnErr result (O.faults out.new ≡ O.faults out.old) }
    ensures cause { IsUnansweredIn result → LosesOne in_use.now.cut.items store.new }
    ensures stays { IfOk result (λ answer. StaysUnlessFailed answer (O.faults out.old) (O.faults out.new)) }
{
    let mut view = CutView::new(&mut *store, &in_use.cut);
    tree(alloc, &mut view, levels, out)
}

/// The inode at a path, with its number.
pub(crate) fn cut_look<R: Rack>(
    store: &mut Store<R>,
    in_use: &InUse,
    levels: &mut Levels,
    path: &[u8],
) -> Result<(u32, Inode), LookFault>
    requires sound { IsSound R.Rack store.old }
    requires levels { levels.old.fragment ≡ (shape_of store.old).l }
    requires path { is_path path.now ≡ true }
    ensures reads { HasReadArray R.Rack store.old store.new }
    ensures levels { levels.new.fragment ≡ levels.old.fragment }
    ensures stays { (b : ℕ) → gone_with in_use.now.cut.items store.old b ≡ true → gone_with in_use.now.cut.items store.new b ≡ true }
    ensures rule { ReadsCut R.Rack in_use.now.cut.items store.old store.new (look_of (shape_of store.old).l (shape_of store.old).n path.now) (answered refusal_of result) }
    ensures cause { IsUnread result → LosesOne in_use.now.cut.items store.new }
{
    let mut view = CutView::new(&mut *store, &in_use.cut);
    look(&mut view, levels, path)
}
