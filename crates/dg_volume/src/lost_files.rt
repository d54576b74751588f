// The files of a settled volume that lost blocks when boundaries were taken out of use.
ghost use Rattle.std.specs.Prelude.{◌≡◌, ◌≤◌, IfOk, OnErr};
ghost use Rattle.dg_model.specs.declared.events.Event.{Event};
ghost use Rattle.dg_model.specs.declared.phases.Phase.{Phase};
ghost use Rattle.dg_store.specs.Stores.{IsSound, shape_of};
ghost use Rattle.dg_volume.specs.CutReads.{LosesOne, ReadsCut};
ghost use Rattle.dg_volume.specs.LostFiles.{AnswersLost, AnswersLostAny, HandsFiles};
ghost use Rattle.dg_volume.specs.Planned.{HasReadArray};
ghost use Rattle.dg_volume.specs.Replies.{StaysUnlessFailedAny};
ghost use Rattle.dg_volume.specs.Settles.{KeepsArray};
ghost use Rattle.dg_volume.specs.Volumes.{IsWell, Leaves, StepsTo, any_phase, given_of, phase_of, settled_phase};
ghost use Rattle.ufs_model.specs.Trees.{tree_of};
ghost use Rattle.ufs_path.specs.Answers.{IsAnswer};
ghost use Rattle.ufs_path.specs.Consults.{StaysUnlessFailed};
ghost use Rattle.ufs_path.specs.PathLists.{HandsPaths, ReadsMarked};
ghost use Rattle.ufs_path.specs.Trees.{IsUnansweredIn};

use crate::in_use::InUse;
use crate::lost_inodes::lost_inodes;
use crate::phases::{AnyPhase, InPhase, Settled};
use crate::settled_paths::TreeAnswer;
use crate::volumes::Volume;
use dg_io::{NoMemory, Rack};
use dg_model::Phase;
use dg_regroup::CutView;
use dg_store::Store;
use std::alloc::Global;
use ufs_path::{CatAnswer, Levels, PathList, list_marked};

/// Hands on the paths of the regular files whose inodes are marked.
fn cut_marked<R: Rack, O: PathList>(
    alloc: Global,
    store: &mut Store<R>,
    in_use: &InUse,
    levels: &mut Levels,
    marks: &[bool],
    out: &mut O,
) -> Result<CatAnswer, NoMemory>
    requires sound { IsSound R.Rack store.old }
    requires levels { levels.old.fragment ≡ (shape_of store.old).l }
    ensures reads { HasReadArray R.Rack store.old store.new }
    ensures levels { levels.new.fragment ≡ levels.old.fragment }
    ensures later { O.faults out.old ≤ O.faults out.new }
    ensures rule { IfOk result (IsAnswer O.took O.took_part O.faults out.old out.new (ReadsMarked
        (ReadsCut R.Rack in_use.now.cut.items store.old store.new (tree_of (shape_of store.old).l (shape_of store.old).n)) marks.now)) }
    ensures part { OnErr result (HandsPaths O.took out.old out.new (ReadsMarked
        (ReadsCut R.Rack in_use.now.cut.items store.old store.new (tree_of (shape_of store.old).l (shape_of store.old).n)) marks.now)) }
    ensures err_faults { OnErr result (O.faults out.new ≡ O.faults out.old) }
    ensures cause { IsUnansweredIn result → LosesOne in_use.now.cut.items store.new }
    ensures stays { IfOk result (λ answer. StaysUnlessFailed answer (O.faults out.old) (O.faults out.new)) }
{
    let mut view = CutView::new(&mut *store, &in_use.cut);
    list_marked(alloc, &mut view, levels, marks, out)
}

impl<S: InPhase, R: Rack> Volume<S, R> {
    /// Hands on the files of a settled volume that lost blocks.
    fn list_lost<O: PathList>(&mut self, alloc: Global, out: &mut O) -> Result<CatAnswer, NoMemory>
        requires well { IsWell S.InPhase R.Rack self.old }
        requires settled { phase_of S.InPhase self.old ≡ Phase.Settled }
        ensures leaves { Leaves S.InPhase S.InPhase R.Rack self.old self.new }
        ensures later { O.faults out.old ≤ O.faults out.new }
        ensures stays { IfOk result (λ answer. StaysUnlessFailed answer (O.faults out.old) (O.faults out.new)) }
        ensures steps { IfOk result (AnswersLost O.took O.took_part O.faults out.old out.new
            (λ reply. StepsTo S.InPhase S.InPhase R.Rack self.old Event.LostFiles reply self.new)) }
        ensures err { OnErr result (KeepsArray R.Rack self.old self.new) }
        ensures part { OnErr result (HandsFiles O.took out.old out.new
            (λ reply. StepsTo S.InPhase S.InPhase R.Rack self.old Event.LostFiles reply self.new)) }
        ensures err_faults { OnErr result (O.faults out.new ≡ O.faults out.old) }
        ensures given { given_of self.new ≡ given_of self.old }
    {
        let Some(inference) = self.phase.inference() else {
            unreachable!();
        };
        let count = self.store.shape().n;
        let marks = lost_inodes(alloc, inference, &self.in_use.cut, count)?;
        cut_marked(
            alloc,
            &mut self.store,
            &self.in_use,
            &mut self.levels,
            &marks,
            out,
        )
    }
}

impl<R: Rack> Volume<Settled, R> {
    /// Hands on the paths of the regular files that have a claim on a cut block, with their inodes, in the order of [`Volume::tree`]. A path
    /// may have more bytes than one that can be asked for. All directories are consulted before the first path is handed on. Where there is no
    /// memory some first paths may have been handed on.
    pub fn lost_files<O: PathList>(
        &mut self,
        alloc: Global,
        out: &mut O,
    ) -> Result<CatAnswer, NoMemory>
        requires well { IsWell settled_phase R.Rack self.old }
        ensures leaves { Leaves settled_phase settled_phase R.Rack self.old self.new }
        ensures later { O.faults out.old ≤ O.faults out.new }
        ensures stays { IfOk result (λ answer. StaysUnlessFailed answer (O.faults out.old) (O.faults out.new)) }
        ensures steps { IfOk result (AnswersLost O.took O.took_part O.faults out.old out.new
            (λ reply. StepsTo settled_phase settled_phase R.Rack self.old Event.LostFiles reply self.new)) }
        ensures err { OnErr result (KeepsArray R.Rack self.old self.new) }
        ensures part { OnErr result (HandsFiles O.took out.old out.new
            (λ reply. StepsTo settled_phase settled_phase R.Rack self.old Event.LostFiles reply self.new)) }
        ensures err_faults { OnErr result (O.faults out.new ≡ O.faults out.old) }
        ensures given { given_of self.new ≡ given_of self.old }
    {
        self.list_lost(alloc, out)
    }
}

impl<R: Rack> Volume<AnyPhase, R> {
    /// Hands on the paths of the files that lost blocks, as the `lost_files` of a settled volume does, where it is settled.
    pub fn lost_files<O: PathList>(
        &mut self,
        alloc: Global,
        out: &mut O,
    ) -> Result<TreeAnswer, NoMemory>
        requires well { IsWell any_phase R.Rack self.old }
        ensures leaves { Leaves any_phase any_phase R.Rack self.old self.new }
        ensures later { O.faults out.old ≤ O.faults out.new }
        ensures stays { IfOk result (λ answer. StaysUnlessFailedAny answer (O.faults out.old) (O.faults out.new)) }
        ensures steps { IfOk result (AnswersLostAny O.took O.took_part O.faults out.old out.new
            (λ reply. StepsTo any_phase any_phase R.Rack self.old Event.LostFiles reply self.new)) }
        ensures err { OnErr result (KeepsArray R.Rack self.old self.new) }
        ensures part { OnErr result (HandsFiles O.took out.old out.new
            (λ reply. StepsTo any_phase any_phase R.Rack self.old Event.LostFiles reply self.new)) }
        ensures err_faults { OnErr result (O.faults out.new ≡ O.faults out.old) }
        ensures given { given_of self.new ≡ given_of self.old }
    {
        match self.phase() {
            Phase::Settled => {
                let answer = self.list_lost(alloc, out)?;
                Ok(TreeAnswer::Is(answer))
            }
            Phase::Loose => Ok(TreeAnswer::NotSettled),
            Phase::Worn => Ok(TreeAnswer::NotSettled),
        }
    }
}
