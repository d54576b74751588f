// Reading a volume by path.
ghost use Rattle.std.specs.Prelude.{◌≡◌, ◌≤◌, ℕ, List, Ok, true};
ghost use Rattle.dg_io.specs.ViewWords.{Keeps, Reads};
ghost use Rattle.dg_model.specs.declared.events.Event.{Event};
ghost use Rattle.dg_volume.specs.Replies.{AnswersCat, AnswersLs, HasFileAt, TellsInode};
ghost use Rattle.dg_volume.specs.Volumes.{IsWell, Leaves, StepsBy, StepsTo, given_of, phase_of, shape_of, touched_by};
ghost use Rattle.ufs_model.specs.Paths.{cat_of, is_path};
ghost use Rattle.ufs_model.specs.Trees.{file_of};
ghost use Rattle.ufs_path.specs.Answers.{IsAnswer, refused_answer};
ghost use Rattle.ufs_path.specs.Consults.{IsUnanswered, StaysUnlessFailed};

use crate::cut_reads::{cut_cat, cut_ls};
use crate::phases::InPhase;
use crate::volumes::Volume;
use dg_io::{Pieces, Rack, View};
use ufs_path::{CatAnswer, Levels, Listing, LookFault, cat, look};

/// The answer where a path leads to no inode.
fn fault_answer(fault: LookFault) -> CatAnswer
    ensures { result ≡ refused_answer fault }
{
    match fault {
        LookFault::NotFound => CatAnswer::NotFound,
        LookFault::NotDirectory => CatAnswer::NotDirectory,
        LookFault::Bad(bad) => CatAnswer::Bad(bad),
        LookFault::Unavailable => CatAnswer::Unavailable,
    }
}

/// The inode that is told after an answer about the file of this one.
fn inode_told(answer: CatAnswer, inode: u32, before: Option<u32>) -> Option<u32>
    ensures { TellsInode (λ i. i ≡ inode) before result answer }
{
    match answer {
        CatAnswer::Given(_) => Some(inode),
        CatAnswer::SinkFault => Some(inode),
        _ => before,
    }
}

/// Hands on the bytes of the file at a path, and tells its inode where they are given whole. Else it tells the one that was told before.
pub(crate) fn read_file<V: View, O: Pieces>(
    view: &mut V,
    levels: &mut Levels,
    path: &[u8],
    out: &mut O,
    before: Option<u32>,
) -> (CatAnswer, Option<u32>)
    requires sound { V.is_sound view.old }
    requires levels { levels.old.fragment ≡ V.size view.old }
    requires path { is_path path.now ≡ true }
    ensures keeps { Keeps V.View view.old view.new }
    ensures levels { levels.new.fragment ≡ levels.old.fragment }
    ensures later { O.faults out.old ≤ O.faults out.new }
    ensures rule { IsAnswer O.took O.took_part O.faults out.old out.new
        (Reads V.View view.old view.new (cat_of (V.size view.old) (V.count view.old) path.now)) result.0 }
    ensures cause { IsUnanswered result.0 → ((b : ℕ) × (V.is_gone view.new b ≡ true)) }
    ensures inode { TellsInode (λ i. V.tells view.new → (v : List (List ℕ)) → V.stands_for view.old v
        → (file_of (V.size view.old) (V.count view.old) path.now v).value ≡ Ok i) before result.1 result.0 }
    ensures stays { StaysUnlessFailed result.0 (O.faults out.old) (O.faults out.new) }
{
    match look(view, levels, path) {
        Ok(found) => {
            let answer = cat(view, levels, path, out);
            (answer, inode_told(answer, found.0, before))
        }
        Err(fault) => (fault_answer(fault), before),
    }
}

impl<S: InPhase, R: Rack> Volume<S, R> {
    /// Hands on the bytes of the file at a path. All that its answer needs is consulted before the first byte. It takes no memory.
    pub fn cat<O: Pieces>(&mut self, path: &[u8], out: &mut O) -> CatAnswer
        requires well { IsWell S.InPhase R.Rack self.old }
        requires path { is_path path.now ≡ true }
        ensures leaves { Leaves S.InPhase S.InPhase R.Rack self.old self.new }
        ensures later { O.faults out.old ≤ O.faults out.new }
        ensures stays { StaysUnlessFailed result (O.faults out.old) (O.faults out.new) }
        ensures steps { AnswersCat O.took O.took_part O.faults out.old out.new (shape_of self.old).l
            (λ reply. StepsBy S.InPhase S.InPhase R.Rack (touched_by (phase_of S.InPhase self.old) (given_of self.new))
            self.old (Event.Cat path.now) reply self.new)
            (λ reply. StepsTo S.InPhase S.InPhase R.Rack self.old (Event.Cat path.now) reply self.new) result }
        ensures inode { TellsInode (HasFileAt S.InPhase R.Rack self.old path.now self.new) (given_of self.old) (given_of self.new) result }
    {
        let (answer, given) = cut_cat(
            &mut self.store,
            &self.in_use,
            &mut self.levels,
            path,
            out,
            self.given,
        );
        self.given = given;
        answer
    }

    /// The inode of the file that `cat` gave whole last, also where the receiver failed at its bytes.
    pub fn given(&self) -> Option<u32>
        ensures { result ≡ given_of self.now }
    {
        self.given
    }

    /// Hands on the used entries of the directory at a path, in the directory's order. It takes no memory.
    pub fn ls<O: Listing>(&mut self, path: &[u8], out: &mut O) -> CatAnswer
        requires well { IsWell S.InPhase R.Rack self.old }
        requires path { is_path path.now ≡ true }
        ensures leaves { Leaves S.InPhase S.InPhase R.Rack self.old self.new }
        ensures later { O.faults out.old ≤ O.faults out.new }
        ensures stays { StaysUnlessFailed result (O.faults out.old) (O.faults out.new) }
        ensures steps { AnswersLs O.took O.took_part O.faults out.old out.new
            (λ reply. StepsTo S.InPhase S.InPhase R.Rack self.old (Event.Ls path.now) reply self.new) result }
        ensures given { given_of self.new ≡ given_of self.old }
    {
        cut_ls(&mut self.store, &self.in_use, &mut self.levels, path, out)
    }
}
