// What is told of a settled volume alone: the listing of all directories, and the home of a file.
ghost use Rattle.std.specs.Prelude.{◌≡◌, ◌≤◌, IfOk, OnErr, true};
ghost use Rattle.dg_model.specs.Homes.{Ascend, home_of};
ghost use Rattle.dg_model.specs.declared.events.Event.{Event};
ghost use Rattle.dg_model.specs.declared.phases.Phase.{Phase};
ghost use Rattle.dg_volume.specs.Fronts.{HandsLines};
ghost use Rattle.dg_volume.specs.Replies.{AnswersTree, AnswersTreeAny, StaysUnlessFailedAny, answer_for, any_home_reply, home_reply};
ghost use Rattle.dg_volume.specs.Settles.{KeepsArray};
ghost use Rattle.dg_volume.specs.Volumes.{IsWell, Leaves, given_of, StepsTo, any_phase, phase_of, settled_phase};
ghost use Rattle.ufs_model.specs.Inodes.{kind_of};
ghost use Rattle.ufs_model.specs.Paths.{is_path, is_regular};
ghost use Rattle.ufs_path.specs.Consults.{StaysUnlessFailed};

use crate::cut_reads::{cut_look, cut_tree};
use crate::in_use::InUse;
use crate::phases::{AnyPhase, InPhase, Settled};
use crate::volumes::Volume;
use dg_io::{NoMemory, Rack};
use dg_model::Phase;
use dg_plan::Homes;
use std::alloc::Global;
use ufs_model::{Inode, Kind};
use ufs_path::{CatAnswer, Listing, LookFault};

/// What is told of the home of a file.
#[derive(Clone, Copy, Debug, PartialEq, Eq)]
pub enum HomeAnswer {
    /// The boundary that holds all blocks of the file, and the one that holds a copy of each, by their numbers in the first line.
    At { home: u8, copy: Option<u8> },
    /// The file has no home.
    NoHome,
    /// The path leads to no inode.
    Fault(LookFault),
    /// The path leads to something else than a regular file.
    NotRegular,
}

/// The same of a volume whose phase is told only when the program runs.
#[derive(Clone, Copy, Debug, PartialEq, Eq)]
pub enum AnyHome {
    Is(HomeAnswer),
    /// The volume isn't settled.
    NotSettled,
}

/// What became of a listing of all directories, of such a volume.
#[derive(Clone, Copy, Debug, PartialEq, Eq)]
pub enum TreeAnswer {
    Is(CatAnswer),
    /// The volume isn't settled. Nothing was handed on.
    NotSettled,
}

/// Whether an inode is that of a regular file.
fn is_regular(inode: &Inode) -> bool
    ensures { result ≡ is_regular (kind_of inode.now.mode) }
{
    match inode.kind() {
        Kind::Regular => true,
        Kind::Directory => false,
        Kind::Link => false,
        Kind::Pipe => false,
        Kind::Character => false,
        Kind::Block => false,
        Kind::Socket => false,
        Kind::Unknown => false,
    }
}

/// What is told of the file of an inode.
fn home_in(in_use: &InUse, homes: &Homes, copies: &Homes, inode: u32) -> HomeAnswer
    requires homes { Ascend homes.now }
    requires copies { Ascend copies.now }
    ensures { result ≡ answer_for in_use.now.live.items (home_of homes.now inode) (home_of copies.now inode) }
{
    match homes.home_of(inode) {
        Some(home) => HomeAnswer::At {
            home: in_use.number(home),
            copy: in_use.number_of(copies.home_of(inode)),
        },
        None => HomeAnswer::NoHome,
    }
}

impl<S: InPhase, R: Rack> Volume<S, R> {
    /// Hands on all entries of a settled volume but `.` and `..`.
    fn list_all<O: Listing>(&mut self, alloc: Global, out: &mut O) -> Result<CatAnswer, NoMemory>
        requires well { IsWell S.InPhase R.Rack self.old }
        requires settled { phase_of S.InPhase self.old ≡ Phase.Settled }
        ensures leaves { Leaves S.InPhase S.InPhase R.Rack self.old self.new }
        ensures later { O.faults out.old ≤ O.faults out.new }
        ensures stays { IfOk result (λ answer. StaysUnlessFailed answer (O.faults out.old) (O.faults out.new)) }
        ensures steps { IfOk result (AnswersTree O.took O.took_part O.faults out.old out.new
            (λ reply. StepsTo S.InPhase S.InPhase R.Rack self.old Event.Tree reply self.new)) }
        ensures err { OnErr result (KeepsArray R.Rack self.old self.new) }
        ensures part { OnErr result (HandsLines O.took out.old out.new
            (λ reply. StepsTo S.InPhase S.InPhase R.Rack self.old Event.Tree reply self.new)) }
        ensures err_faults { OnErr result (O.faults out.new ≡ O.faults out.old) }
        ensures given { given_of self.new ≡ given_of self.old }
    {
        cut_tree(alloc, &mut self.store, &self.in_use, &mut self.levels, out)
    }

    /// Tells the home of the file at a path of a settled volume.
    fn find_home(&mut self, path: &[u8]) -> HomeAnswer
        requires well { IsWell S.InPhase R.Rack self.old }
        requires settled { phase_of S.InPhase self.old ≡ Phase.Settled }
        requires path { is_path path.now ≡ true }
        ensures leaves { Leaves S.InPhase S.InPhase R.Rack self.old self.new }
        ensures steps { StepsTo S.InPhase S.InPhase R.Rack self.old (Event.Home path.now) (home_reply result) self.new }
        ensures given { given_of self.new ≡ given_of self.old }
    {
        match cut_look(&mut self.store, &self.in_use, &mut self.levels, path) {
            Ok(found) => {
                if is_regular(&found.1) {
                    home_in(&self.in_use, &self.homes, &self.copies, found.0)
                } else {
                    HomeAnswer::NotRegular
                }
            }
            Err(fault) => HomeAnswer::Fault(fault),
        }
    }
}

impl<R: Rack> Volume<Settled, R> {
    /// Hands on all entries of the volume but `.` and `..`, depth first, each directory's in its order. All are consulted before the first
    /// is handed on. Where there is no memory some first entries may have been handed on.
    pub fn tree<O: Listing>(&mut self, alloc: Global, out: &mut O) -> Result<CatAnswer, NoMemory>
        requires well { IsWell settled_phase R.Rack self.old }
        ensures leaves { Leaves settled_phase settled_phase R.Rack self.old self.new }
        ensures later { O.faults out.old ≤ O.faults out.new }
        ensures stays { IfOk result (λ answer. StaysUnlessFailed answer (O.faults out.old) (O.faults out.new)) }
        ensures steps { IfOk result (AnswersTree O.took O.took_part O.faults out.old out.new
            (λ reply. StepsTo settled_phase settled_phase R.Rack self.old Event.Tree reply self.new)) }
        ensures err { OnErr result (KeepsArray R.Rack self.old self.new) }
        ensures part { OnErr result (HandsLines O.took out.old out.new
            (λ reply. StepsTo settled_phase settled_phase R.Rack self.old Event.Tree reply self.new)) }
        ensures err_faults { OnErr result (O.faults out.new ≡ O.faults out.old) }
        ensures given { given_of self.new ≡ given_of self.old }
    {
        self.list_all(alloc, out)
    }

    /// Tells the home of the file at a path. It takes no memory.
    pub fn home(&mut self, path: &[u8]) -> HomeAnswer
        requires well { IsWell settled_phase R.Rack self.old }
        requires path { is_path path.now ≡ true }
        ensures leaves { Leaves settled_phase settled_phase R.Rack self.old self.new }
        ensures steps { StepsTo settled_phase settled_phase R.Rack self.old (Event.Home path.now) (home_reply result) self.new }
        ensures given { given_of self.new ≡ given_of self.old }
    {
        self.find_home(path)
    }
}

impl<R: Rack> Volume<AnyPhase, R> {
    /// Hands on all entries of the volume but `.` and `..`, as the `tree` of a settled one does, where it is settled.
    pub fn tree<O: Listing>(&mut self, alloc: Global, out: &mut O) -> Result<TreeAnswer, NoMemory>
        requires well { IsWell any_phase R.Rack self.old }
        ensures leaves { Leaves any_phase any_phase R.Rack self.old self.new }
        ensures later { O.faults out.old ≤ O.faults out.new }
        ensures stays { IfOk result (λ answer. StaysUnlessFailedAny answer (O.faults out.old) (O.faults out.new)) }
        ensures steps { IfOk result (AnswersTreeAny O.took O.took_part O.faults out.old out.new
            (λ reply. StepsTo any_phase any_phase R.Rack self.old Event.Tree reply self.new)) }
        ensures err { OnErr result (KeepsArray R.Rack self.old self.new) }
        ensures part { OnErr result (HandsLines O.took out.old out.new
            (λ reply. StepsTo any_phase any_phase R.Rack self.old Event.Tree reply self.new)) }
        ensures err_faults { OnErr result (O.faults out.new ≡ O.faults out.old) }
        ensures given { given_of self.new ≡ given_of self.old }
    {
        match self.phase() {
            Phase::Settled => {
                let answer = self.list_all(alloc, out)?;
                Ok(TreeAnswer::Is(answer))
            }
            Phase::Loose => Ok(TreeAnswer::NotSettled),
            Phase::Worn => Ok(TreeAnswer::NotSettled),
        }
    }

    /// Tells the home of the file at a path, where the volume is settled. It takes no memory.
    pub fn home(&mut self, path: &[u8]) -> AnyHome
        requires well { IsWell any_phase R.Rack self.old }
        requires path { is_path path.now ≡ true }
        ensures leaves { Leaves any_phase any_phase R.Rack self.old self.new }
        ensures steps { StepsTo any_phase any_phase R.Rack self.old (Event.Home path.now) (any_home_reply result) self.new }
        ensures given { given_of self.new ≡ given_of self.old }
    {
        match self.phase() {
            Phase::Settled => AnyHome::Is(self.find_home(path)),
            Phase::Loose => AnyHome::NotSettled,
            Phase::Worn => AnyHome::NotSettled,
        }
    }
}
