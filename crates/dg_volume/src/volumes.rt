// The volume: its parts, the blank one, and the calls on blocks and members.
ghost use Rattle.std.specs.Prelude.{◌≡◌, ◌≤◌, ◌<◌, IfOk, length};
ghost use Rattle.dg_model.specs.Shapes.{IsShape};
ghost use Rattle.dg_model.specs.declared.events.Event.{Event};
ghost use Rattle.dg_model.specs.declared.replies.Reply.{Reply};
ghost use Rattle.dg_volume.specs.Replies.{IsReadReply, fail_reply};
ghost use Rattle.dg_volume.specs.Volumes.{IsBlankVolume, IsWell, Leaves, given_of, StepsTo, phase_of, rack_of, shape_of};

use crate::in_use::InUse;
use crate::phases::{InPhase, Loose};
use dg_infer::Inference;
use dg_io::{NoMemory, Rack};
use dg_label::KeptLabel;
use dg_model::{Phase, Shape};
use dg_plan::Homes;
use dg_store::{FailAnswer as MemberAnswer, Fetched, Store};
use std::alloc::Global;
use ufs_pointer::Levels;

/// A volume on an array, in a phase.
#[derive(Drop)]
pub struct Volume<S, R> {
    pub(crate) store: Store<R>,
    pub(crate) phase: S,
    /// A mark for each block that is pending, where the phase keeps none.
    pub(crate) pending: Vec<bool>,
    pub(crate) homes: Homes,
    pub(crate) copies: Homes,
    pub(crate) in_use: InUse,
    pub(crate) levels: Levels,
    /// The inode of the file that was given last.
    pub(crate) given: Option<u32>,
    /// The label that is kept of the last save, or opening.
    pub(crate) label: Option<KeptLabel>,
}

/// What became of a read of a block.
#[derive(Clone, Copy, Debug, PartialEq, Eq)]
pub enum ReadAnswer {
    /// The buffer has the block.
    Got,
    /// There is no such block. The buffer is as it was.
    Range,
    /// The block is gone. The buffer has any bytes.
    Unavailable,
}

/// What became of making a member fail.
#[derive(Clone, Copy, Debug, PartialEq, Eq)]
pub enum FailAnswer {
    /// It is out now.
    Failed,
    /// It was out before.
    Already,
    /// There is no such member.
    Range,
}

impl<R: Rack> Volume<Loose, R> {
    /// The volume of a blank array. All members are blanked, ascending by number.
    pub fn array(alloc: Global, rack: R, shape: Shape) -> Result<Volume<Loose, R>, NoMemory>
    where
        R: Drop,
        requires { IsShape shape }
        ensures { IfOk result (λ volume. IsBlankVolume R.Rack shape rack volume) }
    {
        let inference = Inference::new(alloc, shape.l, shape.n)?;
        let levels = Levels::new(alloc, shape.l)?;
        let in_use = InUse::all(alloc, &shape)?;
        let store = Store::new(alloc, rack, shape)?;
        Ok(Volume {
            store,
            phase: Loose { inference },
            pending: Vec::new(alloc),
            homes: Homes::new(Vec::new(alloc)),
            copies: Homes::new(Vec::new(alloc)),
            in_use,
            levels,
            given: None,
            label: None,
        })
    }
}

impl<S: InPhase + Drop, R: Rack> Volume<S, R> {
    /// Gives the rack back.
    pub fn into_rack(self) -> R
        ensures { result ≡ rack_of self }
    {
        let Volume { store, .. } = self;
        store.into_rack()
    }
}

impl<S: InPhase, R: Rack> Volume<S, R> {
    /// The phase.
    pub fn phase(&self) -> Phase
        ensures { result ≡ phase_of S.InPhase self.now }
    {
        self.phase.phase()
    }

    /// Reads a block. One that isn't written reads as zeros; one that was cut, and not written since, is gone.
    pub fn read(&mut self, block: u32, buf: &mut [u8]) -> ReadAnswer
        requires well { IsWell S.InPhase R.Rack self.old }
        requires size { length buf.old ≡ (shape_of self.old).l }
        ensures leaves { Leaves S.InPhase S.InPhase R.Rack self.old self.new }
        ensures range { result ≡ ReadAnswer.Range → buf.new ≡ buf.old }
        ensures steps { (reply : Reply) → IsReadReply result buf.new reply
            → StepsTo S.InPhase S.InPhase R.Rack self.old (Event.Read block) reply self.new }
        ensures given { given_of self.new ≡ given_of self.old }
    {
        if block >= self.store.shape().n {
            return ReadAnswer::Range;
        }
        if self.in_use.is_cut(block) {
            return ReadAnswer::Unavailable;
        }
        match self.store.read(block, buf) {
            Fetched::Got => ReadAnswer::Got,
            Fetched::Gone => ReadAnswer::Unavailable,
        }
    }

    /// Makes a member fail, given by its boundary's number in the first line and its side. It makes no call on the rack. A member of a
    /// boundary that isn't in use is out.
    pub fn fail(&mut self, boundary: u32, side: u32) -> FailAnswer
        requires well { IsWell S.InPhase R.Rack self.old }
        ensures leaves { Leaves S.InPhase S.InPhase R.Rack self.old self.new }
        ensures steps { StepsTo S.InPhase S.InPhase R.Rack self.old (Event.Fail boundary side) (fail_reply result) self.new }
        ensures given { given_of self.new ≡ given_of self.old }
    {
        if boundary >= self.in_use.boundaries as u32 || side >= 2 {
            return FailAnswer::Range;
        }
        let Some(place) = self.in_use.place(boundary) else {
            return FailAnswer::Already;
        };
        match self.store.fail(place, side as u8) {
            MemberAnswer::Already => FailAnswer::Already,
            MemberAnswer::Taken => FailAnswer::Failed,
        }
    }
}
