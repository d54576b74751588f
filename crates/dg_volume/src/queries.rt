// What is told of a volume without a call on its rack.
ghost use Rattle.std.specs.Prelude.{◌≡◌, ◌↔◌, ◌<◌, ◌≤◌, ◌/◌, ◌+◌, ℕ, IfNone, IfSome, false, true, length};
ghost use Rattle.dg_model.specs.Lives.{place_in};
ghost use Rattle.dg_model.specs.Marks.{is_marked};
ghost use Rattle.dg_model.specs.Tables.{used_in};
ghost use Rattle.dg_model.specs.declared.events.Event.{Event};
ghost use Rattle.dg_model.specs.declared.members.MemberState.{MemberState};
ghost use Rattle.dg_pair.specs.Boundaries.{IsWell as IsWellBoundary, members_of as boundary_members, number_of};
ghost use Rattle.dg_store.specs.Stores.{lost_bits};
ghost use Rattle.dg_volume.specs.Replies.{who_reply};
ghost use Rattle.dg_volume.specs.Volumes.{IsWell, StepsTo, live_of, marks_of, members_of, shape_of, table_of};

use crate::phases::InPhase;
use crate::volumes::Volume;
use dg_io::Rack;
use dg_model::{Shape, Who};
use dg_store::Boundary;

/// What is told of a block.
#[derive(Clone, Copy, Debug, PartialEq, Eq)]
pub enum WhoAnswer {
    /// What it belongs to.
    Is(Who),
    /// There is no such block.
    Range,
    /// It isn't known any more: the volume is worn.
    Unavailable,
}

/// The first mark from one on.
fn first_mark(marks: &[bool], from: u32) -> Option<u32>
    requires { length marks.now ≤ 1048576 }
    ensures some { IfSome result (λ b. (from ≤ b) × (is_marked marks.now b ≡ true)) }
    ensures first { IfSome result (λ b. (c : ℕ) → from ≤ c → c < b → is_marked marks.now c ≡ false) }
    ensures none { IfNone result ((c : ℕ) → from ≤ c → is_marked marks.now c ≡ false) }
{
    for block in from..marks.len() as u32 {
        if marks[block as usize] {
            return Some(block);
        }
    }
    None
}

impl<S: InPhase, R: Rack> Volume<S, R> {
    /// What a block belongs to.
    pub fn who(&self, block: u32) -> WhoAnswer
        requires { IsWell S.InPhase R.Rack self.now }
        ensures { StepsTo S.InPhase S.InPhase R.Rack self.now (Event.Who block) (who_reply result) self.now }
    {
        if block >= self.store.shape().n {
            return WhoAnswer::Range;
        }
        match self.phase.inference() {
            Some(inference) => WhoAnswer::Is(inference.who(self.store.written(block), block)),
            None => WhoAnswer::Unavailable,
        }
    }

    /// The first pending block from one on.
    pub fn next_pending(&self, from: u32) -> Option<u32>
        requires { IsWell S.InPhase R.Rack self.now }
        ensures some { IfSome result (λ b. (from ≤ b) × (is_marked (marks_of S.InPhase self.now) b ≡ true)) }
        ensures first { IfSome result (λ b. (c : ℕ) → from ≤ c → c < b → is_marked (marks_of S.InPhase self.now) c ≡ false) }
        ensures none { IfNone result ((c : ℕ) → from ≤ c → is_marked (marks_of S.InPhase self.now) c ≡ false) }
    {
        match self.phase.inference() {
            Some(inference) => inference.next_pending(from),
            None => first_mark(&self.pending, from),
        }
    }

    /// A boundary in use, by its number in the first line. Its own number is its place among those in use, and so its members are told.
    pub fn boundary(&self, boundary: u8) -> &Boundary
        requires well { IsWell S.InPhase R.Rack self.now }
        requires in_use { place_in (live_of self.now) boundary < length (live_of self.now) }
        ensures well { IsWellBoundary result.now }
        ensures number { number_of result.now ≡ place_in (live_of self.now) boundary }
        ensures members { (q : ℕ) → q / 2 ≡ place_in (live_of self.now) boundary → boundary_members result.now q ≡ members_of self.now q }
        ensures filled { (q have : ℕ) → q / 2 ≡ place_in (live_of self.now) boundary → members_of self.now q ≡ MemberState.Filling have
            → have ≤ (shape_of self.now).k + 1 }
    {
        self.store.boundary(self.in_use.place_of(boundary))
    }

    /// How many slots of a boundary in use are used, by its number in the first line.
    pub fn used(&self, boundary: u8) -> u32
        requires well { IsWell S.InPhase R.Rack self.now }
        requires in_use { place_in (live_of self.now) boundary < length (live_of self.now) }
        ensures { result ≡ used_in (table_of self.now) (place_in (live_of self.now) boundary) }
    {
        self.store.map().used(self.in_use.place_of(boundary))
    }

    /// The boundaries in use, ascending, by their numbers in the first line.
    pub fn live(&self) -> &[u8]
        ensures { result.now ≡ live_of self.now }
    {
        &self.in_use.live
    }

    /// Boundaries of the first line.
    pub fn boundaries(&self) -> u8
        ensures { result ≡ self.now.in_use.boundaries }
    {
        self.in_use.boundaries
    }

    /// Whether a boundary of the first line isn't in use.
    pub fn is_reduced(&self) -> bool
        ensures { (result ≡ true) ↔ (length (live_of self.now) < self.now.in_use.boundaries) }
    {
        self.in_use.live.len() < self.in_use.boundaries as usize
    }

    /// The numbers of the array, with as many boundaries as are in use.
    pub fn shape(&self) -> &Shape
        ensures { result.now ≡ shape_of self.now }
    {
        self.store.shape()
    }

    /// The lost boundaries, by their places among those in use: bit s for the one at place s.
    pub fn lost(&self) -> u16
        requires { IsWell S.InPhase R.Rack self.now }
        ensures { result ≡ lost_bits (members_of self.now) (shape_of self.now).b }
    {
        self.store.lost()
    }
}
