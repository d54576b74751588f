// A boundary, and the calls on it.
ghost use Rattle.std.specs.Prelude.{◌≡◌, ◌≢◌, ◌⊎◌, ◌↔◌, ◌+◌, ◌*◌, ◌/◌, ◌≤◌, ◌<◌, ◌∷◌, [], ℕ, List, length, true, false, IsSome, IfSome, Option, if◌then◌else◌};
ghost use Rattle.dg_model.specs.Causes.{Rose};
ghost use Rattle.dg_model.specs.Members.{is_filling, is_lost, serves, place_of, SlotHolds, IsStruck};
ghost use Rattle.dg_io.specs.Told.{Told, IsSame, IsZeros, Patched, Torn, FitsIn, Extended, KeepsFront, OthersSame, IsHeader, OldOrNew};
ghost use Rattle.dg_io.specs.RackCalls.{RackCall};
ghost use Rattle.dg_io.specs.RackWords.{MadeOnly};
ghost use Rattle.dg_io.specs.Faults.{OnlyMember};
ghost use Rattle.dg_pair.specs.Boundaries.{members_of, number_of, size_of, slots_of, IsWell, MembersFit, MembersStand, goods_in, servers_in, unfilled, raised, completed, IsFilling, HasNext};
ghost use Rattle.dg_pair.specs.Kept.{BlanksBy, KeepsNothing};
ghost use Rattle.dg_pair.specs.Calls.{BlanksPair, ExtendsPair, IsPair, KeepsPair, LeavesBoundary, LeavesPair, IsBlankAt, IsBlankOf, IsCallOf, IsExtendOf, KeepsBeside, begun, replaced, copied};

use crate::changes::{extend_any, fail_any, note_any};
use crate::reads::read_any;
use crate::refills::{complete_any, copy_any, pass_any, replace_any};
use crate::writes::write_any;
use crate::{Filling, Good, GoodCall, Member, Out};
use dg_io::Rack;
use dg_model::MemberState;
use std::mem;

/// Two members that hold the same slots, by which of them serve.
#[derive(Drop)]
pub enum Boundary {
    /// Both serve.
    Both(Member<Good>, Member<Good>),
    /// One serves, and the other is out.
    Half(Member<Good>, Member<Out>),
    /// One serves, and the other is being refilled from it.
    Fill(Member<Good>, Member<Filling>),
    /// Both are out.
    Lost(Member<Out>, Member<Out>),
}

/// The answer to a read of a slot.
#[derive(Clone, Copy, Debug, PartialEq, Eq)]
pub enum PairRead {
    /// The buffer has the bytes of the slot.
    Got,
    /// No member is good.
    Lost,
}

/// The answer to a write of a slot.
#[derive(Clone, Copy, Debug, PartialEq, Eq)]
pub enum PairWrite {
    /// The slot has these bytes.
    Kept,
    /// No member is good.
    Lost,
}

/// The answer to the failure of a member.
#[derive(Clone, Copy, Debug, PartialEq, Eq)]
pub enum FailAnswer {
    /// The member is out now.
    Taken,
    /// It was out.
    Already,
}

/// The answer to the replacement of a member.
#[derive(Clone, Copy, Debug, PartialEq, Eq)]
pub enum ReplaceAnswer {
    /// The member is being refilled now, from slot 0 on.
    Replaced,
    /// No member is good.
    Lost,
    /// The member isn't out.
    NotOut,
    /// The member couldn't be made anew, and stays out.
    Failed,
}

/// The answer to the copy of a slot.
#[derive(Clone, Copy, Debug, PartialEq, Eq)]
pub enum CopyAnswer {
    /// The member that is being refilled has the slot.
    Copied,
    /// No member is good.
    Lost,
    /// The member that was being refilled is out.
    Fell,
}

/// The answer to a note beside the slots.
#[derive(Clone, Copy, Debug, PartialEq, Eq)]
pub enum NoteAnswer {
    /// The bytes stand there.
    Noted,
    /// The member isn't good, and wasn't called.
    NotGood,
    /// The member fell.
    Fell,
}

/// The answer to an extension of a member.
#[derive(Clone, Copy, Debug, PartialEq, Eq)]
pub enum ExtendAnswer {
    /// The member is so long.
    Extended,
    /// The member isn't good, and wasn't called.
    NotGood,
    /// The member fell.
    Fell,
}

// What stands in the place of a boundary while it is worked on.
fn hollow() -> Boundary {
    Boundary::Lost(Member::hollow(), Member::hollow())
}

impl Boundary {
    /// What side `side` (0 or 1) of the boundary does.
    pub fn member(&self, side: u8) -> MemberState
        requires well { IsWell self.now }
        requires side { side < 2 }
        ensures { result ≡ members_of self.now (2 * number_of self.now + side) }
    {
        match self {
            Boundary::Both(_, _) => MemberState::Good,
            Boundary::Half(a, _) if a.side() == side => MemberState::Good,
            Boundary::Fill(a, _) if a.side() == side => MemberState::Good,
            Boundary::Fill(_, b) => MemberState::Filling(b.state.have),
            _ => MemberState::Out,
        }
    }

    /// Whether no member is good.
    pub fn is_lost(&self) -> bool
        ensures { result ≡ is_lost (members_of self.now) (number_of self.now) }
    {
        matches!(self, Boundary::Lost(_, _))
    }

    /// Makes boundary `number` of two members, each blanked to `size` bytes: first member `2 * number`, then the other.
    /// A member whose blank fails is out. A member has `slots` slots of `l` bytes.
    pub fn new<R: Rack>(rack: &mut R, number: u8, l: u32, slots: u32, size: u64) -> Boundary
        requires number { number < 128 }
        requires size { 512 + slots * l ≤ size }
        ensures leaves { LeavesBoundary R.Rack (IsBlankAt number) number l slots (begun number) result rack.old rack.new }
        ensures made { R.made rack.old (RackCall.blanks (2 * number) ∷ RackCall.blanks (2 * number + 1) ∷ []) rack.new }
        ensures keeps { KeepsNothing R.keeps rack.old rack.new }
        ensures blank { (q : ℕ) → members_of result q ≡ MemberState.Good → Told (IsZeros size) (R.bytes rack.old q) (R.bytes rack.new q) }
        ensures most { (R.counts rack.new).calls ≤ (R.counts rack.old).calls + 2 }
        ensures most_writes { (R.counts rack.new).writes ≤ (R.counts rack.old).writes + 2 }
    {
        let first = Member::blank(rack, 2 * number, l, slots, size);
        let second = Member::blank(rack, 2 * number + 1, l, slots, size);
        match (first, second) {
            (GoodCall::Done(a), GoodCall::Done(b)) => Boundary::Both(a, b),
            (GoodCall::Done(a), GoodCall::Fell(b)) => Boundary::Half(a, b),
            (GoodCall::Fell(a), GoodCall::Done(b)) => Boundary::Half(b, a),
            (GoodCall::Fell(a), GoodCall::Fell(b)) => Boundary::Lost(a, b),
        }
    }

    /// Reads a slot from a good member. A member whose call fails is out, and one that was being refilled from it is too.
    pub fn read<R: Rack>(&mut self, rack: &mut R, slot: u32, buf: &mut [u8]) -> PairRead
        requires well { IsWell self.old }
        requires size { length buf.old ≡ size_of self.old }
        requires slot { slot < slots_of self.old }
        requires room { MembersFit (size_of self.old) (slots_of self.old) (members_of self.old) (R.bytes rack.old) }
        requires stand { MembersStand (members_of self.old) (R.stands rack.old) }
        ensures leaves { LeavesPair R.Rack (members_of self.old) self.old self.new rack.old rack.new }
        ensures made { MadeOnly R.Rack (IsCallOf (members_of self.old)) rack.old rack.new }
        ensures lost { (result ≡ PairRead.Lost) ↔ (is_lost (members_of self.new) (number_of self.old) ≡ true) }
        ensures out { result ≡ PairRead.Lost → (q : ℕ) → members_of self.new q ≡ MemberState.Out }
        ensures got { result ≡ PairRead.Got
            → (v : List ℕ) → SlotHolds (size_of self.old) (members_of self.old) (R.bytes rack.old) (number_of self.old) slot v
            → ((q : ℕ) → members_of self.new q ≡ MemberState.Good → IsSome (R.bytes rack.new q)) → buf.new ≡ v }
        ensures kept { (x : ℕ) (v : List ℕ)
            → SlotHolds (size_of self.old) (members_of self.old) (R.bytes rack.old) (number_of self.old) x v
            → SlotHolds (size_of self.old) (members_of self.new) (R.bytes rack.new) (number_of self.old) x v }
        ensures same { (q : ℕ) → Told IsSame (R.bytes rack.old q) (R.bytes rack.new q) }
        ensures beside { KeepsBeside (size_of self.old) (slots_of self.old) (R.bytes rack.old) (R.bytes rack.new) }
        ensures uncalled { (q : ℕ) → members_of self.old q ≢ MemberState.Good → (R.counts rack.new).faults q ≡ (R.counts rack.old).faults q }
        ensures called { result ≡ PairRead.Got → Rose (R.counts rack.old).calls (R.counts rack.new).calls }
        ensures most { (R.counts rack.new).calls ≤ (R.counts rack.old).calls + goods_in (members_of self.old) (number_of self.old) }
        ensures once { goods_in (members_of self.new) (number_of self.old) ≡ goods_in (members_of self.old) (number_of self.old)
            → (R.counts rack.new).calls ≤ (R.counts rack.old).calls + 1 }
        ensures writes { (R.counts rack.new).writes ≡ (R.counts rack.old).writes }
    {
        let (next, answer) = read_any(mem::replace(self, hollow()), rack, slot, buf);
        *self = next;
        answer
    }

    /// Writes a slot of each member that serves it. A member whose call fails is out, and one that was being refilled from
    /// it is too.
    pub fn write<R: Rack>(&mut self, rack: &mut R, slot: u32, buf: &[u8]) -> PairWrite
        requires well { IsWell self.old }
        requires size { length buf.now ≡ size_of self.old }
        requires slot { slot < slots_of self.old }
        requires room { MembersFit (size_of self.old) (slots_of self.old) (members_of self.old) (R.bytes rack.old) }
        requires stand { MembersStand (members_of self.old) (R.stands rack.old) }
        ensures leaves { LeavesPair R.Rack (members_of self.old) self.old self.new rack.old rack.new }
        ensures made { MadeOnly R.Rack (IsCallOf (members_of self.old)) rack.old rack.new }
        ensures lost { (result ≡ PairWrite.Lost) ↔ (is_lost (members_of self.new) (number_of self.old) ≡ true) }
        ensures out { result ≡ PairWrite.Lost → (q : ℕ) → members_of self.new q ≡ MemberState.Out }
        ensures put { SlotHolds (size_of self.old) (members_of self.new) (R.bytes rack.new) (number_of self.old) slot buf.now }
        ensures kept_others { (x : ℕ) (v : List ℕ) → x ≢ slot
            → SlotHolds (size_of self.old) (members_of self.old) (R.bytes rack.old) (number_of self.old) x v
            → SlotHolds (size_of self.old) (members_of self.new) (R.bytes rack.new) (number_of self.old) x v }
        ensures torn { (q : ℕ) → Told (Torn (place_of (size_of self.old) slot) (size_of self.old)) (R.bytes rack.old q) (R.bytes rack.new q) }
        ensures beside { KeepsBeside (size_of self.old) (slots_of self.old) (R.bytes rack.old) (R.bytes rack.new) }
        ensures untaken { (q : ℕ) → serves (members_of self.old q) slot ≡ false → Told IsSame (R.bytes rack.old q) (R.bytes rack.new q) }
        ensures uncalled { (q : ℕ) → serves (members_of self.old q) slot ≡ false → (R.counts rack.new).faults q ≡ (R.counts rack.old).faults q }
        ensures called { result ≡ PairWrite.Kept → Rose (R.counts rack.old).writes (R.counts rack.new).writes }
        ensures most { (R.counts rack.new).calls ≤ (R.counts rack.old).calls + servers_in (members_of self.old) (number_of self.old) slot }
        ensures most_writes { (R.counts rack.new).writes ≤ (R.counts rack.old).writes + servers_in (members_of self.old) (number_of self.old) slot }
    {
        let (next, answer) = write_any(mem::replace(self, hollow()), rack, slot, buf);
        *self = next;
        answer
    }

    /// The boundary of members that were made before: each is good where its mark is true, else out.
    pub fn opened(number: u8, l: u32, slots: u32, good: (bool, bool)) -> Boundary
        requires { number < 128 }
        ensures pair { IsPair number l slots result }
        ensures first { members_of result (2 * number) ≡ (if good.0 then MemberState.Good else MemberState.Out) }
        ensures second { members_of result (2 * number + 1) ≡ (if good.1 then MemberState.Good else MemberState.Out) }
    {
        let a = Member::new(2 * number, l, slots, Good);
        let b = Member::new(2 * number + 1, l, slots, Good);
        match good {
            (true, true) => Boundary::Both(a, b),
            (true, false) => Boundary::Half(a, b.fail()),
            (false, true) => Boundary::Half(b, a.fail()),
            (false, false) => Boundary::Lost(a.fail(), b.fail()),
        }
    }

    /// The member of a side (0 or 1) fails: it is out, and one that was being refilled from it is too.
    pub fn fail(&mut self, side: u8) -> FailAnswer
        requires well { IsWell self.old }
        requires side { side < 2 }
        ensures keeps { KeepsPair self.old self.new }
        ensures already { (result ≡ FailAnswer.Already) ↔ (members_of self.old (2 * number_of self.old + side) ≡ MemberState.Out) }
        ensures out { members_of self.new (2 * number_of self.old + side) ≡ MemberState.Out }
        ensures others { (q : ℕ) → q ≢ (2 * number_of self.old + side) → members_of self.new q ≡ unfilled (members_of self.old q) }
        ensures struck { IsStruck (2 * number_of self.old + side) (members_of self.old) (members_of self.new) }
        ensures out_stays { (q : ℕ) → members_of self.old q ≡ MemberState.Out → members_of self.new q ≡ MemberState.Out }
        ensures kept { (bytes : ℕ → Option (List ℕ)) (x : ℕ) (v : List ℕ)
            → SlotHolds (size_of self.old) (members_of self.old) bytes (number_of self.old) x v
            → SlotHolds (size_of self.old) (members_of self.new) bytes (number_of self.old) x v }
        ensures room { (bytes : ℕ → Option (List ℕ))
            → MembersFit (size_of self.old) (slots_of self.old) (members_of self.old) bytes
            → MembersFit (size_of self.old) (slots_of self.old) (members_of self.new) bytes }
    {
        let (next, answer) = fail_any(mem::replace(self, hollow()), side);
        *self = next;
        answer
    }

    /// Makes the member of a side anew, of `size` zero bytes, where it is out and the other serves. It is then refilled
    /// from slot 0 on.
    pub fn replace<R: Rack>(&mut self, rack: &mut R, side: u8, size: u64) -> ReplaceAnswer
        requires well { IsWell self.old }
        requires side { side < 2 }
        requires size { 512 + slots_of self.old * size_of self.old ≤ size }
        requires room { MembersFit (size_of self.old) (slots_of self.old) (members_of self.old) (R.bytes rack.old) }
        requires stand { MembersStand (members_of self.old) (R.stands rack.old) }
        ensures leaves { BlanksPair R.Rack (replaced result (2 * number_of self.old + side) (members_of self.old)) self.old self.new rack.old rack.new }
        ensures made { MadeOnly R.Rack (IsBlankOf (2 * number_of self.old + side)) rack.old rack.new }
        ensures keeps { BlanksBy R.Rack (2 * number_of self.old + side) result rack.old rack.new }
        ensures lost { (result ≡ ReplaceAnswer.Lost) ↔ (is_lost (members_of self.old) (number_of self.old) ≡ true) }
        ensures not_out { (result ≡ ReplaceAnswer.NotOut) ↔ (members_of self.old (2 * number_of self.old + side) ≢ MemberState.Out) }
        ensures failed { result ≡ ReplaceAnswer.Failed
            → Rose ((R.counts rack.old).faults (2 * number_of self.old + side)) ((R.counts rack.new).faults (2 * number_of self.old + side)) }
        ensures members { (q : ℕ) → members_of self.new q ≡ replaced result (2 * number_of self.old + side) (members_of self.old) q }
        ensures kept { (x : ℕ) (v : List ℕ)
            → SlotHolds (size_of self.old) (members_of self.old) (R.bytes rack.old) (number_of self.old) x v
            → SlotHolds (size_of self.old) (members_of self.new) (R.bytes rack.new) (number_of self.old) x v }
        ensures blank { result ≡ ReplaceAnswer.Replaced
            → Told (IsZeros size) (R.bytes rack.old (2 * number_of self.old + side)) (R.bytes rack.new (2 * number_of self.old + side)) }
        ensures other_members { OthersSame (2 * number_of self.old + side) (R.bytes rack.old) (R.bytes rack.new) }
        ensures only_faults { OnlyMember (2 * number_of self.old + side) (R.counts rack.old).faults (R.counts rack.new).faults }
        ensures called { result ≡ ReplaceAnswer.Replaced → Rose (R.counts rack.old).writes (R.counts rack.new).writes }
        ensures most { (R.counts rack.new).calls ≤ (R.counts rack.old).calls + 1 }
        ensures most_writes { (R.counts rack.new).writes ≤ (R.counts rack.old).writes + 1 }
        ensures quiet { (result ≡ ReplaceAnswer.Lost) ⊎ (result ≡ ReplaceAnswer.NotOut) → rack.new ≡ rack.old }
    {
        let (next, answer) = replace_any(mem::replace(self, hollow()), rack, side, size);
        *self = next;
        answer
    }

    /// Copies the next slot from the good member to the one that is being refilled, through the buffer.
    pub fn copy_slot<R: Rack>(&mut self, rack: &mut R, buf: &mut [u8]) -> CopyAnswer
        requires well { IsWell self.old }
        requires next { HasNext (members_of self.old) (slots_of self.old) }
        requires size { length buf.old ≡ size_of self.old }
        requires room { MembersFit (size_of self.old) (slots_of self.old) (members_of self.old) (R.bytes rack.old) }
        requires stand { MembersStand (members_of self.old) (R.stands rack.old) }
        ensures leaves { LeavesPair R.Rack (copied result (members_of self.old)) self.old self.new rack.old rack.new }
        ensures made { MadeOnly R.Rack (IsCallOf (members_of self.old)) rack.old rack.new }
        ensures lost { (result ≡ CopyAnswer.Lost) ↔ (is_lost (members_of self.new) (number_of self.old) ≡ true) }
        ensures copied { result ≡ CopyAnswer.Copied → (q : ℕ) → members_of self.new q ≡ raised (members_of self.old q) }
        ensures fell { result ≡ CopyAnswer.Fell → (q : ℕ) → members_of self.new q ≡ unfilled (members_of self.old q) }
        ensures out { result ≡ CopyAnswer.Lost → (q : ℕ) → members_of self.new q ≡ MemberState.Out }
        ensures good_fell { result ≡ CopyAnswer.Lost → (q : ℕ) → members_of self.old q ≡ MemberState.Good
            → Rose ((R.counts rack.old).faults q) ((R.counts rack.new).faults q) }
        ensures filling_fell { result ≡ CopyAnswer.Fell → (q : ℕ) → is_filling (members_of self.old q) ≡ true
            → Rose ((R.counts rack.old).faults q) ((R.counts rack.new).faults q) }
        ensures moved { result ≡ CopyAnswer.Copied → (x : ℕ) (v : List ℕ) → IsFilling (members_of self.old) x
            → ((q : ℕ) → members_of self.old q ≡ MemberState.Good → IsSome (R.bytes rack.new q))
            → SlotHolds (size_of self.old) (members_of self.old) (R.bytes rack.old) (number_of self.old) x v
            → SlotHolds (size_of self.old) (members_of self.new) (R.bytes rack.new) (number_of self.old) x v }
        ensures kept { (x : ℕ) (v : List ℕ) → (result ≡ CopyAnswer.Copied → ¬ IsFilling (members_of self.old) x)
            → SlotHolds (size_of self.old) (members_of self.old) (R.bytes rack.old) (number_of self.old) x v
            → SlotHolds (size_of self.old) (members_of self.new) (R.bytes rack.new) (number_of self.old) x v }
        ensures torn { (q x : ℕ) → IsFilling (members_of self.old) x
            → Told (Torn (place_of (size_of self.old) x) (size_of self.old)) (R.bytes rack.old q) (R.bytes rack.new q) }
        ensures beside { KeepsBeside (size_of self.old) (slots_of self.old) (R.bytes rack.old) (R.bytes rack.new) }
        ensures only_filling { (q : ℕ) → is_filling (members_of self.old q) ≡ false → Told IsSame (R.bytes rack.old q) (R.bytes rack.new q) }
        ensures uncalled { (q : ℕ) → members_of self.old q ≡ MemberState.Out → (R.counts rack.new).faults q ≡ (R.counts rack.old).faults q }
        ensures called { result ≡ CopyAnswer.Copied → Rose (R.counts rack.old).writes (R.counts rack.new).writes }
        ensures most { (R.counts rack.new).calls ≤ (R.counts rack.old).calls + 2 }
        ensures most_writes { (R.counts rack.new).writes ≤ (R.counts rack.old).writes + 1 }
    {
        let (next, answer) = copy_any(mem::replace(self, hollow()), rack, buf);
        *self = next;
        answer
    }

    /// Passes the next slot without a copy. What the member that is being refilled has there is unknown.
    pub fn pass_slot(&mut self)
        requires well { IsWell self.old }
        requires next { HasNext (members_of self.old) (slots_of self.old) }
        ensures keeps { KeepsPair self.old self.new }
        ensures raised { (q : ℕ) → members_of self.new q ≡ raised (members_of self.old q) }
        ensures kept { (bytes : ℕ → Option (List ℕ)) (x : ℕ) (v : List ℕ) → ¬ IsFilling (members_of self.old) x
            → SlotHolds (size_of self.old) (members_of self.old) bytes (number_of self.old) x v
            → SlotHolds (size_of self.old) (members_of self.new) bytes (number_of self.old) x v }
        ensures out_stays { (q : ℕ) → members_of self.old q ≡ MemberState.Out → members_of self.new q ≡ MemberState.Out }
        ensures room { (bytes : ℕ → Option (List ℕ))
            → MembersFit (size_of self.old) (slots_of self.old) (members_of self.old) bytes
            → MembersFit (size_of self.old) (slots_of self.old) (members_of self.new) bytes }
    {
        *self = pass_any(mem::replace(self, hollow()));
    }

    /// The member that is being refilled serves, once each slot was copied or passed.
    pub fn complete(&mut self)
        requires well { IsWell self.old }
        requires full { IsFilling (members_of self.old) (slots_of self.old) }
        ensures keeps { KeepsPair self.old self.new }
        ensures completed { (q : ℕ) → members_of self.new q ≡ completed (members_of self.old q) }
        ensures kept { (bytes : ℕ → Option (List ℕ)) (x : ℕ) (v : List ℕ) → x < slots_of self.old
            → SlotHolds (size_of self.old) (members_of self.old) bytes (number_of self.old) x v
            → SlotHolds (size_of self.old) (members_of self.new) bytes (number_of self.old) x v }
        ensures out_stays { (q : ℕ) → members_of self.old q ≡ MemberState.Out → members_of self.new q ≡ MemberState.Out }
        ensures room { (bytes : ℕ → Option (List ℕ))
            → MembersFit (size_of self.old) (slots_of self.old) (members_of self.old) bytes
            → MembersFit (size_of self.old) (slots_of self.old) (members_of self.new) bytes }
    {
        *self = complete_any(mem::replace(self, hollow()));
    }

    /// Writes beside the slots of the member of a side: in the 512 bytes before them, or behind them.
    pub fn note<R: Rack>(&mut self, rack: &mut R, side: u8, place: u64, buf: &[u8]) -> NoteAnswer
        requires well { IsWell self.old }
        requires side { side < 2 }
        requires beside { (place + length buf.now ≤ 512) ⊎ (place_of (size_of self.old) (slots_of self.old) ≤ place) }
        requires fits { members_of self.old (2 * number_of self.old + side) ≡ MemberState.Good
            → IfSome (R.bytes rack.old (2 * number_of self.old + side)) (λ all. place + length buf.now ≤ length all) }
        requires room { MembersFit (size_of self.old) (slots_of self.old) (members_of self.old) (R.bytes rack.old) }
        requires stand { MembersStand (members_of self.old) (R.stands rack.old) }
        ensures leaves { LeavesPair R.Rack (members_of self.old) self.old self.new rack.old rack.new }
        ensures made { MadeOnly R.Rack (IsCallOf (members_of self.old)) rack.old rack.new }
        ensures not_good { (result ≡ NoteAnswer.NotGood) ↔ (members_of self.old (2 * number_of self.old + side) ≢ MemberState.Good) }
        ensures stays { result ≢ NoteAnswer.Fell → (q : ℕ) → members_of self.new q ≡ members_of self.old q }
        ensures out { result ≡ NoteAnswer.Fell → members_of self.new (2 * number_of self.old + side) ≡ MemberState.Out }
        ensures others { result ≡ NoteAnswer.Fell → (q : ℕ) → q ≢ (2 * number_of self.old + side)
            → members_of self.new q ≡ unfilled (members_of self.old q) }
        ensures fell { result ≡ NoteAnswer.Fell
            → Rose ((R.counts rack.old).faults (2 * number_of self.old + side)) ((R.counts rack.new).faults (2 * number_of self.old + side)) }
        ensures noted { result ≡ NoteAnswer.Noted
            → Told (Patched place buf.now) (R.bytes rack.old (2 * number_of self.old + side)) (R.bytes rack.new (2 * number_of self.old + side)) }
        ensures torn { result ≡ NoteAnswer.Fell
            → Told (Torn place (length buf.now)) (R.bytes rack.old (2 * number_of self.old + side)) (R.bytes rack.new (2 * number_of self.old + side)) }
        ensures whole { result ≡ NoteAnswer.Fell → R.steady rack.old → IsHeader place buf.now
            → Told (OldOrNew place buf.now) (R.bytes rack.old (2 * number_of self.old + side)) (R.bytes rack.new (2 * number_of self.old + side)) }
        ensures kept { (x : ℕ) (v : List ℕ) → x < slots_of self.old
            → SlotHolds (size_of self.old) (members_of self.old) (R.bytes rack.old) (number_of self.old) x v
            → SlotHolds (size_of self.old) (members_of self.new) (R.bytes rack.new) (number_of self.old) x v }
        ensures other_members { OthersSame (2 * number_of self.old + side) (R.bytes rack.old) (R.bytes rack.new) }
        ensures only_faults { OnlyMember (2 * number_of self.old + side) (R.counts rack.old).faults (R.counts rack.new).faults }
        ensures called { result ≡ NoteAnswer.Noted → Rose (R.counts rack.old).writes (R.counts rack.new).writes }
        ensures tried { result ≡ NoteAnswer.Fell → Rose (R.counts rack.old).writes (R.counts rack.new).writes }
        ensures most { (R.counts rack.new).calls ≤ (R.counts rack.old).calls + 1 }
        ensures most_writes { (R.counts rack.new).writes ≤ (R.counts rack.old).writes + 1 }
        ensures quiet { result ≡ NoteAnswer.NotGood → rack.new ≡ rack.old }
    {
        let (next, answer) = note_any(mem::replace(self, hollow()), rack, side, place, buf);
        *self = next;
        answer
    }

    /// Makes the member of a side so many bytes long, where it is good, with zeros at its end. It isn't longer before.
    pub fn extend<R: Rack>(&mut self, rack: &mut R, side: u8, length: u64) -> ExtendAnswer
        requires well { IsWell self.old }
        requires side { side < 2 }
        requires longer { members_of self.old (2 * number_of self.old + side) ≡ MemberState.Good
            → IfSome (R.bytes rack.old (2 * number_of self.old + side)) (FitsIn length) }
        requires room { MembersFit (size_of self.old) (slots_of self.old) (members_of self.old) (R.bytes rack.old) }
        requires stand { MembersStand (members_of self.old) (R.stands rack.old) }
        ensures leaves { ExtendsPair R.Rack (members_of self.old) self.old self.new rack.old rack.new }
        ensures made { MadeOnly R.Rack (IsExtendOf (members_of self.old)) rack.old rack.new }
        ensures not_good { (result ≡ ExtendAnswer.NotGood) ↔ (members_of self.old (2 * number_of self.old + side) ≢ MemberState.Good) }
        ensures stays { result ≢ ExtendAnswer.Fell → (q : ℕ) → members_of self.new q ≡ members_of self.old q }
        ensures out { result ≡ ExtendAnswer.Fell → members_of self.new (2 * number_of self.old + side) ≡ MemberState.Out }
        ensures others { result ≡ ExtendAnswer.Fell → (q : ℕ) → q ≢ (2 * number_of self.old + side)
            → members_of self.new q ≡ unfilled (members_of self.old q) }
        ensures fell { result ≡ ExtendAnswer.Fell
            → Rose ((R.counts rack.old).faults (2 * number_of self.old + side)) ((R.counts rack.new).faults (2 * number_of self.old + side)) }
        ensures extended { result ≡ ExtendAnswer.Extended
            → Told (Extended length) (R.bytes rack.old (2 * number_of self.old + side)) (R.bytes rack.new (2 * number_of self.old + side)) }
        ensures torn { result ≡ ExtendAnswer.Fell
            → Told KeepsFront (R.bytes rack.old (2 * number_of self.old + side)) (R.bytes rack.new (2 * number_of self.old + side)) }
        ensures kept { (x : ℕ) (v : List ℕ) → x < slots_of self.old
            → SlotHolds (size_of self.old) (members_of self.old) (R.bytes rack.old) (number_of self.old) x v
            → SlotHolds (size_of self.old) (members_of self.new) (R.bytes rack.new) (number_of self.old) x v }
        ensures other_members { OthersSame (2 * number_of self.old + side) (R.bytes rack.old) (R.bytes rack.new) }
        ensures only_faults { OnlyMember (2 * number_of self.old + side) (R.counts rack.old).faults (R.counts rack.new).faults }
        ensures called { result ≡ ExtendAnswer.Extended → Rose (R.counts rack.old).writes (R.counts rack.new).writes }
        ensures tried { result ≡ ExtendAnswer.Fell → Rose (R.counts rack.old).writes (R.counts rack.new).writes }
        ensures most { (R.counts rack.new).calls ≤ (R.counts rack.old).calls + 1 }
        ensures most_writes { (R.counts rack.new).writes ≤ (R.counts rack.old).writes + 1 }
        ensures quiet { result ≡ ExtendAnswer.NotGood → rack.new ≡ rack.old }
    {
        let (next, answer) = extend_any(mem::replace(self, hollow()), rack, side, length);
        *self = next;
        answer
    }
}
