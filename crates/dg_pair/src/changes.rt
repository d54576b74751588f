// What puts members out, or changes one beside its slots, by the case that a boundary is in.
ghost use Rattle.std.specs.Prelude.{◌≡◌, ◌≢◌, ◌↔◌, ◌+◌, ◌*◌, ◌≤◌, ◌<◌, ◌∷◌, [], ℕ, length, IfSome};
ghost use Rattle.dg_model.specs.Causes.{Rose};
ghost use Rattle.dg_model.specs.Members.{MembersFall};
ghost use Rattle.dg_io.specs.Told.{Told, Patched, Torn, FitsIn, Extended, KeepsFront, OthersSame, IsHeader, OldOrNew};
ghost use Rattle.dg_io.specs.RackCalls.{RackCall};
ghost use Rattle.dg_io.specs.Faults.{OnlyMember};
ghost use Rattle.dg_pair.specs.Boundaries.{members_of, number_of, size_of, slots_of, IsWell, unfilled};
ghost use Rattle.dg_pair.specs.Cases.{Stand, LeavesCase};

use crate::boundaries::{Boundary, ExtendAnswer, FailAnswer, NoteAnswer};
use crate::{Good, GoodCall, Member, Out};
use dg_io::Rack;
use dg_model::MemberState;

// The member of a side goes out.
pub fn fail_any(boundary: Boundary, side: u8) -> (Boundary, FailAnswer)
    requires well { IsWell boundary }
    requires side { side < 2 }
    ensures well { IsWell result.0 }
    ensures number { number_of result.0 ≡ number_of boundary }
    ensures size { size_of result.0 ≡ size_of boundary }
    ensures slots { slots_of result.0 ≡ slots_of boundary }
    ensures already { (result.1 ≡ FailAnswer.Already) ↔ (members_of boundary (2 * number_of boundary + side) ≡ MemberState.Out) }
    ensures out { members_of result.0 (2 * number_of boundary + side) ≡ MemberState.Out }
    ensures others { (q : ℕ) → q ≢ (2 * number_of boundary + side) → members_of result.0 q ≡ unfilled (members_of boundary q) }
{
    match boundary {
        Boundary::Both(a, b) if a.side() == side => (
            Boundary::Half(b, a.fail()),
            FailAnswer::Taken,
        ),
        Boundary::Both(a, b) => (Boundary::Half(a, b.fail()), FailAnswer::Taken),
        Boundary::Half(a, b) if a.side() == side => (
            Boundary::Lost(a.fail(), b),
            FailAnswer::Taken,
        ),
        Boundary::Half(a, b) => (Boundary::Half(a, b), FailAnswer::Already),
        Boundary::Fill(a, b) if a.side() == side => (
            Boundary::Lost(a.fail(), b.fail()),
            FailAnswer::Taken,
        ),
        Boundary::Fill(a, b) => (Boundary::Half(a, b.fail()), FailAnswer::Taken),
        Boundary::Lost(a, b) => (Boundary::Lost(a, b), FailAnswer::Already),
    }
}

// A write beside the slots, to the member of a side where that is good.
pub fn note_any<R: Rack>(
    boundary: Boundary,
    rack: &mut R,
    side: u8,
    place: u64,
    buf: &[u8],
) -> (Boundary, NoteAnswer)
    requires well { IsWell boundary }
    requires side { side < 2 }
    requires fits { members_of boundary (2 * number_of boundary + side) ≡ MemberState.Good
        → IfSome (R.bytes rack.old (2 * number_of boundary + side)) (λ all. place + length buf.now ≤ length all) }
    requires stand { Stand boundary (R.stands rack.old) }
    ensures leaves { LeavesCase R.Rack boundary result.0 rack.old rack.new }
    ensures made { result.1 ≢ NoteAnswer.NotGood → R.made rack.old (RackCall.calls (2 * number_of boundary + side) ∷ []) rack.new }
    ensures not_good { (result.1 ≡ NoteAnswer.NotGood) ↔ (members_of boundary (2 * number_of boundary + side) ≢ MemberState.Good) }
    ensures stays { result.1 ≢ NoteAnswer.Fell → (q : ℕ) → members_of result.0 q ≡ members_of boundary q }
    ensures out { result.1 ≡ NoteAnswer.Fell → members_of result.0 (2 * number_of boundary + side) ≡ MemberState.Out }
    ensures others { result.1 ≡ NoteAnswer.Fell → (q : ℕ) → q ≢ (2 * number_of boundary + side)
        → members_of result.0 q ≡ unfilled (members_of boundary q) }
    ensures fell { result.1 ≡ NoteAnswer.Fell
        → Rose ((R.counts rack.old).faults (2 * number_of boundary + side)) ((R.counts rack.new).faults (2 * number_of boundary + side)) }
    ensures falls { MembersFall (R.counts rack.old).faults (R.counts rack.new).faults (members_of boundary) (members_of result.0) }
    ensures noted { result.1 ≡ NoteAnswer.Noted
        → Told (Patched place buf.now) (R.bytes rack.old (2 * number_of boundary + side)) (R.bytes rack.new (2 * number_of boundary + side)) }
    ensures torn { result.1 ≡ NoteAnswer.Fell
        → Told (Torn place (length buf.now)) (R.bytes rack.old (2 * number_of boundary + side)) (R.bytes rack.new (2 * number_of boundary + side)) }
    ensures whole { result.1 ≡ NoteAnswer.Fell → R.steady rack.old → IsHeader place buf.now
        → Told (OldOrNew place buf.now) (R.bytes rack.old (2 * number_of boundary + side)) (R.bytes rack.new (2 * number_of boundary + side)) }
    ensures other_bytes { OthersSame (2 * number_of boundary + side) (R.bytes rack.old) (R.bytes rack.new) }
    ensures other_faults { OnlyMember (2 * number_of boundary + side) (R.counts rack.old).faults (R.counts rack.new).faults }
    ensures called { result.1 ≡ NoteAnswer.Noted → Rose (R.counts rack.old).writes (R.counts rack.new).writes }
    ensures tried { result.1 ≡ NoteAnswer.Fell → Rose (R.counts rack.old).writes (R.counts rack.new).writes }
    ensures most { (R.counts rack.new).calls ≤ (R.counts rack.old).calls + 1 }
    ensures most_writes { (R.counts rack.new).writes ≤ (R.counts rack.old).writes + 1 }
    ensures quiet { result.1 ≡ NoteAnswer.NotGood → rack.new ≡ rack.old }
{
    match boundary {
        Boundary::Both(a, b) if a.side() == side => match a.note(rack, place, buf) {
            GoodCall::Done(a) => (Boundary::Both(a, b), NoteAnswer::Noted),
            GoodCall::Fell(a) => (Boundary::Half(b, a), NoteAnswer::Fell),
        },
        Boundary::Both(a, b) => match b.note(rack, place, buf) {
            GoodCall::Done(b) => (Boundary::Both(a, b), NoteAnswer::Noted),
            GoodCall::Fell(b) => (Boundary::Half(a, b), NoteAnswer::Fell),
        },
        Boundary::Half(a, b) if a.side() == side => match a.note(rack, place, buf) {
            GoodCall::Done(a) => (Boundary::Half(a, b), NoteAnswer::Noted),
            GoodCall::Fell(a) => (Boundary::Lost(a, b), NoteAnswer::Fell),
        },
        Boundary::Fill(a, b) if a.side() == side => match a.note(rack, place, buf) {
            GoodCall::Done(a) => (Boundary::Fill(a, b), NoteAnswer::Noted),
            GoodCall::Fell(a) => (Boundary::Lost(a, b.fail()), NoteAnswer::Fell),
        },
        Boundary::Half(a, b) => (Boundary::Half(a, b), NoteAnswer::NotGood),
        Boundary::Fill(a, b) => (Boundary::Fill(a, b), NoteAnswer::NotGood),
        Boundary::Lost(a, b) => (Boundary::Lost(a, b), NoteAnswer::NotGood),
    }
}

// The member of a side is made longer, where it is good.
pub fn extend_any<R: Rack>(
    boundary: Boundary,
    rack: &mut R,
    side: u8,
    size: u64,
) -> (Boundary, ExtendAnswer)
    requires well { IsWell boundary }
    requires side { side < 2 }
    requires longer { members_of boundary (2 * number_of boundary + side) ≡ MemberState.Good
        → IfSome (R.bytes rack.old (2 * number_of boundary + side)) (FitsIn size) }
    requires stand { Stand boundary (R.stands rack.old) }
    ensures leaves { LeavesCase R.Rack boundary result.0 rack.old rack.new }
    ensures made { result.1 ≢ ExtendAnswer.NotGood → R.made rack.old (RackCall.extends (2 * number_of boundary + side) ∷ []) rack.new }
    ensures not_good { (result.1 ≡ ExtendAnswer.NotGood) ↔ (members_of boundary (2 * number_of boundary + side) ≢ MemberState.Good) }
    ensures stays { result.1 ≢ ExtendAnswer.Fell → (q : ℕ) → members_of result.0 q ≡ members_of boundary q }
    ensures out { result.1 ≡ ExtendAnswer.Fell → members_of result.0 (2 * number_of boundary + side) ≡ MemberState.Out }
    ensures others { result.1 ≡ ExtendAnswer.Fell → (q : ℕ) → q ≢ (2 * number_of boundary + side)
        → members_of result.0 q ≡ unfilled (members_of boundary q) }
    ensures fell { result.1 ≡ ExtendAnswer.Fell
        → Rose ((R.counts rack.old).faults (2 * number_of boundary + side)) ((R.counts rack.new).faults (2 * number_of boundary + side)) }
    ensures falls { MembersFall (R.counts rack.old).faults (R.counts rack.new).faults (members_of boundary) (members_of result.0) }
    ensures extended { result.1 ≡ ExtendAnswer.Extended
        → Told (Extended size) (R.bytes rack.old (2 * number_of boundary + side)) (R.bytes rack.new (2 * number_of boundary + side)) }
    ensures torn { result.1 ≡ ExtendAnswer.Fell
        → Told KeepsFront (R.bytes rack.old (2 * number_of boundary + side)) (R.bytes rack.new (2 * number_of boundary + side)) }
    ensures other_bytes { OthersSame (2 * number_of boundary + side) (R.bytes rack.old) (R.bytes rack.new) }
    ensures other_faults { OnlyMember (2 * number_of boundary + side) (R.counts rack.old).faults (R.counts rack.new).faults }
    ensures called { result.1 ≡ ExtendAnswer.Extended → Rose (R.counts rack.old).writes (R.counts rack.new).writes }
    ensures tried { result.1 ≡ ExtendAnswer.Fell → Rose (R.counts rack.old).writes (R.counts rack.new).writes }
    ensures most { (R.counts rack.new).calls ≤ (R.counts rack.old).calls + 1 }
    ensures most_writes { (R.counts rack.new).writes ≤ (R.counts rack.old).writes + 1 }
    ensures quiet { result.1 ≡ ExtendAnswer.NotGood → rack.new ≡ rack.old }
{
    match boundary {
        Boundary::Both(a, b) if a.side() == side => match a.extend(rack, size) {
            GoodCall::Done(a) => (Boundary::Both(a, b), ExtendAnswer::Extended),
            GoodCall::Fell(a) => (Boundary::Half(b, a), ExtendAnswer::Fell),
        },
        Boundary::Both(a, b) => match b.extend(rack, size) {
            GoodCall::Done(b) => (Boundary::Both(a, b), ExtendAnswer::Extended),
            GoodCall::Fell(b) => (Boundary::Half(a, b), ExtendAnswer::Fell),
        },
        Boundary::Half(a, b) if a.side() == side => match a.extend(rack, size) {
            GoodCall::Done(a) => (Boundary::Half(a, b), ExtendAnswer::Extended),
            GoodCall::Fell(a) => (Boundary::Lost(a, b), ExtendAnswer::Fell),
        },
        Boundary::Fill(a, b) if a.side() == side => match a.extend(rack, size) {
            GoodCall::Done(a) => (Boundary::Fill(a, b), ExtendAnswer::Extended),
            GoodCall::Fell(a) => (Boundary::Lost(a, b.fail()), ExtendAnswer::Fell),
        },
        Boundary::Half(a, b) => (Boundary::Half(a, b), ExtendAnswer::NotGood),
        Boundary::Fill(a, b) => (Boundary::Fill(a, b), ExtendAnswer::NotGood),
        Boundary::Lost(a, b) => (Boundary::Lost(a, b), ExtendAnswer::NotGood),
    }
}
