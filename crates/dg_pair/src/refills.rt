// The refill of a member from its partner, by the case that a boundary is in.
ghost use Rattle.std.specs.Prelude.{◌≡◌, ◌≢◌, ◌⊎◌, ◌↔◌, ◌+◌, ◌*◌, ◌≤◌, ◌<◌, ◌∷◌, [], ℕ, length, true, false};
ghost use Rattle.dg_model.specs.Causes.{Rose};
ghost use Rattle.dg_model.specs.Members.{is_filling, is_lost, place_of, SlotOf, MembersFall};
ghost use Rattle.dg_io.specs.Told.{Told, IsSame, IsZeros, Torn, OthersSame};
ghost use Rattle.dg_io.specs.RackCalls.{RackCall};
ghost use Rattle.dg_io.specs.RackWords.{MadeOnly};
ghost use Rattle.dg_io.specs.Faults.{OnlyMember};
ghost use Rattle.dg_pair.specs.Members.{KeepsSlots};
ghost use Rattle.dg_pair.specs.Boundaries.{members_of, number_of, size_of, slots_of, IsWell, unfilled, raised, completed, IsFilling, HasNext};
ghost use Rattle.dg_pair.specs.Calls.{IsCallOf, replaced};
ghost use Rattle.dg_pair.specs.Kept.{BlanksBy};
ghost use Rattle.dg_pair.specs.Cases.{Fits, Stand, LeavesCase};

use crate::boundaries::{Boundary, CopyAnswer, ReplaceAnswer};
use crate::{FillCall, Good, GoodCall};
use dg_io::Rack;
use dg_model::MemberState;

// The member of a side is made anew, where it alone is out.
pub fn replace_any<R: Rack>(
    boundary: Boundary,
    rack: &mut R,
    side: u8,
    size: u64,
) -> (Boundary, ReplaceAnswer)
    requires well { IsWell boundary }
    requires side { side < 2 }
    requires size { 512 + slots_of boundary * size_of boundary ≤ size }
    requires stand { Stand boundary (R.stands rack.old) }
    ensures leaves { LeavesCase R.Rack boundary result.0 rack.old rack.new }
    ensures keeps { BlanksBy R.Rack (2 * number_of boundary + side) result.1 rack.old rack.new }
    ensures lost { (result.1 ≡ ReplaceAnswer.Lost) ↔ (is_lost (members_of boundary) (number_of boundary) ≡ true) }
    ensures not_out { (result.1 ≡ ReplaceAnswer.NotOut) ↔ (members_of boundary (2 * number_of boundary + side) ≢ MemberState.Out) }
    ensures failed { result.1 ≡ ReplaceAnswer.Failed
        → Rose ((R.counts rack.old).faults (2 * number_of boundary + side)) ((R.counts rack.new).faults (2 * number_of boundary + side)) }
    ensures members { (q : ℕ) → members_of result.0 q ≡ replaced result.1 (2 * number_of boundary + side) (members_of boundary) q }
    ensures blank { result.1 ≡ ReplaceAnswer.Replaced
        → Told (IsZeros size) (R.bytes rack.old (2 * number_of boundary + side)) (R.bytes rack.new (2 * number_of boundary + side)) }
    ensures other_bytes { OthersSame (2 * number_of boundary + side) (R.bytes rack.old) (R.bytes rack.new) }
    ensures other_faults { OnlyMember (2 * number_of boundary + side) (R.counts rack.old).faults (R.counts rack.new).faults }
    ensures called { result.1 ≡ ReplaceAnswer.Replaced → Rose (R.counts rack.old).writes (R.counts rack.new).writes }
    ensures most { (R.counts rack.new).calls ≤ (R.counts rack.old).calls + 1 }
    ensures most_writes { (R.counts rack.new).writes ≤ (R.counts rack.old).writes + 1 }
    ensures quiet { (result.1 ≡ ReplaceAnswer.Lost) ⊎ (result.1 ≡ ReplaceAnswer.NotOut) → rack.new ≡ rack.old }
{
    match boundary {
        Boundary::Half(a, b) => {
            if b.side() != side {
                return (Boundary::Half(a, b), ReplaceAnswer::NotOut);
            }
            match b.replace(rack, size) {
                Ok(b) => (Boundary::Fill(a, b), ReplaceAnswer::Replaced),
                Err(b) => (Boundary::Half(a, b), ReplaceAnswer::Failed),
            }
        }
        Boundary::Both(a, b) => (Boundary::Both(a, b), ReplaceAnswer::NotOut),
        Boundary::Fill(a, b) => (Boundary::Fill(a, b), ReplaceAnswer::NotOut),
        Boundary::Lost(a, b) => (Boundary::Lost(a, b), ReplaceAnswer::Lost),
    }
}

// The next slot is copied from the member that serves.
pub fn copy_any<R: Rack>(boundary: Boundary, rack: &mut R, buf: &mut [u8]) -> (Boundary, CopyAnswer)
    requires well { IsWell boundary }
    requires next { HasNext (members_of boundary) (slots_of boundary) }
    requires size { length buf.old ≡ size_of boundary }
    requires room { Fits boundary (R.bytes rack.old) }
    requires stand { Stand boundary (R.stands rack.old) }
    ensures leaves { LeavesCase R.Rack boundary result.0 rack.old rack.new }
    ensures made { MadeOnly R.Rack (IsCallOf (members_of boundary)) rack.old rack.new }
    ensures lost { (result.1 ≡ CopyAnswer.Lost) ↔ (is_lost (members_of result.0) (number_of boundary) ≡ true) }
    ensures copied { result.1 ≡ CopyAnswer.Copied → (q : ℕ) → members_of result.0 q ≡ raised (members_of boundary q) }
    ensures fell { result.1 ≡ CopyAnswer.Fell → (q : ℕ) → members_of result.0 q ≡ unfilled (members_of boundary q) }
    ensures out { result.1 ≡ CopyAnswer.Lost → (q : ℕ) → members_of result.0 q ≡ MemberState.Out }
    ensures good_fell { result.1 ≡ CopyAnswer.Lost → (q : ℕ) → members_of boundary q ≡ MemberState.Good
        → Rose ((R.counts rack.old).faults q) ((R.counts rack.new).faults q) }
    ensures filling_fell { result.1 ≡ CopyAnswer.Fell → (q : ℕ) → is_filling (members_of boundary q) ≡ true
        → Rose ((R.counts rack.old).faults q) ((R.counts rack.new).faults q) }
    ensures falls { result.1 ≢ CopyAnswer.Copied
        → MembersFall (R.counts rack.old).faults (R.counts rack.new).faults (members_of boundary) (members_of result.0) }
    ensures moved { result.1 ≡ CopyAnswer.Copied → (q : ℕ) (have : ℕ) → members_of boundary q ≢ MemberState.Out → IsFilling (members_of boundary) have
        → SlotOf (size_of boundary) have buf.new (R.bytes rack.new q) }
    ensures kept { (q : ℕ) (have : ℕ) → IsFilling (members_of boundary) have
        → KeepsSlots (size_of boundary) have (R.bytes rack.old q) (R.bytes rack.new q) }
    ensures room { Fits result.0 (R.bytes rack.new) }
    ensures torn { (q x : ℕ) → IsFilling (members_of boundary) x
        → Told (Torn (place_of (size_of boundary) x) (size_of boundary)) (R.bytes rack.old q) (R.bytes rack.new q) }
    ensures other_bytes { (q : ℕ) → is_filling (members_of boundary q) ≡ false → Told IsSame (R.bytes rack.old q) (R.bytes rack.new q) }
    ensures uncalled { (q : ℕ) → members_of boundary q ≡ MemberState.Out → (R.counts rack.new).faults q ≡ (R.counts rack.old).faults q }
    ensures called { result.1 ≡ CopyAnswer.Copied → Rose (R.counts rack.old).writes (R.counts rack.new).writes }
    ensures most { (R.counts rack.new).calls ≤ (R.counts rack.old).calls + 2 }
    ensures most_writes { (R.counts rack.new).writes ≤ (R.counts rack.old).writes + 1 }
{
    let Boundary::Fill(a, b) = boundary else {
        unreachable!()
    };
    let slot = b.state.have;
    match a.read(rack, slot, buf) {
        GoodCall::Done(a) => match b.write(rack, slot, buf) {
            FillCall::Done(b) => (Boundary::Fill(a, b.raised()), CopyAnswer::Copied),
            FillCall::Fell(b) => (Boundary::Half(a, b), CopyAnswer::Fell),
        },
        GoodCall::Fell(a) => (Boundary::Lost(a, b.fail()), CopyAnswer::Lost),
    }
}

// The next slot is passed.
pub fn pass_any(boundary: Boundary) -> Boundary
    requires well { IsWell boundary }
    requires next { HasNext (members_of boundary) (slots_of boundary) }
    ensures well { IsWell result }
    ensures number { number_of result ≡ number_of boundary }
    ensures size { size_of result ≡ size_of boundary }
    ensures slots { slots_of result ≡ slots_of boundary }
    ensures raised { (q : ℕ) → members_of result q ≡ raised (members_of boundary q) }
{
    let Boundary::Fill(a, b) = boundary else {
        unreachable!()
    };
    Boundary::Fill(a, b.raised())
}

// Each slot was passed.
pub fn complete_any(boundary: Boundary) -> Boundary
    requires well { IsWell boundary }
    requires full { IsFilling (members_of boundary) (slots_of boundary) }
    ensures well { IsWell result }
    ensures number { number_of result ≡ number_of boundary }
    ensures size { size_of result ≡ size_of boundary }
    ensures slots { slots_of result ≡ slots_of boundary }
    ensures completed { (q : ℕ) → members_of result q ≡ completed (members_of boundary q) }
{
    let Boundary::Fill(a, b) = boundary else {
        unreachable!()
    };
    Boundary::Both(a, b.completed())
}
