// The read of a slot, by the case that a boundary is in.
ghost use Rattle.std.specs.Prelude.{◌≡◌, ◌≢◌, ◌↔◌, ◌+◌, ◌≤◌, ◌<◌, ℕ, length};
ghost use Rattle.dg_model.specs.Causes.{Rose};
ghost use Rattle.dg_model.specs.Members.{MembersFall};
ghost use Rattle.dg_io.specs.Told.{Told, IsSame};
ghost use Rattle.dg_io.specs.RackWords.{MadeOnly};
ghost use Rattle.dg_pair.specs.Boundaries.{members_of, size_of, slots_of, IsWell};
ghost use Rattle.dg_pair.specs.Calls.{IsCallOf};
ghost use Rattle.dg_pair.specs.Cases.{HasNone, Fits, Stand, LeavesCase, ReadsGood, KeepsAll, goods_of};

use crate::boundaries::{Boundary, PairRead};
use crate::{Filling, Good, GoodCall, Member, Out};
use dg_io::Rack;
use dg_model::MemberState;

// Of one that serves, beside one that is out.
fn read_half<R: Rack>(
    a: Member<Good>,
    b: Member<Out>,
    rack: &mut R,
    slot: u32,
    buf: &mut [u8],
) -> (Boundary, PairRead)
    requires well { IsWell (Boundary.Half a b) }
    requires size { length buf.old ≡ size_of (Boundary.Half a b) }
    requires slot { slot < slots_of (Boundary.Half a b) }
    requires room { Fits (Boundary.Half a b) (R.bytes rack.old) }
    requires stand { Stand (Boundary.Half a b) (R.stands rack.old) }
    ensures leaves { LeavesCase R.Rack (Boundary.Half a b) result.0 rack.old rack.new }
    ensures made { MadeOnly R.Rack (IsCallOf (members_of (Boundary.Half a b))) rack.old rack.new }
    ensures lost { (result.1 ≡ PairRead.Lost) ↔ HasNone result.0 }
    ensures got { result.1 ≡ PairRead.Got → ReadsGood result.0 (size_of (Boundary.Half a b)) slot buf.new (R.bytes rack.new) }
    ensures kept { KeepsAll (size_of (Boundary.Half a b)) (Boundary.Half a b) (R.bytes rack.old) result.0 (R.bytes rack.new) }
    ensures room { Fits result.0 (R.bytes rack.new) }
    ensures same { (q : ℕ) → Told IsSame (R.bytes rack.old q) (R.bytes rack.new q) }
    ensures falls { MembersFall (R.counts rack.old).faults (R.counts rack.new).faults (members_of (Boundary.Half a b)) (members_of result.0) }
    ensures uncalled { (q : ℕ) → members_of (Boundary.Half a b) q ≢ MemberState.Good → (R.counts rack.new).faults q ≡ (R.counts rack.old).faults q }
    ensures called { result.1 ≡ PairRead.Got → Rose (R.counts rack.old).calls (R.counts rack.new).calls }
    ensures most { (R.counts rack.new).calls ≤ (R.counts rack.old).calls + goods_of (Boundary.Half a b) }
    ensures fewer { goods_of result.0 ≤ goods_of (Boundary.Half a b) }
    ensures once { goods_of result.0 ≡ goods_of (Boundary.Half a b) → (R.counts rack.new).calls ≤ (R.counts rack.old).calls + 1 }
    ensures writes { (R.counts rack.new).writes ≡ (R.counts rack.old).writes }
{
    match a.read(rack, slot, buf) {
        GoodCall::Done(a) => (Boundary::Half(a, b), PairRead::Got),
        GoodCall::Fell(a) => (Boundary::Lost(a, b), PairRead::Lost),
    }
}

// Of the second where the first fails.
fn read_both<R: Rack>(
    a: Member<Good>,
    b: Member<Good>,
    rack: &mut R,
    slot: u32,
    buf: &mut [u8],
) -> (Boundary, PairRead)
    requires well { IsWell (Boundary.Both a b) }
    requires size { length buf.old ≡ size_of (Boundary.Both a b) }
    requires slot { slot < slots_of (Boundary.Both a b) }
    requires room { Fits (Boundary.Both a b) (R.bytes rack.old) }
    requires stand { Stand (Boundary.Both a b) (R.stands rack.old) }
    ensures leaves { LeavesCase R.Rack (Boundary.Both a b) result.0 rack.old rack.new }
    ensures made { MadeOnly R.Rack (IsCallOf (members_of (Boundary.Both a b))) rack.old rack.new }
    ensures lost { (result.1 ≡ PairRead.Lost) ↔ HasNone result.0 }
    ensures got { result.1 ≡ PairRead.Got → ReadsGood result.0 (size_of (Boundary.Both a b)) slot buf.new (R.bytes rack.new) }
    ensures kept { KeepsAll (size_of (Boundary.Both a b)) (Boundary.Both a b) (R.bytes rack.old) result.0 (R.bytes rack.new) }
    ensures room { Fits result.0 (R.bytes rack.new) }
    ensures same { (q : ℕ) → Told IsSame (R.bytes rack.old q) (R.bytes rack.new q) }
    ensures falls { MembersFall (R.counts rack.old).faults (R.counts rack.new).faults (members_of (Boundary.Both a b)) (members_of result.0) }
    ensures uncalled { (q : ℕ) → members_of (Boundary.Both a b) q ≢ MemberState.Good → (R.counts rack.new).faults q ≡ (R.counts rack.old).faults q }
    ensures called { result.1 ≡ PairRead.Got → Rose (R.counts rack.old).calls (R.counts rack.new).calls }
    ensures most { (R.counts rack.new).calls ≤ (R.counts rack.old).calls + goods_of (Boundary.Both a b) }
    ensures fewer { goods_of result.0 ≤ goods_of (Boundary.Both a b) }
    ensures once { goods_of result.0 ≡ goods_of (Boundary.Both a b) → (R.counts rack.new).calls ≤ (R.counts rack.old).calls + 1 }
    ensures writes { (R.counts rack.new).writes ≡ (R.counts rack.old).writes }
{
    match a.read(rack, slot, buf) {
        GoodCall::Done(a) => (Boundary::Both(a, b), PairRead::Got),
        GoodCall::Fell(a) => read_half(b, a, rack, slot, buf),
    }
}

// Of one that serves. The one that is refilled from it goes out with it.
fn read_fill<R: Rack>(
    a: Member<Good>,
    b: Member<Filling>,
    rack: &mut R,
    slot: u32,
    buf: &mut [u8],
) -> (Boundary, PairRead)
    requires well { IsWell (Boundary.Fill a b) }
    requires size { length buf.old ≡ size_of (Boundary.Fill a b) }
    requires slot { slot < slots_of (Boundary.Fill a b) }
    requires room { Fits (Boundary.Fill a b) (R.bytes rack.old) }
    requires stand { Stand (Boundary.Fill a b) (R.stands rack.old) }
    ensures leaves { LeavesCase R.Rack (Boundary.Fill a b) result.0 rack.old rack.new }
    ensures made { MadeOnly R.Rack (IsCallOf (members_of (Boundary.Fill a b))) rack.old rack.new }
    ensures lost { (result.1 ≡ PairRead.Lost) ↔ HasNone result.0 }
    ensures got { result.1 ≡ PairRead.Got → ReadsGood result.0 (size_of (Boundary.Fill a b)) slot buf.new (R.bytes rack.new) }
    ensures kept { KeepsAll (size_of (Boundary.Fill a b)) (Boundary.Fill a b) (R.bytes rack.old) result.0 (R.bytes rack.new) }
    ensures room { Fits result.0 (R.bytes rack.new) }
    ensures same { (q : ℕ) → Told IsSame (R.bytes rack.old q) (R.bytes rack.new q) }
    ensures falls { MembersFall (R.counts rack.old).faults (R.counts rack.new).faults (members_of (Boundary.Fill a b)) (members_of result.0) }
    ensures uncalled { (q : ℕ) → members_of (Boundary.Fill a b) q ≢ MemberState.Good → (R.counts rack.new).faults q ≡ (R.counts rack.old).faults q }
    ensures called { result.1 ≡ PairRead.Got → Rose (R.counts rack.old).calls (R.counts rack.new).calls }
    ensures most { (R.counts rack.new).calls ≤ (R.counts rack.old).calls + goods_of (Boundary.Fill a b) }
    ensures fewer { goods_of result.0 ≤ goods_of (Boundary.Fill a b) }
    ensures once { goods_of result.0 ≡ goods_of (Boundary.Fill a b) → (R.counts rack.new).calls ≤ (R.counts rack.old).calls + 1 }
    ensures writes { (R.counts rack.new).writes ≡ (R.counts rack.old).writes }
{
    match a.read(rack, slot, buf) {
        GoodCall::Done(a) => (Boundary::Fill(a, b), PairRead::Got),
        GoodCall::Fell(a) => (Boundary::Lost(a, b.fail()), PairRead::Lost),
    }
}

// Of any boundary.
pub fn read_any<R: Rack>(
    boundary: Boundary,
    rack: &mut R,
    slot: u32,
    buf: &mut [u8],
) -> (Boundary, PairRead)
    requires well { IsWell boundary }
    requires size { length buf.old ≡ size_of boundary }
    requires slot { slot < slots_of boundary }
    requires room { Fits boundary (R.bytes rack.old) }
    requires stand { Stand boundary (R.stands rack.old) }
    ensures leaves { LeavesCase R.Rack boundary result.0 rack.old rack.new }
    ensures made { MadeOnly R.Rack (IsCallOf (members_of boundary)) rack.old rack.new }
    ensures lost { (result.1 ≡ PairRead.Lost) ↔ HasNone result.0 }
    ensures got { result.1 ≡ PairRead.Got → ReadsGood result.0 (size_of boundary) slot buf.new (R.bytes rack.new) }
    ensures kept { KeepsAll (size_of boundary) boundary (R.bytes rack.old) result.0 (R.bytes rack.new) }
    ensures room { Fits result.0 (R.bytes rack.new) }
    ensures same { (q : ℕ) → Told IsSame (R.bytes rack.old q) (R.bytes rack.new q) }
    ensures falls { MembersFall (R.counts rack.old).faults (R.counts rack.new).faults (members_of boundary) (members_of result.0) }
    ensures uncalled { (q : ℕ) → members_of boundary q ≢ MemberState.Good → (R.counts rack.new).faults q ≡ (R.counts rack.old).faults q }
    ensures called { result.1 ≡ PairRead.Got → Rose (R.counts rack.old).calls (R.counts rack.new).calls }
    ensures most { (R.counts rack.new).calls ≤ (R.counts rack.old).calls + goods_of boundary }
    ensures fewer { goods_of result.0 ≤ goods_of boundary }
    ensures once { goods_of result.0 ≡ goods_of boundary → (R.counts rack.new).calls ≤ (R.counts rack.old).calls + 1 }
    ensures writes { (R.counts rack.new).writes ≡ (R.counts rack.old).writes }
{
    match boundary {
        Boundary::Both(a, b) => read_both(a, b, rack, slot, buf),
        Boundary::Half(a, b) => read_half(a, b, rack, slot, buf),
        Boundary::Fill(a, b) => read_fill(a, b, rack, slot, buf),
        Boundary::Lost(a, b) => (Boundary::Lost(a, b), PairRead::Lost),
    }
}
