// The write of a slot, by the case that a boundary is in.
ghost use Rattle.std.specs.Prelude.{◌≡◌, ◌↔◌, ◌+◌, ◌≤◌, ◌<◌, ℕ, length, false};
ghost use Rattle.dg_model.specs.Causes.{Rose};
ghost use Rattle.dg_model.specs.Members.{serves, place_of, MembersFall};
ghost use Rattle.dg_io.specs.Told.{Told, IsSame, Torn};
ghost use Rattle.dg_io.specs.RackWords.{MadeOnly};
ghost use Rattle.dg_pair.specs.Boundaries.{members_of, size_of, slots_of, IsWell};
ghost use Rattle.dg_pair.specs.Calls.{IsCallOf};
ghost use Rattle.dg_pair.specs.Cases.{HasNone, Fits, Stand, LeavesCase, SlotIs, KeepsOthers, servers_of};

use crate::boundaries::{Boundary, PairWrite};
use crate::{FillCall, Filling, Good, GoodCall, Member, Out};
use dg_io::Rack;
use dg_model::MemberState;

// To one that serves, beside one that is out.
fn write_half<R: Rack>(
    a: Member<Good>,
    b: Member<Out>,
    rack: &mut R,
    slot: u32,
    buf: &[u8],
) -> (Boundary, PairWrite)
    requires well { IsWell (Boundary.Half a b) }
    requires size { length buf.now ≡ size_of (Boundary.Half a b) }
    requires slot { slot < slots_of (Boundary.Half a b) }
    requires room { Fits (Boundary.Half a b) (R.bytes rack.old) }
    requires stand { Stand (Boundary.Half a b) (R.stands rack.old) }
    ensures leaves { LeavesCase R.Rack (Boundary.Half a b) result.0 rack.old rack.new }
    ensures made { MadeOnly R.Rack (IsCallOf (members_of (Boundary.Half a b))) rack.old rack.new }
    ensures lost { (result.1 ≡ PairWrite.Lost) ↔ HasNone result.0 }
    ensures put { SlotIs result.0 (size_of (Boundary.Half a b)) slot buf.now (R.bytes rack.new) }
    ensures kept { KeepsOthers (size_of (Boundary.Half a b)) slot (Boundary.Half a b) (R.bytes rack.old) result.0 (R.bytes rack.new) }
    ensures room { Fits result.0 (R.bytes rack.new) }
    ensures torn { (q : ℕ) → Told (Torn (place_of (size_of (Boundary.Half a b)) slot) (length buf.now)) (R.bytes rack.old q) (R.bytes rack.new q) }
    ensures untaken { (q : ℕ) → serves (members_of (Boundary.Half a b) q) slot ≡ false → Told IsSame (R.bytes rack.old q) (R.bytes rack.new q) }
    ensures falls { MembersFall (R.counts rack.old).faults (R.counts rack.new).faults (members_of (Boundary.Half a b)) (members_of result.0) }
    ensures uncalled { (q : ℕ) → serves (members_of (Boundary.Half a b) q) slot ≡ false → (R.counts rack.new).faults q ≡ (R.counts rack.old).faults q }
    ensures called { result.1 ≡ PairWrite.Kept → Rose (R.counts rack.old).writes (R.counts rack.new).writes }
    ensures most { (R.counts rack.new).calls ≤ (R.counts rack.old).calls + servers_of (Boundary.Half a b) slot }
    ensures most_writes { (R.counts rack.new).writes ≤ (R.counts rack.old).writes + servers_of (Boundary.Half a b) slot }
{
    match a.write(rack, slot, buf) {
        GoodCall::Done(a) => (Boundary::Half(a, b), PairWrite::Kept),
        GoodCall::Fell(a) => (Boundary::Lost(a, b), PairWrite::Lost),
    }
}

// To both.
fn write_both<R: Rack>(
    a: Member<Good>,
    b: Member<Good>,
    rack: &mut R,
    slot: u32,
    buf: &[u8],
) -> (Boundary, PairWrite)
    requires well { IsWell (Boundary.Both a b) }
    requires size { length buf.now ≡ size_of (Boundary.Both a b) }
    requires slot { slot < slots_of (Boundary.Both a b) }
    requires room { Fits (Boundary.Both a b) (R.bytes rack.old) }
    requires stand { Stand (Boundary.Both a b) (R.stands rack.old) }
    ensures leaves { LeavesCase R.Rack (Boundary.Both a b) result.0 rack.old rack.new }
    ensures made { MadeOnly R.Rack (IsCallOf (members_of (Boundary.Both a b))) rack.old rack.new }
    ensures lost { (result.1 ≡ PairWrite.Lost) ↔ HasNone result.0 }
    ensures put { SlotIs result.0 (size_of (Boundary.Both a b)) slot buf.now (R.bytes rack.new) }
    ensures kept { KeepsOthers (size_of (Boundary.Both a b)) slot (Boundary.Both a b) (R.bytes rack.old) result.0 (R.bytes rack.new) }
    ensures room { Fits result.0 (R.bytes rack.new) }
    ensures torn { (q : ℕ) → Told (Torn (place_of (size_of (Boundary.Both a b)) slot) (length buf.now)) (R.bytes rack.old q) (R.bytes rack.new q) }
    ensures untaken { (q : ℕ) → serves (members_of (Boundary.Both a b) q) slot ≡ false → Told IsSame (R.bytes rack.old q) (R.bytes rack.new q) }
    ensures falls { MembersFall (R.counts rack.old).faults (R.counts rack.new).faults (members_of (Boundary.Both a b)) (members_of result.0) }
    ensures uncalled { (q : ℕ) → serves (members_of (Boundary.Both a b) q) slot ≡ false → (R.counts rack.new).faults q ≡ (R.counts rack.old).faults q }
    ensures called { result.1 ≡ PairWrite.Kept → Rose (R.counts rack.old).writes (R.counts rack.new).writes }
    ensures most { (R.counts rack.new).calls ≤ (R.counts rack.old).calls + servers_of (Boundary.Both a b) slot }
    ensures most_writes { (R.counts rack.new).writes ≤ (R.counts rack.old).writes + servers_of (Boundary.Both a b) slot }
{
    match a.write(rack, slot, buf) {
        GoodCall::Done(a) => match b.write(rack, slot, buf) {
            GoodCall::Done(b) => (Boundary::Both(a, b), PairWrite::Kept),
            GoodCall::Fell(b) => (Boundary::Half(a, b), PairWrite::Kept),
        },
        GoodCall::Fell(a) => write_half(b, a, rack, slot, buf),
    }
}

// To one that serves, and to the one that is refilled from it where that has the slot.
fn write_fill<R: Rack>(
    a: Member<Good>,
    b: Member<Filling>,
    rack: &mut R,
    slot: u32,
    buf: &[u8],
) -> (Boundary, PairWrite)
    requires well { IsWell (Boundary.Fill a b) }
    requires size { length buf.now ≡ size_of (Boundary.Fill a b) }
    requires slot { slot < slots_of (Boundary.Fill a b) }
    requires room { Fits (Boundary.Fill a b) (R.bytes rack.old) }
    requires stand { Stand (Boundary.Fill a b) (R.stands rack.old) }
    ensures leaves { LeavesCase R.Rack (Boundary.Fill a b) result.0 rack.old rack.new }
    ensures made { MadeOnly R.Rack (IsCallOf (members_of (Boundary.Fill a b))) rack.old rack.new }
    ensures lost { (result.1 ≡ PairWrite.Lost) ↔ HasNone result.0 }
    ensures put { SlotIs result.0 (size_of (Boundary.Fill a b)) slot buf.now (R.bytes rack.new) }
    ensures kept { KeepsOthers (size_of (Boundary.Fill a b)) slot (Boundary.Fill a b) (R.bytes rack.old) result.0 (R.bytes rack.new) }
    ensures room { Fits result.0 (R.bytes rack.new) }
    ensures torn { (q : ℕ) → Told (Torn (place_of (size_of (Boundary.Fill a b)) slot) (length buf.now)) (R.bytes rack.old q) (R.bytes rack.new q) }
    ensures untaken { (q : ℕ) → serves (members_of (Boundary.Fill a b) q) slot ≡ false → Told IsSame (R.bytes rack.old q) (R.bytes rack.new q) }
    ensures falls { MembersFall (R.counts rack.old).faults (R.counts rack.new).faults (members_of (Boundary.Fill a b)) (members_of result.0) }
    ensures uncalled { (q : ℕ) → serves (members_of (Boundary.Fill a b) q) slot ≡ false → (R.counts rack.new).faults q ≡ (R.counts rack.old).faults q }
    ensures called { result.1 ≡ PairWrite.Kept → Rose (R.counts rack.old).writes (R.counts rack.new).writes }
    ensures most { (R.counts rack.new).calls ≤ (R.counts rack.old).calls + servers_of (Boundary.Fill a b) slot }
    ensures most_writes { (R.counts rack.new).writes ≤ (R.counts rack.old).writes + servers_of (Boundary.Fill a b) slot }
{
    match a.write(rack, slot, buf) {
        GoodCall::Done(a) if slot < b.state.have => match b.write(rack, slot, buf) {
            FillCall::Done(b) => (Boundary::Fill(a, b), PairWrite::Kept),
            FillCall::Fell(b) => (Boundary::Half(a, b), PairWrite::Kept),
        },
        GoodCall::Done(a) => (Boundary::Fill(a, b), PairWrite::Kept),
        GoodCall::Fell(a) => (Boundary::Lost(a, b.fail()), PairWrite::Lost),
    }
}

// To any boundary.
pub fn write_any<R: Rack>(
    boundary: Boundary,
    rack: &mut R,
    slot: u32,
    buf: &[u8],
) -> (Boundary, PairWrite)
    requires well { IsWell boundary }
    requires size { length buf.now ≡ size_of boundary }
    requires slot { slot < slots_of boundary }
    requires room { Fits boundary (R.bytes rack.old) }
    requires stand { Stand boundary (R.stands rack.old) }
    ensures leaves { LeavesCase R.Rack boundary result.0 rack.old rack.new }
    ensures made { MadeOnly R.Rack (IsCallOf (members_of boundary)) rack.old rack.new }
    ensures lost { (result.1 ≡ PairWrite.Lost) ↔ HasNone result.0 }
    ensures put { SlotIs result.0 (size_of boundary) slot buf.now (R.bytes rack.new) }
    ensures kept { KeepsOthers (size_of boundary) slot boundary (R.bytes rack.old) result.0 (R.bytes rack.new) }
    ensures room { Fits result.0 (R.bytes rack.new) }
    ensures torn { (q : ℕ) → Told (Torn (place_of (size_of boundary) slot) (length buf.now)) (R.bytes rack.old q) (R.bytes rack.new q) }
    ensures untaken { (q : ℕ) → serves (members_of boundary q) slot ≡ false → Told IsSame (R.bytes rack.old q) (R.bytes rack.new q) }
    ensures falls { MembersFall (R.counts rack.old).faults (R.counts rack.new).faults (members_of boundary) (members_of result.0) }
    ensures uncalled { (q : ℕ) → serves (members_of boundary q) slot ≡ false → (R.counts rack.new).faults q ≡ (R.counts rack.old).faults q }
    ensures called { result.1 ≡ PairWrite.Kept → Rose (R.counts rack.old).writes (R.counts rack.new).writes }
    ensures most { (R.counts rack.new).calls ≤ (R.counts rack.old).calls + servers_of boundary slot }
    ensures most_writes { (R.counts rack.new).writes ≤ (R.counts rack.old).writes + servers_of boundary slot }
{
    match boundary {
        Boundary::Both(a, b) => write_both(a, b, rack, slot, buf),
        Boundary::Half(a, b) => write_half(a, b, rack, slot, buf),
        Boundary::Fill(a, b) => write_fill(a, b, rack, slot, buf),
        Boundary::Lost(a, b) => (Boundary::Lost(a, b), PairWrite::Lost),
    }
}
