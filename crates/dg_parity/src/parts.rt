// Calls on a part of one chunk of a group.
#![tactic(auto, using(crate::proofs::GroupLemmas::leaves_none))]

ghost use Rattle.std.specs.Prelude.{◌≡◌, ◌≢◌, ◌+◌, ◌-◌, ◌*◌, ◌<◌, ◌≤◌, ℕ, true, false, length, slice_index, bit_xor, not};
ghost use Rattle.std.specs.Bool.{OnTrue, OnFalse};
ghost use Rattle.dg_parity.specs.Exclusive.{xor_upto, with_at};
ghost use Rattle.dg_parity.specs.Stripes.{IsEven};
ghost use Rattle.dg_parity.specs.Groups.{is_out, is_lost, in_of, length_of, IsReady, Holds, AllTold, LeavesGroup, MostCalls, KeepsHeld, StaysOrFell};
ghost use Rattle.dg_parity.specs.Updates.{reads_to_get, StaysWithin};

use crate::disks::read_disk;
use crate::groups::Group;
use crate::windows::ROW;
use crate::xors::xor_into;
use dg_io::Rack;

// Changes a row by what a disk that isn't out has at a place. False where the disk went out.
fn add_disk<R: Rack>(group: &mut Group, rack: &mut R, j: u8, place: u64, row: &mut [u8]) -> bool
    requires ready { IsReady R.Rack group.old rack.old }
    requires disk { j < group.old.disks }
    requires there { is_out group.old j ≡ false }
    requires behind { 512 ≤ place }
    requires below { place + length row.old ≤ length_of group.old }
    requires most { length row.old ≤ 8192 }
    ensures leaves { LeavesGroup R.Rack group.old group.new rack.old rack.new }
    ensures done { OnTrue result (group.new ≡ group.old) }
    ensures fell { OnFalse result (is_out group.new j ≡ true) }
    ensures holds { KeepsHeld R.Rack group.old group.new rack.old rack.new }
    ensures added { OnTrue result ((has : ℕ → ℕ → ℕ) → AllTold R.Rack group.new rack.new → Holds R.Rack group.old rack.old has
        → (k : ℕ) → k < length row.new → slice_index row.new k ≡ bit_xor (slice_index row.old k) (has j (place + k))) }
    ensures calls { MostCalls R.Rack 1 rack.old rack.new }
{
    let mut page = [0; ROW];
    let part = &mut page[..row.len()];
    if !read_disk(group, rack, j, place, part) {
        return false;
    }
    xor_into(row, part);
    true
}

// Changes a row by what a disk has at a place, but for two disks. False where the disk went out.
fn add_unless<R: Rack>(
    group: &mut Group,
    rack: &mut R,
    j: u8,
    a: u8,
    b: u8,
    place: u64,
    row: &mut [u8],
) -> bool
    requires ready { IsReady R.Rack group.old rack.old }
    requires disk { j < group.old.disks }
    requires there { j ≢ a → j ≢ b → is_out group.old j ≡ false }
    requires behind { 512 ≤ place }
    requires below { place + length row.old ≤ length_of group.old }
    requires most { length row.old ≤ 8192 }
    ensures leaves { LeavesGroup R.Rack group.old group.new rack.old rack.new }
    ensures done { OnTrue result (group.new ≡ group.old) }
    ensures fell { OnFalse result ((j ≢ a) × (j ≢ b) × (is_out group.new j ≡ true)) }
    ensures holds { KeepsHeld R.Rack group.old group.new rack.old rack.new }
    ensures added { OnTrue result ((has : ℕ → ℕ → ℕ) → AllTold R.Rack group.new rack.new → Holds R.Rack group.old rack.old has
        → (k : ℕ) → k < length row.new
        → slice_index row.new k ≡ bit_xor (slice_index row.old k) (with_at (with_at (λ i. has i (place + k)) a 0) b 0 j)) }
    ensures idle { is_out group.old j ≡ true → rack.new ≡ rack.old }
    ensures calls { MostCalls R.Rack 1 rack.old rack.new }
{
    if j == a {
        return true;
    }
    if j == b {
        return true;
    }
    if !add_disk(group, rack, j, place, row) {
        return false;
    }
    true
}

// Changes a row by what each disk but two has at a place. None of them is out. False where one went out.
pub(crate) fn add_others<R: Rack>(
    group: &mut Group,
    rack: &mut R,
    a: u8,
    b: u8,
    place: u64,
    row: &mut [u8],
) -> bool
    requires ready { IsReady R.Rack group.old rack.old }
    requires there { (j : ℕ) → j < group.old.disks → j ≢ a → j ≢ b → is_out group.old j ≡ false }
    requires behind { 512 ≤ place }
    requires below { place + length row.old ≤ length_of group.old }
    requires most { length row.old ≤ 8192 }
    ensures leaves { LeavesGroup R.Rack group.old group.new rack.old rack.new }
    ensures done { OnTrue result (group.new ≡ group.old) }
    ensures fell { OnFalse result ((j : ℕ) × (j ≢ a) × (j ≢ b) × (is_out group.new j ≡ true)) }
    ensures holds { KeepsHeld R.Rack group.old group.new rack.old rack.new }
    ensures added { OnTrue result ((has : ℕ → ℕ → ℕ) → AllTold R.Rack group.new rack.new → Holds R.Rack group.old rack.old has
        → (k : ℕ) → k < length row.new
        → slice_index row.new k ≡ bit_xor (slice_index row.old k) (xor_upto (with_at (with_at (λ i. has i (place + k)) a 0) b 0) group.old.disks)) }
    ensures calls { MostCalls R.Rack (in_of group.old) rack.old rack.new }
{
    for j in 0..group.disks {
        if !add_unless(group, rack, j, a, b, place, row) {
            return false;
        }
    }
    true
}

// Puts zeros into a row.
pub(crate) fn clear(row: &mut [u8])
    ensures { (k : ℕ) → k < length row.old → slice_index row.new k ≡ 0 }
{
    for x in row.iter_mut() {
        *x = 0;
    }
}

// Makes a part of a chunk whose disk is out from the others. False where the group is lost.
fn make_part<R: Rack>(group: &mut Group, rack: &mut R, j: u8, place: u64, buf: &mut [u8]) -> bool
    requires ready { IsReady R.Rack group.old rack.old }
    requires alive { is_lost group.old ≡ false }
    requires disk { j < group.old.disks }
    requires out { is_out group.old j ≡ true }
    requires behind { 512 ≤ place }
    requires below { place + length buf.old ≤ length_of group.old }
    requires most { length buf.old ≤ 8192 }
    ensures leaves { LeavesGroup R.Rack group.old group.new rack.old rack.new }
    ensures alive { result ≡ not (is_lost group.new) }
    ensures holds { KeepsHeld R.Rack group.old group.new rack.old rack.new }
    ensures got { OnTrue result ((has : ℕ → ℕ → ℕ) → AllTold R.Rack group.new rack.new → Holds R.Rack group.old rack.old has
        → IsEven group.old.disks group.old.length has
        → (k : ℕ) → k < length buf.new → slice_index buf.new k ≡ has j (place + k)) }
    ensures steady { OnTrue result (StaysOrFell group.old group.new) }
    ensures few { OnTrue result (StaysWithin R.Rack (group.old.disks - 1) group.old group.new rack.old rack.new) }
    ensures calls { MostCalls R.Rack group.old.disks rack.old rack.new }
{
    clear(buf);
    if !add_others(group, rack, j, j, place, buf) {
        return false;
    }
    true
}

/// Reads a part of the chunk or the parity of a disk. Where that is out it is made from the others. False where the group is lost.
pub(crate) fn read_part<R: Rack>(
    group: &mut Group,
    rack: &mut R,
    j: u8,
    place: u64,
    buf: &mut [u8],
) -> bool
    requires ready { IsReady R.Rack group.old rack.old }
    requires alive { is_lost group.old ≡ false }
    requires disk { j < group.old.disks }
    requires behind { 512 ≤ place }
    requires below { place + length buf.old ≤ length_of group.old }
    requires most { length buf.old ≤ 8192 }
    ensures leaves { LeavesGroup R.Rack group.old group.new rack.old rack.new }
    ensures alive { result ≡ not (is_lost group.new) }
    ensures holds { KeepsHeld R.Rack group.old group.new rack.old rack.new }
    ensures got { OnTrue result ((has : ℕ → ℕ → ℕ) → AllTold R.Rack group.new rack.new → Holds R.Rack group.old rack.old has
        → IsEven group.old.disks group.old.length has
        → (k : ℕ) → k < length buf.new → slice_index buf.new k ≡ has j (place + k)) }
    ensures steady { OnTrue result (StaysOrFell group.old group.new) }
    ensures few { OnTrue result (StaysWithin R.Rack (reads_to_get group.old.disks (is_out group.old) j) group.old group.new rack.old rack.new) }
    ensures calls { MostCalls R.Rack (group.old.disks + 1) rack.old rack.new }
{
    if group.is_out(j) {
        return make_part(group, rack, j, place, buf);
    }
    if read_disk(group, rack, j, place, buf) {
        return true;
    }
    if group.is_lost() {
        return false;
    }
    if !make_part(group, rack, j, place, buf) {
        return false;
    }
    true
}
