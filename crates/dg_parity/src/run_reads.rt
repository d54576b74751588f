// Reads of runs of chunks: each disk is called once for several stripes.
#![tactic(auto, using(crate::proofs::GroupLemmas::leaves_none))]

ghost use Rattle.std.specs.Prelude.{◌≡◌, ◌≢◌, ◌⊎◌, ◌+◌, ◌-◌, ◌*◌, ◌/◌, ◌<◌, ◌≤◌, ◌^◌, ℕ, List, true, false, length, slice_index, bit_xor, not, None, IfSome};
ghost use Rattle.std.specs.Bool.{OnTrue, OnFalse};
ghost use Rattle.dg_parity.specs.Exclusive.{xor_upto, with_at};
ghost use Rattle.dg_parity.specs.Stripes.{IsEven, spot_of, stripe_of};
ghost use Rattle.dg_parity.specs.Groups.{is_out, is_lost, in_of, length_of, FellOne, IsReady, Holds, AllTold, LeavesGroup, MostCalls, KeepsHeld, KeepsMember, StandsFor};
ghost use Rattle.dg_parity.specs.Runs.{IsWindow, ReadsOn, ReadsUpto};

use crate::disks::read_disk;
use crate::groups::Group;
use crate::parts::clear;
use crate::windows::{ROW, Window, is_wanted, scatter, window_of};
use crate::xors::xor_into;
use dg_io::Rack;

// Reads some stripes of a disk that isn't out, and puts its bytes where they are asked for. False where the disk went out.
fn read_row<R: Rack>(
    group: &mut Group,
    rack: &mut R,
    j: u8,
    window: Window,
    row: &mut [u8],
    at: u64,
    buf: &mut [u8],
) -> bool
    requires ready { IsReady R.Rack group.old rack.old }
    requires disk { j < group.old.disks }
    requires there { is_out group.old j ≡ false }
    requires some { 0 < length buf.old }
    requires range { at + length buf.old < 2 ^ 64 }
    requires window { IsWindow group.old.disks at (length buf.old) window }
    requires size { length row.old ≡ 512 * window.count }
    requires below { 512 + 512 * window.first + length row.old ≤ length_of group.old }
    ensures leaves { LeavesGroup R.Rack group.old group.new rack.old rack.new }
    ensures done { OnTrue result (group.new ≡ group.old) }
    ensures fell { OnFalse result (FellOne group.old group.new) }
    ensures holds { KeepsHeld R.Rack group.old group.new rack.old rack.new }
    ensures row { OnTrue result ((has : ℕ → ℕ → ℕ) → AllTold R.Rack group.new rack.new → Holds R.Rack group.old rack.old has
        → (k : ℕ) → k < length row.new → slice_index row.new k ≡ has j (512 + 512 * window.first + k)) }
    ensures own { OnTrue result ((has : ℕ → ℕ → ℕ) → AllTold R.Rack group.new rack.new → Holds R.Rack group.old rack.old has
        → ReadsOn group.old.disks j at has buf.new) }
    ensures disks { OnTrue result ((k : ℕ) → k < length buf.old → (spot_of group.old.disks (at + k)).disk ≢ j → slice_index buf.new k ≡ slice_index buf.old k) }
    ensures calls { MostCalls R.Rack 1 rack.old rack.new }
{
    if !read_disk(group, rack, j, 512 + 512 * window.first, row) {
        return false;
    }
    scatter(group.disks, j, window.first, row, at, buf);
    true
}

// The same of a disk that has some of the bytes. One that has none isn't called.
fn read_wanted<R: Rack>(
    group: &mut Group,
    rack: &mut R,
    j: u8,
    window: Window,
    row: &mut [u8],
    at: u64,
    buf: &mut [u8],
) -> bool
    requires ready { IsReady R.Rack group.old rack.old }
    requires disk { j < group.old.disks }
    requires there { (k : ℕ) → k < length buf.old → is_out group.old (spot_of group.old.disks (at + k)).disk ≡ false }
    requires some { 0 < length buf.old }
    requires range { at + length buf.old < 2 ^ 64 }
    requires window { IsWindow group.old.disks at (length buf.old) window }
    requires size { length row.old ≡ 512 * window.count }
    requires below { 512 + 512 * window.first + length row.old ≤ length_of group.old }
    ensures leaves { LeavesGroup R.Rack group.old group.new rack.old rack.new }
    ensures done { OnTrue result (group.new ≡ group.old) }
    ensures fell { OnFalse result (FellOne group.old group.new) }
    ensures holds { KeepsHeld R.Rack group.old group.new rack.old rack.new }
    ensures own { OnTrue result ((has : ℕ → ℕ → ℕ) → AllTold R.Rack group.new rack.new → Holds R.Rack group.old rack.old has
        → ReadsOn group.old.disks j at has buf.new) }
    ensures disks { OnTrue result ((k : ℕ) → k < length buf.old → (spot_of group.old.disks (at + k)).disk ≢ j → slice_index buf.new k ≡ slice_index buf.old k) }
    ensures idle { is_out group.old j ≡ true → rack.new ≡ rack.old }
    ensures calls { MostCalls R.Rack 1 rack.old rack.new }
{
    if !is_wanted(group.disks, j, window, at, buf.len()) {
        return true;
    }
    if !read_row(group, rack, j, window, row, at, buf) {
        return false;
    }
    true
}

// Reads the bytes of a window, whose disks aren't out. False where one went out.
fn read_plain<R: Rack>(
    group: &mut Group,
    rack: &mut R,
    window: Window,
    row: &mut [u8],
    at: u64,
    buf: &mut [u8],
) -> bool
    requires ready { IsReady R.Rack group.old rack.old }
    requires there { (k : ℕ) → k < length buf.old → is_out group.old (spot_of group.old.disks (at + k)).disk ≡ false }
    requires some { 0 < length buf.old }
    requires range { at + length buf.old < 2 ^ 64 }
    requires window { IsWindow group.old.disks at (length buf.old) window }
    requires size { length row.old ≡ 512 * window.count }
    requires below { 512 + 512 * window.first + length row.old ≤ length_of group.old }
    ensures leaves { LeavesGroup R.Rack group.old group.new rack.old rack.new }
    ensures done { OnTrue result (group.new ≡ group.old) }
    ensures fell { OnFalse result (FellOne group.old group.new) }
    ensures holds { KeepsHeld R.Rack group.old group.new rack.old rack.new }
    ensures got { OnTrue result ((has : ℕ → ℕ → ℕ) → AllTold R.Rack group.new rack.new → Holds R.Rack group.old rack.old has
        → ReadsUpto group.old.disks group.old.disks at has buf.new) }
    ensures calls { MostCalls R.Rack (in_of group.old) rack.old rack.new }
{
    for j in 0..group.disks {
        if !read_wanted(group, rack, j, window, row, at, buf) {
            return false;
        }
    }
    true
}

// Reads some stripes of a disk other than the one that is out, puts its bytes where they are asked for, and changes a row by them. False where the
// disk went out.
fn add_row<R: Rack>(
    group: &mut Group,
    rack: &mut R,
    j: u8,
    o: u8,
    window: Window,
    row: &mut [u8],
    sum: &mut [u8],
    at: u64,
    buf: &mut [u8],
) -> bool
    requires ready { IsReady R.Rack group.old rack.old }
    requires alive { is_lost group.old ≡ false }
    requires disk { j < group.old.disks }
    requires out { is_out group.old o ≡ true }
    requires some { 0 < length buf.old }
    requires range { at + length buf.old < 2 ^ 64 }
    requires window { IsWindow group.old.disks at (length buf.old) window }
    requires size { length row.old ≡ 512 * window.count }
    requires sum { length sum.old ≡ 512 * window.count }
    requires below { 512 + 512 * window.first + length row.old ≤ length_of group.old }
    ensures leaves { LeavesGroup R.Rack group.old group.new rack.old rack.new }
    ensures done { OnTrue result (group.new ≡ group.old) }
    ensures fell { OnFalse result (FellOne group.old group.new) }
    ensures holds { KeepsHeld R.Rack group.old group.new rack.old rack.new }
    ensures own { OnTrue result ((has : ℕ → ℕ → ℕ) → AllTold R.Rack group.new rack.new → Holds R.Rack group.old rack.old has
        → j ≢ o → ReadsOn group.old.disks j at has buf.new) }
    ensures disks { OnTrue result ((k : ℕ) → k < length buf.old → (spot_of group.old.disks (at + k)).disk ≢ j → slice_index buf.new k ≡ slice_index buf.old k) }
    ensures added { OnTrue result ((has : ℕ → ℕ → ℕ) → AllTold R.Rack group.new rack.new → Holds R.Rack group.old rack.old has
        → (k : ℕ) → k < length sum.new
        → slice_index sum.new k ≡ bit_xor (slice_index sum.old k) (with_at (λ i. has i (512 + 512 * window.first + k)) o 0 j)) }
    ensures idle { j ≡ o → rack.new ≡ rack.old }
    ensures calls { MostCalls R.Rack 1 rack.old rack.new }
{
    if j == o {
        return true;
    }
    if !read_row(group, rack, j, window, row, at, buf) {
        return false;
    }
    xor_into(sum, row);
    true
}

// The same of all disks.
fn add_rows<R: Rack>(
    group: &mut Group,
    rack: &mut R,
    o: u8,
    window: Window,
    row: &mut [u8],
    sum: &mut [u8],
    at: u64,
    buf: &mut [u8],
) -> bool
    requires ready { IsReady R.Rack group.old rack.old }
    requires alive { is_lost group.old ≡ false }
    requires out { is_out group.old o ≡ true }
    requires some { 0 < length buf.old }
    requires range { at + length buf.old < 2 ^ 64 }
    requires window { IsWindow group.old.disks at (length buf.old) window }
    requires size { length row.old ≡ 512 * window.count }
    requires sum { length sum.old ≡ 512 * window.count }
    requires below { 512 + 512 * window.first + length row.old ≤ length_of group.old }
    ensures leaves { LeavesGroup R.Rack group.old group.new rack.old rack.new }
    ensures done { OnTrue result (group.new ≡ group.old) }
    ensures fell { OnFalse result (FellOne group.old group.new) }
    ensures holds { KeepsHeld R.Rack group.old group.new rack.old rack.new }
    ensures got { OnTrue result ((has : ℕ → ℕ → ℕ) → AllTold R.Rack group.new rack.new → Holds R.Rack group.old rack.old has
        → (k : ℕ) → k < length buf.new → (spot_of group.old.disks (at + k)).disk ≢ o
        → slice_index buf.new k ≡ has (spot_of group.old.disks (at + k)).disk (spot_of group.old.disks (at + k)).place) }
    ensures added { OnTrue result ((has : ℕ → ℕ → ℕ) → AllTold R.Rack group.new rack.new → Holds R.Rack group.old rack.old has
        → (k : ℕ) → k < length sum.new
        → slice_index sum.new k ≡ bit_xor (slice_index sum.old k) (xor_upto (with_at (λ i. has i (512 + 512 * window.first + k)) o 0) group.old.disks)) }
    ensures calls { MostCalls R.Rack (in_of group.old) rack.old rack.new }
{
    for j in 0..group.disks {
        if !add_row(group, rack, j, o, window, row, sum, at, buf) {
            return false;
        }
    }
    true
}

// Reads the bytes of a window while a disk is out. Its bytes are made from those of the others, each of which is called once. False where the group is
// lost.
fn read_made<R: Rack>(
    group: &mut Group,
    rack: &mut R,
    o: u8,
    window: Window,
    row: &mut [u8],
    at: u64,
    buf: &mut [u8],
) -> bool
    requires ready { IsReady R.Rack group.old rack.old }
    requires alive { is_lost group.old ≡ false }
    requires disk { o < group.old.disks }
    requires out { is_out group.old o ≡ true }
    requires some { 0 < length buf.old }
    requires range { at + length buf.old < 2 ^ 64 }
    requires window { IsWindow group.old.disks at (length buf.old) window }
    requires size { length row.old ≡ 512 * window.count }
    requires below { 512 + 512 * window.first + length row.old ≤ length_of group.old }
    ensures leaves { LeavesGroup R.Rack group.old group.new rack.old rack.new }
    ensures alive { result ≡ not (is_lost group.new) }
    ensures done { OnTrue result (group.new ≡ group.old) }
    ensures holds { KeepsHeld R.Rack group.old group.new rack.old rack.new }
    ensures got { OnTrue result ((has : ℕ → ℕ → ℕ) → AllTold R.Rack group.new rack.new → Holds R.Rack group.old rack.old has
        → IsEven group.old.disks group.old.length has → ReadsUpto group.old.disks group.old.disks at has buf.new) }
    ensures calls { MostCalls R.Rack (in_of group.old) rack.old rack.new }
{
    let mut page = [0; ROW];
    let sum = &mut page[..512 * window.count];
    clear(sum);
    if !add_rows(group, rack, o, window, row, sum, at, buf) {
        return false;
    }
    scatter(group.disks, o, window.first, sum, at, buf);
    true
}

// The disk that is out, if it has some of the bytes of a window.
fn wanted_out(group: &Group, window: Window, at: u64, size: usize) -> Option<u8>
    requires alive { is_lost group.now ≡ false }
    requires some { 0 < size }
    requires range { at + size < 2 ^ 64 }
    requires window { IsWindow group.now.disks at size window }
    ensures some { IfSome result (λ o. (o < group.now.disks) × (is_out group.now o ≡ true)) }
    ensures none { result ≡ None → (k : ℕ) → k < size → is_out group.now (spot_of group.now.disks (at + k)).disk ≡ false }
{
    let Some(o) = group.out_disk() else {
        return None;
    };
    if !is_wanted(group.disks, o, window, at, size) {
        return None;
    }
    Some(o)
}

// Reads the bytes of a window. False where the group is lost.
fn read_stripes<R: Rack>(
    group: &mut Group,
    rack: &mut R,
    window: Window,
    row: &mut [u8],
    at: u64,
    buf: &mut [u8],
) -> bool
    requires ready { IsReady R.Rack group.old rack.old }
    requires alive { is_lost group.old ≡ false }
    requires some { 0 < length buf.old }
    requires range { at + length buf.old < 2 ^ 64 }
    requires window { IsWindow group.old.disks at (length buf.old) window }
    requires size { length row.old ≡ 512 * window.count }
    requires below { 512 + 512 * window.first + length row.old ≤ length_of group.old }
    ensures leaves { LeavesGroup R.Rack group.old group.new rack.old rack.new }
    ensures alive { result ≡ not (is_lost group.new) }
    ensures holds { KeepsHeld R.Rack group.old group.new rack.old rack.new }
    ensures got { OnTrue result ((has : ℕ → ℕ → ℕ) → AllTold R.Rack group.new rack.new → Holds R.Rack group.old rack.old has
        → IsEven group.old.disks group.old.length has → ReadsUpto group.old.disks group.old.disks at has buf.new) }
    ensures steady { OnTrue result (((group.new ≡ group.old) × MostCalls R.Rack (in_of group.old) rack.old rack.new) ⊎ FellOne group.old group.new) }
    ensures calls { MostCalls R.Rack (2 * group.old.disks) rack.old rack.new }
{
    if let Some(o) = wanted_out(group, window, at, buf.len()) {
        return read_made(group, rack, o, window, row, at, buf);
    }
    if read_plain(group, rack, window, row, at, buf) {
        return true;
    }
    if group.is_lost() {
        return false;
    }
    let Some(o) = group.out_disk() else {
        return false;
    };
    if !read_made(group, rack, o, window, row, at, buf) {
        return false;
    }
    true
}

/// Reads bytes of a member that stand in 16 stripes at most. False where the group is lost.
pub(crate) fn read_window<R: Rack>(group: &mut Group, rack: &mut R, at: u64, buf: &mut [u8]) -> bool
    requires ready { IsReady R.Rack group.old rack.old }
    requires alive { is_lost group.old ≡ false }
    requires some { 0 < length buf.old }
    requires window { stripe_of group.old.disks ((at + (length buf.old - 1)) / 512) < stripe_of group.old.disks (at / 512) + 16 }
    requires range { at + length buf.old ≤ group.old.length }
    ensures leaves { LeavesGroup R.Rack group.old group.new rack.old rack.new }
    ensures alive { result ≡ not (is_lost group.new) }
    ensures stands { KeepsMember R.Rack group.old group.new rack.old rack.new }
    ensures got { OnTrue result ((bytes : List ℕ) → AllTold R.Rack group.new rack.new → StandsFor R.Rack group.old rack.old bytes
        → (k : ℕ) → k < length buf.new → slice_index buf.new k ≡ slice_index bytes (at + k)) }
    ensures steady { OnTrue result (((group.new ≡ group.old) × MostCalls R.Rack (in_of group.old) rack.old rack.new) ⊎ FellOne group.old group.new) }
    ensures calls { MostCalls R.Rack (2 * group.old.disks) rack.old rack.new }
{
    let window = window_of(group.disks, at, buf.len());
    let mut page = [0; ROW];
    let row = &mut page[..512 * window.count];
    if !read_stripes(group, rack, window, row, at, buf) {
        return false;
    }
    true
}
