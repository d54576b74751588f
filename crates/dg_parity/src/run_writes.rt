// Writes of runs of chunks: the new parities are made first, and then each disk is called once for several stripes.
#![tactic(auto, using(crate::proofs::GroupLemmas::leaves_none))]

ghost use Rattle.std.specs.Prelude.{◌≡◌, ◌+◌, ◌-◌, ◌*◌, ◌/◌, ◌<◌, ◌≤◌, ◌^◌, nat_lt, ℕ, List, true, false, length, slice_index, bit_xor, not};
ghost use Rattle.std.specs.Bool.{OnTrue};
ghost use Rattle.dg_io.specs.Told.{patch};
ghost use Rattle.dg_parity.specs.Stripes.{parity_of, stripe_of};
ghost use Rattle.dg_parity.specs.Groups.{is_out, is_lost, length_of, IsReady, Holds, AllTold, LeavesGroup, MostCalls, KeepsHeld, StandsFor, StaysOrFell};
ghost use Rattle.dg_parity.specs.Exclusive.{xor_upto};
ghost use Rattle.dg_model.specs.Moves.{sum_upto};
ghost use Rattle.dg_parity.specs.Runs.{ArePages, IsPage, IsWhole, IsWindow, laid, mixed, reads_at, term_of};
ghost use Rattle.dg_parity.specs.Updates.{least_reads, reads_by, reads_for, reads_on, writes_for, writes_on, StaysLeast, StaysWithin};

use crate::disks::write_disk;
use crate::groups::Group;
use crate::parts::{clear, read_part};
use crate::rows::{change_page, gather, is_needed, span_of};
use crate::windows::{ROW, Window, parity_on, window_of};
use dg_io::Rack;

// Changes the new parity of stripe t by what disk j has to do with it. False where the group is lost.
fn add_term<R: Rack>(
    group: &mut Group,
    rack: &mut R,
    j: u8,
    t: u64,
    by_change: bool,
    at: u64,
    piece: &[u8],
    page: &mut [u8],
) -> bool
    requires ready { IsReady R.Rack group.old rack.old }
    requires alive { is_lost group.old ≡ false }
    requires disk { j < group.old.disks }
    requires some { 0 < length piece.now }
    requires range { at + length piece.now ≤ group.old.length }
    requires stripe { 512 + 512 * t + 512 ≤ length_of group.old }
    requires page { length page.old ≡ 512 }
    ensures leaves { LeavesGroup R.Rack group.old group.new rack.old rack.new }
    ensures alive { result ≡ not (is_lost group.new) }
    ensures holds { KeepsHeld R.Rack group.old group.new rack.old rack.new }
    ensures added { OnTrue result ((bytes : List ℕ) → length bytes ≡ group.old.length → AllTold R.Rack group.new rack.new
        → Holds R.Rack group.old rack.old (laid group.old.disks bytes)
        → (r : ℕ) → r < 512 → slice_index page.new r ≡ bit_xor (slice_index page.old r) (term_of group.old.disks t by_change bytes (patch bytes at piece.now) r j)) }
    ensures idle { by_change ≡ false → IsWhole group.old.disks t at (length piece.now) → rack.new ≡ rack.old }
    ensures steady { OnTrue result (StaysOrFell group.old group.new) }
    ensures few { OnTrue result (StaysWithin R.Rack (reads_on group.old.disks (is_out group.old) at (length piece.now) t by_change j)
        group.old group.new rack.old rack.new) }
    ensures calls { MostCalls R.Rack (group.old.disks + 1) rack.old rack.new }
{
    let mut chunk = [0; 512];
    clear(&mut chunk);
    if !is_needed(group.disks, j, t, by_change, at, piece.len()) {
        change_page(group.disks, j, t, by_change, at, piece, &mut chunk, page);
        return true;
    }
    if !read_part(group, rack, j, 512 + 512 * t, &mut chunk) {
        return false;
    }
    change_page(group.disks, j, t, by_change, at, piece, &mut chunk, page);
    true
}

// The same of all disks.
fn add_terms<R: Rack>(
    group: &mut Group,
    rack: &mut R,
    t: u64,
    by_change: bool,
    at: u64,
    piece: &[u8],
    page: &mut [u8],
) -> bool
    requires ready { IsReady R.Rack group.old rack.old }
    requires alive { is_lost group.old ≡ false }
    requires some { 0 < length piece.now }
    requires range { at + length piece.now ≤ group.old.length }
    requires stripe { 512 + 512 * t + 512 ≤ length_of group.old }
    requires page { length page.old ≡ 512 }
    ensures leaves { LeavesGroup R.Rack group.old group.new rack.old rack.new }
    ensures alive { result ≡ not (is_lost group.new) }
    ensures holds { KeepsHeld R.Rack group.old group.new rack.old rack.new }
    ensures added { OnTrue result ((bytes : List ℕ) → length bytes ≡ group.old.length → AllTold R.Rack group.new rack.new
        → Holds R.Rack group.old rack.old (laid group.old.disks bytes)
        → (r : ℕ) → r < 512 → slice_index page.new r
        ≡ bit_xor (slice_index page.old r) (xor_upto (term_of group.old.disks t by_change bytes (patch bytes at piece.now) r) group.old.disks)) }
    ensures idle { by_change ≡ false → IsWhole group.old.disks t at (length piece.now) → rack.new ≡ rack.old }
    ensures steady { OnTrue result (StaysOrFell group.old group.new) }
    ensures few { OnTrue result (StaysWithin R.Rack (reads_by group.old.disks (is_out group.old) at (length piece.now) t by_change)
        group.old group.new rack.old rack.new) }
    ensures calls { MostCalls R.Rack ((group.old.disks + 1) * group.old.disks) rack.old rack.new }
{
    for j in 0..group.disks {
        if !add_term(group, rack, j, t, by_change, at, piece, page) {
            return false;
        }
    }
    true
}

// How many calls it takes to read what disk j has to do with the new parity of a stripe.
fn calls_of(group: &Group, j: u8, t: u64, by_change: bool, at: u64, size: usize) -> u8
    requires disk { j < group.now.disks }
    requires some { 0 < size }
    requires range { at + size < 2 ^ 64 }
    requires small { t < 2 ^ 56 }
    ensures most { result ≤ 7 }
    ensures whole { by_change ≡ false → IsWhole group.now.disks t at size → result ≡ 0 }
    ensures exact { result ≡ reads_on group.now.disks (is_out group.now) at size t by_change j }
{
    if !is_needed(group.disks, j, t, by_change, at, size) {
        return 0;
    }
    if group.is_out(j) {
        return group.disks - 1;
    }
    1
}

// The same of all disks.
fn calls_for(group: &Group, t: u64, by_change: bool, at: u64, size: usize) -> u8
    requires some { 0 < size }
    requires range { at + size < 2 ^ 64 }
    requires small { t < 2 ^ 56 }
    ensures whole { by_change ≡ false → IsWhole group.now.disks t at size → result ≡ 0 }
    ensures exact { result ≡ reads_by group.now.disks (is_out group.now) at size t by_change }
{
    let mut calls = 0;
    for j in 0..group.disks {
        calls += calls_of(group, j, t, by_change, at, size);
    }
    calls
}

// Whether the new parity of a stripe takes fewer calls from the old one than from the chunks that aren't written.
fn is_by_change(group: &Group, t: u64, at: u64, size: usize) -> bool
    requires some { 0 < size }
    requires range { at + size < 2 ^ 64 }
    requires small { t < 2 ^ 56 }
    ensures whole { IsWhole group.now.disks t at size → result ≡ false }
    ensures exact { result ≡ nat_lt (reads_by group.now.disks (is_out group.now) at size t true) (reads_by group.now.disks (is_out group.now) at size t false) }
{
    calls_for(group, t, true, at, size) < calls_for(group, t, false, at, size)
}

// Makes the new parity of a stripe, where its disk isn't out at the end. False where the group is lost.
fn make_page<R: Rack>(
    group: &mut Group,
    rack: &mut R,
    t: u64,
    at: u64,
    piece: &[u8],
    page: &mut [u8],
) -> bool
    requires ready { IsReady R.Rack group.old rack.old }
    requires alive { is_lost group.old ≡ false }
    requires some { 0 < length piece.now }
    requires range { at + length piece.now ≤ group.old.length }
    requires stripe { 512 + 512 * t + 512 ≤ length_of group.old }
    requires long { at + length piece.now < 2 ^ 64 }
    requires small { t < 2 ^ 56 }
    requires page { length page.old ≡ 512 }
    ensures leaves { LeavesGroup R.Rack group.old group.new rack.old rack.new }
    ensures alive { result ≡ not (is_lost group.new) }
    ensures holds { KeepsHeld R.Rack group.old group.new rack.old rack.new }
    ensures right { OnTrue result ((bytes : List ℕ) → length bytes ≡ group.old.length → AllTold R.Rack group.new rack.new
        → Holds R.Rack group.old rack.old (laid group.old.disks bytes) → is_out group.new (parity_of group.old.disks t) ≡ false
        → IsPage group.old.disks t (patch bytes at piece.now) page.new) }
    ensures whole { IsWhole group.old.disks t at (length piece.now) → rack.new ≡ rack.old }
    ensures steady { OnTrue result (StaysOrFell group.old group.new) }
    ensures few { OnTrue result (StaysWithin R.Rack (least_reads group.old.disks (is_out group.old) at (length piece.now) t)
        group.old group.new rack.old rack.new) }
    ensures calls { MostCalls R.Rack ((group.old.disks + 1) * group.old.disks) rack.old rack.new }
{
    if group.is_out(parity_on(group.disks, t)) {
        return true;
    }
    clear(page);
    let by_change = is_by_change(group, t, at, piece.len());
    if !add_terms(group, rack, t, by_change, at, piece, page) {
        return false;
    }
    true
}

// Makes the new parities of the stripes of a window, where their disks aren't out at the end. False where the group is lost.
fn make_pages<R: Rack>(
    group: &mut Group,
    rack: &mut R,
    window: Window,
    at: u64,
    piece: &[u8],
    parities: &mut [u8],
) -> bool
    requires ready { IsReady R.Rack group.old rack.old }
    requires alive { is_lost group.old ≡ false }
    requires some { 0 < length piece.now }
    requires range { at + length piece.now ≤ group.old.length }
    requires window { IsWindow group.old.disks at (length piece.now) window }
    requires long { at + length piece.now < 2 ^ 64 }
    requires room { length parities.old ≡ 512 * window.count }
    ensures leaves { LeavesGroup R.Rack group.old group.new rack.old rack.new }
    ensures alive { result ≡ not (is_lost group.new) }
    ensures holds { KeepsHeld R.Rack group.old group.new rack.old rack.new }
    ensures right { OnTrue result ((bytes : List ℕ) → length bytes ≡ group.old.length → AllTold R.Rack group.new rack.new
        → Holds R.Rack group.old rack.old (laid group.old.disks bytes)
        → ArePages group.old.disks window.first window.count (is_out group.new) (patch bytes at piece.now) parities.new) }
    ensures steady { OnTrue result (StaysOrFell group.old group.new) }
    ensures few { OnTrue result (StaysWithin R.Rack (reads_for group.old.disks (is_out group.old) at (length piece.now))
        group.old group.new rack.old rack.new) }
    ensures calls { MostCalls R.Rack (reads_at group.old.disks at + reads_at group.old.disks (at + length piece.now)) rack.old rack.new }
{
    for q in 0..window.count {
        let page = &mut parities[512 * q..512 * q + 512];
        if !make_page(group, rack, window.first + q as u64, at, piece, page) {
            return false;
        }
    }
    true
}

// Writes what disk j gets in the stripes of a window: its chunks as far as the piece has them, and its parities. A disk that is out isn't called.
fn write_row<R: Rack>(
    group: &mut Group,
    rack: &mut R,
    j: u8,
    window: Window,
    at: u64,
    piece: &[u8],
    parities: &[u8],
)
    requires ready { IsReady R.Rack group.old rack.old }
    requires disk { j < group.old.disks }
    requires some { 0 < length piece.now }
    requires range { at + length piece.now ≤ group.old.length }
    requires window { IsWindow group.old.disks at (length piece.now) window }
    requires room { length parities.now ≡ 512 * window.count }
    ensures leaves { LeavesGroup R.Rack group.old group.new rack.old rack.new }
    ensures put { (bytes : List ℕ) → length bytes ≡ group.old.length → AllTold R.Rack group.new rack.new
        → ArePages group.old.disks window.first window.count (is_out group.old) (patch bytes at piece.now) parities.now
        → Holds R.Rack group.old rack.old (mixed group.old.disks bytes (patch bytes at piece.now) j)
        → Holds R.Rack group.new rack.new (mixed group.old.disks bytes (patch bytes at piece.now) (j + 1)) }
    ensures steady { StaysOrFell group.old group.new }
    ensures few { MostCalls R.Rack (sum_upto window.count (λ q. writes_on group.old.disks (is_out group.old) at (length piece.now) (window.first + q) j))
        rack.old rack.new }
    ensures calls { MostCalls R.Rack 1 rack.old rack.new }
{
    let mut page = [0; ROW];
    let row = &mut page[..512 * window.count];
    gather(group.disks, j, window, at, piece, parities, row);
    let span = span_of(group.disks, j, window, at, piece.len());
    if span.high <= span.low {
        return;
    }
    let place = 512 + 512 * window.first + span.low as u64;
    write_disk(group, rack, j, place, &row[span.low..span.high]);
}

// The same of all disks.
fn write_rows<R: Rack>(
    group: &mut Group,
    rack: &mut R,
    window: Window,
    at: u64,
    piece: &[u8],
    parities: &[u8],
)
    requires ready { IsReady R.Rack group.old rack.old }
    requires some { 0 < length piece.now }
    requires range { at + length piece.now ≤ group.old.length }
    requires window { IsWindow group.old.disks at (length piece.now) window }
    requires room { length parities.now ≡ 512 * window.count }
    ensures leaves { LeavesGroup R.Rack group.old group.new rack.old rack.new }
    ensures put { (bytes : List ℕ) → length bytes ≡ group.old.length → AllTold R.Rack group.new rack.new
        → ArePages group.old.disks window.first window.count (is_out group.old) (patch bytes at piece.now) parities.now
        → Holds R.Rack group.old rack.old (laid group.old.disks bytes)
        → Holds R.Rack group.new rack.new (laid group.old.disks (patch bytes at piece.now)) }
    ensures steady { StaysOrFell group.old group.new }
    ensures few { StaysWithin R.Rack (writes_for group.old.disks (is_out group.old) at (length piece.now)) group.old group.new rack.old rack.new }
    ensures calls { MostCalls R.Rack group.old.disks rack.old rack.new }
{
    for j in 0..group.disks {
        write_row(group, rack, j, window, at, piece, parities);
    }
}

/// Writes bytes of a member that stand in 16 stripes at most. The new parities are made before the first write. False where the group is lost.
pub(crate) fn write_window<R: Rack>(group: &mut Group, rack: &mut R, at: u64, piece: &[u8]) -> bool
    requires ready { IsReady R.Rack group.old rack.old }
    requires alive { is_lost group.old ≡ false }
    requires some { 0 < length piece.now }
    requires window { stripe_of group.old.disks ((at + (length piece.now - 1)) / 512) < stripe_of group.old.disks (at / 512) + 16 }
    requires range { at + length piece.now ≤ group.old.length }
    ensures leaves { LeavesGroup R.Rack group.old group.new rack.old rack.new }
    ensures alive { result ≡ not (is_lost group.new) }
    ensures put { OnTrue result ((bytes : List ℕ) → AllTold R.Rack group.new rack.new → StandsFor R.Rack group.old rack.old bytes
        → StandsFor R.Rack group.new rack.new (patch bytes at piece.now)) }
    ensures steady { OnTrue result (StaysOrFell group.old group.new) }
    ensures least { OnTrue result (StaysLeast R.Rack group.old.disks (is_out group.old) at (length piece.now) group.old group.new rack.old rack.new) }
    ensures calls { MostCalls R.Rack (reads_at group.old.disks at + reads_at group.old.disks (at + length piece.now) + group.old.disks) rack.old rack.new }
{
    let window = window_of(group.disks, at, piece.len());
    let mut page = [0; ROW];
    let parities = &mut page[..512 * window.count];
    if !make_pages(group, rack, window, at, piece, parities) {
        return false;
    }
    write_rows(group, rack, window, at, piece, parities);
    if group.is_lost() {
        return false;
    }
    true
}
