// Calls on one disk of a group.
#![tactic(auto, using(crate::proofs::GroupLemmas::leaves_none))]

ghost use Rattle.std.specs.Prelude.{◌≡◌, ◌≢◌, ◌⊎◌, ◌+◌, ◌*◌, ◌<◌, ◌≤◌, ℕ, true, false, length, slice_index};
ghost use Rattle.std.specs.Bool.{OnTrue, OnFalse};
ghost use Rattle.dg_model.specs.Causes.{Rose};
ghost use Rattle.dg_parity.specs.Stripes.{put};
ghost use Rattle.dg_parity.specs.Groups.{is_out, is_lost, length_of, HasHead, FellOne, IsReady, Holds, AllTold, LeavesGroup, MostCalls, KeepsHeld, StaysOrFell};

use crate::groups::Group;
use crate::headers::{CHUNK, fill_header};
use dg_io::Rack;

/// Writes the header of a disk, where it isn't out. False where that failed: the disk is out then.
fn write_header<R: Rack>(group: &mut Group, rack: &mut R, j: u8) -> bool
    requires ready { IsReady R.Rack group.old rack.old }
    requires renewed { group.old.noted ≡ false }
    requires disk { j < group.old.disks }
    ensures leaves { LeavesGroup R.Rack group.old group.new rack.old rack.new }
    ensures done { OnTrue result (group.new ≡ group.old) }
    ensures fell { OnFalse result ((is_out group.old j ≡ false) × (is_out group.new j ≡ true)) }
    ensures holds { KeepsHeld R.Rack group.old group.new rack.old rack.new }
    ensures headed { OnTrue result (is_out group.old j ≡ false → HasHead R.Rack group.old rack.new j) }
    ensures heads { OnTrue result ((i : ℕ) → i ≢ j → HasHead R.Rack group.old rack.old i → HasHead R.Rack group.old rack.new i) }
    ensures calls { MostCalls R.Rack 1 rack.old rack.new }
{
    if group.is_out(j) {
        return true;
    }
    let mut page = [0; CHUNK];
    fill_header(&group.header(j), &mut page);
    match rack.write(group.disk(j), 0, &page) {
        Ok(()) => true,
        Err(_) => {
            group.mark(j);
            false
        }
    }
}

/// Writes the headers of the disks that aren't out. It ends at the first one that fails, which is out then, and answers false.
fn write_each<R: Rack>(group: &mut Group, rack: &mut R) -> bool
    requires ready { IsReady R.Rack group.old rack.old }
    requires renewed { group.old.noted ≡ false }
    ensures leaves { LeavesGroup R.Rack group.old group.new rack.old rack.new }
    ensures done { OnTrue result (group.new ≡ group.old) }
    ensures fell { OnFalse result (FellOne group.old group.new) }
    ensures holds { KeepsHeld R.Rack group.old group.new rack.old rack.new }
    ensures heads { OnTrue result ((i : ℕ) → i < group.old.disks → is_out group.old i ≡ false → HasHead R.Rack group.old rack.new i) }
    ensures calls { MostCalls R.Rack group.old.disks rack.old rack.new }
{
    for j in 0..group.disks {
        if !write_header(group, rack, j) {
            return false;
        }
    }
    true
}

/// Writes the headers of the disks that aren't out, with the next epoch. They are noted then, or one more disk is out.
fn write_round<R: Rack>(group: &mut Group, rack: &mut R)
    requires ready { IsReady R.Rack group.old rack.old }
    ensures leaves { LeavesGroup R.Rack group.old group.new rack.old rack.new }
    ensures noted { (group.new.noted ≡ true) ⊎ FellOne group.old group.new }
    ensures raised { Rose group.old.epoch group.new.epoch }
    ensures holds { KeepsHeld R.Rack group.old group.new rack.old rack.new }
    ensures calls { MostCalls R.Rack group.old.disks rack.old rack.new }
{
    group.renew();
    if !write_each(group, rack) {
        return;
    }
    group.settle();
}

/// Writes the headers, unless the group is lost. A disk whose header fails is out too, so the others get the next epoch again; with a second
/// one the group is lost.
fn write_rounds<R: Rack>(group: &mut Group, rack: &mut R)
    requires ready { IsReady R.Rack group.old rack.old }
    ensures leaves { LeavesGroup R.Rack group.old group.new rack.old rack.new }
    ensures noted { is_lost group.new ≡ false → group.new.noted ≡ true }
    ensures raised { is_lost group.old ≡ false → Rose group.old.epoch group.new.epoch }
    ensures holds { KeepsHeld R.Rack group.old group.new rack.old rack.new }
    ensures calls { MostCalls R.Rack (2 * group.old.disks) rack.old rack.new }
{
    if group.is_lost() {
        return;
    }
    write_round(group, rack);
    if group.is_noted() {
        return;
    }
    if group.is_lost() {
        return;
    }
    write_round(group, rack);
}

/// Notes on the disks which of them are out, where that isn't noted.
pub(crate) fn note<R: Rack>(group: &mut Group, rack: &mut R)
    requires ready { IsReady R.Rack group.old rack.old }
    ensures leaves { LeavesGroup R.Rack group.old group.new rack.old rack.new }
    ensures noted { is_lost group.new ≡ false → group.new.noted ≡ true }
    ensures raised { group.old.noted ≡ false → is_lost group.old ≡ false → Rose group.old.epoch group.new.epoch }
    ensures idle { group.old.noted ≡ true → (group.new ≡ group.old) × (rack.new ≡ rack.old) }
    ensures holds { KeepsHeld R.Rack group.old group.new rack.old rack.new }
    ensures calls { MostCalls R.Rack (2 * group.old.disks) rack.old rack.new }
{
    if group.is_noted() {
        return;
    }
    write_rounds(group, rack);
}

/// Reads from a disk that isn't out. False where that failed: the disk is out then.
pub(crate) fn read_disk<R: Rack>(
    group: &mut Group,
    rack: &mut R,
    j: u8,
    place: u64,
    buf: &mut [u8],
) -> bool
    requires ready { IsReady R.Rack group.old rack.old }
    requires disk { j < group.old.disks }
    requires there { is_out group.old j ≡ false }
    requires behind { 512 ≤ place }
    requires below { place + length buf.old ≤ length_of group.old }
    ensures leaves { LeavesGroup R.Rack group.old group.new rack.old rack.new }
    ensures done { OnTrue result (group.new ≡ group.old) }
    ensures fell { OnFalse result (is_out group.new j ≡ true) }
    ensures holds { KeepsHeld R.Rack group.old group.new rack.old rack.new }
    ensures got { OnTrue result ((has : ℕ → ℕ → ℕ) → AllTold R.Rack group.new rack.new → Holds R.Rack group.old rack.old has
        → (k : ℕ) → k < length buf.new → slice_index buf.new k ≡ has j (place + k)) }
    ensures calls { MostCalls R.Rack 1 rack.old rack.new }
{
    match rack.read(group.disk(j), place, buf) {
        Ok(()) => true,
        Err(_) => {
            group.mark(j);
            false
        }
    }
}

/// Writes to a disk, where it isn't out. Where that fails, the disk is out.
pub(crate) fn write_disk<R: Rack>(group: &mut Group, rack: &mut R, j: u8, place: u64, piece: &[u8])
    requires ready { IsReady R.Rack group.old rack.old }
    requires disk { j < group.old.disks }
    requires behind { 512 ≤ place }
    requires below { place + length piece.now ≤ length_of group.old }
    ensures leaves { LeavesGroup R.Rack group.old group.new rack.old rack.new }
    ensures holds { (has : ℕ → ℕ → ℕ) → AllTold R.Rack group.new rack.new → Holds R.Rack group.old rack.old has
        → Holds R.Rack group.new rack.new (put has j place piece.now) }
    ensures steady { StaysOrFell group.old group.new }
    ensures idle { is_out group.old j ≡ true → rack.new ≡ rack.old }
    ensures calls { MostCalls R.Rack 1 rack.old rack.new }
{
    if group.is_out(j) {
        return;
    }
    match rack.write(group.disk(j), place, piece) {
        Ok(()) => {}
        Err(_) => group.mark(j),
    }
}
