// A disk that comes back.
ghost use Rattle.std.specs.Prelude.{◌≡◌, ◌⊎◌, ◌+◌, ◌-◌, ◌*◌, ◌<◌, ◌≤◌, ℕ, true, false, length};
ghost use Rattle.std.specs.Bool.{OnTrue, OnFalse};
ghost use Rattle.dg_model.specs.Causes.{Rose};
ghost use Rattle.dg_parity.specs.Stripes.{IsEven, stripes_of};
ghost use Rattle.dg_parity.specs.Groups.{disk_number, is_out, is_lost, IsReady, Holds, AllTold, KeepsHeld, MostCalls};
ghost use Rattle.dg_parity.specs.Mends.{FilledTo, IsRefilled, LeavesBut};
ghost use Rattle.dg_parity.specs.Runs.{runs_of};

use crate::groups::Group;
use crate::parts::{add_others, clear};
use crate::windows::{ROW, STRIPES};
use dg_io::Rack;

// Makes the chunks of so many stripes from t on on disk j, which is out, from the others. False where a call failed.
fn mend_stripes<R: Rack>(group: &mut Group, rack: &mut R, j: u8, t: u64, part: usize) -> bool
    requires ready { IsReady R.Rack group.old rack.old }
    requires alive { is_lost group.old ≡ false }
    requires disk { j < group.old.disks }
    requires out { is_out group.old j ≡ true }
    requires stripes { t + part ≤ stripes_of group.old.disks group.old.length }
    requires few { part ≤ 16 }
    requires refilled { IsRefilled R.Rack group.old rack.old j }
    ensures leaves { LeavesBut R.Rack j group.old group.new rack.old rack.new }
    ensures done { OnTrue result (group.new ≡ group.old) }
    ensures calm { is_lost group.new ≡ false → group.new ≡ group.old }
    ensures fell { OnFalse result ((is_lost group.new ≡ true)
        ⊎ Rose ((R.counts rack.old).faults (disk_number group.old.number j)) ((R.counts rack.new).faults (disk_number group.old.number j))) }
    ensures refilled { OnTrue result (IsRefilled R.Rack group.new rack.new j) }
    ensures holds { KeepsHeld R.Rack group.old group.new rack.old rack.new }
    ensures filled { OnTrue result ((has : ℕ → ℕ → ℕ) → AllTold R.Rack group.new rack.new → Holds R.Rack group.old rack.old has
        → IsEven group.old.disks group.old.length has → FilledTo R.Rack group.old rack.old j has t → FilledTo R.Rack group.new rack.new j has (t + part)) }
    ensures calls { MostCalls R.Rack group.old.disks rack.old rack.new }
{
    let mut page = [0; ROW];
    let row = &mut page[..512 * part];
    clear(row);
    let place = 512 + 512 * t;
    if !add_others(group, rack, j, j, place, row) {
        return false;
    }
    match rack.write(group.disk(j), place, row) {
        Ok(()) => true,
        Err(_) => false,
    }
}

// How many of so many stripes are made in one run.
fn part_of(left: u64) -> usize
    ensures some { 0 < left → 0 < result }
    ensures most { result ≤ left }
    ensures few { result ≤ 16 }
    ensures runs { runs_of (left - result) + 1 ≤ runs_of left ⊎ (left ≡ 0) }
{
    left.min(STRIPES as u64) as usize
}

// Makes the chunks of a disk that is out from those of the others, in runs of 16 stripes. False where a call failed.
pub(crate) fn fill_disk<R: Rack>(group: &mut Group, rack: &mut R, j: u8, count: u64) -> bool
    requires ready { IsReady R.Rack group.old rack.old }
    requires alive { is_lost group.old ≡ false }
    requires disk { j < group.old.disks }
    requires out { is_out group.old j ≡ true }
    requires stripes { count ≡ stripes_of group.old.disks group.old.length }
    ensures leaves { LeavesBut R.Rack j group.old group.new rack.old rack.new }
    ensures done { OnTrue result (group.new ≡ group.old) }
    ensures calm { is_lost group.new ≡ false → group.new ≡ group.old }
    ensures fell { OnFalse result ((is_lost group.new ≡ true)
        ⊎ Rose ((R.counts rack.old).faults (disk_number group.old.number j)) ((R.counts rack.new).faults (disk_number group.old.number j))) }
    ensures refilled { OnTrue result (IsRefilled R.Rack group.new rack.new j) }
    ensures holds { KeepsHeld R.Rack group.old group.new rack.old rack.new }
    ensures filled { OnTrue result ((has : ℕ → ℕ → ℕ) → AllTold R.Rack group.new rack.new → Holds R.Rack group.old rack.old has
        → IsEven group.old.disks group.old.length has → FilledTo R.Rack group.new rack.new j has count) }
    ensures calls { MostCalls R.Rack (group.old.disks * runs_of count + 1) rack.old rack.new }
{
    let length = 512 + 512 * count;
    match rack.blank(group.disk(j), length) {
        Ok(()) => {}
        Err(_) => {
            return false;
        }
    }
    let mut t = 0;
    while t < count {
        let part = part_of(count - t);
        if !mend_stripes(group, rack, j, t, part) {
            return false;
        }
        t += part as u64;
    }
    true
}
