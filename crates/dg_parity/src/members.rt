// The bytes of a member.
#![tactic(auto, using(crate::proofs::GroupLemmas::leaves_none))]

ghost use Rattle.std.specs.Prelude.{◌≡◌, ◌⊎◌, ◌+◌, ◌*◌, ◌<◌, ◌≤◌, ℕ, List, true, false, length, slice_index, not};
ghost use Rattle.std.specs.Bool.{OnTrue};
ghost use Rattle.dg_io.specs.Told.{patch};
ghost use Rattle.dg_parity.specs.Runs.{passes_in, reads_at};
ghost use Rattle.dg_parity.specs.Groups.{is_lost, is_out, in_of, FellOne, IsReady, AllTold, LeavesGroup, StandsFor, MostCalls, KeepsMember, StaysOrFell};
ghost use Rattle.dg_parity.specs.Updates.{StaysLeast};

use crate::groups::Group;
use crate::run_reads::read_window;
use crate::run_writes::write_window;
use crate::windows::in_window;
use dg_io::Rack;

/// Reads bytes of a member, in passes of 16 stripes. False where the group is lost.
pub(crate) fn read_member<R: Rack>(
    group: &mut Group,
    rack: &mut R,
    place: u64,
    buf: &mut [u8],
) -> bool
    requires ready { IsReady R.Rack group.old rack.old }
    requires alive { is_lost group.old ≡ false }
    requires range { place + length buf.old ≤ group.old.length }
    ensures leaves { LeavesGroup R.Rack group.old group.new rack.old rack.new }
    ensures alive { result ≡ not (is_lost group.new) }
    ensures stands { KeepsMember R.Rack group.old group.new rack.old rack.new }
    ensures got { OnTrue result ((bytes : List ℕ) → AllTold R.Rack group.new rack.new → StandsFor R.Rack group.old rack.old bytes
        → (k : ℕ) → k < length buf.new → slice_index buf.new k ≡ slice_index bytes (place + k)) }
    ensures steady { OnTrue result (((group.new ≡ group.old)
        × MostCalls R.Rack (in_of group.old * passes_in group.old.disks place (length buf.old)) rack.old rack.new) ⊎ FellOne group.old group.new) }
    ensures calls { MostCalls R.Rack (group.old.disks * passes_in group.old.disks place (length buf.old) + 2 * group.old.disks) rack.old rack.new }
{
    let mut done = 0;
    while done < buf.len() {
        let at = place + done as u64;
        let part = in_window(group.disks, at, buf.len() - done);
        if !read_window(group, rack, at, &mut buf[done..done + part]) {
            return false;
        }
        done += part;
    }
    true
}

/// Writes bytes of a member, in passes of 16 stripes, of a group whose headers say which disks are out. False where the group is lost.
pub(crate) fn write_member<R: Rack>(group: &mut Group, rack: &mut R, place: u64, buf: &[u8]) -> bool
    requires ready { IsReady R.Rack group.old rack.old }
    requires alive { is_lost group.old ≡ false }
    requires range { place + length buf.now ≤ group.old.length }
    requires noted { group.old.noted ≡ true }
    ensures leaves { LeavesGroup R.Rack group.old group.new rack.old rack.new }
    ensures alive { result ≡ not (is_lost group.new) }
    ensures put { OnTrue result ((bytes : List ℕ) → AllTold R.Rack group.new rack.new → StandsFor R.Rack group.old rack.old bytes
        → StandsFor R.Rack group.new rack.new (patch bytes place buf.now)) }
    ensures steady { OnTrue result (StaysOrFell group.old group.new) }
    ensures least { OnTrue result (StaysLeast R.Rack group.old.disks (is_out group.old) place (length buf.now) group.old group.new rack.old rack.new) }
    ensures calls { MostCalls R.Rack (group.old.disks * passes_in group.old.disks place (length buf.now) + (reads_at group.old.disks place
        + reads_at group.old.disks (place + length buf.now))) rack.old rack.new }
{
    let mut done = 0;
    while done < buf.len() {
        let at = place + done as u64;
        let part = in_window(group.disks, at, buf.len() - done);
        if !write_window(group, rack, at, &buf[done..done + part]) {
            return false;
        }
        done += part;
    }
    true
}
