// The two passes of a commit over the members.
ghost use Rattle.std.specs.Prelude.{◌≡◌, ◌≢◌, ◌≤◌, ◌<◌, ◌*◌, ◌^◌, ◌%◌, ℕ, true, false};
ghost use Rattle.dg_io.specs.Makes.{Makes};
ghost use Rattle.dg_stop.specs.Behind.{MostCalls, calls_of_try, members_of, one_if};
ghost use Rattle.dg_stop.specs.Phases.{IsOnServed, CanPrepare, Finished, FinishedBelow, LeavesKept, LeavesOnce, LeavesOthers, PassedBelow, SoFar, Sized, flag_in};

use crate::commits::prepare;
use crate::headers::{Header, write_header};
use crate::places::Places;
use dg_io::Rack;

/// The most members.
pub const MEMBERS: usize = 32;

/// Prepares commit `sequence` on member `number`, if it serves. Where that fails it serves no more.
pub fn prepare_at<R: Rack>(
    rack: &mut R,
    members: &[Places],
    number: u8,
    sequence: u64,
    room: u32,
    extra: &[u8],
    serving: &mut [bool; MEMBERS],
)
    requires number { number < 32 }
    requires can { CanPrepare sequence room extra.now }
    requires sized { (q : ℕ) → flag_in serving.old q ≡ true → Sized R.Rack members.now room q rack.old }
    ensures calls { MostCalls R.Rack (3 * one_if (flag_in serving.old number)) rack.old rack.new }
    ensures made { Makes R.Rack (IsOnServed number (flag_in serving.old number)) rack.old rack.new }
    ensures own { SoFar R.Rack members.now sequence room extra.now number (flag_in serving.old number) (flag_in serving.new number) rack.old rack.new }
    ensures others { LeavesOthers R.Rack number serving.old serving.new rack.old rack.new }
{
    if serving[number as usize] {
        let held = &members[number as usize];
        let header = Header {
            sequence,
            committed: false,
            member: number,
            size: held.size,
            room,
            extra: extra.len() as u32,
        };
        if prepare(rack, &header, &held.bits, extra).is_err() {
            serving[number as usize] = false;
        }
    }
}

/// Prepares a commit on each member that serves. Those on which that fails serve no more.
pub fn prepare_all<R: Rack>(
    rack: &mut R,
    members: &[Places],
    sequence: u64,
    room: u32,
    extra: &[u8],
    serving: &mut [bool; MEMBERS],
)
    requires can { CanPrepare sequence room extra.now }
    requires sized { (q : ℕ) → flag_in serving.old q ≡ true → Sized R.Rack members.now room q rack.old }
    ensures { PassedBelow R.Rack members.now sequence room extra.now 32 serving.old serving.new rack.old rack.new }
{
    for number in 0..MEMBERS as u8 {
        prepare_at(rack, members, number, sequence, room, extra, serving);
    }
}

/// Writes the committed header of commit `sequence` on member `number`, if it serves. Where that fails it serves no more.
pub fn finish_at<R: Rack>(
    rack: &mut R,
    members: &[Places],
    number: u8,
    sequence: u64,
    room: u32,
    extra: &[u8],
    serving: &mut [bool; MEMBERS],
)
    requires number { number < 32 }
    requires can { CanPrepare sequence room extra.now }
    requires sized { flag_in serving.old number ≡ true → Sized R.Rack members.now room number rack.old }
    ensures calls { MostCalls R.Rack (one_if (flag_in serving.old number)) rack.old rack.new }
    ensures made { Makes R.Rack (IsOnServed number (flag_in serving.old number)) rack.old rack.new }
    ensures own { Finished R.Rack members.now sequence room extra.now number (flag_in serving.old number) (flag_in serving.new number) rack.old rack.new }
    ensures others { LeavesOthers R.Rack number serving.old serving.new rack.old rack.new }
{
    if serving[number as usize] {
        let held = &members[number as usize];
        let header = Header {
            sequence,
            committed: true,
            member: number,
            size: held.size,
            room,
            extra: extra.len() as u32,
        };
        if write_header(rack, &header).is_err() {
            serving[number as usize] = false;
        }
    }
}

/// Writes the committed header of a commit on each member that serves. Those on which that fails serve no more.
pub fn finish_all<R: Rack>(
    rack: &mut R,
    members: &[Places],
    sequence: u64,
    room: u32,
    extra: &[u8],
    serving: &mut [bool; MEMBERS],
)
    requires can { CanPrepare sequence room extra.now }
    requires sized { (q : ℕ) → flag_in serving.old q ≡ true → Sized R.Rack members.now room q rack.old }
    ensures { FinishedBelow R.Rack members.now sequence room extra.now 32 serving.old serving.new rack.old rack.new }
{
    for number in 0..MEMBERS as u8 {
        finish_at(rack, members, number, sequence, room, extra, serving);
    }
}

/// Makes commit `sequence` on the members that serve. Where one of them falls before anything is committed, it isn't tried; it may be begun
/// again with a greater sequence and those that still serve.
pub fn commit_once<R: Rack>(
    rack: &mut R,
    members: &[Places],
    sequence: u64,
    room: u32,
    extra: &[u8],
    serving: &mut [bool; MEMBERS],
) -> bool
    requires can { CanPrepare sequence room extra.now }
    requires sized { (q : ℕ) → flag_in serving.old q ≡ true → Sized R.Rack members.now room q rack.old }
    ensures calls { MostCalls R.Rack (calls_of_try result (members_of (flag_in serving.old))) rack.old rack.new }
    ensures leaves { LeavesOnce R.Rack members.now room result serving.old serving.new rack.old rack.new }
    ensures kept { LeavesKept R.Rack members.now sequence room extra.now result serving.old serving.new rack.old rack.new }
{
    let served = *serving;
    prepare_all(rack, members, sequence, room, extra, serving);
    if served != *serving {
        return false;
    }
    finish_all(rack, members, sequence, room, extra, serving);
    true
}

/// The sequence of the next commit: the least above all that were seen whose remainder by 2 isn't that of the last commit.
pub fn next_after(last: u64, top: u64) -> u64
    requires { top < 2 ^ 62 }
    ensures above { top < result }
    ensures apart { result % 2 ≢ last % 2 }
    ensures least { (n : ℕ) → top < n → n % 2 ≢ last % 2 → result ≤ n }
{
    if (top + 1) % 2 == last % 2 {
        top + 2
    } else {
        top + 1
    }
}
