// A commit, tried again until no member falls before it is made.
ghost use Rattle.std.specs.Prelude.{◌≡◌, ◌≢◌, ◌≤◌, ◌<◌, ◌+◌, ◌^◌, ◌%◌, ◌↔◌, ℕ, length, true, Option, IfSome, IsSome, IsTrue};
ghost use Rattle.std.specs.List.{Contains};
ghost use Rattle.dg_stop.specs.Behind.{MostCalls, calls_of_commit, members_of};
ghost use Rattle.dg_stop.specs.DoubleCommits.{fell_now};
ghost use Rattle.dg_stop.specs.Phases.{LeavesTries, Sized, flag_in};
ghost use Rattle.dg_stop.specs.Tries.{AreTried, TriesKeep};

use crate::phases::{MEMBERS, commit_once, next_after};
use crate::places::Places;
use dg_io::Rack;

/// Whether some member serves.
fn serves_any(serving: &[bool; MEMBERS]) -> bool
    ensures { IsTrue result ↔ Contains serving.now true }
{
    serving.contains(&true)
}

/// Makes a commit on the members that serve, and answers its sequence, or `None` where no member serves any more. `last` is the sequence of the
/// last commit, and `top` the greatest one that was seen. Where a member falls before anything is committed, it is begun again with those that
/// still serve; `tried` tells which they were at the last time.
pub fn commit_all<R: Rack>(
    rack: &mut R,
    members: &[Places],
    last: u64,
    top: &mut u64,
    room: u32,
    extra: &[u8],
    serving: &mut [bool; MEMBERS],
    tried: &mut [bool; MEMBERS],
) -> Option<u64>
    requires low { top.old + 64 < 2 ^ 62 }
    requires fits { length extra.now ≤ room }
    requires sized { (q : ℕ) → flag_in serving.old q ≡ true → Sized R.Rack members.now room q rack.old }
    ensures answer { IsSome result ↔ Contains serving.new true }
    ensures sequence { IfSome result (λ s. (s ≡ top.new) × (top.old < s) × (s % 2 ≢ last % 2)) }
    ensures top { (top.old ≤ top.new) × (top.new ≤ top.old + 64) }
    ensures tried { AreTried tried.new serving.old serving.new }
    ensures calls { MostCalls R.Rack (calls_of_commit (members_of (flag_in serving.old)) (members_of (fell_now serving.old serving.new))) rack.old rack.new }
    ensures leaves { LeavesTries R.Rack members.now room serving.old serving.new rack.old rack.new }
    ensures kept { TriesKeep R.Rack members.now room extra.now last top.old top.new result tried.new serving.old serving.new rack.old rack.new }
{
    *tried = *serving;
    while serves_any(serving) {
        let sequence = next_after(last, *top);
        *top = sequence;
        *tried = *serving;
        if commit_once(rack, members, sequence, room, extra, serving) {
            return if serves_any(serving) {
                Some(sequence)
            } else {
                None
            };
        }
    }
    None
}
