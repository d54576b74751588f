// A commit of members of a double rack.
ghost use Rattle.std.specs.Prelude.{◌≡◌, ◌≤◌, ℕ, length, true, ◌↔◌, IsSome};
ghost use Rattle.std.specs.List.{Contains};
ghost use Rattle.dg_stop.specs.Behind.{MostCalls, calls_of_commit, members_of};
ghost use Rattle.dg_stop.specs.DoubleCommits.{KeepsCommit, LeavesMembers, answer_in, fell_now};
ghost use Rattle.dg_stop.specs.Doubles.{AreHeld, stands_in};
ghost use Rattle.dg_stop.specs.Phases.{flag_in};
ghost use Rattle.dg_stop.specs.Tries.{AreTried};

use crate::memories::Memory;
use crate::phases::MEMBERS;
use crate::settles::settle_all;
use crate::tries::commit_all;
use dg_io::{CommitAnswer, Rack};

/// From this sequence on no commit is begun: its headers might not count.
const PAST_SEQUENCES: u64 = (1 << 62) - 64;

/// Makes a commit of the members that serve, all of which stand, and answers its sequence, or `None` where none of them is left. Who fell in it
/// stands no more. `tried` tells of which members the last commit is that was begun.
pub fn commit_members<R: Rack>(
    rack: &mut R,
    memory: &mut Memory,
    extra: &[u8],
    serving: &mut [bool; MEMBERS],
    tried: &mut [bool; MEMBERS],
) -> Option<u64>
    requires held { AreHeld R.Rack memory.old rack.old }
    requires stand { (q : ℕ) → flag_in serving.old q ≡ true → stands_in memory.old q ≡ true }
    requires fits { length extra.now ≤ memory.old.room }
    ensures answer { IsSome result ↔ Contains serving.new true }
    ensures tried { AreTried tried.new serving.old serving.new }
    ensures calls { MostCalls R.Rack (calls_of_commit (members_of (flag_in serving.old)) (members_of (fell_now serving.old serving.new))) rack.old rack.new }
    ensures leaves { LeavesMembers R.Rack serving.old serving.new memory.old memory.new rack.old rack.new }
    ensures kept { KeepsCommit R.Rack extra.now result tried.new memory.old memory.new rack.old rack.new }
{
    let served = *serving;
    if memory.top >= PAST_SEQUENCES {
        *tried = served;
        *serving = [false; MEMBERS];
        settle_all(memory, &served, serving);
        return None;
    }
    let made = commit_all(
        rack,
        &memory.current,
        memory.commit,
        &mut memory.top,
        memory.room,
        extra,
        serving,
        tried,
    );
    settle_all(memory, &served, serving);
    match made {
        Some(sequence) => {
            memory.commit = sequence;
            Some(sequence)
        }
        None => None,
    }
}

/// The answer to a commit in which these members fell, with its sequence if it was made.
pub fn answer_of(made: Option<u64>, fell: u32) -> CommitAnswer
    ensures { result ≡ answer_in made fell }
{
    match made {
        Some(sequence) => CommitAnswer::Committed { sequence, fell },
        None => CommitAnswer::Lost,
    }
}
