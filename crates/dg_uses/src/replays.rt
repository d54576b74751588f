// Replays between objects in memory.
ghost use Rattle.std.specs.Prelude.{◌≡◌, ◌≤◌, ◌+◌, [], IfOk, Some, codes, length, map, string_bytes};
ghost use Rattle.dg_io.specs.Racks.{counts_in, member_in, steady_in, told_in};
ghost use Rattle.dg_io.specs.SinkLines.{LeavesLines, MayWrite};
ghost use Rattle.dg_io.specs.Sinks.{sink_calls, taken_in};
ghost use Rattle.dg_io.specs.SourceReads.{LeavesSource};
ghost use Rattle.dg_io.specs.Sources.{left_in, source_calls};
ghost use Rattle.dg_run.specs.Replays.{BrokeOff, IsCut, Replayed, Stopped};
ghost use Rattle.dg_words.specs.Commands.{IsCommand};
ghost use Rattle.dg_words.specs.declared.commands.Command.{Command};
ghost use Rattle.dg_uses.specs.Replays.{HasBeenCut, HasBrokenOff, HasReplayed, HasStopped, IsFront, NeverFailed};

use dg_io::{MemRack, MemSink, MemSource, NoMemory};
use dg_run::{Status, run};
use dg_text::{input_is_unique, line_is_unique};
use std::alloc::Global;

// Bytes of a member of the array 1024 64 4 32 2, and of all replies.
const LENGTH: u64 = 35_817;

pub const OUTPUT: usize = 256;

/// A replay that came to its end: how, and what its objects hold then.
#[derive(Drop)]
pub struct Replay {
    pub status: Status,
    pub source: MemSource,
    pub sink: MemSink,
    pub rack: MemRack,
}

/// The words of a replay.
pub fn replay_words(alloc: Global) -> Result<Vec<String>, NoMemory>
    ensures { IfOk result (λ words. IsCommand (map string_bytes words.items) Command.Replay) }
{
    let mut words = Vec::new(alloc);
    let Ok(word) = String::from_str(alloc, "replay") else {
        return Err(NoMemory);
    };
    let Ok(()) = words.push(word) else {
        return Err(NoMemory);
    };
    Ok(words)
}

/// Runs a replay.
pub fn run_replay(
    alloc: Global,
    words: &Vec<String>,
    source: &mut MemSource,
    sink: &mut MemSink,
    rack: &mut MemRack,
) -> Status
    requires { IsCommand (map string_bytes words.now.items) Command.Replay }
    ensures done { result ≡ Status.Done → Replayed (counts_in rack.old) (counts_in rack.new) (member_in rack.old) (member_in rack.new)
        (steady_in rack.old) (told_in rack.new) (Some (left_in source.old)) (Some (left_in source.new)) (Some (taken_in sink.old)) (Some (taken_in sink.new)) }
    ensures bad_line { result ≡ Status.BadLine → Stopped (counts_in rack.old) (counts_in rack.new) (member_in rack.old) (member_in rack.new)
        (steady_in rack.old) (told_in rack.new) (Some (left_in source.old)) (Some (left_in source.new)) (Some (taken_in sink.old)) (Some (taken_in sink.new)) }
    ensures part { result ≡ Status.WriteFault → IsCut (counts_in rack.old) (counts_in rack.new) (member_in rack.old) (member_in rack.new)
        (steady_in rack.old) (told_in rack.new) (Some (left_in source.old)) (Some (left_in source.new)) (Some (taken_in sink.old)) (Some (taken_in sink.new)) }
    ensures broke { result ≡ Status.ReadFault → BrokeOff (counts_in rack.old) (counts_in rack.new) (member_in rack.old) (member_in rack.new)
        (steady_in rack.old) (told_in rack.new) (Some (left_in source.old)) (Some (left_in source.new)) (Some (taken_in sink.old)) (Some (taken_in sink.new)) }
    ensures lines { (result ≡ Status.WriteFault → ⊥) → LeavesLines 255 (λ s. Unit {0}) sink_calls (λ s. Some (taken_in s)) sink.old sink.new }
    ensures reads { LeavesSource source_calls (λ s. Some (left_in s)) 1 source.old source.new }
{
    run(alloc, words, source, sink, rack)
}

// Replays a text over a rack of eight members, each of them there, from a source and to a sink that fail at these of their calls.
#[tactic(auto, using(crate::proofs::FewCalls::lines_from_none, crate::proofs::FewCalls::reads_from_none))]
fn replay_failing(
    alloc: Global,
    text: &[u8],
    reads: Vec<u64>,
    writes: Vec<u64>,
) -> Result<Replay, NoMemory>
    ensures done { IfOk result (λ end. end.status ≡ Status.Done → HasReplayed text.now end) }
    ensures bad_line { IfOk result (λ end. end.status ≡ Status.BadLine → HasStopped text.now end) }
    ensures part { IfOk result (λ end. end.status ≡ Status.WriteFault → HasBeenCut text.now end) }
    ensures broke { IfOk result (λ end. end.status ≡ Status.ReadFault → HasBrokenOff text.now end) }
    ensures lines { IfOk result (λ end. (end.status ≡ Status.WriteFault → ⊥) → MayWrite 255 (sink_calls end.sink) (taken_in end.sink)) }
    ensures reads { IfOk result (λ end. source_calls end.source + length (left_in end.source) ≤ length text.now + 1) }
{
    let words = replay_words(alloc)?;
    let Ok(bytes) = Vec::from_slice(alloc, text) else {
        return Err(NoMemory);
    };
    let mut source = MemSource::new(bytes, reads);
    let mut sink = MemSink::new(alloc, OUTPUT, writes)?;
    let mut rack = MemRack::new(alloc, 8, LENGTH, Vec::new(alloc))?;
    let status = run_replay(alloc, &words, &mut source, &mut sink, &mut rack);
    Ok(Replay {
        status,
        source,
        sink,
        rack,
    })
}

/// Replays a text over such a rack, to a sink that fails at these of its calls.
pub fn replay_text(alloc: Global, text: &[u8], fails: Vec<u64>) -> Result<Replay, NoMemory>
    ensures done { IfOk result (λ end. end.status ≡ Status.Done → HasReplayed text.now end) }
    ensures bad_line { IfOk result (λ end. end.status ≡ Status.BadLine → HasStopped text.now end) }
    ensures part { IfOk result (λ end. end.status ≡ Status.WriteFault → HasBeenCut text.now end) }
    ensures lines { IfOk result (λ end. (end.status ≡ Status.WriteFault → ⊥) → MayWrite 255 (sink_calls end.sink) (taken_in end.sink)) }
    ensures reads { IfOk result (λ end. source_calls end.source + length (left_in end.source) ≤ length text.now + 1) }
{
    replay_failing(alloc, text, Vec::new(alloc), fails)
}

/// A block is written and read. Each of the three replies was written by one call, and each read of the source but one took a byte of the text.
pub fn read_what_was_written(alloc: Global) -> Result<Replay, NoMemory>
    ensures calls { IfOk result (λ end. end.status ≡ Status.Done → NeverFailed end → sink_calls end.sink ≤ 3) }
    ensures reads { IfOk result (λ end. source_calls end.source ≤ 42) }
    ensures prints { IfOk result (λ end. end.status ≡ Status.Done → NeverFailed end → taken_in end.sink ≡ codes "ok\nok\ndata 6869\n") }
{
    input_is_unique();
    replay_text(
        alloc,
        b"array 1024 64 4 32 2\nwrite 3 6869\nread 3\n",
        Vec::new(alloc),
    )
}

/// A member fails between two writes of a block, and the block is read.
pub fn read_past_a_failure(alloc: Global) -> Result<Replay, NoMemory>
    ensures { IfOk result (λ end. end.status ≡ Status.Done → NeverFailed end → taken_in end.sink ≡ codes "ok\nok\nok\nok\ndata bb\n") }
{
    input_is_unique();
    replay_text(
        alloc,
        b"array 1024 64 4 32 2\nwrite 3 aa\nfail 3 0\nwrite 3 bb\nread 3\n",
        Vec::new(alloc),
    )
}

/// Both members of a boundary fail: its block is lost, and nothing is written any more.
pub fn lose_a_block(alloc: Global) -> Result<Replay, NoMemory>
    ensures { IfOk result (λ end. end.status ≡ Status.Done → NeverFailed end → taken_in end.sink ≡ codes "ok\nok\nok\nok\nunavailable\ndegraded\n") }
{
    input_is_unique();
    replay_text(
        alloc,
        b"array 1024 64 4 32 2\nwrite 3 aa\nfail 3 0\nfail 3 1\nread 3\nwrite 2 00\n",
        Vec::new(alloc),
    )
}

/// A blank array is audited: its blocks hold no volume.
pub fn audit_a_blank_array(alloc: Global) -> Result<Replay, NoMemory>
    ensures { IfOk result (λ end. end.status ≡ Status.Done → NeverFailed end → taken_in end.sink ≡ codes "ok\nbad magic 0\nend 1\n") }
{
    input_is_unique();
    replay_text(alloc, b"array 1024 64 4 32 2\naudit\n", Vec::new(alloc))
}

/// The second line is refused.
pub fn refuse_the_second_line(alloc: Global) -> Result<Replay, NoMemory>
    ensures { IfOk result (λ end. end.status ≡ Status.BadLine → taken_in end.sink ≡ codes "ok\nline 2 word\n") }
{
    line_is_unique();
    replay_text(alloc, b"array 1024 64 4 32 2\nreed 3\n", Vec::new(alloc))
}

/// The sink fails at its first call, or at another: a front of the reply was written.
pub fn fail_at_the_first_reply(alloc: Global) -> Result<Replay, NoMemory>
    ensures { IfOk result (λ end. end.status ≡ Status.WriteFault → IsFront (taken_in end.sink) (codes "ok\n")) }
{
    line_is_unique();
    let Ok(fails) = Vec::from_slice(alloc, &[0]) else {
        return Err(NoMemory);
    };
    replay_text(alloc, b"array 1024 64 4 32 2\n", fails)
}

/// The source fails at its second call, behind the first bytes of a fourth line. Where it had given all of these, the lines that it gave whole were
/// answered, and nothing else is printed.
pub fn fail_at_the_second_read(alloc: Global) -> Result<Replay, NoMemory>
    ensures { IfOk result (λ end. end.status ≡ Status.ReadFault → NeverFailed end → left_in end.source ≡ []
        → taken_in end.sink ≡ codes "ok\nok\ndata 6869\n") }
{
    line_is_unique();
    let Ok(fails) = Vec::from_slice(alloc, &[1]) else {
        return Err(NoMemory);
    };
    replay_failing(
        alloc,
        b"array 1024 64 4 32 2\nwrite 3 6869\nread 3\nre",
        fails,
        Vec::new(alloc),
    )
}
