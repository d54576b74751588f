// Two calls, the first of which saves what it wrote: the second one is over the same members, or over others that begin as they do.
ghost use Rattle.std.specs.Prelude.{◌≡◌, ◌≤◌, ◌/◌, [], ℕ, Some, codes, map, string_bytes};
ghost use Rattle.dg_io.specs.Racks.{counts_in, member_in};
ghost use Rattle.dg_io.specs.Sinks.{taken_in};
ghost use Rattle.dg_io.specs.Sources.{left_in};
ghost use Rattle.dg_model.specs.Causes.{NoneRose};
ghost use Rattle.dg_uses.specs.Mirrors.{BeginAs};
ghost use Rattle.dg_uses.specs.Replays.{AreNone};
ghost use Rattle.dg_words.specs.Commands.{IsCommand};
ghost use Rattle.dg_words.specs.declared.commands.Command.{Command};

use crate::saves::saved_arrays_go_on;
use dg_io::{MemRack, MemSink, MemSource};
use dg_kept::{blank_members_are_older, saves_leave_the_state};
use dg_run::{Status, run};
use dg_save::labels_are_unique;
use dg_text::{input_is_unique, line_is_unique};
use std::alloc::Global;

/// Replays a write of a block and a save, and then resumes a read of it, on what the first call left. Where both are done and no member failed, the
/// second call prints what the first one wrote. The members behind the array's own have no bytes.
pub fn save_and_resume(
    alloc: Global,
    replay_words: &Vec<String>,
    source: &mut MemSource,
    sink: &mut MemSink,
    resume_words: &Vec<String>,
    more: &mut MemSource,
    text: &mut MemSink,
    rack: &mut MemRack,
) -> (Status, Status)
    ensures { IsCommand (map string_bytes replay_words.now.items) Command.Replay → IsCommand (map string_bytes resume_words.now.items) Command.Resume
        → left_in source.old ≡ codes "array 1024 64 4 32 2\nwrite 3 6869\nsave\n" → left_in more.old ≡ codes "read 3\n" → taken_in text.old ≡ []
        → AreNone (counts_in rack.old) → ((q : ℕ) → 4 ≤ q / 2 → member_in rack.old q ≡ Some [])
        → result.0 ≡ Status.Done → result.1 ≡ Status.Done → NoneRose (λ q. 0) (counts_in rack.new).faults
        → taken_in text.new ≡ codes "data 6869\n" }
{
    input_is_unique();
    line_is_unique();
    saves_leave_the_state();
    blank_members_are_older();
    saved_arrays_go_on::<MemRack>();
    let saved = run(alloc, replay_words, source, sink, rack);
    let resumed = run(alloc, resume_words, more, text, rack);
    (saved, resumed)
}

/// Replays a write of a block and a save, and then resumes a read past the last block, over another rack: each of its members begins with the label that the
/// first call left on the member of this number, or has no bytes. Whatever stands behind the labels, so that two mirrors may differ: where both calls are done,
/// and no member failed in the first one, the second one prints that the block is out of range. The members behind the array's own had no bytes.
pub fn resume_where_mirrors_differ(
    alloc: Global,
    replay_words: &Vec<String>,
    source: &mut MemSource,
    sink: &mut MemSink,
    rack: &mut MemRack,
    resume_words: &Vec<String>,
    more: &mut MemSource,
    text: &mut MemSink,
    other: &mut MemRack,
) -> (Status, Status)
    ensures { IsCommand (map string_bytes replay_words.now.items) Command.Replay → IsCommand (map string_bytes resume_words.now.items) Command.Resume
        → left_in source.old ≡ codes "array 1024 64 4 32 2\nwrite 3 6869\nsave\n" → left_in more.old ≡ codes "read 64\n" → taken_in text.old ≡ []
        → AreNone (counts_in rack.old) → ((q : ℕ) → 4 ≤ q / 2 → member_in rack.old q ≡ Some []) → NoneRose (λ q. 0) (counts_in rack.new).faults
        → BeginAs (member_in rack.new) (member_in other.old) → result.0 ≡ Status.Done → result.1 ≡ Status.Done
        → taken_in text.new ≡ codes "range\n" }
{
    input_is_unique();
    line_is_unique();
    saves_leave_the_state();
    blank_members_are_older();
    labels_are_unique();
    let saved = run(alloc, replay_words, source, sink, rack);
    let resumed = run(alloc, resume_words, more, text, other);
    (saved, resumed)
}
