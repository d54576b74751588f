// Replays whose first line makes an array that keeps a checkpoint.
ghost use Rattle.std.specs.Prelude.{◌≡◌, ◌++◌, ◌∷◌, [], All, IfOk, List, Option, codes, length, ℕ};
ghost use Rattle.dg_io.specs.Kept.{Kept};
ghost use Rattle.dg_io.specs.Racks.{counts_in, member_in};
ghost use Rattle.dg_io.specs.Sinks.{taken_in};
ghost use Rattle.dg_model.specs.States.{Counts};
ghost use Rattle.dg_model.specs.declared.events.Event.{Event};
ghost use Rattle.dg_model.specs.declared.replies.Reply.{Reply};
ghost use Rattle.dg_model.specs.declared.shapes.Shape.{Shape};
ghost use Rattle.dg_run.specs.Calls.{Facts, met_by};
ghost use Rattle.dg_run.specs.Finds.{Sees};
ghost use Rattle.dg_run.specs.Opened.{IsKnownKept, kept_moment};
ghost use Rattle.dg_run.specs.Replays.{Ran, TellsBoundaries};
ghost use Rattle.dg_run.specs.Resumes.{RanOnKept, WasFound};
ghost use Rattle.dg_saved.specs.Calls.{Facts as SeenFacts};
ghost use Rattle.dg_uses.specs.Checkpoints.{LeavesKept, ReopensBlock, ReopensFound, ReopensResumed, ReopensSaved};
ghost use Rattle.dg_uses.specs.Promises.{IsToldAtEnd};
ghost use Rattle.dg_uses.specs.Replays.{HasReplayed};

use crate::replays::{OUTPUT, Replay, replay_text, replay_words, run_replay};
use dg_io::{MemRack, MemSink, MemSource, NoMemory, Rack};
use dg_run::Status;
use dg_text::{input_is_unique, line_is_unique};
use std::alloc::Global;

// Bytes of a member of the array 1024 64 4 32 2 that keeps a checkpoint.
const LENGTH: u64 = 73_728;

/// The second line is refused, by the numbers of the first one.
pub fn refuse_behind_safe(alloc: Global) -> Result<Replay, NoMemory>
    ensures { IfOk result (λ end. end.status ≡ Status.BadLine → taken_in end.sink ≡ codes "ok\nline 2 word\n") }
{
    line_is_unique();
    replay_text(alloc, b"safe 1024 64 4 32 2\nreed 3\n", Vec::new(alloc))
}

/// A replay of such an array on a rack that is steady, and still tells each member of the array at the end. Of its saves that were answered by `saved q`
/// the last one, behind which neither a save nor a replacement is tried, is what the members are reopened as, however much was done since and however the
/// run ended: the state that the events up to it led to, and from which those behind it led on.
pub fn safe_replays_keep_their_last_save<R: Rack>()
    ensures { (start end : R) (before now : Counts) (images bytes : ℕ → Option (List ℕ)) (shape : Shape) (front rest : List Event)
        (answers others : List Reply) (number : ℕ) → length answers ≡ length front → All LeavesKept rest
        → (ran : Ran before now images bytes (R.steady start) (R.tells end) (Event.Safe shape ∷ (front ++ Event.Save ∷ rest))
        (Reply.Done ∷ (answers ++ Reply.Saved number ∷ others))) → R.steady start → IsToldAtEnd (R.tells end) ran
        → ReopensSaved (TellsBoundaries (R.tells end) ran.final.state) before shape front answers number rest others ran.final bytes }
{}

/// A resumed array that keeps a checkpoint, on a rack that was steady and whose known members were reopened as `kept`; the rack still tells each member of the
/// first line's boundaries at the end, and the members held the blocks V when it was opened. Of the saves that were answered by `saved q` the last one, behind
/// which neither a save nor a replacement is tried, is what the members are reopened as at the end, however the run ended: the state that the events up to it
/// led to from the opening, and from which those behind it led on. Where neither is tried at all they are still reopened as `kept`, as the array shows it.
pub fn resumed_arrays_keep_their_last_save<R: Rack>()
    ensures saved { (start end : R) (facts : Facts) (seen : SeenFacts) (sees : Sees (R.tells end) (met_by facts) seen) (front rest : List Event)
        (answers others : List Reply) (number : ℕ) → length answers ≡ length front → All LeavesKept rest
        → (ran : RanOnKept (R.tells end) (WasFound (R.steady start) sees.known facts) facts seen sees.said (front ++ Event.Save ∷ rest)
        (answers ++ Reply.Saved number ∷ others)) (V : List (List ℕ)) (size : length V ≡ ran.source.saved.table.shape.n)
        → IsKnownKept (R.tells end) facts seen sees.said ran.opened ran.source V → (kept : Kept) → WasFound (R.steady start) sees.known facts kept
        → ReopensResumed (IsKnownKept (R.tells end) facts seen sees.said ran.opened ran.source V) facts sees.said
        (kept_moment (ran.runs V size).resumed.state (ran.runs V size).resumed.beneath) front answers number rest others (ran.runs V size).resumed.final }
    ensures found { (start end : R) (facts : Facts) (seen : SeenFacts) (sees : Sees (R.tells end) (met_by facts) seen) (events : List Event)
        (replies : List Reply) → All LeavesKept events
        → (ran : RanOnKept (R.tells end) (WasFound (R.steady start) sees.known facts) facts seen sees.said events replies)
        (V : List (List ℕ)) (size : length V ≡ ran.source.saved.table.shape.n)
        → IsKnownKept (R.tells end) facts seen sees.said ran.opened ran.source V → (kept : Kept) → WasFound (R.steady start) sees.known facts kept
        → ReopensFound facts sees.said kept (ran.runs V size).resumed.final.state }
{}

// Replays a text over a rack of eight members, each of them there, with room for such an array.
fn replay_kept(alloc: Global, text: &[u8]) -> Result<Replay, NoMemory>
    ensures { IfOk result (λ end. end.status ≡ Status.Done → HasReplayed text.now end) }
{
    let words = replay_words(alloc)?;
    let Ok(bytes) = Vec::from_slice(alloc, text) else {
        return Err(NoMemory);
    };
    let mut source = MemSource::new(bytes, Vec::new(alloc));
    let mut sink = MemSink::new(alloc, OUTPUT, Vec::new(alloc))?;
    let mut rack = MemRack::new(alloc, 8, LENGTH, Vec::new(alloc))?;
    let status = run_replay(alloc, &words, &mut source, &mut sink, &mut rack);
    Ok(Replay {
        status,
        source,
        sink,
        rack,
    })
}

/// A block is written and saved. Where that is what was printed, the members are reopened as the state that these three lines led to, in which the block has
/// these bytes.
pub fn keep_what_was_written(alloc: Global) -> Result<Replay, NoMemory>
    ensures { IfOk result (λ end. end.status ≡ Status.Done → taken_in end.sink ≡ codes "ok\nok\nsaved 1\n"
        → ReopensBlock (record { l = 1024; n = 64; b = 4; k = 32; m = 2 }) 3 (104 ∷ 105 ∷ []) (counts_in end.rack) (member_in end.rack)) }
{
    input_is_unique();
    replay_kept(alloc, b"safe 1024 64 4 32 2\nwrite 3 6869\nsave\n")
}
