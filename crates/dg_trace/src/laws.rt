// Laws of traces.
ghost use Rattle.std.specs.Prelude.{◌≡◌, ◌<◌, ◌≤◌, ◌*◌, ℕ, List, Result, length};
ghost use Rattle.dg_model.specs.Causes.{NoneRose};
ghost use Rattle.dg_model.specs.Runs.{Trace};
ghost use Rattle.dg_model.specs.States.{Counts, State};
ghost use Rattle.dg_model.specs.declared.replies.Reply.{Reply};
ghost use Rattle.dg_text.specs.Lines.{AreBytes, AreInPlace};
ghost use Rattle.dg_trace.specs.Answers.{IsAccepted, IsAnswer, events_of};
ghost use Rattle.dg_trace.specs.Replays.{AreTold, IsReplayed};
ghost use Rattle.dg_trace.specs.declared.asked.Asked.{Asked};
ghost use Rattle.dg_trace.specs.declared.asked.TraceRefusal.{TraceRefusal};
ghost use Rattle.ufs_model.specs.declared.geometries.Geometry.{Geometry};

/// An image is answered in no more than one way.
pub fn image_has_one_answer()
    ensures { (asked : Asked) (image : List ℕ) (one other : Result Geometry TraceRefusal) → IsAnswer asked image one → IsAnswer asked image other
        → one ≡ other }
{}

/// The events of a trace are in their places. So its text is read as these events, and no others.
pub fn trace_is_an_input()
    ensures { (asked : Asked) (image : List ℕ) (g : Geometry) → AreBytes image → IsAccepted asked image g → AreInPlace (events_of asked image g) }
{}

/// Where a trace is replayed, and no member's count of faults rose, each of its events is done, and the array holds the volume in the end.
pub fn replay_holds_the_image()
    ensures { (asked : Asked) (image : List ℕ) (g : Geometry) (before : Counts) (replies : List Reply) (final : State) → IsAccepted asked image g
        → Trace AreTold before (events_of asked image g) replies final → NoneRose before.faults final.counts.faults → IsReplayed g image replies final }
{}

/// So it is with any bytes that are long enough for a volume, whether its superblock stands there or not.
pub fn replay_holds_the_volume()
    ensures { (asked : Asked) (image : List ℕ) (g : Geometry) (before : Counts) (replies : List Reply) (final : State) → 0 < asked.b
        → g.size * g.fsize ≤ length image → Trace AreTold before (events_of asked image g) replies final → NoneRose before.faults final.counts.faults
        → IsReplayed g image replies final }
{}
