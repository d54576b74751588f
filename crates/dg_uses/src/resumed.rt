// What a resumed array promises of the files of its volume.
ghost use Rattle.std.specs.Prelude.{◌≡◌, ◌++◌, ◌∷◌, All, ℕ, List, length};
ghost use Rattle.dg_model.specs.declared.events.Event.{Event};
ghost use Rattle.dg_model.specs.declared.replies.Reply.{Reply};
ghost use Rattle.dg_promise.specs.Readings.{ReadsFrom};
ghost use Rattle.dg_run.specs.Calls.{Facts, met_by};
ghost use Rattle.dg_run.specs.Finds.{Sees};
ghost use Rattle.dg_run.specs.Opened.{IsKnownKept};
ghost use Rattle.dg_run.specs.Resumes.{RanOn, RanOnKept, WasFound};
ghost use Rattle.dg_saved.specs.Calls.{Facts as SeenFacts};
ghost use Rattle.dg_saved.specs.Saved.{IsKnown};
ghost use Rattle.dg_uses.specs.Answers.{TellsEach};
ghost use Rattle.dg_uses.specs.Promises.{resumed_from};

use dg_io::Rack;
use dg_promise::{opened_arrays_are_steady, steady_runs_keep_their_promise};

/// Each `cat` of a resumed array whose members held these blocks, where the bytes of the members are told: where the array is settled then, and
/// fewer than m boundaries are lost, and none is lost while the file is read, it keeps its promise, as in a replay. So does an array that keeps a checkpoint.
pub fn resumed_cats_keep_their_promise<R: Rack>()
    ensures plain { (end : R) (facts : Facts) (front rest : List Event) (path : List ℕ) (replies : List Reply)
        (ran : RanOn (R.tells end) facts (front ++ Event.Cat path ∷ rest) replies) (V : List (List ℕ)) (size : length V ≡ ran.source.saved.table.shape.n)
        → All (λ block. length block ≡ ran.source.saved.table.shape.l) V → TellsEach facts.images → TellsEach facts.bytes
        → IsKnown (R.tells end) (met_by facts) ran.opened ran.source V
        → ReadsFrom (resumed_from (ran.runs V size).resumed) front path rest replies (ran.runs V size).resumed.final.state }
    ensures kept { (start end : R) (facts : Facts) (seen : SeenFacts) (sees : Sees (R.tells end) (met_by facts) seen) (front rest : List Event)
        (path : List ℕ) (replies : List Reply)
        (ran : RanOnKept (R.tells end) (WasFound (R.steady start) sees.known facts) facts seen sees.said (front ++ Event.Cat path ∷ rest) replies)
        (V : List (List ℕ)) (size : length V ≡ ran.source.saved.table.shape.n)
        → All (λ block. length block ≡ ran.source.saved.table.shape.l) V → TellsEach facts.bytes
        → IsKnownKept (R.tells end) facts seen sees.said ran.opened ran.source V
        → ReadsFrom (ran.runs V size).resumed.state front path rest replies (ran.runs V size).resumed.final.state }
{
    opened_arrays_are_steady();
    steady_runs_keep_their_promise();
}
