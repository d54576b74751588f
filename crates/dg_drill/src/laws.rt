// What the numbers that a drill prints mean.
ghost use Rattle.std.specs.Prelude.{◌≡◌, ◌≤◌, ◌+◌, ◌++◌, ◌∷◌, ℕ, List, length};
ghost use Rattle.dg_drill.specs.Drills.{later_events, write_events};
ghost use Rattle.dg_drill.specs.Losses.{AreGiven, lost_homes};
ghost use Rattle.dg_drill.specs.Reports.{boundary_of, given_count, unavailable_count};
ghost use Rattle.dg_drill.specs.Volumes.{IsDrillVolume};
ghost use Rattle.dg_model.specs.Causes.{NoneRose};
ghost use Rattle.dg_model.specs.Runs.{Run, Trace};
ghost use Rattle.dg_model.specs.States.{Counts, State};
ghost use Rattle.dg_model.specs.declared.replies.Reply.{Reply};
ghost use Rattle.dg_model.specs.declared.replies.Reply.TheVariants.{Settled};
ghost use Rattle.dg_promise.specs.Promises.{AreTold};
ghost use Rattle.ufs_model.specs.declared.geometries.Geometry.{Geometry};

use dg_promise::{
    blank_arrays_are_steady, cat_keeps_its_promise, cats_without_faults_lose_none, files_are_read,
    plans_have_room, steps_keep_steady,
};
use dg_trace::replay_holds_the_volume;
use ufs_drill::{drills_have_few_blocks, drills_have_volumes};
use ufs_image_laws::{built_files_are_read, built_volumes_are_sound};
use ufs_model::accepted_superblocks;

/// Where no member's count of faults rose in a drill, and its array was settled, the unavailable files are just those whose home is the lost
/// boundary, and each other one is given.
pub fn drill_loses_its_homes()
    ensures unavailable { (before : Counts) (seed files : ℕ) (g : Geometry) (image : List ℕ) (writes losses cats : List Reply) (written final : State)
        → IsDrillVolume seed files image g → Trace AreTold before (write_events g image) writes written
        → Run AreTold written (later_events seed files) (Settled ∷ (losses ++ cats)) final → length losses ≡ 2
        → NoneRose before.faults final.counts.faults → unavailable_count cats ≡ lost_homes final seed files }
    ensures given { (before : Counts) (seed files : ℕ) (g : Geometry) (image : List ℕ) (writes losses cats : List Reply) (written final : State)
        → IsDrillVolume seed files image g → Trace AreTold before (write_events g image) writes written
        → Run AreTold written (later_events seed files) (Settled ∷ (losses ++ cats)) final → length losses ≡ 2
        → NoneRose before.faults final.counts.faults → AreGiven (boundary_of seed) final 0 cats }
{
    accepted_superblocks();
    blank_arrays_are_steady();
    steps_keep_steady();
    cat_keeps_its_promise();
    cats_without_faults_lose_none();
}

/// Where no member's count of faults rose in a drill, its `settle` is done: its volume is sound, and the plan finds room. Each of the files is given
/// with just its bytes or is unavailable then.
pub fn drills_give_their_files()
    ensures settled { (before : Counts) (seed files : ℕ) (g : Geometry) (image : List ℕ) (writes losses cats : List Reply) (reply : Reply)
        (written final : State)
        → files ≤ 2000 → IsDrillVolume seed files image g → Trace AreTold before (write_events g image) writes written
        → Run AreTold written (later_events seed files) (reply ∷ (losses ++ cats)) final → length losses ≡ 2
        → NoneRose before.faults final.counts.faults → reply ≡ Settled }
    ensures given { (before : Counts) (seed files : ℕ) (g : Geometry) (image : List ℕ) (writes losses cats : List Reply) (reply : Reply)
        (written final : State)
        → files ≤ 2000 → IsDrillVolume seed files image g → Trace AreTold before (write_events g image) writes written
        → Run AreTold written (later_events seed files) (reply ∷ (losses ++ cats)) final → length losses ≡ 2
        → NoneRose before.faults final.counts.faults → given_count seed 0 cats + unavailable_count cats ≡ files }
{
    drill_loses_its_homes();
    drills_have_volumes();
    drills_have_few_blocks();
    plans_have_room();
    replay_holds_the_volume();
    built_volumes_are_sound();
    built_files_are_read();
    files_are_read();
    accepted_superblocks();
    blank_arrays_are_steady();
    steps_keep_steady();
}
