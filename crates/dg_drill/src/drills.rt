// A drill, from its files to what is printed of it.
ghost use Rattle.std.specs.Prelude.{◌≡◌, ◌≢◌, ◌≤◌, ◌*◌, ℕ, List, Option, IfOk, OnErr, length};
ghost use Rattle.dg_drill.specs.Calls.{facts_of, rack_facts};
ghost use Rattle.dg_drill.specs.Chains.{HasLost};
ghost use Rattle.dg_drill.specs.Drills.{EndsDrill, HasDrilled};
ghost use Rattle.dg_drill.specs.Volumes.{IsDrillVolume, drill_shape};
ghost use Rattle.dg_io.specs.SinkLines.{LeavesLines, MayWrite};
ghost use Rattle.dg_io.specs.Told.{Told, Took, TookPart};
ghost use Rattle.dg_model.specs.Causes.{Rose};
ghost use Rattle.dg_model.specs.States.{State};
ghost use Rattle.dg_volume.specs.Origins.{Always};
ghost use Rattle.dg_volume.specs.Settles.{settle_reply};
ghost use Rattle.dg_volume.specs.Volumes.{IsWell, Leaves, StandsIn, any_phase};
ghost use Rattle.ufs_model.specs.Geometries.{IsGeometry};

use crate::made::{Made, make_volume};
use crate::reads::read_files;
use crate::reports::report_text;
use crate::volumes::drill_shape;
use crate::writes::write_blocks;
use dg_io::{NoMemory, Rack, Sink, write_all};
use dg_model::Reply;
use dg_volume::{AnyPhase, Unsettled, Volume};
use dg_words::Order;
use std::alloc::Global;
use ufs_build::trace_order;

/// How a drill ended.
#[derive(Clone, Copy, Debug, PartialEq, Eq)]
pub enum DrillEnd {
    /// What became of it was printed, whole.
    Done,
    /// The sink failed.
    WriteFault,
}

/// A drill that ended, and the rack, which is given back.
#[derive(Drop)]
pub struct Drilled<R> {
    /// The rack.
    pub rack: R,
    /// How it ended.
    pub end: DrillEnd,
}

/// A drill of which nothing is printed yet: the rack, and what is to be printed.
#[derive(Drop)]
struct Untold<R> {
    rack: R,
    text: Vec<u8>,
}

/// The volume was settled, or why not.
fn settle_reply(answer: Result<(), Unsettled>) -> Reply
    ensures { result ≡ settle_reply answer }
{
    match answer {
        Ok(()) => Reply::Settled,
        Err(Unsettled::Lost(s)) => Reply::Lost(s as u32),
        Err(Unsettled::Malformed(kind, n)) => Reply::Malformed(kind, n),
        Err(Unsettled::NoSpace(room)) => Reply::NoSpace(room),
    }
}

/// Makes both members of a boundary fail.
fn lose<R: Rack>(volume: &mut Volume<AnyPhase, R>, s: u32)
    requires well { IsWell any_phase R.Rack volume.old }
    ensures leaves { Leaves any_phase any_phase R.Rack volume.old volume.new }
    ensures runs { (state : State) → StandsIn any_phase R.Rack Always volume.old state → HasLost R.Rack state s volume.new }
{
    volume.fail(s, 0);
    volume.fail(s, 1);
}

/// Writes a volume to a blank array, settles it, loses a boundary, and reads the files.
fn drill_array<R: Rack + Drop>(
    alloc: Global,
    seed: u64,
    files: u32,
    made: &Made,
    rack: R,
) -> Result<Untold<R>, NoMemory>
    requires volume { IsDrillVolume seed files made.now.image.items made.now.geometry }
    requires bytes { length made.now.image.items ≡ made.now.geometry.size * made.now.geometry.fsize }
    requires tests { IsGeometry made.now.geometry }
    requires fits { made.now.geometry.fsize ≡ drill_shape.l }
    requires inside { made.now.geometry.size ≤ drill_shape.n }
    requires few { files ≤ 2000 }
    ensures name { IfOk result (λ untold. R.name untold.rack ≡ R.name rack) }
    ensures drilled { IfOk result (λ untold. (taken given : Option (List ℕ)) →
        HasDrilled (R.tells untold.rack) (rack_facts R.Rack rack untold.rack taken given) seed files untold.text.items) }
{
    let blocks = trace_order(alloc, Order::Late, &made.geometry, &made.image)?;
    let loose = Volume::array(alloc, rack, drill_shape())?;
    let mut volume = loose.into_any();
    let written = write_blocks(alloc, &made.geometry, &made.image, &blocks, &mut volume)?;
    let settled = settle_reply(volume.settle(alloc)?);
    lose(&mut volume, (seed % 4) as u32);
    let tally = read_files(seed, files, &mut volume);
    let text = report_text(alloc, seed, files, written, &settled, &tally)?;
    Ok(Untold {
        rack: volume.into_rack(),
        text,
    })
}

/// Makes the volume of a drill, and does the drill.
fn drill_rack<R: Rack + Drop>(
    alloc: Global,
    seed: u64,
    files: u32,
    rack: R,
) -> Result<Untold<R>, NoMemory>
    requires few { (1 ≤ files) × (files ≤ 2000) }
    ensures name { IfOk result (λ untold. R.name untold.rack ≡ R.name rack) }
    ensures drilled { IfOk result (λ untold. (taken given : Option (List ℕ)) →
        HasDrilled (R.tells untold.rack) (rack_facts R.Rack rack untold.rack taken given) seed files untold.text.items) }
{
    let made = make_volume(alloc, seed, files)?;
    drill_array(alloc, seed, files, &made, rack)
}

/// Prints what became of a drill.
fn tell<K: Sink>(sink: &mut K, text: &[u8]) -> DrillEnd
    ensures told { result ≢ DrillEnd.WriteFault → Told (Took text.now) (K.taken sink.old) (K.taken sink.new) }
    ensures part { result ≡ DrillEnd.WriteFault → Told (TookPart text.now) (K.taken sink.old) (K.taken sink.new) }
    ensures write { result ≡ DrillEnd.WriteFault → Rose (K.faults sink.old) (K.faults sink.new) }
    ensures kept { result ≢ DrillEnd.WriteFault → K.faults sink.new ≡ K.faults sink.old }
    ensures lines { MayWrite 255 1 text.now → result ≢ DrillEnd.WriteFault → LeavesLines 255 K.whole K.calls K.taken sink.old sink.new }
{
    match write_all(sink, text) {
        Ok(()) => DrillEnd::Done,
        Err(_) => DrillEnd::WriteFault,
    }
}

/// Does the drill of a seed with so many files over a rack, whose members it blanks, and prints what became of it. Where memory is wanting, nothing
/// is printed.
pub fn run_drill<K: Sink, R: Rack + Drop>(
    alloc: Global,
    seed: u64,
    files: u32,
    sink: &mut K,
    rack: R,
) -> Result<Drilled<R>, NoMemory>
    requires few { (1 ≤ files) × (files ≤ 2000) }
    ensures name { IfOk result (λ drilled. R.name drilled.rack ≡ R.name rack) }
    ensures ends { IfOk result (λ drilled.
        EndsDrill (R.tells drilled.rack) (facts_of K.Sink R.Rack sink.old sink.new rack drilled.rack) seed files drilled.end) }
    ensures none { OnErr result (sink.new ≡ sink.old) }
    ensures write { IfOk result (λ drilled. drilled.end ≡ DrillEnd.WriteFault → Rose (K.faults sink.old) (K.faults sink.new)) }
    ensures kept { IfOk result (λ drilled. drilled.end ≢ DrillEnd.WriteFault → K.faults sink.new ≡ K.faults sink.old) }
    ensures lines { IfOk result (λ drilled. drilled.end ≢ DrillEnd.WriteFault → LeavesLines 255 K.whole K.calls K.taken sink.old sink.new) }
{
    let Untold { rack, text } = drill_rack(alloc, seed, files, rack)?;
    let end = tell(sink, &text);
    Ok(Drilled { rack, end })
}
