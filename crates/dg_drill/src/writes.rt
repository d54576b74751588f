// The writes of a drill.
ghost use Rattle.std.specs.Prelude.{◌≡◌, ◌≤◌, ◌<◌, ◌*◌, All, IfOk, [], length};
ghost use Rattle.dg_drill.specs.Chains.{AreApart, AreUnwritten, HasAnswered, HasWritten, done_count};
ghost use Rattle.dg_model.specs.States.{State};
ghost use Rattle.dg_trace.specs.Traces.{write_of, writes_of};
ghost use Rattle.dg_volume.specs.Origins.{Always};
ghost use Rattle.dg_volume.specs.Volumes.{IsWell, Leaves, StandsIn, any_phase, shape_of};
ghost use Rattle.dg_volume.specs.Writes.{write_reply};
ghost use Rattle.ufs_build.specs.Traces.{block_in};

use dg_io::{NoMemory, Rack};
use dg_volume::{AnyPhase, Volume, WriteAnswer};
use std::alloc::Global;
use ufs_model::Geometry;

/// How many blocks more are written, once one was that wasn't.
fn count_of(answer: WriteAnswer) -> u64
    ensures { result ≡ done_count (write_reply answer) }
{
    match answer {
        WriteAnswer::Written => 1,
        WriteAnswer::Range | WriteAnswer::Degraded => 0,
    }
}

/// Block `b` of an image.
fn block_in<'a>(g: &Geometry, image: &'a [u8], b: u32) -> &'a [u8]
    requires bytes { length image.now ≡ g.now.size * g.now.fsize }
    requires block { b < g.now.size }
    ensures is { result.now ≡ block_in g.now.fsize image.now b }
    ensures size { length result.now ≡ g.now.fsize }
{
    let l = g.fsize as usize;
    let start = b as usize * l;
    let (_, rest) = image.split_at(start);
    let (block, _) = rest.split_at(l);
    block
}

/// Writes a block of an image, and answers how many blocks more are written.
fn write_block<R: Rack>(
    alloc: Global,
    g: &Geometry,
    image: &[u8],
    b: u32,
    volume: &mut Volume<AnyPhase, R>,
) -> Result<u64, NoMemory>
    requires well { IsWell any_phase R.Rack volume.old }
    requires bytes { length image.now ≡ g.now.size * g.now.fsize }
    requires block { b < g.now.size }
    requires fits { g.now.fsize ≡ (shape_of volume.old).l }
    ensures leaves { Leaves any_phase any_phase R.Rack volume.old volume.new }
    ensures answered { IfOk result (λ more. HasAnswered R.Rack volume.old (write_of g.now.fsize image.now b) more volume.new) }
    ensures most { IfOk result (λ more. more ≤ 1) }
{
    let answer = volume.write_block(alloc, b, block_in(g, image, b))?;
    Ok(count_of(answer))
}

/// Writes blocks of an image, one after another, and answers how many are written by that.
pub fn write_blocks<R: Rack>(
    alloc: Global,
    g: &Geometry,
    image: &[u8],
    blocks: &[u32],
    volume: &mut Volume<AnyPhase, R>,
) -> Result<u64, NoMemory>
    requires well { IsWell any_phase R.Rack volume.old }
    requires bytes { length image.now ≡ g.now.size * g.now.fsize }
    requires blocks { All (λ b. b < g.now.size) blocks.now }
    requires apart { AreApart blocks.now }
    requires fits { g.now.fsize ≡ (shape_of volume.old).l }
    requires inside { g.now.size ≤ (shape_of volume.old).n }
    ensures leaves { Leaves any_phase any_phase R.Rack volume.old volume.new }
    ensures runs { IfOk result (λ more. (state : State) → StandsIn any_phase R.Rack Always volume.old state → AreUnwritten state.table blocks.now
        → HasWritten R.Rack state (writes_of g.now.fsize image.now blocks.now) [] more volume.new) }
{
    let mut more = 0;
    for b in blocks {
        more += write_block(alloc, g, image, *b, volume)?;
    }
    Ok(more)
}
