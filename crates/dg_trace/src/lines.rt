// The lines of a trace.
ghost use Rattle.std.specs.Prelude.{◌≡◌, ◌≢◌, ◌*◌, ◌-◌, ◌<◌, ◌≤◌, ◌++◌};
ghost use Rattle.std.specs.Prelude.{All, Err, IfOk, OnErr, OnOk, length, replicate, slice_index, take};
ghost use Rattle.dg_io.specs.SinkLines.{LeavesLines};
ghost use Rattle.dg_io.specs.Told.{Told, Took, TookPart};
ghost use Rattle.dg_model.specs.Blocks.{IsTrimmed};
ghost use Rattle.dg_model.specs.Causes.{Rose};
ghost use Rattle.dg_text.specs.Lines.{input_of, line_of};
ghost use Rattle.dg_trace.specs.Traces.{trace_events, write_of, writes_of};
ghost use Rattle.ufs_model.specs.Geometries.{IsGeometry};

use crate::asked::TraceFault;
use dg_io::{Sink, write_all};
use dg_model::{Bytes, Event, NoMemory, Shape};
use dg_text::write_event;
use dg_words::Order;
use std::alloc::Global;
use ufs_build::trace_order;
use ufs_model::Geometry;

/// How many bytes are left of a block without the zeros at its end.
fn stripped_len(block: &[u8]) -> usize
    ensures within { result ≤ length block.now }
    ensures zeros { block.now ≡ take result block.now ++ replicate (length block.now - result) 0 }
    ensures last { 0 < result → slice_index block.now (result - 1) ≢ 0 }
{
    let mut n = block.len();
    while n > 0 && block[n - 1] == 0 {
        n -= 1;
    }
    n
}

/// A block without the zeros at its end.
fn trimmed(block: &[u8]) -> &[u8]
    ensures { IsTrimmed result.now block.now }
{
    &block[..stripped_len(block)]
}

/// The write of a block of a volume, without the zeros at its end.
fn write_of(alloc: Global, g: &Geometry, volume: &[u8], b: u32) -> Result<Event, NoMemory>
    requires bytes { length volume.now ≡ g.now.size * g.now.fsize }
    requires block { b < g.now.size }
    ensures { IfOk result (λ event. event ≡ write_of g.now.fsize volume.now b) }
{
    let l = g.fsize as usize;
    let start = b as usize * l;
    let (_, rest) = volume.split_at(start);
    let (block, _) = rest.split_at(l);
    let Ok(bytes) = Vec::from_slice(alloc, trimmed(block)) else {
        return Err(NoMemory);
    };
    Ok(Event::Write(b, Bytes::new(bytes)))
}

/// Writes the line of an event.
fn write_line<K: Sink>(alloc: Global, event: &Event, sink: &mut K) -> Result<(), TraceFault>
    ensures ok { OnOk result (Told (Took (line_of event.now)) (K.taken sink.old) (K.taken sink.new)) }
    ensures part { OnErr result (Told (TookPart (line_of event.now)) (K.taken sink.old) (K.taken sink.new)) }
    ensures read { result ≡ Err TraceFault.Read → ⊥ }
    ensures write { result ≡ Err TraceFault.Write → Rose (K.faults sink.old) (K.faults sink.new) }
    ensures kept { (result ≡ Err TraceFault.Write → ⊥) → K.faults sink.new ≡ K.faults sink.old }
    ensures lines { (result ≡ Err TraceFault.Write → ⊥) → LeavesLines 255 K.whole K.calls K.taken sink.old sink.new }
{
    let Ok(mut line) = write_event(alloc, event) else {
        return Err(TraceFault::NoMemory);
    };
    let Ok(()) = line.push(b'\n') else {
        return Err(TraceFault::NoMemory);
    };
    match write_all(sink, &line) {
        Ok(()) => Ok(()),
        Err(_) => Err(TraceFault::Write),
    }
}

/// Writes the line of a block.
fn write_block<K: Sink>(
    alloc: Global,
    g: &Geometry,
    volume: &[u8],
    b: u32,
    sink: &mut K,
) -> Result<(), TraceFault>
    requires bytes { length volume.now ≡ g.now.size * g.now.fsize }
    requires block { b < g.now.size }
    ensures ok { OnOk result (Told (Took (line_of (write_of g.now.fsize volume.now b))) (K.taken sink.old) (K.taken sink.new)) }
    ensures part { OnErr result (Told (TookPart (line_of (write_of g.now.fsize volume.now b))) (K.taken sink.old) (K.taken sink.new)) }
    ensures read { result ≡ Err TraceFault.Read → ⊥ }
    ensures write { result ≡ Err TraceFault.Write → Rose (K.faults sink.old) (K.faults sink.new) }
    ensures kept { (result ≡ Err TraceFault.Write → ⊥) → K.faults sink.new ≡ K.faults sink.old }
    ensures lines { (result ≡ Err TraceFault.Write → ⊥) → LeavesLines 255 K.whole K.calls K.taken sink.old sink.new }
{
    let Ok(event) = write_of(alloc, g, volume, b) else {
        return Err(TraceFault::NoMemory);
    };
    write_line(alloc, &event, sink)
}

/// Writes the lines of blocks.
fn write_blocks<K: Sink>(
    alloc: Global,
    g: &Geometry,
    volume: &[u8],
    blocks: &[u32],
    sink: &mut K,
) -> Result<(), TraceFault>
    requires bytes { length volume.now ≡ g.now.size * g.now.fsize }
    requires blocks { All (λ b. b < g.now.size) blocks.now }
    ensures ok { OnOk result (Told (Took (input_of (writes_of g.now.fsize volume.now blocks.now))) (K.taken sink.old) (K.taken sink.new)) }
    ensures part { OnErr result (Told (TookPart (input_of (writes_of g.now.fsize volume.now blocks.now))) (K.taken sink.old) (K.taken sink.new)) }
    ensures read { result ≡ Err TraceFault.Read → ⊥ }
    ensures write { result ≡ Err TraceFault.Write → Rose (K.faults sink.old) (K.faults sink.new) }
    ensures kept { (result ≡ Err TraceFault.Write → ⊥) → K.faults sink.new ≡ K.faults sink.old }
    ensures lines { (result ≡ Err TraceFault.Write → ⊥) → LeavesLines 255 K.whole K.calls K.taken sink.old sink.new }
{
    for b in blocks {
        write_block(alloc, g, volume, *b, sink)?;
    }
    Ok(())
}

/// Writes the trace of a volume, whose bytes these are: the line that makes the array, and one for each block that isn't all zero.
pub fn write_lines<K: Sink>(
    alloc: Global,
    order: Order,
    g: &Geometry,
    shape: Shape,
    volume: &[u8],
    sink: &mut K,
) -> Result<(), TraceFault>
    requires geometry { IsGeometry g.now }
    requires bytes { length volume.now ≡ g.now.size * g.now.fsize }
    ensures ok { OnOk result (Told (Took (input_of (trace_events order g.now shape volume.now))) (K.taken sink.old) (K.taken sink.new)) }
    ensures part { OnErr result (Told (TookPart (input_of (trace_events order g.now shape volume.now))) (K.taken sink.old) (K.taken sink.new)) }
    ensures read { result ≡ Err TraceFault.Read → ⊥ }
    ensures write { result ≡ Err TraceFault.Write → Rose (K.faults sink.old) (K.faults sink.new) }
    ensures kept { (result ≡ Err TraceFault.Write → ⊥) → K.faults sink.new ≡ K.faults sink.old }
    ensures lines { (result ≡ Err TraceFault.Write → ⊥) → LeavesLines 255 K.whole K.calls K.taken sink.old sink.new }
{
    let Ok(blocks) = trace_order(alloc, order, g, volume) else {
        return Err(TraceFault::NoMemory);
    };
    write_line(alloc, &Event::Array(shape), sink)?;
    write_blocks(alloc, g, volume, &blocks, sink)
}
