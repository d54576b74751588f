// Blocks of 4,096 bytes, all of which are one byte.
ghost use Rattle.std.specs.Prelude.{IfOk};
ghost use Rattle.dg_volume.specs.Volumes.{IsWell, Leaves, any_phase};

use dg_io::Rack;
use dg_volume::{AnyPhase, ReadAnswer, Volume, WriteAnswer};
use std::alloc::Global;
use std::test::Fail;

const SIZE: usize = 4096;

/// Writes a block.
pub fn write_even<R: Rack>(
    alloc: Global,
    volume: &mut Volume<AnyPhase, R>,
    block: u32,
    byte: u8,
) -> Result<WriteAnswer, Fail>
    requires { IsWell any_phase R.Rack volume.old }
    ensures { IfOk result (λ answer. Leaves any_phase any_phase R.Rack volume.old volume.new) }
{
    let bytes = [byte; SIZE];
    let size = volume.shape().l;
    if size != 4096 {
        return Err("size".into());
    }
    match volume.write_block(alloc, block, &bytes) {
        Ok(answer) => Ok(answer),
        Err(_) => Err("memory".into()),
    }
}

/// The byte of which a block is, or `None` where the block is gone.
pub fn read_even<R: Rack>(volume: &mut Volume<AnyPhase, R>, block: u32) -> Result<Option<u8>, Fail>
    requires { IsWell any_phase R.Rack volume.old }
    ensures { IfOk result (λ byte. Leaves any_phase any_phase R.Rack volume.old volume.new) }
{
    let mut buf = [0xee; SIZE];
    let size = volume.shape().l;
    if size != 4096 {
        return Err("size".into());
    }
    match volume.read(block, &mut buf) {
        ReadAnswer::Got => one_byte(&buf),
        ReadAnswer::Unavailable => Ok(None),
        ReadAnswer::Range => Err("range".into()),
    }
}

/// The byte that all of these are.
fn one_byte(buf: &[u8; SIZE]) -> Result<Option<u8>, Fail> {
    let first = buf[0];
    if buf.iter().all(|byte| *byte == first) {
        Ok(Some(first))
    } else {
        Err("bytes".into())
    }
}
