// The volume F of 128 fragments of 1024 bytes, written block by block.
ghost use Rattle.std.specs.Prelude.{IfOk};
ghost use Rattle.dg_model.specs.Shapes.{IsShape};
ghost use Rattle.dg_volume.specs.Volumes.{IsWell, loose_phase};

use dg_io::{MemRack, Rack};
use dg_model::Shape;
use dg_volume::{Loose, Volume, Wrote};
use std::alloc::Global;
use std::test::Fail;
use ufs_samples::{Which, sample_image};

// Bytes of a member with 64 slots, and some more.
const LENGTH: u64 = 120_000;

/// An array of 128 blocks over so many boundaries, of so many slots each, with so many places of a naming block.
pub fn shape_of(boundaries: u32, slots: u32, places: u32) -> Result<Shape, Fail>
    ensures { IfOk result IsShape }
{
    match Shape::check(1024, 128, boundaries, slots, places) {
        Some(shape) => Ok(shape),
        None => Err("shape".into()),
    }
}

/// A rack in memory of eight members, of which these calls fail.
pub fn rack(alloc: Global, fails: &[u64]) -> Result<MemRack, Fail> {
    Ok(MemRack::new(alloc, 8, LENGTH, fails.to_vec(alloc)?)?)
}

/// The 128 blocks of the volume F.
pub fn image(alloc: Global) -> Result<Vec<u8>, Fail> {
    match sample_image(alloc, Which::F) {
        Ok(image) => Ok(image),
        Err(_) => Err("memory".into()),
    }
}

/// Writes a block, by which no boundary is lost.
fn write<R: Rack + Drop>(
    alloc: Global,
    volume: Volume<Loose, R>,
    block: usize,
    bytes: &[u8],
) -> Result<Volume<Loose, R>, Fail>
    requires { IsWell loose_phase R.Rack volume }
    ensures { IfOk result (IsWell loose_phase R.Rack) }
{
    let size = volume.shape().l;
    if bytes.len() != size as usize || block >= 128 {
        return Err("block".into());
    }
    match volume.write(alloc, block as u32, bytes) {
        Ok(Wrote::Loose(new)) => Ok(new),
        Ok(_) => Err("refused".into()),
        Err(_) => Err("memory".into()),
    }
}

/// The loose volume of an image: the blocks that aren't zero were written, ascending.
pub fn up<R: Rack + Drop>(
    alloc: Global,
    rack: R,
    shape: Shape,
    image: &[u8],
) -> Result<Volume<Loose, R>, Fail>
    requires { IsShape shape }
    ensures { IfOk result (IsWell loose_phase R.Rack) }
{
    let mut volume = match Volume::array(alloc, rack, shape) {
        Ok(blank) => blank,
        Err(_) => return Err("memory".into()),
    };
    for (block, bytes) in image.chunks(1024).enumerate() {
        if bytes.iter().any(|byte| *byte != 0) {
            volume = write(alloc, volume, block, bytes)?;
        }
    }
    Ok(volume)
}
