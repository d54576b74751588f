// The volume of a drill, made.
ghost use Rattle.std.specs.Prelude.{◌≡◌, ◌≤◌, ◌*◌, IfOk, length};
ghost use Rattle.dg_drill.specs.Volumes.{IsDrillVolume, drill_shape};
ghost use Rattle.ufs_build.specs.declared.refusals.BuildRefused.{BuildRefused};
ghost use Rattle.ufs_model.specs.Geometries.{IsGeometry};

use dg_model::NoMemory;
use std::alloc::Global;
use ufs_build::{BuildRefused, build, volume_of_spec};
use ufs_drill::{drill, drill_spec, drills_have_volumes};
use ufs_model::{Geometry, accepted_superblocks};

/// A volume, and its bytes.
#[derive(Drop)]
pub struct Made {
    pub geometry: Geometry,
    pub image: Vec<u8>,
}

/// The one refusal that a drill's volume may meet.
fn want_of_memory(refusal: BuildRefused) -> NoMemory
    requires { refusal ≡ BuildRefused.NoMemory }
{
    let _ = refusal;
    NoMemory
}

/// Makes the volume of a drill.
pub fn make_volume(alloc: Global, seed: u64, files: u32) -> Result<Made, NoMemory>
    requires few { (1 ≤ files) × (files ≤ 2000) }
    ensures is { IfOk result (λ made. IsDrillVolume seed files made.image.items made.geometry) }
    ensures bytes { IfOk result (λ made. length made.image.items ≡ made.geometry.size * made.geometry.fsize) }
    ensures tests { IfOk result (λ made. IsGeometry made.geometry) }
    ensures fits { IfOk result (λ made. made.geometry.fsize ≡ drill_shape.l) }
    ensures inside { IfOk result (λ made. made.geometry.size ≤ drill_shape.n) }
{
    accepted_superblocks();
    drills_have_volumes();
    let spec = drill_spec();
    let Some(geometry) = volume_of_spec(&spec) else {
        unreachable!()
    };
    let items = drill(alloc, seed, files)?;
    match build(alloc, &spec, &items) {
        Ok(image) => Ok(Made { geometry, image }),
        Err(refusal) => Err(want_of_memory(refusal)),
    }
}
