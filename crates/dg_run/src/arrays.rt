// The array of a replay.
ghost use Rattle.std.specs.Prelude.{IfOk};
ghost use Rattle.dg_model.specs.Shapes.{IsShape};
ghost use Rattle.dg_run.specs.Steps.{IsBlankArray};

use dg_hot::Hot;
use dg_io::{NoMemory, Rack};
use dg_model::Shape;
use dg_regroup::{FrontRack, LiveRack};
use dg_stop::StopRack;
use dg_volume::{AnyPhase, Volume};
use std::alloc::Global;

/// A volume, and the files that were read last.
#[derive(Drop)]
pub struct Array<R> {
    pub volume: Volume<AnyPhase, R>,
    pub hot: Hot,
}

/// A rack of which some members may show their first bytes alone, or nothing, over one that is plain or keeps a checkpoint.
pub type Base<R> = FrontRack<StopRack<R>>;

/// The array of a run, on the boundaries in use of such a rack.
pub type Running<R> = Array<LiveRack<Base<R>>>;

impl<R: Rack> Array<R> {
    /// The blank array of this shape.
    pub fn new(alloc: Global, rack: R, shape: Shape) -> Result<Array<R>, NoMemory>
    where
        R: Drop,
        requires { IsShape shape }
        ensures { IfOk result (IsBlankArray R.Rack shape rack) }
    {
        let hot = Hot::new(alloc)?;
        let volume = Volume::array(alloc, rack, shape)?;
        Ok(Array {
            volume: volume.into_any(),
            hot,
        })
    }
}
