//! The command `drill`: a volume whose files have sizes that a seed gives is written to an array, settled, and read back once a boundary is lost.
//!
//! Its volume is made (`made`) of the files that `ufs_drill` says; the numbers of the array (`volumes`) are this project's own. Its blocks are written
//! (`writes`), both members of a boundary fail, and each file is read and compared with the bytes that it should have (`reads`, `comparers`).
//! What became of that is printed in the end, in one piece (`reports`, `drills`).
#![tactic(auto)]

mod comparers;
mod drills;
mod laws;
mod made;
mod reads;
mod reports;
mod volumes;
mod writes;

pub use drills::{DrillEnd, Drilled, run_drill};
pub use laws::{drill_loses_its_homes, drills_give_their_files};
pub use volumes::drill_shape;
