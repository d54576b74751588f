//! The commands over an image of a volume: `trace` makes the trace that writes it of it, and `audit` tells all that is wrong with it.
//!
//! The image is read to its end (`images`). Where it is refused (`volumes`), that is told. Else the lines of the trace are written: one that makes an array
//! for the volume, and one for each block that isn't all zero, in the order that is asked for (`lines`).
#![tactic(auto)]

mod asked;
mod audits;
mod images;
mod laws;
mod lines;
mod traces;
mod volumes;

pub use asked::{Asked, TraceEnd, TraceFault, TraceRefusal};
pub use audits::{AuditEnd, audit_image};
pub use laws::{
    image_has_one_answer, replay_holds_the_image, replay_holds_the_volume, trace_is_an_input,
};
pub use traces::write_trace;
