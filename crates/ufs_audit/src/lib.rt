//! All malformations of a UFS1 volume in their order, and what no entry names and nothing claims, from a
//! view of its blocks some of which may be gone.
#![tactic(auto)]

mod audits;
mod directories;
mod holders;
mod images;
mod lists;
mod losses;
mod told;

pub use crate::audits::{Findings, audit};
pub use crate::images::ImageView;
pub use crate::told::lines_of;
