//! The commands that only read a saved array: `status`, `cat` and `ls`.
//!
//! Each opens the array that was saved on a rack, prints what is asked for, and gives the rack back. Nothing is written to its members.
#![tactic(auto)]

mod ends;
mod files;
mod listings;
mod replies;
mod shows;
mod texts;
mod unsaved;

pub use ends::{Ended, SavedEnd};
pub use files::cat_saved;
pub use listings::ls_saved;
pub use replies::reply_at;
pub use shows::show_status;
