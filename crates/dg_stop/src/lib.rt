//! Commits of members that may be stopped at any call: each page of a member has two places, and a commit's table names one of them. A commit
//! over all members leaves what is reopened, or makes it what the members hold. Beside it stand the laws of what is reopened.
#![tactic(auto)]

mod attachments;
mod commits;
mod double_commits;
mod doubles;
mod flags;
mod found_headers;
mod headers;
mod laws;
mod leads;
mod marks;
mod member_calls;
mod memories;
mod new_memories;
mod openings;
mod page_calls;
mod pages;
mod phases;
mod places;
mod readings;
mod settles;
mod stop_racks;
mod tables;
mod tallies;
mod tries;

pub use commits::table_len;
pub use doubles::DoubleRack;
pub use found_headers::read_header;
pub use headers::{Header, fill_header, write_header};
pub use laws::{
    blanks_leave_rest, openings_leave_kept, pages_are_patched, stops_leave_old_or_new,
    writes_leave_kept,
};
pub use openings::{openings_give_kept, openings_hold, openings_spare};
pub use pages::write_part;
pub use phases::{MEMBERS, commit_once, next_after};
pub use places::Places;
pub use stop_racks::{Opened, StopRack};
pub use tries::commit_all;
