//! The lines of a trace and the text of the replies: each event has one spelling, and a line that is no event's spelling
//! in its place is refused.
#![tactic(auto)]

mod audits;
mod counts;
mod hex_lines;
mod hex_words;
mod kinds;
mod laws;
mod lines;
mod listing_lines;
mod listings;
mod lost_files;
mod lost_lines;
mod path_words;
mod raw;
mod replies;
mod verdicts;
mod words;
mod written;

pub use audits::write_audit;
pub use hex_lines::HexLines;
pub use laws::{
    input_is_unique, line_is_read, line_is_unique, reading_is_unique, short_lines_are_one_call,
};
pub use lines::{BadLine, longest_line, read_line};
pub use listing_lines::Lines;
pub use listings::Form;
pub use lost_lines::LostLines;
pub use path_words::read_path;
pub use raw::Raw;
pub use replies::{
    write_block_line, write_blocks_end, write_data, write_refusal, write_reply, write_usage,
};
pub use written::write_event;
