//! What a client concludes from the clauses of a run alone. The contracts of its functions say what a run prints, and their proofs
//! execute nothing.
#![tactic(auto)]

mod answers;
mod blanks;
mod drilled;
mod laws;
mod lost_files;
mod mirrors;
mod others;
mod promises;
mod removals;
mod replays;
mod resumed;
mod safes;
mod saves;
mod traced;
mod twice;
mod words;

pub use answers::{answer_an_image, audit_an_image, replay_a_cut_line, replay_lines};
pub use blanks::{Answer, find_no_array, refuse_an_empty_image};
pub use drilled::drill_and_lose;
pub use laws::{answers_are_promised, replies_are_a_function, replies_by_views};
pub use lost_files::lost_files_are_told;
pub use mirrors::{reads_past_the_last_block_are_refused, resume_a_far_read};
pub use others::replay_beside_others;
pub use promises::cats_keep_their_promise;
pub use removals::{all_stand_at_first, good_members_have_no_headers, take_away};
pub use replays::{
    Replay, audit_a_blank_array, fail_at_the_first_reply, fail_at_the_second_read, lose_a_block,
    read_past_a_failure, read_what_was_written, refuse_the_second_line, replay_text,
};
pub use resumed::resumed_cats_keep_their_promise;
pub use safes::{
    keep_what_was_written, refuse_behind_safe, resumed_arrays_keep_their_last_save,
    safe_replays_keep_their_last_save,
};
pub use saves::{
    cat_what_is_left, ls_what_is_left, replays_leave_saves, resume_what_is_left,
    saved_arrays_go_on, saved_blocks_are_read_again, saves_are_found_again,
};
pub use traced::trace_and_replay;
pub use twice::{resume_where_mirrors_differ, save_and_resume};
pub use words::{ask_for_a_status, refuse_no_words};
