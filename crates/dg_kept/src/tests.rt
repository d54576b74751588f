use crate::{
    blank_members_are_older, boundaries_stay_in_use, newest_saves_are_found, runs_end_with_saves,
    saved_arrays_are_opened, saved_blocks_are_read, saved_states_are_resumed,
    saves_are_found_on_what_is_left, saves_leave_the_state,
};

/// The laws are functions that do nothing.
#[test]
fn laws_can_be_called(_rt: HostRuntime) {
    newest_saves_are_found();
    saved_arrays_are_opened();
    saves_leave_the_state();
    blank_members_are_older();
    saves_are_found_on_what_is_left();
    runs_end_with_saves();
    boundaries_stay_in_use();
    saved_states_are_resumed();
    saved_blocks_are_read();
}
