use crate::{
    blank_arrays_are_steady, blocks_have_one_owner, cat_keeps_its_promise,
    cats_without_faults_lose_none, cut_blocks_leave_paths, few_losses_leave_files_whole,
    files_are_read, files_need_their_blocks, homes_are_of_owners, needed_blocks_have_reasons,
    opened_arrays_are_steady, order_is_kept, reads_keep_their_promise, runs_keep_their_promise,
    settled_arrays_keep_their_promise, settled_is_in_order, steady_runs_keep_their_promise,
    steps_keep_steady, uncut_blocks_stay, uncut_files_stay,
};

/// The laws are functions that do nothing.
#[test]
fn laws_can_be_called(_rt: HostRuntime) {
    blocks_have_one_owner();
    needed_blocks_have_reasons();
    files_need_their_blocks();
    files_are_read();
    cat_keeps_its_promise();
    cats_without_faults_lose_none();
    few_losses_leave_files_whole();
    homes_are_of_owners();
    runs_keep_their_promise();
    reads_keep_their_promise();
    settled_is_in_order();
    order_is_kept();
    blank_arrays_are_steady();
    steps_keep_steady();
    uncut_files_stay();
    uncut_blocks_stay();
    cut_blocks_leave_paths();
    opened_arrays_are_steady();
    steady_runs_keep_their_promise();
    settled_arrays_keep_their_promise();
}
