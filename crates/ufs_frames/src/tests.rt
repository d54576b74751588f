use crate::{
    change_of_a_loose_block, change_of_loose_blocks, directories_need_structure,
    file_blocks_are_few, files_are_tame, indirects_by_geometry, needed_blocks_are_used,
    parts_are_local, readings_are_local, same_metadata, same_structure, volumes_of_whole_blocks,
};

/// The laws are functions that do nothing.
#[test]
fn laws_can_be_called(_rt: HostRuntime) {
    readings_are_local();
    parts_are_local();
    same_metadata();
    same_structure();
    volumes_of_whole_blocks();
    directories_need_structure();
    needed_blocks_are_used();
    change_of_loose_blocks();
    change_of_a_loose_block();
    file_blocks_are_few();
    indirects_by_geometry();
    files_are_tame();
}
