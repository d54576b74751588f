use ufs_image_laws::{
    built_blocks_are_found, built_claims_are_of_files, built_directories_are_listed,
    built_directories_have_their_entries, built_files_are_read, built_files_have_their_contents,
    built_groups_are_read, built_inodes_are_read, built_paths_lead_to_their_items,
    built_volumes_are_made_of_parts, built_volumes_are_sound,
    built_volumes_have_no_malformation_but_sizes, built_volumes_have_their_geometry,
    files_of_items, geometries_are_of_specs, other_inodes_are_unallocated, parts_are_apart,
};

/// The laws are functions that do nothing.
#[test]
fn laws_can_be_called(_rt: HostRuntime) {
    built_volumes_are_made_of_parts();
    parts_are_apart();
    geometries_are_of_specs();
    built_volumes_have_their_geometry();
    files_of_items();
    built_inodes_are_read();
    other_inodes_are_unallocated();
    built_groups_are_read();
    built_blocks_are_found();
    built_files_have_their_contents();
    built_directories_have_their_entries();
    built_claims_are_of_files();
    built_volumes_have_no_malformation_but_sizes();
    built_volumes_are_sound();
    built_paths_lead_to_their_items();
    built_files_are_read();
    built_directories_are_listed();
}
