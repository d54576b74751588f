// Each drill has a volume, of whose blocks few are kept and few belong to any one file.
ghost use Rattle.std.specs.Prelude.{◌≡◌, ◌≤◌, ℕ, List, IsOk, Ok, Some};
ghost use Rattle.dg_model.specs.Wants.{IsWant};
ghost use Rattle.dg_model.specs.declared.wants.Want.TheVariants.{File, Kept};
ghost use Rattle.ufs_build.specs.Builds.{built};
ghost use Rattle.ufs_build.specs.Volumes.{geometry_of_spec, volume_of_spec};
ghost use Rattle.ufs_drill.specs.Items.{drill_items};
ghost use Rattle.ufs_drill.specs.Volumes.{drill_spec};
ghost use Rattle.ufs_image_laws.specs.Built.{blocks_in};
ghost use Rattle.ufs_image_laws.specs.Owners.{AreAtMost};

use ufs_image_laws::{
    built_fragments_belong_to_files, built_inodes_are_read, built_volumes_are_made_of_parts,
    built_volumes_have_their_geometry, directories_have_a_chunk_an_entry, files_of_items,
    files_with_room_are_placed,
};

/// The volume of a drill has its numbers, and up to 2000 files have their volume, whatever the seed.
pub fn drills_have_volumes()
    ensures numbers { volume_of_spec drill_spec ≡ Some (geometry_of_spec drill_spec) }
    ensures built { (seed files : ℕ) → files ≤ 2000 → IsOk (built drill_spec (drill_items seed files)) }
{
    directories_have_a_chunk_an_entry();
    files_with_room_are_placed();
}

/// Of the volume of up to 2000 files no more than 216 blocks belong to a file, and no more than 2600 are the file system's own and those of
/// directories.
pub fn drills_have_few_blocks()
    ensures files { (seed files : ℕ) (image : List ℕ) → files ≤ 2000 → built drill_spec (drill_items seed files) ≡ Ok image → (i : ℕ)
        → AreAtMost (λ b. IsWant 1024 32768 (blocks_in 1024 32768 image) b (File i)) 216 }
    ensures kept { (seed files : ℕ) (image : List ℕ) → files ≤ 2000 → built drill_spec (drill_items seed files) ≡ Ok image
        → AreAtMost (λ b. IsWant 1024 32768 (blocks_in 1024 32768 image) b Kept) 2600 }
{
    directories_have_a_chunk_an_entry();
    built_volumes_are_made_of_parts();
    built_volumes_have_their_geometry();
    built_fragments_belong_to_files();
    files_of_items();
    built_inodes_are_read();
}
