// What is reached through the slots of an inode.
ghost use Rattle.std.specs.Prelude.{◌≡◌, ◌^◌, ◌<◌, ◌≤◌, ℕ, Ok};
ghost use Rattle.ufs_model.specs.Blocks.{Volume};
ghost use Rattle.ufs_model.specs.Geometries.{IsGeometry};
ghost use Rattle.ufs_model.specs.Inodes.{block_count};
ghost use Rattle.ufs_model.specs.Superblocks.{geometry_of};
ghost use Rattle.ufs_model.specs.declared.geometries.Geometry.{Geometry};
ghost use Rattle.ufs_model.specs.declared.inodes.Inode.{Inode};
ghost use Rattle.ufs_frames.specs.Frames.{FilesAreTame, HasWholeIndirects, HasWholeUppers};

/// A file of less than 2^32 bytes has at most 2^20 file blocks.
pub fn file_blocks_are_few()
    ensures { (g : Geometry) (inode : Inode) → IsGeometry g → inode.size < 2 ^ 32 → block_count g inode ≤ 2 ^ 20 }
{}

/// The indirect blocks of a volume are those by its geometry: where these have all their bytes, those have.
pub fn indirects_by_geometry()
    ensures { (l n : ℕ) (v : Volume) (g : Geometry) → (geometry_of l n v).value ≡ Ok g → HasWholeUppers g v → HasWholeIndirects l n v }
{}

/// Where no slot of an inode is wild, and no pointer of an indirect block, no file block of it is.
pub fn files_are_tame()
    ensures { FilesAreTame }
{}
