// What the claims and the malformations of a volume depend on.
ghost use Rattle.std.specs.Prelude.{◌≡◌, ◌^◌, ◌<◌, ℕ, List, Some, Ok, length, All, Contains};
ghost use Rattle.ufs_model.specs.Blocks.{Volume};
ghost use Rattle.ufs_model.specs.Inodes.{block_count, kind_of};
ghost use Rattle.ufs_model.specs.Malformations.{inode_at};
ghost use Rattle.ufs_model.specs.Metadata.{IsMetadata, IsStructure};
ghost use Rattle.ufs_model.specs.Paths.{block_of};
ghost use Rattle.ufs_model.specs.Superblocks.{geometry_of};
ghost use Rattle.ufs_model.specs.declared.geometries.Geometry.{Geometry};
ghost use Rattle.ufs_model.specs.declared.inodes.Inode.{Inode};
ghost use Rattle.ufs_model.specs.declared.inodes.Kind.TheVariants.{Directory};
ghost use Rattle.ufs_frames.specs.Frames.{AgreeOn, HasWholeIndirects, HaveSameClaims, HaveSameStructure};

/// Two volumes that agree on the metadata of one of them have the same geometry, claims and owners, and the same blocks of metadata.
pub fn same_metadata()
    ensures { (l n : ℕ) (v w : Volume) → AgreeOn l (IsMetadata l n v) v w → HaveSameClaims l n v w }
{}

/// Two volumes that agree on the structure of one of them have the same malformations as well, and the same structure. The indirect
/// blocks of that one have all their bytes.
pub fn same_structure()
    ensures { (l n : ℕ) (v w : Volume) → HasWholeIndirects l n v → AgreeOn l (IsStructure l n v) v w → HaveSameStructure l n v w }
{}

/// Where each block has all its bytes, those of indirect blocks have.
pub fn volumes_of_whole_blocks()
    ensures { (l n : ℕ) (v : Volume) → All (λ block. length block ≡ l) v → HasWholeIndirects l n v }
{}

/// The blocks that are needed to read a directory are of the structure.
pub fn directories_need_structure()
    ensures { (l n : ℕ) (v : Volume) (g : Geometry) (i k b : ℕ) (inode : Inode) → HasWholeIndirects l n v → (geometry_of l n v).value ≡ Ok g
        → inode_at g v i ≡ Some inode → kind_of inode.mode ≡ Directory → inode.size < 2 ^ 32 → k < block_count g inode
        → Contains (block_of g inode k v).needs b → IsStructure l n v b }
{}
