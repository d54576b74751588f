// What is read of a volume depends on the blocks that are consulted for it alone.
ghost use Rattle.std.specs.Prelude.{ℕ, List};
ghost use Rattle.ufs_model.specs.GroupMaps.{group_bytes, is_marked_free, is_marked_unused};
ghost use Rattle.ufs_model.specs.Inodes.{inode_of};
ghost use Rattle.ufs_model.specs.Listings.{listing_of, ls_of};
ghost use Rattle.ufs_model.specs.Paths.{block_of, cat_of, chunks_of, contents_of, entries_of, look_from, look_of};
ghost use Rattle.ufs_model.specs.Pointers.{file_block_of};
ghost use Rattle.ufs_model.specs.Superblocks.{geometry_of};
ghost use Rattle.ufs_model.specs.Trees.{file_of, tree_of};
ghost use Rattle.ufs_model.specs.declared.geometries.Geometry.{Geometry};
ghost use Rattle.ufs_model.specs.declared.inodes.Inode.{Inode};
ghost use Rattle.ufs_frames.specs.Frames.{IsLocal};

/// Two volumes that agree on the blocks which are needed of one of them have the same geometry, and the same is read of both by a
/// path, by the same blocks.
pub fn readings_are_local()
    ensures geometry { (l n : ℕ) → IsLocal l (geometry_of l n) }
    ensures look { (l n : ℕ) (path : List ℕ) → IsLocal l (look_of l n path) }
    ensures cat { (l n : ℕ) (path : List ℕ) → IsLocal l (cat_of l n path) }
    ensures ls { (l n : ℕ) (path : List ℕ) → IsLocal l (ls_of l n path) }
    ensures file { (l n : ℕ) (path : List ℕ) → IsLocal l (file_of l n path) }
    ensures tree { (l n : ℕ) → IsLocal l (tree_of l n) }
{}

/// The same of the parts of a volume that are read by its geometry.
pub fn parts_are_local()
    ensures inode { (g : Geometry) (i : ℕ) → IsLocal g.fsize (inode_of g i) }
    ensures group { (g : Geometry) (c : ℕ) → IsLocal g.fsize (group_bytes g c) }
    ensures free { (g : Geometry) (f : ℕ) → IsLocal g.fsize (is_marked_free g f) }
    ensures unused { (g : Geometry) (i : ℕ) → IsLocal g.fsize (is_marked_unused g i) }
    ensures address { (g : Geometry) (inode : Inode) (n : ℕ) → IsLocal g.fsize (file_block_of g inode n) }
    ensures block { (g : Geometry) (inode : Inode) (n : ℕ) → IsLocal g.fsize (block_of g inode n) }
    ensures contents { (g : Geometry) (inode : Inode) → IsLocal g.fsize (contents_of g inode) }
    ensures chunks { (g : Geometry) (inode : Inode) (n : ℕ) → IsLocal g.fsize (chunks_of g inode n) }
    ensures entries { (g : Geometry) (inode : Inode) → IsLocal g.fsize (entries_of g inode) }
    ensures listing { (g : Geometry) (inode : Inode) → IsLocal g.fsize (listing_of g inode) }
    ensures look { (g : Geometry) (names : List (List ℕ)) (i : ℕ) → IsLocal g.fsize (look_from g names i) }
{}
