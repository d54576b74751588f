// The directories of a built volume, as they are read.
ghost use Rattle.std.specs.Prelude.{◌≡◌, ◌+◌, ◌^◌, ◌<◌, ℕ, List, Ok, Some, length, slice_get};
ghost use Rattle.ufs_build.specs.Directories.{directory_bytes, directory_entries};
ghost use Rattle.ufs_build.specs.declared.items.Item.{Item};
ghost use Rattle.ufs_build.specs.declared.items.ItemKind.TheVariants.{Dir};
ghost use Rattle.ufs_build.specs.declared.volumes.Spec.{Spec};
ghost use Rattle.ufs_image_laws.specs.Built.{IsBuilt, blocks_in};
ghost use Rattle.ufs_model.specs.Inodes.{inode_of};
ghost use Rattle.ufs_model.specs.Paths.{entries_of};
ghost use Rattle.ufs_model.specs.declared.inodes.Inode.{Inode};

/// The entries of a directory are `.`, `..`, and those of its items in their order. A directory of 2^32 bytes isn't read.
pub fn built_directories_have_their_entries()
    ensures root { (spec : Spec) (items : List Item) (image : List ℕ) (is : IsBuilt spec items image) (inode : Inode)
        → length (directory_bytes is.g.endian items is.parents 2 2) < 2 ^ 32 → (inode_of is.g 2 (blocks_in is.g.fsize is.g.size image)).value ≡ Some inode
        → (entries_of is.g inode (blocks_in is.g.fsize is.g.size image)).value ≡ Ok (directory_entries items is.parents 2 2) }
    ensures items { (spec : Spec) (items : List Item) (image : List ℕ) (is : IsBuilt spec items image) (k : ℕ) (item : Item) (parent : ℕ) (inode : Inode)
        → slice_get items k ≡ Some item → item.kind ≡ Dir → slice_get is.parents k ≡ Some parent
        → length (directory_bytes is.g.endian items is.parents (k + 3) parent) < 2 ^ 32
        → (inode_of is.g (k + 3) (blocks_in is.g.fsize is.g.size image)).value ≡ Some inode
        → (entries_of is.g inode (blocks_in is.g.fsize is.g.size image)).value ≡ Ok (directory_entries items is.parents (k + 3) parent) }
{}
