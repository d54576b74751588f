// The inodes of a built volume, as they are read.
ghost use Rattle.std.specs.Prelude.{◌≡◌, ◌+◌, ◌*◌, ◌<◌, ◌≤◌, ◌⊎◌, ℕ, List, None, Some, length, slice_get};
ghost use Rattle.ufs_build.specs.Directories.{directory_bytes};
ghost use Rattle.ufs_build.specs.Nodes.{Node, node_of};
ghost use Rattle.ufs_build.specs.Placements.{Addresses};
ghost use Rattle.ufs_build.specs.declared.items.Item.{Item};
ghost use Rattle.ufs_build.specs.declared.volumes.Spec.{Spec};
ghost use Rattle.ufs_image_laws.specs.Built.{IsBuilt, blocks_in, nodes_in, root_of};
ghost use Rattle.ufs_image_laws.specs.Inodes.{IsInodeOf};
ghost use Rattle.ufs_model.specs.Inodes.{inode_of};

/// File 0 of a built volume is the root's directory, and file k + 1 is that of item k, with the inode of the item's directory.
/// Each file has its addresses.
pub fn files_of_items()
    ensures root { (spec : Spec) (items : List Item) (image : List ℕ) (is : IsBuilt spec items image)
        → slice_get (nodes_in is) 0 ≡ Some (root_of is.g.endian items is.parents) }
    ensures item { (spec : Spec) (items : List Item) (image : List ℕ) (is : IsBuilt spec items image) (k : ℕ) (item : Item) (parent : ℕ)
        → slice_get items k ≡ Some item → slice_get is.parents k ≡ Some parent
        → slice_get (nodes_in is) (k + 1) ≡ Some (node_of item (directory_bytes is.g.endian items is.parents (k + 3) parent)) }
    ensures parents { (spec : Spec) (items : List Item) (image : List ℕ) (is : IsBuilt spec items image) → length is.parents ≡ length items }
    ensures count { (spec : Spec) (items : List Item) (image : List ℕ) (is : IsBuilt spec items image) → length (nodes_in is) ≡ length items + 1 }
    ensures addresses { (spec : Spec) (items : List Item) (image : List ℕ) (is : IsBuilt spec items image)
        → length is.all.files ≡ length (nodes_in is) }
{}

/// File k of a built volume has inode k + 2: that of the root is 2, and that of item k is k + 3.
pub fn built_inodes_are_read()
    ensures { (spec : Spec) (items : List Item) (image : List ℕ) (is : IsBuilt spec items image) (k : ℕ) (node : Node) (addresses : Addresses)
        → slice_get (nodes_in is) k ≡ Some node → slice_get is.all.files k ≡ Some addresses
        → IsInodeOf node addresses (inode_of is.g (2 + k) (blocks_in is.g.fsize is.g.size image)).value }
{}

/// No other inode is allocated.
pub fn other_inodes_are_unallocated()
    ensures { (spec : Spec) (items : List Item) (image : List ℕ) (is : IsBuilt spec items image) (i : ℕ) → i < is.g.ncg * is.g.ipg
        → (i < 2 ⊎ (2 + length (nodes_in is) ≤ i)) → (inode_of is.g i (blocks_in is.g.fsize is.g.size image)).value ≡ None }
{}
