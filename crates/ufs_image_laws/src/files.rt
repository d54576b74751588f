// The blocks and the contents of the files of a built volume, as they are read.
ghost use Rattle.std.specs.Prelude.{◌≡◌, ◌↔◌, ◌+◌, ◌^◌, ◌<◌, ℕ, List, Ok, Some, true, false, length, slice_get};
ghost use Rattle.ufs_build.specs.Nodes.{Node};
ghost use Rattle.ufs_build.specs.Placements.{Addresses, address_at, blocks_of, is_hole};
ghost use Rattle.ufs_build.specs.declared.items.Item.{Item};
ghost use Rattle.ufs_build.specs.declared.items.ItemKind.TheVariants.{File};
ghost use Rattle.ufs_build.specs.declared.volumes.Spec.{Spec};
ghost use Rattle.ufs_image_laws.specs.Addresses.{place_of};
ghost use Rattle.ufs_image_laws.specs.Built.{IsBuilt, blocks_in, nodes_in};
ghost use Rattle.ufs_model.specs.Inodes.{inode_of};
ghost use Rattle.ufs_model.specs.Paths.{contents_of};
ghost use Rattle.ufs_model.specs.Pointers.{file_block_of};
ghost use Rattle.ufs_model.specs.declared.inodes.Inode.{Inode};

/// Each block of a file is found at the address that the file got, directly or through indirect blocks, and it has none exactly where it
/// is a hole.
pub fn built_blocks_are_found()
    ensures found { (spec : Spec) (items : List Item) (image : List ℕ) (is : IsBuilt spec items image) (k : ℕ) (node : Node) (addresses : Addresses) (inode : Inode) (n : ℕ)
        → slice_get (nodes_in is) k ≡ Some node → slice_get is.all.files k ≡ Some addresses → node.inside ≡ false → length node.bytes < 2 ^ 32
        → (inode_of is.g (2 + k) (blocks_in is.g.fsize is.g.size image)).value ≡ Some inode → n < blocks_of is.g node
        → (file_block_of is.g inode n (blocks_in is.g.fsize is.g.size image)).value ≡ place_of is.g (length node.bytes) addresses n }
    ensures holes { (spec : Spec) (items : List Item) (image : List ℕ) (is : IsBuilt spec items image) (k : ℕ) (node : Node) (addresses : Addresses) (n : ℕ)
        → slice_get (nodes_in is) k ≡ Some node → slice_get is.all.files k ≡ Some addresses → n < blocks_of is.g node
        → (address_at addresses 0 n ≡ 0) ↔ (is_hole is.g node n ≡ true) }
{}

/// The contents of the inode of each item that is a regular file are the item's bytes.
pub fn built_files_have_their_contents()
    ensures { (spec : Spec) (items : List Item) (image : List ℕ) (is : IsBuilt spec items image) (k : ℕ) (item : Item) (inode : Inode)
        → slice_get items k ≡ Some item → item.kind ≡ File → (inode_of is.g (k + 3) (blocks_in is.g.fsize is.g.size image)).value ≡ Some inode
        → (contents_of is.g inode (blocks_in is.g.fsize is.g.size image)).value ≡ Ok item.bytes }
{}
