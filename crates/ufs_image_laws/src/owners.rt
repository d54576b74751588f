// To whom the fragments of a built volume belong.
ghost use Rattle.std.specs.Prelude.{◌≡◌, ◌+◌, ◌*◌, ◌<◌, ℕ, List, Some, length, slice_get};
ghost use Rattle.ufs_build.specs.Nodes.{Node};
ghost use Rattle.ufs_build.specs.Placements.{blocks_of};
ghost use Rattle.ufs_build.specs.declared.items.Item.{Item};
ghost use Rattle.ufs_build.specs.declared.volumes.Spec.{Spec};
ghost use Rattle.ufs_image_laws.specs.Built.{IsBuilt, blocks_in, nodes_in};
ghost use Rattle.ufs_image_laws.specs.Owners.{AreAtMost, IsOwned, all_blocks};

/// A fragment belongs to the inode of a file alone: file k has inode k + 2. No more belong to it than the fragments of its blocks and of the indirect
/// blocks that so many blocks may need.
pub fn built_fragments_belong_to_files()
    ensures files { (spec : Spec) (items : List Item) (image : List ℕ) (is : IsBuilt spec items image) (i f : ℕ)
        → IsOwned is.g (blocks_in is.g.fsize is.g.size image) i f → (k : ℕ) × (i ≡ 2 + k) × (k < length (nodes_in is)) }
    ensures few { (spec : Spec) (items : List Item) (image : List ℕ) (is : IsBuilt spec items image) (k : ℕ) (node : Node) → slice_get (nodes_in is) k ≡ Some node
        → AreAtMost (IsOwned is.g (blocks_in is.g.fsize is.g.size image) (2 + k)) (is.g.frag * all_blocks is.g (blocks_of is.g node)) }
{}
