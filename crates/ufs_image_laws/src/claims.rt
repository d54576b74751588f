// What claims the fragments of a built volume.
ghost use Rattle.std.specs.Prelude.{◌≡◌, ◌^◌, ◌<◌, ℕ, List, Some, false, true, length, slice_get};
ghost use Rattle.ufs_build.specs.Nodes.{Node};
ghost use Rattle.ufs_build.specs.Placements.{Addresses, is_used};
ghost use Rattle.ufs_build.specs.declared.items.Item.{Item};
ghost use Rattle.ufs_build.specs.declared.volumes.Spec.{Spec};
ghost use Rattle.ufs_image_laws.specs.Built.{IsBuilt, blocks_in, nodes_in};
ghost use Rattle.ufs_image_laws.specs.Claims.{IsInBlock, IsOfFile};
ghost use Rattle.ufs_model.specs.Claims.{IsClaim, IsClaimedAt, source_fragments};
ghost use Rattle.ufs_model.specs.declared.claims.ClaimSource.{ClaimSource};

/// A fragment that is claimed is one of a block of a file, at the claim's level. So it is in use, and it has no other claim. And each
/// fragment of a block of a file with fewer than 2^32 bytes is claimed.
pub fn built_claims_are_of_files()
    ensures files { (spec : Spec) (items : List Item) (image : List ℕ) (is : IsBuilt spec items image) (f : ℕ) (source : ClaimSource)
        → IsClaim (source_fragments is.g (blocks_in is.g.fsize is.g.size image)) f source → IsOfFile is.g (nodes_in is) is.all.files f source }
    ensures used { (spec : Spec) (items : List Item) (image : List ℕ) (is : IsBuilt spec items image) (f : ℕ) (source : ClaimSource)
        → IsClaim (source_fragments is.g (blocks_in is.g.fsize is.g.size image)) f source → is_used is.all.used f ≡ true }
    ensures one { (spec : Spec) (items : List Item) (image : List ℕ) (is : IsBuilt spec items image) (f : ℕ) (source other : ClaimSource)
        → IsClaim (source_fragments is.g (blocks_in is.g.fsize is.g.size image)) f source
        → IsClaim (source_fragments is.g (blocks_in is.g.fsize is.g.size image)) f other → source ≡ other }
    ensures claimed { (spec : Spec) (items : List Item) (image : List ℕ) (is : IsBuilt spec items image) (k : ℕ) (node : Node) (addresses : Addresses)
        (level index f : ℕ) → slice_get (nodes_in is) k ≡ Some node → slice_get is.all.files k ≡ Some addresses → node.inside ≡ false
        → length node.bytes < 2 ^ 32 → level < 4 → IsInBlock is.g (length node.bytes) addresses level index f
        → IsClaimedAt (IsClaim (source_fragments is.g (blocks_in is.g.fsize is.g.size image))) level f }
{}
