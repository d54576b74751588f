// The parts of a built volume.
ghost use Rattle.std.specs.Prelude.{◌≡◌, ◌*◌, ℕ, List, Ok, All, Contains, length, slice_index};
ghost use Rattle.std.specs.List.{AllPairs};
ghost use Rattle.ufs_build.specs.Builds.{built};
ghost use Rattle.ufs_build.specs.Parts.{Part};
ghost use Rattle.ufs_build.specs.declared.items.Item.{Item};
ghost use Rattle.ufs_build.specs.declared.volumes.Spec.{Spec};
ghost use Rattle.ufs_image_laws.specs.Built.{IsBuilt, parts_in};
ghost use Rattle.ufs_image_laws.specs.Reads.{Apart, Misses, Stands};

/// A volume that was built has a geometry, a directory for each item, and fragments for each file, which its spec and its items give.
pub fn built_volumes_are_made_of_parts()
    ensures { (spec : Spec) (items : List Item) (image : List ℕ) → built spec items ≡ Ok image → IsBuilt spec items image }
{}

/// No two parts of a built volume have a byte in common: the fields of the superblock, those of group blocks and their maps, the inodes
/// and the blocks of files. So each part stands in its place as it is, and all other bytes are zero.
pub fn parts_are_apart()
    ensures apart { (spec : Spec) (items : List Item) (image : List ℕ) (is : IsBuilt spec items image) → AllPairs Apart (parts_in is) }
    ensures stand { (spec : Spec) (items : List Item) (image : List ℕ) (is : IsBuilt spec items image) (part : Part) → Contains (parts_in is) part
        → Stands image part.at part.bytes }
    ensures zeros { (spec : Spec) (items : List Item) (image : List ℕ) (is : IsBuilt spec items image) (p : ℕ) → All (Misses p) (parts_in is)
        → slice_index image p ≡ 0 }
    ensures size { (spec : Spec) (items : List Item) (image : List ℕ) (is : IsBuilt spec items image) → length image ≡ is.g.size * is.g.fsize }
{}
