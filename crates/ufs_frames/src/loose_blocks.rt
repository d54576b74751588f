// Blocks that nothing claims, and that are none of the file system itself.
ghost use Rattle.std.specs.Prelude.{◌≡◌, ◌≢◌, ℕ, List, Ok, Contains};
ghost use Rattle.ufs_model.specs.Blocks.{Volume};
ghost use Rattle.ufs_model.specs.Listings.{ls_of};
ghost use Rattle.ufs_model.specs.Metadata.{IsStructure};
ghost use Rattle.ufs_model.specs.Paths.{cat_of, look_of};
ghost use Rattle.ufs_model.specs.Superblocks.{geometry_of};
ghost use Rattle.ufs_model.specs.Trees.{file_of, tree_of};
ghost use Rattle.ufs_model.specs.declared.geometries.Geometry.{Geometry};
ghost use Rattle.ufs_frames.specs.Frames.{AgreeOn, DifferLoosely, HasWholeIndirects, IsLoose, IsUsed};

/// On a volume with a geometry, the blocks of the structure, and those that are needed for what is read by a path, are blocks of the
/// file system itself, or claimed.
pub fn needed_blocks_are_used()
    ensures structure { (l n : ℕ) (v : Volume) (g : Geometry) (b : ℕ) → (geometry_of l n v).value ≡ Ok g → IsStructure l n v b → IsUsed l n v b }
    ensures look { (l n : ℕ) (v : Volume) (g : Geometry) (path : List ℕ) (b : ℕ) → (geometry_of l n v).value ≡ Ok g → HasWholeIndirects l n v
        → Contains (look_of l n path v).needs b → IsUsed l n v b }
    ensures cat { (l n : ℕ) (v : Volume) (g : Geometry) (path : List ℕ) (b : ℕ) → (geometry_of l n v).value ≡ Ok g → HasWholeIndirects l n v
        → Contains (cat_of l n path v).needs b → IsUsed l n v b }
    ensures ls { (l n : ℕ) (v : Volume) (g : Geometry) (path : List ℕ) (b : ℕ) → (geometry_of l n v).value ≡ Ok g → HasWholeIndirects l n v
        → Contains (ls_of l n path v).needs b → IsUsed l n v b }
    ensures file { (l n : ℕ) (v : Volume) (g : Geometry) (path : List ℕ) (b : ℕ) → (geometry_of l n v).value ≡ Ok g → HasWholeIndirects l n v
        → Contains (file_of l n path v).needs b → IsUsed l n v b }
    ensures tree { (l n : ℕ) (v : Volume) (g : Geometry) (b : ℕ) → (geometry_of l n v).value ≡ Ok g → HasWholeIndirects l n v
        → Contains (tree_of l n v).needs b → IsUsed l n v b }
{}

/// Loose blocks may change, and neither the structure does, nor what is read by a path.
pub fn change_of_loose_blocks()
    ensures { (l n : ℕ) (v w : Volume) (g : Geometry) → (geometry_of l n v).value ≡ Ok g → HasWholeIndirects l n v
        → AgreeOn l (λ b. IsLoose l n v b → ⊥) v w → DifferLoosely l n v w }
{}

/// The same of one loose block, as where a block that is dead becomes one of zeros.
pub fn change_of_a_loose_block()
    ensures { (l n : ℕ) (v w : Volume) (b : ℕ) → HasWholeIndirects l n v → IsLoose l n v b → AgreeOn l (λ other. other ≢ b) v w → DifferLoosely l n v w }
{}
