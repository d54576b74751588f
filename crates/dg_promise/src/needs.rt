// Which blocks of a volume are needed to read the file at a path, and whose they are.
ghost use Rattle.std.specs.Prelude.{◌≡◌, ℕ, List, Ok, Err, IsOk, Contains};
ghost use Rattle.ufs_model.specs.Blocks.{Volume};
ghost use Rattle.ufs_model.specs.Malformations.{IsSoundVolume};
ghost use Rattle.ufs_model.specs.Paths.{cat_of};
ghost use Rattle.ufs_model.specs.Trees.{file_of};
ghost use Rattle.ufs_model.specs.declared.reads.PathRefusal.{PathRefusal};
ghost use Rattle.ufs_frames.specs.Frames.{HasWholeIndirects};
ghost use Rattle.dg_model.specs.Volumes.{IsSystemBlock};
ghost use Rattle.dg_model.specs.Wants.{IsOf};
ghost use Rattle.dg_promise.specs.Needed.{IsNeeded};

use ufs_frames::files_are_tame;

/// A block belongs to one inode at most, and none of the file system itself belongs to any.
pub fn blocks_have_one_owner()
    ensures one { (l n : ℕ) (v : Volume) (b i j : ℕ) → IsOf l n v b i → IsOf l n v b j → i ≡ j }
    ensures system { (l n : ℕ) (v : Volume) (b i : ℕ) → IsOf l n v b i → IsSystemBlock l n v b → ⊥ }
{}

/// On a sound volume each block that is needed to read the file at a path is one of the file system itself, or belongs to an inode that
/// is no regular file, or to the file.
pub fn needed_blocks_have_reasons()
    ensures { (l n : ℕ) (v : Volume) (path : List ℕ) (b : ℕ) → HasWholeIndirects l n v → IsSoundVolume l n v
        → Contains (cat_of l n path v).needs b → IsNeeded l n v path b }
{}

/// On a sound volume each block that belongs to the regular file at a path is needed to read it.
pub fn files_need_their_blocks()
    ensures { (l n : ℕ) (v : Volume) (path : List ℕ) (i b : ℕ) → HasWholeIndirects l n v → IsSoundVolume l n v
        → (file_of l n path v).value ≡ Ok i → IsOf l n v b i → Contains (cat_of l n path v).needs b }
{
    files_are_tame();
}

/// On a sound volume the regular file at a path is read without a refusal. On any volume a path that leads to none is refused as such.
pub fn files_are_read()
    ensures read { (l n : ℕ) (v : Volume) (path : List ℕ) (i : ℕ) → HasWholeIndirects l n v → IsSoundVolume l n v
        → (file_of l n path v).value ≡ Ok i → IsOk (cat_of l n path v).value }
    ensures refused { (l n : ℕ) (v : Volume) (path : List ℕ) (refusal : PathRefusal)
        → (file_of l n path v).value ≡ Err refusal → (cat_of l n path v).value ≡ Err refusal }
{
    files_are_tame();
}
