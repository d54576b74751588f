ghost use Rattle.std.specs.Prelude.{◌≡◌, ◌*◌, ◌<◌, ◌≤◌, ℕ, Err, List, None, Ok, Some, []};
ghost use Rattle.ufs_model.specs.Blocks.{Volume, block_at};
ghost use Rattle.ufs_model.specs.Claims.{IsClaim, level_of, source_fragments};
ghost use Rattle.ufs_model.specs.Inodes.{inode_block, inode_bytes, inode_in, is_inode_number};
ghost use Rattle.ufs_model.specs.Superblocks.{geometry_of};
ghost use Rattle.ufs_model.specs.declared.claims.ClaimSource.{ClaimSource};
ghost use Rattle.ufs_model.specs.declared.geometries.BadSuper.{BadSuper};
ghost use Rattle.ufs_model.specs.declared.geometries.Geometry.{Geometry};
ghost use Rattle.dg_claims.specs.Scans.{stored_fragments};
ghost use Rattle.dg_claims.specs.Tables.{ClaimTable, HasClaims, IsLeveled, IsTableOf, fragment_pointers};

/// What an inode in its block says that its slots claim is what they claim on the volume.
pub fn slots_of_inodes()
    ensures { (g : Geometry) (v : Volume) (number slot : ℕ) → 2 ≤ number → number < g.ncg * g.ipg
        → stored_fragments (Some g) number (inode_in g.endian (inode_bytes g number (block_at g.fsize v (inode_block g number)))) slot
        ≡ source_fragments g v (ClaimSource.Slot number slot) }
{}

/// What the bytes of a fragment say that its pointers claim is what they claim on the volume.
pub fn pointers_of_fragments()
    ensures { (g : Geometry) (v : Volume) (fragment level at : ℕ)
        → fragment_pointers (Some g) (block_at g.fsize v fragment) at ≡ source_fragments g v (ClaimSource.Pointer fragment level at) }
{}

/// No fragment of a volume is claimed at a level above 3.
pub fn levels_of_claims()
    ensures { (g : Geometry) (v : Volume) (fragment : ℕ) (source : ClaimSource) → IsClaim (source_fragments g v) fragment source → level_of source ≤ 3 }
{}

/// Where each source claims the same, the claims are the same.
pub fn claims_of_sources()
    ensures { (one other : ClaimSource → List ℕ) → ((source : ClaimSource) → one source ≡ other source)
        → (fragment : ℕ) (source : ClaimSource) → IsClaim one fragment source → IsClaim other fragment source }
{}

/// A table with a volume's geometry is the volume's where it has the claims by that geometry; and where the volume has none, if
/// the table is empty.
pub fn tables_of_volumes()
    ensures accepted { (l n : ℕ) (v : Volume) (table : ClaimTable) (g : Geometry) → (geometry_of l n v).value ≡ Ok g → table.geometry ≡ Some g
        → HasClaims table (IsClaim (source_fragments g v)) → IsTableOf l n v table }
    ensures refused { (l n : ℕ) (v : Volume) (table : ClaimTable) (bad : BadSuper) → (geometry_of l n v).value ≡ Err bad → table.geometry ≡ None
        → ((source : ClaimSource) → table.claimed source ≡ []) → IsTableOf l n v table }
    ensures claims { (l n : ℕ) (v : Volume) (table : ClaimTable) (g : Geometry) → IsTableOf l n v table → table.geometry ≡ Some g
        → HasClaims table (IsClaim (source_fragments g v)) }
    ensures geometry { (l n : ℕ) (v : Volume) (table : ClaimTable) (g : Geometry) → IsTableOf l n v table → table.geometry ≡ Some g
        → (geometry_of l n v).value ≡ Ok g }
    ensures leveled { (l n : ℕ) (v : Volume) (table : ClaimTable) → IsTableOf l n v table → IsLeveled table }
{}
