// The group blocks of a built volume, as they are read.
ghost use Rattle.std.specs.Prelude.{◌≡◌, ◌+◌, ◌*◌, ◌/◌, ◌<◌, ◌&&◌, ℕ, List, Ok, length, nat_lt, not};
ghost use Rattle.ufs_build.specs.Placements.{is_used};
ghost use Rattle.ufs_build.specs.declared.items.Item.{Item};
ghost use Rattle.ufs_build.specs.declared.volumes.Spec.{Spec};
ghost use Rattle.ufs_image_laws.specs.Built.{IsBuilt, blocks_in, group_of, nodes_in};
ghost use Rattle.ufs_model.specs.GroupMaps.{group_bytes, group_in, is_marked_free, is_marked_unused};
ghost use Rattle.ufs_model.specs.Roles.{is_data_of, role};

/// No group block of a built volume is refused. Of the inodes those of its files, and 0 and 1, are marked used. The fragments that are
/// marked free are those for data that no file has.
pub fn built_groups_are_read()
    ensures groups { (spec : Spec) (items : List Item) (image : List ℕ) (is : IsBuilt spec items image) (c : ℕ) → c < is.g.ncg
        → group_in is.g c (group_bytes is.g c (blocks_in is.g.fsize is.g.size image)).value ≡ Ok (group_of is.g c) }
    ensures inodes { (spec : Spec) (items : List Item) (image : List ℕ) (is : IsBuilt spec items image) (i : ℕ) → i < is.g.ncg * is.g.ipg
        → (is_marked_unused is.g i (blocks_in is.g.fsize is.g.size image)).value ≡ not (nat_lt i (length (nodes_in is) + 2)) }
    ensures fragments { (spec : Spec) (items : List Item) (image : List ℕ) (is : IsBuilt spec items image) (f : ℕ) → f < is.g.size
        → (is_marked_free is.g f (blocks_in is.g.fsize is.g.size image)).value
        ≡ (is_data_of (f / is.g.fpg) (role is.g f) && not (is_used is.all.used f)) }
{}
