// The superblock of a built volume, as it is read.
ghost use Rattle.std.specs.Prelude.{◌≡◌, ◌%◌, ℕ, List, Ok, Some};
ghost use Rattle.ufs_build.specs.Volumes.{volume_of_spec};
ghost use Rattle.ufs_build.specs.declared.items.Item.{Item};
ghost use Rattle.ufs_build.specs.declared.volumes.Spec.{Spec};
ghost use Rattle.ufs_image_laws.specs.Built.{IsBuilt, IsOfSpec, blocks_in};
ghost use Rattle.ufs_model.specs.Superblocks.{geometry_of};
ghost use Rattle.ufs_model.specs.declared.geometries.Geometry.{Geometry};

/// The geometry of a volume that is to be built passes the tests of a superblock, and has the numbers of its spec.
pub fn geometries_are_of_specs()
    ensures { (spec : Spec) (g : Geometry) → volume_of_spec spec ≡ Some g → IsOfSpec spec g }
{}

/// The geometry that is read of a built volume is that of its spec. The size of its blocks divides 8192, as that of an array's does.
pub fn built_volumes_have_their_geometry()
    ensures { (spec : Spec) (items : List Item) (image : List ℕ) (is : IsBuilt spec items image) → 8192 % spec.l ≡ 0
        → (geometry_of spec.l is.g.size (blocks_in spec.l is.g.size image)).value ≡ Ok is.g }
{}
