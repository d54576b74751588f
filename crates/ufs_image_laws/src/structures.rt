// What isn't wrong with a built volume.
ghost use Rattle.std.specs.Prelude.{◌≡◌, ◌≢◌, ◌+◌, ◌*◌, ◌%◌, ◌^◌, ◌<◌, ℕ, List, Ok, length};
ghost use Rattle.ufs_build.specs.Builds.{built};
ghost use Rattle.ufs_build.specs.declared.items.Item.{Item};
ghost use Rattle.ufs_build.specs.declared.volumes.Spec.{Spec};
ghost use Rattle.ufs_image_laws.specs.Built.{IsBuilt, blocks_in};
ghost use Rattle.ufs_model.specs.Malformations.{IsMalformed, IsSoundVolume};
ghost use Rattle.ufs_model.specs.declared.malformations.BadKind.{BadKind};
ghost use Rattle.ufs_model.specs.declared.malformations.BadKind.TheVariants.{Filesize};

/// A built volume has no malformation but that a file has 2^32 bytes or more. The size of its blocks divides 8192, as that
/// of an array's does.
pub fn built_volumes_have_no_malformation_but_sizes()
    ensures { (spec : Spec) (items : List Item) (image : List ℕ) (is : IsBuilt spec items image) (kind : BadKind) (number : ℕ) → 8192 % spec.l ≡ 0
        → kind ≢ Filesize → IsMalformed spec.l is.g.size (blocks_in spec.l is.g.size image) kind number → ⊥ }
{}

/// With fewer than 2^23 - 2 items no file is so large, and a built volume is sound.
pub fn built_volumes_are_sound()
    ensures { (spec : Spec) (items : List Item) (image : List ℕ) → built spec items ≡ Ok image → 8192 % spec.l ≡ 0 → length items + 2 < 2 ^ 23
        → IsSoundVolume spec.l (spec.ncg * spec.fpg) (blocks_in spec.l (spec.ncg * spec.fpg) image) }
{}
