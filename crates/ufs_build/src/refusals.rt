use dg_model::NoMemory;

/// What a volume has too few of.
#[derive(Clone, Copy, Debug, PartialEq, Eq)]
pub enum What {
    /// Inodes for the root and the items.
    Inodes,
    /// Fragments for the blocks of files.
    Fragments,
    /// Room for what each group has, or numbers that make no volume.
    Spec,
}

/// Why no volume is built. The refusals are tried in the order `TooMany(Spec)`, `TooMany(Inodes)`,
/// `BadItem`, `TooMany(Fragments)`.
#[derive(Clone, Copy, Debug, PartialEq, Eq)]
pub enum BuildRefused {
    TooMany(What),
    /// The first item that can't stand where its path says, counted from 0.
    BadItem(u32),
    NoMemory,
}

impl From<NoMemory> for BuildRefused {
    ghost use Rattle.std.specs.Prelude.{◌≡◌};
    ghost use Rattle.ufs_build.specs.declared.refusals.BuildRefused.TheVariants.{NoMemory as OutOfMemory};

    ghost from_gives = { λ x r. r ≡ OutOfMemory };

    fn from(_: NoMemory) -> BuildRefused {
        BuildRefused::NoMemory
    }
}
