/// What claims fragments of a volume: a pointer, by the place where it stands.
#[derive(Clone, Copy, Debug, PartialEq, Eq, PartialOrd, Ord)]
pub enum ClaimSource {
    /// A slot of an inode: 0 to 11 are the direct ones, 12 to 14 the indirect ones.
    Slot { inode: u32, slot: u8 },
    /// A pointer in a fragment of an indirect block, which has a claim at this level, 1 to 3. It is
    /// counted from 0 in the fragment.
    Pointer { fragment: u32, level: u8, at: u32 },
}

impl ClaimSource {
    ghost use Rattle.std.specs.Prelude.{◌≡◌};
    ghost use Rattle.ufs_model.specs.Claims.{level_of};

    /// The level at which the source claims: 0 for blocks of data, and 1 to 3 for indirect blocks.
    pub fn level(self) -> u8
        ensures { result ≡ level_of self }
    {
        match self {
            ClaimSource::Slot { slot, .. } => slot.saturating_sub(11),
            ClaimSource::Pointer { level, .. } => level.saturating_sub(1),
        }
    }
}
