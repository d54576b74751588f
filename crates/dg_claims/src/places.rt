ghost use Rattle.std.specs.Prelude.{◌≡◌, ◌^◌, ◌≤◌, ◌<◌, IfSome, IfNone};
ghost use Rattle.std.specs.Bool.{Decides};
ghost use Rattle.std.specs.declared.cmp.Ordering.TheVariants.{Less};
ghost use Rattle.dg_claims.specs.Places.{index_of, mark_cmp, mark_of, place_of, source_of};

use ufs_model::ClaimSource;

/// A source, in 12 bytes: a pointer's number in its fragment is below 2^16. The order is that of sources.
#[derive(Clone, Copy, Debug, PartialEq, Eq, PartialOrd, Ord)]
pub enum Place {
    /// A slot of an inode.
    Slot { inode: u32, slot: u8 },
    /// A pointer in a fragment of an indirect block, with the level of the fragment's claim.
    Pointer { fragment: u32, level: u8, at: u16 },
}

const _: () = prove!(size_of::<Place>() == 12);

/// A source with the level at which it claims. The order is that of the claims on a fragment.
#[derive(Clone, Copy, Debug, PartialEq, Eq, PartialOrd, Ord)]
pub struct Mark {
    pub level: u8,
    pub place: Place,
}

/// Whether two sources are one.
pub fn is_same(one: Place, other: Place) -> bool
    ensures { Decides result (one ≡ other) }
{
    one == other
}

/// The source as it is kept. There is none where its number is too large for one that is kept.
pub fn place_of(source: ClaimSource) -> Option<Place>
    ensures place { IfSome result (λ place. place ≡ place_of source) }
    ensures large { IfNone result (2 ^ 16 ≤ index_of source) }
{
    match source {
        ClaimSource::Slot { inode, slot } => Some(Place::Slot { inode, slot }),
        ClaimSource::Pointer {
            fragment,
            level,
            at,
        } => match u16::try_from(at) {
            Ok(at) => Some(Place::Pointer {
                fragment,
                level,
                at,
            }),
            Err(_) => None,
        },
    }
}

/// The source that is kept so.
pub fn source_of(place: Place) -> ClaimSource
    ensures { result ≡ source_of place }
{
    match place {
        Place::Slot { inode, slot } => ClaimSource::Slot { inode, slot },
        Place::Pointer {
            fragment,
            level,
            at,
        } => ClaimSource::Pointer {
            fragment,
            level,
            at: u32::from(at),
        },
    }
}

/// The source with its level.
pub fn mark_of(place: Place) -> Mark
    ensures { result ≡ mark_of place }
{
    Mark {
        level: source_of(place).level(),
        place,
    }
}

/// Whether one source is before the other among the claims on a fragment.
pub fn is_before(one: Mark, other: Mark) -> bool
    ensures { Decides result (mark_cmp one other ≡ Less) }
{
    one < other
}
