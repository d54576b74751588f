// What may be wrong with the pointers in a fragment of an indirect block (`NINDIR` in `fs.h`).
ghost use Rattle.std.specs.Prelude.{◌≡◌, IfSome, length};
ghost use Rattle.std.specs.Bool.{Decides};
ghost use Rattle.ufs_model.specs.Geometries.{IsGeometry};
ghost use Rattle.ufs_check.specs.Limits.{IsInLimits};
ghost use Rattle.ufs_check.specs.Pointers.{HasMisalignedPointer, HasPastPointer, HasWildPointer};

use crate::limits::{Limit, is_past};
use crate::reaches::POINTER_BYTES;
use ufs_model::{Address, Geometry};
use ufs_pointer::pointer;
use ufs_super::address;

/// A pointer leads to fragments that aren't all data of one group.
pub fn has_wild_pointer(g: &Geometry, bytes: &[u8]) -> bool
    requires geometry { IsGeometry g.now }
    requires bytes { length bytes.now ≡ g.now.fsize }
    ensures { Decides result (HasWildPointer g.now bytes.now) }
{
    for at in 0..g.fsize / POINTER_BYTES {
        if address(g, pointer(bytes, at, g.endian), g.frag) == Address::Wild {
            return true;
        }
    }
    false
}

/// A pointer leads to a whole file block that begins in the middle of one.
pub fn has_misaligned_pointer(g: &Geometry, bytes: &[u8]) -> bool
    requires geometry { IsGeometry g.now }
    requires bytes { length bytes.now ≡ g.now.fsize }
    ensures { Decides result (HasMisalignedPointer g.now bytes.now) }
{
    for at in 0..g.fsize / POINTER_BYTES {
        if let Address::At(start, count) = address(g, pointer(bytes, at, g.endian), g.frag) {
            if count == g.frag && start % g.frag != 0 {
                return true;
            }
        }
    }
    false
}

/// A pointer isn't 0, though no block of the file is reached through it.
pub fn has_past_pointer(g: &Geometry, bytes: &[u8], limit: Option<Limit>) -> bool
    requires geometry { IsGeometry g.now }
    requires bytes { length bytes.now ≡ g.now.fsize }
    requires limit { IfSome limit IsInLimits }
    ensures { Decides result (HasPastPointer g.now bytes.now limit) }
{
    let Some(limit) = limit else {
        return false;
    };
    for at in 0..g.fsize / POINTER_BYTES {
        if pointer(bytes, at, g.endian) != 0 && is_past(&limit, at) {
            return true;
        }
    }
    false
}
