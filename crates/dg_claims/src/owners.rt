ghost use Rattle.std.specs.Prelude.{◌≡◌, ◌-◌, ◌<◌, ◌≤◌, ℕ, IfNone, IfSome};
ghost use Rattle.ufs_model.specs.Claims.{level_of};
ghost use Rattle.ufs_model.specs.Owners.{IsOwner, IsShared};
ghost use Rattle.dg_claims.specs.Kept.{table_of};
ghost use Rattle.dg_claims.specs.Tables.{HasFewAbove, IsLeveled, TableClaims};

use crate::claims::Claims;
use ufs_model::ClaimSource;

/// The highest level of an indirect block (`NIADDR`).
const HIGHEST: u8 = 3;

impl Claims {
    /// The inode at the top of the chain of sources from a fragment at a level upwards, where each fragment on the chain has one
    /// claim.
    fn owner_at(&self, fragment: u32, level: u8) -> Option<u32>
        ensures owner { IfSome result (λ inode. IsOwner (TableClaims (table_of self.now)) fragment inode level) }
        ensures none { IfNone result ((inode : ℕ) → IsOwner (TableClaims (table_of self.now)) fragment inode level → ⊥) }
    {
        let source = self.only_claim(fragment)?;
        if source.level() != level {
            return None;
        }
        match source {
            ClaimSource::Slot { inode, .. } => Some(inode),
            ClaimSource::Pointer {
                fragment: upper,
                level: above,
                ..
            } => self.owner_at(upper, above),
        }
    }

    /// The owner of a fragment, and the level of its claim: the inode at the top of the chain of sources from the fragment
    /// upwards, where each fragment on the chain has one claim.
    pub fn owner(&self, fragment: u32) -> Option<(u32, u8)>
        ensures owner { IfSome result (λ owner. IsOwner (TableClaims (table_of self.now)) fragment owner.0 owner.1) }
        ensures none { IfNone result ((inode level : ℕ) → IsOwner (TableClaims (table_of self.now)) fragment inode level → ⊥) }
    {
        let source = self.only_claim(fragment)?;
        let level = source.level();
        let inode = self.owner_at(fragment, level)?;
        Some((inode, level))
    }

    /// How many claims are on the first fragment, from this one upwards, that has more than one. At most so many levels are above
    /// this one.
    fn shared_below(&self, fragment: u32, levels: u8) -> Option<u32>
        ensures shared { IfSome result (IsShared (TableClaims (table_of self.now)) fragment) }
        ensures none { IsLeveled (table_of self.now) → HasFewAbove (table_of self.now) fragment levels
            → IfNone result ((count : ℕ) → IsShared (TableClaims (table_of self.now)) fragment count → ⊥) }
    {
        let number = self.claims_on(fragment);
        if number > 1 {
            return Some(number);
        }
        let source = self.only_claim(fragment)?;
        match source {
            ClaimSource::Slot { .. } => None,
            ClaimSource::Pointer {
                fragment: upper,
                ..
            } => {
                if levels == 0 {
                    return None;
                }
                self.shared_below(upper, levels - 1)
            }
        }
    }

    /// Where a fragment is shared, how many claims are on the first fragment, from it upwards along the chain of sources, that
    /// has more than one.
    pub fn shared(&self, fragment: u32) -> Option<u32>
        ensures shared { IfSome result (IsShared (TableClaims (table_of self.now)) fragment) }
        ensures none { IsLeveled (table_of self.now) → IfNone result ((count : ℕ) → IsShared (TableClaims (table_of self.now)) fragment count → ⊥) }
    {
        self.shared_below(fragment, HIGHEST)
    }
}
