ghost use Rattle.std.specs.Prelude.{◌≡◌};
ghost use Rattle.dg_claims.specs.Kept.{table_of};
ghost use Rattle.dg_claims.specs.Tables.{HasFewAbove, IsLeveled, TableClaims};
ghost use Rattle.dg_infer.specs.Chains.{IsChain, chain_below};

use dg_claims::{ClaimSource, Claims};

/// What the chain of sources of a fragment leads to.
#[derive(Clone, Copy, Debug, PartialEq, Eq)]
pub enum Chain {
    /// Nothing claims the fragment.
    Unclaimed,
    /// Each fragment on the chain has one claim, that of the first at this level, and an inode is at its top.
    Owned(u32, u8),
    /// So many claims are on the first fragment on the chain that has more than one.
    Shared(u32),
}

/// The chain of a fragment whose one claim has this level, by that of the fragment above it.
fn chain_below(level: u8, above: Chain) -> Chain
    ensures { result ≡ chain_below level above }
{
    match above {
        Chain::Unclaimed => Chain::Unclaimed,
        Chain::Owned(inode, _) => Chain::Owned(inode, level),
        Chain::Shared(count) => Chain::Shared(count),
    }
}

/// The chain of a fragment, above which at most so many levels are.
pub fn chain_of(claims: &Claims, fragment: u32, levels: u8) -> Chain
    ensures { IsLeveled (table_of claims.now) → HasFewAbove (table_of claims.now) fragment levels
        → IsChain (TableClaims (table_of claims.now)) fragment result }
{
    let count = claims.claims_on(fragment);
    if count > 1 {
        return Chain::Shared(count);
    }
    let Some(source) = claims.only_claim(fragment) else {
        return Chain::Unclaimed;
    };
    match source {
        ClaimSource::Slot { inode, .. } => Chain::Owned(inode, source.level()),
        ClaimSource::Pointer {
            fragment: upper,
            ..
        } => {
            if levels == 0 {
                return Chain::Unclaimed;
            }
            chain_below(source.level(), chain_of(claims, upper, levels - 1))
        }
    }
}
