ghost use Rattle.std.specs.Prelude.{◌≡◌, ◌++◌, OnOk, option_to_list};
ghost use Rattle.dg_model.specs.Tables.{Table};
ghost use Rattle.dg_map.specs.Begun.{AreSlotsOf};
ghost use Rattle.dg_map.specs.Renumbers.{renumbered_site, renumbered_sites};
ghost use Rattle.dg_map.specs.Restores.{CanHave, set_sites};

use crate::boundary_slots::Slots;
use dg_model::{NoMemory, Site};

/// A site under the new number of its boundary, if that has one.
fn renumbered_site(site: Site, numbers: &[Option<u8>]) -> Option<Site>
    ensures { result ≡ renumbered_site numbers.now site }
{
    match numbers.get(site.boundary as usize) {
        Some(Some(boundary)) => Some(Site {
            boundary: *boundary,
            slot: site.slot,
        }),
        _ => None,
    }
}

/// Puts those of the sites whose boundaries have new numbers last, under these.
pub fn push_renumbered(
    pushed: &mut Vec<Site>,
    sites: &[Site],
    numbers: &[Option<u8>],
) -> Result<(), NoMemory>
    ensures { OnOk result (pushed.new.items ≡ pushed.old.items ++ renumbered_sites numbers.now sites.now) }
{
    for site in sites {
        push_some(pushed, renumbered_site(*site, numbers))?;
    }
    Ok(())
}

/// Puts a site last, if there is one.
fn push_some(sites: &mut Vec<Site>, site: Option<Site>) -> Result<(), NoMemory>
    ensures { OnOk result (sites.new.items ≡ sites.old.items ++ option_to_list site) }
{
    let Some(site) = site else {
        return Ok(());
    };
    match sites.push(site) {
        Ok(()) => Ok(()),
        Err(_) => Err(NoMemory),
    }
}

/// Puts the block into the slots of these sites.
pub fn take_slots(boundaries: &mut Vec<Slots>, block: u32, sites: &[Site])
    requires { (table : Table) × AreSlotsOf table boundaries.old.items × CanHave table block sites.now }
    ensures { (table : Table) → AreSlotsOf table boundaries.old.items → CanHave table block sites.now
        → AreSlotsOf (set_sites table block sites.now) boundaries.new.items }
{
    for site in sites {
        let slots = &mut boundaries[site.boundary as usize];
        slots.take_at(site.slot, block);
    }
}
