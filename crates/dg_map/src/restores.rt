ghost use Rattle.std.specs.Prelude.{◌≡◌, OnOk};
ghost use Rattle.dg_model.specs.Tables.{IsTable};
ghost use Rattle.dg_map.specs.Restores.{CanHave, set_sites};

use crate::maps::Map;
use dg_model::{NoMemory, Site};

/// Gives a block without sites these, one after another.
pub fn take_all(map: &mut Map, block: u32, sites: &[Site]) -> Result<(), NoMemory>
    requires table { IsTable map.old }
    requires can { CanHave map.old block sites.now }
    ensures taken { OnOk result (map.new ≡ set_sites map.old block sites.now) }
    ensures table { IsTable map.new }
{
    for site in sites {
        map.retake(block, *site)?;
    }
    Ok(())
}
