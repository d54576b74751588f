// A new home in a list.
ghost use Rattle.std.specs.Prelude.{◌≡◌, ◌≤◌, ◌++◌, ◌∷◌, length, drop, take, OnErr, OnOk};
ghost use Rattle.dg_model.specs.Homes.{with_home};

use dg_io::NoMemory;
use dg_model::Home;
use dg_plan::Homes;
use std::alloc::Global;
use std::mem;

// The place of a new home: behind those with lesser inodes.
fn place_for(home: &Home, homes: &[Home]) -> usize
    ensures within { result ≤ length homes.now }
    ensures place { take result homes.now ++ home.now ∷ drop result homes.now ≡ with_home home.now homes.now }
{
    for place in 0..homes.len() {
        if home.inode < homes[place].inode {
            return place;
        }
    }
    homes.len()
}

/// Puts a new home into a list.
pub fn add_home(alloc: Global, homes: &mut Homes, home: Home) -> Result<(), NoMemory>
    ensures added { OnOk result (homes.new ≡ with_home home homes.old) }
    ensures err { OnErr result (homes.new ≡ homes.old) }
{
    let mut items = mem::replace(homes, Homes::new(Vec::new(alloc))).into_vec();
    let place = place_for(&home, &items);
    let added = items.insert(place, home);
    *homes = Homes::new(items);
    match added {
        Ok(()) => Ok(()),
        Err(_) => Err(NoMemory),
    }
}
