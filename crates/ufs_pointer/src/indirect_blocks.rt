ghost use Rattle.std.specs.Prelude.{◌≡◌, ◌<◌, IfNone, IfSome, length};
ghost use Rattle.dg_io.specs.ViewWords.{Keeps, Reads};
ghost use Rattle.ufs_model.specs.Geometries.{IsGeometryOn};
ghost use Rattle.ufs_model.specs.Pointers.{through};
ghost use Rattle.ufs_pointer.specs.Addresses.{IsWhole};
ghost use Rattle.ufs_pointer.specs.ViewWords.{FetchesFor, LosesNeeded};

use crate::addresses::block_address;
use crate::areas::read_area;
use crate::pointers::pointer;
use dg_io::View;
use ufs_model::{Address, Geometry};

/// What pointer number `i` of the indirect block at an address leads to. There is no answer where a
/// fragment of the indirect block is gone.
#[tactic(auto, unfolding(ufs_model::specs::Pointers::through, ufs_model::specs::Blocks::bind))]
pub fn through<V: View>(
    view: &mut V,
    g: &Geometry,
    i: u32,
    address: Address,
    buf: &mut [u8],
) -> Option<Address>
    requires sound { V.is_sound view.old }
    requires geometry { IsGeometryOn (V.size view.old) (V.count view.old) g.now }
    requires index { i < g.now.nindir }
    requires whole { IsWhole g.now address }
    requires room { length buf.old ≡ g.now.bsize }
    ensures keeps { Keeps V.View view.old view.new }
    ensures whole { IfSome result (IsWhole g.now) }
    ensures rule { Reads V.View view.old view.new (through g.now i address) result }
    ensures fetched { FetchesFor V.View view.old view.new (through g.now i address) result }
    ensures lost { IfNone result (LosesNeeded V.View view.old view.new (through g.now i address)) }
{
    match address {
        Address::Hole => Some(Address::Hole),
        Address::Wild => Some(Address::Wild),
        Address::At(a, k) => {
            if !read_area(view, a, k, buf) {
                return None;
            }
            Some(block_address(g, pointer(buf, i, g.endian)))
        }
    }
}
