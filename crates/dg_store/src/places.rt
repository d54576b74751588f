// A list of sites on a row of boundaries. These functions work on the parts of a store.
ghost use Rattle.std.specs.Prelude.{◌≡◌, ◌↔◌, ◌+◌, ◌*◌, ◌≤◌, ◌<◌, ℕ, List, length, true};
ghost use Rattle.dg_model.specs.Causes.{NoneRose, Rose};
ghost use Rattle.dg_model.specs.Sites.{all_lost};
ghost use Rattle.dg_store.specs.Rows.{IsRow, RowStands, members_in};
ghost use Rattle.dg_store.specs.Slots.{AreSlots, KeepsSlots, KeepsSlotsBut, LostAreOut, RowKeeps, SitesHold, SitesTell};

use crate::boundaries::{is_lost_at, read_slot, write_slot};
use crate::{Shape, Site};
use dg_io::{Fetched, Rack};
use dg_pair::{Boundary, PairRead};

/// Whether each of the sites is on a lost boundary.
pub fn all_lost_at(row: &Vec<Boundary>, shape: &Shape, sites: &[Site]) -> bool
    requires stands { RowStands shape.now.l (shape.now.k + 1) row.now.items }
    requires within { AreSlots (length row.now.items) (shape.now.k + 1) sites.now }
    ensures { result ≡ all_lost (members_in row.now.items) sites.now }
{
    for site in sites {
        if !is_lost_at(row, shape, site.boundary) {
            return false;
        }
    }
    true
}

/// Reads from the first of the sites whose boundary isn't lost.
pub fn read_sites<R: Rack>(
    row: &mut Vec<Boundary>,
    rack: &mut R,
    shape: &Shape,
    sites: &[Site],
    buf: &mut [u8],
) -> Fetched
    requires row { IsRow R.Rack shape.now row.old.items rack.old }
    requires within { AreSlots (length row.old.items) (shape.now.k + 1) sites.now }
    requires size { length buf.old ≡ shape.now.l }
    ensures keeps { RowKeeps R.Rack shape.now row.old.items rack.old row.new.items rack.new }
    ensures gone { (result ≡ Fetched.Gone) ↔ (all_lost (members_in row.new.items) sites.now ≡ true) }
    ensures got { result ≡ Fetched.Got
        → (v : List ℕ) → SitesHold shape.now.l (members_in row.old.items) (R.bytes rack.old) v sites.now
        → SitesTell (members_in row.new.items) (R.bytes rack.new) sites.now → buf.new ≡ v }
    ensures kept { KeepsSlots shape.now.l (members_in row.old.items) (R.bytes rack.old) (members_in row.new.items) (R.bytes rack.new) }
    ensures called { result ≡ Fetched.Got → Rose (R.counts rack.old).calls (R.counts rack.new).calls }
    ensures most { (R.counts rack.new).calls ≤ (R.counts rack.old).calls + 2 * length sites.now }
    ensures once { NoneRose (R.counts rack.old).faults (R.counts rack.new).faults → (R.counts rack.new).calls ≤ (R.counts rack.old).calls + 1 }
    ensures writes { (R.counts rack.new).writes ≡ (R.counts rack.old).writes }
{
    for site in sites {
        if let PairRead::Got = read_slot(row, rack, shape, *site, buf) {
            return Fetched::Got;
        }
    }
    Fetched::Gone
}

/// Reads a block into a vector of its length.
pub fn read_block<R: Rack>(
    row: &mut Vec<Boundary>,
    rack: &mut R,
    shape: &Shape,
    sites: &[Site],
    block: &mut Vec<u8>,
) -> Fetched
    requires row { IsRow R.Rack shape.now row.old.items rack.old }
    requires within { AreSlots (length row.old.items) (shape.now.k + 1) sites.now }
    requires size { length block.old.items ≡ shape.now.l }
    ensures size { length block.new.items ≡ shape.now.l }
    ensures keeps { RowKeeps R.Rack shape.now row.old.items rack.old row.new.items rack.new }
    ensures gone { (result ≡ Fetched.Gone) ↔ (all_lost (members_in row.new.items) sites.now ≡ true) }
    ensures got { result ≡ Fetched.Got
        → (v : List ℕ) → SitesHold shape.now.l (members_in row.old.items) (R.bytes rack.old) v sites.now
        → SitesTell (members_in row.new.items) (R.bytes rack.new) sites.now → block.new.items ≡ v }
    ensures kept { KeepsSlots shape.now.l (members_in row.old.items) (R.bytes rack.old) (members_in row.new.items) (R.bytes rack.new) }
    ensures most { (R.counts rack.new).calls ≤ (R.counts rack.old).calls + 2 * length sites.now }
{
    read_sites(row, rack, shape, sites, block)
}

/// Writes the same bytes to each of the sites.
pub fn write_sites<R: Rack>(
    row: &mut Vec<Boundary>,
    rack: &mut R,
    shape: &Shape,
    sites: &[Site],
    buf: &[u8],
)
    requires row { IsRow R.Rack shape.now row.old.items rack.old }
    requires within { AreSlots (length row.old.items) (shape.now.k + 1) sites.now }
    requires size { length buf.now ≡ shape.now.l }
    ensures keeps { RowKeeps R.Rack shape.now row.old.items rack.old row.new.items rack.new }
    ensures put { SitesHold shape.now.l (members_in row.new.items) (R.bytes rack.new) buf.now sites.now }
    ensures out { LostAreOut (members_in row.new.items) sites.now }
    ensures kept { KeepsSlotsBut shape.now.l sites.now (members_in row.old.items) (R.bytes rack.old) (members_in row.new.items) (R.bytes rack.new) }
    ensures most { (R.counts rack.new).calls ≤ (R.counts rack.old).calls + 2 * length sites.now }
{
    for site in sites {
        write_slot(row, rack, shape, *site, buf);
    }
}
