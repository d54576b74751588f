// The pages of a double member.
ghost use Rattle.std.specs.Prelude.{◌≡◌, ◌+◌, ◌*◌, ◌^◌, ◌≤◌, ◌<◌, true, length, IfSome, OnOk};
ghost use Rattle.dg_io.specs.Makes.{Makes};
ghost use Rattle.dg_io.specs.Told.{Told, Torn, Patched, patch};
ghost use Rattle.dg_stop.specs.Behind.{MostCalls, calls_on_page};
ghost use Rattle.dg_stop.specs.Layouts.{page_place};
ghost use Rattle.dg_stop.specs.Pages.{PutsPart};
ghost use Rattle.dg_stop.specs.Serving.{IsOn, Serves};

use crate::headers::PAGE;
use dg_io::{Failed, Rack};

/// Where one of the two places of a page begins.
pub fn place_of_page(table: u64, page: u64, second: bool) -> u64
    requires table { table < 2 ^ 60 }
    requires page { page < 2 ^ 48 }
    ensures { result ≡ page_place table page second }
{
    let size = PAGE as u64;
    2 * size + 2 * table + 2 * size * page + if second { size } else { 0 }
}

/// Writes a part of one place of a page, by one call.
fn put_part<R: Rack>(
    rack: &mut R,
    number: u8,
    table: u64,
    page: u64,
    second: bool,
    k: u64,
    piece: &[u8],
) -> Result<(), Failed>
    requires stands { R.stands rack.old number ≡ true }
    requires table { table < 2 ^ 60 }
    requires page { page < 2 ^ 48 }
    requires fits { k + length piece.now ≤ 512 }
    requires long { IfSome (R.bytes rack.old number) (λ all. 1024 + 2 * table + 1024 * (page + 1) ≤ length all) }
    ensures calls { MostCalls R.Rack 1 rack.old rack.new }
    ensures made { Makes R.Rack (IsOn number) rack.old rack.new }
    ensures serves { Serves R.Rack number result rack.old rack.new }
    ensures torn { Told (Torn (page_place table page second) 512) (R.bytes rack.old number) (R.bytes rack.new number) }
    ensures part { Told (Torn (page_place table page second + k) (length piece.now)) (R.bytes rack.old number) (R.bytes rack.new number) }
    ensures done { OnOk result (Told (Patched (page_place table page second + k) piece.now) (R.bytes rack.old number) (R.bytes rack.new number)) }
{
    let place = place_of_page(table, page, second) + k;
    rack.write(number, place, piece)
}

/// Puts a piece into a page.
fn put_in(page: &mut [u8; PAGE], k: usize, piece: &[u8])
    requires { k + length piece.now ≤ 512 }
    ensures { page.new ≡ patch page.old k piece.now }
{
    page[k..k + piece.len()].copy_from_slice(piece);
}

/// Writes a part of a page in its place `second`, which the last commit doesn't use. Where the page stands in the other place it is read
/// first, unless all of it is written. So a call fails, or is stopped, at that place alone.
pub fn write_part<R: Rack>(
    rack: &mut R,
    number: u8,
    table: u64,
    page: u64,
    stands: bool,
    second: bool,
    k: usize,
    piece: &[u8],
) -> Result<(), Failed>
    requires stands { R.stands rack.old number ≡ true }
    requires table { table < 2 ^ 60 }
    requires page { page < 2 ^ 48 }
    requires fits { k + length piece.now ≤ 512 }
    requires long { IfSome (R.bytes rack.old number) (λ all. 1024 + 2 * table + 1024 * (page + 1) ≤ length all) }
    ensures calls { MostCalls R.Rack (calls_on_page stands second (length piece.now)) rack.old rack.new }
    ensures made { Makes R.Rack (IsOn number) rack.old rack.new }
    ensures serves { Serves R.Rack number result rack.old rack.new }
    ensures torn { Told (Torn (page_place table page second) 512) (R.bytes rack.old number) (R.bytes rack.new number) }
    ensures part { stands ≡ second → Told (Torn (page_place table page second + k) (length piece.now)) (R.bytes rack.old number) (R.bytes rack.new number) }
    ensures done { OnOk result (Told (PutsPart table page stands second k piece.now) (R.bytes rack.old number) (R.bytes rack.new number)) }
{
    if stands == second || piece.len() == PAGE {
        return put_part(rack, number, table, page, second, k as u64, piece);
    }
    let mut whole = [0; PAGE];
    rack.read(number, place_of_page(table, page, stands), &mut whole)?;
    put_in(&mut whole, k, piece);
    put_part(rack, number, table, page, second, 0, &whole)
}
