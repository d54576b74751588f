// Reads and writes of any bytes of a double member, page by page.
ghost use Rattle.std.specs.Prelude.{◌≡◌, ◌≢◌, ◌+◌, ◌/◌, ◌%◌, ◌^◌, ◌≤◌, ◌<◌, ℕ, true, not, length, slice_get, IfSome, OnErr, OnOk};
ghost use Rattle.dg_io.specs.Makes.{Makes};
ghost use Rattle.dg_io.specs.Told.{Told, IsSame, Reads};
ghost use Rattle.dg_stop.specs.Behind.{MostCalls, calls_on_page, pages_on, parts_on};
ghost use Rattle.dg_stop.specs.Layouts.{bit_in, bits_of, double_size, seen, table_size};
ghost use Rattle.dg_stop.specs.Pages.{PutsPiece, ReadsPiece, TearsPiece, TornPages, moved};
ghost use Rattle.dg_stop.specs.Phases.{Sized, bits_in, size_in};
ghost use Rattle.dg_stop.specs.Serving.{IsOn, Serves};

use crate::commits::table_len;
use crate::headers::PAGE;
use crate::pages::{place_of_page, write_part};
use crate::places::{Places, bit, put_bit};
use dg_io::{Failed, Rack};

/// How many of so many bytes are on the page on which they begin.
fn on_page(at: u64, rest: usize) -> usize
    ensures page { at % 512 + result ≤ 512 }
    ensures rest { result ≤ rest }
    ensures some { 0 < rest → 0 < result }
    ensures full { result < rest → at % 512 + result ≡ 512 }
{
    rest.min(PAGE - (at % 512) as usize)
}

/// Reads a part of a page where it stands.
fn read_page<R: Rack>(
    rack: &mut R,
    number: u8,
    size: u64,
    bits: &[u8],
    room: u32,
    at: u64,
    buf: &mut [u8],
) -> Result<(), Failed>
    requires stands { R.stands rack.old number ≡ true }
    requires small { size < 2 ^ 48 }
    requires page { at % 512 + length buf.old ≤ 512 }
    requires some { 0 < length buf.old }
    requires range { at + length buf.old ≤ size }
    requires long { IfSome (R.bytes rack.old number) (λ all. length all ≡ double_size size room) }
    ensures calls { MostCalls R.Rack 1 rack.old rack.new }
    ensures made { Makes R.Rack (IsOn number) rack.old rack.new }
    ensures serves { Serves R.Rack number result rack.old rack.new }
    ensures same { Told IsSame (R.bytes rack.old number) (R.bytes rack.new number) }
    ensures length { length buf.new ≡ length buf.old }
    ensures done { OnOk result (Told (ReadsPiece (table_size size room) size (bit_in bits.now) at buf.new)
        (R.bytes rack.old number) (R.bytes rack.new number)) }
{
    let page = at / 512;
    let place = place_of_page(table_len(size, room), page, bit(bits, page));
    rack.read(number, place + at % 512, buf)
}

/// Reads bytes of a member.
pub fn read_pages<R: Rack>(
    rack: &mut R,
    number: u8,
    size: u64,
    bits: &[u8],
    room: u32,
    place: u64,
    buf: &mut [u8],
) -> Result<(), Failed>
    requires stands { R.stands rack.old number ≡ true }
    requires small { size < 2 ^ 48 }
    requires range { place + length buf.old ≤ size }
    requires long { IfSome (R.bytes rack.old number) (λ all. length all ≡ double_size size room) }
    ensures calls { MostCalls R.Rack (pages_on place (length buf.old)) rack.old rack.new }
    ensures made { Makes R.Rack (IsOn number) rack.old rack.new }
    ensures serves { Serves R.Rack number result rack.old rack.new }
    ensures same { Told IsSame (R.bytes rack.old number) (R.bytes rack.new number) }
    ensures done { OnOk result (Told (ReadsPiece (table_size size room) size (bit_in bits.now) place buf.new)
        (R.bytes rack.old number) (R.bytes rack.new number)) }
{
    let mut done = 0;
    while done < buf.len() {
        let at = place + done as u64;
        let n = on_page(at, buf.len() - done);
        match read_page(rack, number, size, bits, room, at, &mut buf[done..done + n]) {
            Ok(()) => done += n,
            Err(_) => return Err(Failed),
        }
    }
    Ok(())
}

/// Writes a part of a page in the place that the last commit doesn't use.
fn write_page<R: Rack>(
    rack: &mut R,
    number: u8,
    now: &mut Places,
    last: &[u8],
    room: u32,
    at: u64,
    piece: &[u8],
) -> Result<(), Failed>
    requires stands { R.stands rack.old number ≡ true }
    requires small { now.old.size < 2 ^ 48 }
    requires bits { length now.old.bits.items ≡ bits_of now.old.size }
    requires page { at % 512 + length piece.now ≤ 512 }
    requires some { 0 < length piece.now }
    requires range { at + length piece.now ≤ now.old.size }
    requires long { IfSome (R.bytes rack.old number) (λ all. length all ≡ double_size now.old.size room) }
    ensures calls { MostCalls R.Rack
        (calls_on_page (bit_in now.old.bits.items (at / 512)) (not (bit_in last.now (at / 512))) (length piece.now)) rack.old rack.new }
    ensures bits { OnOk result ((p : ℕ) → bit_in now.new.bits.items p ≡ moved (at / 512) (not (bit_in last.now (at / 512))) (bit_in now.old.bits.items) p) }
    ensures made { Makes R.Rack (IsOn number) rack.old rack.new }
    ensures serves { Serves R.Rack number result rack.old rack.new }
    ensures size { now.new.size ≡ now.old.size }
    ensures length { length now.new.bits.items ≡ length now.old.bits.items }
    ensures most { now.new.most ≡ now.old.most }
    ensures pages { Told (TornPages (table_size now.old.size room) now.old.size (bit_in last.now)) (R.bytes rack.old number) (R.bytes rack.new number) }
    ensures done { OnOk result (Told (PutsPiece (table_size now.old.size room) now.old.size
        (bit_in now.old.bits.items) (bit_in now.new.bits.items) at piece.now)
        (R.bytes rack.old number) (R.bytes rack.new number)) }
    ensures torn { OnErr result (Told (TearsPiece (table_size now.old.size room) now.old.size
        (bit_in now.old.bits.items) (bit_in now.new.bits.items) at (length piece.now))
        (R.bytes rack.old number) (R.bytes rack.new number)) }
{
    let page = at / 512;
    let stands = bit(&now.bits, page);
    let second = !bit(last, page);
    let table = table_len(now.size, room);
    write_part(
        rack,
        number,
        table,
        page,
        stands,
        second,
        (at % 512) as usize,
        piece,
    )?;
    put_bit(&mut now.bits, page, second);
    Ok(())
}

/// Writes bytes of a member.
pub fn write_pages<R: Rack>(
    rack: &mut R,
    number: u8,
    now: &mut Places,
    last: &[u8],
    room: u32,
    place: u64,
    piece: &[u8],
) -> Result<(), Failed>
    requires stands { R.stands rack.old number ≡ true }
    requires small { now.old.size < 2 ^ 48 }
    requires bits { length now.old.bits.items ≡ bits_of now.old.size }
    requires range { place + length piece.now ≤ now.old.size }
    requires long { IfSome (R.bytes rack.old number) (λ all. length all ≡ double_size now.old.size room) }
    ensures calls { MostCalls R.Rack (pages_on place (length piece.now)
        + parts_on (bit_in now.old.bits.items) (bit_in last.now) place (length piece.now)) rack.old rack.new }
    ensures made { Makes R.Rack (IsOn number) rack.old rack.new }
    ensures serves { Serves R.Rack number result rack.old rack.new }
    ensures size { now.new.size ≡ now.old.size }
    ensures length { length now.new.bits.items ≡ length now.old.bits.items }
    ensures most { now.new.most ≡ now.old.most }
    ensures pages { Told (TornPages (table_size now.old.size room) now.old.size (bit_in last.now)) (R.bytes rack.old number) (R.bytes rack.new number) }
    ensures done { OnOk result (Told (PutsPiece (table_size now.old.size room) now.old.size
        (bit_in now.old.bits.items) (bit_in now.new.bits.items) place piece.now)
        (R.bytes rack.old number) (R.bytes rack.new number)) }
    ensures torn { OnErr result (Told (TearsPiece (table_size now.old.size room) now.old.size
        (bit_in now.old.bits.items) (bit_in now.new.bits.items) place (length piece.now))
        (R.bytes rack.old number) (R.bytes rack.new number)) }
{
    let mut done = 0;
    while done < piece.len() {
        let at = place + done as u64;
        let n = on_page(at, piece.len() - done);
        match write_page(rack, number, now, last, room, at, &piece[done..done + n]) {
            Ok(()) => done += n,
            Err(_) => return Err(Failed),
        }
    }
    Ok(())
}
