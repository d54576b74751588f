// The steps of a commit on one member.
ghost use Rattle.std.specs.Prelude.{◌≡◌, ◌+◌, ◌*◌, ◌^◌, ◌<◌, ℕ, length, true, false, IfSome, OnErr, OnOk};
ghost use Rattle.dg_io.specs.Makes.{Makes};
ghost use Rattle.dg_io.specs.Told.{Told};
ghost use Rattle.dg_stop.specs.Behind.{MostCalls};
ghost use Rattle.dg_stop.specs.Headers.{IsHeader, header_table};
ghost use Rattle.dg_stop.specs.Layouts.{SamePages, bit_in, bits_of, double_size, seen, table_place, table_size};
ghost use Rattle.dg_stop.specs.Commits.{AreBelow, IsNamed, IsNamedOrNone, IsOpenTo, IsPlaced, Prepares};
ghost use Rattle.dg_stop.specs.Serving.{IsOn, Serves};
ghost use Rattle.dg_stop.specs.Values.{header_of};

use crate::headers::{Header, PAGE, write_header};
use crate::places::bits_len;
use dg_io::{Failed, Rack};

/// Bytes of a table.
pub fn table_len(size: u64, room: u32) -> u64
    requires { size < 2 ^ 48 }
    ensures { result ≡ table_size size room }
{
    let page = PAGE as u64;
    (bits_len(size) + u64::from(room) + page - 1) / page * page
}

/// Where the table of a sequence stands.
pub fn place_of_table(sequence: u64, table: u64) -> u64
    requires { table < 2 ^ 60 }
    ensures { result ≡ table_place table sequence }
{
    2 * PAGE as u64 + sequence % 2 * table
}

/// Prepares a commit on a member: the bits of its table, the extra bytes behind them, and the header.
pub fn prepare<R: Rack>(
    rack: &mut R,
    header: &Header,
    bits: &[u8],
    extra: &[u8],
) -> Result<(), Failed>
    requires stands { R.stands rack.old header.now.member ≡ true }
    requires is { IsHeader (header_of header.now) }
    requires plain { header.now.committed ≡ false }
    requires small { header.now.size < 2 ^ 48 }
    requires bits { length bits.now ≡ bits_of header.now.size }
    requires extra { length extra.now ≡ header.now.extra }
    requires long { IfSome (R.bytes rack.old header.now.member) (λ all. length all ≡ double_size header.now.size header.now.room) }
    ensures calls { MostCalls R.Rack 3 rack.old rack.new }
    ensures made { Makes R.Rack (IsOn header.now.member) rack.old rack.new }
    ensures serves { Serves R.Rack header.now.member result rack.old rack.new }
    ensures pages { Told (SamePages (header_table (header_of header.now))) (R.bytes rack.old header.now.member) (R.bytes rack.new header.now.member) }
    ensures prepares { R.steady rack.old → (p : ℕ) → Told (λ before after. IsOpenTo p header.now.member (header_of header.now) before
        → Prepares p header.now.sequence header.now.member before after) (R.bytes rack.old header.now.member) (R.bytes rack.new header.now.member) }
    ensures done { OnOk result (Told (λ before after. AreBelow header.now.sequence header.now.member before
        → IsNamed header.now.member (header_of header.now) extra.now
        (seen (header_table (header_of header.now)) (bit_in bits.now) header.now.size before) after)
        (R.bytes rack.old header.now.member) (R.bytes rack.new header.now.member)) }
    ensures placed { OnOk result (Told (λ before after. IsPlaced (header_of header.now) (bit_in bits.now) after)
        (R.bytes rack.old header.now.member) (R.bytes rack.new header.now.member)) }
    ensures long { OnOk result (IfSome (R.bytes rack.new header.now.member) (λ all. length all ≡ double_size header.now.size header.now.room)) }
    ensures stopped { OnErr result (R.steady rack.old → Told (λ before after. AreBelow header.now.sequence header.now.member before
        → IsNamedOrNone header.now.member (header_of header.now) extra.now
        (seen (header_table (header_of header.now)) (bit_in bits.now) header.now.size before) after)
        (R.bytes rack.old header.now.member) (R.bytes rack.new header.now.member)) }
{
    let table = table_len(header.size, header.room);
    let place = place_of_table(header.sequence, table);
    rack.write(header.member, place, bits)?;
    rack.write(header.member, place + bits_len(header.size), extra)?;
    write_header(rack, header)
}
