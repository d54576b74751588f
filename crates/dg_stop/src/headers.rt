// The header of a double member.
ghost use Rattle.std.specs.Prelude.{◌≡◌, ◌+◌, ◌*◌, ◌%◌, ◌≤◌, ◌<◌, ◌++◌, ◌∷◌, [], ℕ, List, length, true, OnOk, OnErr, IfSome};
ghost use Rattle.dg_model.specs.Blocks.{padded};
ghost use Rattle.dg_io.specs.RackCalls.{RackCall};
ghost use Rattle.dg_io.specs.RackWords.{Leaves};
ghost use Rattle.dg_io.specs.Told.{Told, Torn};
ghost use Rattle.dg_stop.specs.Commits.{PutsHeader, WritesHeader};
ghost use Rattle.dg_stop.specs.Headers.{header_bytes, mark_byte};
ghost use Rattle.dg_stop.specs.Layouts.{header_place};
ghost use Rattle.dg_stop.specs.Values.{header_of};

use dg_io::{Failed, Rack};

/// Bytes of a header, of a page, and of one of the two places of a page.
pub const PAGE: usize = 512;

/// What stands at the head of a double member, in one of two places.
#[derive(Clone, Copy, Debug, PartialEq, Eq)]
pub struct Header {
    /// The number of the commit, counted from 1.
    pub sequence: u64,
    /// Whether the commit is done; else it is prepared.
    pub committed: bool,
    pub member: u8,
    /// The bytes of the member.
    pub size: u64,
    /// Room for extra bytes, and how many there are.
    pub room: u32,
    pub extra: u32,
}

/// The mark of a committed header.
pub const COMMITTED: u8 = 0x43;

const PREPARED: u8 = 0x50;

/// The byte that tells whether a header is committed.
fn mark_of(committed: bool) -> u8
    ensures { result ≡ mark_byte committed }
{
    if committed { COMMITTED } else { PREPARED }
}

/// Writes the bytes at a place, and gives the place behind them.
fn put(buf: &mut [u8; PAGE], at: usize, bytes: &[u8]) -> usize
    requires { at + length bytes.now ≤ PAGE }
    ensures end { result ≡ at + length bytes.now }
    ensures bytes { (done : List ℕ) → length done ≡ at → buf.old ≡ padded 512 done → buf.new ≡ padded 512 (done ++ bytes.now) }
{
    let end = at + bytes.len();
    buf[at..end].copy_from_slice(bytes);
    end
}

/// Fills a page with the bytes of a header.
pub fn fill_header(header: &Header, buf: &mut [u8; PAGE])
    ensures { buf.new ≡ header_bytes (header_of header.now) }
{
    *buf = [0; PAGE];
    let at = put(buf, 0, b"DGRAID-S");
    let at = put(buf, at, &header.sequence.to_le_bytes());
    let at = put(
        buf,
        at,
        &[mark_of(header.committed), header.member, 0, 0, 0, 0, 0, 0],
    );
    let at = put(buf, at, &header.size.to_le_bytes());
    let at = put(buf, at, &header.room.to_le_bytes());
    put(buf, at, &header.extra.to_le_bytes());
}

/// Writes a header in its place on its member, by one call.
pub fn write_header<R: Rack>(rack: &mut R, header: &Header) -> Result<(), Failed>
    requires stands { R.stands rack.old header.now.member ≡ true }
    requires long { IfSome (R.bytes rack.old header.now.member) (λ all. 1024 ≤ length all) }
    ensures leaves { Leaves R.Rack header.now.member result rack.old rack.new }
    ensures made { R.made rack.old (RackCall.calls header.now.member ∷ []) rack.new }
    ensures torn { Told (Torn (header_place header.now.sequence) 512) (R.bytes rack.old header.now.member) (R.bytes rack.new header.now.member) }
    ensures done { OnOk result (Told (PutsHeader (header_of header.now)) (R.bytes rack.old header.now.member) (R.bytes rack.new header.now.member)) }
    ensures stopped { OnErr result (R.steady rack.old
        → Told (WritesHeader (header_of header.now)) (R.bytes rack.old header.now.member) (R.bytes rack.new header.now.member)) }
{
    let mut buf = [0; PAGE];
    fill_header(header, &mut buf);
    rack.write(header.member, PAGE as u64 * (header.sequence % 2), &buf)
}
