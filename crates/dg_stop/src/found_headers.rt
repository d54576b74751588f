// The headers that stand on a member.
ghost use Rattle.std.specs.Prelude.{◌≡◌, ◌≢◌, ◌+◌, ◌*◌, ◌/◌, ◌≤◌, ◌<◌, ◌↔◌, ℕ, false, true, length, drop, slice_range, IfOk, IfSome, IsTrue, MatchOption};
ghost use Rattle.byteorder.specs.Endian.{little_from};
ghost use Rattle.dg_stop.specs.FoundHeaders.{AreFound, IsCounted, IsPageOf, IsReading, IsSeenOn, LooksAt, found_at, no_headers};
ghost use Rattle.dg_stop.specs.Headers.{IsLabeled};
ghost use Rattle.dg_stop.specs.Layouts.{double_size, pages_of};
ghost use Rattle.dg_stop.specs.Phases.{flag_in};
ghost use Rattle.dg_stop.specs.Values.{header_of};

use crate::headers::{COMMITTED, Header, PAGE, fill_header};
use crate::phases::MEMBERS;
use byteorder::{ByteOrder, LittleEndian};
use dg_io::{Failed, Rack};

/// Bytes of the two places of a header.
const PLACES: usize = 2 * PAGE;

/// The headers that count on a member, one in each of their two places at most.
#[derive(Clone, Copy)]
pub struct Found {
    pub first: Option<Header>,
    pub second: Option<Header>,
}

impl Found {
    /// No header.
    pub fn nothing() -> Found
        ensures { result ≡ no_headers }
    {
        Found {
            first: None,
            second: None,
        }
    }
}

/// The number in eight bytes at a place.
fn number_at(page: &[u8; PAGE], at: usize) -> u64
    requires { at + 8 ≤ PAGE }
    ensures { result ≡ little_from 0 8 (drop at page.now) }
{
    LittleEndian::read_u64(&page[at..])
}

/// The number in four bytes at a place.
fn word_at(page: &[u8; PAGE], at: usize) -> u32
    requires { at + 4 ≤ PAGE }
    ensures { result ≡ little_from 0 4 (drop at page.now) }
{
    LittleEndian::read_u32(&page[at..])
}

/// The header whose bytes these are, or `None` where they are no header's.
fn parse_header(page: &[u8; PAGE]) -> Option<Header>
    ensures { IsPageOf page.now result }
{
    let header = Header {
        sequence: number_at(page, 8),
        committed: page[16] == COMMITTED,
        member: page[17],
        size: number_at(page, 24),
        room: word_at(page, 32),
        extra: word_at(page, 36),
    };
    let mut own = [0; PAGE];
    fill_header(&header, &mut own);
    if *page == own {
        return Some(header);
    }
    None
}

/// The pages of a member of so many bytes.
fn pages_in(size: u64) -> u64
    ensures { result ≡ pages_of size }
{
    let page = PAGE as u64;
    size / page + if size % page == 0 { 0 } else { 1 }
}

/// Bytes of the table of a member of so many pages.
fn table_of(pages: u64, room: u32) -> u64
    requires { pages ≤ 36028797018963968 }
    ensures { result ≡ ((pages + 7) / 8 + room + 511) / 512 * 512 }
{
    let page = PAGE as u64;
    ((pages + 7) / 8 + u64::from(room) + page - 1) / page * page
}

/// Whether a double member whose bytes are so many is one of this size and room.
fn has_length(length: u64, size: u64, room: u32) -> bool
    ensures { IsTrue result ↔ (length ≡ double_size size room) }
{
    let pages = pages_in(size);
    if length < 1024 || (length - 1024) / 1024 < pages {
        return false;
    }
    length - 1024 - 1024 * pages == 2 * table_of(pages, room)
}

/// Whether a header counts in place 0 or 1 of a member whose bytes are so many.
fn is_counted(header: &Header, place: u64, member: u8, length: u64) -> bool
    ensures { IsTrue result ↔ IsCounted place member length (header_of header.now) }
{
    if header.member != member || header.sequence % 2 != place {
        return false;
    }
    if header.sequence == 0 || header.sequence >= 1 << 62 || header.extra > header.room {
        return false;
    }
    has_length(length, header.size, header.room)
}

/// The header that counts in place 0 or 1 of a member whose bytes are so many, where these stand in that place. `None` where there is none.
pub fn read_header(page: &[u8; PAGE], place: u64, member: u8, length: u64) -> Option<Header>
    ensures { IsReading place member length page.now result }
{
    match parse_header(page) {
        Some(header) => {
            if is_counted(&header, place, member, length) {
                Some(header)
            } else {
                None
            }
        }
        None => None,
    }
}

/// One of the two pages.
fn page_at(both: &[u8; PLACES], at: usize) -> [u8; PAGE]
    requires { at + 512 ≤ 1024 }
    ensures { result ≡ slice_range both.now at (at + 512) }
{
    let mut page = [0; PAGE];
    page.copy_from_slice(&both[at..at + PAGE]);
    page
}

/// The headers that count on a member whose bytes are so many.
fn headers_of(both: &[u8; PLACES], member: u8, length: u64) -> Found
    ensures first { IsReading 0 member length (slice_range both.now 0 512) result.first }
    ensures second { IsReading 1 member length (slice_range both.now 512 1024) result.second }
{
    let first = page_at(both, 0);
    let second = page_at(both, PAGE);
    Found {
        first: read_header(&first, 0, member, length),
        second: read_header(&second, 1, member, length),
    }
}

/// Whether a member begins as a label of a plain array. In such a one block data stands in the second place of a header.
fn is_labeled(both: &[u8; PLACES]) -> bool
    ensures { IsTrue result ↔ IsLabeled both.now }
{
    both.starts_with(b"DGRAID-1") || both.starts_with(b"DGRAID-2")
}

/// Reads the headers of a member whose bytes are so many, by one call. `None` where it begins as a label.
fn read_headers<R: Rack>(rack: &mut R, member: u8, size: u64) -> Result<Option<Found>, Failed>
    requires stands { R.stands rack.old member ≡ true }
    requires long { IfSome (R.bytes rack.old member) (λ all. length all ≡ size) }
    requires room { 1024 ≤ size }
    ensures looks { LooksAt R.Rack member result rack.old rack.new }
    ensures found { IfOk result (IsSeenOn R.Rack member rack.new) }
{
    let mut both = [0; PLACES];
    rack.read(member, 0, &mut both)?;
    if is_labeled(&both) {
        return Ok(None);
    }
    Ok(Some(headers_of(&both, member, size)))
}

/// The bytes of a member that has room for headers. `None` where there is no such member.
fn attach<R: Rack>(rack: &mut R, member: u8) -> Result<Option<u64>, Failed>
    ensures looks { LooksAt R.Rack member result rack.old rack.new }
    ensures found { IfOk result (λ found. MatchOption found (IfSome (R.bytes rack.new member) (λ all. length all < 1024))
        (λ n. (R.stands rack.new member ≡ true) × (1024 ≤ n) × IfSome (R.bytes rack.new member) (λ all. length all ≡ n))) }
{
    match rack.attach(member)? {
        Some(length) => {
            if length < PLACES as u64 {
                Ok(None)
            } else {
                Ok(Some(length))
            }
        }
        None => Ok(None),
    }
}

/// The headers that count on a member. `None` where it begins as a label.
fn find_at<R: Rack>(rack: &mut R, member: u8) -> Result<Option<Found>, Failed>
    ensures looks { LooksAt R.Rack member result rack.old rack.new }
    ensures found { IfOk result (IsSeenOn R.Rack member rack.new) }
{
    match attach(rack, member)? {
        Some(size) => read_headers(rack, member, size),
        None => Ok(Some(Found::nothing())),
    }
}

/// Finds the headers of all members. A member on which a call fails, or that begins as a label, isn't known any more.
pub fn find_all<R: Rack>(
    rack: &mut R,
    found: &mut [Found; MEMBERS],
    known: &mut [bool; MEMBERS],
    failed: &mut [bool; MEMBERS],
)
    requires none { (q : ℕ) → found_at found.old q ≡ no_headers }
    requires known { (q : ℕ) → q < 32 → flag_in known.old q ≡ true }
    requires failed { (q : ℕ) → flag_in failed.old q ≡ false }
    ensures { AreFound R.Rack 32 found.new known.new failed.new rack.old rack.new }
{
    for member in 0..MEMBERS {
        match find_at(rack, member as u8) {
            Ok(Some(headers)) => found[member] = headers,
            Ok(None) => known[member] = false,
            Err(_) => {
                known[member] = false;
                failed[member] = true;
            }
        }
    }
}
