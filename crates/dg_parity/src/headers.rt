// The header of a disk.
ghost use Rattle.std.specs.Prelude.{◌≡◌, ◌↔◌, ◌+◌, ◌≤◌, ◌++◌, ℕ, List, length, drop, IsTrue};
ghost use Rattle.byteorder.specs.Endian.{little_from};
ghost use Rattle.dg_model.specs.Blocks.{padded};
ghost use Rattle.dg_parity.specs.Headers.{header_bytes, IsCounted, IsReading};

use crate::stripes::disk_length;
use byteorder::{ByteOrder, LittleEndian};

/// Bytes of a header, and of a chunk.
pub const CHUNK: usize = 512;

/// What stands at the front of a disk.
#[derive(Clone, Copy, Debug, PartialEq, Eq)]
pub struct Header {
    /// Which of the headers of its group it is, counted from 1.
    pub epoch: u64,
    pub group: u8,
    /// Which disk of the group it is.
    pub place: u8,
    /// How many disks the group has.
    pub disks: u8,
    /// Bit j is set where disk j is out.
    pub marks: u8,
    /// The bytes of the member.
    pub size: u64,
}

/// Writes the bytes at a place, and gives the place behind them.
fn put(page: &mut [u8; CHUNK], at: usize, bytes: &[u8]) -> usize
    requires { at + length bytes.now ≤ CHUNK }
    ensures end { result ≡ at + length bytes.now }
    ensures bytes { (done : List ℕ) → length done ≡ at → page.old ≡ padded 512 done → page.new ≡ padded 512 (done ++ bytes.now) }
{
    let end = at + bytes.len();
    page[at..end].copy_from_slice(bytes);
    end
}

/// Fills a page with the bytes of a header.
pub fn fill_header(header: &Header, page: &mut [u8; CHUNK])
    ensures { page.new ≡ header_bytes header.now }
{
    *page = [0; CHUNK];
    let at = put(page, 0, b"DGRAID-P");
    let at = put(page, at, &header.epoch.to_le_bytes());
    let numbers = [
        header.group,
        header.place,
        header.disks,
        header.marks,
        0,
        0,
        0,
        0,
    ];
    let at = put(page, at, &numbers);
    put(page, at, &header.size.to_le_bytes());
}

/// The number in eight bytes at a place.
fn number_at(page: &[u8; CHUNK], at: usize) -> u64
    requires { at + 8 ≤ CHUNK }
    ensures { result ≡ little_from 0 8 (drop at page.now) }
{
    LittleEndian::read_u64(&page[at..])
}

/// The header whose bytes these are, or `None` where they are no header's.
pub fn read_header(page: &[u8; CHUNK]) -> Option<Header>
    ensures { IsReading page.now result }
{
    let header = Header {
        epoch: number_at(page, 8),
        group: page[16],
        place: page[17],
        disks: page[18],
        marks: page[19],
        size: number_at(page, 24),
    };
    let mut own = [0; CHUNK];
    fill_header(&header, &mut own);
    if *page == own {
        return Some(header);
    }
    None
}

/// Whether a header counts on disk j of group s, which has so many bytes.
pub fn is_counted(header: &Header, s: u8, j: u8, long: u64) -> bool
    ensures { IsTrue result ↔ IsCounted s j long header.now }
{
    if header.group != s || header.place != j {
        return false;
    }
    if header.disks < 3 || header.disks > 8 {
        return false;
    }
    if header.epoch == 0 || header.epoch >= 1 << 63 {
        return false;
    }
    long == disk_length(header.disks, header.size)
}
