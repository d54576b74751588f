// What two members are reopened as, read plainly from their bytes. Each has 1,500 bytes and room for 40 extra bytes: two headers, two tables of
// one page each, and three pages with two places each.
ghost use Rattle.std.specs.Prelude.{◌<◌, ◌≤◌};

use byteorder::{ByteOrder, LittleEndian};

/// Bytes of a member, and of it behind.
pub const SIZE: usize = 1500;

pub const BEHIND: usize = 5120;

/// Room for extra bytes.
pub const ROOM: u32 = 40;

/// What is to be reopened: the commit, and the bytes that both members had in it, where they are in it. Without a commit the sequence is 0.
#[derive(Clone, Copy)]
pub struct Expected {
    pub sequence: u64,
    pub first: Option<[u8; SIZE]>,
    pub second: Option<[u8; SIZE]>,
    pub extra: [u8; 4],
}

// A header that counts.
#[derive(Clone, Copy, Debug, PartialEq, Eq)]
struct Found {
    sequence: u64,
    committed: bool,
    extra: u32,
}

// The mark of a header: whether it is committed.
fn mark(byte: u8) -> Option<bool> {
    match byte {
        0x43 => Some(true),
        0x50 => Some(false),
        _ => None,
    }
}

// Whether a page is that of a header of this member, but for its sequence and its mark.
fn is_of(page: &[u8; 512], member: u8) -> bool {
    page.starts_with(b"DGRAID-S")
        && page[17] == member
        && page[18..24].iter().all(|byte| *byte == 0)
        && LittleEndian::read_u64(&page[24..]) == SIZE as u64
        && LittleEndian::read_u32(&page[32..]) == ROOM
        && page[40..].iter().all(|byte| *byte == 0)
}

// The header in one of the two places. A member that begins as the label of a plain array has none.
fn header(all: &[u8; BEHIND], place: u64, member: u8) -> Option<Found>
    requires { place < 2 }
{
    if all.starts_with(b"DGRAID-1") || all.starts_with(b"DGRAID-2") {
        return None;
    }
    let at = place as usize * 512;
    let mut page = [0; 512];
    page.copy_from_slice(&all[at..at + 512]);
    if !is_of(&page, member) {
        return None;
    }
    let found = Found {
        sequence: LittleEndian::read_u64(&page[8..]),
        committed: mark(page[16])?,
        extra: LittleEndian::read_u32(&page[36..]),
    };
    let counts = 0 < found.sequence && found.sequence < 1 << 62 && found.sequence % 2 == place;
    if counts && found.extra <= ROOM {
        Some(found)
    } else {
        None
    }
}

// The sequence of a committed header, else 0.
fn committed(found: Option<Found>) -> u64 {
    match found {
        Some(found) if found.committed => found.sequence,
        _ => 0,
    }
}

// The greatest sequence in a committed header of a member.
fn last(all: &[u8; BEHIND], member: u8) -> u64 {
    committed(header(all, 0, member)).max(committed(header(all, 1, member)))
}

// Whether a member has a header of this commit.
fn is_attached(all: &[u8; BEHIND], member: u8, commit: u64) -> bool {
    match header(all, commit % 2, member) {
        Some(found) => found.sequence == commit && found.extra == 4,
        None => false,
    }
}

// Where the table of a commit begins.
fn table(commit: u64) -> usize
    ensures { result ≤ 1536 }
{
    if commit % 2 == 0 { 1024 } else { 1536 }
}

// A byte of a member in a commit.
fn byte(all: &[u8; BEHIND], commit: u64, at: usize) -> u8
    requires { at < SIZE }
{
    let page = at / 512;
    let second = all[table(commit)] >> page as u32 & 1 == 1;
    let place = 2048 + 1024 * page + if second { 512 } else { 0 };
    all[place + at % 512]
}

// Whether a member is in a commit with just these bytes, or isn't in it.
fn has(all: &[u8; BEHIND], member: u8, commit: u64, want: &Option<[u8; SIZE]>) -> bool {
    let Some(bytes) = want else {
        return !is_attached(all, member, commit);
    };
    for at in 0..SIZE {
        if byte(all, commit, at) != bytes[at] {
            return false;
        }
    }
    is_attached(all, member, commit)
}

// Whether the extra bytes of a commit are these.
fn has_extra(all: &[u8; BEHIND], commit: u64, want: &[u8; 4]) -> bool {
    let at = table(commit) + 1;
    all[at..at + 4] == want[..]
}

/// Whether two members with these bytes are reopened as this checkpoint.
pub fn is_reopened(first: &[u8; BEHIND], second: &[u8; BEHIND], want: &Expected) -> bool {
    let commit = last(first, 0).max(last(second, 1));
    if commit != want.sequence {
        return false;
    }
    if commit == 0 {
        return true;
    }
    let extra = match want.first {
        Some(_) => has_extra(first, commit, &want.extra),
        None => has_extra(second, commit, &want.extra),
    };
    extra && has(first, 0, commit, &want.first) && has(second, 1, commit, &want.second)
}
