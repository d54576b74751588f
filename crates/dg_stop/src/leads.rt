// Which header leads an opening, and which members have one of its commit.
ghost use Rattle.std.specs.Prelude.{◌≡◌, IfSome, None, Some};
ghost use Rattle.dg_stop.specs.FoundHeaders.{found_at};
ghost use Rattle.dg_stop.specs.Leads.{IsAlike, IsAttachedBy, IsLater, IsLead, IsRaised, IsTopOf};

use crate::found_headers::Found;
use crate::headers::Header;
use crate::phases::MEMBERS;

/// What was found on a member.
pub fn headers_at(found: &[Found; MEMBERS], member: u8) -> Found
    ensures { result ≡ found_at found.now member }
{
    match found.get(member as usize) {
        Some(headers) => *headers,
        None => Found::nothing(),
    }
}

/// The better one of a header and one more: a committed one of a greater sequence.
fn later(best: Option<Header>, header: Option<Header>) -> Option<Header>
    ensures { IsLater best header result }
{
    let Some(header) = header else {
        return best;
    };
    if !header.committed {
        return best;
    }
    match best {
        Some(it) => {
            if header.sequence > it.sequence {
                Some(header)
            } else {
                Some(it)
            }
        }
        None => Some(header),
    }
}

/// The header that leads: the committed one of the greatest sequence, of the least member that has it.
pub fn lead_of(found: &[Found; MEMBERS]) -> Option<Header>
    ensures { IsLead found.now result }
{
    let mut best = None;
    for member in 0..MEMBERS as u8 {
        let headers = headers_at(found, member);
        let first = later(best, headers.first);
        best = later(first, headers.second);
    }
    best
}

/// The greater of a number and the sequence of a header.
fn raised(top: u64, header: Option<Header>) -> u64
    ensures { IsRaised top header result }
{
    match header {
        Some(header) => top.max(header.sequence),
        None => top,
    }
}

/// The greatest sequence of a header, or 0 where there is none.
pub fn top_of(found: &[Found; MEMBERS]) -> u64
    ensures { IsTopOf found.now result }
{
    let mut top = 0;
    for member in 0..MEMBERS as u8 {
        let headers = headers_at(found, member);
        let first = raised(top, headers.first);
        top = raised(first, headers.second);
    }
    top
}

/// The header, if it is of the lead's commit.
fn if_alike(header: Option<Header>, lead: &Header) -> Option<Header>
    ensures some { IfSome result (λ h. (header ≡ Some h) × IsAlike lead.now h) }
    ensures none { result ≡ None → IfSome header (λ h. IsAlike lead.now h → ⊥) }
{
    let Some(header) = header else {
        return None;
    };
    if header.sequence == lead.sequence && header.room == lead.room && header.extra == lead.extra {
        return Some(header);
    }
    None
}

/// The header by which a member is attached.
pub fn attached_by(found: &Found, lead: &Header) -> Option<Header>
    ensures { IsAttachedBy lead.now found.now result }
{
    match if_alike(found.first, lead) {
        Some(header) => Some(header),
        None => if_alike(found.second, lead),
    }
}
