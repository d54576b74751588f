// What an opening reads of the members.
ghost use Rattle.std.specs.Prelude.{◌≡◌, ◌<◌, ℕ, false, true, slice_set, IfErr, IfOk, IsFalse, IsTrue, Some};
ghost use Rattle.dg_stop.specs.FoundHeaders.{AreFound, no_headers};
ghost use Rattle.dg_stop.specs.Leads.{IsLead, IsTopOf};
ghost use Rattle.dg_stop.specs.Readings.{AreSound, AreTables, FoundSome, HasRead, HasTables, LosesFound, ReadsOn};
ghost use Rattle.dg_stop.specs.Tables.{FindsOn};

use crate::found_headers::{Found, find_all};
use crate::headers::Header;
use crate::leads::{lead_of, top_of};
use crate::phases::MEMBERS;
use crate::places::Places;
use crate::tables::{Heads, heads_of, longest_of, read_all, read_first};
use dg_io::{NoMemory, Rack};
use std::alloc::Global;

/// For a member of so many bytes there is never memory.
const TOO_LONG: u64 = 1 << 48;

/// The members that are attached by the commit that leads.
#[derive(Drop)]
pub struct Attached {
    /// The header that leads, and those by which members are attached.
    pub lead: Header,
    pub heads: Heads,
    /// The bytes of the longest attached member.
    pub most: u64,
    /// By member: where its pages stand.
    pub places: Vec<Places>,
    pub extra: Vec<u8>,
}

/// What an opening reads of a rack.
#[derive(Drop)]
pub struct Reading {
    /// The headers of the members that are known: no call on them failed, and they don't begin as a label.
    pub found: [Found; MEMBERS],
    pub known: [bool; MEMBERS],
    /// The members on which a call failed.
    pub failed: [bool; MEMBERS],
    /// The greatest sequence that was seen.
    pub top: u64,
    /// `None` where no header is committed.
    pub attached: Option<Attached>,
}

/// Whether no header was found.
pub fn is_bare(found: &[Found; MEMBERS]) -> bool
    ensures none { IsTrue result → IsTopOf found.now 0 }
    ensures some { IsFalse result → FoundSome found.now }
{
    top_of(found) == 0
}

/// Reads the tables of the commit that leads. Where a call fails, the member on which it did is answered.
fn read_by<R: Rack>(
    alloc: Global,
    rack: &mut R,
    found: &[Found; MEMBERS],
    lead: Header,
) -> Result<Result<Attached, u8>, NoMemory>
    requires leads { IsLead found.now (Some lead) }
    requires sound { AreSound R.Rack found.now rack.old }
    ensures finds { IfOk result (λ read. IfOk read (λ t. FindsOn R.Rack rack.old rack.new)) }
    ensures tables { IfOk result (λ read. IfOk read (AreTables R.Rack found.now rack.new)) }
    ensures lost { IfOk result (λ read. IfErr read (LosesFound R.Rack found.now rack.old rack.new)) }
{
    let heads = heads_of(found, &lead);
    let most = longest_of(&heads);
    if most >= TOO_LONG {
        return Err(NoMemory);
    }
    let mut places = Vec::new(alloc);
    if let Some(lost) = read_all(alloc, rack, &heads, most, &mut places)? {
        return Ok(Err(lost));
    }
    match read_first(alloc, rack, &heads)? {
        Ok(extra) => Ok(Ok(Attached {
            lead,
            heads,
            most,
            places,
            extra,
        })),
        Err(lost) => Ok(Err(lost)),
    }
}

/// Counts a member as one on which a call failed: without a header, and unknown.
fn forget(
    found: &mut [Found; MEMBERS],
    known: &mut [bool; MEMBERS],
    failed: &mut [bool; MEMBERS],
    member: u8,
)
    requires { member < 32 }
    ensures found { found.new ≡ slice_set found.old member no_headers }
    ensures known { known.new ≡ slice_set known.old member false }
    ensures failed { failed.new ≡ slice_set failed.old member true }
{
    found[member as usize] = Found::nothing();
    known[member as usize] = false;
    failed[member as usize] = true;
}

/// Reads the tables of the commit that leads. A member on which a call fails counts as one without a header, and it begins again.
fn read_tables<R: Rack>(
    alloc: Global,
    rack: &mut R,
    found: &mut [Found; MEMBERS],
    known: &mut [bool; MEMBERS],
    failed: &mut [bool; MEMBERS],
) -> Result<Option<Attached>, NoMemory>
    requires { (first : R) × AreFound R.Rack 32 found.old known.old failed.old first rack.old }
    ensures on { IfOk result (λ read. ReadsOn R.Rack found.old known.old failed.old rack.old found.new known.new failed.new rack.new) }
    ensures tables { IfOk result (HasTables R.Rack found.new rack.new) }
{
    while let Some(lead) = lead_of(found) {
        match read_by(alloc, rack, found, lead)? {
            Ok(attached) => return Ok(Some(attached)),
            Err(lost) => forget(found, known, failed, lost),
        }
    }
    Ok(None)
}

/// Reads the headers of all members, and the tables of the commit that leads.
pub fn read_rack<R: Rack>(alloc: Global, rack: &mut R) -> Result<Reading, NoMemory>
    ensures { IfOk result (λ reading. HasRead R.Rack reading rack.old rack.new) }
{
    let mut found = [Found::nothing(); MEMBERS];
    let mut known = [true; MEMBERS];
    let mut failed = [false; MEMBERS];
    find_all(rack, &mut found, &mut known, &mut failed);
    let top = top_of(&found);
    let attached = read_tables(alloc, rack, &mut found, &mut known, &mut failed)?;
    Ok(Reading {
        found,
        known,
        failed,
        top,
        attached,
    })
}
