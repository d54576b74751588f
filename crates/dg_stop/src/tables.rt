// The tables that an opening reads: where the pages of each attached member stand, and the extra bytes.
ghost use Rattle.std.specs.Prelude.{◌≡◌, ◌≤◌, ◌<◌, ◌^◌, ◌++◌, ◌∷◌, [], length, IfErr, IfOk, MatchOption, IfSome, IsErr, IsSome, IsTrue, OnOk};
ghost use Rattle.dg_model.specs.Members.{partner_of};
ghost use Rattle.dg_stop.specs.FoundHeaders.{Bears, LooksAt};
ghost use Rattle.dg_stop.specs.Tables.{AreBorne, AreHeads, AreShort, AreSmall, HasExtra, HasNoHead, HasTable, HoldsTable, IsFirstHead, IsPaired, LosesHead, ReadsFirst, ReadsTables, head_at};

use crate::commits::{place_of_table, table_len};
use crate::found_headers::Found;
use crate::headers::Header;
use crate::leads::{attached_by, headers_at};
use crate::phases::MEMBERS;
use crate::places::{Places, bits_len};
use dg_io::{Failed, NoMemory, Rack};
use std::alloc::Global;

/// By member: the header by which it is attached, if it is.
pub type Heads = [Option<Header>; MEMBERS];

/// The headers by which the members are attached.
pub fn heads_of(found: &[Found; MEMBERS], lead: &Header) -> Heads
    ensures { AreHeads lead.now found.now 32 result }
{
    let mut heads = [None; MEMBERS];
    for member in 0..MEMBERS {
        heads[member] = attached_by(&headers_at(found, member as u8), lead);
    }
    heads
}

/// The header by which a member is attached.
pub fn head_of(heads: &Heads, member: u8) -> Option<Header>
    ensures { result ≡ head_at heads.now member }
{
    match heads.get(member as usize) {
        Some(head) => *head,
        None => None,
    }
}

/// The bytes of the longest of the attached members.
pub fn longest_of(heads: &Heads) -> u64
    ensures { AreShort heads.now result }
{
    let mut most = 0;
    for member in 0..MEMBERS as u8 {
        if let Some(head) = head_of(heads, member) {
            most = head.size.max(most);
        }
    }
    most
}

/// Reads where the pages of a member stand by its header.
fn read_places<R: Rack>(
    alloc: Global,
    rack: &mut R,
    header: &Header,
    most: u64,
) -> Result<Result<Places, Failed>, NoMemory>
    requires bears { Bears R.Rack header.now.member rack.old header.now }
    requires small { most < 2 ^ 48 }
    requires fits { header.now.size ≤ most }
    ensures looks { IfOk result (λ read. LooksAt R.Rack header.now.member read rack.old rack.new) }
    ensures has { IfOk result (λ read. IfOk read (HasTable R.Rack rack.new header.now header.now.member)) }
    ensures most { IfOk result (λ read. IfOk read (λ held. held.most ≡ most)) }
{
    let mut places = Places::new(alloc, most)?;
    if places.blank(header.size).is_err() {
        return Err(NoMemory);
    }
    let place = place_of_table(header.sequence, table_len(header.size, header.room));
    match rack.read(header.member, place, &mut places.bits) {
        Ok(()) => Ok(Ok(places)),
        Err(_) => Ok(Err(Failed)),
    }
}

/// Where the pages of a member stand, with memory for so many bytes. A member that isn't attached has none, and isn't called.
fn places_of<R: Rack>(
    alloc: Global,
    rack: &mut R,
    head: Option<Header>,
    member: u8,
    most: u64,
) -> Result<Result<Places, Failed>, NoMemory>
    requires bears { IfSome head (λ h. Bears R.Rack member rack.old h × (h.size ≤ most)) }
    requires small { most < 2 ^ 48 }
    ensures looks { IfOk result (λ read. LooksAt R.Rack member read rack.old rack.new) }
    ensures has { IfOk result (λ read. IfOk read (HoldsTable R.Rack rack.new head member)) }
    ensures lost { IfOk result (λ read. IsErr read → IsSome head) }
    ensures most { IfOk result (λ read. IfOk read (λ held. held.most ≡ most)) }
{
    match head {
        Some(header) => read_places(alloc, rack, &header, most),
        None => Ok(Ok(Places::new(alloc, most)?)),
    }
}

/// The other member of a member's boundary.
fn partner(member: u8) -> u8
    requires { member < 32 }
    ensures { result ≡ partner_of member }
{
    if member % 2 == 0 {
        member + 1
    } else {
        member - 1
    }
}

/// Whether a member, or its partner, is attached.
fn is_paired(heads: &Heads, member: u8) -> bool
    requires { member < 32 }
    ensures { IsPaired heads.now member → IsTrue result }
{
    head_of(heads, member).is_some() || head_of(heads, partner(member)).is_some()
}

/// For how many bytes a member gets memory, where the longest attached one has so many.
fn room_for(heads: &Heads, member: u8, most: u64) -> u64
    requires { member < 32 }
    ensures paired { IsPaired heads.now member → result ≡ most }
    ensures low { result ≤ most }
{
    if is_paired(heads, member) { most } else { 0 }
}

/// One member more.
pub fn add(all: &mut Vec<Places>, places: Places) -> Result<(), NoMemory>
    ensures { OnOk result (all.new.items ≡ all.old.items ++ places ∷ []) }
{
    match all.push(places) {
        Ok(()) => Ok(()),
        Err(_) => Err(NoMemory),
    }
}

/// Reads where the pages of each attached member stand. Where a call fails, the member on which it did is answered. There is memory for the
/// longest member on each that is attached, and on its partner.
pub fn read_all<R: Rack>(
    alloc: Global,
    rack: &mut R,
    heads: &Heads,
    most: u64,
    all: &mut Vec<Places>,
) -> Result<Option<u8>, NoMemory>
    requires borne { AreBorne R.Rack heads.now rack.old }
    requires short { AreShort heads.now most }
    requires small { most < 2 ^ 48 }
    requires none { length all.old.items ≡ 0 }
    ensures { IfOk result (λ lost. ReadsTables R.Rack heads.now most lost all.new.items rack.old rack.new) }
{
    for member in 0..MEMBERS as u8 {
        let head = head_of(heads, member);
        let room = room_for(heads, member, most);
        match places_of(alloc, rack, head, member, room)? {
            Ok(places) => {
                add(all, places)?;
            }
            Err(_) => return Ok(Some(member)),
        }
    }
    Ok(None)
}

/// So many zero bytes.
fn zeros(alloc: Global, count: u32) -> Result<Vec<u8>, NoMemory>
    ensures { IfOk result (λ bytes. length bytes.items ≡ count) }
{
    match vec![in alloc; 0; count as usize] {
        Ok(bytes) => Ok(bytes),
        Err(_) => Err(NoMemory),
    }
}

/// Reads the extra bytes of a header's commit.
pub fn read_extra<R: Rack>(
    alloc: Global,
    rack: &mut R,
    header: &Header,
) -> Result<Result<Vec<u8>, Failed>, NoMemory>
    requires bears { Bears R.Rack header.now.member rack.old header.now }
    requires small { header.now.size < 2 ^ 48 }
    ensures looks { IfOk result (λ read. LooksAt R.Rack header.now.member read rack.old rack.new) }
    ensures has { IfOk result (λ read. IfOk read (λ extra. HasExtra R.Rack rack.new header.now extra.items)) }
{
    let mut extra = zeros(alloc, header.extra)?;
    let table = place_of_table(header.sequence, table_len(header.size, header.room));
    match rack.read(header.member, table + bits_len(header.size), &mut extra) {
        Ok(()) => Ok(Ok(extra)),
        Err(_) => Ok(Err(Failed)),
    }
}

/// The header of the least member that is attached.
fn first_of(heads: &Heads) -> Option<Header>
    ensures { MatchOption result (HasNoHead heads.now) (IsFirstHead heads.now) }
{
    for member in 0..MEMBERS as u8 {
        if let Some(head) = head_of(heads, member) {
            return Some(head);
        }
    }
    None
}

/// Reads the extra bytes of the least member that is attached. Where that fails, the member is answered.
pub fn read_first<R: Rack>(
    alloc: Global,
    rack: &mut R,
    heads: &Heads,
) -> Result<Result<Vec<u8>, u8>, NoMemory>
    requires borne { AreBorne R.Rack heads.now rack.old }
    requires small { AreSmall heads.now }
    ensures read { IfOk result (λ read. IfOk read (λ extra. ReadsFirst R.Rack heads.now rack.old rack.new extra.items)) }
    ensures lost { IfOk result (λ read. IfErr read (LosesHead R.Rack heads.now rack.old rack.new)) }
{
    let Some(first) = first_of(heads) else {
        return Ok(Ok(Vec::new(alloc)));
    };
    match read_extra(alloc, rack, &first)? {
        Ok(extra) => Ok(Ok(extra)),
        Err(_) => Ok(Err(first.member)),
    }
}
