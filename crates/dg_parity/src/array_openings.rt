// What an opening finds on the disks of all groups.
ghost use Rattle.std.specs.Prelude.{◌≡◌, ◌<◌, ◌≤◌, ℕ, None, IfOk, IfSome, length};
ghost use Rattle.dg_parity.specs.Arrays.{IsHeld};
ghost use Rattle.dg_parity.specs.Groups.{disk_number, MostCalls};
ghost use Rattle.dg_parity.specs.Openings.{AreFound, AreOpened, IsFirst, IsOpenedOr, IsWidth, LeavesRead, OpensGroups, OpensPlain, fronts_by, fronts_in};

use crate::chiefs::group_of;
use crate::groups::Group;
use crate::headers::Header;
use crate::openings::read_fronts;
use crate::sureness::judge;
use dg_io::{NoMemory, Rack};
use std::alloc::Global;

/// The headers of the disks of sixteen groups.
type Rows = [[Option<Header>; 8]; 16];

/// The headers of all disks that count.
fn read_rows<R: Rack>(rack: &mut R) -> Rows
    ensures found { AreFound R.Rack rack.old rack.new (fronts_by result) }
    ensures leaves { LeavesRead R.Rack (disk_number 0 0) (disk_number 16 0) rack.old rack.new }
    ensures calls { MostCalls R.Rack 256 rack.old rack.new }
{
    let mut rows = [[None; 8]; 16];
    for s in 0..16 {
        rows[s as usize] = read_fronts(rack, s);
    }
    rows
}

/// The width of a row: that of the least disk that has a header.
fn first_width(row: &[Option<Header>; 8]) -> Option<u8>
    ensures first { IfSome result (λ n. IsFirst (fronts_in row.now) n) }
    ensures none { result ≡ None → (j : ℕ) → j < 8 → fronts_in row.now j ≡ None }
{
    for j in 0..8 {
        if let Some(header) = row[j] {
            return Some(header.disks);
        }
    }
    None
}

/// The width of the array: that of the least group one of whose disks has a header.
fn width_of(rows: &Rows) -> Option<u8>
    ensures width { IfSome result (λ n. IsWidth (fronts_by rows.now) n) }
    ensures none { result ≡ None → (s j : ℕ) → s < 16 → j < 8 → fronts_by rows.now s j ≡ None }
{
    for s in 0..16 {
        if let Some(n) = first_width(&rows[s]) {
            return Some(n);
        }
    }
    None
}

/// Group s of n disks, or one that was never made where no disk has a header.
fn group_or_new<R: Rack>(row: &[Option<Header>; 8], rack: &R, s: u8, n: u8) -> Group
    requires group { s < 16 }
    requires least { 3 ≤ n }
    requires most { n ≤ 8 }
    ensures { IsOpenedOr R.Rack rack.now (fronts_in row.now) n s result }
{
    match group_of(row, s, n) {
        Some(group) => judge(group, rack),
        None => Group::new(s, n),
    }
}

/// The groups of n disks, in order.
fn groups_of<R: Rack>(alloc: Global, rows: &Rows, rack: &R, n: u8) -> Result<Vec<Group>, NoMemory>
    requires least { 3 ≤ n }
    requires most { n ≤ 8 }
    ensures count { IfOk result (λ groups. length groups.items ≡ 16) }
    ensures opened { IfOk result (λ groups. AreOpened R.Rack rack.now (fronts_by rows.now) n groups.items) }
{
    let mut groups = Vec::new(alloc);
    for s in 0..16 {
        let group = group_or_new(&rows[s as usize], rack, s, n);
        let Ok(()) = groups.push(group) else {
            return Err(NoMemory);
        };
    }
    Ok(groups)
}

/// The groups that an opening found.
#[derive(Drop)]
pub(crate) struct FoundGroups {
    /// How many disks each has.
    pub(crate) width: u8,
    pub(crate) groups: Vec<Group>,
    ghost least: { 3 ≤ width },
    ghost most: { width ≤ 8 },
}

/// The groups of a rack by the headers of its disks, or `None` where no disk has one: then the rack is a plain one. It only looks and reads, at most
/// 256 times.
pub(crate) fn open_groups<R: Rack>(
    alloc: Global,
    rack: &mut R,
) -> Result<Option<FoundGroups>, NoMemory>
    ensures opened { IfOk result (λ found. IfSome found (λ it. OpensGroups R.Rack rack.old rack.new it.width it.groups.items)) }
    ensures held { IfOk result (λ found. IfSome found (λ it. IsHeld R.Rack it.width it.groups.items rack.new)) }
    ensures plain { IfOk result (λ found. found ≡ None → OpensPlain R.Rack rack.old rack.new) }
    ensures leaves { LeavesRead R.Rack (disk_number 0 0) (disk_number 16 0) rack.old rack.new }
    ensures calls { MostCalls R.Rack 256 rack.old rack.new }
{
    let rows = read_rows(rack);
    let Some(width) = width_of(&rows) else {
        return Ok(None);
    };
    let groups = groups_of(alloc, &rows, rack, width)?;
    Ok(Some(FoundGroups { width, groups }))
}
