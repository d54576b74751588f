// What an opening finds on the disks of a group.
ghost use Rattle.std.specs.Prelude.{◌≡◌, ◌⊎◌, ◌+◌, ◌*◌, ◌<◌, ◌≤◌, ℕ, List, true, None, IfSome, length, take};
ghost use Rattle.dg_model.specs.Causes.{Rose};
ghost use Rattle.dg_parity.specs.Groups.{disk_number, IsReady, MostCalls};
ghost use Rattle.dg_parity.specs.Headers.{IsCounted};
ghost use Rattle.dg_parity.specs.Kept.{IsKept};
ghost use Rattle.dg_parity.specs.Openings.{IsFront, IsFound, LeavesRead, OpensGroup, AreSound, fronts_in};

use crate::chiefs::group_of;
use crate::groups::Group;
use crate::headers::{CHUNK, Header, is_counted, read_header};
use dg_io::Rack;

/// Reads the first page of a member, where that is there and has one. It gives the member's length.
fn read_page<R: Rack>(rack: &mut R, member: u8, page: &mut [u8; CHUNK]) -> Option<u64>
    ensures leaves { LeavesRead R.Rack member (member + 1) rack.old rack.new }
    ensures got { IfSome result (λ long. IfSome (R.bytes rack.new member) (λ all. (take 512 all ≡ page.new) × (length all ≡ long))) }
    ensures stands { IfSome result (λ long. R.stands rack.new member ≡ true) }
    ensures none { result ≡ None → IfSome (R.bytes rack.new member) (λ all. length all < 512)
        ⊎ Rose ((R.counts rack.old).faults member) ((R.counts rack.new).faults member) }
    ensures calls { MostCalls R.Rack 2 rack.old rack.new }
{
    let Ok(found) = rack.attach(member) else {
        return None;
    };
    let Some(long) = found else {
        return None;
    };
    if long < 512 {
        return None;
    }
    let Ok(()) = rack.read(member, 0, page) else {
        return None;
    };
    Some(long)
}

/// The header of disk j of group s, which has so many bytes and begins with this page, where it counts.
fn judge(page: &[u8; CHUNK], s: u8, j: u8, long: u64) -> Option<Header>
    ensures front { (all : List ℕ) → take 512 all ≡ page.now → length all ≡ long → IsFront s j all result }
    ensures counted { IfSome result (λ h. IsCounted s j long h) }
{
    let Some(header) = read_header(page) else {
        return None;
    };
    if !is_counted(&header, s, j, long) {
        return None;
    }
    Some(header)
}

/// The header of disk j of group s that counts. A disk on which a call fails counts as one without a header.
fn read_front<R: Rack>(rack: &mut R, s: u8, j: u8) -> Option<Header>
    requires group { s < 16 }
    requires place { j < 8 }
    ensures found { IsFound R.Rack rack.old rack.new s j result }
    ensures leaves { LeavesRead R.Rack (disk_number s j) (disk_number s j + 1) rack.old rack.new }
    ensures calls { MostCalls R.Rack 2 rack.old rack.new }
{
    let mut page = [0; CHUNK];
    let Some(long) = read_page(rack, 32 + 8 * s + j, &mut page) else {
        return None;
    };
    judge(&page, s, j, long)
}

/// The headers of the disks of group s that count.
pub fn read_fronts<R: Rack>(rack: &mut R, s: u8) -> [Option<Header>; 8]
    requires { s < 16 }
    ensures found { (j : ℕ) → j < 8 → IsFound R.Rack rack.old rack.new s j (fronts_in result j) }
    ensures leaves { LeavesRead R.Rack (disk_number s 0) (disk_number s 8) rack.old rack.new }
    ensures calls { MostCalls R.Rack 16 rack.old rack.new }
{
    let mut fronts = [None; 8];
    for j in 0..8 {
        fronts[j as usize] = read_front(rack, s, j);
    }
    fronts
}

/// Group s of n disks by their headers, or `None` where none of them has one. It only looks and reads.
pub fn open_group<R: Rack>(rack: &mut R, s: u8, n: u8) -> Option<Group>
    requires group { s < 16 }
    requires least { 3 ≤ n }
    requires most { n ≤ 8 }
    ensures opened { OpensGroup R.Rack rack.old rack.new s n result }
    ensures ready { IfSome result (λ group. IsReady R.Rack group rack.new) }
    ensures kept { IfSome result (λ group. AreSound R.Rack group rack.new → IsKept R.Rack group rack.new) }
    ensures leaves { LeavesRead R.Rack (disk_number s 0) (disk_number s 8) rack.old rack.new }
    ensures calls { MostCalls R.Rack 16 rack.old rack.new }
{
    let fronts = read_fronts(rack, s);
    group_of(&fronts, s, n)
}
