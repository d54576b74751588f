ghost use Rattle.std.specs.Prelude.{◌≡◌, ◌<◌, ◌≤◌, ◌+◌, Some, true, length, IfOk, IfErr};
ghost use Rattle.std.specs.Bool.{OnTrue};
ghost use Rattle.ufs_model.specs.Chunks.{entry_in, fault_at, has_inode, namlen_field, reclen_field, reclen_holds};
ghost use Rattle.ufs_dir.specs.Parts.{IsSplit};
ghost use Rattle.ufs_dir.specs.Steps.{entry_of};

use crate::walks::Entry;
use ufs_model::{BadEntry, Endian, is_name, u16_at, u32_at};

/// The bytes of an entry before its name.
const HEAD_BYTES: usize = 8;

/// Whether the entry at the front names an inode.
fn has_inode(bytes: &[u8], endian: Endian) -> bool
    requires { HEAD_BYTES ≤ length bytes.now }
    ensures { result ≡ has_inode endian bytes.now }
{
    u32_at(bytes, 0, endian) != 0
}

/// The bytes that the entry at the front takes (`d_reclen`).
fn reclen_of(bytes: &[u8], endian: Endian) -> usize
    requires { HEAD_BYTES ≤ length bytes.now }
    ensures { result ≡ reclen_field endian bytes.now }
{
    u16_at(bytes, 4, endian) as usize
}

/// Whether the entry at the front has room for its head and, where it is used, its name and a zero
/// byte, and stays inside the chunk.
#[tactic(auto, unfolding(ufs_model::specs::Chunks::reclen_holds))]
fn reclen_holds(bytes: &[u8], endian: Endian) -> bool
    requires { HEAD_BYTES ≤ length bytes.now }
    ensures value { result ≡ reclen_holds endian bytes.now }
    ensures moves { OnTrue result (0 < reclen_field endian bytes.now) }
    ensures inside { OnTrue result (reclen_field endian bytes.now ≤ length bytes.now) }
    ensures named { OnTrue result
        (has_inode endian bytes.now ≡ true → HEAD_BYTES + namlen_field bytes.now ≤ length bytes.now) }
{
    let reclen = reclen_of(bytes, endian);
    let with_name = (HEAD_BYTES + bytes[7] as usize + 1).div_ceil(4) * 4;
    reclen >= HEAD_BYTES
        && reclen % 4 == 0
        && reclen <= bytes.len()
        && (!has_inode(bytes, endian) || with_name <= reclen)
}

/// The name of the entry at the front, empty where the entry is unused.
#[tactic(auto, unfolding(ufs_model::specs::Chunks::entry_in))]
fn name_of(bytes: &[u8], endian: Endian) -> &[u8]
    requires head { HEAD_BYTES ≤ length bytes.now }
    requires named { has_inode endian bytes.now ≡ true → HEAD_BYTES + namlen_field bytes.now ≤ length bytes.now }
    ensures value { result.now ≡ (entry_in endian bytes.now).name }
    ensures short { length result.now ≤ 255 }
{
    if has_inode(bytes, endian) {
        &bytes[HEAD_BYTES..HEAD_BYTES + bytes[7] as usize]
    } else {
        &[]
    }
}

/// The entry at the front of the bytes, which go to the end of a chunk, and the bytes after it; or
/// why the entry is refused.
#[tactic(auto, unfolding(ufs_model::specs::Chunks::fault_at, ufs_model::specs::Chunks::entry_in))]
pub fn split_entry(bytes: &[u8], endian: Endian) -> Result<(Entry<'_>, &[u8]), BadEntry>
    ensures ok { IfOk result (λ split. IsSplit endian bytes.now (entry_of split.0) split.1.now) }
    ensures err { IfErr result (λ bad. fault_at endian bytes.now ≡ Some bad) }
{
    if bytes.len() < HEAD_BYTES {
        return Err(BadEntry::Cut);
    }
    if !reclen_holds(bytes, endian) {
        return Err(BadEntry::Reclen);
    }
    let entry = Entry {
        inode: u32_at(bytes, 0, endian),
        kind: bytes[6],
        name: name_of(bytes, endian),
    };
    if entry.is_used() && !is_name(entry.name) {
        return Err(BadEntry::Name);
    }
    let (_, after) = bytes.split_at(reclen_of(bytes, endian));
    Ok((entry, after))
}
