// The bytes of directories.
ghost use Rattle.std.specs.Prelude.{◌≡◌, ◌≤◌, ◌<◌, ◌+◌, ◌^◌, ◌++◌, ◌∷◌, [], ℕ, List, if◌then◌else◌, slice_index, IfOk, OnOk, length, replicate, drop};
ghost use Rattle.std.specs.List.{All};
ghost use Rattle.ufs_build.specs.Directories.{directories_of, directory_bytes, directory_entries, entry_bytes, entry_if, entry_length, entry_type, item_entry, packed, reclen_in, room_after};
ghost use Rattle.ufs_build.specs.Entries.{HasRoom, entries_in, entry_of};
ghost use Rattle.ufs_build.specs.Items.{HasShortName, HasSlash, is_dir};
ghost use Rattle.ufs_model.specs.Chunks.{DirEntry};
ghost use Rattle.ufs_build.specs.Parts.{number_bytes};

use crate::entries::Entry;
use crate::items::{Item, ItemKind};
use crate::parents::{FIRST, ROOT, is_dir};
use crate::paths::split_path;
use dg_model::{Bytes, NoMemory};
use std::alloc::Global;
use ufs_model::Endian;

/// Bytes of a chunk of a directory (`DIRBLKSIZ`).
const CHUNK: u16 = 512;

/// The type of directories in entries (`DT_DIR`).
const DIRECTORY: u8 = 4;

/// The type by which an entry names an item.
fn entry_type(kind: ItemKind) -> u8
    ensures { result ≡ entry_type kind }
{
    match kind {
        ItemKind::Dir => DIRECTORY,
        ItemKind::File => 8,
        ItemKind::Link => 10,
    }
}

/// The entry of an item with an inode.
fn item_entry(inode: u32, item: &Item) -> Entry<'_>
    requires short { HasShortName item.now }
    requires slash { HasSlash item.now }
    ensures { entry_of result ≡ item_entry inode item.now }
{
    let (_, name) = split_path(item.path.as_slice());
    Entry {
        inode,
        kind: entry_type(item.kind),
        name,
    }
}

/// Appends the entry of an item, whose directory is `parent`, where that is the wanted one.
fn push_item<'a>(
    entries: &mut Vec<Entry<'a>>,
    item: &'a Item,
    inode: u32,
    parent: u32,
    wanted: u32,
) -> Result<(), NoMemory>
    requires short { HasShortName item.now }
    requires slash { HasSlash item.now }
    ensures { OnOk result ((further : List DirEntry)
        → entries_in entries.new.items ++ further ≡ entries_in entries.old.items ++ entry_if wanted parent (item_entry inode item.now) further) }
{
    if parent != wanted {
        return Ok(());
    }
    push_entry(entries, item_entry(inode, item))?;
    Ok(())
}

/// The entries of a directory: its own, and those of its items.
fn directory_entries<'a>(
    alloc: Global,
    items: &'a [Item],
    parents: &[u32],
    directory: u32,
    up: u32,
) -> Result<Vec<Entry<'a>>, NoMemory>
    requires few { length items.now + 3 < 2 ^ 32 }
    requires names { All HasShortName items.now }
    requires slashes { All HasSlash items.now }
    requires parents { length parents.now ≡ length items.now }
    ensures { IfOk result (λ entries. entries_in entries.items ≡ directory_entries items.now parents.now directory up) }
{
    let mut entries = Vec::new(alloc);
    push_entry(&mut entries, own_entry(directory, b"."))?;
    push_entry(&mut entries, own_entry(up, b".."))?;
    for k in 0..items.len() {
        push_item(
            &mut entries,
            &items[k],
            k as u32 + FIRST,
            parents[k],
            directory,
        )?;
    }
    Ok(entries)
}

/// One of a directory's own entries.
fn own_entry(inode: u32, name: &[u8]) -> Entry<'_>
    requires { length name.now ≤ 255 }
    ensures { entry_of result ≡ record { inode = inode; kind = 4; name = name.now } }
{
    Entry {
        inode,
        kind: DIRECTORY,
        name,
    }
}

/// Appends an entry.
fn push_entry<'a>(entries: &mut Vec<Entry<'a>>, entry: Entry<'a>) -> Result<(), NoMemory>
    ensures { OnOk result (entries_in entries.new.items ≡ entries_in entries.old.items ++ entry_of entry.entry ∷ []) }
{
    match entries.push(entry) {
        Ok(()) => Ok(()),
        Err(_) => Err(NoMemory),
    }
}

/// Appends the bytes of a directory.
fn push_bytes(directories: &mut Vec<Bytes>, bytes: Vec<u8>) -> Result<(), NoMemory>
    ensures { OnOk result (directories.new.items ≡ directories.old.items ++ bytes.items ∷ []) }
{
    match directories.push(Bytes::new(bytes)) {
        Ok(()) => Ok(()),
        Err(_) => Err(NoMemory),
    }
}

/// Appends bytes.
fn append(bytes: &mut Vec<u8>, piece: &[u8]) -> Result<(), NoMemory>
    ensures { OnOk result (bytes.new.items ≡ bytes.old.items ++ piece.now) }
{
    bytes.extend_from_slice(piece).map_err(|_| NoMemory)
}

/// Appends a number of 16 bits.
#[tactic(auto, unfolding(crate::specs::Parts::number_bytes))]
fn append_u16(bytes: &mut Vec<u8>, value: u16, endian: Endian) -> Result<(), NoMemory>
    ensures { OnOk result (bytes.new.items ≡ bytes.old.items ++ number_bytes endian 2 value) }
{
    match endian {
        Endian::Little => append(bytes, &value.to_le_bytes()),
        Endian::Big => append(bytes, &value.to_be_bytes()),
    }
}

/// Appends a number of 32 bits.
#[tactic(auto, unfolding(crate::specs::Parts::number_bytes))]
fn append_u32(bytes: &mut Vec<u8>, value: u32, endian: Endian) -> Result<(), NoMemory>
    ensures { OnOk result (bytes.new.items ≡ bytes.old.items ++ number_bytes endian 4 value) }
{
    match endian {
        Endian::Little => append(bytes, &value.to_le_bytes()),
        Endian::Big => append(bytes, &value.to_be_bytes()),
    }
}

/// Appends zeros.
fn append_zeros(bytes: &mut Vec<u8>, count: u16) -> Result<(), NoMemory>
    ensures { OnOk result (bytes.new.items ≡ bytes.old.items ++ replicate count 0) }
{
    let mut left = count;
    while left > 0 {
        append(bytes, &[0])?;
        left -= 1;
    }
    Ok(())
}

/// The fewest bytes of an entry with a name (`DIRSIZ`).
fn entry_length(name: &[u8]) -> u16
    requires { length name.now ≤ 255 }
    ensures { result ≡ entry_length name.now }
{
    (8 + name.len() as u16 + 1).div_ceil(4) * 4
}

/// Appends an entry that takes so many bytes.
fn append_entry(
    bytes: &mut Vec<u8>,
    entry: &Entry<'_>,
    reclen: u16,
    endian: Endian,
) -> Result<(), NoMemory>
    requires { entry_length entry.now.name.now ≤ reclen }
    ensures { OnOk result (bytes.new.items ≡ bytes.old.items ++ entry_bytes endian (entry_of entry.now) reclen) }
{
    let namlen = entry.name.len() as u8;
    append_u32(bytes, entry.inode, endian)?;
    append_u16(bytes, reclen, endian)?;
    append(bytes, &[entry.kind, namlen])?;
    append(bytes, entry.name)?;
    append_zeros(bytes, reclen - (8 + u16::from(namlen)))?;
    Ok(())
}

/// The bytes that an entry takes of those left in its chunk: all, unless the next one fits behind
/// it.
fn reclen_in(room: u16, entry: &Entry<'_>, further: &[Entry<'_>]) -> u16
    requires { entry_length entry.now.name.now ≤ room }
    ensures value { result ≡ reclen_in room (entry_of entry.now) (entries_in further.now) }
    ensures room { entry_length entry.now.name.now ≤ result }
    ensures inside { result ≤ room }
    ensures next { HasRoom (room_after room result) (entries_in further.now) }
{
    let length = entry_length(entry.name);
    match further {
        [] => room,
        [next, ..] => {
            let needed = entry_length(next.name);
            if length + needed <= room {
                length
            } else {
                room
            }
        }
    }
}

/// What is left of a chunk behind an entry, or a new chunk.
fn room_after(room: u16, reclen: u16) -> u16
    requires { reclen ≤ room }
    ensures { result ≡ room_after room reclen }
{
    if reclen == room { CHUNK } else { room - reclen }
}

/// Entries one behind the other.
fn pack(alloc: Global, entries: &[Entry<'_>], endian: Endian) -> Result<Vec<u8>, NoMemory>
    requires { HasRoom 512 (entries_in entries.now) }
    ensures { IfOk result (λ bytes. bytes.items ≡ packed endian 512 (entries_in entries.now)) }
{
    let mut bytes = Vec::new(alloc);
    let mut room = CHUNK;
    for k in 0..entries.len() {
        let (_, further) = entries.split_at(k + 1);
        let reclen = reclen_in(room, &entries[k], further);
        append_entry(&mut bytes, &entries[k], reclen, endian)?;
        room = room_after(room, reclen);
    }
    Ok(bytes)
}

/// The bytes of a directory.
fn directory_bytes(
    alloc: Global,
    items: &[Item],
    parents: &[u32],
    directory: u32,
    up: u32,
    endian: Endian,
) -> Result<Vec<u8>, NoMemory>
    requires few { length items.now + 3 < 2 ^ 32 }
    requires names { All HasShortName items.now }
    requires slashes { All HasSlash items.now }
    requires parents { length parents.now ≡ length items.now }
    ensures { IfOk result (λ bytes. bytes.items ≡ directory_bytes endian items.now parents.now directory up) }
{
    let entries = directory_entries(alloc, items, parents, directory, up)?;
    let bytes = pack(alloc, &entries, endian)?;
    Ok(bytes)
}

/// The bytes of the directory that item k is, and none where it isn't one.
fn item_directory(
    alloc: Global,
    items: &[Item],
    parents: &[u32],
    item: &Item,
    k: usize,
    endian: Endian,
) -> Result<Vec<u8>, NoMemory>
    requires few { length items.now + 3 < 2 ^ 32 }
    requires names { All HasShortName items.now }
    requires slashes { All HasSlash items.now }
    requires parents { length parents.now ≡ length items.now }
    requires place { k < length items.now }
    ensures { IfOk result (λ bytes. bytes.items
        ≡ (if is_dir item.now.kind then directory_bytes endian items.now parents.now (k + 3) (slice_index parents.now k) else [])) }
{
    if !is_dir(item.kind) {
        return Ok(Vec::new(alloc));
    }
    let bytes = directory_bytes(alloc, items, parents, k as u32 + FIRST, parents[k], endian)?;
    Ok(bytes)
}

/// The bytes of the root's directory, and for each item those of its directory, if it is one.
pub fn directories_of(
    alloc: Global,
    items: &[Item],
    parents: &[u32],
    endian: Endian,
) -> Result<Vec<Bytes>, NoMemory>
    requires few { length items.now + 3 < 2 ^ 32 }
    requires names { All HasShortName items.now }
    requires slashes { All HasSlash items.now }
    requires parents { length parents.now ≡ length items.now }
    ensures { IfOk result (λ directories. directories.items ≡ directories_of endian items.now parents.now) }
{
    let mut directories = Vec::new(alloc);
    let root = directory_bytes(alloc, items, parents, ROOT, ROOT, endian)?;
    push_bytes(&mut directories, root)?;
    for k in 0..items.len() {
        let bytes = item_directory(alloc, items, parents, &items[k], k, endian)?;
        push_bytes(&mut directories, bytes)?;
    }
    Ok(directories)
}
