// The files of a drill.
ghost use Rattle.std.specs.Prelude.{◌≡◌, ◌≤◌, ◌<◌, ◌+◌, ◌++◌, ◌∷◌, ℕ, [], IfOk, OnOk, false, true, map};
ghost use Rattle.std.specs.List.{range_with_len};
ghost use Rattle.rand_pcg.specs.Pcg.{pcg32};
ghost use Rattle.ufs_drill.specs.Items.{byte_of, bytes_of, digit_of, directory_item, directory_path, drill_items, file_item, file_path, generator_after, size_by};
ghost use Rattle.ufs_build.specs.declared.items.ItemKind.{ItemKind};
ghost use Rattle.ufs_model.specs.Paths.{is_path};

use dg_model::{Bytes, NoMemory};
use rand_core::SeedableRng;
use rand_core::utils::NextWord;
use rand_pcg::Pcg32;
use std::alloc::Global;
use ufs_build::{Item, ItemKind, Items};

/// The generator of the words that give the sizes of files.
#[tactic(auto, unfolding(crate::specs::Items::generator_after))]
pub fn sizes_of(seed: u64) -> Pcg32
    ensures { result ≡ generator_after seed 0 }
{
    Pcg32::seed_from_u64(seed)
}

/// How many bytes the next file has, which is file `k`.
pub fn next_size(sizes: &mut Pcg32, k: u32) -> u32
    ensures size { result ≡ size_by (pcg32 sizes.old).0 k }
    ensures next { (seed n : ℕ) → sizes.old ≡ generator_after seed n → sizes.new ≡ generator_after seed (n + 1) }
    ensures small { result < 212000 }
{
    let word = sizes.next_word();
    let extra = if k % 100 == 0 { 200_000 } else { 0 };
    word % 12_000 + extra
}

/// Byte `o` of file `k`.
pub fn byte_of(k: u32, o: u32) -> u8
    ensures { result ≡ byte_of k o }
{
    let sum = 31 * u64::from(k) + 7 * u64::from(o) + u64::from(o) / 256;
    (sum % 251) as u8
}

/// Appends a byte.
fn push_byte(bytes: &mut Vec<u8>, byte: u8) -> Result<(), NoMemory>
    ensures { OnOk result (bytes.new.items ≡ bytes.old.items ++ byte ∷ []) }
{
    match bytes.push(byte) {
        Ok(()) => Ok(()),
        Err(_) => Err(NoMemory),
    }
}

/// So many bytes of file `k`.
fn file_bytes(alloc: Global, k: u32, size: u32) -> Result<Vec<u8>, NoMemory>
    ensures { IfOk result (λ bytes. bytes.items ≡ bytes_of k size) }
{
    let mut bytes = Vec::new(alloc);
    for o in 0..size {
        push_byte(&mut bytes, byte_of(k, o))?;
    }
    Ok(bytes)
}

/// The last decimal digit of a number.
fn digit_of(n: u32) -> u8
    ensures { result ≡ digit_of n }
{
    b'0' + (n % 10) as u8
}

/// The path of the directory of files whose number ends so.
fn directory_path(x: u32) -> [u8; 3]
    ensures { result ≡ directory_path x }
{
    [b'/', b'd', digit_of(x)]
}

/// The path of file `k`.
pub fn file_path(k: u32) -> [u8; 9]
    ensures is { result ≡ file_path k }
    ensures path { is_path result ≡ true }
{
    [
        b'/',
        b'd',
        digit_of(k),
        b'/',
        b'f',
        digit_of(k / 1000),
        digit_of(k / 100),
        digit_of(k / 10),
        digit_of(k),
    ]
}

/// Bytes on the heap.
fn bytes_from(alloc: Global, bytes: &[u8]) -> Result<Bytes, NoMemory>
    ensures { IfOk result (λ copy. copy ≡ bytes.now) }
{
    match Vec::from_slice(alloc, bytes) {
        Ok(copy) => Ok(Bytes::new(copy)),
        Err(_) => Err(NoMemory),
    }
}

/// An item of these parts.
fn item_of(alloc: Global, path: &[u8], kind: ItemKind, bytes: Vec<u8>) -> Result<Item, NoMemory>
    ensures { IfOk result (λ item. item ≡ record { path = path.now; kind = kind; bytes = bytes.items; sparse = false }) }
{
    let path = bytes_from(alloc, path)?;
    Ok(Item {
        path,
        kind,
        bytes: Bytes::new(bytes),
        sparse: false,
    })
}

/// Appends an item.
fn push_item(items: &mut Vec<Item>, item: Item) -> Result<(), NoMemory>
    ensures { OnOk result (items.new.items ≡ items.old.items ++ item ∷ []) }
{
    match items.push(item) {
        Ok(()) => Ok(()),
        Err(_) => Err(NoMemory),
    }
}

/// A directory for files.
fn directory_item(alloc: Global, x: u32) -> Result<Item, NoMemory>
    ensures { IfOk result (λ item. item ≡ directory_item x) }
{
    item_of(alloc, &directory_path(x), ItemKind::Dir, Vec::new(alloc))
}

/// File `k`, of so many bytes.
fn file_item(alloc: Global, k: u32, size: u32) -> Result<Item, NoMemory>
    ensures { IfOk result (λ item. item ≡ record { path = file_path k; kind = ItemKind.File; bytes = bytes_of k size; sparse = false }) }
{
    let bytes = file_bytes(alloc, k, size)?;
    item_of(alloc, &file_path(k), ItemKind::File, bytes)
}

/// The directories of a drill.
fn directories(alloc: Global) -> Result<Vec<Item>, NoMemory>
    ensures { IfOk result (λ items. items.items ≡ map directory_item (range_with_len 0 10)) }
{
    let mut items = Vec::new(alloc);
    for x in 0..10u32 {
        push_item(&mut items, directory_item(alloc, x)?)?;
    }
    Ok(items)
}

/// Appends the files of a drill.
fn push_files(alloc: Global, items: &mut Vec<Item>, seed: u64, files: u32) -> Result<(), NoMemory>
    ensures { OnOk result (items.new.items ≡ items.old.items ++ map (file_item seed) (range_with_len 0 files)) }
{
    let mut sizes = sizes_of(seed);
    for k in 0..files {
        let size = next_size(&mut sizes, k);
        push_item(items, file_item(alloc, k, size)?)?;
    }
    Ok(())
}

/// The files of a drill, behind the ten directories in which they stand.
pub fn drill(alloc: Global, seed: u64, files: u32) -> Result<Items, NoMemory>
    requires few { (1 ≤ files) × (files ≤ 2000) }
    ensures { IfOk result (λ items. items ≡ drill_items seed files) }
{
    let mut items = directories(alloc)?;
    push_files(alloc, &mut items, seed, files)?;
    Ok(Items::new(items))
}
