// The entries of directories, block by block.
ghost use Rattle.std.specs.Prelude.{◌≡◌, ◌+◌, ◌*◌, ◌^◌, ◌<◌, ◌≤◌, List, ℕ, Some, Ok, true, drop, length, take, IfOk, IfErr, OnOk};
ghost use Rattle.std.specs.Option.{option_map};
ghost use Rattle.dg_io.specs.ViewWords.{Keeps, Reads};
ghost use Rattle.ufs_model.specs.Chunks.{DirEntry};
ghost use Rattle.ufs_model.specs.Geometries.{IsGeometryOn};
ghost use Rattle.ufs_model.specs.Paths.{bytes_in_block, chunks_in, entries_before, entries_through};
ghost use Rattle.ufs_model.specs.declared.numbers.Endian.TheVariants.{Little};
ghost use Rattle.ufs_path.specs.Answers.{refusal_of};
ghost use Rattle.ufs_path.specs.Walks.{are_sound, block_entries, entries_said};
ghost use Rattle.ufs_path.specs.Consults.{Consults, IsUnread};

use crate::blocks::{BlockContents, read_block};
use crate::faults::LookFault;
use dg_io::View;
use ufs_dir::{CHUNK_BYTES, check};
use ufs_model::{BadRead, Endian, Geometry, Inode};
use ufs_pointer::{Levels, bytes_in_block};

/// Whether none of the first `count` chunks of a file block is refused.
fn are_sound(bytes: &[u8], count: usize, endian: Endian) -> bool
    requires { count * 512 ≤ length bytes.now }
    ensures { result ≡ are_sound endian (chunks_in count bytes.now) }
{
    for i in 0..count {
        let start = i * CHUNK_BYTES;
        if check(&bytes[start..start + CHUNK_BYTES], endian).is_some() {
            return false;
        }
    }
    true
}

/// The chunk `i` of a file block.
pub fn chunk_at(block: &[u8], i: usize) -> [u8; CHUNK_BYTES]
    requires { i * 512 + 512 ≤ length block.now }
    ensures { result ≡ take 512 (drop (i * 512) block.now) }
{
    let start = i * CHUNK_BYTES;
    let mut chunk = [0; CHUNK_BYTES];
    chunk.copy_from_slice(&block[start..start + CHUNK_BYTES]);
    chunk
}

/// The number of chunks, if none of them is refused.
fn judged(block: &[u8], count: usize, endian: Endian) -> Result<usize, LookFault>
    requires { count * 512 ≤ length block.now }
    ensures rule { entries_said endian result block.now ≡ Some (entries_through endian (chunks_in count block.now)) }
    ensures all { IfOk result (λ chunks. chunks ≡ count) }
    ensures read { IsUnread result → ⊥ }
{
    if !are_sound(block, count, endian) {
        return Err(LookFault::Bad(BadRead::Chunk));
    }
    Ok(count)
}

/// Reads file block `n` of a directory, judges its chunks, and answers how many of them stand at the
/// front of the block of data.
pub fn read_entries<V: View>(
    view: &mut V,
    g: &Geometry,
    inode: &Inode,
    n: u32,
    levels: &mut Levels,
) -> Result<usize, LookFault>
    requires sound { V.is_sound view.old }
    requires geometry { IsGeometryOn (V.size view.old) (V.count view.old) g.now }
    requires levels { levels.old.fragment ≡ V.size view.old }
    requires block { n < 2 ^ 30 }
    ensures keeps { Keeps V.View view.old view.new }
    ensures levels { levels.new.fragment ≡ levels.old.fragment }
    ensures rule { Reads V.View view.old view.new (block_entries g.now inode.now n) (entries_said g.now.endian result levels.new.block) }
    ensures consults { Consults V.View view.old view.new (block_entries g.now inode.now n) (IsUnread result) }
    ensures inside { IfOk result (λ chunks. chunks * 512 ≤ length levels.new.block) }
    ensures few { IfOk result (λ chunks. chunks * 512 ≤ bytes_in_block g.now inode.now n) }
    ensures small { IfOk result (λ chunks. chunks ≤ 128) }
{
    match read_block(view, g, inode, n, levels) {
        Ok(BlockContents::Data) => judged(
            levels.block(),
            bytes_in_block(g, inode, n) / CHUNK_BYTES,
            g.endian,
        ),
        Ok(BlockContents::Hole) => Err(LookFault::Bad(BadRead::Hole)),
        Err(fault) => Err(fault),
    }
}

/// Consults the entries in the first `count` file blocks of a directory.
pub fn consult_entries<V: View>(
    view: &mut V,
    g: &Geometry,
    inode: &Inode,
    count: u32,
    levels: &mut Levels,
) -> Result<(), LookFault>
    requires sound { V.is_sound view.old }
    requires geometry { IsGeometryOn (V.size view.old) (V.count view.old) g.now }
    requires levels { levels.old.fragment ≡ V.size view.old }
    requires few { count ≤ 2 ^ 20 }
    ensures keeps { Keeps V.View view.old view.new }
    ensures levels { levels.new.fragment ≡ levels.old.fragment }
    ensures ok { OnOk result ((entries : List DirEntry) × Reads V.View view.old view.new (entries_before g.now inode.now count) (Some (Ok entries))) }
    ensures err { IfErr result (λ fault. Reads V.View view.old view.new (entries_before g.now inode.now count) (option_map Err (refusal_of fault))) }
    ensures consults { Consults V.View view.old view.new (entries_before g.now inode.now count) (IsUnread result) }
{
    for n in 0..count {
        match read_entries(view, g, inode, n, levels) {
            Ok(_) => {}
            Err(fault) => return Err(fault),
        }
    }
    Ok(())
}
