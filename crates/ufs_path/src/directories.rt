// Directories.
ghost use Rattle.std.specs.Prelude.{◌≡◌, ◌+◌, ◌*◌, ◌^◌, ◌<◌, ◌≤◌, Some, length};
ghost use Rattle.dg_io.specs.ViewWords.{Keeps, Reads};
ghost use Rattle.ufs_model.specs.Geometries.{IsGeometryOn};
ghost use Rattle.ufs_model.specs.Paths.{chunks_in, find_from, find_in_block, find_of, find_through, or_bad_chunk};
ghost use Rattle.ufs_model.specs.Readings.{answered};
ghost use Rattle.ufs_model.specs.declared.numbers.Endian.TheVariants.{Little};
ghost use Rattle.ufs_path.specs.Answers.{refusal_of};
ghost use Rattle.ufs_path.specs.Consults.{Consults, IsUnread};

use crate::blocks::{BlockContents, directory_fault, read_block};
use crate::faults::LookFault;
use dg_io::View;
use ufs_dir::{CHUNK_BYTES, find};
use ufs_model::{BadRead, Endian, Found, Geometry, Inode};
use ufs_pointer::{Levels, block_count, bytes_in_block};

/// The inode of the first used entry with the name in the first `count` chunks of a file block, up
/// to a chunk that is refused.
#[tactic(auto, using(crate::proofs::ChunkLaws::no_chunk))]
fn find_through(bytes: &[u8], count: usize, name: &[u8], endian: Endian) -> Found
    requires { count * 512 ≤ length bytes.now }
    ensures { result ≡ find_through endian name.now (chunks_in count bytes.now) }
{
    for i in 0..count {
        let start = i * CHUNK_BYTES;
        match find(&bytes[start..start + CHUNK_BYTES], name, endian) {
            Found::Absent => {}
            Found::At(inode) => return Found::At(inode),
            Found::Bad(bad) => return Found::Bad(bad),
        }
    }
    Found::Absent
}

/// The inode that was found, if one was; a refused chunk makes its volume bad.
fn or_bad_chunk(found: Found) -> Result<Option<u32>, LookFault>
    ensures value { answered refusal_of result ≡ Some (or_bad_chunk found) }
    ensures read { IsUnread result → ⊥ }
{
    match found {
        Found::At(inode) => Ok(Some(inode)),
        Found::Absent => Ok(None),
        Found::Bad(_) => Err(LookFault::Bad(BadRead::Chunk)),
    }
}

/// The inode under a name in file block `n` of a directory, if it has the name.
fn find_in_block<V: View>(
    view: &mut V,
    g: &Geometry,
    inode: &Inode,
    name: &[u8],
    n: u32,
    levels: &mut Levels,
) -> Result<Option<u32>, LookFault>
    requires sound { V.is_sound view.old }
    requires geometry { IsGeometryOn (V.size view.old) (V.count view.old) g.now }
    requires levels { levels.old.fragment ≡ V.size view.old }
    requires block { n < 2 ^ 30 }
    ensures keeps { Keeps V.View view.old view.new }
    ensures levels { levels.new.fragment ≡ levels.old.fragment }
    ensures rule { Reads V.View view.old view.new (find_in_block g.now inode.now name.now n) (answered refusal_of result) }
    ensures consults { Consults V.View view.old view.new (find_in_block g.now inode.now name.now n) (IsUnread result) }
{
    match read_block(view, g, inode, n, levels) {
        Ok(BlockContents::Data) => {
            let chunks = bytes_in_block(g, inode, n) / CHUNK_BYTES;
            or_bad_chunk(find_through(levels.block(), chunks, name, g.endian))
        }
        Ok(BlockContents::Hole) => Err(LookFault::Bad(BadRead::Hole)),
        Err(fault) => Err(fault),
    }
}

/// The inode under a name in the first `count` file blocks of a directory.
fn find_in_blocks<V: View>(
    view: &mut V,
    g: &Geometry,
    inode: &Inode,
    name: &[u8],
    count: u32,
    levels: &mut Levels,
) -> Result<u32, LookFault>
    requires sound { V.is_sound view.old }
    requires geometry { IsGeometryOn (V.size view.old) (V.count view.old) g.now }
    requires levels { levels.old.fragment ≡ V.size view.old }
    requires few { count ≤ 2 ^ 20 }
    ensures keeps { Keeps V.View view.old view.new }
    ensures levels { levels.new.fragment ≡ levels.old.fragment }
    ensures rule { Reads V.View view.old view.new (find_from g.now inode.now name.now 0 count) (answered refusal_of result) }
    ensures consults { Consults V.View view.old view.new (find_from g.now inode.now name.now 0 count) (IsUnread result) }
{
    for n in 0..count {
        match find_in_block(view, g, inode, name, n, levels) {
            Ok(None) => {}
            Ok(Some(found)) => return Ok(found),
            Err(fault) => return Err(fault),
        }
    }
    Err(LookFault::NotFound)
}

/// The inode under a name in a directory.
pub fn find_name<V: View>(
    view: &mut V,
    g: &Geometry,
    inode: &Inode,
    name: &[u8],
    levels: &mut Levels,
) -> Result<u32, LookFault>
    requires sound { V.is_sound view.old }
    requires geometry { IsGeometryOn (V.size view.old) (V.count view.old) g.now }
    requires levels { levels.old.fragment ≡ V.size view.old }
    ensures keeps { Keeps V.View view.old view.new }
    ensures levels { levels.new.fragment ≡ levels.old.fragment }
    ensures rule { Reads V.View view.old view.new (find_of g.now inode.now name.now) (answered refusal_of result) }
    ensures consults { Consults V.View view.old view.new (find_of g.now inode.now name.now) (IsUnread result) }
{
    match directory_fault(inode) {
        Some(fault) => Err(fault),
        None => find_in_blocks(view, g, inode, name, block_count(g, inode), levels),
    }
}
