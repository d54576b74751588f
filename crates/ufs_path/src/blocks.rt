// File blocks, and why the contents of an inode aren't read.
ghost use Rattle.std.specs.Prelude.{◌≡◌, ◌^◌, ◌<◌, ◌≤◌, length, IfOk, IfNone, IfSome, Some};
ghost use Rattle.std.specs.Option.{option_map};
ghost use Rattle.dg_io.specs.ViewWords.{Keeps, Reads};
ghost use Rattle.ufs_model.specs.Geometries.{IsGeometryOn};
ghost use Rattle.ufs_model.specs.Paths.{block_of, bytes_in_block, directory_refusal, file_refusal};
ghost use Rattle.ufs_path.specs.Answers.{refusal_of};
ghost use Rattle.ufs_path.specs.Parts.{IfData, block_said};
ghost use Rattle.ufs_path.specs.Consults.{Consults, IsUnavailable, IsUnread};

use crate::faults::LookFault;
use dg_io::View;
use ufs_dir::CHUNK_BYTES;
use ufs_model::{BadRead, Geometry, Inode, Kind, PathRefusal};
use ufs_pointer::{FileBlock, Levels, read_file_block};

/// Files of so many bytes aren't read, nor longer ones.
const TOO_LONG: u64 = 1 << 32;

/// What there is of a file block that could be read.
#[derive(Clone, Copy)]
pub enum BlockContents {
    /// Its bytes are in the buffer.
    Data,
    /// It reads as zeros.
    Hole,
}

/// Why the contents of an inode aren't read, if they aren't.
#[tactic(auto, unfolding(ufs_model::specs::Paths::file_refusal))]
pub fn file_refusal(inode: &Inode) -> Option<PathRefusal>
    ensures value { result ≡ file_refusal inode.now }
    ensures small { IfNone result (inode.now.size < 2 ^ 32) }
{
    match inode.kind() {
        Kind::Regular => {
            if TOO_LONG <= inode.size {
                return Some(PathRefusal::Bad(BadRead::Filesize));
            }
            None
        }
        Kind::Directory
        | Kind::Link
        | Kind::Pipe
        | Kind::Character
        | Kind::Block
        | Kind::Socket
        | Kind::Unknown => Some(PathRefusal::NotRegular),
    }
}

/// Why no entries are read of an inode, if none are.
#[tactic(auto, unfolding(ufs_model::specs::Paths::directory_refusal))]
pub fn directory_fault(inode: &Inode) -> Option<LookFault>
    ensures value { option_map refusal_of result ≡ option_map Some (directory_refusal inode.now) }
    ensures small { IfNone result (inode.now.size < 2 ^ 32) }
    ensures read { IfSome result (λ fault. IsUnavailable fault → ⊥) }
{
    match inode.kind() {
        Kind::Directory => {
            if TOO_LONG <= inode.size {
                return Some(LookFault::Bad(BadRead::Filesize));
            }
            if inode.size % CHUNK_BYTES as u64 != 0 {
                return Some(LookFault::Bad(BadRead::Chunk));
            }
            None
        }
        Kind::Regular
        | Kind::Link
        | Kind::Pipe
        | Kind::Character
        | Kind::Block
        | Kind::Socket
        | Kind::Unknown => Some(LookFault::NotDirectory),
    }
}

/// Reads file block `n`, with every fragment that it claims. Where it is a hole, the buffer has any
/// bytes.
pub fn read_block<V: View>(
    view: &mut V,
    g: &Geometry,
    inode: &Inode,
    n: u32,
    levels: &mut Levels,
) -> Result<BlockContents, LookFault>
    requires sound { V.is_sound view.old }
    requires geometry { IsGeometryOn (V.size view.old) (V.count view.old) g.now }
    requires levels { levels.old.fragment ≡ V.size view.old }
    requires block { n < 2 ^ 30 }
    ensures keeps { Keeps V.View view.old view.new }
    ensures levels { levels.new.fragment ≡ levels.old.fragment }
    ensures rule { Reads V.View view.old view.new (block_of g.now inode.now n) (block_said result levels.new.block) }
    ensures consults { Consults V.View view.old view.new (block_of g.now inode.now n) (IsUnread result) }
    ensures covered { IfOk result (λ found. IfData found (bytes_in_block g.now inode.now n ≤ length levels.new.block)) }
{
    match read_file_block(view, g, inode, n, levels) {
        Some(FileBlock::Data) => Ok(BlockContents::Data),
        Some(FileBlock::Hole) => Ok(BlockContents::Hole),
        Some(FileBlock::Wild) => Err(LookFault::Bad(BadRead::Wild)),
        None => Err(LookFault::Unavailable),
    }
}
