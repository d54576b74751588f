// The chunks of a directory, and the inodes that its entries name.
ghost use Rattle.std.specs.Prelude.{◌≡◌, ◌*◌, ◌≤◌, IfNone, IfSome, length};
ghost use Rattle.std.specs.List.{list_any};
ghost use Rattle.dg_io.specs.ViewWords.{Keeps};
ghost use Rattle.ufs_model.specs.Blocks.{Volume};
ghost use Rattle.ufs_model.specs.Geometries.{IsGeometryOn};
ghost use Rattle.ufs_model.specs.Malformations.{inode_at};
ghost use Rattle.ufs_model.specs.Metadata.{IsMetadataBy};
ghost use Rattle.ufs_model.specs.Paths.{chunks_in};
ghost use Rattle.ufs_check.specs.Entries.{is_refused};
ghost use Rattle.ufs_pointer.specs.ViewWords.{FetchesKind, LosesKind};

use dg_io::View;
use ufs_dir::{CHUNK_BYTES, check};
use ufs_inode::{inode_at, place_of};
use ufs_model::{Endian, Geometry, Inode, ROOT_INODE};
use ufs_pointer::Levels;

/// An inode, if it is one from 2 to the last, and allocated. There is no answer where its block is gone.
pub fn read_named<V: View>(
    view: &mut V,
    g: &Geometry,
    number: u32,
    levels: &mut Levels,
) -> Option<Option<Inode>>
    requires sound { V.is_sound view.old }
    requires geometry { IsGeometryOn (V.size view.old) (V.count view.old) g.now }
    requires levels { levels.old.fragment ≡ V.size view.old }
    ensures keeps { Keeps V.View view.old view.new }
    ensures levels { levels.new.fragment ≡ levels.old.fragment }
    ensures block { levels.new.block ≡ levels.old.block }
    ensures found { IfSome result (λ named. V.tells view.new → (v : Volume) → V.stands_for view.old v → named ≡ inode_at g.now v number) }
    ensures gone { IfNone result (LosesKind V.View view.old view.new (IsMetadataBy g.now)) }
    ensures fetched { FetchesKind V.View view.old view.new (IsMetadataBy g.now) }
{
    if number < ROOT_INODE || g.ncg * g.ipg <= number {
        return Some(None);
    }
    let (block, byte) = place_of(g, number);
    if !levels.read_aside(view, block) {
        return None;
    }
    Some(inode_at(levels.aside(), byte, g.endian))
}

/// A chunk is refused.
fn is_refused(chunk: &[u8], endian: Endian) -> bool
    requires { length chunk.now ≡ CHUNK_BYTES }
    ensures { result ≡ is_refused endian chunk.now }
{
    check(chunk, endian).is_some()
}

/// One of the first `count` chunks of a block is refused.
pub fn has_refused(bytes: &[u8], count: usize, endian: Endian) -> bool
    requires { count * 512 ≤ length bytes.now }
    ensures { result ≡ list_any (is_refused endian) (chunks_in count bytes.now) }
{
    for i in 0..count {
        let start = i * CHUNK_BYTES;
        if is_refused(&bytes[start..start + CHUNK_BYTES], endian) {
            return true;
        }
    }
    false
}
