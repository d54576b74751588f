// Which inodes are directories.
ghost use Rattle.std.specs.Prelude.{◌≡◌, ◌*◌, ◌<◌, IfNone, IfOk, IfSome};
ghost use Rattle.std.specs.Bool.{Decides};
ghost use Rattle.dg_io.specs.ViewWords.{Keeps};
ghost use Rattle.ufs_audit.specs.Holders.{AreMarks};
ghost use Rattle.ufs_audit.specs.Structures.{IsDirectoryOf};
ghost use Rattle.ufs_model.specs.Blocks.{Volume};
ghost use Rattle.ufs_model.specs.Geometries.{IsGeometryOn};
ghost use Rattle.ufs_model.specs.Metadata.{IsMetadataBy};
ghost use Rattle.ufs_pointer.specs.ViewWords.{FetchesKind, LosesKind};
ghost use Rattle.ufs_audit.specs.Structures.{is_directory_in};

use dg_io::{NoMemory, View};
use std::alloc::Global;
use ufs_check::{Geometry, Levels};
use ufs_inode::{inode_at, place_of};
use ufs_model::{Inode, Kind, ROOT_INODE};

/// Whether an inode is a directory's.
fn is_directory(inode: &Option<Inode>) -> bool
    ensures { result ≡ is_directory_in inode.now }
{
    match inode {
        Some(inode) => inode.kind() == Kind::Directory,
        None => false,
    }
}

/// Whether an inode is that of a directory. There is no answer where its block is gone.
fn read_directory<V: View>(
    view: &mut V,
    g: &Geometry,
    number: u32,
    levels: &mut Levels,
) -> Option<bool>
    requires sound { V.is_sound view.old }
    requires geometry { IsGeometryOn (V.size view.old) (V.count view.old) g.now }
    requires levels { levels.old.fragment ≡ V.size view.old }
    requires number { number < g.now.ncg * g.now.ipg }
    ensures keeps { Keeps V.View view.old view.new }
    ensures levels { levels.new.fragment ≡ levels.old.fragment }
    ensures found { IfSome result (λ is. V.tells view.new → (v : Volume) → V.stands_for view.old v → Decides is (IsDirectoryOf g.now v number)) }
    ensures gone { IfNone result (LosesKind V.View view.old view.new (IsMetadataBy g.now)) }
    ensures fetched { FetchesKind V.View view.old view.new (IsMetadataBy g.now) }
{
    if number < ROOT_INODE {
        return Some(false);
    }
    let (block, byte) = place_of(g, number);
    if !levels.read_aside(view, block) {
        return None;
    }
    Some(is_directory(&inode_at(levels.aside(), byte, g.endian)))
}

/// A mark for each inode that is a directory's. There is no answer where a block with inodes is gone.
pub fn find_directories<V: View>(
    alloc: Global,
    view: &mut V,
    g: &Geometry,
    levels: &mut Levels,
) -> Result<Option<Vec<bool>>, NoMemory>
    requires sound { V.is_sound view.old }
    requires geometry { IsGeometryOn (V.size view.old) (V.count view.old) g.now }
    requires levels { levels.old.fragment ≡ V.size view.old }
    ensures keeps { Keeps V.View view.old view.new }
    ensures levels { levels.new.fragment ≡ levels.old.fragment }
    ensures found { IfOk result (λ answer. IfSome answer (λ marks. V.tells view.new → (v : Volume) → V.stands_for view.old v
        → AreMarks (IsDirectoryOf g.now v) (g.now.ncg * g.now.ipg) marks.items)) }
    ensures gone { IfOk result (λ answer. IfNone answer (LosesKind V.View view.old view.new (IsMetadataBy g.now))) }
    ensures fetched { FetchesKind V.View view.old view.new (IsMetadataBy g.now) }
{
    let mut marks = Vec::new(alloc);
    for number in 0..g.ncg * g.ipg {
        let Some(mark) = read_directory(view, g, number, levels) else {
            return Ok(None);
        };
        if marks.push(mark).is_err() {
            return Err(NoMemory);
        }
    }
    Ok(Some(marks))
}
