// Paths.
ghost use Rattle.std.specs.Prelude.{◌≡◌, ◌+◌, ◌*◌, ◌<◌, ◌≤◌, Some, drop, length, take, true};
ghost use Rattle.std.specs.Option.{ok_or};
ghost use Rattle.dg_io.specs.ViewWords.{Keeps, Reads};
ghost use Rattle.ufs_model.specs.Geometries.{IsGeometryOn};
ghost use Rattle.ufs_model.specs.Inodes.{inode_in};
ghost use Rattle.ufs_model.specs.Paths.{allocated, is_path, look_from, look_of, named_inode, names_after, names_of};
ghost use Rattle.ufs_model.specs.Readings.{answered};
ghost use Rattle.ufs_model.specs.declared.numbers.Endian.TheVariants.{Little};
ghost use Rattle.ufs_model.specs.declared.reads.BadRead.TheVariants.{Entry};
ghost use Rattle.ufs_model.specs.declared.reads.PathRefusal.TheVariants.{Bad};
ghost use Rattle.ufs_path.specs.Answers.{refusal_of};
ghost use Rattle.ufs_path.specs.Consults.{Consults, IsUnread};

use crate::directories::find_name;
use crate::faults::LookFault;
use crate::superblocks::geometry;
use dg_io::View;
use ufs_inode::{inode_at, place_of};
use ufs_model::{BadRead, Endian, Geometry, Inode, ROOT_INODE, next_name, path_names};
use ufs_pointer::Levels;

/// The inode at a byte of its block. It has to be allocated.
fn allocated_at(block: &[u8], byte: u32, endian: Endian) -> Result<Inode, LookFault>
    requires { byte + 128 ≤ length block.now }
    ensures value { answered refusal_of result ≡ Some (ok_or (inode_in endian (take 128 (drop byte block.now))) (Bad Entry)) }
    ensures read { IsUnread result → ⊥ }
{
    match inode_at(block, byte, endian) {
        Some(inode) => Ok(inode),
        None => Err(LookFault::Bad(BadRead::Entry)),
    }
}

/// An inode of the volume, which has to be allocated. The block of data stays.
#[tactic(auto, using(crate::proofs::LookLaws::inode_read, crate::proofs::LookLaws::inode_unread))]
fn read_allocated<V: View>(
    view: &mut V,
    g: &Geometry,
    number: u32,
    levels: &mut Levels,
) -> Result<Inode, LookFault>
    requires sound { V.is_sound view.old }
    requires geometry { IsGeometryOn (V.size view.old) (V.count view.old) g.now }
    requires number { number < g.now.ncg * g.now.ipg }
    requires levels { levels.old.fragment ≡ V.size view.old }
    ensures keeps { Keeps V.View view.old view.new }
    ensures levels { levels.new.fragment ≡ levels.old.fragment }
    ensures block { levels.new.block ≡ levels.old.block }
    ensures rule { Reads V.View view.old view.new (allocated g.now number) (answered refusal_of result) }
    ensures consults { Consults V.View view.old view.new (allocated g.now number) (IsUnread result) }
{
    let (block, byte) = place_of(g, number);
    if !levels.read_aside(view, block) {
        return Err(LookFault::Unavailable);
    }
    allocated_at(levels.aside(), byte, g.endian)
}

/// An inode that a path leads to. The block of data stays.
#[tactic(auto, unfolding(ufs_model::specs::Paths::named_inode))]
pub fn read_named<V: View>(
    view: &mut V,
    g: &Geometry,
    number: u32,
    levels: &mut Levels,
) -> Result<Inode, LookFault>
    requires sound { V.is_sound view.old }
    requires geometry { IsGeometryOn (V.size view.old) (V.count view.old) g.now }
    requires levels { levels.old.fragment ≡ V.size view.old }
    ensures keeps { Keeps V.View view.old view.new }
    ensures levels { levels.new.fragment ≡ levels.old.fragment }
    ensures block { levels.new.block ≡ levels.old.block }
    ensures rule { Reads V.View view.old view.new (named_inode g.now number) (answered refusal_of result) }
    ensures consults { Consults V.View view.old view.new (named_inode g.now number) (IsUnread result) }
{
    if number < ROOT_INODE || g.ncg * g.ipg <= number {
        return Err(LookFault::Bad(BadRead::Entry));
    }
    read_allocated(view, g, number, levels)
}

/// The inode at a path, with its number.
fn follow_names<V: View>(
    view: &mut V,
    g: &Geometry,
    path: &[u8],
    levels: &mut Levels,
) -> Result<(u32, Inode), LookFault>
    requires sound { V.is_sound view.old }
    requires geometry { IsGeometryOn (V.size view.old) (V.count view.old) g.now }
    requires levels { levels.old.fragment ≡ V.size view.old }
    ensures keeps { Keeps V.View view.old view.new }
    ensures levels { levels.new.fragment ≡ levels.old.fragment }
    ensures rule { Reads V.View view.old view.new (look_from g.now (names_after path.now) 2) (answered refusal_of result) }
    ensures consults { Consults V.View view.old view.new (look_from g.now (names_after path.now) 2) (IsUnread result) }
{
    let mut number = ROOT_INODE;
    let mut rest = path;
    while !rest.is_empty() {
        let (name, after) = next_name(rest);
        let inode = read_named(view, g, number, levels)?;
        number = find_name(view, g, &inode, name, levels)?;
        rest = after;
    }
    let inode = read_named(view, g, number, levels)?;
    Ok((number, inode))
}

/// The inode at a path of the volume with a geometry, with its number.
pub fn look_below<V: View>(
    view: &mut V,
    g: &Geometry,
    path: &[u8],
    levels: &mut Levels,
) -> Result<(u32, Inode), LookFault>
    requires sound { V.is_sound view.old }
    requires geometry { IsGeometryOn (V.size view.old) (V.count view.old) g.now }
    requires levels { levels.old.fragment ≡ V.size view.old }
    requires path { is_path path.now ≡ true }
    ensures keeps { Keeps V.View view.old view.new }
    ensures levels { levels.new.fragment ≡ levels.old.fragment }
    ensures rule { Reads V.View view.old view.new (look_from g.now (names_of path.now) 2) (answered refusal_of result) }
    ensures consults { Consults V.View view.old view.new (look_from g.now (names_of path.now) 2) (IsUnread result) }
{
    follow_names(view, g, path_names(path), levels)
}

/// The inode at a path of the volume on a view, with its number. The buffers are for blocks of the
/// view's size.
pub fn look<V: View>(
    view: &mut V,
    levels: &mut Levels,
    path: &[u8],
) -> Result<(u32, Inode), LookFault>
    requires sound { V.is_sound view.old }
    requires levels { levels.old.fragment ≡ V.size view.old }
    requires path { is_path path.now ≡ true }
    ensures keeps { Keeps V.View view.old view.new }
    ensures levels { levels.new.fragment ≡ levels.old.fragment }
    ensures rule { Reads V.View view.old view.new (look_of (V.size view.old) (V.count view.old) path.now) (answered refusal_of result) }
    ensures consults { Consults V.View view.old view.new (look_of (V.size view.old) (V.count view.old) path.now) (IsUnread result) }
{
    let g = geometry(view, levels)?;
    look_below(view, &g, path, levels)
}
