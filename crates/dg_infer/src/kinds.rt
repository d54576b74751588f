ghost use Rattle.std.specs.Prelude.{◌≡◌, ◌≢◌, ◌+◌, ◌*◌, ◌<◌, ◌≤◌, ◌==◌, ℕ, OnOk, cond, length, take, drop};
ghost use Rattle.ufs_model.specs.Blocks.{Volume, block_at};
ghost use Rattle.ufs_model.specs.Geometries.{IsGeometry};
ghost use Rattle.ufs_model.specs.Inodes.{inode_block, inode_in};
ghost use Rattle.dg_infer.specs.Claimed.{StandsIn};
ghost use Rattle.dg_infer.specs.Meanings.{kind_at, kind_by, pointing_kind};

use dg_claims::Geometry;
use dg_io::NoMemory;
use std::collections::BTreeMap;
use ufs_inode::{has_pointers, inode_at, inodes_near, place_of};
use ufs_model::{Kind, ROOT_INODE};

/// Makes this the kind that is kept of an inode.
fn set_kind(
    kinds: &mut BTreeMap<u32, Kind>,
    number: u32,
    kind: Option<Kind>,
) -> Result<(), NoMemory>
    ensures { OnOk result ((i : ℕ) → kind_at kinds.new.entries i ≡ cond (number == i) kind (kind_at kinds.old.entries i)) }
{
    match kind {
        Some(kind) => match kinds.insert(number, kind) {
            Ok(_) => Ok(()),
            Err(_) => Err(NoMemory),
        },
        None => {
            kinds.remove(&number);
            Ok(())
        }
    }
}

/// The kind of the inode at a byte of its block, where it has pointers.
fn kind_in(g: &Geometry, block: &[u8], byte: u32) -> Option<Kind>
    requires { byte + 128 ≤ length block.now }
    ensures { result ≡ pointing_kind g.now (inode_in g.now.endian (take 128 (drop byte block.now))) }
{
    match inode_at(block, byte, g.endian) {
        Some(inode) => {
            if has_pointers(g, &inode) {
                Some(inode.kind())
            } else {
                None
            }
        }
        None => None,
    }
}

/// The kind of an inode is that in the bytes of its block.
fn move_kind(
    kinds: &mut BTreeMap<u32, Kind>,
    g: &Geometry,
    number: u32,
    bytes: &[u8],
) -> Result<(), NoMemory>
    requires geometry { IsGeometry g.now }
    requires bytes { length bytes.now ≡ g.now.fsize }
    requires inside { number < g.now.ncg * g.now.ipg }
    ensures here { OnOk result (2 ≤ number → (v : Volume) → bytes.now ≡ block_at g.now.fsize v (inode_block g.now number)
        → kind_at kinds.new.entries number ≡ kind_by g.now v number) }
    ensures others { OnOk result ((i : ℕ) → (2 ≤ number → i ≢ number) → kind_at kinds.new.entries i ≡ kind_at kinds.old.entries i) }
{
    if number < ROOT_INODE {
        return Ok(());
    }
    let (_, byte) = place_of(g, number);
    set_kind(kinds, number, kind_in(g, bytes, byte))
}

/// The kinds of all inodes in a block are those in its bytes.
pub fn move_kinds(
    kinds: &mut BTreeMap<u32, Kind>,
    g: &Geometry,
    block: u32,
    bytes: &[u8],
) -> Result<(), NoMemory>
    requires geometry { IsGeometry g.now }
    requires bytes { length bytes.now ≡ g.now.fsize }
    ensures here { OnOk result ((v : Volume) → bytes.now ≡ block_at g.now.fsize v block
        → (i : ℕ) → StandsIn g.now i block → kind_at kinds.new.entries i ≡ kind_by g.now v i) }
    ensures others { OnOk result ((i : ℕ) → (StandsIn g.now i block → ⊥) → kind_at kinds.new.entries i ≡ kind_at kinds.old.entries i) }
{
    let (first, end) = inodes_near(g, block);
    for number in first..end {
        move_kind(kinds, g, number, bytes)?;
    }
    Ok(())
}
