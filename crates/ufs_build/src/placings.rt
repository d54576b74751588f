// The places of the blocks of files.
ghost use Rattle.std.specs.Prelude.{◌≡◌, ◌≤◌, ◌<◌, ◌+◌, ◌*◌, ◌^◌, ◌==◌, ◌++◌, ◌∷◌, [], IfOk, IfSome, OnOk, MatchOption, Some, None, length};
ghost use Rattle.std.specs.List.{list_all};
ghost use Rattle.ufs_build.specs.Placements.{block_bytes, blocks_of, fragments_of, is_hole, placed_file, with_block, with_block_above, with_block_or_hole, with_file_block, with_files};
ghost use Rattle.ufs_build.specs.Placings.{Tells, TellsFile, all_in, file_of, files_of, placed_in};
ghost use Rattle.ufs_build.specs.Spaces.{IsSearched};
ghost use Rattle.ufs_model.specs.Geometries.{IsGeometry};

use crate::addresses::{DIRECT, FileAddresses, count_through, first_through};
use crate::files::Node;
use crate::spaces::{Space, take_run};
use dg_model::NoMemory;
use std::alloc::Global;
use ufs_model::Geometry;

/// Gives the block at a level an address, unless it has one. False where there is no room.
#[tactic(auto, unfolding(crate::specs::Placements::with_block))]
fn place(
    space: &mut Space,
    addresses: &mut FileAddresses,
    g: &Geometry,
    level: u32,
    index: u64,
    count: u32,
) -> bool
    requires geometry { IsGeometry g.now }
    requires count { count < 9 }
    requires searched { IsSearched g.now space.old.used.items space.old.searched.items }
    ensures placed { Tells result (with_block g.now level index count (placed_in space.old addresses.old)) (placed_in space.new addresses.new) }
    ensures searched { IsSearched g.now space.new.used.items space.new.searched.items }
{
    if addresses.at(level, index) != 0 {
        return true;
    }
    let Some(address) = take_run(space, g, count) else {
        return false;
    };
    addresses.set(level, index, address);
    true
}

/// Places the indirect block at a level above a file block, if there is one.
#[tactic(auto, unfolding(crate::specs::Placements::with_block_above))]
fn place_above(
    space: &mut Space,
    addresses: &mut FileAddresses,
    g: &Geometry,
    level: u32,
    n: u64,
) -> bool
    requires geometry { IsGeometry g.now }
    requires searched { IsSearched g.now space.old.used.items space.old.searched.items }
    ensures placed { Tells result (with_block_above g.now level n (placed_in space.old addresses.old)) (placed_in space.new addresses.new) }
    ensures searched { IsSearched g.now space.new.used.items space.new.searched.items }
{
    let first = first_through(g, level);
    if n < first {
        return true;
    }
    let index = (n - first) / count_through(g, level);
    place(space, addresses, g, level, index, g.frag)
}

/// The fragments of a file block of a file of so many bytes.
#[tactic(auto, unfolding(crate::specs::Placements::fragments_of))]
fn fragments_of(g: &Geometry, size: u64, n: u64) -> u32
    requires geometry { IsGeometry g.now }
    requires start { n * g.now.bsize < 2 ^ 63 }
    ensures value { result ≡ fragments_of g.now size n }
    ensures few { result < 9 }
{
    let start = n * u64::from(g.bsize);
    let end = start + u64::from(g.bsize);
    if DIRECT <= n || end <= size {
        return g.frag;
    }
    let left = size.saturating_sub(start) as u32;
    left.div_ceil(g.fsize)
}

/// Places a file block, and before it the indirect blocks above it, the highest first.
#[tactic(auto, unfolding(crate::specs::Placements::with_file_block))]
fn place_block(
    space: &mut Space,
    addresses: &mut FileAddresses,
    g: &Geometry,
    size: u64,
    n: u64,
) -> bool
    requires geometry { IsGeometry g.now }
    requires start { n * g.now.bsize < 2 ^ 63 }
    requires searched { IsSearched g.now space.old.used.items space.old.searched.items }
    ensures placed { Tells result (with_file_block g.now size n (placed_in space.old addresses.old)) (placed_in space.new addresses.new) }
    ensures searched { IsSearched g.now space.new.used.items space.new.searched.items }
{
    if !place_above(space, addresses, g, 3, n) {
        return false;
    }
    if !place_above(space, addresses, g, 2, n) {
        return false;
    }
    if !place_above(space, addresses, g, 1, n) {
        return false;
    }
    place(space, addresses, g, 0, n, fragments_of(g, size, n))
}

/// The blocks of a file.
#[tactic(auto, unfolding(crate::specs::Placements::blocks_of))]
pub fn blocks_of(g: &Geometry, node: &Node<'_>) -> u64
    requires { IsGeometry g.now }
    ensures { result ≡ blocks_of g.now (file_of node.now) }
{
    if node.inside {
        return 0;
    }
    (node.bytes.len() as u64).div_ceil(u64::from(g.bsize))
}

/// The bytes of a file block.
pub fn block_bytes<'a>(g: &Geometry, bytes: &'a [u8], n: u64) -> &'a [u8]
    requires start { n * g.now.bsize < 2 ^ 63 }
    ensures { result.now ≡ block_bytes g.now bytes.now n }
{
    let start = n as usize * g.bsize as usize;
    let (_, rest) = bytes.split_at(start.min(bytes.len()));
    let (block, _) = rest.split_at((g.bsize as usize).min(rest.len()));
    block
}

/// Whether all bytes are zero.
fn are_zero(bytes: &[u8]) -> bool
    ensures { result ≡ list_all (λ byte. byte == 0) bytes.now }
{
    bytes.iter().all(|byte| *byte == 0)
}

/// Whether a file block is whole, all zero, and in a sparse file.
#[tactic(auto, unfolding(crate::specs::Placements::is_hole))]
fn is_hole(g: &Geometry, node: &Node<'_>, n: u64) -> bool
    requires start { n * g.now.bsize < 2 ^ 63 }
    ensures { result ≡ is_hole g.now (file_of node.now) n }
{
    let bytes = node.bytes;
    let end = n as usize * g.bsize as usize + g.bsize as usize;
    node.sparse && end <= bytes.len() && are_zero(block_bytes(g, bytes, n))
}

/// Places a file block, unless it is a hole.
fn place_unless_hole(
    space: &mut Space,
    addresses: &mut FileAddresses,
    g: &Geometry,
    node: &Node<'_>,
    n: u64,
) -> bool
    requires geometry { IsGeometry g.now }
    requires start { n * g.now.bsize < 2 ^ 63 }
    requires searched { IsSearched g.now space.old.used.items space.old.searched.items }
    ensures placed { Tells result (with_block_or_hole g.now (file_of node.now) n (placed_in space.old addresses.old)) (placed_in space.new addresses.new) }
    ensures searched { IsSearched g.now space.new.used.items space.new.searched.items }
{
    if is_hole(g, node, n) {
        return true;
    }
    place_block(space, addresses, g, node.bytes.len() as u64, n)
}

/// Places the blocks of a file. There are no addresses where there is no room.
#[tactic(auto, unfolding(crate::specs::Placements::placed_file))]
fn place_file(
    alloc: Global,
    space: &mut Space,
    g: &Geometry,
    node: &Node<'_>,
) -> Result<Option<FileAddresses>, NoMemory>
    requires geometry { IsGeometry g.now }
    requires searched { IsSearched g.now space.old.used.items space.old.searched.items }
    ensures placed { IfOk result (λ found. TellsFile found (placed_file g.now (file_of node.now) space.old.used.items) space.new) }
    ensures searched { IsSearched g.now space.new.used.items space.new.searched.items }
{
    let blocks = blocks_of(g, node);
    let mut addresses = FileAddresses::new(alloc, g, blocks)?;
    for n in 0..blocks {
        if !place_unless_hole(space, &mut addresses, g, node, n) {
            return Ok(None);
        }
    }
    Ok(Some(addresses))
}

/// Places the blocks of all files. There are no addresses where there is no room.
pub fn place_files(
    alloc: Global,
    space: &mut Space,
    g: &Geometry,
    nodes: &[Node<'_>],
) -> Result<Option<Vec<FileAddresses>>, NoMemory>
    requires geometry { IsGeometry g.now }
    requires searched { IsSearched g.now space.old.used.items space.old.searched.items }
    ensures placed { IfOk result (λ found. MatchOption found (with_files g.now (files_of nodes.now) (all_in space.old []) ≡ None)
        (λ files. with_files g.now (files_of nodes.now) (all_in space.old []) ≡ Some (all_in space.new files.items))) }
    ensures each { IfOk result (λ found. IfSome found (λ files. length files.items ≡ length nodes.now)) }
{
    let mut files = Vec::new(alloc);
    for k in 0..nodes.len() {
        let Some(addresses) = place_file(alloc, space, g, &nodes[k])? else {
            return Ok(None);
        };
        push_addresses(&mut files, addresses)?;
    }
    Ok(Some(files))
}

/// Appends the addresses of a file.
fn push_addresses(files: &mut Vec<FileAddresses>, addresses: FileAddresses) -> Result<(), NoMemory>
    ensures { OnOk result (files.new.items ≡ files.old.items ++ addresses ∷ []) }
{
    match files.push(addresses) {
        Ok(()) => Ok(()),
        Err(_) => Err(NoMemory),
    }
}
