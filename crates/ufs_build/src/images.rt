// The bytes of a volume.
ghost use Rattle.std.specs.Prelude.{◌≡◌, ◌≤◌, ◌<◌, ◌+◌, ◌*◌, ◌^◌, IfOk, OnOk, length};
ghost use Rattle.ufs_build.specs.Images.{block_parts, data_parts, file_parts, first_below, group_fields, group_parts, indirect_parts, inode_parts};
ghost use Rattle.ufs_build.specs.Images.{inode_place, level_parts, pointer_parts, slot_address, slot_parts, volume_bytes, volume_parts};
ghost use Rattle.std.specs.List.{flat_map, range_with_len};
ghost use Rattle.ufs_build.specs.Placements.{address_at, blocks_of};
ghost use Rattle.ufs_build.specs.Parts.{put_parts};
ghost use Rattle.ufs_build.specs.Placings.{file_of, files_of};
ghost use Rattle.ufs_model.specs.Geometries.{IsGeometry};

use crate::addresses::FileAddresses;
use crate::files::Node;
use crate::maps::{fragment_bits, inode_bits, map_bytes};
use crate::parents::ROOT;
use crate::parts::{Field, put, put_fields, put_u16, put_u32, put_u64};
use crate::placings::{block_bytes, blocks_of};
use crate::volumes::{IUSEDOFF, freeoff_of, put_superblock};
use dg_model::NoMemory;
use std::alloc::Global;
use ufs_inode::place_of;
use ufs_model::Geometry;
use ufs_super::cgstart;

/// The first byte of the superblock (`SBOFF`).
const SUPERBLOCK: usize = 8192;

/// The byte of an inode at which its slots begin, and how many there are.
const SLOTS: usize = 40;

const SLOT_COUNT: u32 = 15;

/// The fields of a group block.
#[tactic(auto, unfolding(crate::specs::Images::group_fields))]
fn group_fields(g: &Geometry, c: u32) -> [Field; 5]
    ensures { result ≡ group_fields g.now c }
{
    [
        Field {
            at: 4,
            value: 0x0009_0255,
        },
        Field { at: 12, value: c },
        Field {
            at: 20,
            value: g.fpg,
        },
        Field {
            at: 92,
            value: IUSEDOFF,
        },
        Field {
            at: 96,
            value: freeoff_of(g.ipg),
        },
    ]
}

/// Puts the block of a group.
#[tactic(auto, unfolding(crate::specs::Images::group_parts), using(crate::proofs::PartLaws::group_put))]
fn put_group(
    alloc: Global,
    image: &mut [u8],
    g: &Geometry,
    inodes: u64,
    used: &[bool],
    c: u32,
) -> Result<(), NoMemory>
    requires geometry { IsGeometry g.now }
    requires group { c < g.now.ncg }
    ensures { OnOk result (image.new ≡ put_parts (group_parts g.now inodes used.now c) image.old) }
{
    let inode_list = inode_bits(alloc, g, c, inodes)?;
    let inode_map = map_bytes(alloc, &inode_list)?;
    let fragment_list = fragment_bits(alloc, g, c, used)?;
    let fragment_map = map_bytes(alloc, &fragment_list)?;
    let at = (cgstart(g, c) as usize + g.cblkno as usize) * g.fsize as usize;
    let fields = group_fields(g, c);
    put_fields(image, at, &fields, g.endian);
    put(image, at + IUSEDOFF as usize, &inode_map);
    put(image, at + freeoff_of(g.ipg) as usize, &fragment_map);
    Ok(())
}

/// What stands in a slot of an inode.
fn slot_address(addresses: &FileAddresses, slot: u32) -> u32
    requires { slot < 15 }
    ensures { result ≡ slot_address addresses.now slot }
{
    if slot < 12 {
        addresses.at(0, u64::from(slot))
    } else {
        addresses.at(slot - 11, 0)
    }
}

/// Puts the slots of an inode.
fn put_slots(image: &mut [u8], g: &Geometry, at: usize, addresses: &FileAddresses)
    requires { at < 2 ^ 62 }
    ensures { image.new ≡ put_parts (flat_map (slot_parts g.now at addresses.now) (range_with_len 0 15)) image.old }
{
    for slot in 0..SLOT_COUNT {
        let address = slot_address(addresses, slot);
        put_u32(image, at + SLOTS + 4 * slot as usize, address, g.endian);
    }
}

/// Puts an inode.
#[tactic(auto, unfolding(crate::specs::Images::inode_parts))]
fn put_inode(image: &mut [u8], g: &Geometry, at: usize, node: &Node<'_>, addresses: &FileAddresses)
    requires { at < 2 ^ 62 }
    ensures { image.new ≡ put_parts (inode_parts g.now at (file_of node.now) addresses.now) image.old }
{
    put_u16(image, at, node.mode, g.endian);
    put_u16(image, at + 2, 1, g.endian);
    put_u64(image, at + 8, node.bytes.len() as u64, g.endian);
    if node.inside {
        put(image, at + SLOTS, node.bytes);
    } else {
        put_slots(image, g, at, addresses);
    }
}

/// Puts the bytes of a file block, where it isn't a hole.
fn put_block(image: &mut [u8], g: &Geometry, node: &Node<'_>, addresses: &FileAddresses, n: u64)
    requires { n * g.now.bsize < 2 ^ 63 }
    ensures { image.new ≡ put_parts (data_parts g.now (file_of node.now) addresses.now n) image.old }
{
    let address = addresses.at(0, n);
    if address != 0 {
        let at = address as usize * g.fsize as usize;
        put(image, at, block_bytes(g, node.bytes, n));
    }
}

/// The number, at the level below, of the first block that an indirect block leads to.
fn first_below(g: &Geometry, level: u32, index: u64) -> u64
    requires { index < 2 ^ 31 }
    ensures value { result ≡ first_below level + index * g.now.nindir }
    ensures small { result < 2 ^ 63 + 12 }
{
    let first: u64 = if level == 1 { 12 } else { 1 };
    first + index * u64::from(g.nindir)
}

/// Puts the pointers of an indirect block at an address.
fn put_pointers(
    image: &mut [u8],
    g: &Geometry,
    addresses: &FileAddresses,
    level: u32,
    index: u64,
    address: u32,
)
    requires geometry { IsGeometry g.now }
    requires level { 1 ≤ level }
    requires index { index < 2 ^ 31 }
    requires address { address ≡ address_at addresses.now level index }
    ensures { image.new ≡ put_parts (flat_map (pointer_parts g.now addresses.now level index) (range_with_len 0 g.now.nindir)) image.old }
{
    let start = address as usize * g.fsize as usize;
    let first = first_below(g, level, index);
    for i in 0..g.nindir {
        let pointer = addresses.at(level - 1, first + u64::from(i));
        put_u32(image, start + 4 * i as usize, pointer, g.endian);
    }
}

/// Puts the pointers of an indirect block, if there is one.
fn put_indirect(image: &mut [u8], g: &Geometry, addresses: &FileAddresses, level: u32, index: u64)
    requires geometry { IsGeometry g.now }
    requires level { 1 ≤ level }
    requires index { index < 2 ^ 31 }
    ensures { image.new ≡ put_parts (indirect_parts g.now addresses.now level index) image.old }
{
    let address = addresses.at(level, index);
    if address != 0 {
        put_pointers(image, g, addresses, level, index, address);
    }
}

/// Puts the indirect blocks of a level. There is no memory for 2^31 of them.
fn put_level(
    image: &mut [u8],
    g: &Geometry,
    addresses: &FileAddresses,
    level: u32,
) -> Result<(), NoMemory>
    requires geometry { IsGeometry g.now }
    requires level { 1 ≤ level }
    ensures { OnOk result (image.new ≡ put_parts (level_parts g.now addresses.now level) image.old) }
{
    let count = addresses.of_level(level).len();
    if count >= 1 << 31 {
        return Err(NoMemory);
    }
    for index in 0..count {
        put_indirect(image, g, addresses, level, index as u64);
    }
    Ok(())
}

/// Puts the bytes of a file.
fn put_bytes(image: &mut [u8], g: &Geometry, node: &Node<'_>, addresses: &FileAddresses)
    requires { IsGeometry g.now }
    ensures { image.new ≡ put_parts (flat_map (data_parts g.now (file_of node.now) addresses.now)
        (range_with_len 0 (blocks_of g.now (file_of node.now)))) image.old }
{
    for n in 0..blocks_of(g, node) {
        put_block(image, g, node, addresses, n);
    }
}

/// Puts the blocks of a file.
#[tactic(auto, unfolding(crate::specs::Images::block_parts), using(crate::proofs::PartLaws::joined))]
fn put_blocks(
    image: &mut [u8],
    g: &Geometry,
    node: &Node<'_>,
    addresses: &FileAddresses,
) -> Result<(), NoMemory>
    requires { IsGeometry g.now }
    ensures { OnOk result (image.new ≡ put_parts (block_parts g.now (file_of node.now) addresses.now) image.old) }
{
    put_bytes(image, g, node, addresses);
    put_level(image, g, addresses, 1)?;
    put_level(image, g, addresses, 2)?;
    put_level(image, g, addresses, 3)?;
    Ok(())
}

/// The first byte of an inode.
#[tactic(auto, unfolding(crate::specs::Images::inode_place))]
fn inode_place(g: &Geometry, inode: u32) -> usize
    requires geometry { IsGeometry g.now }
    requires number { inode < g.now.ncg * g.now.ipg }
    ensures place { result ≡ inode_place g.now inode }
    ensures small { result < 2 ^ 62 }
{
    let (block, byte) = place_of(g, inode);
    block as usize * g.fsize as usize + byte as usize
}

/// Puts the inode of a file and its blocks.
fn put_file(
    image: &mut [u8],
    g: &Geometry,
    inode: u32,
    node: &Node<'_>,
    addresses: &FileAddresses,
) -> Result<(), NoMemory>
    requires geometry { IsGeometry g.now }
    requires number { inode < g.now.ncg * g.now.ipg }
    ensures { OnOk result (image.new ≡ put_parts (block_parts g.now (file_of node.now) addresses.now)
        (put_parts (inode_parts g.now (inode_place g.now inode) (file_of node.now) addresses.now) image.old)) }
{
    let at = inode_place(g, inode);
    put_inode(image, g, at, node, addresses);
    put_blocks(image, g, node, addresses)?;
    Ok(())
}

/// Puts the inodes of files and their blocks.
fn put_files(
    image: &mut [u8],
    g: &Geometry,
    nodes: &[Node<'_>],
    files: &[FileAddresses],
) -> Result<(), NoMemory>
    requires geometry { IsGeometry g.now }
    requires few { length nodes.now + 2 ≤ g.now.ncg * g.now.ipg }
    requires each { length nodes.now ≡ length files.now }
    ensures { OnOk result (image.new ≡ put_parts (file_parts g.now 2 (files_of nodes.now) files.now) image.old) }
{
    for k in 0..nodes.len() {
        put_file(image, g, k as u32 + ROOT, &nodes[k], &files[k])?;
    }
    Ok(())
}

/// Puts the blocks of all groups.
fn put_groups(
    alloc: Global,
    image: &mut [u8],
    g: &Geometry,
    inodes: u64,
    used: &[bool],
) -> Result<(), NoMemory>
    requires { IsGeometry g.now }
    ensures { OnOk result (image.new ≡ put_parts (flat_map (group_parts g.now inodes used.now) (range_with_len 0 g.now.ncg)) image.old) }
{
    for c in 0..g.ncg {
        put_group(alloc, image, g, inodes, used, c)?;
    }
    Ok(())
}

/// Puts all parts of a volume.
#[tactic(auto, unfolding(crate::specs::Images::volume_parts))]
fn put_volume(
    alloc: Global,
    image: &mut [u8],
    g: &Geometry,
    nodes: &[Node<'_>],
    used: &[bool],
    files: &[FileAddresses],
) -> Result<(), NoMemory>
    requires geometry { IsGeometry g.now }
    requires few { length nodes.now + 2 ≤ g.now.ncg * g.now.ipg }
    requires each { length nodes.now ≡ length files.now }
    ensures { OnOk result (image.new ≡ put_parts (volume_parts g.now (files_of nodes.now) (record { used = used.now; files = files.now })) image.old) }
{
    put_superblock(image, SUPERBLOCK, g);
    put_groups(alloc, image, g, nodes.len() as u64 + 2, used)?;
    put_files(image, g, nodes, files)?;
    Ok(())
}

/// The bytes of a volume.
#[tactic(auto, unfolding(crate::specs::Images::volume_bytes))]
pub fn volume_bytes(
    alloc: Global,
    g: &Geometry,
    nodes: &[Node<'_>],
    used: &[bool],
    files: &[FileAddresses],
) -> Result<Vec<u8>, NoMemory>
    requires geometry { IsGeometry g.now }
    requires few { length nodes.now + 2 ≤ g.now.ncg * g.now.ipg }
    requires each { length nodes.now ≡ length files.now }
    ensures { IfOk result (λ image. image.items ≡ volume_bytes g.now (files_of nodes.now) (record { used = used.now; files = files.now })) }
{
    let Ok(mut image) = vec![in alloc; 0u8; g.size as usize * g.fsize as usize] else {
        return Err(NoMemory);
    };
    put_volume(alloc, &mut image, g, nodes, used, files)?;
    Ok(image)
}
