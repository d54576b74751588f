// Maps of bits.
ghost use Rattle.std.specs.Prelude.{◌≡◌, ◌≤◌, ◌<◌, ◌+◌, ◌*◌, ◌^◌, ◌++◌, ◌∷◌, [], false, nat_lt, not, ◌&&◌, slice_index_or, IfOk, OnOk, length};
ghost use Rattle.ufs_build.specs.Images.{bit_sum, fragment_bits, inode_bits, map_bytes};
ghost use Rattle.ufs_build.specs.Placements.{is_used};
ghost use Rattle.ufs_model.specs.Geometries.{IsGeometry};
ghost use Rattle.ufs_model.specs.Roles.{is_data_of, role};

use dg_model::NoMemory;
use std::alloc::Global;
use ufs_model::{Geometry, Role};
use ufs_super::{cgbase, role};

/// A bit of a list, or false past its end.
fn bit_at(bits: &[bool], index: usize) -> bool
    ensures { result ≡ slice_index_or bits.now index false }
{
    match bits.get(index) {
        Some(bit) => *bit,
        None => false,
    }
}

/// The byte of eight bits from a place on, the first in its lowest bit.
fn byte_at(bits: &[bool], start: usize) -> u8
    requires { start < 2 ^ 63 }
    ensures { result ≡ bit_sum bits.now start 8 }
{
    let mut byte = 0;
    for i in 0..8usize {
        if bit_at(bits, start + i) {
            byte += 1 << i;
        }
    }
    byte
}

/// Bits in bytes.
#[tactic(auto, unfolding(crate::specs::Images::map_bytes))]
pub fn map_bytes(alloc: Global, bits: &[bool]) -> Result<Vec<u8>, NoMemory>
    ensures { IfOk result (λ bytes. bytes.items ≡ map_bytes bits.now) }
{
    let mut bytes = Vec::new(alloc);
    for j in 0..bits.len().div_ceil(8) {
        push_byte(&mut bytes, byte_at(bits, 8 * j))?;
    }
    Ok(bytes)
}

/// Appends a byte.
fn push_byte(bytes: &mut Vec<u8>, byte: u8) -> Result<(), NoMemory>
    ensures { OnOk result (bytes.new.items ≡ bytes.old.items ++ byte ∷ []) }
{
    match bytes.push(byte) {
        Ok(()) => Ok(()),
        Err(_) => Err(NoMemory),
    }
}

/// Appends a bit.
fn push_bit(bits: &mut Vec<bool>, bit: bool) -> Result<(), NoMemory>
    ensures { OnOk result (bits.new.items ≡ bits.old.items ++ bit ∷ []) }
{
    match bits.push(bit) {
        Ok(()) => Ok(()),
        Err(_) => Err(NoMemory),
    }
}

/// Whether an inode of a group is below a number.
fn is_below(g: &Geometry, c: u32, i: u32, inodes: u64) -> bool
    ensures { result ≡ nat_lt (c * g.now.ipg + i) inodes }
{
    u64::from(c) * u64::from(g.ipg) + u64::from(i) < inodes
}

/// The inodes of a group that are used, where all below a number are.
#[tactic(auto, unfolding(crate::specs::Images::inode_bits))]
pub fn inode_bits(alloc: Global, g: &Geometry, c: u32, inodes: u64) -> Result<Vec<bool>, NoMemory>
    ensures { IfOk result (λ bits. bits.items ≡ inode_bits g.now c inodes) }
{
    let mut bits = Vec::new(alloc);
    for i in 0..g.ipg {
        push_bit(&mut bits, is_below(g, c, i, inodes))?;
    }
    Ok(bits)
}

/// Whether a fragment is data of a group.
fn is_data_of(c: u32, role: Role) -> bool
    ensures { result ≡ is_data_of c role }
{
    match role {
        Role::Data(d) => c == d,
        Role::System(_) | Role::Outside => false,
    }
}

/// Whether a fragment is data of a group, and no block has it.
#[tactic(auto, unfolding(ufs_model::specs::Roles::role))]
fn is_free(g: &Geometry, c: u32, fragment: u64, used: &[bool]) -> bool
    requires { IsGeometry g.now }
    ensures { result ≡ (is_data_of c (role g.now fragment) && not (is_used used.now fragment)) }
{
    if u64::from(g.size) <= fragment {
        return false;
    }
    is_data_of(c, role(g, fragment as u32)) && !bit_at(used, fragment as usize)
}

/// The fragments of a group that are free: data that no block has.
#[tactic(auto, unfolding(crate::specs::Images::fragment_bits))]
pub fn fragment_bits(
    alloc: Global,
    g: &Geometry,
    c: u32,
    used: &[bool],
) -> Result<Vec<bool>, NoMemory>
    requires geometry { IsGeometry g.now }
    requires group { c < g.now.ncg }
    ensures { IfOk result (λ bits. bits.items ≡ fragment_bits g.now c used.now) }
{
    let mut bits = Vec::new(alloc);
    let base = u64::from(cgbase(g, c));
    for i in 0..g.fpg {
        push_bit(&mut bits, is_free(g, c, base + u64::from(i), used))?;
    }
    Ok(bits)
}
