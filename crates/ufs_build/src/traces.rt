// Which blocks of an image a trace writes, and in which order.
ghost use Rattle.std.specs.Prelude.{◌≡◌, ◌≤◌, ◌<◌, ◌+◌, ◌*◌, ◌==◌, ◌&&◌, ◌++◌, ◌∷◌, [], if◌then◌else◌, not, reverse, IfOk, OnOk, length};
ghost use Rattle.std.specs.List.{list_any};
ghost use Rattle.ufs_build.specs.Traces.{block_in, is_data, is_written, numbers_where, trace_of, written_blocks, written_data, written_system};
ghost use Rattle.ufs_model.specs.Geometries.{IsGeometry};
ghost use Rattle.ufs_model.specs.Roles.{role};

use dg_model::NoMemory;
use dg_words::Order;
use std::alloc::Global;
use ufs_model::{Geometry, Role};
use ufs_super::role;

/// Whether a byte isn't zero.
fn has_byte(bytes: &[u8]) -> bool
    ensures { result ≡ list_any (λ byte. not (byte == 0)) bytes.now }
{
    bytes.iter().any(|byte| *byte != 0)
}

/// Whether block `b` of an image isn't all zero.
#[tactic(auto, unfolding(crate::specs::Traces::is_written))]
fn is_written(g: &Geometry, image: &[u8], b: u32) -> bool
    requires bytes { length image.now ≡ g.now.size * g.now.fsize }
    requires block { b < g.now.size }
    ensures { result ≡ is_written g.now.fsize image.now b }
{
    let l = g.fsize as usize;
    let start = b as usize * l;
    let (_, rest) = image.split_at(start);
    let (block, _) = rest.split_at(l);
    has_byte(block)
}

/// Whether a block is for files.
fn is_data(role: Role) -> bool
    ensures { result ≡ is_data role }
{
    match role {
        Role::Data(_) => true,
        Role::System(_) | Role::Outside => false,
    }
}

/// Whether a block is for files, and isn't all zero.
fn is_written_data(g: &Geometry, image: &[u8], b: u32) -> bool
    requires geometry { IsGeometry g.now }
    requires bytes { length image.now ≡ g.now.size * g.now.fsize }
    requires block { b < g.now.size }
    ensures { result ≡ (is_data (role g.now b) && is_written g.now.fsize image.now b) }
{
    is_data(role(g, b)) && is_written(g, image, b)
}

/// Whether a block isn't for files, and isn't all zero.
fn is_written_system(g: &Geometry, image: &[u8], b: u32) -> bool
    requires geometry { IsGeometry g.now }
    requires bytes { length image.now ≡ g.now.size * g.now.fsize }
    requires block { b < g.now.size }
    ensures { result ≡ (not (is_data (role g.now b)) && is_written g.now.fsize image.now b) }
{
    !is_data(role(g, b)) && is_written(g, image, b)
}

/// Appends a number where it is wanted.
fn push_if(numbers: &mut Vec<u32>, wanted: bool, number: u32) -> Result<(), NoMemory>
    ensures { OnOk result (numbers.new.items ≡ numbers.old.items ++ (if wanted then number ∷ [] else [])) }
{
    if wanted && numbers.push(number).is_err() {
        return Err(NoMemory);
    }
    Ok(())
}

/// The blocks that aren't all zero, ascending.
#[tactic(auto, unfolding(crate::specs::Traces::written_blocks), using(crate::proofs::Ranges::where_more))]
fn written_blocks(alloc: Global, g: &Geometry, image: &[u8]) -> Result<Vec<u32>, NoMemory>
    requires { length image.now ≡ g.now.size * g.now.fsize }
    ensures { IfOk result (λ blocks. blocks.items ≡ written_blocks g.now image.now) }
{
    let mut blocks = Vec::new(alloc);
    for b in 0..g.size {
        push_if(&mut blocks, is_written(g, image, b), b)?;
    }
    Ok(blocks)
}

/// Those of them that are for files, ascending.
#[tactic(auto, unfolding(crate::specs::Traces::written_data), using(crate::proofs::Ranges::where_more))]
fn written_data(alloc: Global, g: &Geometry, image: &[u8]) -> Result<Vec<u32>, NoMemory>
    requires geometry { IsGeometry g.now }
    requires bytes { length image.now ≡ g.now.size * g.now.fsize }
    ensures { IfOk result (λ blocks. blocks.items ≡ written_data g.now image.now) }
{
    let mut blocks = Vec::new(alloc);
    for b in 0..g.size {
        push_if(&mut blocks, is_written_data(g, image, b), b)?;
    }
    Ok(blocks)
}

/// Those of them that aren't for files, ascending.
#[tactic(auto, unfolding(crate::specs::Traces::written_system), using(crate::proofs::Ranges::where_more))]
fn written_system(alloc: Global, g: &Geometry, image: &[u8]) -> Result<Vec<u32>, NoMemory>
    requires geometry { IsGeometry g.now }
    requires bytes { length image.now ≡ g.now.size * g.now.fsize }
    ensures { IfOk result (λ blocks. blocks.items ≡ written_system g.now image.now) }
{
    let mut blocks = Vec::new(alloc);
    for b in 0..g.size {
        push_if(&mut blocks, is_written_system(g, image, b), b)?;
    }
    Ok(blocks)
}

/// The written blocks, descending.
fn written_down(alloc: Global, g: &Geometry, image: &[u8]) -> Result<Vec<u32>, NoMemory>
    requires { length image.now ≡ g.now.size * g.now.fsize }
    ensures { IfOk result (λ blocks. blocks.items ≡ reverse (written_blocks g.now image.now)) }
{
    let mut blocks = written_blocks(alloc, g, image)?;
    blocks.reverse();
    Ok(blocks)
}

/// The written blocks for files ascending, and then the others descending.
fn written_late(alloc: Global, g: &Geometry, image: &[u8]) -> Result<Vec<u32>, NoMemory>
    requires geometry { IsGeometry g.now }
    requires bytes { length image.now ≡ g.now.size * g.now.fsize }
    ensures { IfOk result (λ blocks. blocks.items ≡ written_data g.now image.now ++ reverse (written_system g.now image.now)) }
{
    let mut blocks = written_data(alloc, g, image)?;
    let mut others = written_system(alloc, g, image)?;
    others.reverse();
    if blocks.extend_from_slice(&others).is_err() {
        return Err(NoMemory);
    }
    Ok(blocks)
}

/// The blocks of an image that a trace writes, in its order: each block that isn't all zero, once.
///
/// The image has just the bytes of the volume.
pub fn trace_order(
    alloc: Global,
    order: Order,
    g: &Geometry,
    image: &[u8],
) -> Result<Vec<u32>, NoMemory>
    requires geometry { IsGeometry g.now }
    requires bytes { length image.now ≡ g.now.size * g.now.fsize }
    ensures { IfOk result (λ blocks. blocks.items ≡ trace_of order g.now image.now) }
{
    match order {
        Order::Up => written_blocks(alloc, g, image),
        Order::Down => written_down(alloc, g, image),
        Order::Late => written_late(alloc, g, image),
    }
}
