// The parts of a body, read one after another. Each is told by what its bytes alone can say; whether the parts fit together is tested
// afterwards.
ghost use Rattle.std.specs.Prelude.{◌≡◌, ◌++◌, ◌∷◌, [], flat_map, IfOk, IfErr, OnOk};
ghost use Rattle.byteorder.specs.Endian.{little_bytes};
ghost use Rattle.dg_model.specs.Saves.{home_bytes, homes_bytes, site_bytes};
ghost use Rattle.dg_save.specs.Parts.{AreEach, FitBlocks, FitHomes, FitNumbers, FitRest, FitSites, FitsHome, FitsNumber, FitsSite, IsAny, IsRead};
ghost use Rattle.dg_save.specs.Parts.{block_of, blocks_bytes, bytes_of_block, good_bytes, numbers_bytes, phase_bytes, rest_bytes};
ghost use Rattle.dg_save.specs.declared.readers.Unread.TheVariants.{NoMemory as Short};

use crate::readers::{Reader, Unread};
use crate::{Home, Homes, Marks, Numbers, Phase, Site, SiteLists};
use std::alloc::Global;

/// The phase: one byte, and three zero bytes behind it.
pub fn read_phase(reader: &mut Reader<'_>) -> Result<Phase, Unread>
    ensures { IsRead (λ x. x) IsAny phase_bytes reader.old reader.new result }
{
    match reader.number()? {
        0 => Ok(Phase::Loose),
        1 => Ok(Phase::Settled),
        2 => Ok(Phase::Worn),
        _ => Err(Unread::Malformed),
    }
}

/// Which of so many members are good.
pub fn read_good(alloc: Global, reader: &mut Reader<'_>, members: usize) -> Result<Marks, Unread>
    ensures { IsRead (λ x. x) (AreEach IsAny members) (flat_map good_bytes) reader.old reader.new result }
{
    let mut good = with_room(alloc, reader, members)?;
    for member in 0..members {
        push(&mut good, read_mark(reader)?)?;
    }
    Ok(Marks::new(good))
}

/// Whether a member is good.
fn read_mark(reader: &mut Reader<'_>) -> Result<bool, Unread>
    ensures { IsRead (λ x. x) IsAny good_bytes reader.old reader.new result }
{
    let out = reader.flag()?;
    Ok(!out)
}

/// The sites and the marks of so many blocks.
pub fn read_blocks(
    alloc: Global,
    reader: &mut Reader<'_>,
    blocks: usize,
) -> Result<(SiteLists, Marks), Unread>
    ensures { IsRead (λ x. x) (FitBlocks blocks) blocks_bytes reader.old reader.new result }
{
    let mut lists = with_room(alloc, reader, blocks)?;
    let mut pending = with_room(alloc, reader, blocks)?;
    for block in 0..blocks {
        let (sites, mark) = read_block(alloc, reader)?;
        push(&mut lists, sites)?;
        push(&mut pending, mark)?;
    }
    Ok((SiteLists::new(lists), Marks::new(pending)))
}

fn read_block(alloc: Global, reader: &mut Reader<'_>) -> Result<(Vec<Site>, bool), Unread>
    ensures { IsRead block_of (λ block. FitSites block.0) bytes_of_block reader.old reader.new result }
{
    let count = reader.byte()?;
    let pending = reader.flag()?;
    let sites = read_sites(alloc, reader, count as usize)?;
    Ok((sites, pending))
}

fn read_sites(alloc: Global, reader: &mut Reader<'_>, count: usize) -> Result<Vec<Site>, Unread>
    ensures { IsRead (λ sites. sites.items) (AreEach FitsSite count) (flat_map site_bytes) reader.old reader.new result }
{
    let mut sites = with_room(alloc, reader, count)?;
    for site in 0..count {
        push(&mut sites, read_site(reader)?)?;
    }
    Ok(sites)
}

fn read_site(reader: &mut Reader<'_>) -> Result<Site, Unread>
    ensures { IsRead (λ x. x) FitsSite site_bytes reader.old reader.new result }
{
    let boundary = reader.byte()?;
    let slot = reader.number()?;
    Ok(Site { boundary, slot })
}

/// What stands behind the homes: in format 2 copies, and inodes that were read last, and in format 1 nothing.
pub fn read_rest(
    alloc: Global,
    reader: &mut Reader<'_>,
    format: u8,
) -> Result<(Homes, Numbers), Unread>
    ensures { IsRead (λ x. x) (FitRest format) (rest_bytes format) reader.old reader.new result }
{
    if format == 1 {
        return Ok((Homes::new(Vec::new(alloc)), Numbers::new(Vec::new(alloc))));
    }
    let copies = read_homes(alloc, reader)?;
    let recent = read_recent(alloc, reader)?;
    Ok((copies, recent))
}

/// How many homes there are, and then each.
pub fn read_homes(alloc: Global, reader: &mut Reader<'_>) -> Result<Homes, Unread>
    ensures { IsRead (λ x. x) FitHomes homes_bytes reader.old reader.new result }
{
    let count = reader.number()?;
    let homes = read_each_home(alloc, reader, count as usize)?;
    Ok(Homes::new(homes))
}

fn read_each_home(alloc: Global, reader: &mut Reader<'_>, count: usize) -> Result<Vec<Home>, Unread>
    ensures { IsRead (λ homes. homes.items) (AreEach FitsHome count) (flat_map home_bytes) reader.old reader.new result }
{
    let mut homes = with_room(alloc, reader, count)?;
    for home in 0..count {
        push(&mut homes, read_home(reader)?)?;
    }
    Ok(homes)
}

fn read_home(reader: &mut Reader<'_>) -> Result<Home, Unread>
    ensures { IsRead (λ x. x) FitsHome home_bytes reader.old reader.new result }
{
    let inode = reader.number()?;
    let boundary = reader.byte()?;
    Ok(Home { inode, boundary })
}

/// How many inodes there are, and then each.
fn read_recent(alloc: Global, reader: &mut Reader<'_>) -> Result<Numbers, Unread>
    ensures { IsRead (λ x. x) FitNumbers numbers_bytes reader.old reader.new result }
{
    let count = reader.byte()?;
    let numbers = read_numbers(alloc, reader, count as usize)?;
    Ok(Numbers::new(numbers))
}

fn read_numbers(alloc: Global, reader: &mut Reader<'_>, count: usize) -> Result<Vec<u32>, Unread>
    ensures { IsRead (λ numbers. numbers.items) (AreEach FitsNumber count) (flat_map (little_bytes 4)) reader.old reader.new result }
{
    let mut numbers = with_room(alloc, reader, count)?;
    for number in 0..count {
        push(&mut numbers, reader.number()?)?;
    }
    Ok(numbers)
}

/// A vector with room for so many parts that are still to be read, but for no more than there are bytes left.
fn with_room<T>(alloc: Global, reader: &Reader<'_>, count: usize) -> Result<Vec<T>, Unread>
    ensures empty { IfOk result (λ items. items.items ≡ []) }
    ensures memory { IfErr result (λ why. why ≡ Short) }
{
    match Vec::with_capacity(alloc, count.min(reader.len())) {
        Ok(items) => Ok(items),
        Err(_) => Err(Unread::NoMemory),
    }
}

fn push<T: Drop>(items: &mut Vec<T>, item: T) -> Result<(), Unread>
    ensures items { OnOk result (items.new.items ≡ items.old.items ++ item ∷ []) }
    ensures memory { IfErr result (λ why. why ≡ Short) }
{
    match items.push(item) {
        Ok(()) => Ok(()),
        Err(_) => Err(Unread::NoMemory),
    }
}
