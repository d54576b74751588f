ghost use Rattle.std.specs.Prelude.{◌≡◌, ◌<◌, ◌^◌, ◌++◌, List, [], false, OnOk, IfOk, length, flat_map, map, slice_index_or, if◌then◌else◌};
ghost use Rattle.std.specs.List.{All, range_with_len};
ghost use Rattle.byteorder.specs.Endian.{little_bytes};
ghost use Rattle.dg_model.specs.Saves.{HasForm, block_bytes, body_of, front_of_body, home_bytes, homes_bytes, phase_byte, rest_of_body, site_bytes};
ghost use Rattle.dg_model.specs.Shapes.{IsShape};
ghost use Rattle.dg_save.specs.Parts.{IsShort, IsSpelled, good_bytes, rows_in};
ghost use Rattle.dg_save.specs.States.{state_of};

use crate::lengths::room;
use crate::{Home, NoMemory, Phase, SavedState, Site};
use std::alloc::Global;

/// The body of this format that says the state. Its memory is taken at once.
pub fn encode(alloc: Global, state: &SavedState, format: u8) -> Result<Vec<u8>, NoMemory>
    requires { HasForm format (state_of state.now) }
    ensures { IfOk result (λ bytes. bytes.items ≡ body_of format (state_of state.now)) }
{
    let Ok(mut bytes) = Vec::with_capacity(alloc, room(&state.shape, format) as usize) else {
        return Err(NoMemory);
    };
    push_front(&mut bytes, state)?;
    if format != 1 {
        push_rest(&mut bytes, state)?;
    }
    Ok(bytes)
}

/// Appends what both formats say.
fn push_front(bytes: &mut Vec<u8>, state: &SavedState) -> Result<(), NoMemory>
    requires { IsSpelled state.now.shape (state_of state.now) }
    ensures { OnOk result (bytes.new.items ≡ bytes.old.items ++ front_of_body (state_of state.now)) }
{
    push(bytes, &[byte_of(state.phase), 0, 0, 0])?;
    push_good(bytes, state.good.as_slice())?;
    push_blocks(bytes, state.sites.as_vec(), state.pending.as_slice())?;
    push_homes(bytes, state.homes.as_slice())?;
    Ok(())
}

/// Appends what format 2 says beside.
fn push_rest(bytes: &mut Vec<u8>, state: &SavedState) -> Result<(), NoMemory>
    requires { IsSpelled state.now.shape (state_of state.now) }
    ensures { OnOk result (bytes.new.items ≡ bytes.old.items ++ rest_of_body (state_of state.now)) }
{
    let recent = state.recent.as_slice();
    push_homes(bytes, state.copies.as_slice())?;
    push(bytes, &[recent.len() as u8])?;
    push_numbers(bytes, recent)?;
    Ok(())
}

fn push(bytes: &mut Vec<u8>, more: &[u8]) -> Result<(), NoMemory>
    ensures { OnOk result (bytes.new.items ≡ bytes.old.items ++ more.now) }
{
    match bytes.extend_from_slice(more) {
        Ok(()) => Ok(()),
        Err(_) => Err(NoMemory),
    }
}

fn byte_of(phase: Phase) -> u8
    ensures { result ≡ phase_byte phase }
{
    match phase {
        Phase::Loose => 0,
        Phase::Settled => 1,
        Phase::Worn => 2,
    }
}

/// Appends a byte for each member: 0 where it is good.
fn push_good(bytes: &mut Vec<u8>, good: &[bool]) -> Result<(), NoMemory>
    ensures { OnOk result (bytes.new.items ≡ bytes.old.items ++ flat_map good_bytes good.now) }
{
    for mark in good {
        push(bytes, &[u8::from(!*mark)])?;
    }
    Ok(())
}

/// Appends the sites and the mark of each block.
fn push_blocks(
    bytes: &mut Vec<u8>,
    lists: &Vec<Vec<Site>>,
    pending: &[bool],
) -> Result<(), NoMemory>
    requires blocks { length pending.now ≡ length lists.now.items }
    requires short { All IsShort (rows_in lists.now.items) }
    ensures { OnOk result (bytes.new.items ≡ bytes.old.items
        ++ flat_map (λ b. block_bytes (slice_index_or (rows_in lists.now.items) b []) (slice_index_or pending.now b false)) (range_with_len 0 (length pending.now))) }
{
    for block in 0..pending.len() {
        push_block(bytes, &lists[block], pending[block])?;
    }
    Ok(())
}

fn push_block(bytes: &mut Vec<u8>, sites: &[Site], pending: bool) -> Result<(), NoMemory>
    requires { length sites.now < 256 }
    ensures { OnOk result (bytes.new.items ≡ bytes.old.items ++ block_bytes sites.now pending) }
{
    push(bytes, &[sites.len() as u8, u8::from(pending)])?;
    push_sites(bytes, sites)
}

fn push_sites(bytes: &mut Vec<u8>, sites: &[Site]) -> Result<(), NoMemory>
    ensures { OnOk result (bytes.new.items ≡ bytes.old.items ++ flat_map site_bytes sites.now) }
{
    for site in sites {
        push_site(bytes, site)?;
    }
    Ok(())
}

fn push_site(bytes: &mut Vec<u8>, site: &Site) -> Result<(), NoMemory>
    ensures { OnOk result (bytes.new.items ≡ bytes.old.items ++ site_bytes site.now) }
{
    push(bytes, &[site.boundary])?;
    push(bytes, &site.slot.to_le_bytes())
}

/// Appends how many homes there are, and then each.
fn push_homes(bytes: &mut Vec<u8>, homes: &[Home]) -> Result<(), NoMemory>
    requires { length homes.now < 2 ^ 32 }
    ensures { OnOk result (bytes.new.items ≡ bytes.old.items ++ homes_bytes homes.now) }
{
    push(bytes, &(homes.len() as u32).to_le_bytes())?;
    push_each_home(bytes, homes)
}

fn push_each_home(bytes: &mut Vec<u8>, homes: &[Home]) -> Result<(), NoMemory>
    ensures { OnOk result (bytes.new.items ≡ bytes.old.items ++ flat_map home_bytes homes.now) }
{
    for home in homes {
        push_home(bytes, home)?;
    }
    Ok(())
}

fn push_home(bytes: &mut Vec<u8>, home: &Home) -> Result<(), NoMemory>
    ensures { OnOk result (bytes.new.items ≡ bytes.old.items ++ home_bytes home.now) }
{
    push(bytes, &home.inode.to_le_bytes())?;
    push(bytes, &[home.boundary])
}

fn push_numbers(bytes: &mut Vec<u8>, numbers: &[u32]) -> Result<(), NoMemory>
    ensures { OnOk result (bytes.new.items ≡ bytes.old.items ++ flat_map (little_bytes 4) numbers.now) }
{
    for number in numbers {
        push(bytes, &number.to_le_bytes())?;
    }
    Ok(())
}
