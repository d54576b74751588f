// What stands beside the saved state of an array, as bytes.
ghost use Rattle.std.specs.Prelude.{◌≡◌, ◌≤◌, ◌<◌, ◌+◌, ◌*◌, ◌++◌, ◌^◌, ◌∷◌, [], ℕ, All, IfOk, OnOk, MatchOption, length, flat_map};
ghost use Rattle.byteorder.specs.Endian.{little_bytes};
ghost use Rattle.dg_regroup.specs.ExtraBytes.{HasNoExtra, HasNoFront, HasNoNumbers, SaysFront, SaysNumbers};
ghost use Rattle.dg_regroup.specs.Extras.{IsExtra, extra_bytes, numbers_bytes};

use crate::lives::{are_live, ascend};
use dg_model::{Bytes, NoMemory, Numbers};
use std::alloc::Global;

/// What stands beside the saved state of an array that keeps what was saved last.
#[derive(Debug, Drop)]
pub struct Extra {
    /// The bytes of a member.
    pub length: u64,
    /// Boundaries of the array's first line, at most 16.
    pub boundaries: u8,
    /// Those of them that are in use, ascending.
    pub live: Bytes,
    /// The blocks that were cut, ascending.
    pub cut: Numbers,
}

/// The bytes that say it, all numbers little-endian: the members' length in 8 bytes, the number of boundaries in one, how
/// many are in use in one, and these; how many blocks were cut in 4 bytes, and these in 4 each.
pub fn write_extra(alloc: Global, extra: &Extra) -> Result<Vec<u8>, NoMemory>
    requires { IsExtra extra.now }
    ensures { IfOk result (λ bytes. bytes.items ≡ extra_bytes extra.now) }
{
    let live = extra.live.as_slice();
    let mut bytes = Vec::new(alloc);
    push(&mut bytes, &extra.length.to_le_bytes())?;
    push(&mut bytes, &[extra.boundaries, live.len() as u8])?;
    push(&mut bytes, live)?;
    push_numbers(&mut bytes, extra.cut.as_slice())?;
    Ok(bytes)
}

/// What these bytes say. `None` where they aren't just the bytes of one `Extra`.
pub fn read_extra(alloc: Global, bytes: &[u8]) -> Result<Option<Extra>, NoMemory>
    ensures { IfOk result (λ answer. MatchOption answer (HasNoExtra bytes.now) (λ extra. IsExtra extra × (bytes.now ≡ extra_bytes extra))) }
{
    let Some(front) = read_front(bytes) else {
        return Ok(None);
    };
    if !are_live(front.boundaries, front.live) {
        return Ok(None);
    }
    let Some(cut) = read_numbers(alloc, front.rest)? else {
        return Ok(None);
    };
    if !ascend(&cut) {
        return Ok(None);
    }
    let Ok(live) = Vec::from_slice(alloc, front.live) else {
        return Err(NoMemory);
    };
    Ok(Some(Extra {
        length: front.length,
        boundaries: front.boundaries,
        live: Bytes::new(live),
        cut: Numbers::new(cut),
    }))
}

/// What stands in front of the blocks, and the bytes behind it.
#[derive(Drop)]
struct Front<'a> {
    length: u64,
    boundaries: u8,
    live: &'a [u8],
    rest: &'a [u8],
}

/// Reads the members' length and the boundaries.
fn read_front(bytes: &[u8]) -> Option<Front<'_>>
    ensures { MatchOption result (HasNoFront bytes.now) (λ front. SaysFront bytes.now front.length front.boundaries front.live.now front.rest.now) }
{
    if bytes.len() < 10 {
        return None;
    }
    let (head, rest) = bytes.split_at(10);
    let count = head[9] as usize;
    if rest.len() < count {
        return None;
    }
    let (live, rest) = rest.split_at(count);
    Some(Front {
        length: number_of_eight([
            head[0], head[1], head[2], head[3], head[4], head[5], head[6], head[7],
        ]),
        boundaries: head[8],
        live,
        rest,
    })
}

/// The numbers that these bytes are: how many, and then each.
fn read_numbers(alloc: Global, bytes: &[u8]) -> Result<Option<Vec<u32>>, NoMemory>
    ensures { IfOk result (λ answer. MatchOption answer (HasNoNumbers bytes.now) (λ numbers. SaysNumbers bytes.now numbers.items)) }
{
    if bytes.len() < 4 {
        return Ok(None);
    }
    let (head, rest) = bytes.split_at(4);
    let count = number_of_four([head[0], head[1], head[2], head[3]]) as usize;
    if rest.len() != 4 * count {
        return Ok(None);
    }
    let numbers = read_each(alloc, rest, count)?;
    Ok(Some(numbers))
}

/// So many numbers, four bytes each.
fn read_each(alloc: Global, bytes: &[u8], count: usize) -> Result<Vec<u32>, NoMemory>
    requires { length bytes.now ≡ 4 * count }
    ensures count { IfOk result (λ numbers. length numbers.items ≡ count) }
    ensures fit { IfOk result (λ numbers. All (λ b. b < 2 ^ 32) numbers.items) }
    ensures bytes { IfOk result (λ numbers. bytes.now ≡ flat_map (little_bytes 4) numbers.items) }
{
    let mut numbers = Vec::new(alloc);
    for place in 0..count {
        let (_, rest) = bytes.split_at(4 * place);
        let Ok(()) = numbers.push(number_of_four([rest[0], rest[1], rest[2], rest[3]])) else {
            return Err(NoMemory);
        };
    }
    Ok(numbers)
}

/// The number in eight bytes.
fn number_of_eight(bytes: [u8; 8]) -> u64
    ensures { little_bytes 8 result ≡ bytes }
{
    u64::from_le_bytes(bytes)
}

/// The number in four bytes.
fn number_of_four(bytes: [u8; 4]) -> u32
    ensures { little_bytes 4 result ≡ bytes }
{
    u32::from_le_bytes(bytes)
}

/// Appends bytes.
fn push(bytes: &mut Vec<u8>, more: &[u8]) -> Result<(), NoMemory>
    ensures { OnOk result (bytes.new.items ≡ bytes.old.items ++ more.now) }
{
    match bytes.extend_from_slice(more) {
        Ok(()) => Ok(()),
        Err(_) => Err(NoMemory),
    }
}

/// Appends how many numbers there are, and each.
fn push_numbers(bytes: &mut Vec<u8>, numbers: &[u32]) -> Result<(), NoMemory>
    requires { length numbers.now < 2 ^ 32 }
    ensures { OnOk result (bytes.new.items ≡ bytes.old.items ++ numbers_bytes numbers.now) }
{
    push(bytes, &(numbers.len() as u32).to_le_bytes())?;
    push_each(bytes, numbers)
}

/// Appends each number.
fn push_each(bytes: &mut Vec<u8>, numbers: &[u32]) -> Result<(), NoMemory>
    ensures { OnOk result (bytes.new.items ≡ bytes.old.items ++ flat_map (little_bytes 4) numbers.now) }
{
    for number in numbers {
        push(bytes, &number.to_le_bytes())?;
    }
    Ok(())
}
