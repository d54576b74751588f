//! For the benchmarks of ownership by traffic. Standard input has writes, one behind another: the number of a block, as four bytes,
//! the least one first, and the block's 512 bytes. The words are how many blocks the array has, how many of the writes are made
//! once, and how often all others are made after them. It prints how many writes and how many fetches were made, and how many blocks
//! are claimed and are pending in the end.
#![tactic(auto)]

ghost use Rattle.std.specs.Prelude.{◌≡◌, ◌*◌, ◌<◌, IfOk, length};

mod disks;

use crate::disks::{BLOCK, Disk};
use dg_infer::{Inference, Inferred};
use dg_io::NoMemory;
use std::alloc::Global;
use std::env;
use std::io::{self, ErrorKind, Read};
use ufs_pointer::Levels;

/// Bytes of a write on standard input.
const RECORD: usize = 516;

/// Blocks of the largest array.
const MOST: u32 = 1 << 20;

/// The three numbers behind the program's name, 0 where there is none.
fn numbers(rt: HostRuntime) -> io::Result<(u32, u32, u32)> {
    let mut words = env::args(&rt)?;
    words.next();
    let mut numbers = [0; 3];
    for number in &mut numbers {
        if let Some(word) = words.next() {
            *number = word.parse().unwrap_or(0);
        }
    }
    Ok((numbers[0], numbers[1], numbers[2]))
}

/// An array with its inference.
#[derive(Drop)]
struct Array {
    disk: Disk,
    levels: Levels,
    inference: Inference,
    writes: u64,
    ghost size: { levels.fragment ≡ 512 },
    ghost bytes: { inference.l ≡ 512 },
    ghost count: { inference.n ≡ disk.count },
}

/// A write of a block; none where the array has no such block. False where a block is gone.
fn write(alloc: Global, array: &mut Array, block: u32, bytes: &[u8]) -> Result<bool, NoMemory>
    requires { length bytes.now ≡ 512 }
{
    if block >= array.disk.count() {
        return Ok(true);
    }
    array.disk.write(block, bytes);
    array.writes = array.writes.saturating_add(1);
    let inferred = array
        .inference
        .written(alloc, &mut array.disk, &mut array.levels, block, bytes)?;
    let Inferred::Known(moved) = inferred else {
        return Ok(false);
    };
    array.inference.mark(block, &moved);
    Ok(true)
}

/// The writes of some records, in their order.
fn write_all(alloc: Global, array: &mut Array, records: &[u8]) -> Result<bool, NoMemory> {
    for i in 0..records.len() / RECORD {
        let record = &records[i * RECORD..i * RECORD + RECORD];
        let block = u32::from_le_bytes([record[0], record[1], record[2], record[3]]);
        if !write(alloc, array, block, &record[4..])? {
            return Ok(false);
        }
    }
    Ok(true)
}

/// A blank array of so many blocks.
fn blank(alloc: Global, count: u32) -> Result<Array, NoMemory> {
    Ok(Array {
        disk: Disk::new(alloc, count)?,
        levels: Levels::new(alloc, BLOCK)?,
        inference: Inference::new(alloc, BLOCK, count)?,
        writes: 0,
    })
}

/// Makes the first of the writes once, and then all others so often. False where a block is gone.
fn play(
    alloc: Global,
    array: &mut Array,
    records: &[u8],
    once: u32,
    times: u32,
) -> Result<bool, NoMemory> {
    let (first, others) = records.split_at(records.len().min(once as usize * RECORD));
    let mut known = write_all(alloc, array, first)?;
    for _ in 0..times {
        known = write_all(alloc, array, others)? && known;
    }
    Ok(known)
}

/// How many blocks of an array are claimed, and how many are pending.
fn told(inference: &Inference, count: u32) -> (u32, u32) {
    let (mut claimed, mut pending) = (0u32, 0u32);
    let mut next = inference.next_pending(0);
    for block in 0..count {
        if inference.claims().claims_on(block) > 0 {
            claimed = claimed.saturating_add(1);
        }
        if next == Some(block) {
            pending = pending.saturating_add(1);
            next = inference.next_pending(block.saturating_add(1));
        }
    }
    (claimed, pending)
}

fn main(rt: HostRuntime) -> io::Result<()> {
    let (count, once, times) = numbers(rt)?;
    let count = count.min(MOST);
    let alloc = rt.alloc();
    let mut records = Vec::new(alloc);
    rt.stdin().read_to_end(&mut records)?;
    let played = blank(alloc, count).and_then(|mut array| {
        let known = play(alloc, &mut array, &records, once, times)?;
        Ok((array, known))
    });
    match played {
        Ok((array, true)) => {
            let (claimed, pending) = told(&array.inference, count);
            println!(rt;
                "{} writes, {} fetches, {} blocks are claimed, {} are pending",
                array.writes,
                array.disk.fetches(),
                claimed,
                pending
            )
        }
        Ok((_, false)) => println!(rt; "a block is gone"),
        Err(NoMemory) => Err(io::Error::from(ErrorKind::OutOfMemory)),
    }
}
