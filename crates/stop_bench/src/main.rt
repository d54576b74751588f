//! For the benchmark of arrays whose pages have two places beside plain ones, and for a second reading of their members. `replay KIND L BITS
//! WRITES` makes an array of 2^BITS blocks of L bytes over a rack in memory, where KIND is `plain` or `double`, makes so many writes of blocks by
//! a fixed generator, and prints how many were stored. `make SEED COUNT` writes and commits two members by a generator with each of so many
//! seeds, until calls fail, and prints the bytes of both in hexadecimal digits. `open` opens pairs of members on standard input, and prints of each pair `plain`, or
//! `double`, the room, the extra bytes, both members as they are opened and behind, and the sequence of the next commit.
#![tactic(auto)]

mod callers;
mod inputs;
mod members;
mod numbers;
mod openings;
mod replays;

use crate::inputs::{bytes_of, span_at};
use crate::members::made;
use crate::openings::{Total, opened};
use crate::replays::{Kind, replays};
use dg_io::NoMemory;
use std::env;
use std::io::{self, ErrorKind, Read};

/// What is asked for.
#[derive(Clone, Copy, Debug, PartialEq, Eq)]
enum Task {
    Replay(Kind),
    Make,
    Open,
}

/// The words of the command line: the task, and up to three numbers, 0 where there is none.
#[derive(Clone, Copy, Debug)]
struct Asked {
    task: Task,
    numbers: [u32; 3],
}

fn kind_of(word: Option<String>) -> Kind {
    match word {
        Some(word) if word.as_str() == "double" => Kind::Double,
        _ => Kind::Plain,
    }
}

fn words(rt: HostRuntime) -> io::Result<Asked> {
    let mut args = env::args(&rt)?;
    let task = match args.nth(1) {
        Some(word) if word.as_str() == "make" => Task::Make,
        Some(word) if word.as_str() == "open" => Task::Open,
        _ => Task::Replay(kind_of(args.next())),
    };
    let mut numbers = [0; 3];
    for number in &mut numbers {
        if let Some(word) = args.next() {
            *number = word.parse().unwrap_or(0);
        }
    }
    Ok(Asked { task, numbers })
}

/// Want of memory, as an error of the system.
fn no_memory(_: NoMemory) -> io::Error {
    io::Error::from(ErrorKind::OutOfMemory)
}

/// Prints bytes in hexadecimal digits.
fn print_bytes(rt: HostRuntime, bytes: &[u8]) -> io::Result<()> {
    for byte in bytes {
        print!(rt; "{:02x}", byte)?;
    }
    Ok(())
}

/// Prints the bytes of two members of a seed, in a line each.
fn print_made(rt: HostRuntime, seed: u32) -> io::Result<()> {
    let (zero, one) = made(rt.alloc(), u64::from(seed)).map_err(no_memory)?;
    print_bytes(rt, &zero)?;
    println!(rt; "")?;
    print_bytes(rt, &one)?;
    println!(rt; "")
}

/// Prints what is told of a member: its length and a remainder of its bytes.
fn print_total(rt: HostRuntime, total: Option<Total>) -> io::Result<()> {
    match total {
        Some(total) => print!(rt; " {}:{}", total.length, total.remainder),
        None => print!(rt; " -"),
    }
}

/// Prints what an opening of two members gives, as a line.
fn print_opening(rt: HostRuntime, first: Option<&[u8]>, second: Option<&[u8]>) -> io::Result<()> {
    let Some(it) = opened(rt.alloc(), first, second).map_err(no_memory)? else {
        return println!(rt; "plain");
    };
    print!(rt; "double {} ", it.room)?;
    if it.extra.is_empty() {
        print!(rt; "-")?;
    }
    print_bytes(rt, &it.extra)?;
    print_total(rt, it.members.first)?;
    print_total(rt, it.members.second)?;
    print_total(rt, it.behind.first)?;
    print_total(rt, it.behind.second)?;
    match it.next {
        Some(sequence) => println!(rt; " {}", sequence),
        None => println!(rt; " lost"),
    }
}

/// Prints what openings of pairs of members on standard input give.
fn print_openings(rt: HostRuntime) -> io::Result<()> {
    let mut input = Vec::new(rt.alloc());
    rt.stdin().read_to_end(&mut input)?;
    let mut at = 0;
    for _ in 0..input.len() {
        let Some(one) = span_at(&input, at) else {
            return Ok(());
        };
        let Some(two) = span_at(&input, one.end) else {
            return Ok(());
        };
        print_opening(rt, bytes_of(&input, one), bytes_of(&input, two))?;
        at = two.end;
    }
    Ok(())
}

fn main(rt: HostRuntime) -> io::Result<()> {
    let asked = words(rt)?;
    let [first, second, third] = asked.numbers;
    match asked.task {
        Task::Replay(kind) => {
            let stored = replays(rt.alloc(), kind, first, second, third).map_err(no_memory)?;
            println!(rt; "{} writes were stored", stored)
        }
        Task::Make => {
            for seed in first..first.saturating_add(second) {
                print_made(rt, seed)?;
            }
            Ok(())
        }
        Task::Open => print_openings(rt),
    }
}
