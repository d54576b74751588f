//! For the benchmark of arrays of groups with parity beside mirrored ones, and for a plain second model of such groups. `replay` does operations on
//! groups of disks in memory, as sessions on standard input ask for them, and prints the answers and the bytes of the disks. `write N L BITS WRITES` makes
//! an array of 2^BITS blocks of L bytes over groups of N disks, or over pairs where N is 2, and writes blocks by a fixed generator. `read N L BITS READS OUT`
//! reads such blocks of a member, with disk 1 out where OUT is 1; `mend N L BITS TIMES` has a disk of the group out and back, and `copy N L BITS TIMES`
//! copies a member as long as such a disk. Each prints how much was done, and what was moved by it.
#![tactic(auto)]

mod answers;
mod groups;
mod numbers;
mod opened;
mod sessions;
mod volumes;
mod watched;

use crate::groups::{Asked, copies, mends, reads};
use crate::sessions::{no_memory, sessions};
use crate::volumes::{Measured, writes};
use dg_io::NoMemory;
use std::env;
use std::io::{self, ErrorKind, Read};

/// What is asked for.
#[derive(Clone, Copy)]
enum Task {
    Replay,
    Write,
    Read,
    Mend,
    Copy,
}

fn task_of(word: &str) -> Task {
    match word {
        "write" => Task::Write,
        "read" => Task::Read,
        "mend" => Task::Mend,
        "copy" => Task::Copy,
        _ => Task::Replay,
    }
}

/// The words of the command line: the task, and up to five numbers, 0 where there is none.
fn words(rt: HostRuntime) -> io::Result<(Task, [u32; 5])> {
    let mut args = env::args(&rt)?;
    let task = match args.nth(1) {
        Some(word) => task_of(word.as_str()),
        None => Task::Replay,
    };
    let mut numbers = [0; 5];
    for number in &mut numbers {
        if let Some(word) = args.next() {
            *number = word.parse().unwrap_or(0);
        }
    }
    Ok((task, numbers))
}

/// Does the sessions on standard input.
fn replay(rt: HostRuntime) -> io::Result<()> {
    let mut input = Vec::new(rt.alloc());
    rt.stdin().read_to_end(&mut input)?;
    match std::str::from_utf8(&input) {
        Ok(text) => sessions(rt, text),
        Err(_) => Err(io::Error::from(ErrorKind::InvalidData)),
    }
}

/// Prints what was done and moved.
fn print_measured(rt: HostRuntime, found: Result<Option<Measured>, NoMemory>) -> io::Result<()> {
    match found.map_err(no_memory)? {
        Some(it) => {
            let moved = it.moved;
            println!(rt;
                "{} done, {} calls, {} bytes read, {} bytes written",
                it.done, moved.calls, moved.read, moved.written
            )
        }
        None => println!(rt; "no such array"),
    }
}

fn main(rt: HostRuntime) -> io::Result<()> {
    let (task, [disks, size, bits, times, out]) = words(rt)?;
    let asked = Asked {
        disks: disks.min(255) as u8,
        size: u64::from(size) << bits.min(20),
        block: size,
        times,
        is_without: out == 1,
    };
    match task {
        Task::Replay => replay(rt),
        Task::Write => print_measured(rt, writes(rt.alloc(), asked.disks, size, bits, times)),
        Task::Read => print_measured(rt, reads(rt.alloc(), asked)),
        Task::Mend => print_measured(rt, mends(rt.alloc(), asked)),
        Task::Copy => print_measured(rt, copies(rt.alloc(), asked)),
    }
}
