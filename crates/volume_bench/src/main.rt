//! For the benchmarks of a scan, of a check and of an audit: it reads the image of a volume from standard input, in fragments of 512
//! bytes. The first word is the task, and the second says how many times: `scan` makes the table of claims and prints how many
//! fragments are claimed, `check` makes it once and checks the volume by it each time, `fresh` makes it anew for each check, and
//! `audit` audits the volume and prints how many malformations it has, and how many notes.
#![tactic(auto)]

ghost use Rattle.std.specs.Prelude.{◌≡◌, ◌*◌, ◌<◌, ◌^◌, IfOk, length};
ghost use Rattle.dg_io.specs.Fetches.{size_of};

use dg_claims::{Claims, scan};
use dg_io::{MemView, NoMemory};
use std::alloc::Global;
use std::env;
use std::io::{self, ErrorKind, Read};
use ufs_audit::{Findings, audit};
use ufs_check::{Verdict, check};
use ufs_pointer::Levels;

/// Bytes of a fragment.
const FRAGMENT: u32 = 512;

/// Fragments of the largest volume.
const MOST: usize = 1 << 20;

/// What is done with the volume.
#[derive(Clone, Copy)]
enum Task {
    Scan,
    Check,
    Fresh,
    Audit,
}

/// The task that a word names, or else a scan.
fn named(word: &str) -> Task {
    match word {
        "check" => Task::Check,
        "fresh" => Task::Fresh,
        "audit" => Task::Audit,
        _ => Task::Scan,
    }
}

/// The task in the first word, and the number in the second word, or else 1.
fn asked(rt: HostRuntime) -> io::Result<(Task, u32)> {
    let mut words = env::args(&rt)?;
    let task = match words.nth(1) {
        Some(word) => named(word.as_str()),
        None => Task::Scan,
    };
    match words.next() {
        Some(word) => Ok((task, word.parse().unwrap_or(1))),
        None => Ok((task, 1)),
    }
}

/// The volume on standard input: whole fragments, and how many they are.
fn volume(rt: HostRuntime) -> io::Result<(Vec<u8>, u32)>
    ensures { IfOk result (λ r. length r.0.items ≡ r.1 * 512) }
{
    let mut image = Vec::new(rt.alloc());
    rt.stdin().read_to_end(&mut image)?;
    let count = (image.len() / FRAGMENT as usize).min(MOST);
    image.truncate(count * FRAGMENT as usize);
    Ok((image, count as u32))
}

/// How many of the fragments are claimed.
fn claimed(claims: &Claims, count: u32) -> u32 {
    let mut sum: u32 = 0;
    for fragment in 0..count {
        if claims.claims_on(fragment) > 0 {
            sum = sum.saturating_add(1);
        }
    }
    sum
}

/// Want of memory, as an error of the system.
fn no_memory() -> io::Error {
    io::Error::from(ErrorKind::OutOfMemory)
}

/// Makes the table so many times, and counts the claimed fragments of the last one.
fn scans(
    alloc: Global,
    mut view: MemView,
    mut levels: Levels,
    count: u32,
    times: u32,
) -> Result<u32, NoMemory>
    requires levels { levels.fragment ≡ 512 }
    requires size { size_of view ≡ 512 }
{
    let mut sum = 0;
    for _ in 0..times {
        if let Some(claims) = scan(alloc, &mut view, &mut levels)? {
            sum = claimed(&claims, count);
        }
    }
    Ok(sum)
}

/// Makes the table once and checks the volume so many times, and answers the last verdict.
fn checks(
    alloc: Global,
    mut view: MemView,
    mut levels: Levels,
    times: u32,
) -> Result<Option<Verdict>, NoMemory>
    requires levels { levels.fragment ≡ 512 }
    requires size { size_of view ≡ 512 }
{
    let Some(claims) = scan(alloc, &mut view, &mut levels)? else {
        return Ok(Some(Verdict::Gone));
    };
    let mut verdict = None;
    for _ in 0..times {
        verdict = Some(check(alloc, &mut view, &mut levels, &claims)?);
    }
    Ok(verdict)
}

/// Makes the table and checks the volume so many times, and answers the last verdict.
fn fresh_checks(
    alloc: Global,
    mut view: MemView,
    mut levels: Levels,
    times: u32,
) -> Result<Option<Verdict>, NoMemory>
    requires levels { levels.fragment ≡ 512 }
    requires size { size_of view ≡ 512 }
{
    let mut verdict = None;
    for _ in 0..times {
        if let Some(claims) = scan(alloc, &mut view, &mut levels)? {
            verdict = Some(check(alloc, &mut view, &mut levels, &claims)?);
        }
    }
    Ok(verdict)
}

/// Audits the volume so many times, and answers what the last audit found.
fn audits(
    alloc: Global,
    mut view: MemView,
    mut levels: Levels,
    times: u32,
) -> Result<Option<Findings>, NoMemory>
    requires levels { levels.fragment ≡ 512 }
    requires size { size_of view ≡ 512 }
{
    let mut findings = None;
    for _ in 0..times {
        findings = audit(alloc, &mut view, &mut levels)?;
    }
    Ok(findings)
}

/// Prints what checks of a volume told.
fn print_verdict(rt: HostRuntime, verdict: Result<Option<Verdict>, NoMemory>) -> io::Result<()> {
    match verdict {
        Ok(Some(verdict)) => println!(rt; "{:?}", verdict),
        Ok(None) => println!(rt; "no check was asked for"),
        Err(_) => Err(no_memory()),
    }
}

/// Prints how much audits of a volume found.
fn print_findings(rt: HostRuntime, found: Result<Option<Findings>, NoMemory>) -> io::Result<()> {
    match found {
        Ok(Some(found)) => {
            let notes = &found.notes;
            println!(rt;
                "{} malformations, {} unnamed, {} unclaimed",
                found.bad.len(),
                notes.unnamed.len(),
                notes.unclaimed.len()
            )
        }
        Ok(None) => println!(rt; "no audit was asked for"),
        Err(_) => Err(no_memory()),
    }
}

fn main(rt: HostRuntime) -> io::Result<()> {
    let (task, times) = asked(rt)?;
    let (image, count) = volume(rt)?;
    let alloc = rt.alloc();
    let view = MemView::new(image, FRAGMENT, count, Vec::new(alloc));
    let levels = Levels::new(alloc, FRAGMENT).map_err(|_| no_memory())?;
    match task {
        Task::Scan => {
            let sum = scans(alloc, view, levels, count, times).map_err(|_| no_memory())?;
            println!(rt; "{} of {} fragments are claimed", sum, count)
        }
        Task::Check => print_verdict(rt, checks(alloc, view, levels, times)),
        Task::Fresh => print_verdict(rt, fresh_checks(alloc, view, levels, times)),
        Task::Audit => print_findings(rt, audits(alloc, view, levels, times)),
    }
}
