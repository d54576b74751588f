//! For the benchmark of a plan. The words are how many blocks the array has, how many blocks each file has, and how many plans are
//! made. The array has four boundaries with room for twice as many blocks. Each block is one of a file, each 16 files stand in one
//! directory, and each plan but the first begins with the homes of the one before. It prints how many files have homes in the end.
#![tactic(auto)]

ghost use Rattle.std.specs.Prelude.{◌≡◌, IfOk, length};
ghost use Rattle.dg_model.specs.Homes.{Ascend};
ghost use Rattle.dg_model.specs.Shapes.{IsShape};

use dg_plan::{Homes, NoMemory, Parent, Parents, Shape, Want, Wants, plan};
use std::alloc::Global;
use std::env;
use std::io::{self, ErrorKind};

/// The least inode of a file.
const FIRST: u32 = 1 << 20;

const FILES_IN_DIRECTORY: u32 = 16;

/// The number that a word is, or else 1.
fn number(word: Option<String>) -> u32 {
    match word {
        Some(word) => word.parse().unwrap_or(1),
        None => 1,
    }
}

/// The numbers of the three words.
fn numbers(rt: HostRuntime) -> io::Result<(u32, u32, u32)> {
    let mut words = env::args(&rt)?;
    let blocks = number(words.nth(1));
    let in_file = number(words.next());
    let times = number(words.next());
    Ok((blocks, in_file, times))
}

/// The wants of so many blocks, each of the files having as many.
fn wants_of(alloc: Global, blocks: u32, in_file: u32) -> Result<Wants, NoMemory>
    ensures { IfOk result (λ wants. length wants ≡ blocks) }
{
    let mut wants = Vec::new(alloc);
    for block in 0..blocks {
        let file = block.checked_div(in_file).unwrap_or(0);
        let want = Want::File(FIRST.saturating_add(file));
        let Ok(()) = wants.push(Some(want)) else {
            return Err(NoMemory);
        };
    }
    Ok(Wants::new(wants))
}

/// The directories of so many files.
fn parents_of(alloc: Global, files: u32) -> Result<Parents, NoMemory> {
    let mut parents = Vec::new(alloc);
    for file in 0..files {
        let parent = Parent {
            inode: FIRST.saturating_add(file),
            directory: 2 + file / FILES_IN_DIRECTORY,
        };
        let Ok(()) = parents.push(parent) else {
            return Err(NoMemory);
        };
    }
    Ok(Parents::new(parents))
}

/// Makes so many plans, one after another. The number of files that have homes in the end.
fn plans(
    alloc: Global,
    wants: &Wants,
    parents: &Parents,
    shape: &Shape,
    times: u32,
) -> Result<usize, NoMemory>
    requires shape { IsShape shape.now }
    requires size { length wants.now ≡ shape.now.n }
{
    let mut homes = Homes::new(Vec::new(alloc));
    for _ in 0..times {
        match plan(alloc, wants, &homes, parents, shape)? {
            Ok(targets) => homes = targets.into_homes(),
            Err(_) => return Ok(0),
        }
    }
    Ok(homes.as_slice().len())
}

/// Want of memory, as an error of the system.
fn no_memory(_: NoMemory) -> io::Error {
    io::Error::from(ErrorKind::OutOfMemory)
}

fn main(rt: HostRuntime) -> io::Result<()> {
    let (blocks, in_file, times) = numbers(rt)?;
    let Some(shape) = Shape::check(1024, blocks, 4, blocks / 2, 2) else {
        return println!(rt; "no array has {} blocks", blocks);
    };
    let wants = wants_of(rt.alloc(), shape.n, in_file).map_err(no_memory)?;
    let parents = parents_of(rt.alloc(), blocks / in_file.max(1)).map_err(no_memory)?;
    let files = plans(rt.alloc(), &wants, &parents, &shape, times).map_err(no_memory)?;
    println!(rt; "{} files have homes", files)
}
