//! For the benchmark of moves. The words are `write` or `tend`, and then the bits of the number of blocks of an array of four
//! boundaries with room for twice as many, how often all is done, and how many bytes the members have room for: 0 for a rack that
//! keeps no bytes. The first sixteenth of the blocks are kept ones, and the others are of files of 16 blocks each. All blocks are
//! written in their order, and it is planned where they are to stand; `tend` then moves them all. It prints how many placements were
//! met and are left.
#![tactic(auto)]

ghost use Rattle.std.specs.Prelude.{◌≡◌, IfOk, IfSome, length};
ghost use Rattle.std.specs.Bool.{OnTrue};
ghost use Rattle.dg_model.specs.Shapes.{IsShape};
ghost use Rattle.dg_model.specs.Wants.{FitWants};
ghost use Rattle.dg_plan.specs.Planned.{KeepsRules};
ghost use Rattle.dg_plan.specs.Targets.{blocks_in};
ghost use Rattle.dg_store.specs.Stores.{IsSound, shape_of, table_of};

use dg_io::{NoMemory, Rack, SureRack};
use dg_model::Shape;
use dg_move::{Targets, TendAnswer, tend};
use dg_plan::{Homes, Parent, Parents, Want, Wants, plan, targets_of_plans};
use dg_store::Store;
use std::alloc::Global;
use std::env;
use std::io::{self, ErrorKind};

/// Bytes of a block.
const BLOCK: u32 = 512;

/// The least inode of a file.
const FIRST: u32 = 1 << 20;

/// Blocks of a file.
const IN_FILE: u32 = 16;

const FILES_IN_DIRECTORY: u32 = 16;

/// What is measured.
#[derive(Clone, Copy, Debug, PartialEq, Eq)]
enum Task {
    Write,
    Tend,
}

fn task_of(word: &str) -> Task {
    if word == "tend" {
        Task::Tend
    } else {
        Task::Write
    }
}

/// The words behind the program's name: the task, and three numbers, 0 where there is none.
fn words_of(rt: HostRuntime) -> io::Result<(Task, [u64; 3])> {
    let mut words = env::args(&rt)?;
    let task = match words.nth(1) {
        Some(word) => task_of(word.as_str()),
        None => Task::Write,
    };
    let mut numbers = [0; 3];
    for number in &mut numbers {
        if let Some(word) = words.next() {
            *number = word.parse().unwrap_or(0);
        }
    }
    Ok((task, numbers))
}

/// What the blocks are to the plan: the first sixteenth are kept, and the others are of files.
fn wants_of(alloc: Global, blocks: u32) -> Result<Wants, NoMemory>
    ensures { IfOk result (λ wants. length wants ≡ blocks) }
{
    let mut wants = Vec::new(alloc);
    for block in 0..blocks {
        let want = if block < blocks / 16 {
            Want::Kept
        } else {
            Want::File(FIRST.saturating_add(block / IN_FILE))
        };
        let Ok(()) = wants.push(Some(want)) else {
            return Err(NoMemory);
        };
    }
    Ok(Wants::new(wants))
}

/// The directories of so many files.
fn parents_of(alloc: Global, files: u32) -> Result<Parents, NoMemory> {
    let mut parents = Vec::new(alloc);
    for file in 0..files {
        let parent = Parent {
            inode: FIRST.saturating_add(file),
            directory: 2 + file / FILES_IN_DIRECTORY,
        };
        let Ok(()) = parents.push(parent) else {
            return Err(NoMemory);
        };
    }
    Ok(Parents::new(parents))
}

/// Writes all blocks, in their order.
fn write_all<R: Rack>(store: &mut Store<R>, bytes: &[u8]) -> Result<(), NoMemory>
    requires sound { IsSound R.Rack store.old }
    requires size { length bytes.now ≡ (shape_of store.old).l }
    ensures sound { IsSound R.Rack store.new }
    ensures shape { shape_of store.new ≡ shape_of store.old }
{
    for block in 0..store.shape().n {
        store.write(block, bytes)?;
    }
    Ok(())
}

/// Just the blocks with a want are written.
fn fits<R: Rack>(store: &Store<R>, wants: &Wants) -> bool
    requires sound { IsSound R.Rack store.now }
    ensures { OnTrue result (FitWants (table_of store.now) wants.now) }
{
    let wants = wants.as_slice();
    let blocks = store.shape().n;
    if wants.len() != blocks as usize {
        return false;
    }
    for block in 0..blocks {
        if store.written(block) != wants[block as usize].is_some() {
            return false;
        }
    }
    true
}

/// Moves all blocks to their targets. There is no answer where a boundary is lost, or other blocks are written.
fn moved<R: Rack>(
    store: &mut Store<R>,
    wants: &Wants,
    targets: &Targets,
) -> Result<Option<TendAnswer>, NoMemory>
    requires sound { IsSound R.Rack store.old }
    requires rules { KeepsRules (shape_of store.old) wants.now targets.now }
    requires size { blocks_in targets.now ≡ (shape_of store.old).n }
{
    targets_of_plans();
    if !fits(store, wants) || store.is_degraded() {
        return Ok(None);
    }
    Ok(Some(tend(store, targets, u32::MAX)?))
}

/// Writes the blocks of an array, plans, and moves them where that is the task.
fn answer_of(
    alloc: Global,
    shape: Shape,
    task: Task,
    room: u64,
) -> Result<Option<TendAnswer>, NoMemory>
    requires shape { IsShape shape }
    requires size { shape.l ≡ 512 }
{
    let wants = wants_of(alloc, shape.n)?;
    let parents = parents_of(alloc, shape.n / IN_FILE)?;
    let rack = SureRack::new(alloc, 8, room)?;
    let mut store = Store::new(alloc, rack, shape)?;
    write_all(&mut store, &[7; BLOCK as usize])?;
    let homes = Homes::new(Vec::new(alloc));
    let Ok(targets) = plan(alloc, &wants, &homes, &parents, &shape)? else {
        return Ok(None);
    };
    match task {
        Task::Write => Ok(Some(TendAnswer::Tended { moved: 0, left: 0 })),
        Task::Tend => moved(&mut store, &wants, &targets),
    }
}

/// Does all so often, at least once. The last answer.
fn answer_after(
    alloc: Global,
    shape: Shape,
    task: Task,
    times: u64,
    room: u64,
) -> Result<Option<TendAnswer>, NoMemory>
    requires shape { IsShape shape }
    requires size { shape.l ≡ 512 }
{
    let mut answer = answer_of(alloc, shape, task, room)?;
    for _ in 1..times {
        answer = answer_of(alloc, shape, task, room)?;
    }
    Ok(answer)
}

fn main(rt: HostRuntime) -> io::Result<()> {
    let (task, [bits, times, room]) = words_of(rt)?;
    let blocks = 1 << bits.min(20);
    let Some(shape) = Shape::check(BLOCK, blocks, 4, blocks / 2, 2) else {
        return println!(rt; "no array has {} blocks", blocks);
    };
    match answer_after(rt.alloc(), shape, task, times, room) {
        Ok(Some(TendAnswer::Tended { moved, left })) => {
            println!(rt; "{} placements were met, {} are left", moved, left)
        }
        Ok(_) => println!(rt; "the blocks don't move"),
        Err(NoMemory) => Err(io::Error::from(ErrorKind::OutOfMemory)),
    }
}
