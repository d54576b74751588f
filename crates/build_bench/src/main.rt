//! For the benchmarks of volumes made of items, and of the order of a trace. The words are a task, a size and how many times.
//! `build MIB TIMES` builds a volume of so many MiB, which its files nearly fill; `order MIB TIMES` builds it once, and puts its
//! blocks into the order `late` so many times; `zeros MIB TIMES` does the same where all bytes of the files are zero; and
//! `tiny FILES TIMES` builds a volume of 16 MiB with so many files of one byte. It prints how many blocks of the volume aren't zero,
//! by that order. With 0 times `build` and `tiny` make the items alone.
#![tactic(auto)]

ghost use Rattle.std.specs.Prelude.{◌≡◌, ◌*◌, length};
ghost use Rattle.ufs_model.specs.Geometries.{IsGeometry};

use dg_model::{Bytes, NoMemory};
use std::alloc::Global;
use std::{env, io};
use ufs_build::{
    BuildRefused, Item, ItemKind, Items, Order, Spec, build, trace_order, volume_of_spec,
};
use ufs_model::{Endian, Geometry};

/// The files of a MiB, and those of a directory.
const FILES_IN_MIB: u32 = 4;

const FILES_IN_DIRECTORY: u32 = 64;

/// The bytes of files, over and over: two of eight files have an indirect block. Eight files nearly fill 2 MiB.
const SIZES: [u32; 8] = [
    3_000, 897_000, 11_000, 20_500, 29_000, 897_000, 38_000, 47_000,
];

/// The MiB of the largest volume, and the most files of one byte.
const MOST_MIB: u32 = 256;

const MOST_TINY: u32 = 8_000;

/// What is measured.
#[derive(Clone, Copy, Debug, PartialEq, Eq)]
enum Task {
    Build,
    Order,
    Zeros,
    Tiny,
}

/// The words of the command line.
#[derive(Clone, Copy, Debug)]
struct Asked {
    task: Task,
    size: u32,
    times: u32,
}

fn task_of(word: &str) -> Task {
    if word == "order" {
        Task::Order
    } else if word == "zeros" {
        Task::Zeros
    } else if word == "tiny" {
        Task::Tiny
    } else {
        Task::Build
    }
}

/// The number that a word is, or else 1.
fn number(word: Option<String>) -> u32 {
    match word {
        Some(word) => word.parse().unwrap_or(1),
        None => 1,
    }
}

fn words(rt: HostRuntime) -> io::Result<Asked> {
    let mut args = env::args(&rt)?;
    let task = match args.nth(1) {
        Some(word) => task_of(word.as_str()),
        None => Task::Build,
    };
    let size = number(args.next());
    let times = number(args.next());
    Ok(Asked { task, size, times })
}

/// Groups of 2 MiB, so many and with so many inodes each.
fn spec_of(ncg: u32, ipg: u32) -> Spec {
    Spec {
        l: 1024,
        frag: 8,
        ncg,
        fpg: 2048,
        ipg,
        cgoffset: 0,
        cgmask: 0xFFFF_FFFF,
        endian: Endian::Little,
    }
}

/// An item with a path.
fn push_item(
    alloc: Global,
    items: &mut Vec<Item>,
    path: &str,
    kind: ItemKind,
    bytes: Vec<u8>,
) -> Result<(), NoMemory> {
    let Ok(path) = Vec::from_slice(alloc, path.as_bytes()) else {
        return Err(NoMemory);
    };
    let item = Item {
        path: Bytes::new(path),
        kind,
        bytes: Bytes::new(bytes),
        sparse: false,
    };
    match items.push(item) {
        Ok(()) => Ok(()),
        Err(_) => Err(NoMemory),
    }
}

/// The directory with a number.
fn push_directory(alloc: Global, items: &mut Vec<Item>, d: u32) -> Result<(), NoMemory> {
    let Ok(path) = format!(in alloc; "/d{d}") else {
        return Err(NoMemory);
    };
    push_item(alloc, items, path.as_str(), ItemKind::Dir, Vec::new(alloc))
}

/// How many bytes the file with a number has, and what each of them is.
fn contents_of(task: Task, i: u32) -> (u32, u8) {
    let size = SIZES[i as usize % 8];
    let byte = 1 + (i % 251) as u8;
    match task {
        Task::Build | Task::Order => (size, byte),
        Task::Zeros => (size, 0),
        Task::Tiny => (1, byte),
    }
}

/// The file with a number.
fn push_file(alloc: Global, items: &mut Vec<Item>, task: Task, i: u32) -> Result<(), NoMemory> {
    let d = i / FILES_IN_DIRECTORY;
    let Ok(path) = format!(in alloc; "/d{d}/f{i}") else {
        return Err(NoMemory);
    };
    let (size, byte) = contents_of(task, i);
    let Ok(bytes) = vec![in alloc; byte; size as usize] else {
        return Err(NoMemory);
    };
    push_item(alloc, items, path.as_str(), ItemKind::File, bytes)
}

/// So many files in directories.
fn items_of(alloc: Global, task: Task, files: u32) -> Result<Items, NoMemory> {
    let mut items = Vec::new(alloc);
    for i in 0..files {
        if i % FILES_IN_DIRECTORY == 0 {
            push_directory(alloc, &mut items, i / FILES_IN_DIRECTORY)?;
        }
        push_file(alloc, &mut items, task, i)?;
    }
    Ok(Items::new(items))
}

/// Builds a volume so many times. The bytes of the last one, and none where it isn't built.
fn builds(alloc: Global, spec: &Spec, items: &Items, times: u32) -> Result<Vec<u8>, BuildRefused> {
    let mut image = Vec::new(alloc);
    for _ in 0..times {
        image = build(alloc, spec, items)?;
    }
    Ok(image)
}

/// Puts the blocks of an image into their order so many times. How many they are.
fn orders(alloc: Global, g: &Geometry, image: &[u8], times: u32) -> Result<usize, NoMemory>
    requires geometry { IsGeometry g.now }
    requires bytes { length image.now ≡ g.now.size * g.now.fsize }
{
    let mut count = 0;
    for _ in 0..times {
        count = trace_order(alloc, Order::Late, g, image)?.len();
    }
    Ok(count)
}

/// The same with the image of a volume by a spec, and 0 where that isn't one.
fn written(alloc: Global, spec: &Spec, image: &[u8], times: u32) -> Result<usize, NoMemory> {
    let Some(g) = volume_of_spec(spec) else {
        return Ok(0);
    };
    if image.len() != g.size as usize * g.fsize as usize {
        return Ok(0);
    }
    orders(alloc, &g, image, times)
}

/// Does what is asked for. How many blocks of the volume aren't zero.
fn measured(alloc: Global, asked: Asked) -> Result<usize, BuildRefused> {
    let mib = asked.size.min(MOST_MIB);
    let (spec, files) = match asked.task {
        Task::Build | Task::Order | Task::Zeros => (
            spec_of(mib.div_ceil(2), 64),
            mib * FILES_IN_MIB,
        ),
        Task::Tiny => (spec_of(8, 1024), asked.size.min(MOST_TINY)),
    };
    let (built, ordered) = match asked.task {
        Task::Build | Task::Tiny => (asked.times, 1),
        Task::Order | Task::Zeros => (1, asked.times),
    };
    let items = items_of(alloc, asked.task, files)?;
    let image = builds(alloc, &spec, &items, built)?;
    let count = written(alloc, &spec, &image, ordered)?;
    Ok(count)
}

fn main(rt: HostRuntime) -> io::Result<()> {
    let asked = words(rt)?;
    match measured(rt.alloc(), asked) {
        Ok(count) => println!(rt; "{} blocks are written", count),
        Err(refused) => println!(rt; "no volume is built: {:?}", refused),
    }
}
