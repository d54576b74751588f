// The contents of files.
ghost use Rattle.std.specs.Prelude.{◌≡◌, ◌*◌, ◌^◌, ◌<◌, ◌≤◌, List, ℕ, Some, Ok, length, IfOk, OnOk, IfErr};
ghost use Rattle.std.specs.Option.{option_map};
ghost use Rattle.dg_io.specs.ViewWords.{Keeps, Reads};
ghost use Rattle.ufs_model.specs.Geometries.{IsGeometryOn};
ghost use Rattle.ufs_model.specs.Paths.{bytes_in_block, contents_of, front_of, part_of};
ghost use Rattle.ufs_path.specs.Answers.{IsAnswer, answer_at, refusal_of, refused_answer};
ghost use Rattle.ufs_path.specs.Parts.{HasCount, IsHanded, IsHandedPart, part_said};
ghost use Rattle.ufs_path.specs.Consults.{Consults, IsUnanswered, IsUnread, IsUnreadPart, StaysAtPart, StaysUnlessFailed};

use crate::blocks::{BlockContents, file_refusal, read_block};
use crate::faults::{CatAnswer, LookFault};
use dg_io::{Pieces, View};
use ufs_model::{Geometry, Inode, PathRefusal};
use ufs_pointer::{Levels, block_count, bytes_in_block};

/// What became of a part of a file that was to be handed on.
#[derive(Clone, Copy)]
pub enum Handed {
    /// It was handed on, so many bytes.
    All(u32),
    /// It wasn't read.
    Unread(LookFault),
    /// Its piece failed.
    Failed,
}

/// The answer of `cat` at a refusal.
fn answer_at(refusal: PathRefusal) -> CatAnswer
    ensures { result ≡ answer_at refusal }
{
    match refusal {
        PathRefusal::NotFound => CatAnswer::NotFound,
        PathRefusal::NotDirectory => CatAnswer::NotDirectory,
        PathRefusal::NotRegular => CatAnswer::NotRegular,
        PathRefusal::Bad(bad) => CatAnswer::Bad(bad),
    }
}

/// The answer of `cat` and `ls` at a fault.
pub fn refused_answer(fault: LookFault) -> CatAnswer
    ensures { result ≡ refused_answer fault }
{
    match fault {
        LookFault::NotFound => CatAnswer::NotFound,
        LookFault::NotDirectory => CatAnswer::NotDirectory,
        LookFault::Bad(bad) => CatAnswer::Bad(bad),
        LookFault::Unavailable => CatAnswer::Unavailable,
    }
}

/// Reads the bytes of a file in its file block `n` to the front of the block of data, and answers how
/// many they are. The fragments of the block are all consulted, also past the end of the file.
fn read_part<V: View>(
    view: &mut V,
    g: &Geometry,
    inode: &Inode,
    n: u32,
    levels: &mut Levels,
) -> Result<usize, LookFault>
    requires sound { V.is_sound view.old }
    requires geometry { IsGeometryOn (V.size view.old) (V.count view.old) g.now }
    requires levels { levels.old.fragment ≡ V.size view.old }
    requires block { n < 2 ^ 30 }
    ensures keeps { Keeps V.View view.old view.new }
    ensures levels { levels.new.fragment ≡ levels.old.fragment }
    ensures rule { Reads V.View view.old view.new (part_of g.now inode.now n) (part_said result levels.new.block) }
    ensures consults { Consults V.View view.old view.new (part_of g.now inode.now n) (IsUnread result) }
    ensures inside { IfOk result (λ count. count ≤ length levels.new.block) }
    ensures count { IfOk result (λ count. count ≡ bytes_in_block g.now inode.now n) }
    ensures small { IfOk result (λ count. count ≤ 65536) }
{
    let count = bytes_in_block(g, inode, n);
    match read_block(view, g, inode, n, levels) {
        Ok(BlockContents::Data) => Ok(count),
        Ok(BlockContents::Hole) => {
            levels.clear(g.frag);
            Ok(count)
        }
        Err(fault) => Err(fault),
    }
}

/// The first time: consults the first `count` file blocks of a file.
fn consult<V: View>(
    view: &mut V,
    g: &Geometry,
    inode: &Inode,
    count: u32,
    levels: &mut Levels,
) -> Result<(), LookFault>
    requires sound { V.is_sound view.old }
    requires geometry { IsGeometryOn (V.size view.old) (V.count view.old) g.now }
    requires levels { levels.old.fragment ≡ V.size view.old }
    requires few { count ≤ 2 ^ 20 }
    ensures keeps { Keeps V.View view.old view.new }
    ensures levels { levels.new.fragment ≡ levels.old.fragment }
    ensures ok { OnOk result ((bytes : List ℕ) × Reads V.View view.old view.new (front_of g.now inode.now count) (Some (Ok bytes))) }
    ensures err { IfErr result (λ fault. Reads V.View view.old view.new (front_of g.now inode.now count) (option_map Err (refusal_of fault))) }
    ensures consults { Consults V.View view.old view.new (front_of g.now inode.now count) (IsUnread result) }
{
    for n in 0..count {
        match read_part(view, g, inode, n, levels) {
            Ok(_) => {}
            Err(fault) => return Err(fault),
        }
    }
    Ok(())
}

/// Hands on the bytes of a file in its file block `n`.
fn hand_part<V: View, O: Pieces>(
    view: &mut V,
    g: &Geometry,
    inode: &Inode,
    n: u32,
    out: &mut O,
    levels: &mut Levels,
) -> Handed
    requires sound { V.is_sound view.old }
    requires geometry { IsGeometryOn (V.size view.old) (V.count view.old) g.now }
    requires levels { levels.old.fragment ≡ V.size view.old }
    requires block { n < 2 ^ 30 }
    ensures keeps { Keeps V.View view.old view.new }
    ensures levels { levels.new.fragment ≡ levels.old.fragment }
    ensures later { O.faults out.old ≤ O.faults out.new }
    ensures rule { IsHandedPart O.took O.took_part O.faults out.old out.new
        (Reads V.View view.old view.new (part_of g.now inode.now n)) result }
    ensures consults { Consults V.View view.old view.new (part_of g.now inode.now n) (IsUnreadPart result) }
    ensures stays { StaysAtPart result (O.faults out.old) (O.faults out.new) }
    ensures count { HasCount (bytes_in_block g.now inode.now n) result }
{
    match read_part(view, g, inode, n, levels) {
        Ok(count) => match out.piece(&levels.block()[..count]) {
            Ok(()) => Handed::All(count as u32),
            Err(_) => Handed::Failed,
        },
        Err(fault) => Handed::Unread(fault),
    }
}

/// The second time: hands on the bytes of a file in its first `count` file blocks.
fn hand_on<V: View, O: Pieces>(
    view: &mut V,
    g: &Geometry,
    inode: &Inode,
    count: u32,
    out: &mut O,
    levels: &mut Levels,
) -> CatAnswer
    requires sound { V.is_sound view.old }
    requires geometry { IsGeometryOn (V.size view.old) (V.count view.old) g.now }
    requires levels { levels.old.fragment ≡ V.size view.old }
    requires small { inode.now.size < 2 ^ 32 }
    requires few { count ≤ 2 ^ 20 }
    ensures keeps { Keeps V.View view.old view.new }
    ensures levels { levels.new.fragment ≡ levels.old.fragment }
    ensures later { O.faults out.old ≤ O.faults out.new }
    ensures rule { IsHanded O.took O.took_part O.faults out.old out.new count
        (λ k. Reads V.View view.old view.new (front_of g.now inode.now k)) result }
    ensures consults { Consults V.View view.old view.new (front_of g.now inode.now count) (IsUnanswered result) }
    ensures stays { StaysUnlessFailed result (O.faults out.old) (O.faults out.new) }
{
    let mut given = 0;
    for n in 0..count {
        match hand_part(view, g, inode, n, out, levels) {
            Handed::All(bytes) => given += bytes,
            Handed::Unread(_) => return CatAnswer::Cut(given),
            Handed::Failed => return CatAnswer::SinkFault,
        }
    }
    CatAnswer::Given(given)
}

/// Consults the first `count` file blocks of a file, and then hands on its bytes there.
fn hand_twice<V: View, O: Pieces>(
    view: &mut V,
    g: &Geometry,
    inode: &Inode,
    count: u32,
    out: &mut O,
    levels: &mut Levels,
) -> CatAnswer
    requires sound { V.is_sound view.old }
    requires geometry { IsGeometryOn (V.size view.old) (V.count view.old) g.now }
    requires levels { levels.old.fragment ≡ V.size view.old }
    requires small { inode.now.size < 2 ^ 32 }
    requires few { count ≤ 2 ^ 20 }
    ensures keeps { Keeps V.View view.old view.new }
    ensures levels { levels.new.fragment ≡ levels.old.fragment }
    ensures later { O.faults out.old ≤ O.faults out.new }
    ensures rule { IsAnswer O.took O.took_part O.faults out.old out.new
        (Reads V.View view.old view.new (front_of g.now inode.now count)) result }
    ensures consults { Consults V.View view.old view.new (front_of g.now inode.now count) (IsUnanswered result) }
    ensures stays { StaysUnlessFailed result (O.faults out.old) (O.faults out.new) }
{
    match consult(view, g, inode, count, levels) {
        Ok(()) => hand_on(view, g, inode, count, out, levels),
        Err(fault) => refused_answer(fault),
    }
}

/// Hands on the bytes of a regular file.
pub fn hand_file<V: View, O: Pieces>(
    view: &mut V,
    g: &Geometry,
    inode: &Inode,
    out: &mut O,
    levels: &mut Levels,
) -> CatAnswer
    requires sound { V.is_sound view.old }
    requires geometry { IsGeometryOn (V.size view.old) (V.count view.old) g.now }
    requires levels { levels.old.fragment ≡ V.size view.old }
    ensures keeps { Keeps V.View view.old view.new }
    ensures levels { levels.new.fragment ≡ levels.old.fragment }
    ensures later { O.faults out.old ≤ O.faults out.new }
    ensures rule { IsAnswer O.took O.took_part O.faults out.old out.new
        (Reads V.View view.old view.new (contents_of g.now inode.now)) result }
    ensures consults { Consults V.View view.old view.new (contents_of g.now inode.now) (IsUnanswered result) }
    ensures stays { StaysUnlessFailed result (O.faults out.old) (O.faults out.new) }
{
    match file_refusal(inode) {
        Some(refusal) => answer_at(refusal),
        None => hand_twice(view, g, inode, block_count(g, inode), out, levels),
    }
}
