// The plan.
ghost use Rattle.std.specs.Prelude.{◌≡◌, ◌<◌, ◌≤◌, ◌^◌, ℕ, Some, Err, IfOk, IfErr, length, replicate};
ghost use Rattle.std.specs.BTreeMap.{get};
ghost use Rattle.std.specs.Ordering.{nat_cmp};
ghost use Rattle.dg_model.specs.Homes.{Ascend};
ghost use Rattle.dg_model.specs.Plans.{plan};
ghost use Rattle.dg_model.specs.Shapes.{IsShape};
ghost use Rattle.dg_plan.specs.Placings.{homes_in, placed_of};
ghost use Rattle.dg_plan.specs.Planned.{IsPlanned, KeepsRules};
ghost use Rattle.dg_plan.specs.Steps.{Ends, FilesGo};

use crate::directories::table_of_directories;
use crate::files::files_of;
use crate::kept::place_kept;
use crate::marks::mark_blocks;
use crate::placings::{Placing, stay_all};
use crate::strays::place_strays;
use crate::target_lists::Marks;
use crate::{Home, Homes, NoMemory, NoRoom, Parent, Parents, Shape, Targets, Want, Wants};
use std::alloc::Global;
use std::collections::BTreeMap;

/// The room of all boundaries, where nothing has a place.
fn full_rooms(alloc: Global, shape: &Shape) -> Result<Vec<u32>, NoMemory>
    ensures { IfOk result (λ rooms. rooms.items ≡ replicate shape.now.b shape.now.k) }
{
    match vec![in alloc; shape.k; usize::from(shape.b)] {
        Ok(rooms) => Ok(rooms),
        Err(_) => Err(NoMemory),
    }
}

/// A mark for each block, without a target.
fn no_marks(alloc: Global, blocks: u32) -> Result<Vec<u16>, NoMemory>
    ensures { IfOk result (λ marks. marks.items ≡ replicate blocks 0) }
{
    match vec![in alloc; 0; blocks as usize] {
        Ok(marks) => Ok(marks),
        Err(_) => Err(NoMemory),
    }
}

/// The homes of a map, ascending by inode.
fn list_of_homes(alloc: Global, homes: &BTreeMap<u32, u8>) -> Result<Homes, NoMemory>
    ensures list { IfOk result (λ list. list ≡ homes_in homes.now.entries) }
    ensures ascend { IfOk result Ascend }
{
    let mut list = Vec::new(alloc);
    for (inode, boundary) in homes.iter() {
        let home = Home {
            inode: *inode,
            boundary: *boundary,
        };
        let Ok(()) = list.push(home) else {
            return Err(NoMemory);
        };
    }
    Ok(Homes::new(list))
}

/// Steps 2 and 3: the files get their homes. The first one that finds no room, where one doesn't.
fn place_files(
    alloc: Global,
    rooms: Vec<u32>,
    wants: &[Option<Want>],
    parents: &[Parent],
    homes: &[Home],
) -> Result<Result<Placing, u32>, NoMemory>
    requires blocks { length wants.now ≤ 2 ^ 20 }
    requires homes { Ascend homes.now }
    requires some { 0 < length rooms.items }
    requires few { length rooms.items ≤ 16 }
    ensures { IfOk result (FilesGo wants.now parents.now homes.now rooms.items) }
{
    let files = files_of(alloc, wants)?;
    let directories = table_of_directories(alloc, parents)?;
    let mut placing = stay_all(alloc, rooms, &files, &directories, homes)?;
    match placing.place_all(&files, &directories)? {
        Some(inode) => Ok(Err(inode)),
        None => Ok(Ok(placing)),
    }
}

/// Step 4, and the targets of all blocks.
fn place_rest(
    alloc: Global,
    mut placing: Placing,
    shape: &Shape,
    wants: &[Option<Want>],
) -> Result<Result<Targets, NoRoom>, NoMemory>
    requires shape { IsShape shape.now }
    requires wants { length wants.now ≡ shape.now.n }
    requires rooms { length placing.rooms.items ≡ shape.now.b }
    requires homes { (i s : ℕ) → get nat_cmp placing.homes i ≡ Some s → s < 16 }
    ensures { IfOk result (Ends shape.now wants.now (placed_of placing)) }
{
    let mut marks = no_marks(alloc, shape.n)?;
    if !place_strays(&mut placing.rooms, &mut marks, wants) {
        return Ok(Err(NoRoom::Strays));
    }
    mark_blocks(&mut marks, shape, &placing.homes, wants);
    let homes = list_of_homes(alloc, &placing.homes)?;
    Ok(Ok(Targets {
        of: Marks::new(marks),
        homes,
    }))
}

/// Where the written blocks are to stand, by what they are, the homes that files have, and the directories of files. Homes may be on
/// boundaries that the array doesn't have: such a file is set aside.
pub fn plan(
    alloc: Global,
    wants: &Wants,
    homes: &Homes,
    parents: &Parents,
    shape: &Shape,
) -> Result<Result<Targets, NoRoom>, NoMemory>
    requires shape { IsShape shape.now }
    requires size { length wants.now ≡ shape.now.n }
    requires homes { Ascend homes.now }
    ensures planned { IfOk result (λ found. IfOk found (IsPlanned shape.now wants.now parents.now homes.now)) }
    ensures cramped { IfOk result (λ found. IfErr found (λ bad. plan shape.now wants.now parents.now homes.now ≡ Err bad)) }
    ensures rules { IfOk result (λ found. IfOk found (KeepsRules shape.now wants.now)) }
{
    let wants = wants.as_slice();
    let mut rooms = full_rooms(alloc, shape)?;
    if !place_kept(&mut rooms, shape, wants) {
        return Ok(Err(NoRoom::System));
    }
    match place_files(alloc, rooms, wants, parents.as_slice(), homes.as_slice())? {
        Ok(placing) => place_rest(alloc, placing, shape, wants),
        Err(inode) => Ok(Err(NoRoom::Inode(inode))),
    }
}
