// Single disks of an array that goes on without a lost boundary, over groups of three disks with parity: eight blocks on four boundaries, of which
// block b is on boundary b mod 4. A disk is given by its boundary's number, also where the boundary stands at another place.
ghost use Rattle.std.specs.Prelude.{◌≤◌, IfOk};
ghost use Rattle.dg_model.specs.Shapes.{IsShape};
ghost use Rattle.dg_volume.specs.Volumes.{any_phase};
ghost use Rattle.dg_volume_tests.specs.Grouped.{IsOfLiveGroups};

use crate::disk_faults::{Call, MENDED, ROOM};
use crate::even_blocks::{read_even, write_even};
use dg_io::{MemRack, Rack};
use dg_model::Shape;
use dg_parity::ParityRack;
use dg_regroup::{LiveRack, names_tell_boundaries};
use dg_volume::{
    AnyPhase, DropDiskAnswer, FailAnswer, MendDiskAnswer, RegroupAnswer, Volume, WriteAnswer,
};
use std::alloc::Global;
use std::process::Abort;
use std::test::Fail;

/// A volume over the boundaries in use.
type Live<R> = Volume<AnyPhase, LiveRack<ParityRack<R>>>;

/// The volume of a blank array.
fn blank<R: Rack + Drop>(alloc: Global, rack: R, shape: Shape) -> Result<Live<R>, Fail>
    requires shape { IsShape shape }
    requires few { shape.b ≤ 4 }
    ensures { IfOk result (IsOfLiveGroups any_phase R.Rack) }
{
    names_tell_boundaries();
    let groups = ParityRack::new(alloc, rack, 4, 3)?;
    let live = LiveRack::of_all(alloc, groups)?;
    match Volume::array(alloc, live, shape) {
        Ok(volume) => Ok(volume.into_any()),
        Err(_) => Err("memory".into()),
    }
}

/// Writes a block.
fn writes<R: Rack>(
    alloc: Global,
    volume: &mut Live<R>,
    block: u32,
    byte: u8,
) -> Result<WriteAnswer, Fail>
    requires { IsOfLiveGroups any_phase R.Rack volume.old }
    ensures { IfOk result (λ answer. IsOfLiveGroups any_phase R.Rack volume.new) }
{
    let answer = write_even(alloc, volume, block, byte)?;
    Ok(answer)
}

/// Reads a block.
fn reads<R: Rack>(volume: &mut Live<R>, block: u32) -> Result<Option<u8>, Fail>
    requires { IsOfLiveGroups any_phase R.Rack volume.old }
    ensures { IfOk result (λ byte. IsOfLiveGroups any_phase R.Rack volume.new) }
{
    let answer = read_even(volume, block)?;
    Ok(answer)
}

/// Writes all blocks, each of which is one byte: 1 more than its number. It answers whether that was done.
fn fill<R: Rack>(alloc: Global, volume: &mut Live<R>) -> Result<bool, Fail>
    requires { IsOfLiveGroups any_phase R.Rack volume.old }
    ensures { IfOk result (λ done. IsOfLiveGroups any_phase R.Rack volume.new) }
{
    for block in 0..8u8 {
        let answer = writes(alloc, volume, u32::from(block), block + 1)?;
        if answer != WriteAnswer::Written {
            return Ok(false);
        }
    }
    Ok(true)
}

/// Whether the blocks are these bytes, or gone.
fn has_blocks<R: Rack>(volume: &mut Live<R>, bytes: &[Option<u8>; 8]) -> Result<bool, Fail>
    requires { IsOfLiveGroups any_phase R.Rack volume.old }
    ensures { IfOk result (λ has. IsOfLiveGroups any_phase R.Rack volume.new) }
{
    for block in 0..8u8 {
        let byte = reads(volume, u32::from(block))?;
        if byte != bytes[block as usize] {
            return Ok(false);
        }
    }
    Ok(true)
}

/// A disk goes out.
fn drops<R: Rack>(volume: &mut Live<R>, boundary: u32, disk: u32) -> DropDiskAnswer
    requires { IsOfLiveGroups any_phase R.Rack volume.old }
    ensures { IsOfLiveGroups any_phase R.Rack volume.new }
{
    volume.drop_disk(boundary, disk)
}

/// A disk comes back.
fn mends<R: Rack>(volume: &mut Live<R>, boundary: u32, disk: u32) -> MendDiskAnswer
    requires { IsOfLiveGroups any_phase R.Rack volume.old }
    ensures { IsOfLiveGroups any_phase R.Rack volume.new }
{
    volume.mend(boundary, disk)
}

/// Whether a call has the answer.
fn answers_so<R: Rack>(volume: &mut Live<R>, call: Call) -> bool
    requires { IsOfLiveGroups any_phase R.Rack volume.old }
    ensures { IsOfLiveGroups any_phase R.Rack volume.new }
{
    match call {
        Call::Drop(boundary, disk, answer) => drops(volume, boundary, disk) == answer,
        Call::Mend(boundary, disk, answer) => mends(volume, boundary, disk) == answer,
    }
}

/// Makes calls. It answers whether the answers are these.
fn answers<R: Rack>(volume: &mut Live<R>, calls: &[Call]) -> bool
    requires { IsOfLiveGroups any_phase R.Rack volume.old }
    ensures { IsOfLiveGroups any_phase R.Rack volume.new }
{
    let mut same = true;
    for call in calls {
        same = answers_so(volume, *call) && same;
    }
    same
}

/// Goes on without the lost boundaries.
fn goes_on<R: Rack>(alloc: Global, volume: &mut Live<R>) -> Result<RegroupAnswer, Fail>
    requires { IsOfLiveGroups any_phase R.Rack volume.old }
    ensures { IfOk result (λ answer. IsOfLiveGroups any_phase R.Rack volume.new) }
{
    match volume.regroup(alloc) {
        Ok(answer) => Ok(answer),
        Err(_) => Err("memory".into()),
    }
}

/// The first member of a boundary fails.
fn fails<R: Rack>(volume: &mut Live<R>, boundary: u32) -> FailAnswer
    requires { IsOfLiveGroups any_phase R.Rack volume.old }
    ensures { IsOfLiveGroups any_phase R.Rack volume.new }
{
    volume.fail(boundary, 0)
}

/// The lost boundaries, by their places.
fn lost<R: Rack>(volume: &Live<R>) -> u16
    requires { IsOfLiveGroups any_phase R.Rack volume.now }
{
    volume.lost()
}

/// One boundary with its two blocks was taken out of use.
const ONE_LESS: RegroupAnswer = RegroupAnswer::Regrouped {
    boundaries: 1,
    blocks: 2,
};

/// Two disks of boundary 1 go out, so it is lost. The third one may still go out.
const LOSES: [Call; 5] = [
    Call::Drop(1, 0, DropDiskAnswer::Dropped),
    Call::Drop(1, 2, DropDiskAnswer::Dropped),
    Call::Drop(1, 0, DropDiskAnswer::Already),
    Call::Mend(1, 0, MendDiskAnswer::Lost),
    Call::Mend(1, 1, MendDiskAnswer::Lost),
];

/// It is out of use, so none of its disks goes out or comes back, also the one that wasn't out. The array has no fewer numbers by that.
const OUT_OF_USE: [Call; 8] = [
    Call::Drop(1, 0, DropDiskAnswer::Already),
    Call::Drop(1, 1, DropDiskAnswer::Already),
    Call::Mend(1, 0, MendDiskAnswer::Lost),
    Call::Mend(1, 1, MendDiskAnswer::Lost),
    Call::Drop(1, 3, DropDiskAnswer::Range),
    Call::Mend(1, 3, MendDiskAnswer::Range),
    Call::Drop(4, 0, DropDiskAnswer::Range),
    Call::Mend(4, 0, MendDiskAnswer::Range),
];

/// Boundary 3 stands at place 2, and boundary 2 at place 1. A disk goes out, and comes back; then two go out, by which boundary 3 is lost.
const IN_USE: [Call; 11] = [
    Call::Drop(3, 1, DropDiskAnswer::Dropped),
    Call::Drop(3, 1, DropDiskAnswer::Already),
    Call::Mend(2, 1, MendDiskAnswer::NotOut),
    Call::Mend(3, 1, MENDED),
    Call::Mend(3, 1, MendDiskAnswer::NotOut),
    Call::Drop(2, 0, DropDiskAnswer::Dropped),
    Call::Mend(3, 0, MendDiskAnswer::NotOut),
    Call::Drop(3, 0, DropDiskAnswer::Dropped),
    Call::Drop(3, 2, DropDiskAnswer::Dropped),
    Call::Mend(3, 0, MendDiskAnswer::Lost),
    Call::Mend(2, 2, MendDiskAnswer::NotOut),
];

/// Boundary 3 is out of use, too. A disk of boundary 2 was out before.
const WITHOUT_BOTH: [Call; 5] = [
    Call::Drop(3, 1, DropDiskAnswer::Already),
    Call::Mend(3, 1, MendDiskAnswer::Lost),
    Call::Drop(2, 0, DropDiskAnswer::Already),
    Call::Mend(2, 0, MENDED),
    Call::Mend(0, 0, MendDiskAnswer::NotOut),
];

/// The group of boundary 0 is whole, and its member failed: its disks go out, and none comes back.
const FAILED: [Call; 4] = [
    Call::Mend(0, 0, MendDiskAnswer::Lost),
    Call::Drop(0, 0, DropDiskAnswer::Dropped),
    Call::Mend(0, 0, MendDiskAnswer::Lost),
    Call::Drop(0, 0, DropDiskAnswer::Already),
];

/// The bytes without boundary 1, and without boundary 3, too. A block that was cut is gone until it is written.
const FIRST: [Option<u8>; 8] = [
    Some(1),
    None,
    Some(3),
    Some(4),
    Some(5),
    None,
    Some(7),
    Some(8),
];

const SECOND: [Option<u8>; 8] = [Some(1), None, Some(3), None, Some(5), None, Some(7), None];

/// Boundary 1 is lost by its disks, and taken out of use.
fn lose_first<R: Rack>(rt: &impl Abort, alloc: Global, volume: &mut Live<R>) -> Result<(), Fail>
    requires { IsOfLiveGroups any_phase R.Rack volume.old }
    ensures { IfOk result (λ done. IsOfLiveGroups any_phase R.Rack volume.new) }
{
    assert!(rt; answers(volume, &LOSES));
    assert_eq!(rt; lost(volume), 2);
    assert!(rt; has_blocks(volume, &FIRST)?);
    assert_eq!(rt; goes_on(alloc, volume)?, ONE_LESS);
    assert_eq!(rt; volume.live(), b"\x00\x02\x03".as_slice());
    assert!(rt; answers(volume, &OUT_OF_USE));
    assert!(rt; has_blocks(volume, &FIRST)?);
    Ok(())
}

/// Boundary 3 is lost at place 2, and taken out of use.
fn lose_second<R: Rack>(rt: &impl Abort, alloc: Global, volume: &mut Live<R>) -> Result<(), Fail>
    requires { IsOfLiveGroups any_phase R.Rack volume.old }
{
    assert!(rt; answers(volume, &IN_USE));
    assert_eq!(rt; lost(volume), 4);
    assert_eq!(rt; goes_on(alloc, volume)?, ONE_LESS);
    assert_eq!(rt; volume.live(), b"\x00\x02".as_slice());
    assert!(rt; answers(volume, &WITHOUT_BOTH));
    assert!(rt; has_blocks(volume, &SECOND)?);
    assert_eq!(rt; fails(volume, 0), FailAnswer::Failed);
    assert!(rt; answers(volume, &FAILED));
    Ok(())
}

fn lose_boundaries<R: Rack + Drop>(rt: &impl Abort, alloc: Global, rack: R) -> Result<(), Fail> {
    let Some(shape) = Shape::check(4096, 8, 4, 4, 1) else {
        return Err("shape".into());
    };
    let mut volume = blank(alloc, rack, shape)?;
    assert!(rt; fill(alloc, &mut volume)?);
    lose_first(rt, alloc, &mut volume)?;
    lose_second(rt, alloc, &mut volume)
}

// The disks of four groups.
#[test]
fn disks_of_boundaries_out_of_use(rt: HostRuntime) -> Result<(), Fail> {
    let alloc = rt.alloc();
    lose_boundaries(&rt, alloc, MemRack::new(alloc, 59, ROOM, Vec::new(alloc))?)
}
