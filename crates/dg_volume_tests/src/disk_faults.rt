// Single disks of an array over groups of three disks with parity: eight blocks on two boundaries, of which block b is on boundary b mod 2. A
// member has 21,219 bytes, in 21 stripes of two chunks.
ghost use Rattle.std.specs.Prelude.{IfOk, IfSome};
ghost use Rattle.dg_volume.specs.Volumes.{any_phase};
ghost use Rattle.dg_volume_tests.specs.Grouped.{IsOfGroups};

use crate::even_blocks::{read_even, write_even};
use dg_io::{MemRack, Rack};
use dg_model::Shape;
use dg_parity::ParityRack;
use dg_volume::{AnyPhase, DropDiskAnswer, MendDiskAnswer, Volume, WriteAnswer};
use std::alloc::Global;
use std::process::Abort;
use std::test::Fail;

// Bytes of a disk.
pub const ROOM: u64 = 512 * 22;

pub const MENDED: MendDiskAnswer = MendDiskAnswer::Mended(21);

/// A volume over groups.
type Grouped<R> = Volume<AnyPhase, ParityRack<R>>;

/// A rack in memory that has the disks of two groups, of which this call fails.
fn disks(alloc: Global, fails: &[u64]) -> Result<MemRack, Fail> {
    Ok(MemRack::new(alloc, 43, ROOM, fails.to_vec(alloc)?)?)
}

/// Writes a block.
fn writes<R: Rack>(
    alloc: Global,
    volume: &mut Grouped<R>,
    block: u32,
    byte: u8,
) -> Result<WriteAnswer, Fail>
    requires { IsOfGroups any_phase R.Rack volume.old }
    ensures { IfOk result (λ answer. IsOfGroups any_phase R.Rack volume.new) }
{
    let answer = write_even(alloc, volume, block, byte)?;
    Ok(answer)
}

/// Reads a block.
fn reads<R: Rack>(volume: &mut Grouped<R>, block: u32) -> Result<Option<u8>, Fail>
    requires { IsOfGroups any_phase R.Rack volume.old }
    ensures { IfOk result (λ byte. IsOfGroups any_phase R.Rack volume.new) }
{
    let answer = read_even(volume, block)?;
    Ok(answer)
}

/// Writes all blocks. It answers whether that was done.
fn fill<R: Rack>(alloc: Global, volume: &mut Grouped<R>, first: u8) -> Result<bool, Fail>
    requires { IsOfGroups any_phase R.Rack volume.old }
    ensures { IfOk result (λ done. IsOfGroups any_phase R.Rack volume.new) }
{
    for block in 0..8u8 {
        let byte = first.saturating_add(block);
        let answer = writes(alloc, volume, u32::from(block), byte)?;
        if answer != WriteAnswer::Written {
            return Ok(false);
        }
    }
    Ok(true)
}

/// The volume of a blank array.
fn blank<R: Rack + Drop>(alloc: Global, rack: R) -> Result<Grouped<R>, Fail>
    ensures { IfOk result (IsOfGroups any_phase R.Rack) }
{
    let Some(shape) = Shape::check(4096, 8, 2, 4, 1) else {
        return Err("shape".into());
    };
    let groups = ParityRack::new(alloc, rack, 2, 3)?;
    match Volume::array(alloc, groups, shape) {
        Ok(volume) => Ok(volume.into_any()),
        Err(_) => Err("memory".into()),
    }
}

/// A disk goes out.
fn drops<R: Rack>(volume: &mut Grouped<R>, boundary: u32, disk: u32) -> DropDiskAnswer
    requires { IsOfGroups any_phase R.Rack volume.old }
    ensures { IsOfGroups any_phase R.Rack volume.new }
{
    volume.drop_disk(boundary, disk)
}

/// A disk comes back.
fn mends<R: Rack>(volume: &mut Grouped<R>, boundary: u32, disk: u32) -> MendDiskAnswer
    requires { IsOfGroups any_phase R.Rack volume.old }
    ensures { IsOfGroups any_phase R.Rack volume.new }
{
    volume.mend(boundary, disk)
}

/// How many blocks are gone, each with its boundary. All others are what was written last, from this byte on.
fn count_gone<R: Rack>(volume: &mut Grouped<R>, first: u8) -> Result<u32, Fail>
    requires { IsOfGroups any_phase R.Rack volume.old }
    ensures { IfOk result (λ gone. IsOfGroups any_phase R.Rack volume.new) }
{
    let mut gone = 0u32;
    for block in 0..8u8 {
        match reads(volume, u32::from(block))? {
            Some(byte) => if byte != first.saturating_add(block) {
                return Err("byte".into());
            },
            None => if volume.lost() >> u32::from(block % 2) & 1 == 1 {
                gone = gone.saturating_add(1);
            } else {
                return Err("gone".into());
            },
        }
    }
    Ok(gone)
}

/// A call on a disk, given by its boundary and its place, and the answer.
#[derive(Clone, Copy)]
pub enum Call {
    Drop(u32, u32, DropDiskAnswer),
    Mend(u32, u32, MendDiskAnswer),
}

/// Makes calls. It answers whether the answers are these.
fn answers<R: Rack>(volume: &mut Grouped<R>, calls: &[Call]) -> bool
    requires { IsOfGroups any_phase R.Rack volume.old }
    ensures { IsOfGroups any_phase R.Rack volume.new }
{
    let mut same = true;
    for call in calls {
        same = answers_so(volume, *call) && same;
    }
    same
}

fn answers_so<R: Rack>(volume: &mut Grouped<R>, call: Call) -> bool
    requires { IsOfGroups any_phase R.Rack volume.old }
    ensures { IsOfGroups any_phase R.Rack volume.new }
{
    match call {
        Call::Drop(boundary, disk, answer) => drops(volume, boundary, disk) == answer,
        Call::Mend(boundary, disk, answer) => mends(volume, boundary, disk) == answer,
    }
}

/// No such boundary, no such disk, no disk out; then one is out.
const FIRST: [Call; 8] = [
    Call::Drop(2, 0, DropDiskAnswer::Range),
    Call::Drop(0, 3, DropDiskAnswer::Range),
    Call::Mend(2, 0, MendDiskAnswer::Range),
    Call::Mend(1, 3, MendDiskAnswer::Range),
    Call::Mend(0, 1, MendDiskAnswer::NotOut),
    Call::Drop(0, 1, DropDiskAnswer::Dropped),
    Call::Drop(0, 1, DropDiskAnswer::Already),
    Call::Drop(1, 2, DropDiskAnswer::Dropped),
];

/// Each is back, and another one is out in its place.
const SECOND: [Call; 5] = [
    Call::Mend(0, 2, MendDiskAnswer::NotOut),
    Call::Mend(0, 1, MENDED),
    Call::Drop(0, 2, DropDiskAnswer::Dropped),
    Call::Mend(1, 2, MENDED),
    Call::Drop(1, 0, DropDiskAnswer::Dropped),
];

/// A second disk of the first boundary is out, so it is lost, and no disk of it comes back.
const THIRD: [Call; 6] = [
    Call::Drop(0, 0, DropDiskAnswer::Dropped),
    Call::Drop(0, 0, DropDiskAnswer::Already),
    Call::Mend(0, 0, MendDiskAnswer::Lost),
    Call::Mend(0, 1, MendDiskAnswer::Lost),
    Call::Drop(0, 1, DropDiskAnswer::Dropped),
    Call::Mend(1, 0, MENDED),
];

fn lose_disks<R: Rack + Drop>(rt: &impl Abort, alloc: Global, rack: R) -> Result<(), Fail> {
    let mut volume = blank(alloc, rack)?;
    assert!(rt; fill(alloc, &mut volume, 1)?);
    assert!(rt; answers(&mut volume, &FIRST));
    assert_eq!(rt; count_gone(&mut volume, 1)?, 0);
    assert!(rt; fill(alloc, &mut volume, 11)?);
    assert!(rt; answers(&mut volume, &SECOND));
    assert_eq!(rt; count_gone(&mut volume, 11)?, 0);
    assert!(rt; answers(&mut volume, &THIRD));
    assert_eq!(rt; count_gone(&mut volume, 11)?, 4);
    Ok(())
}

#[test]
fn disks_are_dropped_and_mended(rt: HostRuntime) -> Result<(), Fail> {
    let alloc = rt.alloc();
    lose_disks(&rt, alloc, disks(alloc, &[])?)
}

/// Whether no disk is out but the middle one of the first group.
fn is_clean<R: Rack>(volume: &mut Grouped<R>) -> bool
    requires { IsOfGroups any_phase R.Rack volume.old }
    ensures { IsOfGroups any_phase R.Rack volume.new }
{
    let calls = [
        Call::Mend(0, 0, MendDiskAnswer::NotOut),
        Call::Mend(0, 2, MendDiskAnswer::NotOut),
        Call::Mend(1, 0, MendDiskAnswer::NotOut),
        Call::Mend(1, 1, MendDiskAnswer::NotOut),
        Call::Mend(1, 2, MendDiskAnswer::NotOut),
    ];
    answers(volume, &calls)
}

/// A volume that was written, with the middle disk of the first group out, and written again. `None` where a call failed in that.
fn without_disk<R: Rack + Drop>(alloc: Global, rack: R) -> Result<Option<Grouped<R>>, Fail>
    ensures { IfOk result (λ it. IfSome it (IsOfGroups any_phase R.Rack)) }
{
    let mut volume = blank(alloc, rack)?;
    if !fill(alloc, &mut volume, 1)? {
        return Ok(None);
    }
    if drops(&mut volume, 0, 1) != DropDiskAnswer::Dropped {
        return Ok(None);
    }
    if !fill(alloc, &mut volume, 11)? {
        return Ok(None);
    }
    if !is_clean(&mut volume) {
        return Ok(None);
    }
    Ok(Some(volume))
}

/// The answer to the mending of that disk, and those to the mending of each disk then. The blocks are what they were, or gone with their
/// boundary; so they are where the first disk is out behind that.
fn mend_all<R: Rack>(rt: &impl Abort, volume: &mut Grouped<R>) -> Result<[MendDiskAnswer; 4], Fail>
    requires { IsOfGroups any_phase R.Rack volume.old }
{
    let first = mends(volume, 0, 1);
    let gone = if first == MendDiskAnswer::Lost { 4 } else { 0 };
    assert_eq!(rt; count_gone(volume, 11)?, gone);
    let again = mends(volume, 0, 1);
    let others = (mends(volume, 0, 0), mends(volume, 0, 2));
    let dropped = drops(volume, 0, 0);
    assert!(rt; gone == 4 || dropped == DropDiskAnswer::Dropped);
    assert_eq!(rt; count_gone(volume, 11)?, gone);
    Ok([first, again, others.0, others.1])
}

/// The same of such a volume over a rack.
fn mend_over<R: Rack + Drop>(
    rt: &impl Abort,
    alloc: Global,
    rack: R,
) -> Result<Option<[MendDiskAnswer; 4]>, Fail> {
    match without_disk(alloc, rack)? {
        Some(mut volume) => Ok(Some(mend_all(rt, &mut volume)?)),
        None => Ok(None),
    }
}

const NOT_OUT: MendDiskAnswer = MendDiskAnswer::NotOut;

/// The disk stays out, and comes back at the next call.
const STAYS: [MendDiskAnswer; 4] = [MendDiskAnswer::Failed, MENDED, NOT_OUT, NOT_OUT];

/// A disk from which it is filled goes out, too.
const LOSES: [MendDiskAnswer; 4] = [MendDiskAnswer::Lost; 4];

/// Where each call of the mending fails: the disk is made anew; each of the others is read and the disk written, for 16 stripes and for 5; then
/// each header is written. A disk whose header fails is out. The call behind them is a read of the first disk, which is out then.
const MENDINGS: [[MendDiskAnswer; 4]; 11] = [
    STAYS,
    LOSES,
    LOSES,
    STAYS,
    LOSES,
    LOSES,
    STAYS,
    [MENDED, NOT_OUT, MENDED, NOT_OUT],
    STAYS,
    [MENDED, NOT_OUT, NOT_OUT, MENDED],
    [MENDED, NOT_OUT, MENDED, NOT_OUT],
];

#[test]
fn each_call_of_a_mending(rt: HostRuntime) -> Result<(), Fail> {
    let alloc = rt.alloc();
    let mut row = 0usize;
    for call in 0..2000u64 {
        let Some(want) = MENDINGS.get(row) else {
            return Ok(());
        };
        if let Some(found) = mend_over(&rt, alloc, disks(alloc, &[call])?)? {
            assert_eq!(rt; found, *want);
            row = row.saturating_add(1);
        }
    }
    Err("calls".into())
}

/// Whether the second boundary is lost by the drop of a disk, and the answers then: to the disk that comes back, and to the others that go out.
type Dropping = (bool, MendDiskAnswer, DropDiskAnswer, DropDiskAnswer);

/// The middle disk of the second group goes out, and a call fails in that or behind it, by which a boundary is lost.
fn drop_all<R: Rack>(rt: &impl Abort, volume: &mut Grouped<R>) -> Result<Dropping, Fail>
    requires { IsOfGroups any_phase R.Rack volume.old }
{
    assert_eq!(rt; drops(volume, 1, 1), DropDiskAnswer::Dropped);
    let is_lost = volume.lost() == 2;
    assert_eq!(rt; count_gone(volume, 11)?, 4);
    let back = mends(volume, 1, 1);
    Ok((is_lost, back, drops(volume, 1, 0), drops(volume, 1, 2)))
}

/// The same of such a volume over a rack.
fn drop_over<R: Rack + Drop>(
    rt: &impl Abort,
    alloc: Global,
    rack: R,
) -> Result<Option<Dropping>, Fail> {
    match without_disk(alloc, rack)? {
        Some(mut volume) => Ok(Some(drop_all(rt, &mut volume)?)),
        None => Ok(None),
    }
}

const DROPPED: DropDiskAnswer = DropDiskAnswer::Dropped;

const ALREADY: DropDiskAnswer = DropDiskAnswer::Already;

/// Where each call of the drop fails: the headers of the two others are written, and the one whose header fails goes out, too. The call behind
/// them is a read of the first group, of which a second disk is out by that.
const DROPPINGS: [Dropping; 3] = [
    (true, MendDiskAnswer::Lost, ALREADY, DROPPED),
    (true, MendDiskAnswer::Lost, DROPPED, ALREADY),
    (false, MENDED, DROPPED, DROPPED),
];

#[test]
fn each_call_of_a_drop(rt: HostRuntime) -> Result<(), Fail> {
    let alloc = rt.alloc();
    let mut row = 0usize;
    for call in 0..2000u64 {
        let Some(want) = DROPPINGS.get(row) else {
            return Ok(());
        };
        if let Some(found) = drop_over(&rt, alloc, disks(alloc, &[call])?)? {
            assert_eq!(rt; found, *want);
            row = row.saturating_add(1);
        }
    }
    Err("calls".into())
}
