// Opening with what stands beside a state. An array of twelve blocks on three boundaries lost boundary 1, went on without it, and was saved
// over a rack that keeps what was saved last. Block b stood on boundary b mod 3.
ghost use Rattle.std.specs.Prelude.{IfOk};
ghost use Rattle.dg_volume.specs.Volumes.{IsWell, any_phase};
ghost use Rattle.dg_volume_tests.specs.Ready.{IsReady};

use crate::calls::{blank_live, go_on, lose, put};
use crate::even_blocks::read_even;
use dg_io::{Checkpoint, MemRack, Rack, Reduces};
use dg_model::Shape;
use dg_regroup::{FrontRack, LiveRack};
use dg_stop::{Opened, StopRack};
use dg_volume::{
    AnyPhase, CheckpointAnswer, Hot, OpenAnswer, Phase, RegroupAnswer, Volume, open_kept,
};
use std::alloc::Global;
use std::process::Abort;
use std::test::Fail;

// Bytes of a member of three boundaries with seven slots each, and more than those of one of the rack behind, which has each page twice.
const LENGTH: u64 = 29_516;

const BEHIND: u64 = 62_000;

// Bytes of a member of two boundaries.
const SHORTER: u64 = 29_479;

// What may stand beside the state of twelve blocks takes so many bytes.
const ROOM: u32 = 78;

/// Members of 29,479 bytes; three boundaries, of which two are in use, 0 and 2; and two cut blocks, 1 and 7.
const BESIDE: [u8; 24] = [
    0x27, 0x73, 0, 0, 0, 0, 0, 0, 3, 2, 0, 2, 2, 0, 0, 0, 1, 0, 0, 0, 7, 0, 0, 0,
];

/// The byte of each block, where it isn't gone.
const BYTES: [Option<u8>; 12] = [
    Some(1),
    None,
    Some(3),
    Some(4),
    Some(0x44),
    Some(6),
    Some(7),
    None,
    Some(9),
    Some(10),
    Some(0),
    Some(0),
];

/// The blocks that are pending: all that have a site, since there is no superblock.
const PENDING: [u32; 8] = [0, 2, 3, 4, 5, 6, 8, 9];

/// Writes ten blocks, loses boundary 1, goes on without it, writes one of the cut blocks, and saves.
fn lose_and_save<R: Checkpoint + Reduces>(
    rt: &impl Abort,
    alloc: Global,
    volume: &mut Volume<AnyPhase, R>,
) -> Result<(), Fail>
    requires { IsReady any_phase R.Rack R.boundaries volume.old }
{
    for block in 0..10u8 {
        put(alloc, volume, u32::from(block), &[block + 1; 4096])?;
    }
    assert!(rt; lose(volume, 1));
    let left = RegroupAnswer::Regrouped {
        boundaries: 1,
        blocks: 3,
    };
    assert_eq!(rt; go_on(alloc, volume)?, left);
    put(alloc, volume, 4, &[0x44; 4096])?;
    let hot = Hot::new(alloc)?;
    assert_eq!(rt; volume.checkpoint(alloc, &hot)?, CheckpointAnswer::Saved(1));
    Ok(())
}

/// Makes such an array, over a rack with room for so many bytes beside its state.
fn make<R: Rack + Drop>(rt: &impl Abort, alloc: Global, rack: R, room: u32) -> Result<(), Fail> {
    let shape = Shape::check(4096, 12, 3, 6, 1).ok_or("shape")?;
    let double = StopRack::new(alloc, rack, 6, LENGTH, room)?;
    let mut volume = blank_live(alloc, double, shape)?;
    lose_and_save(rt, alloc, &mut volume)
}

/// A rack of the boundaries in use, and the bytes beside the state.
fn live_over<R: Rack + Drop>(
    alloc: Global,
    rack: R,
) -> Result<(LiveRack<FrontRack<StopRack<R>>>, Vec<u8>), Fail> {
    let Opened {
        rack: double,
        extra: beside,
        ..
    } = StopRack::open(alloc, rack)?;
    let live = Vec::from_slice(alloc, b"\x00\x02")?;
    Ok((LiveRack::opened(double, live, SHORTER), beside))
}

/// Each block is what it was, or gone as it was.
fn check_blocks<R: Rack>(rt: &impl Abort, volume: &mut Volume<AnyPhase, R>) -> Result<(), Fail>
    requires { IsWell any_phase R.Rack volume.old }
{
    for block in 0..12u8 {
        assert_eq!(rt; read_even(volume, u32::from(block))?, BYTES[block as usize]);
    }
    Ok(())
}

/// The pending blocks are those that were.
fn check_pending<R: Rack>(rt: &impl Abort, volume: &Volume<AnyPhase, R>)
    requires { IsWell any_phase R.Rack volume.now }
{
    let mut from = 0u32;
    for block in &PENDING {
        assert_eq!(rt; volume.next_pending(from), Some(*block));
        from = block.saturating_add(1);
    }
    assert_eq!(rt; volume.next_pending(from), None);
}

/// The array that is opened with these bytes.
fn open_with<R: Checkpoint + Drop>(
    alloc: Global,
    rack: R,
    beside: &[u8],
) -> Result<Volume<AnyPhase, R>, Fail>
    ensures { IfOk result (IsWell any_phase R.Rack) }
{
    let OpenAnswer::Opened(volume, _hot) = open_kept(alloc, rack, beside)? else {
        return Err("opened".into());
    };
    Ok(volume)
}

/// Opens the array with its own bytes.
fn go_on_kept<R: Checkpoint + Drop>(
    rt: &impl Abort,
    alloc: Global,
    rack: R,
    beside: &[u8],
) -> Result<(), Fail> {
    let mut volume = open_with(alloc, rack, beside)?;
    assert_eq!(rt; volume.live(), b"\x00\x02".as_slice());
    assert!(rt; volume.boundaries() == 3 && volume.is_reduced());
    assert!(rt; volume.phase() == Phase::Loose && volume.lost() == 0);
    check_pending(rt, &volume);
    check_blocks(rt, &mut volume)
}

/// Opens it without bytes: its two boundaries are all, and the blocks that were cut are zeros.
fn go_on_whole<R: Checkpoint + Drop>(rt: &impl Abort, alloc: Global, rack: R) -> Result<(), Fail> {
    let mut volume = open_with(alloc, rack, b"")?;
    assert_eq!(rt; volume.live(), b"\x00\x01".as_slice());
    assert!(rt; volume.boundaries() == 2 && !volume.is_reduced());
    assert_eq!(rt; read_even(&mut volume, 1)?, Some(0));
    assert_eq!(rt; read_even(&mut volume, 2)?, Some(3));
    Ok(())
}

/// Whether no state is found with these bytes.
fn has_no_state<R: Checkpoint + Drop>(alloc: Global, rack: R, beside: &[u8]) -> Result<bool, Fail> {
    match open_kept(alloc, rack, beside)? {
        OpenAnswer::NoState(_) => Ok(true),
        OpenAnswer::Opened(_, _) => Ok(false),
        OpenAnswer::Unclean(_) => Ok(false),
    }
}

/// Opens it with the bytes that the rack keeps.
fn check_kept<R: Rack + Drop>(rt: &impl Abort, alloc: Global, rack: R) -> Result<(), Fail> {
    let (live, beside) = live_over(alloc, rack)?;
    assert_eq!(rt; beside.as_slice(), BESIDE.as_slice());
    go_on_kept(rt, alloc, live, &beside)
}

fn check_whole<R: Rack + Drop>(rt: &impl Abort, alloc: Global, rack: R) -> Result<(), Fail> {
    let (live, _beside) = live_over(alloc, rack)?;
    go_on_whole(rt, alloc, live)
}

fn is_refused<R: Rack + Drop>(alloc: Global, rack: R, beside: &[u8]) -> Result<bool, Fail> {
    let (live, _beside) = live_over(alloc, rack)?;
    has_no_state(alloc, live, beside)
}

#[test]
fn an_array_without_a_boundary_is_opened(rt: HostRuntime) -> Result<(), Fail> {
    let alloc = rt.alloc();
    let mut behind = MemRack::new(alloc, 6, BEHIND, Vec::new(alloc))?;
    make(&rt, alloc, &mut behind, ROOM)?;
    check_kept(&rt, alloc, &mut behind)?;
    check_whole(&rt, alloc, &mut behind)
}

/// Bytes that aren't those of such an array: of no form, since they are too few, or one too many, or the boundaries in use don't ascend; with one
/// boundary in use, or three; with block 0 as a cut one, which has a site, or block 12, which there isn't.
const OTHERS: [&[u8]; 7] = [
    b"\0\0\0",
    b"\x27\x73\0\0\0\0\0\0\x03\x02\x00\x02\0\0\0\0\0",
    b"\x27\x73\0\0\0\0\0\0\x03\x02\x02\x00\0\0\0\0",
    b"\x27\x73\0\0\0\0\0\0\x03\x01\x00\0\0\0\0",
    b"\x27\x73\0\0\0\0\0\0\x03\x03\x00\x01\x02\0\0\0\0",
    b"\x27\x73\0\0\0\0\0\0\x03\x02\x00\x02\x01\0\0\0\0\0\0\0",
    b"\x27\x73\0\0\0\0\0\0\x03\x02\x00\x02\x01\0\0\0\x0c\0\0\0",
];

#[test]
fn other_bytes_are_no_state(rt: HostRuntime) -> Result<(), Fail> {
    let alloc = rt.alloc();
    let mut behind = MemRack::new(alloc, 6, BEHIND, Vec::new(alloc))?;
    make(&rt, alloc, &mut behind, ROOM)?;
    for beside in &OTHERS {
        assert!(rt; is_refused(alloc, &mut behind, beside)?);
    }
    Ok(())
}

// The array can be saved, for it has two cut blocks alone, and not be opened again.
#[test]
fn a_rack_with_less_room_is_no_state(rt: HostRuntime) -> Result<(), Fail> {
    let alloc = rt.alloc();
    let mut behind = MemRack::new(alloc, 6, BEHIND, Vec::new(alloc))?;
    make(&rt, alloc, &mut behind, 77)?;
    assert!(rt; is_refused(alloc, &mut behind, &BESIDE)?);
    assert!(rt; is_refused(alloc, &mut behind, b"")?);
    Ok(())
}
