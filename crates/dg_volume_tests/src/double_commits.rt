// Commits of a volume over a rack that keeps two places for each page, of two boundaries with two members each: what was committed last comes
// back, also where one call fails, or all from one on.
#![tactic(auto, using(crate::proofs::RoomLemmas::stays_roomy, crate::proofs::RoomLemmas::committed_roomy))]

ghost use Rattle.std.specs.Prelude.{IfOk, IfSome};
ghost use Rattle.dg_stop.specs.StopRacks.{stop_room, stop_words};
ghost use Rattle.dg_volume.specs.Volumes.{IsWell, any_phase};
ghost use Rattle.dg_volume_tests.specs.Rooms.{HasRoom};

use crate::even_blocks::{read_even, write_even};
use dg_io::{Checkpoint, CommitAnswer, MemRack, Rack};
use dg_model::Shape;
use dg_stop::StopRack;
use dg_volume::{AnyPhase, Hot, OpenAnswer, SaveAnswer, Volume, open_kept};
use std::alloc::Global;
use std::process::Abort;
use std::test::Fail;

// Bytes of a member of the array, and of one of the rack behind.
const LENGTH: u64 = 22_000;

pub const BEHIND: u64 = 48_000;

// What stands beside the state of an array of eight blocks takes at most so many bytes.
const ROOM: u32 = 30 + 4 * 8;

/// The volume of a blank array.
fn blank<R: Rack + Drop>(alloc: Global, rack: R) -> Result<Volume<AnyPhase, StopRack<R>>, Fail>
    ensures { IfOk result (HasRoom any_phase (stop_words R.Rack) stop_room) }
{
    let Some(shape) = Shape::check(4096, 8, 2, 4, 1) else {
        return Err("shape".into());
    };
    let double = StopRack::new(alloc, rack, 4, LENGTH, ROOM)?;
    match Volume::array(alloc, double, shape) {
        Ok(volume) => Ok(volume.into_any()),
        Err(_) => Err("memory".into()),
    }
}

/// Writes block 3, all of it this byte.
fn put<R: Checkpoint>(alloc: Global, volume: &mut Volume<AnyPhase, R>, byte: u8) -> Result<(), Fail>
    requires { HasRoom any_phase R.Rack R.room_of volume.old }
    ensures { IfOk result (λ done. HasRoom any_phase R.Rack R.room_of volume.new) }
{
    let _answer = write_even(alloc, volume, 3, byte)?;
    Ok(())
}

/// Saves. It answers whether a member is good then.
fn saves<R: Checkpoint>(alloc: Global, volume: &mut Volume<AnyPhase, R>) -> Result<bool, Fail>
    requires { HasRoom any_phase R.Rack R.room_of volume.old }
    ensures { IfOk result (λ saved. HasRoom any_phase R.Rack R.room_of volume.new) }
{
    let hot = Hot::new(alloc)?;
    match volume.save(alloc, &hot) {
        Ok(SaveAnswer::Saved(_)) => Ok(true),
        Ok(SaveAnswer::Lost(_)) => Ok(false),
        Err(_) => Err("memory".into()),
    }
}

/// Keeps the state as it stands.
pub fn commits<R: Checkpoint>(
    alloc: Global,
    volume: &mut Volume<AnyPhase, R>,
) -> Result<CommitAnswer, Fail>
    requires { HasRoom any_phase R.Rack R.room_of volume.old }
    ensures { IfOk result (λ answer. HasRoom any_phase R.Rack R.room_of volume.new) }
{
    match volume.commit(alloc) {
        Ok(answer) => Ok(answer),
        Err(_) => Err("memory".into()),
    }
}

/// Writes block 3, saves, and commits. The members that fell in the commit, or `None` where nothing may be kept.
fn keeps<R: Checkpoint>(
    alloc: Global,
    volume: &mut Volume<AnyPhase, R>,
    byte: u8,
) -> Result<Option<u32>, Fail>
    requires { HasRoom any_phase R.Rack R.room_of volume.old }
    ensures { IfOk result (λ fell. HasRoom any_phase R.Rack R.room_of volume.new) }
{
    put(alloc, volume, byte)?;
    if !saves(alloc, volume)? {
        return Ok(None);
    }
    match commits(alloc, volume)? {
        CommitAnswer::Committed { fell, .. } => Ok(Some(fell)),
        CommitAnswer::Lost => Ok(None),
    }
}

/// So many commits, each of block 3 as a byte by its turn, from 1 on. Then the block is written once more. How many commits were told in a row, and
/// in how many of them a member fell.
fn keep_times<R: Checkpoint>(
    alloc: Global,
    volume: &mut Volume<AnyPhase, R>,
    times: u8,
) -> Result<(u8, u8), Fail>
    requires { HasRoom any_phase R.Rack R.room_of volume.old }
{
    let mut told = 0u8;
    let mut fallen = 0u8;
    for turn in 0..times {
        let Some(fell) = keeps(alloc, volume, turn.saturating_add(1))? else {
            break;
        };
        told = told.saturating_add(1);
        if fell != 0 {
            fallen = fallen.saturating_add(1);
        }
    }
    put(alloc, volume, 0x99)?;
    Ok((told, fallen))
}

/// The same of a new array over a rack.
pub fn keep_over<R: Rack + Drop>(alloc: Global, rack: R, times: u8) -> Result<(u8, u8), Fail> {
    let mut volume = blank(alloc, rack)?;
    keep_times(alloc, &mut volume, times)
}

/// The array that is opened with what its rack keeps, if there is one.
pub fn opened<R: Checkpoint + Drop>(
    alloc: Global,
    rack: R,
    beside: &[u8],
) -> Result<Option<Volume<AnyPhase, R>>, Fail>
    ensures { IfOk result (λ it. IfSome it (IsWell any_phase R.Rack)) }
{
    let OpenAnswer::Opened(volume, _hot) = open_kept(alloc, rack, beside)? else {
        return Ok(None);
    };
    Ok(Some(volume))
}

/// The byte of its block 3.
fn opened_byte<R: Checkpoint + Drop>(
    alloc: Global,
    rack: R,
    beside: &[u8],
) -> Result<Option<u8>, Fail> {
    let Some(mut volume) = opened(alloc, rack, beside)? else {
        return Ok(None);
    };
    match read_even(&mut volume, 3)? {
        Some(byte) => Ok(Some(byte)),
        None => Err("gone".into()),
    }
}

/// The same of the rack behind.
fn kept_byte<R: Rack + Drop>(alloc: Global, rack: R) -> Result<Option<u8>, Fail> {
    let opened = StopRack::open(alloc, rack)?;
    opened_byte(alloc, opened.rack, &opened.extra)
}

/// Commits so many times over a rack in memory, of which so many calls fail from one on. How many commits were told, in how many of them a member
/// fell, and the byte that comes back.
fn keep_and_open(
    alloc: Global,
    times: u8,
    from: u64,
    count: u64,
) -> Result<((u8, u8), Option<u8>), Fail> {
    let mut fails = Vec::new(alloc);
    for call in from..from.saturating_add(count) {
        fails.push(call)?;
    }
    let mut behind = MemRack::new(alloc, 4, BEHIND, fails)?;
    let told = keep_over(alloc, &mut behind, times)?;
    behind.mend();
    let byte = kept_byte(alloc, &mut behind)?;
    Ok((told, byte))
}

#[test]
fn the_last_commit_comes_back(rt: HostRuntime) -> Result<(), Fail> {
    let alloc = rt.alloc();
    assert_eq!(rt; keep_and_open(alloc, 0, 0, 0)?, ((0, 0), None));
    assert_eq!(rt; keep_and_open(alloc, 1, 0, 0)?, ((1, 0), Some(1)));
    assert_eq!(rt; keep_and_open(alloc, 2, 0, 0)?, ((2, 0), Some(2)));
    Ok(())
}

// A commit makes four calls on each of four members, the last of which is its committed header, and a member falls by each of them. One committed
// header is enough: where all behind that of the second commit fail, both are told. So the last two calls aren't come to.
#[test]
fn each_call_of_two_commits(rt: HostRuntime) -> Result<(), Fail> {
    let alloc = rt.alloc();
    let mut fallen = 0u8;
    for call in 0..400u64 {
        let ((told, fell), byte) = keep_and_open(alloc, 2, call, 1)?;
        assert_eq!(rt; (told, byte), (2, Some(2)));
        fallen = fallen.saturating_add(fell);
        let ((told, _fell), byte) = keep_and_open(alloc, 2, call, 400)?;
        assert!(rt; byte.unwrap_or(0) == told || byte == Some(told.saturating_add(1)));
        if told == 2 {
            assert_eq!(rt; fallen, 30);
            return Ok(());
        }
    }
    Err("calls".into())
}
