// Calls that fail while a volume over a rack that keeps a checkpoint is saved: once each call alone, and once all from it on.
#![tactic(auto)]

ghost use Rattle.std.specs.Prelude.{◌+◌, ◌*◌, ◌≤◌, IfOk, IfSome};
ghost use Rattle.dg_volume.specs.Volumes.{IsWell, any_phase, loose_phase, rack_of, shape_of as volume_shape};

use crate::written::{rack, shape_of};
use dg_io::{Checkpoint, CommitAnswer, MemRack, Rack};
use dg_model::Shape;
use dg_regroup::LiveRack;
use dg_stop::StopRack;
use dg_volume::{AnyPhase, CheckpointAnswer, Hot, Loose, OpenAnswer, ReadAnswer, Volume, open};
use std::alloc::Global;
use std::process::Abort;
use std::test::Fail;

// Bytes of a member of the array, and of one of the rack behind.
const LENGTH: u64 = 50_000;

const BEHIND: u64 = 110_000;

// What stands beside the state of an array of 64 blocks takes at most so many bytes.
const ROOM: u32 = 30 + 4 * 64;

/// Writes block 3, all of it this byte, and saves. It answers whether that is kept.
fn keep<R: Checkpoint>(
    alloc: Global,
    volume: &mut Volume<AnyPhase, R>,
    byte: u8,
) -> Result<bool, Fail>
    requires { IsWell any_phase R.Rack volume.old }
    ensures { IfOk result (λ kept. IsWell any_phase R.Rack volume.new) }
{
    let bytes = [byte; 1024];
    let size = volume.shape().l;
    if size != 1024 {
        return Err("size".into());
    }
    let _answer = volume.write_block(alloc, 3, &bytes)?;
    let hot = Hot::new(alloc)?;
    match volume.checkpoint(alloc, &hot)? {
        CheckpointAnswer::Saved(_) => Ok(true),
        CheckpointAnswer::Lost(_) => Ok(false),
        CheckpointAnswer::NotSaved => Err("not saved".into()),
    }
}

/// Writes and saves an array twice. It answers whether that was kept, each time.
fn keep_twice<R: Rack + Drop>(alloc: Global, rack: R) -> Result<(bool, bool), Fail> {
    let shape = Shape::check(1024, 64, 2, 40, 1).ok_or("shape")?;
    let double = StopRack::new(alloc, rack, 4, LENGTH, ROOM)?;
    let live = LiveRack::of_all(alloc, double)?;
    let mut volume = match Volume::array(alloc, live, shape) {
        Ok(blank) => blank.into_any(),
        Err(_) => return Err("memory".into()),
    };
    let first = keep(alloc, &mut volume, 1)?;
    let second = keep(alloc, &mut volume, 2)?;
    Ok((first, second))
}

/// The first byte of block 3.
fn byte_of<R: Rack>(volume: &mut Volume<AnyPhase, R>) -> Result<u8, Fail>
    requires { IsWell any_phase R.Rack volume.old }
{
    let mut buf = [0xee; 1024];
    let size = volume.shape().l;
    if size != 1024 {
        return Err("size".into());
    }
    match volume.read(3, &mut buf) {
        ReadAnswer::Got => Ok(buf[0]),
        _ => Err("read".into()),
    }
}

/// The first byte of block 3 of the array that is kept, if there is one.
fn kept_byte<R: Rack + Drop>(alloc: Global, rack: R) -> Result<Option<u8>, Fail> {
    let opened = StopRack::open(alloc, rack)?;
    let live = LiveRack::of_all(alloc, opened.rack)?;
    match open(alloc, live)? {
        OpenAnswer::Opened(mut volume, _) => Ok(Some(byte_of(&mut volume)?)),
        OpenAnswer::NoState(_) => Ok(None),
        OpenAnswer::Unclean(_) => Err("unclean".into()),
    }
}

/// What is kept where so many calls fail, from one on. It answers whether both saves were told.
fn stop(rt: &impl Abort, alloc: Global, from: u64, count: u64) -> Result<(bool, bool), Fail> {
    let mut fails = Vec::new(alloc);
    for call in from..from.saturating_add(count) {
        fails.push(call)?;
    }
    let mut behind = MemRack::new(alloc, 4, BEHIND, fails)?;
    let told = keep_twice(alloc, &mut behind)?;
    behind.mend();
    let byte = kept_byte(alloc, &mut behind)?;
    let right = match told {
        (_, true) => byte == Some(2),
        (true, false) => byte == Some(1) || byte == Some(2),
        (false, false) => byte == None || byte == Some(1),
    };
    assert!(rt; right);
    Ok(told)
}

#[test]
fn each_call_of_two_saves(rt: HostRuntime) -> Result<(), Fail> {
    let alloc = rt.alloc();
    let mut ends = 0u32;
    for call in 0..400u64 {
        assert_eq!(rt; stop(&rt, alloc, call, 1)?, (true, true));
        let told = stop(&rt, alloc, call, 400)?;
        if told == (true, true) {
            assert!(rt; ends > 50);
            return Ok(());
        }
        ends = ends.saturating_add(1);
    }
    Err("calls".into())
}

/// The state as it stands is kept, and no member falls.
fn commit<R: Checkpoint>(
    rt: &impl Abort,
    alloc: Global,
    volume: &mut Volume<Loose, R>,
) -> Result<(), Fail>
    requires well { IsWell loose_phase R.Rack volume.old }
    requires room { IfSome (R.room_of (rack_of volume.old)) (λ room. 30 + 4 * (volume_shape volume.old).n ≤ room) }
{
    let committed = CommitAnswer::Committed {
        sequence: 0,
        fell: 0,
    };
    assert_eq!(rt; volume.commit(alloc)?, committed);
    assert_eq!(rt; volume.lost(), 0);
    Ok(())
}

// A plain rack keeps no checkpoint.
#[test]
fn a_commit_over_a_plain_rack(rt: HostRuntime) -> Result<(), Fail> {
    let alloc = rt.alloc();
    let below = rack(alloc, &[])?;
    match Volume::array(alloc, below, shape_of(4, 64, 2)?) {
        Ok(mut volume) => commit(&rt, alloc, &mut volume),
        Err(_) => Err("memory".into()),
    }
}
