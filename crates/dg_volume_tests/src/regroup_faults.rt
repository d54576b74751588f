// Going on without a lost boundary in each phase, where one call fails: each call of a `regroup` in a run of its own.
#![tactic(auto, using(crate::proofs::ReadyLemmas::stays_ready))]

ghost use Rattle.std.specs.Prelude.{IfOk};
ghost use Rattle.dg_volume.specs.Volumes.{any_phase};
ghost use Rattle.dg_volume_tests.specs.Ready.{IsReady};

use crate::calls::{blank_live, fill, go_on, has_block, put, settle};
use crate::written::{image, rack, shape_of};
use dg_io::{Rack, Reduces};
use dg_volume::{AnyPhase, FailAnswer, Hot, Phase, RegroupAnswer, SaveAnswer, Volume};
use std::alloc::Global;
use std::test::Fail;

/// When a call failed.
#[derive(Clone, Copy, Debug, PartialEq, Eq)]
enum Came {
    /// Before a member of each boundary was made to fail.
    Before,
    /// Where boundary 2 was to be lost, and it wasn't lost alone.
    Unlost,
    /// In the `regroup`.
    Within,
    /// In the reads behind it.
    After,
    /// It wasn't made.
    Never,
}

/// Writes a block as it is in an image.
fn put_of<R: Reduces>(
    alloc: Global,
    volume: &mut Volume<AnyPhase, R>,
    image: &[u8],
    block: u32,
) -> Result<(), Fail>
    requires { IsReady any_phase R.Rack R.boundaries volume.old }
    ensures { IfOk result (λ done. IsReady any_phase R.Rack R.boundaries volume.new) }
{
    if image.len() != 131072 || block >= 128 {
        return Err("block".into());
    }
    let start = block as usize * 1024;
    put(alloc, volume, block, &image[start..start + 1024])
}

/// Settles and saves.
fn seal<R: Reduces>(alloc: Global, volume: &mut Volume<AnyPhase, R>) -> Result<(), Fail>
    requires { IsReady any_phase R.Rack R.boundaries volume.old }
    ensures { IfOk result (λ done. IsReady any_phase R.Rack R.boundaries volume.new) }
{
    settle(alloc, volume)?;
    let hot = Hot::new(alloc)?;
    match volume.save(alloc, &hot)? {
        SaveAnswer::Saved(_) => Ok(()),
        SaveAnswer::Lost(_) => Err("lost".into()),
    }
}

/// Settles, and writes zeros in place of inodes: so an indirect block of theirs is read once they are written again.
fn clear_inodes<R: Reduces>(alloc: Global, volume: &mut Volume<AnyPhase, R>) -> Result<(), Fail>
    requires { IsReady any_phase R.Rack R.boundaries volume.old }
    ensures { IfOk result (λ done. IsReady any_phase R.Rack R.boundaries volume.new) }
{
    settle(alloc, volume)?;
    put(alloc, volume, 28, &[0; 1024])
}

/// Brings a blank volume into a phase; one that is to be worn isn't yet.
fn bring<R: Reduces>(
    alloc: Global,
    volume: &mut Volume<AnyPhase, R>,
    image: &[u8],
    phase: Phase,
) -> Result<(), Fail>
    requires { IsReady any_phase R.Rack R.boundaries volume.old }
    ensures { IfOk result (λ done. IsReady any_phase R.Rack R.boundaries volume.new) }
{
    fill(alloc, volume, image)?;
    match phase {
        Phase::Loose => Ok(()),
        Phase::Settled => seal(alloc, volume),
        Phase::Worn => clear_inodes(alloc, volume),
    }
}

/// Makes one member of each boundary fail. It answers whether no member was out before.
fn fail_sides<R: Reduces>(volume: &mut Volume<AnyPhase, R>) -> bool
    requires { IsReady any_phase R.Rack R.boundaries volume.old }
    ensures { IsReady any_phase R.Rack R.boundaries volume.new }
{
    let answers = [
        volume.fail(0, 0),
        volume.fail(1, 0),
        volume.fail(2, 0),
        volume.fail(3, 0),
    ];
    answers == [FailAnswer::Failed; 4] && volume.lost() == 0
}

/// Makes the other member of boundary 2 fail, or writes the inodes, by which an indirect block on that member is read. It answers whether
/// boundary 2 alone is lost, in this phase.
fn lose_in<R: Reduces>(
    alloc: Global,
    volume: &mut Volume<AnyPhase, R>,
    image: &[u8],
    phase: Phase,
) -> Result<bool, Fail>
    requires { IsReady any_phase R.Rack R.boundaries volume.old }
    ensures { IfOk result (λ lost. IsReady any_phase R.Rack R.boundaries volume.new) }
{
    match phase {
        Phase::Worn => put_of(alloc, volume, image, 28)?,
        _ => {
            volume.fail(2, 1);
        }
    }
    Ok(volume.lost() == 0b100 && volume.phase() == phase)
}

/// How many blocks are gone, where each other one is that of an image.
fn count_gone<R: Reduces>(volume: &mut Volume<AnyPhase, R>, image: &[u8]) -> Result<u32, Fail>
    requires { IsReady any_phase R.Rack R.boundaries volume.old }
    ensures { IfOk result (λ count. IsReady any_phase R.Rack R.boundaries volume.new) }
{
    let mut gone = 0u32;
    for (block, bytes) in image.chunks(1024).enumerate() {
        if block < 128 {
            match has_block(volume, block as u32, bytes)? {
                Some(true) => {}
                Some(false) => return Err("bytes".into()),
                None => gone = gone.saturating_add(1),
            }
        }
    }
    Ok(gone)
}

/// How many boundaries were taken out of use, and how many blocks with them.
fn taken(answer: RegroupAnswer) -> (u32, u32) {
    match answer {
        RegroupAnswer::Regrouped { boundaries, blocks } => (boundaries, blocks),
        _ => (0, 0),
    }
}

/// Goes on without boundary 2, and then without one that was lost by that. It answers whether each block that was cut is gone, and no other,
/// and how many boundaries were taken out of use by the one and the other.
fn go_on_twice<R: Reduces>(
    alloc: Global,
    volume: &mut Volume<AnyPhase, R>,
    image: &[u8],
) -> Result<(bool, u32, u32), Fail>
    requires { IsReady any_phase R.Rack R.boundaries volume.old }
    ensures { IfOk result (λ done. IsReady any_phase R.Rack R.boundaries volume.new) }
{
    let first = taken(go_on(alloc, volume)?);
    if volume.lost() != 0 {
        count_gone(volume, image)?;
    }
    let second = taken(go_on(alloc, volume)?);
    let gone = count_gone(volume, image)?;
    let whole = volume.lost() == 0 && gone == first.1.saturating_add(second.1);
    Ok((whole, first.0, second.0))
}

/// When the call that fails was made, by such an answer.
fn came_of(answer: (bool, u32, u32)) -> Option<Came> {
    match answer {
        (true, 1, 1) | (true, 2, 0) => Some(Came::Within),
        (true, 1, 0) => Some(Came::Never),
        (false, 1, 0) => Some(Came::After),
        _ => None,
    }
}

/// Goes on so, and writes the superblock where a call failed in that.
fn go_on_and_write<R: Reduces>(
    alloc: Global,
    volume: &mut Volume<AnyPhase, R>,
    image: &[u8],
) -> Result<Came, Fail>
    requires { IsReady any_phase R.Rack R.boundaries volume.old }
{
    let Some(came) = came_of(go_on_twice(alloc, volume, image)?) else {
        return Err("left".into());
    };
    if came == Came::Within {
        put_of(alloc, volume, image, 8)?;
        if has_block(volume, 8, b"")? != Some(false) {
            return Err("written".into());
        }
    }
    Ok(came)
}

/// Brings a volume into a phase, and goes on without boundary 2.
fn come<R: Reduces>(
    alloc: Global,
    volume: &mut Volume<AnyPhase, R>,
    image: &[u8],
    phase: Phase,
) -> Result<Came, Fail>
    requires { IsReady any_phase R.Rack R.boundaries volume.old }
{
    bring(alloc, volume, image, phase)?;
    if !fail_sides(volume) {
        return Ok(Came::Before);
    }
    if !lose_in(alloc, volume, image, phase)? {
        return Ok(Came::Unlost);
    }
    go_on_and_write(alloc, volume, image)
}

/// The same over a rack.
fn come_over<R: Rack + Drop>(
    alloc: Global,
    rack: R,
    image: &[u8],
    phase: Phase,
) -> Result<Came, Fail> {
    let mut volume = blank_live(alloc, rack, shape_of(4, 64, 2)?)?;
    come(alloc, &mut volume, image, phase)
}

/// The same over a rack in memory, of which these calls fail.
fn come_at(alloc: Global, image: &[u8], phase: Phase, fails: [u64; 2]) -> Result<Came, Fail> {
    come_over(alloc, rack(alloc, &fails)?, image, phase)
}

/// No such call is made.
const NO_CALL: u64 = u64::MAX;

/// The last call before a member of each boundary is made to fail.
fn last_before(alloc: Global, image: &[u8], phase: Phase) -> Result<u64, Fail> {
    let mut last = 0u64;
    for bit in 0..12u32 {
        let call = last.saturating_add(2048 >> bit);
        if come_at(alloc, image, phase, [call, NO_CALL])? == Came::Before {
            last = call;
        }
    }
    Ok(last)
}

/// The last call of a write by which a volume is worn.
fn worn_by(alloc: Global, image: &[u8]) -> Result<u64, Fail> {
    let before = last_before(alloc, image, Phase::Worn)?;
    let mut last = 0u64;
    for step in 1..20u64 {
        let call = before.saturating_add(step);
        if come_at(alloc, image, Phase::Worn, [call, NO_CALL])? == Came::Never {
            last = call;
        }
    }
    Ok(last)
}

/// How many calls a `regroup` makes behind this one: each of them fails in a run of its own, beside another one before.
fn count_calls(
    alloc: Global,
    image: &[u8],
    phase: Phase,
    other: u64,
    last: u64,
) -> Result<u32, Fail> {
    let mut count = 0u32;
    for step in 1..200u64 {
        let call = last.saturating_add(step);
        match come_at(alloc, image, phase, [other, call])? {
            Came::Within => count = count.saturating_add(1),
            Came::After => return Ok(count),
            _ => return Err("order".into()),
        }
    }
    Err("calls".into())
}

// Each reads the superblock at least, and one of an array that was saved opens the seal on three boundaries before.
#[test]
fn each_call_in_each_phase(rt: HostRuntime) -> Result<(), Fail> {
    let alloc = rt.alloc();
    let files = image(alloc)?;
    let loose = last_before(alloc, &files, Phase::Loose)?;
    let settled = last_before(alloc, &files, Phase::Settled)?;
    let worn = worn_by(alloc, &files)?;
    let rows = [
        (Phase::Loose, NO_CALL, loose, 1),
        (Phase::Settled, NO_CALL, settled, 4),
        (Phase::Worn, worn, worn, 1),
    ];
    for (phase, other, last, least) in rows {
        assert_eq!(rt;
            come_at(alloc, &files, phase, [other, NO_CALL])?,
            Came::Never
        );
        assert!(rt; count_calls(alloc, &files, phase, other, last)? >= least);
    }
    Ok(())
}
