// Going on without lost boundaries, on the volume F over a rack of the boundaries in use. The file of inode 5 has its home on boundary 2.
#![tactic(auto)]

ghost use Rattle.std.specs.Prelude.{IfOk};
ghost use Rattle.dg_volume.specs.Volumes.{IsWell, any_phase};
ghost use Rattle.dg_volume_tests.specs.Ready.{IsReady};

use crate::calls::{
    blank_live, fill, gives, go_on, has_block, home, lose, only_b_is_lost, put, settle,
};
use crate::written::{image, rack, shape_of};
use dg_io::{Checkpoint, Disks, Reduces};
use dg_volume::{
    AnyHome, AnyPhase, CatAnswer, CheckpointAnswer, DropDiskAnswer, FailAnswer, HomeAnswer, Hot,
    MendDiskAnswer, RebuildAnswer, RegroupAnswer, ReplaceAnswer, Volume,
};
use std::alloc::Global;
use std::process::Abort;
use std::test::Fail;

/// A settled volume is read anew without boundary 2, and the blocks of its file are cut.
const FIRST: RegroupAnswer = RegroupAnswer::Regrouped {
    boundaries: 1,
    blocks: 53,
};

/// A boundary that was taken out of use keeps its number, and no member of it is there.
#[tactic(auto, using(crate::proofs::ReadyLemmas::stays_ready))]
fn check_out_of_use<R: Reduces>(
    rt: &impl Abort,
    alloc: Global,
    volume: &mut Volume<AnyPhase, R>,
    boundary: u8,
) -> Result<(), Fail>
    requires { IsReady any_phase R.Rack R.boundaries volume.old }
    ensures { IfOk result (λ done. IsReady any_phase R.Rack R.boundaries volume.new) }
{
    let number = u32::from(boundary);
    assert_eq!(rt; volume.fail(number, 0), FailAnswer::Already);
    assert_eq!(rt; volume.replace(number, 1), ReplaceAnswer::Lost);
    let lost = RebuildAnswer::Lost(boundary);
    assert_eq!(rt; volume.rebuild(alloc, number, 9)?, lost);
    Ok(())
}

/// Of a settled volume boundary 2 is lost. The file on boundary 3 has its home at place 2 then.
fn lose_first<R: Reduces>(
    rt: &impl Abort,
    alloc: Global,
    volume: &mut Volume<AnyPhase, R>,
) -> Result<(), Fail>
    requires { IsReady any_phase R.Rack R.boundaries volume.old }
    ensures { IfOk result (λ done. IsReady any_phase R.Rack R.boundaries volume.new) }
{
    assert_eq!(rt; go_on(alloc, volume)?, RegroupAnswer::Whole);
    assert!(rt; lose(volume, 2));
    assert_eq!(rt; go_on(alloc, volume)?, FIRST);
    assert_eq!(rt; volume.live(), b"\x00\x01\x03".as_slice());
    check_out_of_use(rt, alloc, volume, 2)?;
    settle(alloc, volume)?;
    let at = HomeAnswer::At {
        home: 3,
        copy: None,
    };
    assert_eq!(rt; home(volume, b"/a")?, AnyHome::Is(at));
    assert_eq!(rt; has_block(volume, 36, b"")?, None);
    assert!(rt; only_b_is_lost(alloc, volume)?);
    assert_eq!(rt;
        gives(alloc, volume, b"/d/b", b"")?,
        (CatAnswer::Unavailable, true)
    );
    assert_eq!(rt;
        gives(alloc, volume, b"/a", b"hello")?,
        (CatAnswer::Given(5), true)
    );
    Ok(())
}

/// Boundary 0 is lost, without which no block is cut, and then boundary 1.
fn lose_others<R: Reduces>(
    rt: &impl Abort,
    alloc: Global,
    volume: &mut Volume<AnyPhase, R>,
) -> Result<(), Fail>
    requires { IsReady any_phase R.Rack R.boundaries volume.old }
    ensures { IfOk result (λ done. IsReady any_phase R.Rack R.boundaries volume.new) }
{
    assert!(rt; lose(volume, 0));
    assert_eq!(rt;
        gives(alloc, volume, b"/z", b"")?,
        (CatAnswer::Given(0), true)
    );
    let second = RegroupAnswer::Regrouped {
        boundaries: 1,
        blocks: 0,
    };
    assert_eq!(rt; go_on(alloc, volume)?, second);
    put(alloc, volume, 36, &[0; 1024])?;
    assert_eq!(rt; has_block(volume, 36, &[0; 1024])?, Some(true));
    assert!(rt; lose(volume, 1));
    assert_eq!(rt; go_on(alloc, volume)?, RegroupAnswer::TooFew);
    assert_eq!(rt; volume.live(), b"\x01\x03".as_slice());
    Ok(())
}

/// Settles the volume of an image, and loses one boundary after another.
fn lose_all<R: Reduces>(
    rt: &impl Abort,
    alloc: Global,
    volume: &mut Volume<AnyPhase, R>,
    image: &[u8],
) -> Result<(), Fail>
    requires { IsReady any_phase R.Rack R.boundaries volume.old }
    ensures { IfOk result (λ done. IsWell any_phase R.Rack volume.new) }
{
    fill(alloc, volume, image)?;
    settle(alloc, volume)?;
    lose_first(rt, alloc, volume)?;
    lose_others(rt, alloc, volume)
}

/// A plain rack keeps no checkpoint, so a volume with a boundary out of use isn't saved.
fn check_not_saved<R: Checkpoint>(
    rt: &impl Abort,
    alloc: Global,
    volume: &mut Volume<AnyPhase, R>,
) -> Result<(), Fail>
    requires { IsWell any_phase R.Rack volume.old }
    ensures { IfOk result (λ done. IsWell any_phase R.Rack volume.new) }
{
    let hot = Hot::new(alloc)?;
    let answer = volume.checkpoint(alloc, &hot)?;
    assert_eq!(rt; answer, CheckpointAnswer::NotSaved);
    Ok(())
}

/// A plain rack has no disks, so none of a boundary that isn't in use.
fn check_no_disks<R: Disks>(rt: &impl Abort, volume: &mut Volume<AnyPhase, R>) -> Result<(), Fail>
    requires { IsWell any_phase R.Rack volume.old }
{
    if volume.disks().is_some() {
        return Err("disks".into());
    }
    assert_eq!(rt; volume.drop_disk(2, 0), DropDiskAnswer::Plain);
    if volume.disks().is_some() {
        return Err("disks".into());
    }
    assert_eq!(rt; volume.mend(2, 0), MendDiskAnswer::Plain);
    Ok(())
}

/// Losses of a volume over a rack, up to that which leaves too few boundaries, and what a plain rack answers then.
fn lose_over<R: Checkpoint + Disks + Drop>(
    rt: &impl Abort,
    alloc: Global,
    rack: R,
    image: &[u8],
) -> Result<(), Fail> {
    let mut volume = blank_live(alloc, rack, shape_of(4, 64, 2)?)?;
    lose_all(rt, alloc, &mut volume, image)?;
    check_not_saved(rt, alloc, &mut volume)?;
    check_no_disks(rt, &mut volume)
}

#[test]
fn losses_one_after_another(rt: HostRuntime) -> Result<(), Fail> {
    let alloc = rt.alloc();
    lose_over(&rt, alloc, rack(alloc, &[])?, &image(alloc)?)
}
