// Settling and moving, on the volume F that was written block by block.
ghost use Rattle.std.specs.Prelude.{IfOk};
ghost use Rattle.dg_volume.specs.Volumes.{IsWell, any_phase, loose_phase};

use crate::calls::LostPaths;
use crate::written::{image, rack, shape_of, up};
use dg_io::{Failed, Rack};
use dg_model::NoRoom;
use dg_volume::{
    AnyPhase, AuditAnswer, CatAnswer, DiffuseAnswer, FailAnswer, HomeAnswer, Hot, Listing, Loose,
    Phase, TendRun, TreeAnswer, Unsettled, Volume,
};
use std::alloc::Global;
use std::process::Abort;
use std::test::Fail;
use ufs_model::{Kind, is_path};

/// A listing that counts its entries.
#[derive(Drop)]
struct Count {
    entries: u32,
}

impl Listing for Count {
    ghost took = { λ old entries new. Unit {0} };

    ghost took_part = { λ old entries new. Unit {0} };

    ghost faults = { λ listing. 0 };

    fn line(
        &mut self,
        _depth: u32,
        _inode: u32,
        _kind: Kind,
        _size: u64,
        _name: &[u8],
    ) -> Result<(), Failed> {
        self.entries = self.entries.saturating_add(1);
        Ok(())
    }

    ghost nothing = { λ s. tt };

    ghost then = { λ a b c x y first second. tt };

    ghost then_part = { λ a b c x y first second. tt };

    ghost part = { λ a b x y first. tt };
}

/// Moves one block of the volume F, and settles it then by the call that gives a settled one. Its file at this path is inode 3, which stands on
/// boundary 3 and gets a copy on boundary 0.
fn settle_typed<R: Rack + Drop>(
    rt: &impl Abort,
    alloc: Global,
    mut volume: Volume<Loose, R>,
    path: &[u8],
) -> Result<(), Fail>
    requires { IsWell loose_phase R.Rack volume }
{
    if !is_path(path) {
        return Err("path".into());
    }
    let tended = volume.tend(alloc, 1)?;
    assert_eq!(rt; tended, TendRun::Tended { moved: 1, left: 48 });
    let Ok(mut settled) = volume.settle(alloc)? else {
        return Err("refused".into());
    };
    let home = HomeAnswer::At {
        home: 3,
        copy: None,
    };
    assert_eq!(rt; settled.home(path), home);
    let mut out = Count { entries: 0 };
    assert_eq!(rt; settled.tree(alloc, &mut out)?, CatAnswer::Given(5));
    assert_eq!(rt; out.entries, 5);
    let mut lost = LostPaths {
        files: 0,
        others: 0,
    };
    assert_eq!(rt; settled.lost_files(alloc, &mut lost)?, CatAnswer::Given(0));
    assert_eq!(rt; lost.files, 0);
    let mut hot = Hot::new(alloc)?;
    hot.touch(3)?;
    assert_eq!(rt; settled.diffuse(alloc, &hot)?, DiffuseAnswer::Diffused(1));
    let copied = HomeAnswer::At {
        home: 3,
        copy: Some(0),
    };
    assert_eq!(rt; settled.home(path), copied);
    assert_eq!(rt; settled.live(), b"\x00\x01\x02\x03".as_slice());
    assert_eq!(rt; settled.boundaries(), 4);
    assert!(rt; !settled.is_reduced());
    let AuditAnswer::Audited(findings) = settled.audit(alloc)? else {
        return Err("audit".into());
    };
    assert!(rt; findings.as_slice().is_empty());
    Ok(())
}

#[test]
fn a_loose_volume_is_tended_and_settled(rt: HostRuntime) -> Result<(), Fail> {
    let alloc = rt.alloc();
    let files = image(alloc)?;
    let volume = up(alloc, rack(alloc, &[])?, shape_of(4, 64, 2)?, &files)?;
    settle_typed(&rt, alloc, volume, b"/a")
}

/// A volume that isn't settled names no files that lost blocks.
fn name_none<R: Rack>(
    rt: &impl Abort,
    alloc: Global,
    volume: &mut Volume<AnyPhase, R>,
) -> Result<(), Fail>
    requires { IsWell any_phase R.Rack volume.old }
{
    let mut lost = LostPaths {
        files: 0,
        others: 0,
    };
    let answer = volume.lost_files(alloc, &mut lost)?;
    assert!(rt; answer == TreeAnswer::NotSettled && lost.files == 0);
    Ok(())
}

#[test]
fn a_loose_volume_names_no_lost_files(rt: HostRuntime) -> Result<(), Fail> {
    let alloc = rt.alloc();
    let files = image(alloc)?;
    let mut volume = up(alloc, rack(alloc, &[])?, shape_of(4, 64, 2)?, &files)?.into_any();
    name_none(&rt, alloc, &mut volume)
}

/// Where its largest file has no room the volume is given back, loose.
fn settle_refused<R: Rack + Drop>(
    rt: &impl Abort,
    alloc: Global,
    volume: Volume<Loose, R>,
) -> Result<(), Fail>
    requires { IsWell loose_phase R.Rack volume }
{
    let Err((loose, refused)) = volume.settle(alloc)? else {
        return Err("settled".into());
    };
    assert_eq!(rt; refused, Unsettled::NoSpace(NoRoom::Inode(5)));
    assert_eq!(rt; (loose.phase(), loose.lost()), (Phase::Loose, 0));
    Ok(())
}

#[test]
fn a_loose_volume_without_room_is_given_back(rt: HostRuntime) -> Result<(), Fail> {
    let alloc = rt.alloc();
    let files = image(alloc)?;
    let volume = up(alloc, rack(alloc, &[])?, shape_of(4, 32, 2)?, &files)?;
    settle_refused(&rt, alloc, volume)
}

/// Makes one member of each boundary fail. It answers whether no member was out before.
fn fail_sides<R: Rack>(volume: &mut Volume<AnyPhase, R>) -> bool
    requires { IsWell any_phase R.Rack volume.old }
    ensures { IsWell any_phase R.Rack volume.new }
{
    let answers = [
        volume.fail(0, 0),
        volume.fail(1, 0),
        volume.fail(2, 0),
        volume.fail(3, 0),
    ];
    answers == [FailAnswer::Failed; 4] && volume.lost() == 0
}

/// Moves, and settles after that. Each answer is that of a volume without a failing call, or names the least lost boundary.
fn run<R: Rack>(
    rt: &impl Abort,
    alloc: Global,
    volume: &mut Volume<AnyPhase, R>,
) -> Result<bool, Fail>
    requires { IsWell any_phase R.Rack volume.old }
    ensures { IfOk result (λ kept. IsWell any_phase R.Rack volume.new) }
{
    match volume.tend(alloc, 20)? {
        TendRun::Tended { moved, left } => assert!(rt; moved == 20 && left == 29),
        TendRun::Lost(lost) => assert_eq!(rt; volume.lost().trailing_zeros(), u32::from(lost)),
        TendRun::NoSpace(_) => return Err("room".into()),
    }
    match volume.settle(alloc)? {
        Ok(()) => assert_eq!(rt; volume.lost(), 0),
        Err(Unsettled::Lost(lost)) => assert_eq!(rt;
            volume.lost().trailing_zeros(),
            u32::from(lost)
        ),
        Err(_) => return Err("refused".into()),
    }
    Ok(volume.lost() == 0)
}

/// One call of the rack fails, where boundaries have one member from the moves on. Each run has another such call, up to a run in which it
/// isn't made any more.
#[test]
fn losses_in_the_middle(rt: HostRuntime) -> Result<(), Fail> {
    let alloc = rt.alloc();
    let files = image(alloc)?;
    let shape = shape_of(4, 64, 2)?;
    let mut kept = false;
    let mut lost = 0u32;
    for step in 0..100u64 {
        let rack = rack(alloc, &[13 * step])?;
        let mut volume = up(alloc, rack, shape, &files)?.into_any();
        let whole = fail_sides(&mut volume);
        let same = run(&rt, alloc, &mut volume)?;
        if whole && same {
            kept = true;
            break;
        }
        if whole {
            lost = lost.saturating_add(1);
        }
    }
    assert!(rt; lost > 10 && kept);
    Ok(())
}
