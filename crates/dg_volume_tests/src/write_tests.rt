// Writes of the volume F, whose inode 5 has an indirect block: its block 28 has the inodes, 84 is the indirect block and 88 is data.
ghost use Rattle.std.specs.Prelude.{IfOk};
ghost use Rattle.dg_volume.specs.Volumes.{IsWell, any_phase, loose_phase};

use crate::written::{image, rack};
use dg_io::Rack;
use dg_model::Shape;
use dg_volume::{
    AnyPhase, AuditAnswer, InPhase, Loose, Phase, ReadAnswer, Volume, Who, WhoAnswer, WriteAnswer,
    Wrote,
};
use std::alloc::Global;
use std::process::Abort;
use std::test::Fail;

/// The superblock, the indirect block, the inodes, and a block of data.
const BLOCKS: [u32; 5] = [8, 9, 84, 28, 88];

/// The volume of a blank array of 128 blocks on three boundaries. Its members are blanked by six calls on the rack.
fn blank<R: Rack + Drop>(alloc: Global, rack: R) -> Result<Volume<Loose, R>, Fail>
    ensures { IfOk result (λ volume. IsWell loose_phase R.Rack volume) }
{
    let shape = Shape::check(1024, 128, 3, 43, 1).ok_or("shape")?;
    match Volume::array(alloc, rack, shape) {
        Ok(volume) => Ok(volume),
        Err(_) => Err("memory".into()),
    }
}

/// Writes a block as it is in an image.
fn put<R: Rack>(
    alloc: Global,
    volume: &mut Volume<AnyPhase, R>,
    image: &[u8],
    block: u32,
) -> Result<WriteAnswer, Fail>
    requires { IsWell any_phase R.Rack volume.old }
    ensures { IsWell any_phase R.Rack volume.new }
{
    let size = volume.shape().l;
    if size != 1024 || image.len() != 131072 || block >= 128 {
        return Err("block".into());
    }
    let start = block as usize * 1024;
    match volume.write_block(alloc, block, &image[start..start + 1024]) {
        Ok(answer) => Ok(answer),
        Err(_) => Err("memory".into()),
    }
}

/// Writes some blocks in their order.
fn put_all<R: Rack>(
    rt: &impl Abort,
    alloc: Global,
    volume: &mut Volume<AnyPhase, R>,
    image: &[u8],
    blocks: &[u32],
) -> Result<(), Fail>
    requires { IsWell any_phase R.Rack volume.old }
    ensures { IfOk result (λ done. IsWell any_phase R.Rack volume.new) }
{
    for block in blocks {
        assert_eq!(rt; put(alloc, volume, image, *block)?, WriteAnswer::Written);
    }
    Ok(())
}

/// What the blocks of F belong to, and that no boundary is lost.
fn check_f<S: InPhase, R: Rack>(rt: &impl Abort, volume: &Volume<S, R>)
    requires { IsWell S.InPhase R.Rack volume.now }
{
    assert_eq!(rt; volume.phase(), Phase::Loose);
    assert_eq!(rt; volume.who(84), WhoAnswer::Is(Who::Inode(5, 1)));
    assert_eq!(rt; volume.who(88), WhoAnswer::Is(Who::Inode(5, 0)));
    assert_eq!(rt; volume.next_pending(0), None);
    assert_eq!(rt; volume.lost(), 0);
}

/// Writes blocks over a rack in place, and checks what they belong to.
fn write_in_place<R: Rack + Drop>(
    rt: &impl Abort,
    alloc: Global,
    rack: R,
    image: &[u8],
    blocks: &[u32],
) -> Result<(), Fail> {
    let mut volume = blank(alloc, rack)?.into_any();
    put_all(rt, alloc, &mut volume, image, blocks)?;
    check_f(rt, &volume);
    Ok(())
}

// The calls from 6 on: block 8 is written by 6 and 7, block 9 by 8 and 9, block 8 is read by 10, block 84 is written by 11 and 12, block
// 28 by 13 and 14, block 84 is read by 15, and block 88 is written by 16 and 17.
#[test]
fn each_call_may_fail(rt: HostRuntime) -> Result<(), Fail> {
    let alloc = rt.alloc();
    let image = image(alloc)?;
    for call in 6..18u64 {
        write_in_place(&rt, alloc, rack(alloc, &[call])?, &image, &BLOCKS)?;
    }
    Ok(())
}

/// Writes blocks until a boundary is lost while an indirect block is read.
fn wear<R: Rack + Drop>(rt: &impl Abort, alloc: Global, rack: R, image: &[u8]) -> Result<(), Fail> {
    let mut volume = blank(alloc, rack)?.into_any();
    put_all(rt, alloc, &mut volume, image, &[8, 9, 84])?;
    assert_eq!(rt; put(alloc, &mut volume, image, 28)?, WriteAnswer::Written);
    assert_eq!(rt; volume.phase(), Phase::Worn);
    assert_eq!(rt; volume.lost(), 1);
    assert_eq!(rt; volume.who(84), WhoAnswer::Unavailable);
    assert_eq!(rt; volume.next_pending(0), Some(28));
    assert_eq!(rt; volume.next_pending(29), Some(84));
    assert_eq!(rt; volume.next_pending(85), None);
    assert!(rt; matches!(volume.audit(alloc)?, AuditAnswer::Unavailable));
    Ok(())
}

#[test]
fn a_boundary_is_lost_by_a_fetch(rt: HostRuntime) -> Result<(), Fail> {
    let alloc = rt.alloc();
    let image = image(alloc)?;
    wear(&rt, alloc, rack(alloc, &[15, 16])?, &image)
}

/// Writes and reads a block that there isn't. The program writes by `write_block`, and prints nothing of a buffer that stays as it was.
fn go_beyond<R: Rack + Drop>(rt: &impl Abort, alloc: Global, rack: R) -> Result<(), Fail> {
    let volume = blank(alloc, rack)?;
    let mut buf = [0xee; 1024];
    let size = volume.shape().l;
    if size != 1024 {
        return Err("size".into());
    }
    let Ok(Wrote::Range(mut volume)) = volume.write(alloc, 128, &buf) else {
        return Err("range".into());
    };
    let size = volume.shape().l;
    if size != 1024 {
        return Err("size".into());
    }
    assert_eq!(rt; volume.read(128, &mut buf), ReadAnswer::Range);
    assert!(rt; buf[0] == 0xee);
    Ok(())
}

#[test]
fn a_block_that_there_is_not(rt: HostRuntime) -> Result<(), Fail> {
    let alloc = rt.alloc();
    go_beyond(&rt, alloc, rack(alloc, &[])?)
}
