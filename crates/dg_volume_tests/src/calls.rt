// Calls of a volume over a rack of the boundaries in use, which leave it so that `regroup` may be called.
#![tactic(auto, using(crate::proofs::ReadyLemmas::stays_ready, crate::proofs::ReadyLemmas::regrouped_ready, crate::proofs::ReadyLemmas::has_boundaries))]

ghost use Rattle.std.specs.Prelude.{IfOk};
ghost use Rattle.dg_model.specs.Shapes.{IsShape};
ghost use Rattle.dg_regroup.specs.LiveGhosts.{live};
ghost use Rattle.dg_regroup.specs.LiveRacks.{live_count};
ghost use Rattle.dg_volume.specs.Volumes.{any_phase};
ghost use Rattle.dg_volume_tests.specs.Ready.{IsReady};

use dg_io::{Failed, MemSink, Rack, Reduces};
use dg_model::Shape;
use dg_regroup::{LiveRack, names_tell_boundaries};
use dg_volume::{
    AnyHome, AnyPhase, CatAnswer, FailAnswer, PathList, ReadAnswer, RegroupAnswer, TreeAnswer,
    Volume, WriteAnswer,
};
use std::alloc::Global;
use std::test::Fail;
use ufs_model::is_path;

/// Writes the blocks of an image that aren't zero, ascending.
pub fn fill<R: Reduces>(
    alloc: Global,
    volume: &mut Volume<AnyPhase, R>,
    image: &[u8],
) -> Result<(), Fail>
    requires { IsReady any_phase R.Rack R.boundaries volume.old }
    ensures { IfOk result (λ done. IsReady any_phase R.Rack R.boundaries volume.new) }
{
    let zeros = [0; 1024];
    for (block, bytes) in image.chunks(1024).enumerate() {
        if block < 128 && bytes != zeros.as_slice() {
            put(alloc, volume, block as u32, bytes)?;
        }
    }
    Ok(())
}

/// A blank volume over a rack of all boundaries that there may be.
pub fn blank_live<R: Rack + Drop>(
    alloc: Global,
    rack: R,
    shape: Shape,
) -> Result<Volume<AnyPhase, LiveRack<R>>, Fail>
    requires { IsShape shape }
    ensures { IfOk result (IsReady any_phase (live R.Rack) live_count) }
{
    names_tell_boundaries();
    let live = LiveRack::of_all(alloc, rack)?;
    match Volume::array(alloc, live, shape) {
        Ok(blank) => Ok(blank.into_any()),
        Err(_) => Err("memory".into()),
    }
}

/// Makes both members of a boundary fail. It answers whether neither was out before.
pub fn lose<R: Reduces>(volume: &mut Volume<AnyPhase, R>, boundary: u32) -> bool
    requires { IsReady any_phase R.Rack R.boundaries volume.old }
    ensures { IsReady any_phase R.Rack R.boundaries volume.new }
{
    let answers = [volume.fail(boundary, 0), volume.fail(boundary, 1)];
    answers == [FailAnswer::Failed; 2]
}

/// Goes on without the lost boundaries.
pub fn go_on<R: Reduces>(
    alloc: Global,
    volume: &mut Volume<AnyPhase, R>,
) -> Result<RegroupAnswer, Fail>
    requires { IsReady any_phase R.Rack R.boundaries volume.old }
    ensures { IfOk result (λ answer. IsReady any_phase R.Rack R.boundaries volume.new) }
{
    match volume.regroup(alloc) {
        Ok(answer) => Ok(answer),
        Err(_) => Err("memory".into()),
    }
}

/// Settles a volume.
pub fn settle<R: Reduces>(alloc: Global, volume: &mut Volume<AnyPhase, R>) -> Result<(), Fail>
    requires { IsReady any_phase R.Rack R.boundaries volume.old }
    ensures { IsReady any_phase R.Rack R.boundaries volume.new }
{
    match volume.settle(alloc) {
        Ok(Ok(())) => Ok(()),
        Ok(Err(_)) => Err("refused".into()),
        Err(_) => Err("memory".into()),
    }
}

/// Reads a block. It answers whether the block is these bytes, and `None` where it is gone.
pub fn has_block<R: Reduces>(
    volume: &mut Volume<AnyPhase, R>,
    block: u32,
    bytes: &[u8],
) -> Result<Option<bool>, Fail>
    requires { IsReady any_phase R.Rack R.boundaries volume.old }
    ensures { IfOk result (λ has. IsReady any_phase R.Rack R.boundaries volume.new) }
{
    let mut buf = [0xee; 1024];
    let size = volume.shape().l;
    if size != 1024 {
        return Err("size".into());
    }
    match volume.read(block, &mut buf) {
        ReadAnswer::Got => Ok(Some(buf.as_slice() == bytes)),
        ReadAnswer::Unavailable => Ok(None),
        ReadAnswer::Range => Err("range".into()),
    }
}

/// Writes a block of an array without a lost boundary.
pub fn put<R: Reduces>(
    alloc: Global,
    volume: &mut Volume<AnyPhase, R>,
    block: u32,
    bytes: &[u8],
) -> Result<(), Fail>
    requires { IsReady any_phase R.Rack R.boundaries volume.old }
    ensures { IfOk result (λ done. IsReady any_phase R.Rack R.boundaries volume.new) }
{
    let size = volume.shape().l;
    if bytes.len() != size as usize {
        return Err("size".into());
    }
    match volume.write_block(alloc, block, bytes) {
        Ok(WriteAnswer::Written) => Ok(()),
        Ok(_) => Err("refused".into()),
        Err(_) => Err("memory".into()),
    }
}

/// Gives a file. It answers whether these bytes were given.
pub fn gives<R: Reduces>(
    alloc: Global,
    volume: &mut Volume<AnyPhase, R>,
    path: &[u8],
    bytes: &[u8],
) -> Result<(CatAnswer, bool), Fail>
    requires { IsReady any_phase R.Rack R.boundaries volume.old }
    ensures { IfOk result (λ given. IsReady any_phase R.Rack R.boundaries volume.new) }
{
    if !is_path(path) {
        return Err("path".into());
    }
    let mut out = MemSink::new(alloc, 64, Vec::new(alloc))?;
    let answer = volume.cat(path, &mut out);
    Ok((answer, out.taken() == bytes))
}

/// Tells the home of the file at a path.
pub fn home<R: Reduces>(volume: &mut Volume<AnyPhase, R>, path: &[u8]) -> Result<AnyHome, Fail>
    requires { IsReady any_phase R.Rack R.boundaries volume.old }
    ensures { IfOk result (λ home. IsReady any_phase R.Rack R.boundaries volume.new) }
{
    if !is_path(path) {
        return Err("path".into());
    }
    Ok(volume.home(path))
}

/// The paths of files that lost blocks. It counts them, and those of another file than `/d/b`, which is inode 5.
#[derive(Drop)]
pub struct LostPaths {
    pub files: u32,
    pub others: u32,
}

impl PathList for LostPaths {
    ghost took = { λ old paths new. Unit {0} };

    ghost took_part = { λ old paths new. Unit {0} };

    ghost faults = { λ list. 0 };

    fn line(&mut self, inode: u32, path: &[u8]) -> Result<(), Failed> {
        self.files = self.files.saturating_add(1);
        if inode != 5 || path != b"/d/b".as_slice() {
            self.others = self.others.saturating_add(1);
        }
        Ok(())
    }

    ghost nothing = { λ s. tt };

    ghost then = { λ a b c x y first second. tt };

    ghost then_part = { λ a b c x y first second. tt };

    ghost part = { λ a b x y first. tt };
}

/// Names the files that lost blocks. It answers whether `/d/b` was the only one.
pub fn only_b_is_lost<R: Reduces>(
    alloc: Global,
    volume: &mut Volume<AnyPhase, R>,
) -> Result<bool, Fail>
    requires { IsReady any_phase R.Rack R.boundaries volume.old }
    ensures { IfOk result (λ is. IsReady any_phase R.Rack R.boundaries volume.new) }
{
    let mut lost = LostPaths {
        files: 0,
        others: 0,
    };
    let answer = volume.lost_files(alloc, &mut lost)?;
    Ok(answer == TreeAnswer::Is(CatAnswer::Given(1)) && (lost.files, lost.others) == (1, 0))
}
