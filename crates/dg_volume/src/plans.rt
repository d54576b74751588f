// What each block is to the plan, and where the plan puts it.
ghost use Rattle.std.specs.Prelude.{◌≡◌, ◌<◌, ◌^◌, All, IfErr, IfOk, false};
ghost use Rattle.dg_infer.specs.Meanings.{StandsFor};
ghost use Rattle.dg_model.specs.Homes.{Ascend};
ghost use Rattle.dg_model.specs.Sites.{has_site};
ghost use Rattle.dg_model.specs.States.{has_lost};
ghost use Rattle.dg_model.specs.Tables.{sites_in};
ghost use Rattle.dg_model.specs.Wants.{IsWant};
ghost use Rattle.dg_store.specs.Stores.{IsSound, members_of, shape_of, table_of};
ghost use Rattle.dg_volume.specs.Planned.{AnswersCheck, AnswersPlan, AreKnown, AreWanted, HasReadArray, IsLeastLostOf, IsWantOf};
ghost use Rattle.dg_volume.specs.Volumes.{FitsArray};

use crate::settles::Unsettled;
use dg_infer::Inference;
use dg_io::{NoMemory, Rack};
use dg_model::{Home, NoRoom, Want};
use dg_plan::{Homes, Parents, Targets, Wants, plan};
use dg_store::Store;
use std::alloc::Global;
use ufs_check::{Verdict, check};
use ufs_path::parents as parents_on;
use ufs_pointer::Levels;

/// What became of a plan.
#[derive(Drop)]
pub enum PlanAnswer {
    /// Where each block is to stand.
    Found(Targets),
    /// There is no room for this.
    NoSpace(NoRoom),
    /// A boundary is lost; this is the least one.
    Lost(u8),
}

/// What a block is to the plan. One that isn't written is nothing.
fn want_of<R: Rack>(store: &Store<R>, inference: &Inference, block: u32) -> Option<Want>
    requires sound { IsSound R.Rack store.now }
    requires block { block < (shape_of store.now).n }
    ensures { IsWantOf (table_of store.now) inference.now block result }
{
    if store.written(block) {
        Some(inference.want(block))
    } else {
        None
    }
}

/// What each block is to the plan.
pub fn all_wants<R: Rack>(
    alloc: Global,
    store: &Store<R>,
    inference: &Inference,
) -> Result<Wants, NoMemory>
    requires { IsSound R.Rack store.now }
    ensures { IfOk result (AreWanted (table_of store.now) inference.now) }
{
    let mut wants = Vec::new(alloc);
    for block in 0..store.shape().n {
        if wants.push(want_of(store, inference, block)).is_err() {
            return Err(NoMemory);
        }
    }
    Ok(Wants::new(wants))
}

/// The directories of files; or the least boundary that is lost by now.
fn known_parents<R: Rack>(
    alloc: Global,
    store: &mut Store<R>,
    levels: &mut Levels,
) -> Result<Result<Parents, u8>, NoMemory>
    requires sound { IsSound R.Rack store.old }
    requires levels { levels.old.fragment ≡ (shape_of store.old).l }
    ensures reads { HasReadArray R.Rack store.old store.new }
    ensures levels { levels.new.fragment ≡ levels.old.fragment }
    ensures known { IfOk result (λ answer. IfOk answer (AreKnown R.Rack store.old store.new)) }
    ensures live { IfOk result (λ answer. IfOk answer (λ parents. has_lost (shape_of store.new) (members_of store.new) ≡ false)) }
    ensures lost { IfOk result (λ answer. IfErr answer (IsLeastLostOf store.new)) }
{
    let found = parents_on(alloc, store, levels)?;
    if let Some(lost) = store.least_lost() {
        return Ok(Err(lost));
    }
    match found {
        Some(items) => Ok(Ok(Parents::new(items))),
        None => unreachable!(),
    }
}

/// Where each block is to stand, by what the volume's blocks are and the homes that files have.
pub fn planned<R: Rack>(
    alloc: Global,
    store: &mut Store<R>,
    levels: &mut Levels,
    inference: &Inference,
    homes: &Homes,
) -> Result<PlanAnswer, NoMemory>
    requires sound { IsSound R.Rack store.old }
    requires levels { levels.old.fragment ≡ (shape_of store.old).l }
    requires homes { Ascend homes.now }
    ensures reads { HasReadArray R.Rack store.old store.new }
    ensures levels { levels.new.fragment ≡ levels.old.fragment }
    ensures answer { IfOk result (AnswersPlan R.Rack store.old store.new inference.now homes.now) }
{
    let wants = all_wants(alloc, store, inference)?;
    match known_parents(alloc, store, levels)? {
        Err(lost) => Ok(PlanAnswer::Lost(lost)),
        Ok(parents) => match plan(alloc, &wants, homes, &parents, store.shape())? {
            Ok(targets) => Ok(PlanAnswer::Found(targets)),
            Err(bad) => Ok(PlanAnswer::NoSpace(bad)),
        },
    }
}

/// Whether the volume is sound. Where a block with its structure is gone, the least lost boundary.
pub fn checked<R: Rack>(
    alloc: Global,
    store: &mut Store<R>,
    levels: &mut Levels,
    inference: &Inference,
) -> Result<Result<(), Unsettled>, NoMemory>
    requires sound { IsSound R.Rack store.old }
    requires levels { levels.old.fragment ≡ (shape_of store.old).l }
    requires fits { FitsArray (shape_of store.old) inference.now }
    ensures reads { HasReadArray R.Rack store.old store.new }
    ensures levels { levels.new.fragment ≡ levels.old.fragment }
    ensures answer { IfOk result (AnswersCheck R.Rack store.old store.new inference.now) }
{
    match check(alloc, store, levels, inference.claims())? {
        Verdict::Sound => Ok(Ok(())),
        Verdict::Malformed(kind, n) => Ok(Err(Unsettled::Malformed(kind, n))),
        Verdict::Gone => match store.least_lost() {
            Some(lost) => Ok(Err(Unsettled::Lost(lost))),
            None => unreachable!(),
        },
    }
}

/// An inode is a number of 32 bits.
fn fits(home: &Home)
    ensures { home.now.inode < 2 ^ 32 }
{
    let _inode = home.inode;
}

/// Inodes are numbers of 32 bits.
pub fn inodes_fit(homes: &[Home])
    ensures { All (λ home. home.inode < 2 ^ 32) homes.now }
{
    for home in homes {
        fits(home);
    }
}
