// The refill of a member, slot by slot.
ghost use Rattle.std.specs.Prelude.{◌≡◌, ◌↔◌, ◌⊎◌, ◌+◌, ◌<◌, ◌≤◌, ℕ, length, true, false, IfOk, OnErr};
ghost use Rattle.dg_model.specs.Members.{is_lost};
ghost use Rattle.dg_rebuild.specs.Answers.{FillingFell, HasBrokenOff, HasCopied, HasNoFilling, HasPaused};
ghost use Rattle.dg_rebuild.specs.Passed.{HasMemberAt};
ghost use Rattle.dg_store.specs.Leaves.{Stays};
ghost use Rattle.dg_store.specs.Stores.{IsSound, members_of, rack_of, shape_of};

use crate::slots::{SlotAnswer, filled_slots, is_lost, refill_slot, used_from};
use dg_io::{NoMemory, Rack};
use dg_store::Store;
use std::alloc::Global;

/// The answer to a refill.
#[derive(Clone, Copy, Debug, PartialEq, Eq)]
pub enum RebuildAnswer {
    /// So many slots were copied, and so many used ones are left.
    Copied { done: u32, left: u32 },
    /// The boundary of this number, the refilled one, is lost.
    Lost(u8),
    /// No member of the boundary is being refilled. Nothing has changed.
    NotFilling,
    /// The member that was refilled is out, by a fault of its own.
    Failed,
}

/// Refills the member of a boundary that was replaced, slot by slot, from where its refill stands. An unused slot is
/// passed. A block that is marked dead is reaped: it loses all its sites, isn't written then, and joins the list. Any other
/// slot is copied from the good member while fewer than `limit` copies were made, else the refill stops there. Behind the
/// last slot the member is good.
///
/// `dead` has a mark for each block: none at all where nothing may be reaped.
///
/// One pass over the slots, and one look-up for each slot that is left. Within a limit of 0 no call is made on the rack.
pub fn rebuild<R: Rack>(
    alloc: Global,
    store: &mut Store<R>,
    boundary: u8,
    limit: u32,
    dead: &[bool],
    reaped: &mut Vec<u32>,
) -> Result<RebuildAnswer, NoMemory>
    requires sound { IsSound R.Rack store.old }
    requires boundary { boundary < (shape_of store.old).b }
    requires marks { length dead.now ≡ (shape_of store.old).n }
    ensures sound { IsSound R.Rack store.new }
    ensures stays { Stays R.Rack store.old store.new }
    ensures lost { IfOk result (λ answer. (answer ≡ RebuildAnswer.Lost boundary) ↔ (is_lost (members_of store.new) boundary ≡ true)) }
    ensures other { IfOk result (λ answer. (s : ℕ) → answer ≡ RebuildAnswer.Lost s → s ≡ boundary) }
    ensures not_filling { IfOk result (λ answer. (answer ≡ RebuildAnswer.NotFilling)
        ↔ (HasNoFilling (members_of store.old) boundary × (is_lost (members_of store.new) boundary ≡ false))) }
    ensures quiet { IfOk result (λ answer. HasNoFilling (members_of store.old) boundary
        → (store.new ≡ store.old) × (reaped.new.items ≡ reaped.old.items)) }
    ensures copied { IfOk result (λ answer. (d l : ℕ) → answer ≡ RebuildAnswer.Copied d l
        → HasCopied R.Rack dead.now boundary limit d l reaped.old.items reaped.new.items store.old store.new) }
    ensures failed { IfOk result (λ answer. answer ≡ RebuildAnswer.Failed → FillingFell R.Rack boundary store.old store.new) }
    ensures broken { IfOk result (λ answer. (answer ≡ RebuildAnswer.Failed) ⊎ (answer ≡ RebuildAnswer.Lost boundary)
        → is_lost (members_of store.old) boundary ≡ false
        → HasBrokenOff R.Rack dead.now boundary reaped.old.items reaped.new.items store.old store.new) }
    ensures still { limit ≡ 0 → rack_of store.new ≡ rack_of store.old }
    ensures err { OnErr result (HasPaused R.Rack dead.now boundary reaped.old.items reaped.new.items store.old store.new) }
{
    match filled_slots(store, boundary) {
        Some(have) => {
            let Ok(mut buf) = vec![in alloc; 0; store.shape().l as usize] else {
                return Err(NoMemory);
            };
            refill(store, boundary, have, limit, dead, &mut buf, reaped)
        }
        None if is_lost(store, boundary) => Ok(RebuildAnswer::Lost(boundary)),
        None => Ok(RebuildAnswer::NotFilling),
    }
}

/// Refills a member that is refilled up to a slot.
fn refill<R: Rack>(
    store: &mut Store<R>,
    boundary: u8,
    have: u32,
    limit: u32,
    dead: &[bool],
    buf: &mut [u8],
    reaped: &mut Vec<u32>,
) -> Result<RebuildAnswer, NoMemory>
    requires sound { IsSound R.Rack store.old }
    requires boundary { boundary < (shape_of store.old).b }
    requires filled { HasMemberAt (members_of store.old) boundary have }
    requires have { have ≤ (shape_of store.old).k + 1 }
    requires marks { length dead.now ≡ (shape_of store.old).n }
    requires size { length buf.old ≡ (shape_of store.old).l }
    ensures sound { IsSound R.Rack store.new }
    ensures stays { Stays R.Rack store.old store.new }
    ensures lost { IfOk result (λ answer. (answer ≡ RebuildAnswer.Lost boundary) ↔ (is_lost (members_of store.new) boundary ≡ true)) }
    ensures other { IfOk result (λ answer. (s : ℕ) → answer ≡ RebuildAnswer.Lost s → s ≡ boundary) }
    ensures filling { IfOk result (λ answer. answer ≡ RebuildAnswer.NotFilling → ⊥) }
    ensures copied { IfOk result (λ answer. (d l : ℕ) → answer ≡ RebuildAnswer.Copied d l
        → HasCopied R.Rack dead.now boundary limit d l reaped.old.items reaped.new.items store.old store.new) }
    ensures failed { IfOk result (λ answer. answer ≡ RebuildAnswer.Failed → FillingFell R.Rack boundary store.old store.new) }
    ensures broken { IfOk result (λ answer. (answer ≡ RebuildAnswer.Failed) ⊎ (answer ≡ RebuildAnswer.Lost boundary)
        → HasBrokenOff R.Rack dead.now boundary reaped.old.items reaped.new.items store.old store.new) }
    ensures still { limit ≡ 0 → rack_of store.new ≡ rack_of store.old }
    ensures err { OnErr result (HasPaused R.Rack dead.now boundary reaped.old.items reaped.new.items store.old store.new) }
{
    let mut done = 0;
    for slot in have..store.shape().k + 1 {
        match refill_slot(store, boundary, slot, done < limit, dead, buf, reaped) {
            Ok(SlotAnswer::Done(copies)) => done += copies,
            Ok(SlotAnswer::Kept) => {
                let left = used_from(store, boundary, slot);
                return Ok(RebuildAnswer::Copied { done, left });
            }
            Ok(SlotAnswer::Lost) => return Ok(RebuildAnswer::Lost(boundary)),
            Ok(SlotAnswer::Fell) => return Ok(RebuildAnswer::Failed),
            Err(NoMemory) => return Err(NoMemory),
        }
    }
    store.complete(boundary);
    Ok(RebuildAnswer::Copied { done, left: 0 })
}
