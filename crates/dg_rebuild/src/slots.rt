// The slots of a boundary: which block stands in one, how many are used, and the next one of a refill.
ghost use Rattle.std.specs.Prelude.{◌≡◌, ◌⊎◌, ◌+◌, ◌/◌, ◌<◌, ◌≤◌, ◌++◌, ℕ, [], ◌∷◌, length, true, false, IfOk, IfSome, OnErr, OnOk, MatchOption, if◌then◌else◌};
ghost use Rattle.dg_model.specs.Blocks.{zeros};
ghost use Rattle.dg_model.specs.Marks.{is_marked};
ghost use Rattle.dg_model.specs.Members.{is_filling, is_lost};
ghost use Rattle.dg_model.specs.Tables.{IsFree, IsTaken, StandsIn, used_between};
ghost use Rattle.dg_pair.specs.Boundaries.{raised};
ghost use Rattle.dg_rebuild.specs.Answers.{HasNoFilling, IsUnmarkedAt};
ghost use Rattle.dg_rebuild.specs.Passed.{CouldNot, HasMemberAt, WentOn};
ghost use Rattle.dg_store.specs.Answers.{ChangesAt, reaped as without};
ghost use Rattle.dg_store.specs.Leaves.{FaultRose, Stays};
ghost use Rattle.dg_store.specs.Stores.{IsSound, SetsBlock, members_of, rack_of, shape_of, table_of};

use dg_io::{NoMemory, Rack};
use dg_model::{MemberState, Site};
use dg_store::{CopyAnswer, Store};

/// What became of the next slot of a refill.
#[derive(Clone, Copy, Debug, PartialEq, Eq)]
pub enum SlotAnswer {
    /// It is done, with so many copies: one where the member that is refilled has it now, and none where it is unused, or its
    /// block was reaped.
    Done(u32),
    /// It has to be copied, and no more copies are to be made. Nothing has changed.
    Kept,
    /// The boundary is lost.
    Lost,
    /// The member that was refilled is out.
    Fell,
}

/// Up to which slot a member of the boundary is refilled, if one is.
pub fn filled_slots<R: Rack>(store: &Store<R>, boundary: u8) -> Option<u32>
    requires sound { IsSound R.Rack store.now }
    requires boundary { boundary < (shape_of store.now).b }
    ensures filling { MatchOption result (HasNoFilling (members_of store.now) boundary) (HasMemberAt (members_of store.now) boundary) }
    ensures within { IfSome result (λ have. have ≤ (shape_of store.now).k + 1) }
{
    let pair = store.boundary(boundary);
    if let MemberState::Filling(have) = pair.member(0) {
        return Some(have);
    }
    match pair.member(1) {
        MemberState::Filling(have) => Some(have),
        _ => None,
    }
}

/// Whether a boundary is lost.
pub fn is_lost<R: Rack>(store: &Store<R>, boundary: u8) -> bool
    requires sound { IsSound R.Rack store.now }
    requires boundary { boundary < (shape_of store.now).b }
    ensures { result ≡ is_lost (members_of store.now) boundary }
{
    store.boundary(boundary).is_lost()
}

/// The block that stands in a slot of a boundary.
pub fn block_in<R: Rack>(store: &Store<R>, boundary: u8, slot: u32) -> Option<u32>
    ensures block { MatchOption result (IsFree (table_of store.now) boundary slot) (λ b. StandsIn (table_of store.now) b boundary slot) }
    ensures within { IfSome result (λ b. b < (shape_of store.now).n) }
{
    store.map().block_at(Site { boundary, slot })
}

/// Whether a block is marked dead.
fn is_dead(dead: &[bool], block: u32) -> bool
    requires { block < length dead.now }
    ensures { result ≡ is_marked dead.now block }
{
    dead[block as usize]
}

/// How many slots of a boundary are used, from one on.
pub fn used_from<R: Rack>(store: &Store<R>, boundary: u8, from: u32) -> u32
    requires sound { IsSound R.Rack store.now }
    requires from { from ≤ (shape_of store.now).k + 1 }
    ensures { result ≡ used_between (table_of store.now) boundary from ((shape_of store.now).k + 1) }
{
    let mut used = 0;
    for slot in from..store.shape().k + 1 {
        if block_in(store, boundary, slot).is_some() {
            used += 1;
        }
    }
    used
}

/// Reaps the block in the next slot of a refill, and passes the slot. The block joins the list.
fn reap_slot<R: Rack>(
    store: &mut Store<R>,
    boundary: u8,
    slot: u32,
    block: u32,
    reaped: &mut Vec<u32>,
) -> Result<(), NoMemory>
    requires sound { IsSound R.Rack store.old }
    requires boundary { boundary < (shape_of store.old).b }
    requires next { HasMemberAt (members_of store.old) boundary slot }
    requires below { slot < (shape_of store.old).k + 1 }
    requires within { block < (shape_of store.old).n }
    requires stands { StandsIn (table_of store.old) block boundary slot }
    ensures sound { IsSound R.Rack store.new }
    ensures stays { Stays R.Rack store.old store.new }
    ensures rack { rack_of store.new ≡ rack_of store.old }
    ensures table { OnOk result (table_of store.new ≡ without (table_of store.old) block) }
    ensures members { OnOk result (ChangesAt raised boundary (members_of store.old) (members_of store.new)) }
    ensures zeros { OnOk result (SetsBlock R.Rack store.old block (zeros (shape_of store.old).l) store.new) }
    ensures joined { OnOk result (reaped.new.items ≡ reaped.old.items ++ block ∷ []) }
    ensures err { OnErr result (store.new ≡ store.old) }
    ensures left { OnErr result (reaped.new.items ≡ reaped.old.items) }
{
    let Ok(()) = reaped.push(block) else {
        return Err(NoMemory);
    };
    store.reap(block);
    store.pass_slot(boundary);
    Ok(())
}

/// Passes the next slot of a refill, reaps its block where that is marked dead, or else copies it where `more` copies are
/// to be made.
pub fn refill_slot<R: Rack>(
    store: &mut Store<R>,
    boundary: u8,
    slot: u32,
    more: bool,
    dead: &[bool],
    buf: &mut [u8],
    reaped: &mut Vec<u32>,
) -> Result<SlotAnswer, NoMemory>
    requires sound { IsSound R.Rack store.old }
    requires boundary { boundary < (shape_of store.old).b }
    requires next { HasMemberAt (members_of store.old) boundary slot }
    requires below { slot < (shape_of store.old).k + 1 }
    requires marks { length dead.now ≡ (shape_of store.old).n }
    requires size { length buf.old ≡ (shape_of store.old).l }
    ensures done { IfOk result (λ answer. (n : ℕ) → answer ≡ SlotAnswer.Done n
        → WentOn R.Rack dead.now boundary slot (slot + 1) n reaped.old.items reaped.new.items store.old store.new) }
    ensures most { IfOk result (λ answer. (n : ℕ) → answer ≡ SlotAnswer.Done n → n ≤ (if more then 1 else 0)) }
    ensures still { more ≡ false → rack_of store.new ≡ rack_of store.old }
    ensures kept { IfOk result (λ answer. answer ≡ SlotAnswer.Kept
        → (more ≡ false) × (store.new ≡ store.old)) }
    ensures used { IfOk result (λ answer. (answer ≡ SlotAnswer.Kept) ⊎ (answer ≡ SlotAnswer.Lost) ⊎ (answer ≡ SlotAnswer.Fell)
        → IsTaken (table_of store.old) boundary slot × IsUnmarkedAt (table_of store.old) dead.now boundary slot) }
    ensures stood { IfOk result (λ answer. (answer ≡ SlotAnswer.Lost) ⊎ (answer ≡ SlotAnswer.Fell) → CouldNot R.Rack boundary store.old store.new) }
    ensures lost { IfOk result (λ answer. answer ≡ SlotAnswer.Lost → is_lost (members_of store.new) boundary ≡ true) }
    ensures whole { IfOk result (λ answer. answer ≡ SlotAnswer.Fell → is_lost (members_of store.new) boundary ≡ false) }
    ensures fault { IfOk result (λ answer. answer ≡ SlotAnswer.Fell → (q : ℕ) → q / 2 ≡ boundary → is_filling (members_of store.old q) ≡ true
        → FaultRose R.Rack store.old store.new q) }
    ensures none { IfOk result (λ answer. (answer ≡ SlotAnswer.Kept) ⊎ (answer ≡ SlotAnswer.Lost) ⊎ (answer ≡ SlotAnswer.Fell)
        → reaped.new.items ≡ reaped.old.items) }
    ensures err { OnErr result (store.new ≡ store.old) }
    ensures left { OnErr result (reaped.new.items ≡ reaped.old.items) }
    ensures size { length buf.new ≡ length buf.old }
{
    match block_in(store, boundary, slot) {
        None => {
            store.pass_slot(boundary);
            Ok(SlotAnswer::Done(0))
        }
        Some(block) => {
            if is_dead(dead, block) {
                reap_slot(store, boundary, slot, block, reaped)?;
                return Ok(SlotAnswer::Done(0));
            }
            if !more {
                return Ok(SlotAnswer::Kept);
            }
            match store.copy_slot(boundary, buf) {
                CopyAnswer::Copied => Ok(SlotAnswer::Done(1)),
                CopyAnswer::Lost => Ok(SlotAnswer::Lost),
                CopyAnswer::Fell => Ok(SlotAnswer::Fell),
            }
        }
    }
}
