// The checkpoint of a volume: its rack keeps the state as it stands on the members.
ghost use Rattle.std.specs.Prelude.{◌≡◌, ◌↔◌, ◌≤◌, ◌<◌, ◌+◌, ◌*◌, ◌^◌, ◌++◌, ◌∷◌, ℕ, IfOk, IfSome, OnErr, OnOk, [], false, if◌then◌else◌, length, true};
ghost use Rattle.dg_io.specs.Commits.{fell_in, is_marked as is_marked_in};
ghost use Rattle.dg_model.specs.Marks.{marked};
ghost use Rattle.dg_model.specs.Members.{IsStruck, is_good as is_good_state};
ghost use Rattle.dg_model.specs.declared.events.Event.{Event};
ghost use Rattle.dg_regroup.specs.Extras.{IsExtra};
ghost use Rattle.dg_regroup.specs.Marks.{IsMarkedToo};
ghost use Rattle.dg_store.specs.Leaves.{IsCallOrExtendBelow};
ghost use Rattle.dg_store.specs.Stores.{IsSound, IsWhole, KeepsBlocks, members_of, table_of};
ghost use Rattle.dg_store.specs.Stores as stores;
ghost use Rattle.dg_volume.specs.Commits.{AreGoodBits, CannotSave, Commits, CommitsArray, FailsMarked, KeepsBy, checkpoint_reply, extra_of};
ghost use Rattle.dg_volume.specs.Copies.{StepsHot};
ghost use Rattle.dg_volume.specs.Regroups.{GoesOn};
ghost use Rattle.dg_volume.specs.Settles.{KeepsArray};
ghost use Rattle.dg_volume.specs.Volumes.{IsWell, LeavesBy, given_of, rack_of, shape_of};

use crate::left_lists::has_good;
use crate::phases::InPhase;
use crate::saves::is_good;
use crate::volumes::Volume;
use dg_hot::Hot;
use dg_io::{Checkpoint, CommitAnswer, NoMemory, Rack};
use dg_label::SaveAnswer;
use dg_model::{Bytes, Numbers};
use dg_regroup::{Extra, write_extra};
use dg_store::{Store, member_length, standing_is_sound};
use std::alloc::Global;

/// What became of keeping an array's state.
#[derive(Clone, Copy, Debug, PartialEq, Eq)]
pub enum CheckpointAnswer {
    /// It is saved, under this number.
    Saved(u64),
    /// No member is good. The least boundary that is lost.
    Lost(u8),
    /// A boundary isn't in use, and the rack keeps no checkpoint. Nothing was done.
    NotSaved,
}

/// Whether a member is marked.
fn is_marked(marks: u32, member: u8) -> bool
    requires { member < 32 }
    ensures { result ≡ is_marked_in marks member }
{
    marks >> member & 1 == 1
}

/// The marks with one more.
fn with_mark(marks: u32, member: u8) -> u32
    requires { member < 32 }
    ensures { IsMarkedToo marks member result }
{
    marks | 1 << member
}

/// The marks with that of a member, if it is good.
fn mark_if_good<R: Rack>(store: &Store<R>, marks: u32, member: u8) -> u32
    requires sound { IsSound R.Rack store.now }
    requires member { member < 2 * (stores.shape_of store.now).b }
    ensures good { is_good_state (members_of store.now member) ≡ true → IsMarkedToo marks member result }
    ensures other { is_good_state (members_of store.now member) ≡ false → result ≡ marks }
{
    if is_good(store, member) {
        return with_mark(marks, member);
    }
    marks
}

/// A bit for each good member.
fn good_members<R: Rack>(store: &Store<R>) -> u32
    requires { IsSound R.Rack store.now }
    ensures { AreGoodBits (members_of store.now) result }
{
    let mut marks = 0;
    for member in 0..2 * store.shape().b {
        marks = mark_if_good(store, marks, member);
    }
    marks
}

/// Makes a member fail, if it is marked.
fn fail_if_marked<R: Rack>(store: &mut Store<R>, marks: u32, member: u8)
    requires whole { IsWhole R.Rack store.old }
    requires member { member < 2 * (stores.shape_of store.old).b }
    ensures whole { IsWhole R.Rack store.new }
    ensures rack { stores.rack_of store.new ≡ stores.rack_of store.old }
    ensures table { table_of store.new ≡ table_of store.old }
    ensures blocks { KeepsBlocks R.Rack store.old store.new }
    ensures marked { is_marked_in marks member ≡ true → IsStruck member (members_of store.old) (members_of store.new) }
    ensures other { is_marked_in marks member ≡ false → members_of store.new ≡ members_of store.old }
{
    if is_marked(marks, member) {
        store.fail(member / 2, member % 2);
    }
}

/// Makes the marked members fail.
fn fail_marked<R: Rack>(store: &mut Store<R>, marks: u32)
    requires whole { IsWhole R.Rack store.old }
    requires below { (q : ℕ) → is_marked_in marks q ≡ true → q < 2 * (stores.shape_of store.old).b }
    ensures { FailsMarked R.Rack marks store.old store.new }
{
    for member in 0..2 * store.shape().b {
        fail_if_marked(store, marks, member);
    }
}

/// The members that fell in a commit.
fn fallen(keep: u32, answer: CommitAnswer) -> u32
    ensures { result ≡ fell_in keep answer }
{
    match answer {
        CommitAnswer::Committed { fell, .. } => fell,
        CommitAnswer::Lost => keep,
    }
}

/// Keeps the bytes of the good members, and the extra bytes. A member that falls in it is out.
fn commit_good<R: Checkpoint>(store: &mut Store<R>, extra: &[u8]) -> CommitAnswer
    requires sound { IsSound R.Rack store.old }
    requires fits { IfSome (R.room_of (stores.rack_of store.old)) (λ room. length extra.now ≤ room) }
    ensures { CommitsArray R.Rack R.room_of R.commits extra.now result store.old store.new }
{
    let keep = good_members(store);
    let answer = store.commit(keep, extra);
    fail_marked(store, fallen(keep, answer));
    standing_is_sound(store);
    answer
}

/// Whether the rack has room for so many extra bytes.
fn has_room<R: Checkpoint>(store: &Store<R>, size: usize) -> bool
    ensures { result ≡ true → IfSome (R.room_of (stores.rack_of store.now)) (λ room. size ≤ room) }
{
    match store.room() {
        Some(room) => size <= room as usize,
        None => true,
    }
}

/// Puts a block last, if it is marked.
fn push_marked(blocks: &mut Vec<u32>, block: u32, mark: bool) -> Result<(), NoMemory>
    ensures { OnOk result (blocks.new.items ≡ blocks.old.items ++ (if mark then block ∷ [] else [])) }
{
    if !mark {
        return Ok(());
    }
    match blocks.push(block) {
        Ok(()) => Ok(()),
        Err(_) => Err(NoMemory),
    }
}

/// The numbers of the marked blocks.
fn marked_blocks(alloc: Global, marks: &[bool]) -> Result<Vec<u32>, NoMemory>
    requires { length marks.now < 2 ^ 32 }
    ensures { IfOk result (λ blocks. blocks.items ≡ marked marks.now) }
{
    let mut blocks = Vec::new(alloc);
    for block in 0..marks.len() {
        push_marked(&mut blocks, block as u32, marks[block])?;
    }
    Ok(blocks)
}

impl<S: InPhase, R: Rack> Volume<S, R> {
    /// What stands beside the saved state.
    fn extra(&self, alloc: Global) -> Result<Extra, NoMemory>
        requires { IsWell S.InPhase R.Rack self.now }
        ensures is { IfOk result (λ extra. extra ≡ extra_of self.now) }
        ensures form { IfOk result (λ extra. IsExtra extra) }
    {
        let cut = marked_blocks(alloc, &self.in_use.cut)?;
        let Ok(live) = self.in_use.live.to_vec(alloc) else {
            return Err(NoMemory);
        };
        Ok(Extra {
            length: member_length(self.store.shape()),
            boundaries: self.in_use.boundaries,
            live: Bytes::new(live),
            cut: Numbers::new(cut),
        })
    }
}

impl<S: InPhase, R: Checkpoint> Volume<S, R> {
    /// Keeps the state as it stands on the members: the bytes of those that are good, and beside them which boundaries are in use and which
    /// blocks were cut. A member that falls in it is out.
    pub fn commit(&mut self, alloc: Global) -> Result<CommitAnswer, NoMemory>
        requires well { IsWell S.InPhase R.Rack self.old }
        requires room { IfSome (R.room_of (rack_of self.old)) (λ room. 30 + 4 * (shape_of self.old).n ≤ room) }
        ensures on { GoesOn S.InPhase R.Rack self.old self.new }
        ensures commits { IfOk result (λ answer. Commits S.InPhase R.Rack R.room_of R.commits self.old answer self.new) }
        ensures err { OnErr result (self.new ≡ self.old) }
        ensures given { given_of self.new ≡ given_of self.old }
    {
        let extra = self.extra(alloc)?;
        let bytes = write_extra(alloc, &extra)?;
        Ok(commit_good(&mut self.store, &bytes))
    }

    /// Whether a boundary isn't in use, and the rack keeps no checkpoint.
    fn cannot_save(&self) -> bool
        requires { IsWell S.InPhase R.Rack self.now }
        ensures some { result ≡ true → CannotSave R.room_of self.now }
        ensures none { result ≡ false → CannotSave R.room_of self.now → ⊥ }
    {
        if self.store.room().is_some() {
            return false;
        }
        self.is_reduced()
    }

    /// Saves the state of the array, and where the rack keeps a checkpoint makes it the one that is kept. Where no member is good behind that,
    /// the label is the one that was kept before. A rack with less room than what stands beside the state takes is answered as want of memory.
    pub fn checkpoint(&mut self, alloc: Global, hot: &Hot) -> Result<CheckpointAnswer, NoMemory>
        requires well { IsWell S.InPhase R.Rack self.old }
        ensures on { GoesOn S.InPhase R.Rack self.old self.new }
        ensures steps { IfOk result (λ answer. StepsHot S.InPhase S.InPhase R.Rack hot.now self.old Event.Save (checkpoint_reply answer) self.new) }
        ensures not_saved { IfOk result (λ answer. (answer ≡ CheckpointAnswer.NotSaved) ↔ CannotSave R.room_of self.old) }
        ensures kept { IfOk result (KeepsBy S.InPhase R.Rack R.room_of R.commits hot.now self.old self.new) }
        ensures err { OnErr result (LeavesBy S.InPhase S.InPhase R.Rack IsCallOrExtendBelow self.old self.new × KeepsArray R.Rack self.old self.new) }
        ensures given { given_of self.new ≡ given_of self.old }
    {
        if self.cannot_save() {
            return Ok(CheckpointAnswer::NotSaved);
        }
        let extra = self.extra(alloc)?;
        let bytes = write_extra(alloc, &extra)?;
        let before = self.label;
        let sequence = match self.save(alloc, hot)? {
            SaveAnswer::Saved(sequence) => sequence,
            SaveAnswer::Lost(boundary) => return Ok(CheckpointAnswer::Lost(boundary)),
        };
        if !has_room(&self.store, bytes.len()) {
            return Err(NoMemory);
        }
        commit_good(&mut self.store, &bytes);
        if has_good(&self.store) {
            return Ok(CheckpointAnswer::Saved(sequence));
        }
        self.label = before;
        Ok(CheckpointAnswer::Lost(self.in_use.number(0)))
    }
}
