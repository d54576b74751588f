// Saving the state of the array.
ghost use Rattle.std.specs.Prelude.{◌≡◌, ◌≢◌, ◌*◌, ◌^◌, ◌<◌, ◌≤◌, IfOk, OnErr, length};
ghost use Rattle.std.specs.List.{All, AllPairs};
ghost use Rattle.dg_model.specs.Members.{is_good};
ghost use Rattle.dg_model.specs.Saves.{CanBeSaved, HasForm, body_of, room_of};
ghost use Rattle.dg_model.specs.declared.events.Event.{Event};
ghost use Rattle.dg_save.specs.States.{state_of as saved_of};
ghost use Rattle.dg_store.specs.Leaves.{IsCallOrExtendBelow};
ghost use Rattle.dg_store.specs.Stores.{IsSound, members_of as stored_members, shape_of as stored_shape};
ghost use Rattle.dg_volume.specs.Copies.{StepsHot};
ghost use Rattle.dg_volume.specs.Saves.{good_marks, save_reply, saved_by};
ghost use Rattle.dg_volume.specs.Settles.{KeepsArray};
ghost use Rattle.dg_volume.specs.Volumes.{IsWell, LeavesBy, given_of, marks_of, shape_of};

use crate::phases::InPhase;
use crate::volumes::Volume;
use dg_hot::Hot;
use dg_io::{NoMemory, Rack};
use dg_label::{SaveAnswer, save};
use dg_map::Map;
use dg_model::{MemberState, Numbers, Site};
use dg_plan::Homes;
use dg_save::{Marks, SavedState, SiteLists, bodies_have_room, encode};
use dg_store::Store;
use std::alloc::Global;

/// A copy of some sites.
fn copy_sites(alloc: Global, sites: &[Site]) -> Result<Vec<Site>, NoMemory>
    ensures { IfOk result (λ copied. copied.items ≡ sites.now) }
{
    match sites.to_vec(alloc) {
        Ok(copied) => Ok(copied),
        Err(_) => Err(NoMemory),
    }
}

/// A copy of the sites of each block.
fn copy_rows(alloc: Global, map: &Map) -> Result<SiteLists, NoMemory>
    ensures { IfOk result (λ lists. lists ≡ map.now.rows) }
{
    let blocks = map.shape().n;
    let Ok(mut lists) = Vec::with_capacity(alloc, blocks as usize) else {
        return Err(NoMemory);
    };
    for block in 0..blocks {
        let row = copy_sites(alloc, map.sites(block))?;
        let Ok(()) = lists.push(row) else {
            return Err(NoMemory);
        };
    }
    Ok(SiteLists::new(lists))
}

/// A copy of a list of homes.
fn copy_homes(alloc: Global, homes: &Homes) -> Result<Homes, NoMemory>
    ensures { IfOk result (λ copied. copied ≡ homes.now) }
{
    match homes.as_slice().to_vec(alloc) {
        Ok(copied) => Ok(Homes::new(copied)),
        Err(_) => Err(NoMemory),
    }
}

/// The inodes of the files that were read last.
fn recent_inodes(alloc: Global, hot: &Hot) -> Result<Numbers, NoMemory>
    ensures is { IfOk result (λ recent. recent ≡ hot.now) }
    ensures few { IfOk result (λ recent. length recent ≤ 16) }
    ensures once { IfOk result (λ recent. AllPairs (λ i j. i ≢ j) recent) }
    ensures fit { IfOk result (λ recent. All (λ i. i < 2 ^ 32) recent) }
{
    match hot.inodes(alloc) {
        Ok(inodes) => Ok(Numbers::new(inodes)),
        Err(NoMemory) => Err(NoMemory),
    }
}

/// Whether a member is good.
pub fn is_good<R: Rack>(store: &Store<R>, member: u8) -> bool
    requires sound { IsSound R.Rack store.now }
    requires member { member < 2 * (stored_shape store.now).b }
    ensures { result ≡ is_good (stored_members store.now member) }
{
    let state = store.boundary(member / 2).member(member % 2);
    matches!(state, MemberState::Good)
}

/// A mark for each member: whether it is good.
fn mark_good<R: Rack>(alloc: Global, store: &Store<R>) -> Result<Marks, NoMemory>
    requires { IsSound R.Rack store.now }
    ensures { IfOk result (λ marks. marks ≡ good_marks store.now) }
{
    let mut marks = Vec::new(alloc);
    for member in 0..2 * store.shape().b {
        let Ok(()) = marks.push(is_good(store, member)) else {
            return Err(NoMemory);
        };
    }
    Ok(Marks::new(marks))
}

impl<S: InPhase, R: Rack> Volume<S, R> {
    /// Saves the state of the array: a body that says it is written to each good member, and then a label, sealed, under the next number.
    /// A seal that isn't opened is opened first. The answer is `Lost` where no member is good in the end. A number that is no label's (2^63)
    /// is answered as want of memory, and nothing is done.
    pub fn save(&mut self, alloc: Global, hot: &Hot) -> Result<SaveAnswer, NoMemory>
        requires well { IsWell S.InPhase R.Rack self.old }
        ensures leaves { LeavesBy S.InPhase S.InPhase R.Rack IsCallOrExtendBelow self.old self.new }
        ensures steps { IfOk result (λ answer. StepsHot S.InPhase S.InPhase R.Rack hot.now self.old Event.Save (save_reply answer) self.new) }
        ensures err { OnErr result (KeepsArray R.Rack self.old self.new) }
        ensures array { KeepsArray R.Rack self.old self.new }
        ensures given { given_of self.new ≡ given_of self.old }
    {
        let body = self.body(alloc, hot)?;
        let line = self.in_use.line(self.store.shape());
        let answer = save(&mut self.store, &line, &mut self.label, &body)?;
        Ok(self.in_use.saved(answer))
    }

    /// The body that says the state, in format 2.
    fn body(&self, alloc: Global, hot: &Hot) -> Result<Vec<u8>, NoMemory>
        requires well { IsWell S.InPhase R.Rack self.now }
        ensures says { IfOk result (λ body. body.items ≡ body_of 2 (saved_by S.InPhase self.now hot.now)) }
        ensures form { IfOk result (λ body. CanBeSaved (saved_by S.InPhase self.now hot.now)) }
        ensures room { IfOk result (λ body. length body.items ≤ room_of 2 (shape_of self.now)) }
    {
        bodies_have_room();
        let state = self.saved_state(alloc, hot)?;
        encode(alloc, &state, 2)
    }

    /// The state, as it is saved.
    fn saved_state(&self, alloc: Global, hot: &Hot) -> Result<SavedState, NoMemory>
        requires well { IsWell S.InPhase R.Rack self.now }
        ensures is { IfOk result (λ state. saved_of state ≡ saved_by S.InPhase self.now hot.now) }
        ensures form { IfOk result (λ state. HasForm 2 (saved_of state)) }
    {
        Ok(SavedState {
            shape: *self.store.shape(),
            phase: self.phase.phase(),
            good: mark_good(alloc, &self.store)?,
            sites: copy_rows(alloc, self.store.map())?,
            pending: self.mark_pending(alloc)?,
            homes: copy_homes(alloc, &self.homes)?,
            copies: copy_homes(alloc, &self.copies)?,
            recent: recent_inodes(alloc, hot)?,
        })
    }

    /// A mark for each block: whether it is pending.
    fn mark_pending(&self, alloc: Global) -> Result<Marks, NoMemory>
        requires { IsWell S.InPhase R.Rack self.now }
        ensures { IfOk result (λ marks. marks ≡ marks_of S.InPhase self.now) }
    {
        let Ok(mut marks) = vec![in alloc; false; self.store.shape().n as usize] else {
            return Err(NoMemory);
        };
        let mut from = 0;
        while let Some(block) = self.next_pending(from) {
            marks[block as usize] = true;
            from = block + 1;
        }
        Ok(Marks::new(marks))
    }
}
