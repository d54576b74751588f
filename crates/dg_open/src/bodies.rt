// The bodies of the members with the greatest number.
ghost use Rattle.std.specs.Prelude.{◌≡◌, ◌<◌, true, IfOk, IfSome, IsSome, MatchOption};
ghost use Rattle.std.specs.Option.{option_map};
ghost use Rattle.dg_open.specs.Reopenings.{LeavesRead};
ghost use Rattle.dg_open.specs.Seen.{AllStand, AreFailed, AreLabeled, HasBodyOf, HasFailed, HasNotFailed, IsFirst, IsLabeledBy, Marks, MarksOne};
ghost use Rattle.dg_open.specs.Seen.{NoneMarked, QuietBut, ReadsOne, SayNone, SaysAt, SaysNone, SaysState, StandBut, label_at, source_with};

use crate::labels::{Labels, MEMBERS, if_newest};
use dg_io::{NoMemory, Rack};
use dg_save::{Label, SavedState, body_place, decode};
use std::alloc::Global;

/// By member: whether reading its body failed.
pub type Failures = [bool; MEMBERS];

/// The state that an array is opened from.
#[derive(Drop)]
pub struct Source {
    pub label: Label,
    pub saved: SavedState,
}

/// What the first member with the greatest number says whose body says a state. Their bodies are read one after another.
pub fn first_state<R: Rack>(
    alloc: Global,
    rack: &mut R,
    labels: &Labels,
    greatest: u64,
    failed: &mut Failures,
) -> Result<Option<Source>, NoMemory>
    requires labeled { AreLabeled R.Rack rack.old labels.now }
    requires stand { AllStand R.Rack rack.old labels.now 32 }
    requires none { NoneMarked failed.old 0 }
    ensures leaves { IfOk result (λ found. LeavesRead R.Rack rack.old rack.new) }
    ensures stand { IfOk result (λ found. StandBut R.Rack rack.new labels.now failed.new) }
    ensures failed { IfOk result (λ found. AreFailed R.Rack rack.old rack.new failed.new) }
    ensures quiet { IfOk result (λ found. QuietBut R.Rack rack.old rack.new failed.new) }
    ensures says { IfOk result (λ found. MatchOption found
        (SayNone R.Rack rack.old rack.new labels.now greatest 32) (IsFirst R.Rack rack.old rack.new labels.now greatest)) }
{
    for member in 0..MEMBERS {
        if let Some(source) = state_at(alloc, rack, labels, greatest, failed, member as u8)? {
            return Ok(Some(source));
        }
    }
    Ok(None)
}

/// What a member says, if it has this number and its body says a state.
fn state_at<R: Rack>(
    alloc: Global,
    rack: &mut R,
    labels: &Labels,
    greatest: u64,
    failed: &mut Failures,
    member: u8,
) -> Result<Option<Source>, NoMemory>
    requires within { member < 32 }
    requires labeled { IfSome (label_at labels.now member) (IsLabeledBy R.Rack rack.old member) }
    requires stands { IsSome (label_at labels.now member) → R.stands rack.old member ≡ true }
    ensures reads { IfOk result (λ found. ReadsOne R.Rack member rack.old rack.new) }
    ensures marks { IfOk result (λ found. Marks R.Rack rack.old rack.new labels.now member failed.old failed.new) }
    ensures says { IfOk result (SaysAt R.Rack rack.old rack.new labels.now greatest member) }
{
    match if_newest(&labels[member as usize], greatest) {
        Some(label) => {
            let saved = state_on(alloc, rack, &label, failed, member)?;
            Ok(source_of(label, saved))
        }
        None => Ok(None),
    }
}

/// The label and the state of its body, if it says one.
fn source_of(label: Label, saved: Option<SavedState>) -> Option<Source>
    ensures { result ≡ option_map (source_with label) saved }
{
    match saved {
        Some(saved) => Some(Source { label, saved }),
        None => None,
    }
}

/// The state that the body of a label says on a member.
fn state_on<R: Rack>(
    alloc: Global,
    rack: &mut R,
    label: &Label,
    failed: &mut Failures,
    member: u8,
) -> Result<Option<SavedState>, NoMemory>
    requires within { member < 32 }
    requires labeled { IsLabeledBy R.Rack rack.old member label.now }
    requires stands { R.stands rack.old member ≡ true }
    ensures reads { IfOk result (λ found. ReadsOne R.Rack member rack.old rack.new) }
    ensures marks { IfOk result (λ found. MarksOne R.Rack rack.old rack.new member failed.old failed.new) }
    ensures says { IfOk result (λ found. MatchOption found
        (SaysNone R.Rack rack.old rack.new member label.now) (SaysState R.Rack rack.new member label.now)) }
{
    match read_body(alloc, rack, label, member)? {
        Some(body) => decode(alloc, &body, &label.shape, label.format),
        None => {
            failed[member as usize] = true;
            Ok(None)
        }
    }
}

/// The bytes of the body of a label on a member. `None` where the call fails.
fn read_body<R: Rack>(
    alloc: Global,
    rack: &mut R,
    label: &Label,
    member: u8,
) -> Result<Option<Vec<u8>>, NoMemory>
    requires within { member < 32 }
    requires labeled { IsLabeledBy R.Rack rack.old member label.now }
    requires stands { R.stands rack.old member ≡ true }
    ensures reads { IfOk result (λ found. ReadsOne R.Rack member rack.old rack.new) }
    ensures is { IfOk result (λ found. MatchOption found
        (HasFailed R.Rack rack.old rack.new member) (λ body. HasBodyOf R.Rack rack.new member label.now body.items)) }
    ensures quiet { IfOk result (λ found. IsSome found → HasNotFailed R.Rack rack.old rack.new member) }
{
    let Ok(mut body) = vec![in alloc; 0; label.body as usize] else {
        return Err(NoMemory);
    };
    match rack.read(member, body_place(&label.shape), &mut body) {
        Ok(()) => Ok(Some(body)),
        Err(_) => Ok(None),
    }
}
