// The labels of the members of a rack.
ghost use Rattle.std.specs.Prelude.{◌≡◌, ◌≢◌, ◌⊎◌, ◌≤◌, ◌<◌, ◌↔◌, ◌==◌, ℕ, None, true, false, IfSome, IsSome, IsSomeAnd, IsTrue, MatchOption, Some};
ghost use Rattle.dg_io.specs.Commits.{is_marked};
ghost use Rattle.dg_model.specs.Saves.{member_length as member_length_of};
ghost use Rattle.dg_model.specs.Shapes.{IsShape};
ghost use Rattle.dg_open.specs.Seen.{AllStand, AreMeasured, AreQuiet, AreSealed, AreSeen, HasFailed, HasHead, HasNotFailed, HasOpened, IsAttached, IsGreatestOf};
ghost use Rattle.dg_open.specs.Seen.{IsAsLong, IsLater, IsMeasured, IsNoLabel, IsOwnLabel, IsSeen, IsShort, ReadsOne};

use dg_io::Rack;
use dg_label::with_bit;
use dg_save::{LABEL_BYTES, Label, is_own_label, labels_are_unique, member_length, read_label};

/// How many members an array has at most.
pub const MEMBERS: usize = 32;

/// By member: the label that it has of its own, if it has one.
pub type Labels = [Option<Label>; MEMBERS];

/// Finds the members of a rack, ascending by number, and reads their labels. The bits of those are set that are as long as format 2 says.
pub fn find_all<R: Rack>(rack: &mut R, long: &mut u32) -> Labels
    requires none { long.old ≡ 0 }
    ensures seen { AreSeen R.Rack rack.old rack.new result 32 }
    ensures measured { AreMeasured R.Rack rack.new result long.new 32 }
    ensures stand { AllStand R.Rack rack.new result 32 }
    ensures quiet { AreQuiet R.Rack rack.old rack.new result 32 }
{
    let mut labels = [None; MEMBERS];
    for member in 0..MEMBERS {
        labels[member] = find_member(rack, member as u8, long);
    }
    labels
}

/// The label that a member has of its own; where it is as long as format 2 says, its bit is set. `None` where it has none, and where a call fails.
fn find_member<R: Rack>(rack: &mut R, member: u8, long: &mut u32) -> Option<Label>
    requires within { member < 32 }
    requires clear { is_marked long.old member ≡ false }
    ensures reads { ReadsOne R.Rack member rack.old rack.new }
    ensures seen { IsSeen R.Rack rack.old rack.new member result }
    ensures measured { IfSome result (IsMeasured R.Rack rack.new member (is_marked long.new member)) }
    ensures others { (q : ℕ) → q ≢ member → is_marked long.new q ≡ is_marked long.old q }
    ensures stands { IsSome result → R.stands rack.new member ≡ true }
    ensures quiet { IsSome result → HasNotFailed R.Rack rack.old rack.new member }
{
    match attach(rack, member) {
        Some(length) => {
            let found = label_on(rack, member, length);
            note_length(&found, member, length, long);
            found
        }
        None => None,
    }
}

/// Sets the bit of a member of this length if that is what format 2 says of an array with its label.
fn note_length(found: &Option<Label>, member: u8, length: u64, long: &mut u32)
    requires within { member < 32 }
    requires clear { is_marked long.old member ≡ false }
    requires shape { IfSome found.now (λ label. IsShape label.shape) }
    ensures here { IfSome found.now (λ label. is_marked long.new member ≡ (length == member_length_of 2 label.shape)) }
    ensures others { (q : ℕ) → q ≢ member → is_marked long.new q ≡ is_marked long.old q }
{
    let Some(label) = found else {
        return;
    };
    if length == member_length(&label.shape, 2) {
        *long = with_bit(*long, member);
    }
}

/// Finds a member that has room for a label, and answers its length. `None` for another one, and where the call fails.
fn attach<R: Rack>(rack: &mut R, member: u8) -> Option<u64>
    requires within { member < 32 }
    ensures reads { ReadsOne R.Rack member rack.old rack.new }
    ensures is { MatchOption result (IsShort R.Rack rack.old rack.new member) (IsAttached R.Rack rack.new member) }
    ensures quiet { IsSome result → HasNotFailed R.Rack rack.old rack.new member }
{
    match rack.attach(member) {
        Ok(found) => with_room(found),
        Err(_) => None,
    }
}

/// The length, if a label has room in it.
fn with_room(found: Option<u64>) -> Option<u64>
    ensures some { IfSome result (λ n. (found ≡ Some n) × (512 ≤ n)) }
    ensures none { result ≡ None → (found ≡ None) ⊎ IsSomeAnd found (λ n. n < 512) }
{
    match found {
        Some(length) => {
            if length >= LABEL_BYTES as u64 {
                Some(length)
            } else {
                None
            }
        }
        None => None,
    }
}

/// The label of its own that a member of this length has.
fn label_on<R: Rack>(rack: &mut R, member: u8, length: u64) -> Option<Label>
    requires within { member < 32 }
    requires attached { IsAttached R.Rack rack.old member length }
    ensures reads { ReadsOne R.Rack member rack.old rack.new }
    ensures seen { IsSeen R.Rack rack.old rack.new member result }
    ensures long { IsSome result → IsAsLong R.Rack rack.new member length }
    ensures stands { IsSome result → R.stands rack.new member ≡ true }
    ensures quiet { IsSome result → HasNotFailed R.Rack rack.old rack.new member }
{
    match read_head(rack, member, length) {
        Some(head) => own_label(&head, member, length),
        None => None,
    }
}

/// The first bytes of a member of this length. `None` where the call fails.
fn read_head<R: Rack>(rack: &mut R, member: u8, length: u64) -> Option<[u8; LABEL_BYTES]>
    requires within { member < 32 }
    requires attached { IsAttached R.Rack rack.old member length }
    ensures reads { ReadsOne R.Rack member rack.old rack.new }
    ensures is { MatchOption result (HasFailed R.Rack rack.old rack.new member) (HasHead R.Rack rack.new member length) }
    ensures quiet { IsSome result → HasNotFailed R.Rack rack.old rack.new member }
{
    let mut head = [0; LABEL_BYTES];
    match rack.read(member, 0, &mut head) {
        Ok(()) => Some(head),
        Err(_) => None,
    }
}

/// The label that the bytes are, if it is the own one of a member of this length.
fn own_label(head: &[u8; LABEL_BYTES], member: u8, length: u64) -> Option<Label>
    ensures { MatchOption result (IsNoLabel member length head.now) (IsOwnLabel member length head.now) }
{
    labels_are_unique();
    match read_label(head) {
        Some(label) => {
            if is_own_label(&label, member, length) {
                Some(label)
            } else {
                None
            }
        }
        None => None,
    }
}

/// The greatest number of a label.
pub fn greatest_of(labels: &Labels) -> Option<u64>
    ensures { IsGreatestOf labels.now 32 result }
{
    let mut greatest = None;
    for member in 0..MEMBERS {
        greatest = later(greatest, &labels[member]);
    }
    greatest
}

/// The greater of a number and that of a label.
fn later(greatest: Option<u64>, found: &Option<Label>) -> Option<u64>
    ensures { IsLater greatest found.now result }
{
    match (greatest, found) {
        (None, None) => None,
        (None, Some(label)) => Some(label.sequence),
        (Some(number), None) => Some(number),
        (Some(number), Some(label)) => Some(number.max(label.sequence)),
    }
}

/// Whether one of the labels with this number is opened.
pub fn is_unclean(labels: &Labels, greatest: u64) -> bool
    ensures opened { result ≡ true → HasOpened labels.now greatest }
    ensures clean { result ≡ false → AreSealed labels.now greatest 32 }
{
    for member in 0..MEMBERS {
        if is_opened(&labels[member], greatest) {
            return true;
        }
    }
    false
}

/// Whether a label has this number and is opened.
fn is_opened(found: &Option<Label>, greatest: u64) -> bool
    ensures { IsTrue result ↔ IsSomeAnd found.now (λ label. (label.sequence ≡ greatest) × (label.sealed ≡ false)) }
{
    match found {
        Some(label) => label.sequence == greatest && !label.sealed,
        None => false,
    }
}

/// The label, if it has this number.
pub fn if_newest(found: &Option<Label>, greatest: u64) -> Option<Label>
    ensures some { IfSome result (λ label. (found.now ≡ Some label) × (label.sequence ≡ greatest)) }
    ensures none { result ≡ None → IfSome found.now (λ label. label.sequence ≢ greatest) }
{
    match found {
        Some(label) => {
            if label.sequence == greatest {
                Some(*label)
            } else {
                None
            }
        }
        None => None,
    }
}
