// Calls beside the slots on each good member, in ascending order.
ghost use Rattle.std.specs.Prelude.{◌≡◌, ◌+◌, ◌*◌, ◌<◌, ◌≤◌, ℕ, IfSome, if◌then◌else◌, length, not, false, true};
ghost use Rattle.dg_io.specs.Told.{Extended, IsSame, KeepsFront, Patched, Torn};
ghost use Rattle.dg_label.specs.Labels.{AreNumbers, HasLength, IsLabeled};
ghost use Rattle.dg_label.specs.Labels.{is_long as is_long_under};
ghost use Rattle.dg_label.specs.Pages.{LeavesFallen, PageFails, numbered, page_of};
ghost use Rattle.dg_label.specs.Passes.{AreWhole, FillingStay, HaveRoom, IsUncalled, Passes, Touches, TouchesBy};
ghost use Rattle.dg_label.specs.Saves.{short_members};
ghost use Rattle.dg_label.specs.Seals.{HasGood, HasNoGood, KeepsArrayBy};
ghost use Rattle.dg_model.specs.Members.{is_good};
ghost use Rattle.dg_model.specs.Saves.{body_place as place_of_body, label_bytes, member_length as length_of};
ghost use Rattle.dg_model.specs.Shapes.{IsShape};
ghost use Rattle.dg_store.specs.Leaves.{BytesChange, CallsAtMost, HasWritten, IsCallOrExtendBelow};
ghost use Rattle.dg_store.specs.Stores.{IsSound, members_of, rack_of, shape_of};

use crate::labels::{KeptLabel, is_long};
use dg_io::Rack;
use dg_save::{LABEL_BYTES, Label, body_place, member_length, write_label};
use dg_store::{NoteAnswer, Shape, Store};

/// Writes the label of these numbers on a member, where it is good. Whether it has it.
fn write_label_on<R: Rack>(store: &mut Store<R>, member: u8, kept: &KeptLabel) -> bool
    requires sound { IsSound R.Rack store.old }
    requires member { member < 2 * (shape_of store.old).b }
    requires numbers { AreNumbers (shape_of store.old) kept.now }
    ensures touches { Touches R.Rack member (Patched 0 (label_bytes (numbered (shape_of store.old) kept.now member))) store.old store.new }
    ensures fallen { LeavesFallen R.Rack (λ q. PageFails (R.steady (rack_of store.old)) (page_of (shape_of store.old) kept.now q)) store.old store.new }
    ensures good { is_good (members_of store.new member) ≡ result }
    ensures wrote { is_good (members_of store.old member) ≡ true → HasWritten R.Rack store.old store.new }
{
    let label = Label {
        format: kept.format,
        sequence: kept.sequence,
        sealed: kept.sealed,
        boundary: member / 2,
        side: member % 2,
        shape: *store.shape(),
        body: kept.body,
    };
    let mut page = [0; LABEL_BYTES];
    write_label(&label, &mut page);
    matches!(
        store.note(member / 2, member % 2, 0, &page),
        NoteAnswer::Noted
    )
}

/// Writes the label of these numbers on each good member. Whether some member has it.
pub fn write_labels<R: Rack>(store: &mut Store<R>, kept: &KeptLabel) -> bool
    requires sound { IsSound R.Rack store.old }
    requires numbers { AreNumbers (shape_of store.old) kept.now }
    ensures passes { Passes R.Rack (2 * (shape_of store.old).b) (λ q. Patched 0 (label_bytes (numbered (shape_of store.old) kept.now q)))
        store.old store.new }
    ensures fallen { LeavesFallen R.Rack (λ q. PageFails (R.steady (rack_of store.old)) (page_of (shape_of store.old) kept.now q)) store.old store.new }
    ensures some { result ≡ true → HasGood store.new }
    ensures none { result ≡ false → HasNoGood store.new }
    ensures wrote { HasGood store.old → HasWritten R.Rack store.old store.new }
{
    let mut some = false;
    for member in 0..2 * store.shape().b {
        if write_label_on(store, member, kept) {
            some = true;
        }
    }
    some
}

/// Writes the body on a member, where it is good.
fn write_body_on<R: Rack>(store: &mut Store<R>, member: u8, body: &[u8])
    requires sound { IsSound R.Rack store.old }
    requires member { member < 2 * (shape_of store.old).b }
    requires fits { is_good (members_of store.old member) ≡ true
        → IfSome (R.bytes (rack_of store.old) member) (λ all. place_of_body (shape_of store.old) + length body.now ≤ length all) }
    ensures touches { Touches R.Rack member (Patched (place_of_body (shape_of store.old)) body.now) store.old store.new }
    ensures fallen { LeavesFallen R.Rack (λ q. Torn (place_of_body (shape_of store.old)) (length body.now)) store.old store.new }
{
    let place = body_place(store.shape());
    let _ = store.note(member / 2, member % 2, place, body);
}

/// Writes the body behind the slots of each good member.
pub fn write_bodies<R: Rack>(store: &mut Store<R>, body: &[u8])
    requires sound { IsSound R.Rack store.old }
    requires room { HaveRoom R.Rack store.old (length body.now) }
    ensures passes { Passes R.Rack (2 * (shape_of store.old).b) (λ q. Patched (place_of_body (shape_of store.old)) body.now) store.old store.new }
    ensures fallen { LeavesFallen R.Rack (λ q. Torn (place_of_body (shape_of store.old)) (length body.now)) store.old store.new }
{
    for member in 0..2 * store.shape().b {
        write_body_on(store, member, body);
    }
}

/// Makes a member as long as format 2 says of an array of the line, where it is good. One that is so long already isn't called.
fn lengthen_one<R: Rack>(store: &mut Store<R>, line: &Shape, label: &Option<KeptLabel>, member: u8)
    requires sound { IsSound R.Rack store.old }
    requires member { member < 2 * (shape_of store.old).b }
    requires line { IsShape line.now }
    requires length { is_good (members_of store.old member) ≡ true
        → IfSome (R.bytes (rack_of store.old) member) (λ all. HasLength line.now label.now member (length all)) }
    ensures touches { TouchesBy R.Rack IsCallOrExtendBelow member (Extended (length_of 2 line.now)) store.old store.new }
    ensures fallen { LeavesFallen R.Rack (λ q. KeepsFront) store.old store.new }
    ensures uncalled { (q : ℕ) → is_good (members_of store.old q) ≡ true → (q ≡ member → is_long_under label.now member ≡ true)
        → IsUncalled R.Rack q store.old store.new }
    ensures most { CallsAtMost R.Rack store.old store.new (if not (is_long_under label.now member) then 1 else 0) }
{
    if is_long(label, member) {
        return;
    }
    let size = member_length(line, 2);
    let _ = store.extend(member / 2, member % 2, size);
}

/// Makes each good member as long as format 2 says of an array of the line. Those that are so long already aren't called.
pub fn lengthen<R: Rack>(store: &mut Store<R>, line: &Shape, label: &Option<KeptLabel>)
    requires sound { IsSound R.Rack store.old }
    requires labeled { IsLabeled R.Rack line.now store.old label.now }
    ensures array { KeepsArrayBy R.Rack IsCallOrExtendBelow store.old store.new }
    ensures filling { FillingStay R.Rack store.old store.new }
    ensures whole { AreWhole R.Rack line.now store.new }
    ensures fronts { (q : ℕ) → BytesChange R.Rack store.old store.new q KeepsFront }
    ensures untouched { (q : ℕ) → is_good (members_of store.old q) ≡ false → BytesChange R.Rack store.old store.new q IsSame }
    ensures uncalled { (q : ℕ) → is_good (members_of store.old q) ≡ true → is_long_under label.now q ≡ true → IsUncalled R.Rack q store.old store.new }
    ensures most { CallsAtMost R.Rack store.old store.new (short_members label.now (2 * (shape_of store.old).b)) }
{
    for member in 0..2 * store.shape().b {
        lengthen_one(store, line, label, member);
    }
}
