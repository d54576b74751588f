// Saving a body.
ghost use Rattle.std.specs.Prelude.{◌≡◌, ◌≤◌, ℕ, false, length, IfOk, OnErr};
ghost use Rattle.dg_io.specs.Told.{IsSame};
ghost use Rattle.dg_label.specs.Labels.{IsLabeled};
ghost use Rattle.dg_label.specs.Saves.{LeavesMembers, save_calls};
ghost use Rattle.dg_label.specs.Seals.{AnswersSave, KeepsArrayBy};
ghost use Rattle.dg_model.specs.Members.{is_good};
ghost use Rattle.dg_model.specs.Saves.{room_of};
ghost use Rattle.dg_store.specs.Leaves.{BytesChange, CallsAtMost, IsCallOrExtendBelow};
ghost use Rattle.dg_store.specs.Stores.{IsSound, members_of, shape_of};

use crate::labels::{KeptLabel, number_after};
use crate::passes::{lengthen, write_bodies, write_labels};
use crate::seals::open_seal;
use dg_io::{NoMemory, Rack};
use dg_store::{Shape, Store};

/// What became of a save.
#[derive(Clone, Copy, Debug, PartialEq, Eq)]
pub enum SaveAnswer {
    /// Each good member has the body, and the label under this number, sealed.
    Saved(u64),
    /// No member is good; this is the least boundary.
    Lost(u8),
}

/// A number past the last one that a label can have.
const PAST_NUMBERS: u64 = 1 << 63;

/// Writes a body of format 2 to each good member, and then the label, sealed, with the next number. The seal is opened first where it is
/// sealed, and a member that is too short is made longer. On each member this is the order, also on one that falls: the new label stands above
/// the new body alone, and the sealed one stays only where its opening failed and nothing else was written. The slots stay. A number that is no
/// label's (2^63) is answered as want of memory, and nothing is done.
///
/// The line has the numbers with which the array was made: members are as long as these say. Boundaries may be out of use since; the label and the
/// body are those of the boundaries in use, under their places. Whether such an array may be saved the caller knows: its members are longer than the
/// label says, so they are found again only over a rack that tells their bytes up to there.
pub fn save<R: Rack>(
    store: &mut Store<R>,
    line: &Shape,
    label: &mut Option<KeptLabel>,
    body: &[u8],
) -> Result<SaveAnswer, NoMemory>
    requires sound { IsSound R.Rack store.old }
    requires labeled { IsLabeled R.Rack line.now store.old label.old }
    requires body { length body.now ≤ room_of 2 (shape_of store.old) }
    ensures array { KeepsArrayBy R.Rack IsCallOrExtendBelow store.old store.new }
    ensures labeled { IsLabeled R.Rack line.now store.new label.new }
    ensures answer { IfOk result (AnswersSave R.Rack line.now body.now store.old store.new label.old label.new) }
    ensures members { IfOk result (λ answer. LeavesMembers R.Rack body.now label.old store.old store.new) }
    ensures untouched { (q : ℕ) → is_good (members_of store.old q) ≡ false → BytesChange R.Rack store.old store.new q IsSame }
    ensures most { CallsAtMost R.Rack store.old store.new (save_calls (shape_of store.old).b label.old) }
    ensures err { OnErr result (store.new ≡ store.old) × OnErr result (label.new ≡ label.old) }
{
    let sequence = number_after(label);
    if sequence >= PAST_NUMBERS {
        return Err(NoMemory);
    }
    let kept = KeptLabel {
        format: 2,
        sequence,
        sealed: true,
        body: body.len() as u32,
        long: 0,
    };
    let mut opened = *label;
    open_seal(store, &mut opened);
    lengthen(store, line, &opened);
    // Each member has the body before the first label says so.
    write_bodies(store, body);
    if !write_labels(store, &kept) {
        // Each boundary is lost then.
        return Ok(SaveAnswer::Lost(0));
    }
    *label = Some(kept);
    Ok(SaveAnswer::Saved(sequence))
}
