// Opening the array of a rack.
ghost use Rattle.std.specs.Prelude.{◌≡◌, IfOk};
ghost use Rattle.dg_model.specs.Saves.{CanBeSaved, IsLabel};
ghost use Rattle.dg_open.specs.Reopenings.{AnswersReopen};
ghost use Rattle.dg_open.specs.Seen.{AreLabeled, OpensFrom, StandBut};
ghost use Rattle.dg_save.specs.Labels.{label_of};
ghost use Rattle.dg_save.specs.States.{state_of};

use crate::bodies::{Failures, Source, first_state};
use crate::labels::{Labels, MEMBERS, find_all, greatest_of, is_unclean};
use crate::rows::row_of;
use dg_io::{NoMemory, Rack};
use dg_label::KeptLabel;
use dg_map::Map;
use dg_save::SavedState;
use dg_store::Store;
use std::alloc::Global;

/// An array that was opened, and what was saved with it.
#[derive(Drop)]
pub struct Reopened<R> {
    pub store: Store<R>,
    /// What the body of the source says.
    pub saved: SavedState,
    /// The label that stands on each good member, sealed.
    pub label: KeptLabel,
}

/// What became of opening an array.
#[derive(Drop)]
pub enum ReopenAnswer<R> {
    Found(Reopened<R>),
    /// There is no saved array on the rack, which is given back.
    NoState(R),
    /// The array was written after its last save. The rack is given back.
    Unclean(R),
}

/// Opens the array of a rack: its members 0 to 31 are found and their labels read; of those that have a label of their own and the greatest number
/// the first whose body says a state gives it. Nothing is written.
pub fn reopen<R: Rack + Drop>(alloc: Global, rack: R) -> Result<ReopenAnswer<R>, NoMemory>
    ensures { IfOk result (AnswersReopen R.Rack rack) }
{
    let mut rack = rack;
    let mut long = 0;
    let labels = find_all(&mut rack, &mut long);
    let Some(greatest) = greatest_of(&labels) else {
        return Ok(ReopenAnswer::NoState(rack));
    };
    if is_unclean(&labels, greatest) {
        return Ok(ReopenAnswer::Unclean(rack));
    }
    let mut failed = [false; MEMBERS];
    let Some(source) = first_state(alloc, &mut rack, &labels, greatest, &mut failed)? else {
        return Ok(ReopenAnswer::NoState(rack));
    };
    let reopened = open_from(alloc, rack, source, &labels, &failed, long)?;
    Ok(ReopenAnswer::Found(reopened))
}

/// The array that the source says, over the members that are good by it. Its label has these bits.
fn open_from<R: Rack + Drop>(
    alloc: Global,
    rack: R,
    source: Source,
    labels: &Labels,
    failed: &Failures,
    long: u32,
) -> Result<Reopened<R>, NoMemory>
    requires label { IsLabel (label_of source.label) }
    requires form { CanBeSaved (state_of source.saved) }
    requires numbers { source.saved.shape ≡ source.label.shape }
    requires labeled { AreLabeled R.Rack rack labels.now }
    requires stand { StandBut R.Rack rack labels.now failed.now }
    ensures { IfOk result (OpensFrom R.Rack rack labels.now failed.now long source) }
{
    let Source { label, saved } = source;
    let map = Map::restored(alloc, label.shape, saved.sites.as_vec())?;
    let row = row_of(alloc, labels, failed, &label, saved.good.as_slice())?;
    let store = Store::opened(alloc, rack, label.shape, map, row)?;
    Ok(Reopened {
        store,
        saved,
        label: KeptLabel {
            format: label.format,
            sequence: label.sequence,
            sealed: label.sealed,
            body: label.body,
            long,
        },
    })
}
