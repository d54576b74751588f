// Opening a seal.
ghost use Rattle.dg_label.specs.Labels.{HasOwnSeal};
ghost use Rattle.dg_label.specs.Seals.{OpensSeal};
ghost use Rattle.dg_store.specs.Stores.{IsSound, shape_of};

use crate::labels::KeptLabel;
use crate::passes::write_labels;
use dg_io::Rack;
use dg_store::Store;

/// Opens the seal of the label on each good member, where it is sealed. A member whose call fails goes out, and nothing behind its first page
/// has changed.
pub fn open_seal<R: Rack>(store: &mut Store<R>, label: &mut Option<KeptLabel>)
    requires sound { IsSound R.Rack store.old }
    requires seal { HasOwnSeal (shape_of store.old) label.old }
    ensures { OpensSeal R.Rack store.old store.new label.old label.new }
{
    let Some(kept) = *label else {
        return;
    };
    if !kept.sealed {
        return;
    }
    let opened = KeptLabel {
        sealed: false,
        ..kept
    };
    write_labels(store, &opened);
    *label = Some(opened);
}
