// Laws of labels.
ghost use Rattle.dg_label.specs.Lefts.{LabelsAreLeft, LabelsStandLeft};

use dg_io::Reduces;

/// Where an array goes on without its lost boundaries, an opened label stays that of its line, and stands on the members that are left, if what it
/// says of these is kept under their new places.
pub fn labels_are_left<R: Reduces>()
    ensures labeled { LabelsAreLeft R.Rack R.boundaries R.dropped }
    ensures stands { LabelsStandLeft R.Rack R.boundaries R.dropped }
{}
