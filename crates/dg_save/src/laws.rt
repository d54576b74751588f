ghost use Rattle.dg_save.specs.Laws.{BodiesAreUnique, BodiesHaveRoom, LabelsAreUnique};

/// Two states of a format's form, of arrays with the same numbers, are equal where their bodies are. So what [`crate::decode`] gives of
/// a body that [`crate::encode`] made is the state that it was made of.
pub fn bodies_are_unique()
    ensures { BodiesAreUnique }
{}

/// The body of a state of a format's form isn't longer than its room.
pub fn bodies_have_room()
    ensures { BodiesHaveRoom }
{}

/// Two labels are equal where their bytes are.
pub fn labels_are_unique()
    ensures { LabelsAreUnique }
{}
