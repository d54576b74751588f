// Laws of lines.
ghost use Rattle.std.specs.Prelude.{◌≡◌, ◌≤◌, ◌++◌, ℕ, List, Option, Result};
ghost use Rattle.dg_model.specs.declared.shapes.Shape.{Shape};
ghost use Rattle.dg_model.specs.declared.events.Event.{Event};
ghost use Rattle.dg_model.specs.declared.replies.Reply.{Reply};
ghost use Rattle.dg_text.specs.LineCalls.{HasShortLines, calls_of, lines_of};
ghost use Rattle.dg_text.specs.Refusals.{Reads};
ghost use Rattle.dg_text.specs.declared.lines.BadLine.{BadLine};
ghost use Rattle.dg_text.specs.Lines.{AreInPlace, IsInPlace, input_of, line_of};

/// A text begins with the line of no more than one event in its place.
pub fn line_is_unique()
    ensures { (shape : Option Shape) (one other : Event) (rest more : List ℕ) → IsInPlace shape one → IsInPlace shape other
        → line_of one ++ rest ≡ line_of other ++ more → (one ≡ other) × (rest ≡ more) }
{}

/// An input spells its events in one way.
pub fn input_is_unique()
    ensures { (events others : List Event) → AreInPlace events → AreInPlace others → input_of events ≡ input_of others → events ≡ others }
{}

/// A line has no more than one reading where it stands. So it is read as an event just where it spells that one in its place,
/// and refused just where it spells none.
pub fn reading_is_unique()
    ensures { (shape : Option Shape) (line : List ℕ) (one other : Result Event BadLine) → Reads shape line one → Reads shape line other → one ≡ other }
{}

/// A line has a reading where it stands.
pub fn line_is_read()
    ensures { (shape : Option Shape) (line : List ℕ) → (reading : Result Event BadLine) × Reads shape line reading }
{}

/// A reply whose lines hold no more than a block, a name of a directory or a path of an event is written by one call a line.
pub fn short_lines_are_one_call()
    ensures { (reply : Reply) → HasShortLines reply → calls_of reply ≤ lines_of reply }
{}
