// Laws of runs in which no count of faults rose, and after which the rack still tells each member of the array.
ghost use Rattle.std.specs.Prelude.{◌≡◌, ◌∷◌, [], false, List};
ghost use Rattle.dg_model.specs.declared.events.Event.{Event};
ghost use Rattle.dg_model.specs.declared.replies.Reply.{Reply};
ghost use Rattle.dg_model.specs.declared.shapes.Shape.{Shape};
ghost use Rattle.dg_uses.specs.Answers.{StaysWhole, answers};
ghost use Rattle.dg_uses.specs.Replays.{RanSmoothly};
ghost use Rattle.dg_uses.specs.Views.{Core, Views, blank_core};

use dg_io::Rack;
use dg_promise::{blank_arrays_are_steady, steps_keep_steady};

/// The replies are a function of the events, whichever these are.
pub fn replies_are_a_function<R: Rack, Q: Rack>()
    ensures { (start end : R) (first other : Q) (shape : Shape) (events : List Event) (replies others : List Reply)
        → RanSmoothly (R.steady start) (R.tells end) (Event.Array shape ∷ events) replies
        → RanSmoothly (Q.steady first) (Q.tells other) (Event.Array shape ∷ events) others
        → replies ≡ others }
{
    blank_arrays_are_steady();
    steps_keep_steady();
}

/// The replies are those of each chain of views of the events.
pub fn replies_by_views<R: Rack>()
    ensures { (start end : R) (shape : Shape) (events : List Event) (replies chain : List Reply) (last : Core)
        → RanSmoothly (R.steady start) (R.tells end) (Event.Array shape ∷ events) replies
        → Views (blank_core shape) events chain last → replies ≡ Reply.Done ∷ chain }
{}

/// Where no boundary is lost, the replies to writes, reads and failures are computed from them.
pub fn answers_are_promised<R: Rack>()
    ensures { (start end : R) (shape : Shape) (events : List Event) (replies : List Reply) → StaysWhole shape (λ q. false) events
        → RanSmoothly (R.steady start) (R.tells end) (Event.Array shape ∷ events) replies
        → replies ≡ Reply.Done ∷ answers shape (λ q. false) (λ b. []) events }
{}
