// Room for a plan.
ghost use Rattle.std.specs.Prelude.{ℕ, List, Option, IsOk};
ghost use Rattle.dg_model.specs.Homes.{Ascend};
ghost use Rattle.dg_model.specs.Plans.{plan};
ghost use Rattle.dg_model.specs.declared.homes.Home.{Home};
ghost use Rattle.dg_model.specs.declared.parents.Parent.{Parent};
ghost use Rattle.dg_model.specs.declared.shapes.Shape.{Shape};
ghost use Rattle.dg_model.specs.declared.wants.Want.{Want};
ghost use Rattle.dg_promise.specs.Rooms.{HasRoom};

/// A plan finds room, whatever homes there were, where no file has many blocks and the boundaries have enough slots more than there are blocks.
pub fn plans_have_room()
    ensures { (shape : Shape) (wants : List (Option Want)) (parents : List Parent) (homes : List Home) (kept most : ℕ) → Ascend homes
        → HasRoom shape wants kept most → IsOk (plan shape wants parents homes) }
{}
