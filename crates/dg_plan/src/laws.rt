// Laws of the plan, for the crates above.
ghost use Rattle.std.specs.Prelude.{◌≡◌, List, Option, Ok};
ghost use Rattle.dg_model.specs.Moves.{AreTargets};
ghost use Rattle.dg_model.specs.Plans.{Plan, plan, targets_of};
ghost use Rattle.dg_model.specs.Shapes.{IsShape};
ghost use Rattle.dg_model.specs.Tables.{Table};
ghost use Rattle.dg_model.specs.Wants.{FitWants};
ghost use Rattle.dg_model.specs.declared.homes.Home.{Home};
ghost use Rattle.dg_model.specs.declared.parents.Parent.{Parent};
ghost use Rattle.dg_model.specs.declared.wants.Want.{Want};
ghost use Rattle.dg_plan.specs.Planned.{KeepsRules};
ghost use Rattle.dg_plan.specs.Targets.{wants_of};
ghost use Rattle.dg_plan.specs.declared.target_lists.Targets.{Targets};

/// What `plan` gives for the wants of a table's written blocks meets the conditions of moves; so does what the plan itself gives.
pub fn targets_of_plans()
    ensures given { (table : Table) (wants : List (Option Want)) (targets : Targets) → FitWants table wants → KeepsRules table.shape wants targets →
        AreTargets (wants_of targets) table }
    ensures plan { (table : Table) (wants : List (Option Want)) (parents : List Parent) (homes : List Home) (found : Plan) → IsShape table.shape →
        FitWants table wants → plan table.shape wants parents homes ≡ Ok found → AreTargets (targets_of table.shape wants found) table }
{}
