ghost use Rattle.std.specs.Prelude.{◌≡◌, ◌≤◌, ℕ, Bool, None, Some};
ghost use Rattle.dg_model.specs.Moves.{IsCutOff, missing_in, moves};
ghost use Rattle.dg_model.specs.Tables.{Table};

/// A limit that allows all missing placements is none: the moves are the same.
pub fn limit_of_all()
    ensures moves { (targets : ℕ → ℕ → Bool) (limit : ℕ) (table : Table)
        → missing_in targets table ≤ limit → moves targets (Some limit) table ≡ moves targets None table }
    ensures cut { (targets : ℕ → ℕ → Bool) (limit : ℕ) (old new : Table)
        → missing_in targets old ≤ limit → IsCutOff targets (Some limit) old new → IsCutOff targets None old new }
{}
