use crate::Want;
use std::marker::Model;

/// What each block of the array is to the plan, one want per block: `None` where the block isn't written. Contracts see the list of
/// them.
#[derive(Debug, Drop)]
pub struct Wants {
    items: Vec<Option<Want>>,
}

impl Model for Wants {
    ghost use Rattle.std.specs.Prelude.{List, Option};
    ghost use Rattle.dg_model.specs.declared.wants.Want.{Want};

    ghost Value = { List (Option Want) };

    ghost view = { λ wants. wants.items.items };
}

impl Wants {
    ghost use Rattle.std.specs.Prelude.{◌≡◌};

    /// Takes the wants of a vector, without a copy.
    pub fn new(items: Vec<Option<Want>>) -> Wants
        ensures { result ≡ items.items }
    {
        Wants { items }
    }

    /// The wants, by block.
    pub fn as_slice(&self) -> &[Option<Want>]
        ensures { result.now ≡ self.now }
    {
        &self.items
    }
}
