use std::marker::Model;

/// A mark for each member or each block. Contracts see the list.
#[derive(Debug, Drop)]
pub struct Marks {
    items: Vec<bool>,
}

impl Model for Marks {
    ghost use Rattle.std.specs.Prelude.{List, Bool};

    ghost Value = { List Bool };

    ghost view = { λ marks. marks.items.items };
}

impl Marks {
    ghost use Rattle.std.specs.Prelude.{◌≡◌};

    /// Takes the marks of a vector, without a copy.
    pub fn new(items: Vec<bool>) -> Marks
        ensures { result ≡ items.items }
    {
        Marks { items }
    }

    /// The marks, in their order.
    pub fn as_slice(&self) -> &[bool]
        ensures { result.now ≡ self.now }
    {
        &self.items
    }

    /// The vector of the marks, without a copy.
    pub fn into_vec(self) -> Vec<bool>
        ensures { result.items ≡ self }
    {
        let Marks { items } = self;
        items
    }
}
