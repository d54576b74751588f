use crate::Parent;
use std::marker::Model;

/// Inodes with the directory that names each. Where an inode stands twice, the first is the one that counts. Contracts see the list.
#[derive(Debug, Drop)]
pub struct Parents {
    items: Vec<Parent>,
}

impl Model for Parents {
    ghost use Rattle.std.specs.Prelude.{List};
    ghost use Rattle.dg_model.specs.declared.parents.Parent.{Parent};

    ghost Value = { List Parent };

    ghost view = { λ parents. parents.items.items };
}

impl Parents {
    ghost use Rattle.std.specs.Prelude.{◌≡◌};

    /// Takes the parents of a vector, without a copy.
    pub fn new(items: Vec<Parent>) -> Parents
        ensures { result ≡ items.items }
    {
        Parents { items }
    }

    /// The parents, in their order.
    pub fn as_slice(&self) -> &[Parent]
        ensures { result.now ≡ self.now }
    {
        &self.items
    }
}
