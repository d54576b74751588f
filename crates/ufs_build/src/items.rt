use dg_model::Bytes;
use std::marker::Model;

/// What kind of file an item is.
#[derive(Clone, Copy, Debug, PartialEq, Eq)]
pub enum ItemKind {
    /// A directory.
    Dir,
    /// A regular file.
    File,
    /// A symbolic link.
    Link,
}

/// A file of a volume that is to be built.
#[derive(Debug, Drop)]
pub struct Item {
    /// The names from the root on, with a slash in front of each.
    pub path: Bytes,
    pub kind: ItemKind,
    /// The bytes of a file, or what a link leads to. A directory has none.
    pub bytes: Bytes,
    /// Whether whole file blocks of zeros are holes.
    pub sparse: bool,
}

/// Items, which contracts see as a list.
#[derive(Debug, Drop)]
pub struct Items {
    items: Vec<Item>,
}

impl Model for Items {
    ghost use Rattle.std.specs.Prelude.{List};
    ghost use Rattle.ufs_build.specs.declared.items.Item.{Item};

    ghost Value = { List Item };

    ghost view = { λ i. i.items.items };
}

impl Items {
    ghost use Rattle.std.specs.Prelude.{◌≡◌};

    /// Takes the items of a vector, without a copy.
    pub fn new(items: Vec<Item>) -> Items
        ensures { result ≡ items.items }
    {
        Items { items }
    }

    /// The items.
    pub fn as_slice(&self) -> &[Item]
        ensures { result.now ≡ self.now }
    {
        &self.items
    }

    /// Gives the vector back, without a copy.
    pub fn into_vec(self) -> Vec<Item>
        ensures { result.items ≡ self }
    {
        let Items { items } = self;
        items
    }
}
