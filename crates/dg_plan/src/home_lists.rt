ghost use Rattle.std.specs.Prelude.{◌↔◌, IsTrue};
ghost use Rattle.dg_model.specs.Homes.{Ascend};

use crate::Home;
use std::marker::Model;

/// The homes of files, or the boundaries of their copies. Contracts see the list.
#[derive(Debug, Drop)]
pub struct Homes {
    items: Vec<Home>,
}

impl Model for Homes {
    ghost use Rattle.std.specs.Prelude.{List};
    ghost use Rattle.dg_model.specs.declared.homes.Home.{Home};

    ghost Value = { List Home };

    ghost view = { λ homes. homes.items.items };
}

impl Homes {
    ghost use Rattle.std.specs.Prelude.{◌≡◌, ◌↔◌, IsTrue};
    ghost use Rattle.dg_model.specs.Homes.{Ascend, home_of};

    /// Takes the homes of a vector, without a copy.
    pub fn new(items: Vec<Home>) -> Homes
        ensures { result ≡ items.items }
    {
        Homes { items }
    }

    /// The homes, in their order.
    pub fn as_slice(&self) -> &[Home]
        ensures { result.now ≡ self.now }
    {
        &self.items
    }

    /// The vector of the homes, without a copy.
    pub fn into_vec(self) -> Vec<Home>
        ensures { result.items ≡ self }
    {
        let Homes { items } = self;
        items
    }

    /// Whether the inodes ascend.
    pub fn ascend(&self) -> bool
        ensures { IsTrue result ↔ Ascend self.now }
    {
        ascend(&self.items)
    }

    /// The boundary that the list has for an inode, if it has one.
    pub fn home_of(&self, inode: u32) -> Option<u8>
        requires { Ascend self.now }
        ensures { result ≡ home_of self.now inode }
    {
        match self.items.binary_search_by_key(&inode, |home| home.inode) {
            Ok(place) => Some(self.items[place].boundary),
            Err(_) => None,
        }
    }
}

/// Whether the inodes ascend.
fn ascend(homes: &[Home]) -> bool
    ensures { IsTrue result ↔ Ascend homes.now }
{
    for place in 1..homes.len() {
        if homes[place].inode <= homes[place - 1].inode {
            return false;
        }
    }
    true
}
