ghost use Rattle.std.specs.Prelude.{◌≡◌, ◌≤◌};
ghost use Rattle.ufs_model.specs.Geometries.{IsGeometry};
ghost use Rattle.ufs_model.specs.Inodes.{span};
ghost use Rattle.ufs_model.specs.Pointers.{address, slot_address};
ghost use Rattle.ufs_pointer.specs.Addresses.{HasSpan, IsInside, IsWhole};

use ufs_inode::{Inode, slot_address, slot_of, span};
use ufs_model::{Address, Geometry};
use ufs_super::address;

/// What a pointer to a file block leads to.
#[tactic(auto, using(crate::proofs::AddressLaws::address_whole))]
pub fn block_address(g: &Geometry, pointer: u32) -> Address
    requires { IsGeometry g.now }
    ensures value { result ≡ address g.now pointer g.now.frag }
    ensures whole { IsWhole g.now result }
{
    address(g, pointer, g.frag)
}

/// What a direct slot leads to.
#[tactic(auto, using(crate::proofs::AddressLaws::address_inside, crate::proofs::AddressLaws::address_span))]
pub fn direct_address(g: &Geometry, inode: &Inode, slot: u8) -> Address
    requires geometry { IsGeometry g.now }
    requires slot { slot ≤ 11 }
    ensures value { result ≡ slot_address g.now inode.now slot }
    ensures inside { IsInside g.now result }
    ensures span { HasSpan (span g.now inode.now slot) result }
{
    address(g, slot_of(inode, slot), span(g, inode, slot))
}

/// What an indirect slot leads to: it claims a whole file block.
#[tactic(auto, using(crate::proofs::AddressLaws::address_whole), unfolding(ufs_model::specs::Inodes::span))]
pub fn indirect_address(g: &Geometry, inode: &Inode, slot: u8) -> Address
    requires geometry { IsGeometry g.now }
    requires low { 12 ≤ slot }
    requires high { slot ≤ 14 }
    ensures value { result ≡ slot_address g.now inode.now slot }
    ensures whole { IsWhole g.now result }
{
    slot_address(g, inode, slot)
}
