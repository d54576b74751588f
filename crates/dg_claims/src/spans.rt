ghost use Rattle.std.specs.Prelude.{◌≡◌, ◌+◌, ◌*◌, ◌≤◌, ◌/◌, ◌<◌, IfSome, length};
ghost use Rattle.ufs_model.specs.Claims.{fragments_at, pointer_fragments, slot_fragments};
ghost use Rattle.ufs_model.specs.Geometries.{IsGeometry};
ghost use Rattle.ufs_model.specs.Pointers.{address};
ghost use Rattle.dg_claims.specs.Kept.{IsRun};
ghost use Rattle.dg_claims.specs.Runs.{run_fragments};

use crate::runs::Run;
use ufs_inode::{has_pointers, slot_of, span};
use ufs_model::{Address, Geometry, Inode};
use ufs_pointer::pointer;
use ufs_super::address;

/// The fragments that a pointer leads to, if it leads to some.
#[tactic(auto, using(crate::proofs::SpanLaws::address_inside))]
fn run_of(g: &Geometry, pointer: u32, count: u32) -> Option<Run>
    requires geometry { IsGeometry g.now }
    requires some { 1 ≤ count }
    requires few { count ≤ 8 }
    ensures value { run_fragments result ≡ fragments_at (address g.now pointer count) }
    ensures run { IfSome result (IsRun g.now.size) }
{
    match address(g, pointer, count) {
        Address::Hole | Address::Wild => None,
        Address::At(first, count) => {
            prove!(first <= g.size);
            Some(Run {
                first,
                count: count as u8,
            })
        }
    }
}

/// What a slot of an inode claims.
#[tactic(auto, unfolding(ufs_model::specs::Claims::slot_fragments))]
pub fn slot_run(g: &Geometry, inode: &Inode, slot: u8) -> Option<Run>
    requires geometry { IsGeometry g.now }
    requires slot { slot ≤ 14 }
    ensures value { run_fragments result ≡ slot_fragments g.now inode.now slot }
    ensures run { IfSome result (IsRun g.now.size) }
{
    if !has_pointers(g, inode) {
        return None;
    }
    run_of(g, slot_of(inode, slot), span(g, inode, slot))
}

/// What a pointer in the bytes of a fragment claims.
#[tactic(auto, unfolding(ufs_model::specs::Claims::pointer_fragments))]
pub fn pointer_run(g: &Geometry, bytes: &[u8], at: u32) -> Option<Run>
    requires geometry { IsGeometry g.now }
    requires bytes { length bytes.now ≡ g.now.fsize }
    requires index { at < g.now.fsize / 4 }
    ensures value { run_fragments result ≡ pointer_fragments g.now bytes.now at }
    ensures run { IfSome result (IsRun g.now.size) }
{
    run_of(g, pointer(bytes, at, g.endian), g.frag)
}
