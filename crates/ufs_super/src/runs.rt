ghost use Rattle.std.specs.Prelude.{◌≡◌, ◌+◌, ◌/◌};
ghost use Rattle.ufs_model.specs.Geometries.{IsGeometry};
ghost use Rattle.ufs_model.specs.Numbers.{all_below};
ghost use Rattle.ufs_model.specs.Pointers.{address, is_data_run};
ghost use Rattle.ufs_model.specs.Roles.{is_data_of, role};

use crate::roles::role;
use ufs_model::{Address, Geometry, Role};

/// The role is data of group `c`.
fn is_data_of(c: u32, role: Role) -> bool
    ensures { result ≡ is_data_of c role }
{
    match role {
        Role::Data(d) => c == d,
        Role::System(_) | Role::Outside => false,
    }
}

/// The fragment `i` after fragment `a` is data of group `c`.
#[tactic(auto, unfolding(ufs_model::specs::Roles::role))]
fn is_data_at(g: &Geometry, c: u32, a: u32, i: u32) -> bool
    requires { IsGeometry g.now }
    ensures { result ≡ is_data_of c (role g.now (a + i)) }
{
    if g.size <= a || g.size - a <= i {
        return false;
    }
    is_data_of(c, role(g, a + i))
}

/// The fragments from `a` on, `k` of them, are all data of one group.
#[tactic(auto, unfolding(ufs_model::specs::Pointers::is_data_run))]
pub fn is_data_run(g: &Geometry, a: u32, k: u32) -> bool
    requires { IsGeometry g.now }
    ensures { result ≡ is_data_run g.now a k }
{
    let c = a / g.fpg;
    for i in 0..k {
        if !is_data_at(g, c, a, i) {
            return false;
        }
    }
    true
}

/// What a pointer to `k` fragments leads to. It is wild where the fragments aren't all data of one
/// group.
#[tactic(auto, unfolding(ufs_model::specs::Pointers::address))]
pub fn address(g: &Geometry, pointer: u32, k: u32) -> Address
    requires { IsGeometry g.now }
    ensures { result ≡ address g.now pointer k }
{
    if pointer == 0 {
        Address::Hole
    } else if is_data_run(g, pointer, k) {
        Address::At(pointer, k)
    } else {
        Address::Wild
    }
}
