ghost use Rattle.std.specs.Prelude.{◌≡◌, ◌+◌, ◌*◌, ◌/◌, ◌^◌, ◌<◌, ◌≤◌};
ghost use Rattle.ufs_model.specs.Geometries.{IsGeometry, cgbase, cgstart, end_of};

use ufs_model::Geometry;

/// The first fragment of group `c` (`cgbase`).
#[tactic(auto, using(crate::proofs::PlaceLaws::base_inside), unfolding(ufs_model::specs::Geometries::cgbase))]
pub fn cgbase(g: &Geometry, c: u32) -> u32
    requires geometry { IsGeometry g.now }
    requires group { c < g.now.ncg }
    ensures value { result ≡ cgbase g.now c }
    ensures inside { result < g.now.size }
{
    prove!(u64::from(g.fpg) * u64::from(c) < u64::from(g.size));
    g.fpg * c
}

/// The fragment from which the places of group `c`'s own blocks are counted (`cgstart`).
#[tactic(auto, using(crate::proofs::PlaceLaws::own_blocks_inside), unfolding(ufs_model::specs::Geometries::cgstart))]
pub fn cgstart(g: &Geometry, c: u32) -> u32
    requires geometry { IsGeometry g.now }
    requires group { c < g.now.ncg }
    ensures value { result ≡ cgstart g.now c }
    ensures own_blocks { result + g.now.dblkno ≤ g.now.size }
    ensures fits { result + g.now.dblkno < 2 ^ 32 }
{
    let base = cgbase(g, c);
    let room = g.size - base;
    let shift = g.cgoffset * (c & !g.cgmask);
    prove!(shift <= room);
    base + shift
}

/// The first fragment after group `c`. The last group may be cut short by the volume's end.
#[tactic(auto, unfolding(ufs_model::specs::Geometries::end_of))]
pub fn end_of(g: &Geometry, c: u32) -> u32
    requires geometry { IsGeometry g.now }
    requires group { c < g.now.ncg }
    ensures value { result ≡ end_of g.now c }
    ensures after { cgbase g.now c < result }
    ensures inside { result ≤ g.now.size }
{
    let base = cgbase(g, c);
    base + g.fpg.min(g.size - base)
}

/// The group of a fragment of the volume.
pub fn group_of(g: &Geometry, fragment: u32) -> u32
    requires geometry { IsGeometry g.now }
    requires inside { fragment < g.now.size }
    ensures value { result ≡ fragment / g.now.fpg }
    ensures group { result < g.now.ncg }
{
    fragment / g.fpg
}
