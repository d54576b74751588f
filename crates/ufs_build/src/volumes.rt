// The geometry of a volume that is to be built.
ghost use Rattle.std.specs.Prelude.{◌≡◌, ◌+◌, ◌*◌, ◌<◌, ◌≤◌, ◌^◌, IfSome, true, length};
ghost use Rattle.std.specs.Bool.{OnTrue};
ghost use Rattle.std.specs.Result.{result_ok};
ghost use Rattle.ufs_build.specs.Parts.{field_parts, put_parts};
ghost use Rattle.ufs_build.specs.Volumes.{dblkno_of, freeoff_of, geometry_of_spec, has_numbers, maps_fit, read_geometry, superblock_bytes, superblock_fields, volume_of_spec};
ghost use Rattle.ufs_model.specs.Geometries.{IsGeometry};

use crate::parts::{Field, put_fields};
use ufs_model::{Endian, Geometry};
use ufs_super::read_super;

/// Bytes of a superblock (`struct fs`).
const SUPERBLOCK_BYTES: usize = 1376;

/// The byte of a group block at which the map of used inodes begins.
pub const IUSEDOFF: u32 = 256;

/// The size of a volume that is to be built, and where its groups' own blocks begin.
#[derive(Clone, Copy, Debug, PartialEq, Eq)]
pub struct Spec {
    /// Bytes of a fragment.
    pub l: u32,
    /// Fragments of a file block.
    pub frag: u32,
    /// Cylinder groups.
    pub ncg: u32,
    /// Fragments of a group.
    pub fpg: u32,
    /// Inodes of a group.
    pub ipg: u32,
    /// Fragments by which the starts of neighbouring groups are shifted.
    pub cgoffset: u32,
    /// The bits of a group's number that don't count for the shift.
    pub cgmask: u32,
    /// The order of the bytes of every number.
    pub endian: Endian,
}

/// Where a group's first data after the inodes begins, for a file block of so many bytes.
fn wide_dblkno(spec: &Spec, bsize: u64) -> u64
    requires block { bsize ≡ spec.now.frag * spec.now.l }
    requires size { 4096 ≤ bsize }
    ensures { result ≡ dblkno_of spec.now }
{
    let frag = u64::from(spec.frag);
    let own_blocks = 16384u64.div_ceil(bsize) * frag + 8192u64.div_ceil(bsize) * frag + frag;
    own_blocks + u64::from(spec.ipg) / (bsize / 128) * frag
}

/// The numbers of the volume have 32 bits, and its file blocks a size that there is.
#[tactic(auto, unfolding(crate::specs::Volumes::has_numbers))]
fn has_numbers(spec: &Spec) -> bool
    ensures { result ≡ has_numbers spec.now }
{
    let bsize = u64::from(spec.frag) * u64::from(spec.l);
    let limit = 1u64 << 32;
    4096 <= bsize
        && bsize <= 65536
        && wide_dblkno(spec, bsize) < limit
        && u64::from(spec.ncg) * u64::from(spec.fpg) < limit
        && 16 * u64::from(spec.ncg) < limit
}

/// The geometry of the volume.
#[tactic(auto, unfolding(crate::specs::Volumes::has_numbers, crate::specs::Volumes::geometry_of_spec))]
fn geometry_of_spec(spec: &Spec) -> Geometry
    requires { has_numbers spec.now ≡ true }
    ensures { result ≡ geometry_of_spec spec.now }
{
    let bsize = spec.frag * spec.l;
    let inopb = bsize / 128;
    let sblkno = 16384u32.div_ceil(bsize) * spec.frag;
    let cblkno = sblkno + 8192u32.div_ceil(bsize) * spec.frag;
    let iblkno = cblkno + spec.frag;
    let dblkno = iblkno + spec.ipg / inopb * spec.frag;
    Geometry {
        sblkno,
        cblkno,
        iblkno,
        dblkno,
        cgoffset: spec.cgoffset,
        cgmask: spec.cgmask,
        size: spec.ncg * spec.fpg,
        ncg: spec.ncg,
        bsize,
        fsize: spec.l,
        frag: spec.frag,
        nindir: bsize / 4,
        inopb,
        csaddr: dblkno,
        cssize: 16 * spec.ncg,
        cgsize: bsize,
        ipg: spec.ipg,
        fpg: spec.fpg,
        maxsymlinklen: 60,
        endian: spec.endian,
    }
}

/// The fields of a superblock.
#[tactic(auto, unfolding(crate::specs::Volumes::superblock_fields))]
pub fn superblock_fields(g: &Geometry) -> [Field; 21]
    ensures { result ≡ superblock_fields g.now }
{
    [
        Field {
            at: 8,
            value: g.sblkno,
        },
        Field {
            at: 12,
            value: g.cblkno,
        },
        Field {
            at: 16,
            value: g.iblkno,
        },
        Field {
            at: 20,
            value: g.dblkno,
        },
        Field {
            at: 24,
            value: g.cgoffset,
        },
        Field {
            at: 28,
            value: g.cgmask,
        },
        Field {
            at: 36,
            value: g.size,
        },
        Field {
            at: 44,
            value: g.ncg,
        },
        Field {
            at: 48,
            value: g.bsize,
        },
        Field {
            at: 52,
            value: g.fsize,
        },
        Field {
            at: 56,
            value: g.frag,
        },
        Field {
            at: 116,
            value: g.nindir,
        },
        Field {
            at: 120,
            value: g.inopb,
        },
        Field {
            at: 152,
            value: g.csaddr,
        },
        Field {
            at: 156,
            value: g.cssize,
        },
        Field {
            at: 160,
            value: g.cgsize,
        },
        Field {
            at: 184,
            value: g.ipg,
        },
        Field {
            at: 188,
            value: g.fpg,
        },
        Field {
            at: 1320,
            value: g.maxsymlinklen,
        },
        Field { at: 1324, value: 2 },
        Field {
            at: 1372,
            value: 0x0001_1954,
        },
    ]
}

/// Puts a superblock at a place.
#[tactic(auto, unfolding(crate::specs::Volumes::superblock_fields))]
pub fn put_superblock(image: &mut [u8], at: usize, g: &Geometry)
    requires { at < 2 ^ 63 }
    ensures { image.new ≡ put_parts (field_parts g.now.endian at (superblock_fields g.now)) image.old }
{
    let fields = superblock_fields(g);
    put_fields(image, at, &fields, g.endian);
}

/// The geometry as a reader of the superblock finds it. There is none where a test fails.
#[tactic(auto, unfolding(crate::specs::Volumes::superblock_bytes, crate::specs::Volumes::read_geometry))]
fn read_geometry(g: &Geometry) -> Option<Geometry>
    ensures value { result ≡ result_ok (read_geometry g.now) }
    ensures tests { IfSome result (λ found. IsGeometry found) }
{
    let mut bytes = [0; SUPERBLOCK_BYTES];
    put_superblock(&mut bytes, 0, g);
    read_super(&bytes, g.fsize, g.size).ok()
}

/// Where the map of free fragments begins in a group block.
pub fn freeoff_of(ipg: u32) -> u32
    ensures value { result ≡ freeoff_of ipg }
    ensures small { result < 2 ^ 31 }
{
    (IUSEDOFF + ipg.div_ceil(8)).div_ceil(4) * 4
}

/// The maps end inside the group block.
#[tactic(auto, unfolding(crate::specs::Volumes::maps_fit))]
fn maps_fit(spec: &Spec) -> bool
    ensures { result ≡ maps_fit spec.now }
{
    let freeoff = (256 + u64::from(spec.ipg).div_ceil(8)).div_ceil(4) * 4;
    freeoff + u64::from(spec.fpg).div_ceil(8) <= u64::from(spec.frag) * u64::from(spec.l)
}

/// The geometry of the volume, if there is such a volume.
#[tactic(auto, unfolding(crate::specs::Volumes::volume_of_spec))]
pub fn volume_of_spec(spec: &Spec) -> Option<Geometry>
    ensures value { result ≡ volume_of_spec spec.now }
    ensures tests { IfSome result (λ g. IsGeometry g) }
{
    if !has_numbers(spec) {
        return None;
    }
    let found = read_geometry(&geometry_of_spec(spec))?;
    if maps_fit(spec) { Some(found) } else { None }
}
