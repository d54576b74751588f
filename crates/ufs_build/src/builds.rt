// Volumes of items.
ghost use Rattle.std.specs.Prelude.{◌≡◌, ◌+◌, ◌*◌, ◌<◌, ◌≤◌, ◌^◌, nat_le, Err, IfOk, length};
ghost use Rattle.std.specs.List.{All};
ghost use Rattle.ufs_build.specs.Builds.{Answers, TakesMemory, built, volume_nodes, with_parents, with_placed};
ghost use Rattle.ufs_build.specs.Items.{HasShortName, HasSlash, parents_of};
ghost use Rattle.ufs_build.specs.Placements.{placed_files};
ghost use Rattle.ufs_build.specs.Placings.{files_of};
ghost use Rattle.ufs_build.specs.declared.refusals.BuildRefused.{BuildRefused};
ghost use Rattle.ufs_model.specs.Geometries.{IsGeometry};

use crate::directories::directories_of;
use crate::files::Node;
use crate::images::volume_bytes;
use crate::items::{Item, Items};
use crate::nodes::nodes_of;
use crate::parents::parents_of;
use crate::placings::place_files;
use crate::refusals::{BuildRefused, What};
use crate::spaces::Space;
use crate::volumes::{Spec, volume_of_spec};
use std::alloc::Global;
use ufs_model::Geometry;

/// Whether there are inodes for all items, behind the two that aren't read and the root's.
fn has_inodes(g: &Geometry, items: &[Item]) -> bool
    requires { length items.now < 2 ^ 62 }
    ensures { result ≡ nat_le (length items.now + 3) (g.now.ncg * g.now.ipg) }
{
    items.len() as u64 + 3 <= u64::from(g.ncg) * u64::from(g.ipg)
}

/// The volume of files.
#[tactic(auto, unfolding(crate::specs::Placements::placed_files))]
fn volume_of_files(alloc: Global, g: &Geometry, nodes: &[Node<'_>]) -> Result<Vec<u8>, BuildRefused>
    requires geometry { IsGeometry g.now }
    requires few { length nodes.now + 2 ≤ g.now.ncg * g.now.ipg }
    ensures { Answers result (with_placed g.now (files_of nodes.now) (placed_files g.now (files_of nodes.now))) }
{
    let Ok(mut space) = Space::new(alloc, g) else {
        return Err(BuildRefused::NoMemory);
    };
    match place_files(alloc, &mut space, g, nodes) {
        Err(_) => Err(BuildRefused::NoMemory),
        Ok(None) => Err(BuildRefused::TooMany(What::Fragments)),
        Ok(Some(files)) => match volume_bytes(alloc, g, nodes, &space.used, &files) {
            Ok(image) => Ok(image),
            Err(_) => Err(BuildRefused::NoMemory),
        },
    }
}

/// The volume of items that can stand where their paths say.
fn volume_of_items(
    alloc: Global,
    g: &Geometry,
    items: &[Item],
    parents: &[u32],
) -> Result<Vec<u8>, BuildRefused>
    requires geometry { IsGeometry g.now }
    requires few { length items.now + 3 ≤ g.now.ncg * g.now.ipg }
    requires names { All HasShortName items.now }
    requires slashes { All HasSlash items.now }
    requires parents { length parents.now ≡ length items.now }
    ensures { Answers result (with_placed g.now (volume_nodes g.now items.now parents.now) (placed_files g.now (volume_nodes g.now items.now parents.now))) }
{
    let Ok(directories) = directories_of(alloc, items, parents, g.endian) else {
        return Err(BuildRefused::NoMemory);
    };
    let Ok(nodes) = nodes_of(alloc, items, &directories) else {
        return Err(BuildRefused::NoMemory);
    };
    volume_of_files(alloc, g, &nodes)
}

/// The volume of items with a geometry.
fn volume_of(alloc: Global, g: &Geometry, items: &[Item]) -> Result<Vec<u8>, BuildRefused>
    requires geometry { IsGeometry g.now }
    requires few { length items.now + 3 ≤ g.now.ncg * g.now.ipg }
    ensures answer { Answers result (with_parents g.now items.now (parents_of items.now)) }
    ensures memory { result ≡ Err BuildRefused.NoMemory → TakesMemory (with_parents g.now items.now (parents_of items.now)) }
{
    match parents_of(alloc, items) {
        Ok(parents) => volume_of_items(alloc, g, items, &parents),
        Err(refused) => Err(refused),
    }
}

/// The bytes of a volume with these items.
///
/// Item k, counted from 0, has inode k + 3. Refusals are told in the order of [`BuildRefused`], and
/// all but that of fragments also where memory is wanting.
#[tactic(auto, unfolding(crate::specs::Builds::built))]
pub fn build(alloc: Global, spec: &Spec, files: &Items) -> Result<Vec<u8>, BuildRefused>
    ensures answer { Answers result (built spec.now files.now) }
    ensures memory { result ≡ Err BuildRefused.NoMemory → TakesMemory (built spec.now files.now) }
{
    let Some(g) = volume_of_spec(spec) else {
        return Err(BuildRefused::TooMany(What::Spec));
    };
    let items = files.as_slice();
    if items.len() >= 1 << 62 || !has_inodes(&g, items) {
        return Err(BuildRefused::TooMany(What::Inodes));
    }
    volume_of(alloc, &g, items)
}
