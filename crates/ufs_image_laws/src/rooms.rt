// Room for files that are to be built.
ghost use Rattle.std.specs.Prelude.{◌+◌, ◌*◌, ◌<◌, ◌≤◌, ℕ, List, All, IsSome, length};
ghost use Rattle.ufs_build.specs.Directories.{directory_bytes};
ghost use Rattle.ufs_build.specs.Nodes.{Node};
ghost use Rattle.ufs_build.specs.Placements.{blocks_of, placed_files};
ghost use Rattle.ufs_build.specs.declared.items.Item.{Item};
ghost use Rattle.ufs_image_laws.specs.Rooms.{HasEight, HaveShort, all_halves, hits, whole_below};
ghost use Rattle.ufs_model.specs.declared.geometries.Geometry.{Geometry};
ghost use Rattle.ufs_model.specs.declared.numbers.Endian.{Endian};

/// Files whose blocks take fewer halves than the volume's whole file blocks have get their fragments: of the file blocks that are in use no more
/// than one is less than half full. None of the files reaches a second level of indirect blocks.
pub fn files_with_room_are_placed()
    ensures { (g : Geometry) (nodes : List Node) (blocks : ℕ) → HasEight g → All (λ node. blocks_of g node ≤ 12 + g.nindir) nodes → 8 * blocks ≤ g.size
        → all_halves g nodes + 1 < 2 * whole_below g blocks → IsSome (placed_files g nodes) }
{}

/// A directory has no more chunks of 512 bytes than entries: its own two, and one for each item whose directory it is.
pub fn directories_have_a_chunk_an_entry()
    ensures { (endian : Endian) (items : List Item) (parents : List ℕ) (directory up : ℕ) → HaveShort items
        → length (directory_bytes endian items parents directory up) ≤ 512 * (hits directory parents + 2) }
{}
