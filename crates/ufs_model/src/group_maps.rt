/// Where the maps of a group stand in its group block (`struct cg` in `fs.h`).
#[derive(Clone, Copy, Debug, PartialEq, Eq)]
pub struct Group {
    /// The number of the group.
    pub c: u32,
    /// The byte at which the map of used inodes begins.
    pub iusedoff: u32,
    /// The byte at which the map of free fragments begins.
    pub freeoff: u32,
    /// Fragments of the group.
    pub count: u32,
}

/// Why a group block is refused.
#[derive(Clone, Copy, Debug, PartialEq, Eq)]
pub enum BadGroup {
    /// It has another magic number, or the number of another group.
    Magic,
    /// It counts other fragments than the group has, or a map goes past the bytes in use.
    Map,
}
