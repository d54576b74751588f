// What is asked for, and how it ends.
use dg_words::Order;
use ufs_model::BadSuper;

/// What is asked for beside the image.
#[derive(Clone, Copy, Debug, PartialEq, Eq)]
pub struct Asked {
    /// The order in which blocks are written.
    pub order: Order,
    /// Boundaries of the array.
    pub b: u32,
    /// Counted slots per member.
    pub k: u32,
    /// Places of a system or naming block.
    pub m: u32,
}

/// Why no trace is made of an image.
#[derive(Clone, Copy, Debug, PartialEq, Eq)]
pub enum TraceRefusal {
    /// It has more than 2^28 bytes, or fewer than 9568, or fewer than its volume.
    Length,
    /// Its superblock fails this test, the first one.
    Super(BadSuper),
    /// An array for the volume breaks a limit.
    Limits,
}

/// How a trace ended.
#[derive(Clone, Copy, Debug, PartialEq, Eq)]
pub enum TraceEnd {
    /// It was written, whole.
    Written,
    /// There is none, and that was printed.
    Refused(TraceRefusal),
}

/// Why a trace broke off.
#[derive(Clone, Copy, Debug, PartialEq, Eq)]
pub enum TraceFault {
    /// The source failed.
    Read,
    /// The sink failed.
    Write,
    NoMemory,
}
