// Commands.
use dg_model::Bytes;

/// In which order the blocks of an image are written by the trace that is made of it.
#[derive(Clone, Copy, Debug, PartialEq, Eq)]
pub enum Order {
    /// By their numbers.
    Up,
    /// Against their numbers.
    Down,
    /// The blocks of files first, and then those of the file system itself, each by their numbers.
    Late,
}

/// What the program is asked for.
#[derive(Debug, Drop)]
pub enum Command {
    /// A trace on blank members.
    Replay,
    /// A trace on the array that was saved.
    Resume,
    /// The bytes of the file at a path of the volume that was saved, given by the path's bytes.
    Cat(Bytes),
    /// The entries of the directory at a path of it, given by the path's bytes.
    Ls(Bytes),
    /// What the saved array is like.
    Status,
    /// A trace that writes an image, in this order, to an array of `b` boundaries with `k` slots each and `m` places of
    /// a naming block.
    Trace {
        order: Order,
        b: u32,
        k: u32,
        m: u32,
    },
    /// A volume with so many files, of sizes that the seed gives, of which a boundary is lost.
    Drill {
        seed: u64,
        files: u32,
    },
    /// All that is wrong with the volume of an image.
    Audit,
}

/// Why there is no command.
#[derive(Clone, Copy, Debug, PartialEq, Eq)]
pub enum WordsRefused {
    /// The words are none of the commands.
    Usage,
    NoMemory,
}
