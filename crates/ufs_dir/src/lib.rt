//! The entries of a directory of a UFS1 volume, read from its chunks: 512 bytes each (`DIRBLKSIZ`
//! of 4.4BSD's `ufs/ufs/dir.h`), filled exactly by entries (`struct direct`), so that no entry
//! crosses from one chunk into the next. Each call is handed the order of the bytes of numbers.
//!
//! A chunk with a faulty entry is refused whole, so what a walk gave before counts only once its
//! end is met. Nothing here takes memory: a name is a part of its chunk.
#![tactic(auto)]

mod heads;
mod searches;
mod walks;

pub use searches::{check, find};
pub use ufs_model::{BadEntry, Found};
pub use walks::{CHUNK_BYTES, Entries, Entry, EntryStep};
