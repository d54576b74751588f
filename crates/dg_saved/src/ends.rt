// How a command on a saved array ends.
ghost use Rattle.std.specs.Prelude.{◌≡◌, ◌≢◌, ◌⊎◌, ℕ};
ghost use Rattle.dg_io.specs.SinkLines.{LeavesLines, MayWrite};
ghost use Rattle.dg_io.specs.Told.{Told, Took, TookPart};
ghost use Rattle.dg_model.specs.Causes.{Rose};

use dg_io::{Sink, write_all};

/// How a command on a saved array ended.
#[derive(Clone, Copy, Debug, PartialEq, Eq)]
pub enum SavedEnd {
    /// What was asked for was printed, whole.
    Done,
    /// The file or the directory wasn't given whole. A refusal was printed; of what was cut, what was read of it.
    Refused,
    /// There is no saved array, and that was printed.
    NoState,
    /// The array was written after its last save, and that was printed.
    Unclean,
    /// The sink failed.
    WriteFault,
}

/// A command that ended, and the rack, which is given back.
#[derive(Drop)]
pub struct Ended<R> {
    /// The rack.
    pub rack: R,
    /// How it ended.
    pub end: SavedEnd,
}

/// Prints the text of an end that isn't a fault of the sink.
pub fn tell<K: Sink>(sink: &mut K, text: &[u8], end: SavedEnd) -> SavedEnd
    requires { end ≢ SavedEnd.WriteFault }
    ensures is { (result ≡ end) ⊎ (result ≡ SavedEnd.WriteFault) }
    ensures told { result ≢ SavedEnd.WriteFault → Told (Took text.now) (K.taken sink.old) (K.taken sink.new) }
    ensures part { result ≡ SavedEnd.WriteFault → Told (TookPart text.now) (K.taken sink.old) (K.taken sink.new) }
    ensures write { result ≡ SavedEnd.WriteFault → Rose (K.faults sink.old) (K.faults sink.new) }
    ensures kept { result ≢ SavedEnd.WriteFault → K.faults sink.new ≡ K.faults sink.old }
    ensures lines { (w : ℕ) → MayWrite w 1 text.now → result ≢ SavedEnd.WriteFault → LeavesLines w K.whole K.calls K.taken sink.old sink.new }
{
    match write_all(sink, text) {
        Ok(()) => end,
        Err(_) => SavedEnd::WriteFault,
    }
}
