// Bytes as they are.
use dg_io::{Pieces, Sink, write_all};
use dg_model::Failed;

/// Takes bytes piece by piece, and writes each piece as it is. It takes no memory. Once it has failed, it's of no more use.
#[derive(Drop)]
pub struct Raw<'a, K> {
    sink: &'a mut K,
}

impl<'a, K: Sink> Raw<'a, K> {
    ghost use Rattle.std.specs.Prelude.{◌≡◌};
    ghost use Rattle.dg_text.specs.RawBytes.{loan_of, sink_of};

    /// A receiver that writes to this sink.
    pub fn new(sink: &'a mut K) -> Raw<'a, K>
        ensures same { loan_of result ≡ sink.entry.ghost_name }
        ensures sink { sink_of result ≡ sink.old }
    {
        Raw { sink }
    }
}

impl<K: Sink> Pieces for Raw<'_, K> {
    ghost use Rattle.dg_text.specs.RawBytes.{TookRaw, TookRawPart};
    ghost use Rattle.dg_text.specs.RawByteLaws.{took_raw_none, took_raw_then, took_raw_then_part, took_raw_part};

    ghost took = { TookRaw K.Sink };

    ghost took_part = { TookRawPart K.Sink };

    ghost faults = { λ s. K.faults s.sink.now };

    fn piece(&mut self, bytes: &[u8]) -> Result<(), Failed> {
        write_all(&mut *self.sink, bytes)
    }

    ghost nothing = { λ s. took_raw_none K.Sink s };

    ghost then = { λ a b c x y first second. took_raw_then K.Sink a b c x y first second };

    ghost then_part = { λ a b c x y first second. took_raw_then_part K.Sink a b c x y first second };

    ghost part = { λ a b x y first. took_raw_part K.Sink a b x y first };
}
