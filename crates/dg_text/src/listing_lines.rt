// The entries of a listing as lines.
use crate::counts::write_number;
use crate::listings::{Form, write_entry_line};
use dg_io::Sink;
use dg_model::Failed;
use ufs_model::Kind;
use ufs_path::Listing;

/// Takes the entries of a listing one by one, and writes each as a line by its form: an `entry` line, which doesn't tell the
/// depth, or a `node` line. It takes no memory. Once it has failed, it's of no more use.
#[derive(Drop)]
pub struct Lines<'a, K> {
    sink: &'a mut K,
    form: Form,
}

impl<'a, K: Sink> Lines<'a, K> {
    ghost use Rattle.std.specs.Prelude.{◌≡◌, length, codes, OnOk, OnErr};
    ghost use Rattle.dg_io.specs.Told.{Told, Took, TookPart};
    ghost use Rattle.dg_io.specs.Faults.{HasCause};
    ghost use Rattle.dg_io.specs.SinkCalls.{LeavesSink};
    ghost use Rattle.dg_io.specs.SinkLines.{LeavesLines};
    ghost use Rattle.dg_text.specs.ListingLines.{form_of, loan_of, sink_of};
    ghost use Rattle.dg_text.specs.HexLines.{last_line};

    /// A receiver that writes to this sink, in lines of this form.
    pub fn new(sink: &'a mut K, form: Form) -> Lines<'a, K>
        ensures form { form_of result ≡ form }
        ensures same { loan_of result ≡ sink.entry.ghost_name }
        ensures sink { sink_of result ≡ sink.old }
    {
        Lines { sink, form }
    }

    /// Writes the line that ends a listing of `n` entries.
    pub fn end(&mut self, n: u32) -> Result<(), Failed>
        ensures ok { OnOk result (Told (Took (last_line (codes "end ") n)) (K.taken (sink_of self.old)) (K.taken (sink_of self.new))) }
        ensures err { OnErr result (Told (TookPart (last_line (codes "end ") n)) (K.taken (sink_of self.old)) (K.taken (sink_of self.new))) }
        ensures sink { loan_of self.new ≡ loan_of self.old }
        ensures cause { HasCause (K.faults (sink_of self.old)) (K.faults (sink_of self.new)) result }
        ensures calls { LeavesSink K.whole K.calls 1 (length (last_line (codes "end ") n)) (sink_of self.old) (sink_of self.new) }
        ensures lines { OnOk result (LeavesLines 255 K.whole K.calls K.taken (sink_of self.old) (sink_of self.new)) }
    {
        write_number(&mut *self.sink, b"end ", n as u128)
    }

    /// Writes the line that ends a listing of which only the first `n` entries could be read.
    pub fn cut(&mut self, n: u32) -> Result<(), Failed>
        ensures ok { OnOk result (Told (Took (last_line (codes "cut ") n)) (K.taken (sink_of self.old)) (K.taken (sink_of self.new))) }
        ensures err { OnErr result (Told (TookPart (last_line (codes "cut ") n)) (K.taken (sink_of self.old)) (K.taken (sink_of self.new))) }
        ensures sink { loan_of self.new ≡ loan_of self.old }
        ensures cause { HasCause (K.faults (sink_of self.old)) (K.faults (sink_of self.new)) result }
        ensures calls { LeavesSink K.whole K.calls 1 (length (last_line (codes "cut ") n)) (sink_of self.old) (sink_of self.new) }
        ensures lines { OnOk result (LeavesLines 255 K.whole K.calls K.taken (sink_of self.old) (sink_of self.new)) }
    {
        write_number(&mut *self.sink, b"cut ", n as u128)
    }
}

impl<K: Sink> Listing for Lines<'_, K> {
    ghost use Rattle.dg_text.specs.ListingLines.{TookEntries, TookEntriesPart};
    ghost use Rattle.dg_text.specs.ListingLineLaws.{took_no_entry, took_entries, took_entries_part, took_part_of_entries};

    ghost took = { TookEntries K.Sink };

    ghost took_part = { TookEntriesPart K.Sink };

    ghost faults = { λ s. K.faults s.sink.now };

    fn line(
        &mut self,
        depth: u32,
        inode: u32,
        kind: Kind,
        size: u64,
        name: &[u8],
    ) -> Result<(), Failed> {
        write_entry_line(&mut *self.sink, self.form, depth, inode, kind, size, name)
    }

    ghost nothing = { λ s. took_no_entry K.Sink s };

    ghost then = { λ a b c x y first second. took_entries K.Sink a b c x y first second };

    ghost then_part = { λ a b c x y first second. took_entries_part K.Sink a b c x y first second };

    ghost part = { λ a b x y first. took_part_of_entries K.Sink a b x y first };
}
