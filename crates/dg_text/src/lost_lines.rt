// The files that lost blocks, as lines.
use crate::counts::write_number;
use crate::lost_files::write_lost_line;
use dg_io::Sink;
use dg_model::Failed;
use ufs_path::PathList;

/// Takes the files that lost blocks one by one, and writes each as a line. It takes no memory. Once it has failed, it's of no
/// more use.
#[derive(Drop)]
pub struct LostLines<'a, K> {
    sink: &'a mut K,
}

impl<'a, K: Sink> LostLines<'a, K> {
    ghost use Rattle.std.specs.Prelude.{◌≡◌, length, codes, OnOk, OnErr};
    ghost use Rattle.dg_io.specs.Told.{Told, Took, TookPart};
    ghost use Rattle.dg_io.specs.Faults.{HasCause};
    ghost use Rattle.dg_io.specs.SinkCalls.{LeavesSink};
    ghost use Rattle.dg_io.specs.SinkLines.{LeavesLines};
    ghost use Rattle.dg_text.specs.LostLines.{lost_loan_of, lost_sink_of};
    ghost use Rattle.dg_text.specs.HexLines.{last_line};

    /// A receiver that writes to this sink.
    pub fn new(sink: &'a mut K) -> LostLines<'a, K>
        ensures same { lost_loan_of result ≡ sink.entry.ghost_name }
        ensures sink { lost_sink_of result ≡ sink.old }
    {
        LostLines { sink }
    }

    /// Writes the line that ends a list of `n` files.
    pub fn end(&mut self, n: u32) -> Result<(), Failed>
        ensures ok { OnOk result (Told (Took (last_line (codes "end ") n)) (K.taken (lost_sink_of self.old)) (K.taken (lost_sink_of self.new))) }
        ensures err { OnErr result (Told (TookPart (last_line (codes "end ") n)) (K.taken (lost_sink_of self.old)) (K.taken (lost_sink_of self.new))) }
        ensures sink { lost_loan_of self.new ≡ lost_loan_of self.old }
        ensures cause { HasCause (K.faults (lost_sink_of self.old)) (K.faults (lost_sink_of self.new)) result }
        ensures calls { LeavesSink K.whole K.calls 1 (length (last_line (codes "end ") n)) (lost_sink_of self.old) (lost_sink_of self.new) }
        ensures lines { OnOk result (LeavesLines 255 K.whole K.calls K.taken (lost_sink_of self.old) (lost_sink_of self.new)) }
    {
        write_number(&mut *self.sink, b"end ", n as u128)
    }

    /// Writes the line that ends a list of which only the first `n` files could be read.
    pub fn cut(&mut self, n: u32) -> Result<(), Failed>
        ensures ok { OnOk result (Told (Took (last_line (codes "cut ") n)) (K.taken (lost_sink_of self.old)) (K.taken (lost_sink_of self.new))) }
        ensures err { OnErr result (Told (TookPart (last_line (codes "cut ") n)) (K.taken (lost_sink_of self.old)) (K.taken (lost_sink_of self.new))) }
        ensures sink { lost_loan_of self.new ≡ lost_loan_of self.old }
        ensures cause { HasCause (K.faults (lost_sink_of self.old)) (K.faults (lost_sink_of self.new)) result }
        ensures calls { LeavesSink K.whole K.calls 1 (length (last_line (codes "cut ") n)) (lost_sink_of self.old) (lost_sink_of self.new) }
        ensures lines { OnOk result (LeavesLines 255 K.whole K.calls K.taken (lost_sink_of self.old) (lost_sink_of self.new)) }
    {
        write_number(&mut *self.sink, b"cut ", n as u128)
    }
}

impl<K: Sink> PathList for LostLines<'_, K> {
    ghost use Rattle.dg_text.specs.LostLines.{TookLost, TookLostPart};
    ghost use Rattle.dg_text.specs.LostLineLaws.{took_no_file, took_files, took_files_part, took_part_of_files};

    ghost took = { TookLost K.Sink };

    ghost took_part = { TookLostPart K.Sink };

    ghost faults = { λ s. K.faults s.sink.now };

    fn line(&mut self, inode: u32, path: &[u8]) -> Result<(), Failed> {
        write_lost_line(&mut *self.sink, inode, path)
    }

    ghost nothing = { λ s. took_no_file K.Sink s };

    ghost then = { λ a b c x y first second. took_files K.Sink a b c x y first second };

    ghost then_part = { λ a b c x y first second. took_files_part K.Sink a b c x y first second };

    ghost part = { λ a b x y first. took_part_of_files K.Sink a b x y first };
}
