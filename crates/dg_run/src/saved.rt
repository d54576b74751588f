// The commands that only read the array that was saved.
ghost use Rattle.std.specs.Prelude.{◌≡◌, ◌↔◌, true, IfOk, OnErr};
ghost use Rattle.dg_io.specs.SinkLines.{LeavesLines};
ghost use Rattle.dg_model.specs.Causes.{Rose};
ghost use Rattle.dg_run.specs.Calls.{rack_met};
ghost use Rattle.dg_run.specs.Ends.{EndsSaved, FindsCat, FindsLs, FindsStatus, status_by};
ghost use Rattle.dg_run.specs.Founds.{Prints};
ghost use Rattle.ufs_model.specs.Paths.{is_path};

use crate::bases::{SavedRack, open_rack, outer};
use crate::top::Status;
use dg_io::{NoMemory, Rack, Sink};
use dg_saved::{Ended, SavedEnd, cat_saved, ls_saved, show_status};
use std::alloc::Global;

/// The status of such a command, by its end.
fn status_by(end: SavedEnd) -> Status
    ensures is { result ≡ status_by end }
    ensures write { (result ≡ Status.WriteFault) ↔ (end ≡ SavedEnd.WriteFault) }
    ensures memory { result ≡ Status.NoMemory → ⊥ }
    ensures read { result ≡ Status.ReadFault → ⊥ }
    ensures usage { result ≡ Status.Usage → ⊥ }
{
    match end {
        SavedEnd::Done => Status::Done,
        SavedEnd::Refused => Status::Refused,
        SavedEnd::NoState => Status::NoState,
        SavedEnd::Unclean => Status::Unclean,
        SavedEnd::WriteFault => Status::WriteFault,
    }
}

/// Prints the bytes of the file at a path, of the array that was saved on a rack, which is handed in, and given back but for want of memory.
fn file_on<K: Sink, R: Rack + Drop>(
    alloc: Global,
    path: &[u8],
    sink: &mut K,
    rack: R,
) -> Result<Ended<R>, NoMemory>
    requires path { is_path path.now ≡ true }
    ensures ends { IfOk result (λ ended. FindsCat (R.tells ended.rack) (rack_met K.Sink R.Rack sink.old sink.new rack ended.rack) path.now ended.end) }
    ensures name { IfOk result (λ ended. R.name ended.rack ≡ R.name rack) }
    ensures none { OnErr result (sink.new ≡ sink.old) }
    ensures prints { IfOk result (λ ended. Prints 1 K.Sink sink.old sink.new ended.end) }
{
    let SavedRack { live, extra } = open_rack(alloc, rack)?;
    let ended = cat_saved(alloc, path, sink, live, &extra)?;
    Ok(Ended {
        rack: outer(ended.rack),
        end: ended.end,
    })
}

/// Prints the entries of the directory at a path, of the array that was saved on a rack, which is handed in, and given back but for want of memory.
fn directory_on<K: Sink, R: Rack + Drop>(
    alloc: Global,
    path: &[u8],
    sink: &mut K,
    rack: R,
) -> Result<Ended<R>, NoMemory>
    requires path { is_path path.now ≡ true }
    ensures ends { IfOk result (λ ended. FindsLs (R.tells ended.rack) (rack_met K.Sink R.Rack sink.old sink.new rack ended.rack) path.now ended.end) }
    ensures name { IfOk result (λ ended. R.name ended.rack ≡ R.name rack) }
    ensures none { OnErr result (sink.new ≡ sink.old) }
    ensures prints { IfOk result (λ ended. Prints 255 K.Sink sink.old sink.new ended.end) }
{
    let SavedRack { live, extra } = open_rack(alloc, rack)?;
    let ended = ls_saved(alloc, path, sink, live, &extra)?;
    Ok(Ended {
        rack: outer(ended.rack),
        end: ended.end,
    })
}

/// Prints what it is like, of the array that was saved on a rack, which is handed in, and given back but for want of memory.
fn status_on<K: Sink, R: Rack + Drop>(
    alloc: Global,
    sink: &mut K,
    rack: R,
) -> Result<Ended<R>, NoMemory>
    ensures ends { IfOk result (λ ended. FindsStatus (R.tells ended.rack) (rack_met K.Sink R.Rack sink.old sink.new rack ended.rack) ended.end) }
    ensures name { IfOk result (λ ended. R.name ended.rack ≡ R.name rack) }
    ensures none { OnErr result (sink.new ≡ sink.old) }
    ensures prints { IfOk result (λ ended. Prints 255 K.Sink sink.old sink.new ended.end) }
{
    let SavedRack { live, extra } = open_rack(alloc, rack)?;
    let ended = show_status(alloc, sink, live, &extra)?;
    Ok(Ended {
        rack: outer(ended.rack),
        end: ended.end,
    })
}

/// Prints the bytes of the file at a path.
pub fn serve_file<K: Sink, R: Rack>(
    alloc: Global,
    path: &[u8],
    sink: &mut K,
    rack: &mut R,
) -> Status
    requires path { is_path path.now ≡ true }
    ensures ends { EndsSaved (FindsCat (R.tells rack.new) (rack_met K.Sink R.Rack sink.old sink.new rack.old rack.new) path.now)
        (K.taken sink.old) (K.taken sink.new) result }
    ensures write { result ≡ Status.WriteFault → Rose (K.faults sink.old) (K.faults sink.new) }
    ensures kept { (result ≡ Status.WriteFault → ⊥) → K.faults sink.new ≡ K.faults sink.old }
    ensures lines { (result ≡ Status.WriteFault → ⊥) → LeavesLines 1 K.whole K.calls K.taken sink.old sink.new }
    ensures read { result ≡ Status.ReadFault → ⊥ }
    ensures usage { result ≡ Status.Usage → ⊥ }
{
    match file_on(alloc, path, sink, &mut *rack) {
        Ok(ended) => status_by(ended.end),
        Err(_) => Status::NoMemory,
    }
}

/// Prints the entries of the directory at a path.
pub fn serve_directory<K: Sink, R: Rack>(
    alloc: Global,
    path: &[u8],
    sink: &mut K,
    rack: &mut R,
) -> Status
    requires path { is_path path.now ≡ true }
    ensures ends { EndsSaved (FindsLs (R.tells rack.new) (rack_met K.Sink R.Rack sink.old sink.new rack.old rack.new) path.now)
        (K.taken sink.old) (K.taken sink.new) result }
    ensures write { result ≡ Status.WriteFault → Rose (K.faults sink.old) (K.faults sink.new) }
    ensures kept { (result ≡ Status.WriteFault → ⊥) → K.faults sink.new ≡ K.faults sink.old }
    ensures lines { (result ≡ Status.WriteFault → ⊥) → LeavesLines 255 K.whole K.calls K.taken sink.old sink.new }
    ensures read { result ≡ Status.ReadFault → ⊥ }
    ensures usage { result ≡ Status.Usage → ⊥ }
{
    match directory_on(alloc, path, sink, &mut *rack) {
        Ok(ended) => status_by(ended.end),
        Err(_) => Status::NoMemory,
    }
}

/// Prints what the array is like.
pub fn serve_status<K: Sink, R: Rack>(alloc: Global, sink: &mut K, rack: &mut R) -> Status
    ensures ends { EndsSaved (FindsStatus (R.tells rack.new) (rack_met K.Sink R.Rack sink.old sink.new rack.old rack.new))
        (K.taken sink.old) (K.taken sink.new) result }
    ensures write { result ≡ Status.WriteFault → Rose (K.faults sink.old) (K.faults sink.new) }
    ensures kept { (result ≡ Status.WriteFault → ⊥) → K.faults sink.new ≡ K.faults sink.old }
    ensures lines { (result ≡ Status.WriteFault → ⊥) → LeavesLines 255 K.whole K.calls K.taken sink.old sink.new }
    ensures read { result ≡ Status.ReadFault → ⊥ }
    ensures usage { result ≡ Status.Usage → ⊥ }
{
    match status_on(alloc, sink, &mut *rack) {
        Ok(ended) => status_by(ended.end),
        Err(_) => Status::NoMemory,
    }
}
