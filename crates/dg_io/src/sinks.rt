// Sinks in memory. Their calls are counted from 0.
ghost use Rattle.std.specs.Prelude.{◌≡◌, ◌≤◌, ◌<◌, ◌+◌, ◌↔◌, ◌⊎◌, [], List, ℕ, length, take, Some, None, IfOk, OnErr, OnOk, IsErr, IsSome, IsTrue, MatchOption};
ghost use Rattle.std.specs.Vec.{vec_capacity};
ghost use Rattle.dg_model.specs.Causes.{RoseByOne};
ghost use Rattle.dg_io.specs.Faults.{HasCause};
ghost use Rattle.dg_io.specs.Told.{Told, Took, IsSame};

use crate::calls::is_listed;
use crate::{Failed, NoMemory, Pieces, Sink, write_all};
use std::alloc::Global;

/// Whether so many bytes more fit where some are taken.
fn has_room(room: usize, taken: usize, more: usize) -> bool
    requires { taken ≤ room }
    ensures { IsTrue result ↔ (taken + more ≤ room) }
{
    more <= room - taken
}

/// A sink in memory, with room for so many bytes.
#[derive(Drop)]
pub struct MemSink {
    bytes: Vec<u8>,
    room: usize,
    fails: Vec<u64>,
    calls: u64,
    faults: u64,
    ghost within: { length bytes.items ≤ room },
    ghost fits: { room ≤ vec_capacity bytes },
}

impl MemSink {
    ghost use Rattle.dg_io.specs.Sinks.{sink_calls, sink_fails, room_in, taken_in, sink_faults};

    /// An empty sink, whose listed calls fail. It takes its memory here.
    pub fn new(alloc: Global, room: usize, fails: Vec<u64>) -> Result<MemSink, NoMemory>
        ensures taken { IfOk result (λ sink. taken_in sink ≡ []) }
        ensures faults { IfOk result (λ sink. sink_faults sink ≡ 0) }
        ensures calls { IfOk result (λ sink. sink_calls sink ≡ 0) }
        ensures room { IfOk result (λ sink. room_in sink ≡ room) }
        ensures fails { IfOk result (λ sink. sink_fails sink ≡ fails.items) }
    {
        match Vec::with_capacity(alloc, room) {
            Ok(bytes) => Ok(MemSink {
                bytes,
                room,
                fails,
                calls: 0,
                faults: 0,
            }),
            Err(_) => Err(NoMemory),
        }
    }

    /// The bytes taken.
    pub fn taken(&self) -> &[u8]
        ensures { result.now ≡ taken_in self.now }
    {
        &self.bytes
    }
}

impl Sink for MemSink {
    ghost use Rattle.dg_io.specs.Sinks.{sink_calls, sink_fails, room_in, taken_in, sink_faults, IsListed, IsPast};

    ghost taken = { λ s. Some (taken_in s) };

    ghost faults = { sink_faults };

    ghost calls = { sink_calls };

    ghost whole = { λ _. Unit {0} };

    /// It fails exactly where the call is listed, or the piece is past the room, and takes the whole piece otherwise.
    fn write(&mut self, piece: &[u8]) -> Result<usize, Failed>
        ensures within { IfOk result (λ n. n ≤ length piece.now) }
        ensures some { IfOk result (λ n. 0 < length piece.now → 0 < n) }
        ensures bytes { IfOk result (λ n. Told (Took (take n piece.now)) (Some (taken_in self.old)) (Some (taken_in self.new))) }
        ensures err { OnErr result (Told IsSame (Some (taken_in self.old)) (Some (taken_in self.new))) }
        ensures cause { HasCause (sink_faults self.old) (sink_faults self.new) result }
        ensures fails { IsErr result ↔ (IsListed self.old ⊎ IsPast self.old (length piece.now)) }
        ensures counted { RoseByOne (sink_calls self.old) (sink_calls self.new) }
        ensures takes_whole { IfOk result (λ n. Unit {0} → n ≡ length piece.now) }
        ensures whole_on { Unit {0} ↔ Unit {0} }
        ensures lists { sink_fails self.new ≡ sink_fails self.old }
        ensures room { room_in self.new ≡ room_in self.old }
    {
        let call = self.calls;
        self.calls = call.saturating_add(1);
        let fits = has_room(self.room, self.bytes.len(), piece.len());
        if is_listed(&self.fails, call) || !fits || self.bytes.extend_from_slice(piece).is_err() {
            self.faults = self.faults.saturating_add(1);
            return Err(Failed);
        }
        Ok(piece.len())
    }
}

impl Pieces for MemSink {
    ghost use Rattle.dg_io.specs.Sinks.{sink_faults};
    ghost use Rattle.dg_io.specs.SinkPieces.{Taken, TakenPart, taken_none, taken_both, taken_part_after, taken_part_of_more};

    ghost took = { Taken };

    ghost took_part = { TakenPart };

    ghost faults = { sink_faults };

    fn piece(&mut self, bytes: &[u8]) -> Result<(), Failed> {
        write_all(self, bytes)
    }

    ghost nothing = { λ s. taken_none s };

    ghost then = { λ a b c x y first second. taken_both a b c x y first second };

    ghost then_part = { λ a b c x y first second. taken_part_after a b c x y first second };

    ghost part = { λ a b x y first. taken_part_of_more a b x y first };
}

/// A sink in memory, which never fails. Where it is asked for more than it has room for, it succeeds, and tells no bytes
/// from then on.
#[derive(Drop)]
pub struct SureSink {
    bytes: Vec<u8>,
    room: usize,
    told: bool,
    calls: u64,
    ghost within: { length bytes.items ≤ room },
    ghost fits: { room ≤ vec_capacity bytes },
}

impl SureSink {
    ghost use Rattle.dg_io.specs.Sinks.{sure_calls, sure_room, sure_taken};

    /// An empty sink with room for so many bytes. It takes its memory here.
    pub fn new(alloc: Global, room: usize) -> Result<SureSink, NoMemory>
        ensures taken { IfOk result (λ sink. sure_taken sink ≡ Some []) }
        ensures calls { IfOk result (λ sink. sure_calls sink ≡ 0) }
        ensures room { IfOk result (λ sink. sure_room sink ≡ room) }
    {
        match Vec::with_capacity(alloc, room) {
            Ok(bytes) => Ok(SureSink {
                bytes,
                room,
                told: true,
                calls: 0,
            }),
            Err(_) => Err(NoMemory),
        }
    }

    /// The bytes taken, where it still tells them.
    pub fn taken(&self) -> Option<&[u8]>
        ensures { MatchOption result (sure_taken self.now ≡ None) (λ bytes. sure_taken self.now ≡ Some bytes.now) }
    {
        if self.told {
            return Some(&self.bytes);
        }
        None
    }
}

impl Sink for SureSink {
    ghost use Rattle.dg_io.specs.Sinks.{sure_calls, sure_room, sure_taken};

    ghost taken = { sure_taken };

    ghost faults = { λ _. 0 };

    ghost calls = { sure_calls };

    ghost whole = { λ _. Unit {0} };

    /// It takes the whole piece, and tells on exactly where the piece isn't past the room.
    fn write(&mut self, piece: &[u8]) -> Result<usize, Failed>
        ensures within { IfOk result (λ n. n ≤ length piece.now) }
        ensures some { IfOk result (λ n. 0 < length piece.now → 0 < n) }
        ensures bytes { IfOk result (λ n. Told (Took (take n piece.now)) (sure_taken self.old) (sure_taken self.new)) }
        ensures err { OnErr result (Told IsSame (sure_taken self.old) (sure_taken self.new)) }
        ensures cause { HasCause 0 0 result }
        ensures counted { RoseByOne (sure_calls self.old) (sure_calls self.new) }
        ensures takes_whole { IfOk result (λ n. Unit {0} → n ≡ length piece.now) }
        ensures whole_on { Unit {0} ↔ Unit {0} }
        ensures tells { (all : List ℕ) → sure_taken self.old ≡ Some all
            → IsSome (sure_taken self.new) ↔ (length all + length piece.now ≤ sure_room self.old) }
        ensures room { sure_room self.new ≡ sure_room self.old }
    {
        self.calls = self.calls.saturating_add(1);
        let fits = has_room(self.room, self.bytes.len(), piece.len());
        if !fits || self.bytes.extend_from_slice(piece).is_err() {
            self.told = false;
        }
        Ok(piece.len())
    }
}
