// Sources in memory. Their calls are counted from 0.
ghost use Rattle.std.specs.Prelude.{◌≡◌, ◌≤◌, ◌<◌, ◌+◌, ◌↔◌, [], length, take, drop, Some, IfOk, OnErr, IsErr};
ghost use Rattle.dg_model.specs.Causes.{RoseByOne};
ghost use Rattle.dg_io.specs.Faults.{HasCause};
ghost use Rattle.dg_io.specs.Told.{Told, Gave, IsSame};

use crate::calls::is_listed;
use crate::{Failed, Source};

/// Copies the bytes from a place on to the front of the buffer, as many as there are and as fit, and answers how many.
fn give(bytes: &[u8], at: usize, buf: &mut [u8]) -> usize
    requires { at ≤ length bytes.now }
    ensures within { result ≤ length buf.old }
    ensures left { at + result ≤ length bytes.now }
    ensures bytes { Gave (take result buf.new) (drop at bytes.now) (drop (at + result) bytes.now) }
    ensures end { result ≡ 0 → 0 < length buf.old → drop at bytes.now ≡ [] }
{
    let n = (bytes.len() - at).min(buf.len());
    buf[..n].copy_from_slice(&bytes[at..at + n]);
    n
}

/// A source over bytes in memory.
#[derive(Drop)]
pub struct MemSource {
    bytes: Vec<u8>,
    at: usize,
    fails: Vec<u64>,
    calls: u64,
    faults: u64,
    ghost within: { at ≤ length bytes.items },
}

impl MemSource {
    ghost use Rattle.dg_io.specs.Sources.{left_in, source_calls, source_fails, source_faults};

    /// A source of these bytes, whose listed calls fail.
    pub fn new(bytes: Vec<u8>, fails: Vec<u64>) -> Self
        ensures left { left_in result ≡ bytes.items }
        ensures faults { source_faults result ≡ 0 }
        ensures calls { source_calls result ≡ 0 }
        ensures fails { source_fails result ≡ fails.items }
    {
        MemSource {
            bytes,
            at: 0,
            fails,
            calls: 0,
            faults: 0,
        }
    }
}

impl Source for MemSource {
    ghost use Rattle.dg_io.specs.Sources.{left_in, source_calls, source_fails, source_faults, IsListed};

    ghost left = { λ s. Some (left_in s) };

    ghost faults = { source_faults };

    ghost calls = { source_calls };

    /// It fails exactly where the call is listed.
    fn read(&mut self, buf: &mut [u8]) -> Result<usize, Failed>
        ensures within { IfOk result (λ n. n ≤ length buf.new) }
        ensures bytes { IfOk result (λ n. Told (Gave (take n buf.new)) (Some (left_in self.old)) (Some (left_in self.new))) }
        ensures end { IfOk result (λ n. n ≡ 0 → 0 < length buf.new
            → Told (λ before after. before ≡ []) (Some (left_in self.old)) (Some (left_in self.new))) }
        ensures err { OnErr result (Told IsSame (Some (left_in self.old)) (Some (left_in self.new))) }
        ensures cause { HasCause (source_faults self.old) (source_faults self.new) result }
        ensures fails { IsErr result ↔ IsListed self.old }
        ensures counted { RoseByOne (source_calls self.old) (source_calls self.new) }
        ensures lists { source_fails self.new ≡ source_fails self.old }
    {
        let call = self.calls;
        self.calls = call.saturating_add(1);
        if is_listed(&self.fails, call) {
            self.faults = self.faults.saturating_add(1);
            return Err(Failed);
        }
        let n = give(&self.bytes, self.at, buf);
        self.at += n;
        Ok(n)
    }
}

/// A source over bytes in memory, which never fails.
#[derive(Drop)]
pub struct SureSource {
    bytes: Vec<u8>,
    at: usize,
    calls: u64,
    ghost within: { at ≤ length bytes.items },
}

impl SureSource {
    ghost use Rattle.dg_io.specs.Sources.{sure_calls, sure_left};

    /// A source of these bytes.
    pub fn new(bytes: Vec<u8>) -> Self
        ensures left { sure_left result ≡ bytes.items }
        ensures calls { sure_calls result ≡ 0 }
    {
        SureSource {
            bytes,
            at: 0,
            calls: 0,
        }
    }
}

impl Source for SureSource {
    ghost use Rattle.dg_io.specs.Sources.{sure_calls, sure_left};

    ghost left = { λ s. Some (sure_left s) };

    ghost faults = { λ _. 0 };

    ghost calls = { sure_calls };

    fn read(&mut self, buf: &mut [u8]) -> Result<usize, Failed> {
        self.calls = self.calls.saturating_add(1);
        let n = give(&self.bytes, self.at, buf);
        self.at += n;
        Ok(n)
    }
}
