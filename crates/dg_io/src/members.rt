// A member of a rack in memory.
ghost use Rattle.std.specs.Prelude.{◌≡◌, ◌≤◌, ◌<◌, ◌⊎◌, ◌↔◌, ◌+◌, ◌-◌, ◌++◌, [], true, false, ℕ, length, replicate, IfOk, OnErr, OnOk, IsErr};
ghost use Rattle.std.specs.Vec.{vec_capacity};
ghost use Rattle.dg_io.specs.Told.{patch, Reads};

use crate::{Failed, NoMemory};
use std::alloc::Global;

/// The bytes of a member, with room for so many.
#[derive(Drop)]
pub struct MemMember {
    pub bytes: Vec<u8>,
    pub room: usize,
    pub there: bool,
    ghost fits: { room ≤ vec_capacity bytes },
    ghost gone: { there ≡ false → bytes.items ≡ [] },
}

/// Puts a piece in the place of the bytes that stand there.
fn put(bytes: &mut [u8], place: usize, piece: &[u8])
    requires { place + length piece.now ≤ length bytes.old }
    ensures { bytes.new ≡ patch bytes.old place piece.now }
{
    bytes[place..place + piece.len()].copy_from_slice(piece);
}

impl MemMember {
    /// An empty member, which takes its memory here.
    pub fn new(alloc: Global, room: usize) -> Result<MemMember, NoMemory>
        ensures bytes { IfOk result (λ member. member.bytes.items ≡ []) }
        ensures room { IfOk result (λ member. member.room ≡ room) }
        ensures there { IfOk result (λ member. member.there ≡ true) }
    {
        match Vec::with_capacity(alloc, room) {
            Ok(bytes) => Ok(MemMember {
                bytes,
                room,
                there: true,
            }),
            Err(_) => Err(NoMemory),
        }
    }

    /// Makes so many zeros of it. One that was taken away is there again.
    pub fn blank(&mut self, size: u64) -> Result<(), Failed>
        ensures fails { IsErr result ↔ (self.old.room < size) }
        ensures ok { OnOk result (self.new.bytes.items ≡ replicate size 0) }
        ensures there { OnOk result (self.new.there ≡ true) }
        ensures err { OnErr result (self.new ≡ self.old) }
        ensures room { self.new.room ≡ self.old.room }
    {
        if size > self.room as u64 {
            return Err(Failed);
        }
        self.bytes.clear();
        self.bytes.resize(size as usize, 0).map_err(|_| Failed)?;
        self.there = true;
        Ok(())
    }

    /// Puts zeros at its end, up to so many bytes.
    pub fn extend(&mut self, size: u64) -> Result<(), Failed>
        requires { length self.old.bytes.items ≤ size }
        ensures fails { IsErr result ↔ ((self.old.there ≡ false) ⊎ (self.old.room < size)) }
        ensures ok { OnOk result (self.new.bytes.items ≡ self.old.bytes.items ++ replicate (size - length self.old.bytes.items) 0) }
        ensures err { OnErr result (self.new ≡ self.old) }
        ensures there { self.new.there ≡ self.old.there }
        ensures room { self.new.room ≡ self.old.room }
    {
        if !self.there || size > self.room as u64 {
            return Err(Failed);
        }
        self.bytes.resize(size as usize, 0).map_err(|_| Failed)
    }

    /// Reads at a place.
    pub fn read(&self, place: u64, buf: &mut [u8]) -> Result<(), Failed>
        requires { place + length buf.old ≤ length self.now.bytes.items }
        ensures fails { IsErr result ↔ (self.now.there ≡ false) }
        ensures ok { OnOk result (Reads place buf.new self.now.bytes.items self.now.bytes.items) }
    {
        if !self.there {
            return Err(Failed);
        }
        let from = place as usize;
        buf.copy_from_slice(&self.bytes[from..from + buf.len()]);
        Ok(())
    }

    /// Writes at a place.
    pub fn write(&mut self, place: u64, piece: &[u8]) -> Result<(), Failed>
        requires { place + length piece.now ≤ length self.old.bytes.items }
        ensures fails { IsErr result ↔ (self.old.there ≡ false) }
        ensures ok { OnOk result (self.new.bytes.items ≡ patch self.old.bytes.items place piece.now) }
        ensures err { OnErr result (self.new ≡ self.old) }
        ensures there { self.new.there ≡ self.old.there }
        ensures room { self.new.room ≡ self.old.room }
    {
        if !self.there {
            return Err(Failed);
        }
        put(&mut self.bytes, place as usize, piece);
        Ok(())
    }

    /// Takes it away.
    pub fn remove(&mut self)
        ensures bytes { self.new.bytes.items ≡ [] }
        ensures there { self.new.there ≡ false }
        ensures room { self.new.room ≡ self.old.room }
    {
        self.bytes.clear();
        self.there = false;
    }
}
