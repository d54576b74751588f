// Where a member's pages stand.
ghost use Rattle.std.specs.Prelude.{◌≡◌, ◌≢◌, ◌+◌, ◌<◌, ◌≤◌, ◌/◌, ◌^◌, ◌==◌, ◌↔◌, [], ℕ, length, replicate, IfOk, IsErr, OnErr, OnOk};
ghost use Rattle.std.specs.Int.{bit_at};
ghost use Rattle.std.specs.Vec.{vec_capacity};
ghost use Rattle.dg_stop.specs.Layouts.{bit_in, bits_of};
ghost use Rattle.dg_stop.specs.Pages.{moved};

use dg_io::{Failed, NoMemory};
use std::alloc::Global;

/// What is kept in memory of where a member's pages stand.
#[derive(Drop)]
pub struct Places {
    /// Its bytes.
    pub size: u64,
    /// A bit for each page: whether it stands in its second place.
    pub bits: Vec<u8>,
    /// The most bytes that it has memory for.
    pub most: u64,
    ghost fits: { bits_of most ≤ vec_capacity bits },
    ghost small: { most < 2 ^ 48 },
}

/// Bytes of the bits of a table.
pub fn bits_len(size: u64) -> u64
    requires { size < 2 ^ 48 }
    ensures { result ≡ bits_of size }
{
    ((size + 511) / 512 + 7) / 8
}

/// The byte with this bit set.
fn with_bit(byte: u8, place: u32) -> u8
    requires { place < 8 }
    ensures here { bit_at result place ≡ 1 }
    ensures others { (i : ℕ) → i ≢ place → bit_at result i ≡ bit_at byte i }
{
    byte | (1 << place)
}

/// The byte with this bit cleared.
fn without_bit(byte: u8, place: u32) -> u8
    requires { place < 8 }
    ensures here { bit_at result place ≡ 0 }
    ensures others { (i : ℕ) → i < 8 → i ≢ place → bit_at result i ≡ bit_at byte i }
{
    byte & !(1 << place)
}

/// Whether the bit of a page is set.
pub fn bit(bits: &[u8], page: u64) -> bool
    ensures { result ≡ bit_in bits.now page }
{
    match bits.get(page as usize / 8) {
        Some(byte) => *byte >> (page % 8) & 1 == 1,
        None => false,
    }
}

/// The byte with this bit set or cleared.
fn changed(byte: u8, place: u32, second: bool) -> u8
    requires { place < 8 }
    ensures here { (bit_at result place == 1) ≡ second }
    ensures others { (i : ℕ) → i < 8 → i ≢ place → bit_at result i ≡ bit_at byte i }
{
    if second {
        with_bit(byte, place)
    } else {
        without_bit(byte, place)
    }
}

/// Sets or clears the bit of a page.
pub fn put_bit(bits: &mut Vec<u8>, page: u64, second: bool)
    requires { page / 8 < length bits.old.items }
    ensures bits { (p : ℕ) → bit_in bits.new.items p ≡ moved page second (bit_in bits.old.items) p }
    ensures length { length bits.new.items ≡ length bits.old.items }
    ensures room { vec_capacity bits.new ≡ vec_capacity bits.old }
{
    let at = page as usize / 8;
    bits[at] = changed(bits[at], (page % 8) as u32, second);
}

impl Places {
    /// A member of no bytes, with memory for a member of so many.
    pub fn new(alloc: Global, most: u64) -> Result<Places, NoMemory>
        requires { most < 2 ^ 48 }
        ensures size { IfOk result (λ it. it.size ≡ 0) }
        ensures bits { IfOk result (λ it. it.bits.items ≡ []) }
        ensures most { IfOk result (λ it. it.most ≡ most) }
    {
        match Vec::with_capacity(alloc, bits_len(most) as usize) {
            Ok(bits) => Ok(Places {
                size: 0,
                bits,
                most,
            }),
            Err(_) => Err(NoMemory),
        }
    }

    /// The pages stand where these bits say.
    pub fn follow(&mut self, bits: &[u8])
        requires { length bits.now ≡ length self.old.bits.items }
        ensures bits { self.new.bits.items ≡ bits.now }
        ensures size { self.new.size ≡ self.old.size }
        ensures most { self.new.most ≡ self.old.most }
    {
        self.bits.copy_from_slice(bits);
    }

    /// A member of so many bytes, whose pages stand in their first places.
    pub fn blank(&mut self, size: u64) -> Result<(), Failed>
        ensures fails { IsErr result ↔ (self.old.most < size) }
        ensures size { OnOk result (self.new.size ≡ size) }
        ensures small { OnOk result (size < 2 ^ 48) }
        ensures bits { OnOk result (self.new.bits.items ≡ replicate (bits_of size) 0) }
        ensures err { OnErr result (self.new ≡ self.old) }
        ensures most { self.new.most ≡ self.old.most }
    {
        if size > self.most {
            return Err(Failed);
        }
        self.bits.clear();
        self.bits
            .resize(bits_len(size) as usize, 0)
            .map_err(|_| Failed)?;
        self.size = size;
        Ok(())
    }
}
