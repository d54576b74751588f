ghost use Rattle.std.specs.Prelude.{◌≡◌, ◌≢◌, ◌+◌, ◌*◌, ◌/◌, ◌^◌, ◌<◌, ◌≤◌, ◌==◌, ◌↔◌, ℕ, true, false, IsTrue, IfOk, MatchOption, length};
ghost use Rattle.std.specs.Int.{bit_at};
ghost use Rattle.dg_map.specs.Bits.{IsBits, IsFirstBit, IsFirstWord, IsLeast, Sets, SetsBit, bit_in, has, word_at};

use dg_model::NoMemory;
use std::alloc::Global;

/// A set of numbers below a bound, whose least one is found in a fixed number of steps. All its memory is taken at first.
#[derive(Drop)]
pub struct Bits {
    bound: u32,
    /// A bit for each number.
    words: Vec<u64>,
    /// A bit for each word of `words`: whether it isn't 0.
    groups: Vec<u64>,
    /// A bit for each word of `groups`: whether it isn't 0.
    tops: Vec<u64>,
}

impl Bits {
    /// No number below the bound.
    pub fn none(alloc: Global, bound: u32) -> Result<Bits, NoMemory>
        requires { bound ≤ 2 ^ 20 + 1 }
        ensures sound { IfOk result IsBits }
        ensures bound { IfOk result (λ bits. bits.bound ≡ bound) }
        ensures empty { IfOk result (λ bits. (k : ℕ) → has bits k ≡ false) }
    {
        let words = bound / 64 + 1;
        let groups = words / 64 + 1;
        Ok(Bits {
            bound,
            words: zeros(alloc, words as usize)?,
            groups: zeros(alloc, groups as usize)?,
            tops: zeros(alloc, (groups / 64 + 1) as usize)?,
        })
    }

    /// Whether the number is in the set.
    pub fn has(&self, number: u32) -> bool
        requires sound { IsBits self.now }
        requires within { number < self.now.bound }
        ensures { result ≡ has self.now number }
    {
        has_bit(&self.words, number as usize)
    }

    /// Puts the number into the set.
    pub fn insert(&mut self, number: u32)
        requires sound { IsBits self.old }
        requires within { number < self.old.bound }
        ensures { Sets self.old self.new number true }
    {
        let number = number as usize;
        set_bit(&mut self.words, number);
        set_bit(&mut self.groups, number / 64);
        set_bit(&mut self.tops, number / 64 / 64);
    }

    /// Takes the number, which is there, out of the set.
    pub fn remove(&mut self, number: u32)
        requires sound { IsBits self.old }
        requires there { has self.old number ≡ true }
        ensures { Sets self.old self.new number false }
    {
        let number = number as usize;
        if !clear_bit(&mut self.words, number) {
            return;
        }
        if !clear_bit(&mut self.groups, number / 64) {
            return;
        }
        clear_bit(&mut self.tops, number / 64 / 64);
    }

    /// The least number of the set.
    pub fn least(&self) -> Option<u32>
        requires { IsBits self.now }
        ensures { MatchOption result ((k : ℕ) → has self.now k ≡ false) (IsLeast self.now) }
    {
        match first_word(&self.tops) {
            Some(top) => {
                let group = first_bit(&self.tops, top);
                let word = first_bit(&self.groups, group);
                Some(first_bit(&self.words, word) as u32)
            }
            None => None,
        }
    }
}

/// So many words, each of them 0.
fn zeros(alloc: Global, count: usize) -> Result<Vec<u64>, NoMemory>
    ensures count { IfOk result (λ words. length words.items ≡ count) }
    ensures words { IfOk result (λ words. (w : ℕ) → word_at words.items w ≡ 0) }
{
    match vec![in alloc; 0; count] {
        Ok(words) => Ok(words),
        Err(_) => Err(NoMemory),
    }
}

/// The word at this place.
fn word_of(words: &[u64], place: usize) -> u64
    requires { place < length words.now }
    ensures { result ≡ word_at words.now place }
{
    words[place]
}

/// The word with this bit set.
fn with_bit(word: u64, place: u32) -> u64
    requires { place < 64 }
    ensures here { bit_at result place ≡ 1 }
    ensures others { (i : ℕ) → i ≢ place → bit_at result i ≡ bit_at word i }
{
    word | (1 << place)
}

/// The word with this bit cleared.
fn without_bit(word: u64, place: u32) -> u64
    requires { place < 64 }
    ensures here { bit_at result place ≡ 0 }
    ensures others { (i : ℕ) → i < 64 → i ≢ place → bit_at result i ≡ bit_at word i }
{
    word & !(1 << place)
}

/// Whether the number's bit is 1.
fn has_bit(words: &[u64], number: usize) -> bool
    requires { number / 64 < length words.now }
    ensures { result ≡ (bit_in words.now number == 1) }
{
    words[number / 64] >> (number % 64) & 1 == 1
}

/// Sets the number's bit.
fn set_bit(words: &mut Vec<u64>, number: usize)
    requires { number / 64 < length words.old.items }
    ensures { SetsBit words.old.items words.new.items number 1 }
{
    let word = with_bit(word_of(words, number / 64), (number % 64) as u32);
    words[number / 64] = word;
}

/// Clears the number's bit, and says whether its word is 0 now.
fn clear_bit(words: &mut Vec<u64>, number: usize) -> bool
    requires { number / 64 < length words.old.items }
    ensures cleared { SetsBit words.old.items words.new.items number 0 }
    ensures none { result ≡ (word_at words.new.items (number / 64) == 0) }
{
    let word = without_bit(word_of(words, number / 64), (number % 64) as u32);
    words[number / 64] = word;
    word == 0
}

/// The first word that isn't 0.
fn first_word(words: &[u64]) -> Option<usize>
    ensures { MatchOption result ((w : ℕ) → word_at words.now w ≡ 0) (IsFirstWord words.now) }
{
    for (place, word) in words.iter().enumerate() {
        if *word != 0 {
            return Some(place);
        }
    }
    None
}

/// The first bit that is 1, where this is the first word that isn't 0.
fn first_bit(words: &[u64], word: usize) -> usize
    requires few { length words.now ≤ 2 ^ 20 }
    requires first { IsFirstWord words.now word }
    ensures { IsFirstBit words.now result }
{
    word * 64 + words[word].trailing_zeros() as usize
}
