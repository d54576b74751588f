ghost use Rattle.std.specs.Prelude.{◌≡◌, ◌∷◌, []};
ghost use Rattle.byteorder.specs.Endian.{little_bytes};

use std::marker::Model;

/// Why a part of a body isn't given.
#[derive(Clone, Copy, Debug, PartialEq, Eq)]
pub enum Unread {
    /// The bytes at the front aren't such a part.
    Malformed,
    /// Want of memory.
    NoMemory,
}

/// Bytes that are read from their front. Contracts see those that are left.
#[derive(Debug, Drop)]
pub struct Reader<'a> {
    rest: &'a [u8],
}

impl<'a> Model for Reader<'a> {
    ghost use Rattle.std.specs.Prelude.{List, ℕ};

    ghost Value = { List ℕ };

    ghost view = { λ reader. reader.rest.now };
}

impl<'a> Reader<'a> {
    ghost use Rattle.std.specs.Prelude.{◌≡◌, ◌<◌, ◌∷◌, [], length};
    ghost use Rattle.byteorder.specs.Endian.{little_bytes};
    ghost use Rattle.dg_save.specs.Parts.{FitsByte, FitsNumber, IsAny, IsRead, flag_bytes};

    /// All the bytes.
    pub fn new(bytes: &'a [u8]) -> Reader<'a>
        ensures { result ≡ bytes.now }
    {
        Reader { rest: bytes }
    }

    /// How many bytes are left.
    pub fn len(&self) -> usize
        ensures { result ≡ length self.now }
    {
        self.rest.len()
    }

    /// The next byte.
    pub fn byte(&mut self) -> Result<u8, Unread>
        ensures { IsRead (λ x. x) FitsByte (λ x. x ∷ []) self.old self.new result }
    {
        let rest = self.rest;
        match rest.split_first() {
            Some((first, rest)) => {
                self.rest = rest;
                Ok(*first)
            }
            None => Err(Unread::Malformed),
        }
    }

    /// The next byte, 1 for true and 0 for false.
    pub fn flag(&mut self) -> Result<bool, Unread>
        ensures { IsRead (λ x. x) IsAny flag_bytes self.old self.new result }
    {
        match self.byte()? {
            0 => Ok(false),
            1 => Ok(true),
            _ => Err(Unread::Malformed),
        }
    }

    /// The number in the next four bytes.
    pub fn number(&mut self) -> Result<u32, Unread>
        ensures { IsRead (λ x. x) FitsNumber (little_bytes 4) self.old self.new result }
    {
        let rest = self.rest;
        if rest.len() < 4 {
            return Err(Unread::Malformed);
        }
        let (_, after) = rest.split_at(4);
        self.rest = after;
        Ok(number_of(rest[0], rest[1], rest[2], rest[3]))
    }
}

/// The number in four bytes.
fn number_of(first: u8, second: u8, third: u8, fourth: u8) -> u32
    ensures { little_bytes 4 result ≡ first ∷ second ∷ third ∷ fourth ∷ [] }
{
    u32::from_le_bytes([first, second, third, fourth])
}
