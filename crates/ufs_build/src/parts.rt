// Bytes and numbers that are put at places of an image.
ghost use Rattle.std.specs.Prelude.{◌≡◌, ◌+◌, ◌≤◌, ◌<◌, ◌^◌, length};
ghost use Rattle.ufs_build.specs.Parts.{field_parts, number_bytes, put_at, put_parts};

use ufs_model::Endian;

/// A field of 32 bits of a structure: the byte at which it stands, and its value.
#[derive(Clone, Copy, Debug)]
pub struct Field {
    pub at: u32,
    pub value: u32,
}

/// Puts bytes at a place, where they fit there.
#[tactic(auto, unfolding(crate::specs::Parts::put_at))]
pub fn put(image: &mut [u8], at: usize, piece: &[u8])
    ensures { image.new ≡ put_at at piece.now image.old }
{
    if piece.len() <= image.len() && at <= image.len() - piece.len() {
        image[at..at + piece.len()].copy_from_slice(piece);
    }
}

/// Puts a number of 16 bits at a place.
#[tactic(auto, unfolding(crate::specs::Parts::number_bytes))]
pub fn put_u16(image: &mut [u8], at: usize, value: u16, endian: Endian)
    ensures { image.new ≡ put_at at (number_bytes endian 2 value) image.old }
{
    match endian {
        Endian::Little => put(image, at, &value.to_le_bytes()),
        Endian::Big => put(image, at, &value.to_be_bytes()),
    }
}

/// Puts a number of 32 bits at a place.
#[tactic(auto, unfolding(crate::specs::Parts::number_bytes))]
pub fn put_u32(image: &mut [u8], at: usize, value: u32, endian: Endian)
    ensures { image.new ≡ put_at at (number_bytes endian 4 value) image.old }
{
    match endian {
        Endian::Little => put(image, at, &value.to_le_bytes()),
        Endian::Big => put(image, at, &value.to_be_bytes()),
    }
}

/// Puts a number of 64 bits at a place.
#[tactic(auto, unfolding(crate::specs::Parts::number_bytes))]
pub fn put_u64(image: &mut [u8], at: usize, value: u64, endian: Endian)
    ensures { image.new ≡ put_at at (number_bytes endian 8 value) image.old }
{
    match endian {
        Endian::Little => put(image, at, &value.to_le_bytes()),
        Endian::Big => put(image, at, &value.to_be_bytes()),
    }
}

/// Puts the fields of a structure that begins at a place.
pub fn put_fields(image: &mut [u8], base: usize, fields: &[Field], endian: Endian)
    requires { base < 2 ^ 63 }
    ensures { image.new ≡ put_parts (field_parts endian base fields.now) image.old }
{
    for field in fields {
        put_u32(image, base + field.at as usize, field.value, endian);
    }
}
