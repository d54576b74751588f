// The names of image files.
use std::io::{self, ErrorKind};
use std::str;

/// Members of the largest array, which are numbered from 0.
pub const MEMBERS: u8 = 32;

/// The name of a member's file, `member-SS-J.img`: the boundary in two digits, and the side.
pub fn name_of(member: u8) -> [u8; 15] {
    let mut name = *b"member-00-0.img";
    let boundary = member / 2;
    name[7] = b'0' + boundary / 10 % 10;
    name[8] = b'0' + boundary % 10;
    name[10] = b'0' + member % 2;
    name
}

/// The name under which a member's file is set aside, `member-SS-J.img.old`.
pub fn old_name_of(member: u8) -> [u8; 19] {
    let mut name = *b"member-00-0.img.old";
    name[..15].copy_from_slice(&name_of(member));
    name
}

/// A name as a path.
pub fn path_of(name: &[u8]) -> io::Result<&str> {
    match str::from_utf8(name) {
        Ok(path) => Ok(path),
        Err(_) => Err(io::Error::from(ErrorKind::InvalidFilename)),
    }
}
