// Members on standard input: of each its length in eight bytes, the least first, and its bytes; of one that is missing eight bytes 255.
use byteorder::{ByteOrder, LittleEndian};

/// Where the bytes of a member stand, if it isn't missing.
#[derive(Clone, Copy, Debug, PartialEq, Eq)]
pub struct Span {
    pub start: usize,
    pub end: usize,
    pub missing: bool,
}

/// The member whose length stands at a place. `None` where none stands there.
pub fn span_at(input: &[u8], at: usize) -> Option<Span> {
    let start = at.checked_add(8)?;
    let head = input.get(at..start)?;
    let size = LittleEndian::read_u64(head);
    if size == u64::MAX {
        return Some(Span {
            start,
            end: start,
            missing: true,
        });
    }
    if size > input.len() as u64 {
        return None;
    }
    let end = start.checked_add(size as usize)?;
    if end > input.len() {
        return None;
    }
    Some(Span {
        start,
        end,
        missing: false,
    })
}

/// The bytes of a member, or `None` of one that is missing.
pub fn bytes_of(input: &[u8], span: Span) -> Option<&[u8]> {
    if span.missing {
        return None;
    }
    input.get(span.start..span.end)
}
