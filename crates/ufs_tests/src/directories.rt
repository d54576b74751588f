use ufs_dir::{CHUNK_BYTES, Entries, Entry, EntryStep, Found, check, find};
use ufs_model::BadEntry::{Cut, Name, Reclen};
use ufs_model::Endian;

/// A chunk of zeros but for some bytes in two places.
fn chunk_of(parts: &[(usize, &[u8]); 2]) -> [u8; CHUNK_BYTES] {
    let mut chunk = [0; CHUNK_BYTES];
    for (at, part) in parts {
        for (byte, new) in chunk.iter_mut().skip(*at).zip(part.iter()) {
            *byte = *new;
        }
    }
    chunk
}

/// A directory that was just made, with one unused entry between its two, in both orders of bytes.
#[test]
fn walk_of_a_chunk(rt: HostRuntime) {
    let little = chunk_of(&[
        (
            0,
            b"\x03\0\0\0\x0c\0\x04\x01.\0\0\0\0\0\0\0\x0c\0\x08\x03old\0",
        ),
        (24, b"\x02\0\0\0\xe8\x01\x04\x02..\0\0"),
    ]);
    let big = chunk_of(&[
        (
            0,
            b"\0\0\0\x03\0\x0c\x04\x01.\0\0\0\0\0\0\0\0\x0c\x08\x03old\0",
        ),
        (24, b"\0\0\0\x02\x01\xe8\x04\x02..\0\0"),
    ]);
    for (chunk, endian) in [(little, Endian::Little), (big, Endian::Big)] {
        let want = [
            EntryStep::Entry(Entry {
                inode: 3,
                kind: 4,
                name: b".",
            }),
            EntryStep::Entry(Entry {
                inode: 0,
                kind: 8,
                name: b"",
            }),
            EntryStep::Entry(Entry {
                inode: 2,
                kind: 4,
                name: b"..",
            }),
            EntryStep::End,
            EntryStep::End,
        ];
        let mut entries = Entries::new(&chunk, endian);
        for step in want {
            assert!(rt; entries.next() == step);
        }
        assert!(rt; find(&chunk, b"..", endian) == Found::At(2));
    }
    assert!(rt; check(&little, Endian::Big) == Some(Reclen));
    assert!(rt; find(&big, b".", Endian::Little) == Found::Bad(Reclen));
}

/// Chunks that are searched for the name `a`.
#[test]
fn chunks_and_a_name(rt: HostRuntime) {
    let rows: [(&str, [(usize, &[u8]); 2], Found); 20] = [
        (
            "last to the end",
            [(0, b"\x07\0\0\0\0\x02\x08\x01a"), (0, b"")],
            Found::At(7),
        ),
        (
            "longer name",
            [(0, b"\x07\0\0\0\0\x02\x08\x02ab"), (0, b"")],
            Found::Absent,
        ),
        (
            "other name",
            [(0, b"\x07\0\0\0\0\x02\x08\x01b"), (0, b"")],
            Found::Absent,
        ),
        (
            "unused chunk",
            [(0, b"\0\0\0\0\0\x02"), (0, b"")],
            Found::Absent,
        ),
        (
            "unused first",
            [
                (0, b"\0\0\0\0\x0c\0\0\x01a"),
                (12, b"\x09\0\0\0\xf4\x01\x08\x01a"),
            ],
            Found::At(9),
        ),
        (
            "unused, no name",
            [
                (0, b"\0\0\0\0\x0c\0\0\xff/"),
                (12, b"\x09\0\0\0\xf4\x01\x08\x01a"),
            ],
            Found::At(9),
        ),
        (
            "twice",
            [
                (0, b"\x05\0\0\0\x0c\0\x08\x01a"),
                (12, b"\x06\0\0\0\xf4\x01\x08\x01a"),
            ],
            Found::At(5),
        ),
        (
            "up to the end",
            [
                (0, b"\x07\0\0\0\xf4\x01\x08\x01b"),
                (500, b"\x08\0\0\0\x0c\0\x08\x01a"),
            ],
            Found::At(8),
        ),
        (
            "past the end",
            [
                (0, b"\x07\0\0\0\xf4\x01\x08\x01b"),
                (500, b"\x08\0\0\0\x10\0\x08\x01a"),
            ],
            Found::Bad(Reclen),
        ),
        (
            "head alone",
            [
                (0, b"\x07\0\0\0\xf8\x01\x08\x01a"),
                (504, b"\0\0\0\0\x08\0"),
            ],
            Found::At(7),
        ),
        (
            "name before no length",
            [(0, b"\x05\0\0\0\x0c\0\x08\x01a"), (12, b"")],
            Found::Bad(Reclen),
        ),
        (
            "length 6",
            [(0, b"\0\0\0\0\x06\0"), (0, b"")],
            Found::Bad(Reclen),
        ),
        (
            "length 4",
            [(0, b"\0\0\0\0\x04\0"), (0, b"")],
            Found::Bad(Reclen),
        ),
        (
            "length 510",
            [(0, b"\0\0\0\0\xfe\x01"), (0, b"")],
            Found::Bad(Reclen),
        ),
        (
            "no room for zero",
            [
                (0, b"\x07\0\0\0\x0c\0\x08\x04name"),
                (12, b"\0\0\0\0\xf4\x01"),
            ],
            Found::Bad(Reclen),
        ),
        (
            "room for zero",
            [
                (0, b"\x07\0\0\0\x0c\0\x08\x03nam"),
                (12, b"\0\0\0\0\xf4\x01"),
            ],
            Found::Absent,
        ),
        (
            "slash",
            [(0, b"\x07\0\0\0\0\x02\x08\x03a/b"), (0, b"")],
            Found::Bad(Name),
        ),
        (
            "zero byte",
            [(0, b"\x07\0\0\0\0\x02\x08\x03a\0b"), (0, b"")],
            Found::Bad(Name),
        ),
        (
            "empty name",
            [(0, b"\x07\0\0\0\0\x02\x08\0a"), (0, b"")],
            Found::Bad(Name),
        ),
        (
            "cut",
            [(0, b"\x07\0\0\0\xfc\x01\x08\x01a"), (0, b"")],
            Found::Bad(Cut),
        ),
    ];
    for (label, parts, want) in rows {
        let chunk = chunk_of(&parts);
        let fault = match want {
            Found::Bad(bad) => Some(bad),
            _ => None,
        };
        assert!(rt; find(&chunk, b"a", Endian::Little) == want, "{label}");
        assert!(rt; check(&chunk, Endian::Little) == fault, "{label}");
    }
}
