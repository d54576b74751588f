// The paths of some files of a whole volume.
use crate::tests::image;
use dg_io::{Failed, Loss, MemView};
use std::alloc::Global;
use std::test::Fail;
use ufs_path::{CatAnswer, Levels, PathList, list_marked};
use ufs_samples::Which;

/// Most bytes of the paths that such a list keeps.
const MOST: usize = 64;

/// Bytes in memory, one behind the other.
#[derive(Drop)]
struct Kept {
    bytes: [u8; MOST],
    used: usize,
}

impl Kept {
    /// Puts a byte behind the others, where there is room.
    fn put(&mut self, byte: u8) {
        if self.used < MOST {
            self.bytes[self.used] = byte;
            self.used += 1;
        }
    }

    /// Puts bytes behind the others.
    fn put_all(&mut self, bytes: &[u8]) {
        for k in 0..bytes.len() {
            self.put(bytes[k]);
        }
    }
}

/// Paths in memory, one behind the other, and the inode of the last one. It takes so many.
#[derive(Drop)]
struct MemPaths {
    kept: Kept,
    last: u32,
    room: usize,
    faults: u64,
}

impl MemPaths {
    /// A list that takes so many paths.
    fn new(room: usize) -> MemPaths {
        MemPaths {
            kept: Kept {
                bytes: [0; MOST],
                used: 0,
            },
            last: 0,
            room,
            faults: 0,
        }
    }
}

impl PathList for MemPaths {
    ghost took = { λ old paths new. Unit {0} };

    ghost took_part = { λ old paths new. Unit {0} };

    ghost faults = { λ paths. paths.faults };

    fn line(&mut self, inode: u32, path: &[u8]) -> Result<(), Failed> {
        if self.room == 0 {
            self.faults = self.faults.saturating_add(1);
            return Err(Failed);
        }
        self.room = self.room.saturating_sub(1);
        self.last = inode;
        self.kept.put_all(path);
        Ok(())
    }

    ghost nothing = { λ s. tt };

    ghost then = { λ a b c x y first second. tt };

    ghost then_part = { λ a b c x y first second. tt };

    ghost part = { λ a b x y first. tt };
}

/// What is answered of the marked inodes of the volume F, which loses a block, and what a list with so much room has then.
fn mark(
    alloc: Global,
    inodes: &[u8],
    block: u32,
    room: usize,
) -> Result<(CatAnswer, MemPaths), Fail> {
    let image = image(alloc, Which::F)?;
    let loss = Loss { block, fetch: 0 };
    let mut view = MemView::new(image, 1024, 128, vec![in alloc; loss]?);
    let mut levels = Levels::new(alloc, 1024)?;
    let mut marks = Vec::new(alloc);
    for inode in 0..32u8 {
        marks.push(inodes.contains(&inode))?;
    }
    let mut out = MemPaths::new(room);
    let answer = list_marked(alloc, &mut view, &mut levels, &marks, &mut out)?;
    Ok((answer, out))
}

/// Inode 3 is `/a`, 4 the directory `/d`, and 5 the file `b` in it. Block 34 is needed by no directory, block 35 is that of `/d`.
#[test]
fn marked_files_have_their_whole_paths(rt: HostRuntime) -> Result<(), Fail> {
    let alloc = rt.alloc();
    for (inodes, block, room, wanted, paths, last) in [
        (
            b"\x05".as_slice(),
            127,
            9,
            CatAnswer::Given(1),
            b"/d/b".as_slice(),
            5,
        ),
        (
            b"\x03\x05".as_slice(),
            127,
            9,
            CatAnswer::Given(2),
            b"/a/d/b".as_slice(),
            5,
        ),
        (
            b"\x02\x03\x04".as_slice(),
            34,
            9,
            CatAnswer::Given(1),
            b"/a".as_slice(),
            3,
        ),
        (
            b"".as_slice(),
            127,
            0,
            CatAnswer::Given(0),
            b"".as_slice(),
            0,
        ),
        (
            b"\x03\x05".as_slice(),
            127,
            1,
            CatAnswer::SinkFault,
            b"/a".as_slice(),
            3,
        ),
        (
            b"\x03".as_slice(),
            35,
            9,
            CatAnswer::Unavailable,
            b"".as_slice(),
            0,
        ),
    ] {
        let (answer, out) = mark(alloc, inodes, block, room)?;
        assert_eq!(rt; answer, wanted);
        assert!(rt; out.last == last && out.kept.used == paths.len());
        for k in 0..paths.len() {
            assert!(rt; k < MOST && out.kept.bytes[k] == paths[k]);
        }
    }
    Ok(())
}
