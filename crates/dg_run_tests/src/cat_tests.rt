// The event `cat`, on volumes that are written block by block: 128 fragments of 1024 bytes, in an array of four boundaries
// with 64 slots. Block b stands on boundary b mod 4.
ghost use Rattle.std.specs.Prelude.{◌≡◌, IfOk, length};

use crate::runs::mark_of;
use crate::tests::replay;
use dg_io::MemSink;
use dg_run::Status;
use itoa::Buffer;
use std::alloc::Global;
use std::test::Fail;
use ufs_samples::{Which, sample_image};

// Bytes of all replies.
const OUTPUT: usize = 131072;

// The line that writes a block.
fn push_write(text: &mut Vec<u8>, number: usize, block: &[u8]) -> Result<(), Fail> {
    let mut digits = Buffer::new();
    text.extend_from_slice(b"write ")?;
    text.extend_from_slice(digits.format(number).as_bytes())?;
    text.push(b' ')?;
    for byte in block {
        let mut word = [0u8; 2];
        let _ = hex::encode_to_slice([*byte], &mut word);
        text.extend_from_slice(&word)?;
    }
    text.push(b'\n')?;
    Ok(())
}

// The lines that make the array, and write the blocks of an image that aren't zero, ascending.
pub fn lines_of(alloc: Global, image: &[u8]) -> Result<Vec<u8>, Fail> {
    let mut text = Vec::from_slice(alloc, b"array 1024 128 4 64 2\n")?;
    for (number, block) in image.chunks(1024).enumerate() {
        if block.iter().any(|byte| *byte != 0) {
            push_write(&mut text, number, block)?;
        }
    }
    Ok(text)
}

// The image of a volume.
pub fn image(alloc: Global, which: Which) -> Result<Vec<u8>, Fail>
    ensures { IfOk result (λ image. length image.items ≡ 131072) }
{
    match sample_image(alloc, which) {
        Ok(image) => Ok(image),
        Err(_) => Err("memory".into()),
    }
}

// The replies behind those to the array and to the writes of an image, which are all `ok`.
pub fn replies(alloc: Global, image: &[u8], lines: &str, fails: &[u64]) -> Result<Vec<u8>, Fail> {
    let mut input = lines_of(alloc, image)?;
    let count = input.iter().filter(|byte| **byte == b'\n').count();
    input.extend_from_slice(lines.as_bytes())?;
    let mut sink = MemSink::new(alloc, OUTPUT, Vec::new(alloc))?;
    if replay(alloc, &input, &mut sink, fails)? != Status::Done {
        return Err("status".into());
    }
    let mut rest = sink.taken();
    for _ in 0..count {
        let Some(more) = rest.strip_prefix(b"ok\n") else {
            return Err("a write isn't answered by ok".into());
        };
        rest = more;
    }
    Ok(Vec::from_slice(alloc, rest)?)
}

// The calls of a rack from one on, to more than any trace here makes.
pub fn calls_from(alloc: Global, first: u64) -> Result<Vec<u64>, Fail> {
    let mut calls = Vec::new(alloc);
    for call in first..4096 {
        calls.push(call)?;
    }
    Ok(calls)
}

// The number of the first call of the rack behind those for the array and for the blocks of an image.
pub fn first_call(alloc: Global, image: &[u8]) -> Result<u64, Fail> {
    let (calls, _) = mark_of(alloc, &lines_of(alloc, image)?)?;
    Ok(calls)
}

// That call, and one further on.
pub fn call_behind(first: u64, count: u64) -> u64 {
    first.saturating_add(count)
}

// The first lines of an answer, so many of them, and the line that says that these are so many bytes or entries.
pub fn cut_after(alloc: Global, whole: &[u8], lines: usize, count: usize) -> Result<Vec<u8>, Fail> {
    let mut text = Vec::new(alloc);
    let mut passed = 0;
    for byte in whole {
        if passed < lines {
            text.push(*byte)?;
            if *byte == b'\n' {
                passed += 1;
            }
        }
    }
    let mut digits = Buffer::new();
    text.extend_from_slice(b"cut ")?;
    text.extend_from_slice(digits.format(count).as_bytes())?;
    text.push(b'\n')?;
    Ok(text)
}

// The line of so many bytes of a file that are the same.
fn push_bytes(text: &mut Vec<u8>, byte: u8, count: usize) -> Result<(), Fail> {
    let mut word = [0u8; 2];
    let _ = hex::encode_to_slice([byte], &mut word);
    text.extend_from_slice(b"bytes ")?;
    for _ in 0..count {
        text.extend_from_slice(&word)?;
    }
    text.push(b'\n')?;
    Ok(())
}

// The answer to `cat /d/b`: fragment i of the file has the bytes i + 1.
pub fn long_file(alloc: Global) -> Result<Vec<u8>, Fail> {
    let mut text = Vec::new(alloc);
    for byte in 1..53 {
        push_bytes(&mut text, byte, 1024)?;
    }
    text.extend_from_slice(b"end 53248\n")?;
    Ok(text)
}

// A block is read by one call, or by two where the first fails. The superblock, the root's inode, its directory and the file's
// inode take five calls, and five again; then the file's blocks take one each, and one each again.
#[test]
fn failing_calls_make_a_file_unavailable_or_cut_it(rt: HostRuntime) -> Result<(), Fail> {
    let alloc = rt.alloc();
    let volume = image(alloc, Which::F)?;
    let first = first_call(alloc, &volume)?;
    for (passed, lines, wanted) in [
        (0, "cat /a\n", "unavailable\n"),
        (3, "cat /a\n", "unavailable\n"),
        (5, "cat /a\n", "unavailable\n"),
        (10, "cat /a\n", "unavailable\n"),
        (11, "cat /a\n", "cut 0\n"),
        (12, "cat /a\n", "bytes 68656c6c6f\nend 5\n"),
        (11, "cat /h\n", "unavailable\n"),
    ] {
        let call = call_behind(first, passed);
        let answer = replies(alloc, &volume, lines, &[call, call_behind(call, 1)])?;
        assert!(rt; answer.as_slice() == wanted.as_bytes(), "{lines}");
    }

    // The hole of `/h` was handed on, and one of the two blocks behind it is lost the second time.
    let mut wanted = Vec::new(alloc);
    for _ in 0..4 {
        push_bytes(&mut wanted, 0, 1024)?;
    }
    wanted.extend_from_slice(b"cut 4096\n")?;
    for passed in [12, 13] {
        let call = call_behind(first, passed);
        let answer = replies(alloc, &volume, "cat /h\n", &[call, call_behind(call, 1)])?;
        assert!(rt; answer == wanted, "{passed}");
    }
    Ok(())
}

// The path `/d/b` takes seven calls, and seven again, and its file twice 53: four for each of thirteen file blocks, and one for the indirect
// block, of which the other three blocks are zeros that were never written.
#[test]
fn a_rack_that_fails_from_a_call_on_cuts_a_file(rt: HostRuntime) -> Result<(), Fail> {
    let alloc = rt.alloc();
    let volume = image(alloc, Which::F)?;
    let whole = long_file(alloc)?;
    let first = first_call(alloc, &volume)?;
    for passed in [0, 6, 13, 47, 66] {
        let fails = calls_from(alloc, call_behind(first, passed))?;
        let answer = replies(alloc, &volume, "cat /d/b\n", &fails)?;
        assert!(rt;
            answer.as_slice() == b"unavailable\n".as_slice(),
            "{passed}"
        );
    }
    for (passed, lines) in [(67, 0), (70, 0), (71, 4), (114, 44), (115, 48), (119, 48)] {
        let fails = calls_from(alloc, call_behind(first, passed))?;
        let answer = replies(alloc, &volume, "cat /d/b\n", &fails)?;
        let wanted = cut_after(alloc, &whole, lines, 1024 * lines)?;
        assert!(rt; answer == wanted, "{passed}");
    }
    let fails = calls_from(alloc, call_behind(first, 120))?;
    let answer = replies(alloc, &volume, "cat /d/b\n", &fails)?;
    assert!(rt; answer == whole);
    Ok(())
}
