// Two calls over one rack: a replay up to a save, and behind it a call on what is left, once members were taken away.
use crate::cat_tests::{image, lines_of};
use crate::runs::run_over;
use crate::tests::{rack_of, source_of, words_of};
use dg_io::{MemRack, MemSink};
use dg_run::Status;
use dg_uses::{cat_what_is_left, replay_text, take_away};
use std::alloc::Global;
use std::process::Abort;
use std::test::Fail;
use ufs_samples::Which;

// Bytes of all that a call prints.
const OUTPUT: usize = 4096;

// Block 3 stands on boundary 3, which has the members 6 and 7, and block 4 on boundary 0.
const SAVED: &[u8] = b"array 1024 64 4 32 2\nwrite 3 6869\nwrite 4 aa\nsave\n";

// What a resumed array prints of these two blocks, once these two members were taken away.
fn read_without(rt: &impl Abort, alloc: Global, one: u8, other: u8) -> Result<Vec<u8>, Fail> {
    let mut end = replay_text(alloc, SAVED, Vec::new(alloc))?;
    assert_eq!(rt; end.status, Status::Done);
    assert!(rt; end.sink.taken() == "ok\nok\nok\nsaved 1\n".as_bytes());
    take_away(&mut end.rack, one);
    take_away(&mut end.rack, other);
    let (status, printed) = run_over(alloc, "resume", b"read 3\nread 4\n", &mut end.rack)?;
    assert_eq!(rt; status, Status::Done);
    Ok(printed)
}

#[test]
fn blocks_are_read_of_what_is_left(rt: HostRuntime) -> Result<(), Fail> {
    let alloc = rt.alloc();
    for (one, other, wanted) in [
        (0, 2, "data 6869\ndata aa\n"),
        (7, 0, "data 6869\ndata aa\n"),
        (6, 1, "data 6869\ndata aa\n"),
        (6, 7, "unavailable\ndata aa\n"),
        (0, 1, "data 6869\nunavailable\n"),
    ] {
        let printed = read_without(&rt, alloc, one, other)?;
        assert!(rt; printed.as_slice() == wanted.as_bytes(), "{wanted}");
    }
    Ok(())
}

// The volume F, written, settled and saved.
fn saved_volume(rt: &impl Abort, alloc: Global) -> Result<MemRack, Fail> {
    let mut input = lines_of(alloc, &image(alloc, Which::F)?)?;
    input.extend_from_slice(b"settle\nsave\n")?;
    let mut rack = rack_of(alloc, &[])?;
    let (status, printed) = run_over(alloc, "replay", &input, &mut rack)?;
    assert_eq!(rt; status, Status::Done);
    assert!(rt; printed.ends_with(b"ok\nsettled\nsaved 1\n"));
    Ok(rack)
}

// One member of each boundary is enough.
#[test]
fn a_file_is_given_by_what_is_left(rt: HostRuntime) -> Result<(), Fail> {
    let alloc = rt.alloc();
    let mut rack = saved_volume(&rt, alloc)?;
    for member in [0, 3, 4, 7] {
        take_away(&mut rack, member);
    }
    let words = words_of(alloc, &["cat", "/a"])?;
    let mut source = source_of(alloc, b"", &[])?;
    let mut sink = MemSink::new(alloc, OUTPUT, Vec::new(alloc))?;
    let status = cat_what_is_left(alloc, &words, &mut source, &mut sink, &mut rack);
    assert_eq!(rt; status, Status::Done);
    assert!(rt; sink.taken() == "hello".as_bytes());
    Ok(())
}
