use crate::runs::run_over;
use dg_io::{Failed, MemRack, MemSink, MemSource, Source, SureRack, SureSink, SureSource};
use dg_run::{Status, run};
use std::alloc::Global;
use std::test::Fail;

// Bytes of a member of the array 1024 128 4 64 2, which is the largest one here, and of all replies.
const LENGTH: u64 = 69993;

const OUTPUT: usize = 4096;

// A source that gives at most so many bytes in a call, and at least one.
#[derive(Drop)]
struct Pieces<S>(S, usize);

impl<S: Source> Source for Pieces<S> {
    ghost left = { λ s. S.left s.0 };

    ghost faults = { λ s. S.faults s.0 };

    ghost calls = { λ s. S.calls s.0 };

    fn read(&mut self, buf: &mut [u8]) -> Result<usize, Failed> {
        let most = buf.len().min(self.1.max(1));
        self.0.read(&mut buf[..most])
    }
}

pub fn words_of(alloc: Global, texts: &[&str]) -> Result<Vec<String>, Fail> {
    let mut words = Vec::new(alloc);
    for text in texts {
        words.push(String::from_str(alloc, text)?)?;
    }
    Ok(words)
}

pub fn source_of(alloc: Global, input: &[u8], fails: &[u64]) -> Result<MemSource, Fail> {
    let bytes = Vec::from_slice(alloc, input)?;
    Ok(MemSource::new(bytes, Vec::from_slice(alloc, fails)?))
}

pub fn sink_of(alloc: Global, fails: &[u64]) -> Result<MemSink, Fail> {
    Ok(MemSink::new(alloc, OUTPUT, Vec::from_slice(alloc, fails)?)?)
}

pub fn rack_of(alloc: Global, fails: &[u64]) -> Result<MemRack, Fail> {
    Ok(MemRack::new(alloc, 8, LENGTH, Vec::from_slice(alloc, fails)?)?)
}

// A replay whose source and sink don't fail, and whose rack fails at the listed calls.
pub fn replay(
    alloc: Global,
    input: &[u8],
    sink: &mut MemSink,
    fails: &[u64],
) -> Result<Status, Fail> {
    let words = words_of(alloc, &["replay"])?;
    let mut source = source_of(alloc, input, &[])?;
    let mut rack = rack_of(alloc, fails)?;
    Ok(run(alloc, &words, &mut source, sink, &mut rack))
}

// Twenty lines, and their replies where nothing fails.
const SCRIPT: &[u8] = b"array 1024 64 4 32 2
write 0 11
write 1 2222
read 0
read 1
write 2 -
read 2
write 5 a0b0
write 0 33
read 0
read 5
read 63
write 63 ff00
read 63
write 64 aa
read 64
write 1 -
read 1
read 4
read 5
";

const REPLIES: &[u8] = b"ok
ok
ok
data 11
data 2222
ok
data -
ok
ok
data 33
data a0b0
data -
ok
data ff
range
range
ok
data -
data -
data a0b0
";

// Whether a text is these many of the first replies.
fn is_first_replies(text: &[u8], count: usize) -> bool {
    REPLIES.starts_with(text) && text.iter().filter(|x| **x == b'\n').count() == count
}

// The script makes 30 calls on the rack. Where one of them fails, one member is out, and its partner serves on.
#[test]
fn one_failed_call_of_the_rack_shows_in_no_reply(rt: HostRuntime) -> Result<(), Fail> {
    let alloc = rt.alloc();
    for call in 0..31 {
        let mut sink = sink_of(alloc, &[])?;
        let status = replay(alloc, SCRIPT, &mut sink, &[call])?;
        assert_eq!(rt; status, Status::Done);
        assert!(rt; is_first_replies(sink.taken(), 20), "call {call}");
    }
    Ok(())
}

// Call i of the source fails after 16 * i bytes. The lines that are whole in these are done, and nothing is saved.
#[test]
fn a_failed_call_of_the_source_ends_the_replies(rt: HostRuntime) -> Result<(), Fail> {
    let alloc = rt.alloc();
    let words = words_of(alloc, &["replay"])?;
    let rows = [
        (0, 0),
        (1, 0),
        (2, 2),
        (3, 3),
        (4, 5),
        (5, 7),
        (6, 8),
        (7, 10),
        (8, 12),
        (9, 14),
    ];
    for (call, count) in rows {
        let mut source = Pieces(source_of(alloc, SCRIPT, &[call])?, 16);
        let mut sink = sink_of(alloc, &[])?;
        let mut rack = rack_of(alloc, &[])?;
        let status = run(alloc, &words, &mut source, &mut sink, &mut rack);
        assert_eq!(rt; status, Status::ReadFault);
        assert!(rt; is_first_replies(sink.taken(), count), "call {call}");
        let (status, _) = run_over(alloc, "status", b"", &mut rack)?;
        assert_eq!(rt; status, Status::NoState, "call {call}");
    }
    Ok(())
}

#[test]
fn objects_that_never_fail_serve(rt: HostRuntime) -> Result<(), Fail> {
    let alloc = rt.alloc();
    let words = words_of(alloc, &["replay"])?;
    let mut source = SureSource::new(Vec::from_slice(alloc, SCRIPT)?);
    let mut sink = SureSink::new(alloc, OUTPUT)?;
    let mut rack = SureRack::new(alloc, 8, LENGTH)?;
    let status = run(alloc, &words, &mut source, &mut sink, &mut rack);
    assert_eq!(rt; status, Status::Done);
    assert!(rt; sink.taken().is_some_and(|taken| taken == REPLIES));
    Ok(())
}

#[test]
fn lent_objects_serve(rt: HostRuntime) -> Result<(), Fail> {
    let alloc = rt.alloc();
    let words = words_of(alloc, &["replay"])?;
    let mut source = source_of(alloc, SCRIPT, &[])?;
    let mut sink = sink_of(alloc, &[])?;
    let mut rack = rack_of(alloc, &[])?;
    let status = run(
        alloc,
        &words,
        &mut &mut source,
        &mut &mut sink,
        &mut &mut rack,
    );
    assert_eq!(rt; status, Status::Done);
    assert!(rt; sink.taken() == REPLIES);
    Ok(())
}
