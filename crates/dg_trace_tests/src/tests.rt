ghost use Rattle.std.specs.Prelude.{None};

use dg_io::{Failed, MemSink, MemSource, Source};
use dg_trace::{Asked, AuditEnd, TraceEnd, TraceFault, TraceRefusal, audit_image, write_trace};
use dg_words::Order;
use std::alloc::Global;
use std::test::Fail;
use ufs_samples::{Which, sample_image};

/// Room for all that is printed here.
const OUTPUT: usize = 262_144;

const ASKED: Asked = Asked {
    order: Order::Up,
    b: 4,
    k: 64,
    m: 2,
};

/// Makes the trace of an image, whose source fails at these of its calls.
fn trace_with(
    alloc: Global,
    image: &[u8],
    source_fails: &[u64],
    sink: &mut MemSink,
) -> Result<Result<TraceEnd, TraceFault>, Fail> {
    let image = Vec::from_slice(alloc, image)?;
    let mut source = MemSource::new(image, Vec::from_slice(alloc, source_fails)?);
    Ok(write_trace(alloc, &ASKED, &mut source, sink))
}

fn sink_of(alloc: Global, fails: &[u64]) -> Result<MemSink, Fail> {
    Ok(MemSink::new(alloc, OUTPUT, Vec::from_slice(alloc, fails)?)?)
}

fn image_of(alloc: Global) -> Result<Vec<u8>, Fail> {
    match sample_image(alloc, Which::F) {
        Ok(image) => Ok(image),
        Err(_) => Err("memory".into()),
    }
}

/// A source of so many bytes, which tells none of them: those that stand in the buffer.
#[derive(Drop)]
struct Untold {
    left: usize,
    calls: u64,
}

impl Source for Untold {
    ghost left = { λ _. None };

    ghost faults = { λ _. 0 };

    ghost calls = { λ s. s.calls };

    fn read(&mut self, buf: &mut [u8]) -> Result<usize, Failed> {
        self.calls = self.calls.saturating_add(1);
        let n = self.left.min(buf.len());
        self.left -= n;
        Ok(n)
    }
}

#[test]
fn an_image_that_is_too_long_is_read_one_byte_too_far(rt: HostRuntime) -> Result<(), Fail> {
    let alloc = rt.alloc();
    let mut source = Untold {
        left: (1 << 28) + 10,
        calls: 0,
    };
    let mut sink = sink_of(alloc, &[])?;
    let end = write_trace(alloc, &ASKED, &mut source, &mut sink);
    assert_eq!(rt; end, Ok(TraceEnd::Refused(TraceRefusal::Length)));
    assert!(rt; sink.taken() == b"bad length\n".as_slice());
    assert_eq!(rt; source.left, 9);
    Ok(())
}

/// The image is read by three calls, of which the last one finds its end.
#[test]
fn faults_of_the_source_are_told(rt: HostRuntime) -> Result<(), Fail> {
    let alloc = rt.alloc();
    let image = image_of(alloc)?;
    for call in 0..3 {
        let mut sink = sink_of(alloc, &[])?;
        let end = trace_with(alloc, &image, &[call], &mut sink)?;
        assert_eq!(rt; end, Err(TraceFault::Read));
        assert!(rt; sink.taken().is_empty());
    }
    let mut sink = sink_of(alloc, &[])?;
    let end = trace_with(alloc, &image, &[3], &mut sink)?;
    assert_eq!(rt; end, Ok(TraceEnd::Written));
    Ok(())
}

/// Each of the 63 lines is written by one call, and so is the word of a refusal.
#[test]
fn faults_of_the_sink_are_told(rt: HostRuntime) -> Result<(), Fail> {
    let alloc = rt.alloc();
    let image = image_of(alloc)?;
    let mut whole = sink_of(alloc, &[63])?;
    let end = trace_with(alloc, &image, &[], &mut whole)?;
    assert_eq!(rt; end, Ok(TraceEnd::Written));
    for call in 0..63 {
        let mut sink = sink_of(alloc, &[call])?;
        let end = trace_with(alloc, &image, &[], &mut sink)?;
        assert_eq!(rt; end, Err(TraceFault::Write));
        let text = sink.taken();
        assert!(rt; whole.taken().starts_with(text), "call {call}");
        let lines = text.iter().filter(|byte| **byte == b'\n').count();
        assert_eq!(rt; lines as u64, call);
    }
    let mut sink = sink_of(alloc, &[0])?;
    let end = trace_with(alloc, b"", &[], &mut sink)?;
    assert_eq!(rt; end, Err(TraceFault::Write));
    assert!(rt; sink.taken().is_empty());
    Ok(())
}

/// Audits an image, whose source fails at these of its calls.
fn audit_with(
    alloc: Global,
    image: &[u8],
    source_fails: &[u64],
    sink: &mut MemSink,
) -> Result<Result<AuditEnd, TraceFault>, Fail> {
    let image = Vec::from_slice(alloc, image)?;
    let mut source = MemSource::new(image, Vec::from_slice(alloc, source_fails)?);
    Ok(audit_image(alloc, &mut source, sink))
}

/// The magic number of the volume's superblock stands at byte 9564.
#[test]
fn an_image_is_audited(rt: HostRuntime) -> Result<(), Fail> {
    let alloc = rt.alloc();
    let mut image = image_of(alloc)?;
    let mut sink = sink_of(alloc, &[])?;
    let end = audit_with(alloc, &image, &[], &mut sink)?;
    assert_eq!(rt; end, Ok(AuditEnd::Sound));
    assert!(rt; sink.taken() == b"end 0\n".as_slice());
    let mut sink = sink_of(alloc, &[])?;
    let end = audit_with(alloc, b"", &[], &mut sink)?;
    assert_eq!(rt; end, Ok(AuditEnd::Length));
    assert!(rt; sink.taken() == b"bad length\n".as_slice());
    if let Some(byte) = image.get_mut(9564) {
        *byte = 0;
    }
    let mut sink = sink_of(alloc, &[])?;
    let end = audit_with(alloc, &image, &[], &mut sink)?;
    assert_eq!(rt; end, Ok(AuditEnd::Malformed));
    assert!(rt; sink.taken() == b"bad magic 0\nend 1\n".as_slice());
    Ok(())
}

/// An image is read by three calls, and each of its lines is written by one.
#[test]
fn faults_of_an_audit_are_told(rt: HostRuntime) -> Result<(), Fail> {
    let alloc = rt.alloc();
    let image = image_of(alloc)?;
    for call in 0..3 {
        let mut sink = sink_of(alloc, &[])?;
        let end = audit_with(alloc, &image, &[call], &mut sink)?;
        assert_eq!(rt; end, Err(TraceFault::Read));
        assert!(rt; sink.taken().is_empty());
    }
    let mut sink = sink_of(alloc, &[0])?;
    let end = audit_with(alloc, &image, &[], &mut sink)?;
    assert_eq!(rt; end, Err(TraceFault::Write));
    assert!(rt; sink.taken().is_empty());
    Ok(())
}
