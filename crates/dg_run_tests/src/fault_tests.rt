// Runs in which calls of the rack, of the source or of the sink fail: the volume F is written and settled, gets a copy, loses
// a member and gets it back, and is saved and read. Then the commands open what was saved.
use crate::cat_tests::{call_behind, cut_after, image, lines_of, long_file};
use crate::runs::{Counted, bytes_of_b, front_of, mark_of, put, run_over};
use crate::tests::{rack_of, source_of, words_of};
use dg_io::{MemRack, MemSink, Rack};
use dg_run::{Status, run};
use std::alloc::Global;
use std::process::Abort;
use std::test::Fail;
use ufs_samples::Which;

// Bytes of all that a run prints, and of a member.
const OUTPUT: usize = 131072;

const LENGTH: usize = 69_993;

// The lines of the array and of the blocks of F that aren't zero.
const WRITES: usize = 63;

const EVENTS: [&str; 8] = [
    "settle\n",
    "cat /a\n",
    "diffuse\n",
    "fail 2 0\n",
    "replace 2 0\n",
    "rebuild 2 99\n",
    "save\n",
    "cat /d/b\n",
];

// What is printed for the lines from `settle` to `diffuse`.
const FRONT: &str = "settled\nbytes 68656c6c6f\nend 5\ndiffused 1\n";

// What may be printed for those from `fail` to `save` where one call of the rack fails, and whether boundary 2 is lost. The first
// is that of no failed call, or of one on another boundary. In the next three side 0 falls before `fail`, in `replace`
// or in `rebuild`, and in the last two side 1 before `fail` or in `rebuild`.
const MIDDLES: [(&str, bool); 6] = [
    ("ok\nok\ncopied 55 0\nsaved 1\n", false),
    ("already\nok\ncopied 55 0\nsaved 1\n", false),
    ("ok\nfailed\nnot filling\nsaved 1\n", false),
    ("ok\nok\nfailed\nsaved 1\n", false),
    ("ok\nlost 2\nlost 2\nsaved 1\n", true),
    ("ok\nok\nlost 2\nsaved 1\n", true),
];

// The script, and what it prints where no call fails.
#[derive(Drop)]
struct Script {
    input: Vec<u8>,
    // What is printed for the lines up to `diffuse`, for the last line, and for all of them.
    front: Vec<u8>,
    file: Vec<u8>,
    whole: Vec<u8>,
    // At first, behind the writes, and behind each event: the calls made, and the bytes printed.
    marks: Vec<(u64, usize)>,
    // The bytes of `/d/b`.
    bytes: Vec<u8>,
}

fn make_script(alloc: Global) -> Result<Script, Fail> {
    let mut input = lines_of(alloc, &image(alloc, Which::F)?)?;
    let mut marks = Vec::new(alloc);
    marks.push((0, 0))?;
    marks.push(mark_of(alloc, &input)?)?;
    for line in EVENTS {
        input.extend_from_slice(line.as_bytes())?;
        marks.push(mark_of(alloc, &input)?)?;
    }
    let mut front = Vec::new(alloc);
    for _ in 0..WRITES {
        front.extend_from_slice(b"ok\n")?;
    }
    front.extend_from_slice(FRONT.as_bytes())?;
    let file = long_file(alloc)?;
    let mut whole = Vec::from_slice(alloc, &front)?;
    whole.extend_from_slice(MIDDLES[0].0.as_bytes())?;
    whole.extend_from_slice(&file)?;
    Ok(Script {
        input,
        front,
        file,
        whole,
        marks,
        bytes: bytes_of_b(alloc)?,
    })
}

// The calls made at one of the marks.
fn calls_at(script: &Script, mark: usize) -> Result<u64, Fail> {
    match script.marks.get(mark) {
        Some(mark) => Ok(mark.0),
        None => Err("mark".into()),
    }
}

// Whether all that the events before a call print is what they print where no call fails.
fn keeps_front(script: &Script, call: u64, printed: &[u8]) -> bool {
    let mut kept = 0;
    for mark in script.marks.iter() {
        if mark.0 <= call {
            kept = mark.1;
        }
    }
    if kept > script.whole.len() {
        return false;
    }
    printed.starts_with(&script.whole[..kept])
}

// Whether boundary 2 is lost, by what is printed; none where that may not come of one failed call.
fn loses_file(script: &Script, printed: &[u8]) -> Option<bool> {
    let rest = printed.strip_prefix(script.front.as_slice())?;
    for (middle, lost) in MIDDLES {
        if let Some(last) = rest.strip_prefix(middle.as_bytes()) {
            let answered = if lost {
                last == b"unavailable\n".as_slice()
            } else {
                last == script.file.as_slice()
            };
            if answered {
                return Some(lost);
            }
        }
    }
    None
}

// What `status` prints of a phase and of the members of each boundary.
fn status_text(alloc: Global, phase: &str, members: [&str; 4]) -> Result<Vec<u8>, Fail> {
    let mut text = Vec::from_slice(alloc, b"array 1024 128 4 64 2\nphase ")?;
    text.extend_from_slice(phase.as_bytes())?;
    for (name, member, used) in [
        ("\nboundary 0 ", members[0], " 5"),
        ("\nboundary 1 ", members[1], " 5"),
        ("\nboundary 2 ", members[2], " 55"),
        ("\nboundary 3 ", members[3], " 4\n"),
    ] {
        text.extend_from_slice(name.as_bytes())?;
        text.extend_from_slice(member.as_bytes())?;
        text.extend_from_slice(used.as_bytes())?;
    }
    Ok(text)
}

// Whether `status` tells the saved array: with boundary 2 lost, or with all members or all but one.
fn tells_saved(alloc: Global, text: &[u8], lost: bool) -> Result<bool, Fail> {
    if lost {
        let wanted = status_text(alloc, "worn", ["both", "both", "lost 0", "both"])?;
        return Ok(wanted.as_slice() == text);
    }
    for members in [
        ["both", "both", "both", "both"],
        ["half 0", "both", "both", "both"],
        ["half 1", "both", "both", "both"],
        ["both", "half 0", "both", "both"],
        ["both", "half 1", "both", "both"],
        ["both", "both", "half 0", "both"],
        ["both", "both", "half 1", "both"],
        ["both", "both", "both", "half 0"],
        ["both", "both", "both", "half 1"],
    ] {
        let wanted = status_text(alloc, "settled", members)?;
        if wanted.as_slice() == text {
            return Ok(true);
        }
    }
    Ok(false)
}

// Opens what was saved, and tells what it is like.
fn try_status<R: Rack>(
    rt: &impl Abort,
    alloc: Global,
    rack: &mut R,
    lost: bool,
    call: u64,
) -> Result<(), Fail> {
    let (status, text) = run_over(alloc, "status", b"", rack)?;
    assert_eq!(rt; status, Status::Done, "call {call}");
    assert!(rt; tells_saved(alloc, &text, lost)?, "call {call}");
    Ok(())
}

// Opens it and reads a file, which is given unless it is lost.
fn try_file<R: Rack>(
    rt: &impl Abort,
    alloc: Global,
    rack: &mut R,
    (line, bytes, lost): (&str, &[u8], bool),
    call: u64,
) -> Result<(), Fail> {
    let (status, printed) = run_over(alloc, line, b"", rack)?;
    if lost {
        assert_eq!(rt; status, Status::Refused, "call {call}");
        assert!(rt;
            printed.as_slice() == b"unavailable\n".as_slice(),
            "call {call}"
        );
    } else {
        assert_eq!(rt; status, Status::Done, "call {call}");
        assert!(rt; printed.as_slice() == bytes, "call {call}");
    }
    Ok(())
}

// The script, and then the opening, with one failed call.
fn try_call(rt: &impl Abort, alloc: Global, script: &Script, call: u64) -> Result<(), Fail> {
    let mut rack = rack_of(alloc, &[call])?;
    let (status, printed) = run_over(alloc, "replay", &script.input, &mut rack)?;
    assert_eq!(rt; status, Status::Done, "call {call}");
    assert!(rt; keeps_front(script, call, &printed), "call {call}");
    let lost = loses_file(script, &printed);
    assert!(rt; lost.is_some(), "call {call}");
    let lost = lost == Some(true);
    try_status(rt, alloc, &mut rack, lost, call)?;
    try_file(rt, alloc, &mut rack, ("cat /a", b"hello", false), call)?;
    let file = ("cat /d/b", script.bytes.as_slice(), lost);
    try_file(rt, alloc, &mut rack, file, call)
}

// Each call between two of the marks in turn.
fn try_calls(rt: &impl Abort, alloc: Global, from: usize, to: usize) -> Result<(), Fail> {
    let script = make_script(alloc)?;
    for call in calls_at(&script, from)?..calls_at(&script, to)? {
        try_call(rt, alloc, &script, call)?;
    }
    Ok(())
}

#[test]
fn one_failed_call_while_the_blocks_are_written(rt: HostRuntime) -> Result<(), Fail> {
    try_calls(&rt, rt.alloc(), 0, 1)
}

#[test]
fn one_failed_call_while_the_volume_is_settled(rt: HostRuntime) -> Result<(), Fail> {
    try_calls(&rt, rt.alloc(), 1, 4)
}

#[test]
fn one_failed_call_in_the_refill_or_in_the_save(rt: HostRuntime) -> Result<(), Fail> {
    try_calls(&rt, rt.alloc(), 4, 8)
}

#[test]
fn one_failed_call_behind_the_save(rt: HostRuntime) -> Result<(), Fail> {
    try_calls(&rt, rt.alloc(), 8, 9)
}

// The rack in the end of the script, where no call fails.
fn saved(rt: &impl Abort, alloc: Global, script: &Script) -> Result<MemRack, Fail> {
    let mut rack = rack_of(alloc, &[])?;
    let (status, printed) = run_over(alloc, "replay", &script.input, &mut rack)?;
    assert_eq!(rt; status, Status::Done);
    assert!(rt; printed == script.whole);
    Ok(rack)
}

// A rack with the same members. It is made by 16 calls, and then one fails.
fn copy_of(alloc: Global, rack: &mut MemRack, call: u64) -> Result<MemRack, Fail> {
    let mut copy = rack_of(alloc, &[call_behind(16, call)])?;
    for member in 0..8 {
        let bytes = front_of(alloc, rack, member, LENGTH)?;
        put(&mut copy, member, &bytes)?;
    }
    Ok(copy)
}

#[test]
fn one_failed_call_in_an_opening(rt: HostRuntime) -> Result<(), Fail> {
    let alloc = rt.alloc();
    let script = make_script(alloc)?;
    let mut rack = saved(&rt, alloc, &script)?;
    let mut counted = Counted { rack, calls: 0 };
    try_status(&rt, alloc, &mut counted, false, 0)?;
    let opening = counted.calls;
    let file = ("cat /d/b", script.bytes.as_slice(), false);
    try_file(&rt, alloc, &mut counted, file, 0)?;
    let both = counted.calls;
    rack = counted.rack;
    for call in 0..opening {
        let mut copy = copy_of(alloc, &mut rack, call)?;
        try_status(&rt, alloc, &mut copy, false, call)?;
    }
    for call in opening..both {
        let call = call.saturating_sub(opening);
        let mut copy = copy_of(alloc, &mut rack, call)?;
        try_file(&rt, alloc, &mut copy, file, call)?;
    }
    Ok(())
}

// The replies in a text: each is lines of bytes, and then one other line.
fn replies_in(alloc: Global, text: &[u8]) -> Result<Vec<Vec<u8>>, Fail> {
    let mut replies = Vec::new(alloc);
    let mut reply = Vec::new(alloc);
    for line in text.split_inclusive(|byte| *byte == b'\n') {
        reply.extend_from_slice(line)?;
        if !line.starts_with(b"bytes ") {
            replies.push(reply)?;
            reply = Vec::new(alloc);
        }
    }
    Ok(replies)
}

// Whether one of the replies gives a file, or none of it, or a front of it and how much that is.
fn is_answer(alloc: Global, reply: Option<&Vec<u8>>, whole: &[u8]) -> Result<bool, Fail> {
    let Some(reply) = reply else {
        return Ok(false);
    };
    let reply = reply.as_slice();
    if reply == whole || reply == b"unavailable\n".as_slice() {
        return Ok(true);
    }
    let lines = reply.iter().filter(|byte| **byte == b'\n').count();
    let lines = lines.saturating_sub(1);
    let wanted = cut_after(alloc, whole, lines, lines.saturating_mul(1024))?;
    Ok(wanted.as_slice() == reply)
}

// Whether a command gave a file, or none of it.
fn is_given(status: Status, printed: &[u8], bytes: &[u8]) -> bool {
    match status {
        Status::Done => printed == bytes,
        Status::Refused => printed == b"unavailable\n".as_slice(),
        _ => false,
    }
}

// The script and the opening with two failed calls, one after the other, behind the writes. A block that is read by both is gone then.
fn try_two_calls(rt: &impl Abort, alloc: Global, script: &Script, call: u64) -> Result<(), Fail> {
    let mut rack = rack_of(alloc, &[call, call_behind(call, 1)])?;
    let (status, printed) = run_over(alloc, "replay", &script.input, &mut rack)?;
    assert_eq!(rt; status, Status::Done, "call {call}");
    assert!(rt; keeps_front(script, call, &printed), "call {call}");
    let replies = replies_in(alloc, &printed)?;
    assert_eq!(rt; replies.len(), WRITES + EVENTS.len());
    let given = is_answer(alloc, replies.get(64), b"bytes 68656c6c6f\nend 5\n")?;
    assert!(rt; given, "call {call}");
    let given = is_answer(alloc, replies.get(70), &script.file)?;
    assert!(rt; given, "call {call}");
    let (status, text) = run_over(alloc, "status", b"", &mut rack)?;
    assert_eq!(rt; status, Status::Done, "call {call}");
    assert!(rt; text.starts_with(b"array 1024 128 4 64 2\nphase "));
    let (status, printed) = run_over(alloc, "cat /a", b"", &mut rack)?;
    assert!(rt; is_given(status, &printed, b"hello"), "call {call}");
    let (status, printed) = run_over(alloc, "cat /d/b", b"", &mut rack)?;
    assert!(rt; is_given(status, &printed, &script.bytes), "call {call}");
    Ok(())
}

fn try_calls_by_two(rt: &impl Abort, alloc: Global, from: usize, to: usize) -> Result<(), Fail> {
    let script = make_script(alloc)?;
    for call in calls_at(&script, from)?..calls_at(&script, to)? {
        try_two_calls(rt, alloc, &script, call)?;
    }
    Ok(())
}

#[test]
fn two_failed_calls_while_the_volume_is_settled(rt: HostRuntime) -> Result<(), Fail> {
    try_calls_by_two(&rt, rt.alloc(), 1, 4)
}

#[test]
fn two_failed_calls_in_the_refill_or_in_the_save(rt: HostRuntime) -> Result<(), Fail> {
    try_calls_by_two(&rt, rt.alloc(), 4, 8)
}

#[test]
fn two_failed_calls_behind_the_save(rt: HostRuntime) -> Result<(), Fail> {
    try_calls_by_two(&rt, rt.alloc(), 8, 9)
}

// The first replies are one call each, and so is that to `save`, before which nothing is saved.
#[test]
fn a_failed_call_of_the_sink_ends_the_script(rt: HostRuntime) -> Result<(), Fail> {
    let alloc = rt.alloc();
    let words = words_of(alloc, &["replay"])?;
    let script = make_script(alloc)?;
    for call in [0, 1, 2, 3, 4, 5, 6, 7, 8, 9, 62, 63, 66, 69, 70, 71, 80] {
        let mut source = source_of(alloc, &script.input, &[])?;
        let mut sink = MemSink::new(alloc, OUTPUT, Vec::from_slice(alloc, &[call])?)?;
        let mut rack = rack_of(alloc, &[])?;
        let status = run(alloc, &words, &mut source, &mut sink, &mut rack);
        assert_eq!(rt; status, Status::WriteFault, "call {call}");
        assert!(rt; script.whole.starts_with(sink.taken()), "call {call}");
        if call < 63 {
            assert_eq!(rt; sink.taken().len() as u64, 3 * call);
        }
        let (status, text) = run_over(alloc, "status", b"", &mut rack)?;
        let saved = status == Status::Done;
        assert!(rt; saved == (call > 69), "call {call}");
        let told = if saved {
            tells_saved(alloc, &text, false)?
        } else {
            text.as_slice() == b"nostate\n".as_slice()
        };
        assert!(rt; told, "call {call}");
    }
    Ok(())
}
