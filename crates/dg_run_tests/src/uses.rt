// The runs of a client that concludes from the clauses of `run` what they print.
use crate::tests::{rack_of, sink_of, source_of, words_of};
use dg_run::Status;
use dg_uses::{
    audit_a_blank_array, fail_at_the_first_reply, fail_at_the_second_read, find_no_array,
    keep_what_was_written, lose_a_block, read_past_a_failure, read_what_was_written,
    refuse_an_empty_image, refuse_behind_safe, refuse_the_second_line, save_and_resume,
};
use std::test::Fail;

#[test]
fn a_written_block_is_read(rt: HostRuntime) -> Result<(), Fail> {
    let end = read_what_was_written(rt.alloc())?;
    assert_eq!(rt; end.status, Status::Done);
    assert!(rt; end.sink.taken() == "ok\nok\ndata 6869\n".as_bytes());
    Ok(())
}

#[test]
fn a_block_is_read_past_a_failure(rt: HostRuntime) -> Result<(), Fail> {
    let end = read_past_a_failure(rt.alloc())?;
    assert_eq!(rt; end.status, Status::Done);
    assert!(rt; end.sink.taken() == "ok\nok\nok\nok\ndata bb\n".as_bytes());
    Ok(())
}

#[test]
fn a_block_is_lost(rt: HostRuntime) -> Result<(), Fail> {
    let end = lose_a_block(rt.alloc())?;
    assert_eq!(rt; end.status, Status::Done);
    assert!(rt; end.sink.taken() == "ok\nok\nok\nok\nunavailable\ndegraded\n".as_bytes());
    Ok(())
}

#[test]
fn a_blank_array_is_audited(rt: HostRuntime) -> Result<(), Fail> {
    let end = audit_a_blank_array(rt.alloc())?;
    assert_eq!(rt; end.status, Status::Done);
    assert!(rt; end.sink.taken() == "ok\nbad magic 0\nend 1\n".as_bytes());
    Ok(())
}

#[test]
fn a_second_line_is_refused(rt: HostRuntime) -> Result<(), Fail> {
    let end = refuse_the_second_line(rt.alloc())?;
    assert_eq!(rt; end.status, Status::BadLine);
    assert!(rt; end.sink.taken() == "ok\nline 2 word\n".as_bytes());
    Ok(())
}

#[test]
fn a_line_behind_safe_is_refused(rt: HostRuntime) -> Result<(), Fail> {
    let end = refuse_behind_safe(rt.alloc())?;
    assert_eq!(rt; end.status, Status::BadLine);
    assert!(rt; end.sink.taken() == "ok\nline 2 word\n".as_bytes());
    Ok(())
}

#[test]
fn a_written_block_is_kept(rt: HostRuntime) -> Result<(), Fail> {
    let end = keep_what_was_written(rt.alloc())?;
    assert_eq!(rt; end.status, Status::Done);
    assert!(rt; end.sink.taken() == "ok\nok\nsaved 1\n".as_bytes());
    Ok(())
}

#[test]
fn a_sink_fails_at_the_first_reply(rt: HostRuntime) -> Result<(), Fail> {
    let end = fail_at_the_first_reply(rt.alloc())?;
    assert_eq!(rt; end.status, Status::WriteFault);
    assert!(rt; end.sink.taken().is_empty());
    Ok(())
}

#[test]
fn a_source_fails_at_the_second_read(rt: HostRuntime) -> Result<(), Fail> {
    let end = fail_at_the_second_read(rt.alloc())?;
    assert_eq!(rt; end.status, Status::ReadFault);
    assert!(rt; end.sink.taken() == "ok\nok\ndata 6869\n".as_bytes());
    Ok(())
}

#[test]
fn a_saved_block_is_read(rt: HostRuntime) -> Result<(), Fail> {
    let alloc = rt.alloc();
    let replay = words_of(alloc, &["replay"])?;
    let mut source = source_of(alloc, b"array 1024 64 4 32 2\nwrite 3 6869\nsave\n", &[])?;
    let mut sink = sink_of(alloc, &[])?;
    let resume = words_of(alloc, &["resume"])?;
    let mut more = source_of(alloc, b"read 3\n", &[])?;
    let mut text = sink_of(alloc, &[])?;
    let mut rack = rack_of(alloc, &[])?;
    let (saved, resumed) = save_and_resume(
        alloc,
        &replay,
        &mut source,
        &mut sink,
        &resume,
        &mut more,
        &mut text,
        &mut rack,
    );
    assert_eq!(rt; saved, Status::Done);
    assert_eq!(rt; resumed, Status::Done);
    assert!(rt; sink.taken() == "ok\nok\nsaved 1\n".as_bytes());
    assert!(rt; text.taken() == "data 6869\n".as_bytes());
    Ok(())
}

#[test]
fn an_empty_image_is_refused(rt: HostRuntime) -> Result<(), Fail> {
    let end = refuse_an_empty_image(rt.alloc())?;
    assert_eq!(rt; end.status, Status::Refused);
    assert!(rt; end.sink.taken() == Some("bad length\n".as_bytes()));
    Ok(())
}

#[test]
fn there_is_no_array(rt: HostRuntime) -> Result<(), Fail> {
    let end = find_no_array(rt.alloc())?;
    assert_eq!(rt; end.status, Status::NoState);
    assert!(rt; end.sink.taken() == Some("nostate\n".as_bytes()));
    Ok(())
}
