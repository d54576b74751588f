use dg_io::{
    Checkpoint, Disks, DropAnswer, Failed, MemRack, MemSink, MemSource, MendAnswer, Rack, Sink,
    Source, SureRack, SureSink, SureSource, write_all,
};
use std::test::Fail;

// Reads three bytes at most.
fn read_three<S: Source>(source: &mut S) -> Result<(usize, [u8; 3]), Failed> {
    let mut bytes = [b'-'; 3];
    let n = source.read(&mut bytes)?;
    Ok((n, bytes))
}

#[test]
fn sources_give_their_bytes(rt: HostRuntime) -> Result<(), Fail> {
    let alloc = rt.alloc();
    let mut source = MemSource::new(
        Vec::from_slice(alloc, b"hello")?,
        Vec::from_slice(alloc, &[1])?,
    );
    assert_eq!(rt; read_three(&mut source), Ok((3, *b"hel")));
    assert_eq!(rt; read_three(&mut source), Err(Failed));
    assert_eq!(rt; read_three(&mut &mut source), Ok((2, *b"lo-")));
    assert_eq!(rt; read_three(&mut source), Ok((0, *b"---")));

    let mut source = SureSource::new(Vec::from_slice(alloc, b"hi")?);
    assert_eq!(rt; read_three(&mut source), Ok((2, *b"hi-")));
    assert_eq!(rt; read_three(&mut source), Ok((0, *b"---")));
    Ok(())
}

#[test]
fn sinks_take_bytes_while_they_have_room(rt: HostRuntime) -> Result<(), Fail> {
    let alloc = rt.alloc();
    let mut sink = MemSink::new(alloc, 8, Vec::from_slice(alloc, &[1])?)?;
    write_all(&mut sink, b"hello")?;
    assert_eq!(rt; write_all(&mut sink, b"hi"), Err(Failed));
    write_all(&mut &mut sink, b"hi")?;
    assert_eq!(rt; write_all(&mut sink, b"hi"), Err(Failed));
    write_all(&mut sink, b"")?;
    assert!(rt; sink.taken() == b"hellohi".as_slice());

    let mut sink = SureSink::new(alloc, 4)?;
    assert_eq!(rt; sink.write(b"hi"), Ok(2));
    assert!(rt; sink.taken().is_some_and(|taken| taken == b"hi".as_slice()));
    assert_eq!(rt; sink.write(b"hello"), Ok(5));
    assert!(rt; sink.taken().is_none());
    Ok(())
}

// Blanks a member of eight bytes, writes two at place 3, and reads four from place 2 on.
fn write_and_read<R: Rack>(rack: &mut R, member: u8) -> Result<[u8; 4], Failed> {
    let mut bytes = [b'-'; 4];
    rack.blank(member, 8)?;
    rack.write(member, 3, b"hi")?;
    rack.read(member, 2, &mut bytes)?;
    Ok(bytes)
}

#[test]
fn racks_keep_bytes(rt: HostRuntime) -> Result<(), Fail> {
    let alloc = rt.alloc();
    let mut rack = MemRack::new(alloc, 2, 8, Vec::from_slice(alloc, &[3, 5])?)?;
    assert_eq!(rt; write_and_read(&mut rack, 0), Ok(*b"\0hi\0"));
    assert_eq!(rt; write_and_read(&mut rack, 0), Err(Failed));
    assert_eq!(rt; write_and_read(&mut rack, 1), Err(Failed));
    assert_eq!(rt; write_and_read(&mut &mut rack, 1), Ok(*b"\0hi\0"));
    assert_eq!(rt; rack.blank(1, 9), Err(Failed));
    assert_eq!(rt; rack.blank(2, 8), Err(Failed));

    let mut rack = SureRack::new(alloc, 2, 8)?;
    assert_eq!(rt; write_and_read(&mut rack, 1), Ok(*b"\0hi\0"));
    assert_eq!(rt; rack.blank(1, 9), Ok(()));
    Ok(())
}

// Makes a member of three bytes, writes them, makes it five bytes long, and reads the last four.
fn extend_and_read<R: Rack>(rack: &mut R, member: u8) -> Result<[u8; 4], Failed> {
    let mut bytes = [b'-'; 4];
    rack.blank(member, 3)?;
    rack.write(member, 0, b"all")?;
    rack.extend(member, 5)?;
    rack.read(member, 1, &mut bytes)?;
    Ok(bytes)
}

#[test]
fn members_are_made_longer(rt: HostRuntime) -> Result<(), Fail> {
    let alloc = rt.alloc();
    let mut rack = MemRack::new(alloc, 1, 5, Vec::from_slice(alloc, &[6])?)?;
    assert_eq!(rt; extend_and_read(&mut &mut rack, 0), Ok(*b"ll\0\0"));
    assert_eq!(rt; rack.attach(0), Ok(Some(5)));
    assert_eq!(rt; extend_and_read(&mut rack, 0), Err(Failed));
    assert_eq!(rt; extend_and_read(&mut rack, 1), Err(Failed));

    let mut rack = MemRack::new(alloc, 1, 4, Vec::new(alloc))?;
    assert_eq!(rt; extend_and_read(&mut rack, 0), Err(Failed));
    assert_eq!(rt; rack.attach(0), Ok(Some(3)));

    let mut rack = SureRack::new(alloc, 1, 5)?;
    assert_eq!(rt; extend_and_read(&mut rack, 0), Ok(*b"ll\0\0"));
    assert_eq!(rt; rack.attach(0), Ok(Some(5)));
    assert_eq!(rt; rack.attach(1), Ok(None));
    Ok(())
}

// A member that was taken away is found again once it is made anew.
#[test]
fn members_are_taken_away(rt: HostRuntime) -> Result<(), Fail> {
    let alloc = rt.alloc();
    let mut rack = MemRack::new(alloc, 2, 8, Vec::from_slice(alloc, &[1, 2, 9])?)?;
    assert_eq!(rt; rack.attach(1), Ok(Some(0)));
    assert_eq!(rt; rack.attach(1), Err(Failed));
    rack.mend();
    assert_eq!(rt; rack.attach(2), Ok(None));
    rack.remove(1);
    rack.remove(2);
    assert_eq!(rt; rack.attach(1), Ok(None));
    assert_eq!(rt; rack.read(1, 0, &mut []), Err(Failed));
    assert_eq!(rt; rack.write(1, 0, b""), Err(Failed));
    assert_eq!(rt; rack.extend(1, 8), Err(Failed));
    assert_eq!(rt; rack.attach(0), Ok(Some(0)));
    assert_eq!(rt; rack.blank(1, 8), Ok(()));
    assert_eq!(rt; rack.attach(1), Ok(Some(8)));
    Ok(())
}

#[test]
fn empty_writes_are_counted(rt: HostRuntime) -> Result<(), Fail> {
    let alloc = rt.alloc();
    let mut sink = MemSink::new(alloc, 2, Vec::from_slice(alloc, &[1])?)?;
    assert_eq!(rt; sink.write(b""), Ok(0));
    assert_eq!(rt; sink.write(b""), Err(Failed));
    assert_eq!(rt; sink.write(b"hi"), Ok(2));
    assert_eq!(rt; sink.write(b"!"), Err(Failed));
    assert_eq!(rt; sink.write(b""), Ok(0));
    Ok(())
}

// A plain rack keeps no checkpoint and has no disks, also one that is lent.
#[test]
fn plain_racks_say_so(rt: HostRuntime) -> Result<(), Fail> {
    let alloc = rt.alloc();
    let mut rack = MemRack::new(alloc, 2, 8, Vec::new(alloc))?;
    assert_eq!(rt; (rack.room(), rack.disks()), (None, None));
    assert_eq!(rt; rack.drop_disk(0, 0), DropAnswer::Plain);
    assert_eq!(rt; Disks::mend(&mut &mut rack, 0, 0), MendAnswer::Plain);
    Ok(())
}
