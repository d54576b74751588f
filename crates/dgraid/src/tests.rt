use crate::files::Purpose;
use crate::images::ImageRack;
use crate::inputs::StandardInput;
use crate::outputs::StandardOutput;
use crate::searches::Search;
use dg_io::{Failed, Rack, Sink, Source};
use std::fs;
use std::test::Fail;

// One run has the folder at a time, so all that is said of image files goes in turn.
#[test]
fn image_files_serve(rt: HostRuntime) -> Result<(), Fail> {
    let search = Search::new();
    let mut rack = ImageRack::new(rt, Purpose::Write, &search)?;
    let mut bytes = [b'-'; 4];
    assert_eq!(rt; rack.read(31, 0, &mut bytes), Err(Failed), "not blanked");
    rack.blank(31, 8)?;
    rack.write(31, 3, b"hi")?;
    rack.read(31, 2, &mut bytes)?;
    assert_eq!(rt; bytes, *b"\0hi\0");
    assert_eq!(rt; rack.read(31, 5, &mut bytes), Err(Failed), "past the end");
    assert_eq!(rt; rack.blank(32, 8), Err(Failed), "no such member");
    rack.extend(31, 9)?;
    let all = fs::read(&rt, "member-15-1.img")?;
    let mut second = ImageRack::new(rt, Purpose::Write, &search)?;
    assert_eq!(rt; second.attach(31), Err(Failed), "in use");
    drop(rack);
    assert_eq!(rt; second.attach(31), Err(Failed), "asked for once");
    let mut other = ImageRack::new(rt, Purpose::Write, &search)?;
    assert_eq!(rt; other.attach(31), Ok(Some(9)));
    other.read(31, 2, &mut bytes)?;
    assert_eq!(rt; bytes, *b"\0hi\0");
    other.blank(31, 4)?;
    drop(other);
    let mut last = ImageRack::new(rt, Purpose::Write, &search)?;
    last.blank(30, 4)?;
    assert_eq!(rt; last.attach(31), Ok(None), "set aside");
    let aside = fs::read(&rt, "member-15-1.img.old")?;
    fs::remove_file(&rt, "member-15-1.img.old")?;
    fs::remove_file(&rt, "member-15-0.img")?;
    assert_eq!(rt; all.as_slice(), b"\0\0\0hi\0\0\0\0".as_slice());
    assert_eq!(rt; aside.as_slice(), b"\0\0\0\0".as_slice());
    assert_eq!(rt; last.attach(32), Ok(None));
    drop(last);
    // A run that reads completes no header.
    let mut rack = ImageRack::new(rt, Purpose::Write, &search)?;
    rack.blank(29, 1024)?;
    drop(rack);
    let mut rack = ImageRack::new(rt, Purpose::Read, &search)?;
    assert_eq!(rt; rack.attach(29), Ok(Some(1024)));
    assert_eq!(rt; rack.write(29, 512, b"DGRAID-S"), Ok(()));
    assert_eq!(rt; rack.write(29, 512, b"a slot"), Err(Failed));
    drop(rack);
    let all = fs::read(&rt, "member-14-1.img")?;
    fs::remove_file(&rt, "member-14-1.img")?;
    assert_eq!(rt; all.as_slice(), [0; 1024].as_slice());
    Ok(())
}

// The program's stored run reads and writes more.
#[test]
fn standard_streams_are_called(rt: HostRuntime) -> Result<(), Fail> {
    assert_eq!(rt; StandardInput::new(rt).read(&mut []), Ok(0));
    let search = Search::new();
    let mut sink = StandardOutput::new(rt, &search);
    assert_eq!(rt; sink.write(b""), Ok(0));
    assert_eq!(rt; sink.write(b"ok\n"), Ok(3));
    Ok(())
}
