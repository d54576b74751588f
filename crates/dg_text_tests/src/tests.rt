ghost use Rattle.std.specs.Prelude.{◌≡◌, ◌++◌, ℕ, List, codes, OnOk};
ghost use Rattle.std.specs.List.{concat};
ghost use Rattle.dg_io.specs.Told.{Told, Took};
ghost use Rattle.dg_model.specs.Lists.{AreLines};
ghost use Rattle.dg_text.specs.Replies.{file_text};
ghost use Rattle.dg_text.specs.HexLines.{last_line};

use dg_io::{MemSink, Pieces, Sink};
use dg_model::{
    Bytes, Failed, Finding, Findings, ListedEntries, ListedEntry, LostPath, LostPaths, Numbers,
    Reply,
};
use dg_text::{
    BadLine, Form, HexLines, Lines, LostLines, Raw, write_data, write_refusal, write_reply,
};
use std::alloc::{AllocError, Global};
use std::test::Fail;
use ufs_model::{BadKind, BadSuper, Kind};
use ufs_path::{Listing, PathList};

// The line of one byte.
fn line_of(alloc: Global, byte: u8) -> Result<Bytes, AllocError> {
    let mut line = Vec::new(alloc);
    line.push(byte)?;
    Ok(Bytes::new(line))
}

// A file of two lines.
fn two_lines(alloc: Global, first: u8, second: u8) -> Result<dg_model::Lines, AllocError> {
    let mut lines = Vec::new(alloc);
    lines.push(line_of(alloc, first)?)?;
    lines.push(line_of(alloc, second)?)?;
    Ok(dg_model::Lines::new(lines))
}

// An entry of the directory that is listed.
fn entry_of(
    alloc: Global,
    inode: u32,
    kind: Kind,
    size: u64,
    name: &[u8],
) -> Result<ListedEntry, AllocError> {
    let bytes = Bytes::new(Vec::from_slice(alloc, name)?);
    Ok(ListedEntry::new(1, inode, kind, size, bytes))
}

// A directory `/d` with a file b, listed.
fn three_entries(alloc: Global) -> Result<ListedEntries, AllocError> {
    let mut entries = Vec::new(alloc);
    entries.push(entry_of(alloc, 4, Kind::Directory, 512, b".")?)?;
    entries.push(entry_of(alloc, 2, Kind::Directory, 512, b"..")?)?;
    entries.push(entry_of(alloc, 5, Kind::Regular, 53248, b"b")?)?;
    Ok(ListedEntries::new(entries))
}

// One entry, whose name has bytes that don't stand for themselves.
fn one_entry(alloc: Global) -> Result<ListedEntries, AllocError> {
    let mut entries = Vec::new(alloc);
    entries.push(entry_of(alloc, 6, Kind::Link, 3, b"x y\x80\\")?)?;
    Ok(ListedEntries::new(entries))
}

// The program writes such replies line by line, as they are found.
#[test]
fn replies_of_several_lines_are_written(rt: HostRuntime) -> Result<(), Fail> {
    let alloc = rt.alloc();
    let mut sink = MemSink::new(alloc, 512, Vec::new(alloc))?;
    let nothing = dg_model::Lines::new(Vec::new(alloc));
    write_reply(&mut sink, &Reply::Cut(nothing))?;
    write_reply(&mut sink, &Reply::Given(two_lines(alloc, b'h', b'i')?))?;
    write_reply(&mut sink, &Reply::Listed(three_entries(alloc)?))?;
    write_reply(&mut sink, &Reply::ListedCut(one_entry(alloc)?))?;
    write_reply(&mut sink, &Reply::Nodes(one_entry(alloc)?))?;
    write_reply(&mut sink, &Reply::NodesCut(one_entry(alloc)?))?;
    let mut blocks = Vec::new(alloc);
    blocks.push(3)?;
    blocks.push(10)?;
    write_reply(&mut sink, &Reply::Blocks(Numbers::new(blocks)))?;
    let text =
        b"cut 0\nbytes 68\nbytes 69\nend 2\nentry 4 d 512 .\nentry 2 d 512 ..\nentry 5 r 53248 b\nend 3\n\
          entry 6 l 3 x\\x20y\\x80\\x5c\ncut 1\nnode 1 6 l 3 x\\x20y\\x80\\x5c\nend 1\n\
          node 1 6 l 3 x\\x20y\\x80\\x5c\ncut 1\nblock 3\nblock 10\nend 2\n";
    assert!(rt; sink.taken() == text.as_slice());
    Ok(())
}

// A file that lost blocks.
fn lost_file(alloc: Global, inode: u32, path: &[u8]) -> Result<LostPath, AllocError> {
    let bytes = Bytes::new(Vec::from_slice(alloc, path)?);
    Ok(LostPath::new(inode, bytes))
}

// Two such files, of which one has bytes in its path that don't stand for themselves.
fn two_lost(alloc: Global) -> Result<LostPaths, AllocError> {
    let mut files = Vec::new(alloc);
    files.push(lost_file(alloc, 5, b"/d/b")?)?;
    files.push(lost_file(alloc, 4294967295, b"/x y/\x80\\")?)?;
    Ok(LostPaths::new(files))
}

// An audit that found two malformations, and something of each other kind.
fn four_findings(alloc: Global) -> Result<Findings, AllocError> {
    let mut findings = Vec::new(alloc);
    findings.push(Finding::Bad(BadKind::Super(BadSuper::Layout), 0))?;
    findings.push(Finding::Bad(BadKind::GroupMagic, 4294967295))?;
    findings.push(Finding::Unnamed(7))?;
    findings.push(Finding::Unclaimed(96))?;
    Ok(Findings::new(findings))
}

// What is said of boundaries that are taken out of use, of the files that lost blocks so, of an audit, and of disks under parity.
#[test]
fn replies_about_losses_are_written(rt: HostRuntime) -> Result<(), Fail> {
    let alloc = rt.alloc();
    let mut sink = MemSink::new(alloc, 512, Vec::new(alloc))?;
    write_reply(&mut sink, &Reply::NotSaved)?;
    write_reply(&mut sink, &Reply::Whole)?;
    write_reply(&mut sink, &Reply::TooFew)?;
    write_reply(&mut sink, &Reply::Regrouped(2, 17))?;
    write_reply(&mut sink, &Reply::NotParity)?;
    write_reply(&mut sink, &Reply::Mended(12))?;
    let nothing = LostPaths::new(Vec::new(alloc));
    write_reply(&mut sink, &Reply::LostFiles(nothing))?;
    write_reply(&mut sink, &Reply::LostFiles(two_lost(alloc)?))?;
    write_reply(&mut sink, &Reply::LostFilesCut(two_lost(alloc)?))?;
    write_reply(&mut sink, &Reply::Audited(four_findings(alloc)?))?;
    let text = b"not saved\nwhole\ntoo few\nregrouped 2 17\nnot parity\nmended 12\nend 0\n\
          lost 5 /d/b\nlost 4294967295 /x\\x20y/\\x80\\x5c\nend 2\n\
          lost 5 /d/b\nlost 4294967295 /x\\x20y/\\x80\\x5c\ncut 2\n\
          bad layout 0\nbad groupmagic 4294967295\nnote unnamed 7\nnote unclaimed 96\nend 4\n";
    assert!(rt; sink.taken() == text.as_slice());
    Ok(())
}

// Bytes that are all alike.
fn alike(alloc: Global, n: usize) -> Result<Bytes, AllocError> {
    let mut bytes = Vec::new(alloc);
    for _ in 0..n {
        bytes.push(b'a')?;
    }
    Ok(Bytes::new(bytes))
}

// No block has so many bytes, no directory such a name, and no event such a path.
#[test]
fn long_lines_are_written_whole(rt: HostRuntime) -> Result<(), Fail> {
    let alloc = rt.alloc();
    let mut sink = MemSink::new(alloc, 16384, Vec::new(alloc))?;
    write_reply(&mut sink, &Reply::Data(alike(alloc, 4097)?))?;
    let mut entries = Vec::new(alloc);
    entries.push(ListedEntry::new(1, 6, Kind::Link, 3, alike(alloc, 256)?))?;
    write_reply(&mut sink, &Reply::Listed(ListedEntries::new(entries)))?;
    let mut files = Vec::new(alloc);
    files.push(LostPath::new(6, alike(alloc, 1024)?))?;
    write_reply(&mut sink, &Reply::LostFiles(LostPaths::new(files)))?;
    let text = sink.taken();
    assert!(rt; text.len() == 5 + 2 * 4097 + 1 + 12 + 256 + 1 + 6 + 7 + 1024 + 1 + 6);
    assert!(rt; text.starts_with(b"data 6161"));
    assert!(rt; text.ends_with(b"aaa\nend 1\n"));
    Ok(())
}

// A listing of entries with such names.
fn entries_with(alloc: Global, sizes: &[usize]) -> Result<ListedEntries, AllocError> {
    let mut entries = Vec::new(alloc);
    for n in sizes {
        entries.push(ListedEntry::new(1, 6, Kind::Link, 3, alike(alloc, *n)?))?;
    }
    Ok(ListedEntries::new(entries))
}

// Twelve calls write these replies, so the next one, number 12 from 0, fails. Only the bytes that are more than those of a
// block take two calls.
#[test]
fn each_line_is_one_call(rt: HostRuntime) -> Result<(), Fail> {
    let alloc = rt.alloc();
    let mut sink = MemSink::new(alloc, 32768, Vec::from_slice(alloc, &[12])?)?;
    write_reply(
        &mut sink,
        &Reply::Listed(entries_with(alloc, &[255, 1, 255])?),
    )?;
    write_reply(&mut sink, &Reply::Data(alike(alloc, 4096)?))?;
    write_reply(&mut sink, &Reply::LostFiles(two_lost(alloc)?))?;
    write_reply(&mut sink, &Reply::Data(alike(alloc, 4097)?))?;
    write_reply(&mut sink, &Reply::NodesCut(entries_with(alloc, &[])?))?;
    write_reply(&mut sink, &Reply::HomeAt(1, Some(2)))?;
    let written = sink.taken().len();
    assert_eq!(rt; write_reply(&mut sink, &Reply::Done), Err(Failed));
    assert!(rt; sink.taken().len() == written);
    Ok(())
}

// Hands on the same entries, one by one.
fn hand_three<L: Listing>(listing: &mut L) -> Result<(), Failed> {
    listing.line(1, 4, Kind::Directory, 512, b".")?;
    listing.line(1, 2, Kind::Directory, 512, b"..")?;
    listing.line(1, 5, Kind::Regular, 53248, b"b")
}

// Hands on two pieces.
fn hand_two<P: Pieces>(pieces: &mut P, first: &[u8], second: &[u8]) -> Result<(), Failed> {
    pieces.piece(first)?;
    pieces.piece(second)
}

#[test]
fn raw_bytes_are_written_as_they_are(rt: HostRuntime) -> Result<(), Fail> {
    let alloc = rt.alloc();
    let mut sink = MemSink::new(alloc, 16, Vec::from_slice(alloc, &[2])?)?;
    let mut raw = Raw::new(&mut sink);
    hand_two(&mut raw, b"hello\n", b"")?;
    assert_eq!(rt; hand_two(&mut raw, b"\x00\xff", b"more"), Err(Failed));
    assert!(rt; sink.taken() == b"hello\n\x00\xff".as_slice());
    Ok(())
}

#[test]
fn a_cut_listing_is_written(rt: HostRuntime) -> Result<(), Fail> {
    let alloc = rt.alloc();
    let mut sink = MemSink::new(alloc, 256, Vec::new(alloc))?;
    let mut lines = Lines::new(&mut sink, Form::Volume);
    lines.line(2, 4294967295, Kind::Socket, u64::MAX, b"\xff")?;
    lines.cut(1)?;
    let text = b"node 2 4294967295 s 18446744073709551615 \\xff\ncut 1\n";
    assert!(rt; sink.taken() == text.as_slice());
    Ok(())
}

// Hands on the paths of two files that lost blocks, one by one.
fn hand_lost<L: PathList>(list: &mut L) -> Result<(), Failed> {
    list.line(5, b"/d/b")?;
    list.line(4294967295, b"/x y/\x80\\")
}

#[test]
fn lost_files_are_written_one_by_one(rt: HostRuntime) -> Result<(), Fail> {
    let alloc = rt.alloc();
    let mut sink = MemSink::new(alloc, 256, Vec::new(alloc))?;
    let mut lines = LostLines::new(&mut sink);
    hand_lost(&mut lines)?;
    lines.end(2)?;
    let text = b"lost 5 /d/b\nlost 4294967295 /x\\x20y/\\x80\\x5c\nend 2\n";
    assert!(rt; sink.taken() == text.as_slice());
    Ok(())
}

#[test]
fn a_cut_list_of_lost_files_is_written(rt: HostRuntime) -> Result<(), Fail> {
    let alloc = rt.alloc();
    let mut sink = MemSink::new(alloc, 256, Vec::new(alloc))?;
    let mut lines = LostLines::new(&mut sink);
    lines.line(7, b"/f")?;
    lines.cut(1)?;
    assert!(rt; sink.taken() == b"lost 7 /f\ncut 1\n".as_slice());
    Ok(())
}

#[test]
fn a_line_of_a_lost_file_may_fail(rt: HostRuntime) -> Result<(), Fail> {
    let alloc = rt.alloc();
    let mut sink = MemSink::new(alloc, 256, Vec::from_slice(alloc, &[1])?)?;
    let mut lines = LostLines::new(&mut sink);
    assert_eq!(rt; hand_lost(&mut lines), Err(Failed));
    assert!(rt; sink.taken() == b"lost 5 /d/b\n".as_slice());
    Ok(())
}

// A sink that takes at most eight bytes a call.
#[derive(Drop)]
struct NarrowSink {
    inner: MemSink,
}

impl Sink for NarrowSink {
    ghost use Rattle.std.specs.Prelude.{Some};
    ghost use Rattle.dg_io.specs.Sinks.{taken_in, sink_faults, sink_calls};

    ghost taken = { λ s. Some (taken_in s.inner) };

    ghost faults = { λ s. sink_faults s.inner };

    ghost calls = { λ s. sink_calls s.inner };

    ghost whole = { λ _. ⊥ };

    fn write(&mut self, piece: &[u8]) -> Result<usize, Failed> {
        let (front, _) = piece.split_at(piece.len().min(8));
        self.inner.write(front)
    }
}

#[test]
fn a_line_of_an_entry_may_fail_in_the_middle(rt: HostRuntime) -> Result<(), Fail> {
    let alloc = rt.alloc();
    let inner = MemSink::new(alloc, 256, Vec::from_slice(alloc, &[4])?)?;
    let mut sink = NarrowSink { inner };
    let mut lines = Lines::new(&mut sink, Form::Directory);
    assert_eq!(rt; hand_three(&mut lines), Err(Failed));
    assert!(rt; sink.inner.taken() == b"entry 4 d 512 .\nentry 2 d 512 ..".as_slice());
    Ok(())
}

// Writes two pieces as the lines of a file.
fn write_pieces<K: Sink>(sink: &mut K, first: &[u8], second: &[u8], n: u32) -> Result<(), Failed>
    ensures { OnOk result ((lines : List (List ℕ)) × AreLines 4 lines × (concat lines ≡ first.now ++ second.now)
        × Told (Took (file_text lines ++ last_line (codes "end ") n)) (K.taken sink.old) (K.taken sink.new)) }
{
    let mut lines = HexLines::new(&mut *sink, 4);
    lines.piece(first)?;
    lines.piece(second)?;
    lines.end(n)
}

#[test]
fn a_file_is_written_in_lines(rt: HostRuntime) -> Result<(), Fail> {
    let alloc = rt.alloc();
    let mut sink = MemSink::new(alloc, 256, Vec::new(alloc))?;
    write_pieces(&mut sink, b"hello", b"world", 10)?;
    write_pieces(&mut sink, b"", b"", 0)?;
    let mut lines = HexLines::new(&mut sink, 4);
    lines.piece(b"hello")?;
    lines.piece(b"wor")?;
    lines.piece(b"ld")?;
    lines.cut(10)?;
    let text =
        b"bytes 68656c6c\nbytes 6f776f72\nbytes 6c64\nend 10\nend 0\nbytes 68656c6c\nbytes 6f776f72\nbytes 6c64\ncut 10\n";
    assert!(rt; sink.taken() == text.as_slice());
    Ok(())
}

#[test]
fn a_line_of_a_file_may_fail(rt: HostRuntime) -> Result<(), Fail> {
    let alloc = rt.alloc();
    let mut sink = MemSink::new(alloc, 256, Vec::from_slice(alloc, &[1])?)?;
    let mut lines = HexLines::new(&mut sink, 4);
    lines.piece(b"hello")?;
    assert_eq!(rt; lines.piece(b"world"), Err(Failed));
    assert!(rt; sink.taken() == b"bytes 68656c6c\n".as_slice());
    Ok(())
}

#[test]
fn a_reply_is_one_call_which_may_fail(rt: HostRuntime) -> Result<(), Fail> {
    let alloc = rt.alloc();
    let mut sink = MemSink::new(alloc, 256, Vec::from_slice(alloc, &[1])?)?;
    write_data(&mut sink, b"hi")?;
    assert_eq!(rt; write_refusal(&mut sink, 3, BadLine::Form), Err(Failed));
    write_refusal(&mut sink, u64::MAX, BadLine::Word)?;
    write_reply(&mut sink, &Reply::Saved(u64::MAX))?;
    let text = b"data 6869\nline 18446744073709551615 word\nsaved 18446744073709551615\n";
    assert!(rt; sink.taken() == text.as_slice());
    Ok(())
}
