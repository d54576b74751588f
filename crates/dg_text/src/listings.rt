// The lines of a listing. Each line of a name that a directory can have is written by one call, without memory.
ghost use Rattle.std.specs.Prelude.{◌≡◌, ◌≤◌, ◌<◌, ◌+◌, ◌*◌, ◌++◌, ℕ, All, length, take, codes, OnOk, OnErr};
ghost use Rattle.std.specs.Fmt.{decimal};
ghost use Rattle.dg_io.specs.Told.{Told, Took, TookPart};
ghost use Rattle.dg_io.specs.Faults.{HasCause};
ghost use Rattle.dg_io.specs.SinkCalls.{LeavesSink};
ghost use Rattle.std.specs.List.{sum_by};
ghost use Rattle.dg_text.specs.LineCalls.{entry_calls, pieces};
ghost use Rattle.dg_text.specs.Lines.{path_word, spelled_byte};
ghost use Rattle.dg_text.specs.Listings.{front_in, line_in_of, listing_text};
ghost use Rattle.dg_text.specs.Replies.{ended_text, kind_letter};

use crate::counts::write_number;
use crate::path_words::is_plain;
use crate::replies::{put, put_hex};
use dg_io::{Sink, write_all};
use dg_model::{Failed, ListedEntry};
use itoa::Buffer;
use ufs_model::Kind;

// Bytes of an entry's line before its name: the word with a depth of at most 10 digits, an inode's number of at most 10
// digits, a letter and a size of at most 20 digits, each with the space behind it.
const HEAD_ROOM: usize = 5 + 11 + 11 + 2 + 21;

// The longest name (`MAXNAMLEN` of `dir.h`).
const LONGEST_NAME: usize = 255;

// Bytes of the longest line of an entry: those before its name, four for each byte of the name, and the LF.
const ENTRY_ROOM: usize = HEAD_ROOM + 4 * LONGEST_NAME + 1;

/// What is listed.
#[derive(Clone, Copy, Debug, PartialEq, Eq)]
pub enum Form {
    /// A directory.
    Directory,
    /// The whole volume: each line tells its entry's depth.
    Volume,
}

/// Writes the lines of a listing, and the one that ends it.
pub fn write_listing<K: Sink>(
    sink: &mut K,
    form: Form,
    entries: &[ListedEntry],
    word: &[u8],
) -> Result<(), Failed>
    requires word { length word.now ≤ 32 }
    ensures ok { OnOk result (Told (Took (ended_text (listing_text form entries.now) word.now (length entries.now))) (K.taken sink.old) (K.taken sink.new)) }
    ensures err { OnErr result (Told (TookPart (ended_text (listing_text form entries.now) word.now (length entries.now)))
        (K.taken sink.old) (K.taken sink.new)) }
    ensures cause { HasCause (K.faults sink.old) (K.faults sink.new) result }
    ensures calls { LeavesSink K.whole K.calls (sum_by entry_calls entries.now + 1)
        (length (ended_text (listing_text form entries.now) word.now (length entries.now))) sink.old sink.new }
{
    write_entries(sink, form, entries)?;
    write_number(sink, word, entries.len() as u128)
}

// Writes the lines of the entries of a listing.
fn write_entries<K: Sink>(sink: &mut K, form: Form, entries: &[ListedEntry]) -> Result<(), Failed>
    ensures ok { OnOk result (Told (Took (listing_text form entries.now)) (K.taken sink.old) (K.taken sink.new)) }
    ensures err { OnErr result (Told (TookPart (listing_text form entries.now)) (K.taken sink.old) (K.taken sink.new)) }
    ensures cause { HasCause (K.faults sink.old) (K.faults sink.new) result }
    ensures calls { LeavesSink K.whole K.calls (sum_by entry_calls entries.now) (length (listing_text form entries.now)) sink.old sink.new }
{
    for entry in entries {
        write_entry_line(
            sink,
            form,
            entry.depth(),
            entry.inode(),
            entry.kind(),
            entry.size(),
            entry.name(),
        )?;
    }
    Ok(())
}

/// Writes the line of an entry of a listing.
pub fn write_entry_line<K: Sink>(
    sink: &mut K,
    form: Form,
    depth: u32,
    inode: u32,
    kind: Kind,
    size: u64,
    name: &[u8],
) -> Result<(), Failed>
    ensures ok { OnOk result (Told (Took (line_in_of form depth inode kind size name.now)) (K.taken sink.old) (K.taken sink.new)) }
    ensures err { OnErr result (Told (TookPart (line_in_of form depth inode kind size name.now)) (K.taken sink.old) (K.taken sink.new)) }
    ensures cause { HasCause (K.faults sink.old) (K.faults sink.new) result }
    ensures calls { LeavesSink K.whole K.calls (pieces 255 (length name.now)) (length (line_in_of form depth inode kind size name.now)) sink.old sink.new }
{
    let mut line = [0u8; ENTRY_ROOM];
    let head = spell_head(&mut line, form, depth, inode, kind, size);
    write_name(sink, &mut line, head, name, LONGEST_NAME)
}

/// Writes a line that ends in a name, of which the front stands spelled in the room for a line: by one call, or where the
/// name has more than `most` bytes, so many of them a call.
pub fn write_name<K: Sink>(
    sink: &mut K,
    line: &mut [u8],
    front: usize,
    name: &[u8],
    most: usize,
) -> Result<(), Failed>
    requires some { 0 < most }
    requires room { front + 4 * most + 1 ≤ length line.old }
    ensures ok { OnOk result (Told (Took (take front line.old ++ (path_word name.now ++ codes "\n"))) (K.taken sink.old) (K.taken sink.new)) }
    ensures err { OnErr result (Told (TookPart (take front line.old ++ (path_word name.now ++ codes "\n"))) (K.taken sink.old) (K.taken sink.new)) }
    ensures cause { HasCause (K.faults sink.old) (K.faults sink.new) result }
    ensures calls { LeavesSink K.whole K.calls (pieces most (length name.now)) (length (take front line.old ++ (path_word name.now ++ codes "\n")))
        sink.old sink.new }
{
    let mut end = front;
    let mut at = 0;
    while name.len() - at > most {
        let full = put_name(line, end, &name[at..at + most]);
        write_all(sink, &line[..full])?;
        end = 0;
        at += most;
    }
    let named = put_name(line, end, &name[at..]);
    let all = put(line, named, b"\n");
    write_all(sink, &line[..all])
}

// Spells what an entry's line says before the name, and answers where it ends.
fn spell_head(line: &mut [u8], form: Form, depth: u32, inode: u32, kind: Kind, size: u64) -> usize
    requires { 50 ≤ length line.old }
    ensures end { result ≤ 50 }
    ensures text { take result line.new ≡ front_in form depth ++ (decimal inode ++ (codes " " ++ (kind_letter kind ++ (codes " " ++
        (decimal size ++ codes " "))))) }
{
    let word = spell_front(line, form, depth);
    let mut digits = Buffer::new();
    let number = put(line, word, digits.format(inode).as_bytes());
    let space = put(line, number, b" ");
    let letter = put(line, space, letter_of(kind));
    let space = put(line, letter, b" ");
    let bytes = put(line, space, digits.format(size).as_bytes());
    put(line, bytes, b" ")
}

// Spells the word of an entry's line, with the depth where it's told, and answers where it ends.
fn spell_front(line: &mut [u8], form: Form, depth: u32) -> usize
    requires { 16 ≤ length line.old }
    ensures end { result ≤ 16 }
    ensures text { take result line.new ≡ front_in form depth }
{
    match form {
        Form::Directory => put(line, 0, b"entry "),
        Form::Volume => spell_depth(line, depth),
    }
}

// Spells the word of a line that tells its entry's depth, and answers where it ends.
fn spell_depth(line: &mut [u8], depth: u32) -> usize
    requires { 16 ≤ length line.old }
    ensures end { result ≤ 16 }
    ensures text { take result line.new ≡ codes "node " ++ (decimal depth ++ codes " ") }
{
    let mut digits = Buffer::new();
    let word = put(line, 0, b"node ");
    let number = put(line, word, digits.format(depth).as_bytes());
    put(line, number, b" ")
}

/// Puts the spelling of a name at a place of a line, and answers where it ends.
pub fn put_name(line: &mut [u8], at: usize, name: &[u8]) -> usize
    requires { at + 4 * length name.now ≤ length line.old }
    ensures end { result ≤ at + 4 * length name.now }
    ensures text { take result line.new ≡ take at line.old ++ path_word name.now }
{
    let mut end = at;
    for byte in name {
        end = put_byte(line, end, *byte);
    }
    end
}

/// Puts the spelling of a byte of a name at a place of a line, and answers where it ends.
pub fn put_byte(line: &mut [u8], at: usize, byte: u8) -> usize
    requires { at + 4 ≤ length line.old }
    ensures end { result ≤ at + 4 }
    ensures text { take result line.new ≡ take at line.old ++ spelled_byte byte }
{
    if is_plain(byte) {
        return put(line, at, &[byte]);
    }
    let digits = put(line, at, b"\\x");
    put_hex(line, digits, &[byte])
}

// The letter of a kind of file.
fn letter_of(kind: Kind) -> &'static [u8]
    ensures letter { result.now ≡ kind_letter kind }
    ensures one { length result.now ≡ 1 }
{
    match kind {
        Kind::Regular => b"r",
        Kind::Directory => b"d",
        Kind::Link => b"l",
        Kind::Pipe => b"p",
        Kind::Character => b"c",
        Kind::Block => b"b",
        Kind::Socket => b"s",
        Kind::Unknown => b"u",
    }
}
