// Replies. Each line that an array can answer is written by one call, without memory.
ghost use Rattle.std.specs.Prelude.{◌≡◌, ◌≤◌, ◌+◌, ◌*◌, ◌++◌, length, take, codes, OnOk, OnErr};
ghost use Rattle.std.specs.List.{concat, sum_by};
ghost use Rattle.dg_io.specs.Told.{Told, Took, TookPart};
ghost use Rattle.dg_io.specs.Faults.{HasCause};
ghost use Rattle.dg_io.specs.SinkCalls.{LeavesSink};
ghost use Rattle.dg_io.specs.SinkLines.{LeavesLines};
ghost use Rattle.hex.specs.Hex.{encode_lower};
ghost use Rattle.dg_text.specs.HexLines.{last_line};
ghost use Rattle.dg_text.specs.LineCalls.{bytes_calls, calls_of};
ghost use Rattle.dg_text.specs.Replies.{reply_line, refusal, kind_of, usage, block_line, bytes_line, ended_text, file_text, blocks_text};
ghost use Rattle.dg_text.specs.Replies.{super_word, bad_word, refusal_words};

use crate::BadLine;
use crate::audits::write_audit;
use crate::counts::{write_number, write_numbers};
use crate::listings::{Form, write_listing};
use crate::lost_files::write_lost;
use crate::verdicts::{write_home, write_malformation, write_no_room, write_verdict};
use dg_io::{Sink, write_all};
use dg_model::{Bytes, Failed, Reply};
use itoa::Buffer;
use ufs_model::{BadRead, BadSuper, PathRefusal};

// Bytes of a block of the largest kind.
const LARGEST: usize = 4096;

// Bytes of the longest line of such a block: a word of at most 6 bytes, its space among them, two digits for each byte, and
// the LF.
const HEX_ROOM: usize = 6 + 2 * LARGEST + 1;

// Room for the answer to a refused line, whose number has at most 20 digits.
const REFUSAL_ROOM: usize = 64;

/// Writes the line of a reply; of a file, a listing, blocks, lost files or an audit their lines, and the one that ends them.
pub fn write_reply<K: Sink>(sink: &mut K, reply: &Reply) -> Result<(), Failed>
    ensures ok { OnOk result (Told (Took (reply_line reply.now)) (K.taken sink.old) (K.taken sink.new)) }
    ensures err { OnErr result (Told (TookPart (reply_line reply.now)) (K.taken sink.old) (K.taken sink.new)) }
    ensures cause { HasCause (K.faults sink.old) (K.faults sink.new) result }
    ensures calls { LeavesSink K.whole K.calls (calls_of reply.now) (length (reply_line reply.now)) sink.old sink.new }
    ensures lines { OnOk result (LeavesLines 255 K.whole K.calls K.taken sink.old sink.new) }
{
    write_by_kind(sink, reply)
}

// Writes the lines of a reply by its kind.
fn write_by_kind<K: Sink>(sink: &mut K, reply: &Reply) -> Result<(), Failed>
    ensures ok { OnOk result (Told (Took (reply_line reply.now)) (K.taken sink.old) (K.taken sink.new)) }
    ensures err { OnErr result (Told (TookPart (reply_line reply.now)) (K.taken sink.old) (K.taken sink.new)) }
    ensures cause { HasCause (K.faults sink.old) (K.faults sink.new) result }
    ensures calls { LeavesSink K.whole K.calls (calls_of reply.now) (length (reply_line reply.now)) sink.old sink.new }
{
    match reply {
        Reply::Done => write_all(sink, b"ok\n"),
        Reply::Range => write_all(sink, b"range\n"),
        Reply::Degraded => write_all(sink, b"degraded\n"),
        Reply::Unavailable => write_all(sink, b"unavailable\n"),
        Reply::Already => write_all(sink, b"already\n"),
        Reply::Lost(s) => write_number(sink, b"lost ", *s as u128),
        Reply::NotOut => write_all(sink, b"not out\n"),
        Reply::Failed => write_all(sink, b"failed\n"),
        Reply::NotFilling => write_all(sink, b"not filling\n"),
        Reply::Copied(done, left) => write_numbers(sink, b"copied ", *done, b" ", *left),
        Reply::Settled => write_all(sink, b"settled\n"),
        Reply::Malformed(kind, n) => write_malformation(sink, *kind, *n),
        Reply::NoSpace(room) => write_no_room(sink, *room),
        Reply::Tended(met, left) => write_numbers(sink, b"tended ", *met, b" ", *left),
        Reply::Diffused(gained) => write_number(sink, b"diffused ", *gained as u128),
        Reply::NotSettled => write_all(sink, b"not settled\n"),
        Reply::Verdict(who) => write_verdict(sink, *who),
        Reply::Blocks(blocks) => write_blocks(sink, blocks.as_slice()),
        Reply::Data(bytes) => write_data(sink, bytes.as_slice()),
        Reply::Given(lines) => write_file(sink, lines.as_slice(), b"end "),
        Reply::Cut(lines) => write_file(sink, lines.as_slice(), b"cut "),
        Reply::Listed(entries) => {
            write_listing(sink, Form::Directory, entries.as_slice(), b"end ")
        }
        Reply::ListedCut(entries) => {
            write_listing(sink, Form::Directory, entries.as_slice(), b"cut ")
        }
        Reply::Nodes(entries) => write_listing(sink, Form::Volume, entries.as_slice(), b"end "),
        Reply::NodesCut(entries) => write_listing(sink, Form::Volume, entries.as_slice(), b"cut "),
        Reply::Refused(refusal) => write_all(sink, refusal_line(*refusal)),
        Reply::HomeAt(s, copy) => write_home(sink, *s, *copy),
        Reply::NoHome => write_all(sink, b"home none\n"),
        Reply::Saved(sequence) => write_number(sink, b"saved ", *sequence as u128),
        Reply::NotSaved => write_all(sink, b"not saved\n"),
        Reply::Whole => write_all(sink, b"whole\n"),
        Reply::TooFew => write_all(sink, b"too few\n"),
        Reply::Regrouped(gone, cut) => write_numbers(sink, b"regrouped ", *gone, b" ", *cut),
        Reply::LostFiles(files) => write_lost(sink, files.as_slice(), b"end "),
        Reply::LostFilesCut(files) => write_lost(sink, files.as_slice(), b"cut "),
        Reply::Audited(findings) => write_audit(sink, findings.as_slice()),
        Reply::NotParity => write_all(sink, b"not parity\n"),
        Reply::Mended(stripes) => write_number(sink, b"mended ", *stripes as u128),
    }
}

/// Writes the line of the reply that gives these bytes.
pub fn write_data<K: Sink>(sink: &mut K, bytes: &[u8]) -> Result<(), Failed>
    ensures ok { OnOk result (Told (Took (reply_line (Reply.Data bytes.now))) (K.taken sink.old) (K.taken sink.new)) }
    ensures err { OnErr result (Told (TookPart (reply_line (Reply.Data bytes.now))) (K.taken sink.old) (K.taken sink.new)) }
    ensures cause { HasCause (K.faults sink.old) (K.faults sink.new) result }
    ensures calls { LeavesSink K.whole K.calls (calls_of (Reply.Data bytes.now)) (length (reply_line (Reply.Data bytes.now))) sink.old sink.new }
    ensures lines { OnOk result (LeavesLines 255 K.whole K.calls K.taken sink.old sink.new) }
{
    if bytes.is_empty() {
        return write_all(sink, b"data -\n");
    }
    write_hex_line(sink, b"data ", bytes)
}

/// Writes the line of some bytes of a file.
pub fn write_bytes_line<K: Sink>(sink: &mut K, bytes: &[u8]) -> Result<(), Failed>
    ensures ok { OnOk result (Told (Took (bytes_line bytes.now)) (K.taken sink.old) (K.taken sink.new)) }
    ensures err { OnErr result (Told (TookPart (bytes_line bytes.now)) (K.taken sink.old) (K.taken sink.new)) }
    ensures cause { HasCause (K.faults sink.old) (K.faults sink.new) result }
    ensures calls { LeavesSink K.whole K.calls (bytes_calls bytes.now) (length (bytes_line bytes.now)) sink.old sink.new }
{
    write_hex_line(sink, b"bytes ", bytes)
}

// Writes a line of a word of at most 6 bytes and the hex digits of bytes: by one call, or where they are more than a block
// can have, so many of them a call.
fn write_hex_line<K: Sink>(sink: &mut K, word: &[u8], bytes: &[u8]) -> Result<(), Failed>
    requires { length word.now ≤ 6 }
    ensures ok { OnOk result (Told (Took (word.now ++ (encode_lower bytes.now ++ codes "\n"))) (K.taken sink.old) (K.taken sink.new)) }
    ensures err { OnErr result (Told (TookPart (word.now ++ (encode_lower bytes.now ++ codes "\n"))) (K.taken sink.old) (K.taken sink.new)) }
    ensures cause { HasCause (K.faults sink.old) (K.faults sink.new) result }
    ensures calls { LeavesSink K.whole K.calls (bytes_calls bytes.now) (length (word.now ++ (encode_lower bytes.now ++ codes "\n"))) sink.old sink.new }
{
    let mut line = [0u8; HEX_ROOM];
    let front = put(&mut line, 0, word);
    write_digits(sink, &mut line, front, bytes)
}

// Writes a line that ends in the hex digits of bytes, of which the front stands spelled in the room for a line: by one call,
// or where they are more bytes than a block can have, so many of them a call.
fn write_digits<K: Sink>(
    sink: &mut K,
    line: &mut [u8],
    front: usize,
    bytes: &[u8],
) -> Result<(), Failed>
    requires { front + 8193 ≤ length line.old }
    ensures ok { OnOk result (Told (Took (take front line.old ++ (encode_lower bytes.now ++ codes "\n"))) (K.taken sink.old) (K.taken sink.new)) }
    ensures err { OnErr result (Told (TookPart (take front line.old ++ (encode_lower bytes.now ++ codes "\n"))) (K.taken sink.old) (K.taken sink.new)) }
    ensures cause { HasCause (K.faults sink.old) (K.faults sink.new) result }
    ensures calls { LeavesSink K.whole K.calls (bytes_calls bytes.now) (length (take front line.old ++ (encode_lower bytes.now ++ codes "\n")))
        sink.old sink.new }
{
    let mut end = front;
    let mut at = 0;
    while bytes.len() - at > LARGEST {
        let full = put_hex(line, end, &bytes[at..at + LARGEST]);
        write_all(sink, &line[..full])?;
        end = 0;
        at += LARGEST;
    }
    let digits = put_hex(line, end, &bytes[at..]);
    let all = put(line, digits, b"\n");
    write_all(sink, &line[..all])
}

// Writes the lines of a file.
fn write_lines<K: Sink>(sink: &mut K, lines: &[Bytes]) -> Result<(), Failed>
    ensures ok { OnOk result (Told (Took (file_text lines.now)) (K.taken sink.old) (K.taken sink.new)) }
    ensures err { OnErr result (Told (TookPart (file_text lines.now)) (K.taken sink.old) (K.taken sink.new)) }
    ensures cause { HasCause (K.faults sink.old) (K.faults sink.new) result }
    ensures calls { LeavesSink K.whole K.calls (sum_by bytes_calls lines.now) (length (file_text lines.now)) sink.old sink.new }
{
    for line in lines {
        write_bytes_line(sink, line.as_slice())?;
    }
    Ok(())
}

// The bytes of all lines together.
fn bytes_in(lines: &[Bytes]) -> u128
    ensures { result ≡ length (concat lines.now) }
{
    let mut count = 0;
    for line in lines {
        count += line.as_slice().len() as u128;
    }
    count
}

// Writes the lines of a file, and the one that ends it.
fn write_file<K: Sink>(sink: &mut K, lines: &[Bytes], word: &[u8]) -> Result<(), Failed>
    requires word { length word.now ≤ 32 }
    ensures ok { OnOk result (Told (Took (ended_text (file_text lines.now) word.now (length (concat lines.now)))) (K.taken sink.old) (K.taken sink.new)) }
    ensures err { OnErr result (Told (TookPart (ended_text (file_text lines.now) word.now (length (concat lines.now)))) (K.taken sink.old) (K.taken sink.new)) }
    ensures cause { HasCause (K.faults sink.old) (K.faults sink.new) result }
    ensures calls { LeavesSink K.whole K.calls (sum_by bytes_calls lines.now + 1)
        (length (ended_text (file_text lines.now) word.now (length (concat lines.now)))) sink.old sink.new }
{
    write_lines(sink, lines)?;
    write_number(sink, word, bytes_in(lines))
}

// Writes the lines of blocks, and the one that ends them.
fn write_blocks<K: Sink>(sink: &mut K, blocks: &[u32]) -> Result<(), Failed>
    ensures ok { OnOk result (Told (Took (reply_line (Reply.Blocks blocks.now))) (K.taken sink.old) (K.taken sink.new)) }
    ensures err { OnErr result (Told (TookPart (reply_line (Reply.Blocks blocks.now))) (K.taken sink.old) (K.taken sink.new)) }
    ensures cause { HasCause (K.faults sink.old) (K.faults sink.new) result }
    ensures calls { LeavesSink K.whole K.calls (calls_of (Reply.Blocks blocks.now)) (length (reply_line (Reply.Blocks blocks.now))) sink.old sink.new }
{
    write_block_lines(sink, blocks)?;
    write_number(sink, b"end ", blocks.len() as u128)
}

/// Writes the line of a block.
pub fn write_block_line<K: Sink>(sink: &mut K, block: u32) -> Result<(), Failed>
    ensures ok { OnOk result (Told (Took (block_line block)) (K.taken sink.old) (K.taken sink.new)) }
    ensures err { OnErr result (Told (TookPart (block_line block)) (K.taken sink.old) (K.taken sink.new)) }
    ensures cause { HasCause (K.faults sink.old) (K.faults sink.new) result }
    ensures calls { LeavesSink K.whole K.calls 1 (length (block_line block)) sink.old sink.new }
    ensures lines { OnOk result (LeavesLines 255 K.whole K.calls K.taken sink.old sink.new) }
{
    write_number(sink, b"block ", block as u128)
}

/// Writes the line that ends the lines of so many blocks.
pub fn write_blocks_end<K: Sink>(sink: &mut K, count: u32) -> Result<(), Failed>
    ensures ok { OnOk result (Told (Took (last_line (codes "end ") count)) (K.taken sink.old) (K.taken sink.new)) }
    ensures err { OnErr result (Told (TookPart (last_line (codes "end ") count)) (K.taken sink.old) (K.taken sink.new)) }
    ensures cause { HasCause (K.faults sink.old) (K.faults sink.new) result }
    ensures calls { LeavesSink K.whole K.calls 1 (length (last_line (codes "end ") count)) sink.old sink.new }
    ensures lines { OnOk result (LeavesLines 255 K.whole K.calls K.taken sink.old sink.new) }
{
    write_number(sink, b"end ", count as u128)
}

// Writes the lines of blocks.
fn write_block_lines<K: Sink>(sink: &mut K, blocks: &[u32]) -> Result<(), Failed>
    ensures ok { OnOk result (Told (Took (blocks_text blocks.now)) (K.taken sink.old) (K.taken sink.new)) }
    ensures err { OnErr result (Told (TookPart (blocks_text blocks.now)) (K.taken sink.old) (K.taken sink.new)) }
    ensures cause { HasCause (K.faults sink.old) (K.faults sink.new) result }
    ensures calls { LeavesSink K.whole K.calls (length blocks.now) (length (blocks_text blocks.now)) sink.old sink.new }
{
    for block in blocks {
        write_block_line(sink, *block)?;
    }
    Ok(())
}

/// Writes the answer to a refused line. The first line of an input has the number 1.
pub fn write_refusal<K: Sink>(sink: &mut K, number: u64, kind: BadLine) -> Result<(), Failed>
    ensures ok { OnOk result (Told (Took (refusal number kind)) (K.taken sink.old) (K.taken sink.new)) }
    ensures err { OnErr result (Told (TookPart (refusal number kind)) (K.taken sink.old) (K.taken sink.new)) }
    ensures cause { HasCause (K.faults sink.old) (K.faults sink.new) result }
    ensures calls { LeavesSink K.whole K.calls 1 (length (refusal number kind)) sink.old sink.new }
    ensures lines { OnOk result (LeavesLines 255 K.whole K.calls K.taken sink.old sink.new) }
{
    let mut line = [0u8; REFUSAL_ROOM];
    let end = spell_refusal(&mut line, number, kind);
    write_all(sink, &line[..end])
}

/// Writes the answer to words that are no command.
pub fn write_usage<K: Sink>(sink: &mut K) -> Result<(), Failed>
    ensures ok { OnOk result (Told (Took usage) (K.taken sink.old) (K.taken sink.new)) }
    ensures err { OnErr result (Told (TookPart usage) (K.taken sink.old) (K.taken sink.new)) }
    ensures cause { HasCause (K.faults sink.old) (K.faults sink.new) result }
    ensures calls { LeavesSink K.whole K.calls 1 (length usage) sink.old sink.new }
    ensures lines { OnOk result (LeavesLines 255 K.whole K.calls K.taken sink.old sink.new) }
{
    write_all(
        sink,
        b"usage: dgraid replay | resume | cat PATH | ls PATH | status | trace ORDER B K M | drill SEED FILES | audit\n",
    )
}

/// Puts a piece at a place of a line, and answers where it ends.
pub fn put(line: &mut [u8], at: usize, piece: &[u8]) -> usize
    requires { at + length piece.now ≤ length line.old }
    ensures end { result ≡ at + length piece.now }
    ensures text { take result line.new ≡ take at line.old ++ piece.now }
{
    let end = at + piece.len();
    line[at..end].copy_from_slice(piece);
    end
}

/// Puts the hex digits of bytes at a place of a line, and answers where they end.
pub fn put_hex(line: &mut [u8], at: usize, bytes: &[u8]) -> usize
    requires { at + 2 * length bytes.now ≤ length line.old }
    ensures end { result ≡ at + 2 * length bytes.now }
    ensures text { take result line.new ≡ take at line.old ++ encode_lower bytes.now }
{
    let end = at + 2 * bytes.len();
    let _ = hex::encode_to_slice(bytes, &mut line[at..end]);
    end
}

// Spells the answer to a refused line, and answers where it ends.
fn spell_refusal(line: &mut [u8], number: u64, kind: BadLine) -> usize
    requires { 64 ≤ length line.old }
    ensures end { result ≤ length line.new }
    ensures text { take result line.new ≡ refusal number kind }
{
    let mut digits = Buffer::new();
    let start = put(line, 0, b"line ");
    let end = put(line, start, digits.format(number).as_bytes());
    put(line, end, behind_number(kind))
}

// What stands behind the number in the answer to a refused line.
fn behind_number(kind: BadLine) -> &'static [u8]
    ensures text { result.now ≡ codes " " ++ (kind_of kind ++ codes "\n") }
    ensures short { length result.now ≤ 8 }
{
    match kind {
        BadLine::Long => b" long\n",
        BadLine::Size => b" size\n",
        BadLine::Cut => b" cut\n",
        BadLine::Word => b" word\n",
        BadLine::Order => b" order\n",
        BadLine::Form => b" form\n",
        BadLine::Number => b" number\n",
        BadLine::Limits => b" limits\n",
        BadLine::Hex => b" hex\n",
        BadLine::Path => b" path\n",
    }
}

// The line that says why a path gives nothing to read.
fn refusal_line(refusal: PathRefusal) -> &'static [u8]
    ensures { result.now ≡ refusal_words refusal ++ codes "\n" }
{
    match refusal {
        PathRefusal::NotFound => b"notfound\n",
        PathRefusal::NotDirectory => b"notdir\n",
        PathRefusal::NotRegular => b"notregular\n",
        PathRefusal::Bad(bad) => bad_line(bad),
    }
}

// The line that says what is wrong with a volume.
fn bad_line(bad: BadRead) -> &'static [u8]
    ensures { result.now ≡ codes "bad " ++ (bad_word bad ++ codes "\n") }
{
    match bad {
        BadRead::Super(kind) => super_line(kind),
        BadRead::Wild => b"bad wild\n",
        BadRead::Filesize => b"bad filesize\n",
        BadRead::Hole => b"bad hole\n",
        BadRead::Chunk => b"bad chunk\n",
        BadRead::Entry => b"bad entry\n",
    }
}

// The line that says which test of a superblock fails.
fn super_line(kind: BadSuper) -> &'static [u8]
    ensures { result.now ≡ codes "bad " ++ (super_word kind ++ codes "\n") }
{
    match kind {
        BadSuper::Magic => b"bad magic\n",
        BadSuper::Format => b"bad format\n",
        BadSuper::Bsize => b"bad bsize\n",
        BadSuper::Fsize => b"bad fsize\n",
        BadSuper::Frag => b"bad frag\n",
        BadSuper::Nindir => b"bad nindir\n",
        BadSuper::Inopb => b"bad inopb\n",
        BadSuper::Size => b"bad size\n",
        BadSuper::Groups => b"bad groups\n",
        BadSuper::Inodes => b"bad inodes\n",
        BadSuper::Layout => b"bad layout\n",
        BadSuper::Summary => b"bad summary\n",
    }
}
