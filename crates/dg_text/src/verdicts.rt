// Lines that say what blocks belong to, where files stand, what is wrong with a volume, and what found no room.
ghost use Rattle.std.specs.Prelude.{◌≡◌, ◌≤◌, ◌++◌, length, take, codes, OnOk, OnErr};
ghost use Rattle.std.specs.Fmt.{decimal};
ghost use Rattle.dg_io.specs.Told.{Told, Took, TookPart};
ghost use Rattle.dg_io.specs.Faults.{HasCause};
ghost use Rattle.dg_io.specs.SinkCalls.{LeavesSink};
ghost use Rattle.dg_text.specs.Replies.{reply_line, malformation_word, room_words, super_word, system_word, who_words};
ghost use Rattle.dg_model.specs.declared.replies.Reply.{Reply};

use crate::counts::{write_number, write_numbers};
use crate::replies::put;
use dg_io::{Sink, write_all};
use dg_model::{Failed, NoRoom, Who};
use itoa::Buffer;
use ufs_model::{BadKind, BadSuper, SystemKind};

// Bytes of the longest line of a malformation: two words of at most 10 bytes, a number of at most 10 digits, a space and the LF.
const KIND_ROOM: usize = 10 + 10 + 10 + 2;

/// Writes the line that says what a block belongs to.
pub fn write_verdict<K: Sink>(sink: &mut K, who: Who) -> Result<(), Failed>
    ensures ok { OnOk result (Told (Took (reply_line (Reply.Verdict who))) (K.taken sink.old) (K.taken sink.new)) }
    ensures err { OnErr result (Told (TookPart (reply_line (Reply.Verdict who))) (K.taken sink.old) (K.taken sink.new)) }
    ensures cause { HasCause (K.faults sink.old) (K.faults sink.new) result }
    ensures calls { LeavesSink K.whole K.calls 1 (length (reply_line (Reply.Verdict who))) sink.old sink.new }
{
    match who {
        Who::System(kind) => write_all(sink, system_line(kind)),
        Who::Outside => write_all(sink, b"outside\n"),
        Who::Inode(i, level) => write_numbers(sink, b"inode ", i, b" level ", level as u32),
        Who::Shared(count) => write_number(sink, b"shared ", count as u128),
        Who::Pending => write_all(sink, b"pending\n"),
        Who::Dead => write_all(sink, b"dead\n"),
        Who::Idle => write_all(sink, b"idle\n"),
    }
}

/// Writes the line that says what found no room.
pub fn write_no_room<K: Sink>(sink: &mut K, room: NoRoom) -> Result<(), Failed>
    ensures ok { OnOk result (Told (Took (reply_line (Reply.NoSpace room))) (K.taken sink.old) (K.taken sink.new)) }
    ensures err { OnErr result (Told (TookPart (reply_line (Reply.NoSpace room))) (K.taken sink.old) (K.taken sink.new)) }
    ensures cause { HasCause (K.faults sink.old) (K.faults sink.new) result }
    ensures calls { LeavesSink K.whole K.calls 1 (length (reply_line (Reply.NoSpace room))) sink.old sink.new }
{
    match room {
        NoRoom::System => write_all(sink, b"nospace system\n"),
        NoRoom::Inode(i) => write_number(sink, b"nospace inode ", i as u128),
        NoRoom::Strays => write_all(sink, b"nospace strays\n"),
    }
}

/// Writes the line that tells a volume's first malformation.
pub fn write_malformation<K: Sink>(sink: &mut K, kind: BadKind, n: u32) -> Result<(), Failed>
    ensures ok { OnOk result (Told (Took (reply_line (Reply.Malformed kind n))) (K.taken sink.old) (K.taken sink.new)) }
    ensures err { OnErr result (Told (TookPart (reply_line (Reply.Malformed kind n))) (K.taken sink.old) (K.taken sink.new)) }
    ensures cause { HasCause (K.faults sink.old) (K.faults sink.new) result }
    ensures calls { LeavesSink K.whole K.calls 1 (length (reply_line (Reply.Malformed kind n))) sink.old sink.new }
{
    write_kind(sink, b"malformed ", kind, n)
}

/// Writes a line of a word of at most 10 bytes, its space among them, a malformation and a number.
pub fn write_kind<K: Sink>(sink: &mut K, word: &[u8], kind: BadKind, n: u32) -> Result<(), Failed>
    requires { length word.now ≤ 10 }
    ensures ok { OnOk result (Told (Took (word.now ++ (malformation_word kind ++ (codes " " ++ (decimal n ++ codes "\n")))))
        (K.taken sink.old) (K.taken sink.new)) }
    ensures err { OnErr result (Told (TookPart (word.now ++ (malformation_word kind ++ (codes " " ++ (decimal n ++ codes "\n")))))
        (K.taken sink.old) (K.taken sink.new)) }
    ensures cause { HasCause (K.faults sink.old) (K.faults sink.new) result }
    ensures calls { LeavesSink K.whole K.calls 1 (length (word.now ++ (malformation_word kind ++ (codes " " ++ (decimal n ++ codes "\n"))))) sink.old sink.new }
{
    let mut line = [0u8; KIND_ROOM];
    let end = spell_kind(&mut line, word, kind, n);
    write_all(sink, &line[..end])
}

// Spells such a line, and answers where it ends.
fn spell_kind(line: &mut [u8], word: &[u8], kind: BadKind, n: u32) -> usize
    requires word { length word.now ≤ 10 }
    requires room { 32 ≤ length line.old }
    ensures end { result ≤ length line.new }
    ensures text { take result line.new ≡ word.now ++ (malformation_word kind ++ (codes " " ++ (decimal n ++ codes "\n"))) }
{
    let mut digits = Buffer::new();
    let start = put(line, 0, word);
    let name = put(line, start, kind_word(kind));
    let space = put(line, name, b" ");
    let number = put(line, space, digits.format(n).as_bytes());
    put(line, number, b"\n")
}

/// Writes the line that says where a file stands, and where its copy, if it has one.
pub fn write_home<K: Sink>(sink: &mut K, s: u32, copy: Option<u32>) -> Result<(), Failed>
    ensures ok { OnOk result (Told (Took (reply_line (Reply.HomeAt s copy))) (K.taken sink.old) (K.taken sink.new)) }
    ensures err { OnErr result (Told (TookPart (reply_line (Reply.HomeAt s copy))) (K.taken sink.old) (K.taken sink.new)) }
    ensures cause { HasCause (K.faults sink.old) (K.faults sink.new) result }
    ensures calls { LeavesSink K.whole K.calls 1 (length (reply_line (Reply.HomeAt s copy))) sink.old sink.new }
{
    match copy {
        Some(t) => write_numbers(sink, b"home ", s, b" copy ", t),
        None => write_number(sink, b"home ", s as u128),
    }
}

// The line of a block of the file system itself.
fn system_line(kind: SystemKind) -> &'static [u8]
    ensures { result.now ≡ codes "system " ++ (system_word kind ++ codes "\n") }
{
    match kind {
        SystemKind::Super => b"system super\n",
        SystemKind::Boot => b"system boot\n",
        SystemKind::Copy => b"system copy\n",
        SystemKind::Group => b"system group\n",
        SystemKind::Inodes => b"system inodes\n",
        SystemKind::Summary => b"system summary\n",
    }
}

// The word of a malformation.
fn kind_word(kind: BadKind) -> &'static [u8]
    ensures text { result.now ≡ malformation_word kind }
    ensures short { length result.now ≤ 10 }
{
    match kind {
        BadKind::Super(kind) => super_kind(kind),
        BadKind::GroupMagic => b"groupmagic",
        BadKind::GroupMap => b"groupmap",
        BadKind::WrongType => b"type",
        BadKind::Filesize => b"filesize",
        BadKind::Past => b"past",
        BadKind::Wild => b"wild",
        BadKind::WildIn => b"wildin",
        BadKind::Align => b"align",
        BadKind::AlignIn => b"alignin",
        BadKind::Run => b"run",
        BadKind::Twice => b"twice",
        BadKind::PastIn => b"pastin",
        BadKind::Free => b"free",
        BadKind::Unused => b"unused",
        BadKind::Hole => b"hole",
        BadKind::Chunk => b"chunk",
        BadKind::Entry => b"entry",
        BadKind::EntryType => b"entrytype",
        BadKind::Dots => b"dots",
        BadKind::Names => b"names",
        BadKind::DirTwice => b"dirtwice",
        BadKind::RootNamed => b"rootnamed",
    }
}

// The same of a superblock's first test that fails.
fn super_kind(kind: BadSuper) -> &'static [u8]
    ensures text { result.now ≡ super_word kind }
    ensures short { length result.now ≤ 10 }
{
    match kind {
        BadSuper::Magic => b"magic",
        BadSuper::Format => b"format",
        BadSuper::Bsize => b"bsize",
        BadSuper::Fsize => b"fsize",
        BadSuper::Frag => b"frag",
        BadSuper::Nindir => b"nindir",
        BadSuper::Inopb => b"inopb",
        BadSuper::Size => b"size",
        BadSuper::Groups => b"groups",
        BadSuper::Inodes => b"inodes",
        BadSuper::Layout => b"layout",
        BadSuper::Summary => b"summary",
    }
}
