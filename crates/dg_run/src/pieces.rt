// Bytes of a buffer: where a line ends, and what a source adds.
ghost use Rattle.std.specs.Prelude.{◌≡◌, ◌≢◌, ◌+◌, ◌≤◌, ◌<◌, ◌++◌, ◌∷◌, [], length, drop, take, slice_range, IfOk, IfSome, IfNone, OnOk, OnErr};
ghost use Rattle.dg_io.specs.Faults.{HasCause};
ghost use Rattle.dg_io.specs.SourceReads.{LeavesSource};
ghost use Rattle.dg_io.specs.Told.{Told, IsSame, Gave};
ghost use Rattle.dg_run.specs.Bytes.{HasNoLineFeed};
ghost use Rattle.dg_run.specs.Scans.{Scanned};

use dg_io::{Failed, Source};
use memchr::memchr;

/// Where the first line feed stands.
pub fn find_line_feed(bytes: &[u8]) -> Option<usize>
    ensures within { IfSome result (λ i. i < length bytes.now) }
    ensures found { IfSome result (λ i. bytes.now ≡ take i bytes.now ++ 10 ∷ drop (i + 1) bytes.now) }
    ensures first { IfSome result (λ i. HasNoLineFeed (take i bytes.now)) }
    ensures none { IfNone result (HasNoLineFeed bytes.now) }
{
    memchr(b'\n', bytes)
}

/// What a look for a line feed found.
#[derive(Clone, Copy, Debug, PartialEq, Eq)]
pub enum Scan {
    /// The first line feed stands here, and so many bytes before it have none.
    Found(usize),
    /// There is none among the first bytes, as many as the limit.
    Unended,
    /// There is none, and there are fewer bytes than the limit.
    More,
}

/// Looks for a line feed among the first bytes, of which the first `seen` ones are known to have none.
pub fn look(bytes: &[u8], seen: usize, limit: usize) -> Scan
    requires seen { seen ≤ length bytes.now }
    requires none { HasNoLineFeed (take seen bytes.now) }
    ensures { Scanned limit bytes.now result }
{
    let (_, rest) = bytes.split_at(seen);
    match find_line_feed(rest) {
        Some(i) if seen + i < limit => Scan::Found(seen + i),
        Some(_) => Scan::Unended,
        None if bytes.len() < limit => Scan::More,
        None => Scan::Unended,
    }
}

/// Reads bytes behind the first ones of a buffer, and answers how many.
#[tactic(auto, using(crate::proofs::SourceSteps::reads_any, crate::proofs::SourceSteps::reads_some))]
pub fn read_behind<S: Source>(
    source: &mut S,
    bytes: &mut Vec<u8>,
    end: usize,
) -> Result<usize, Failed>
    requires { end < length bytes.old.items }
    ensures size { length bytes.new.items ≡ length bytes.old.items }
    ensures within { IfOk result (λ n. end + n ≤ length bytes.new.items) }
    ensures front { take end bytes.new.items ≡ take end bytes.old.items }
    ensures gave { IfOk result (λ n. Told (Gave (slice_range bytes.new.items end (end + n))) (S.left source.old) (S.left source.new)) }
    ensures end { IfOk result (λ n. n ≡ 0 → Told (λ before after. before ≡ []) (S.left source.old) (S.left source.new)) }
    ensures err { OnErr result (Told IsSame (S.left source.old) (S.left source.new)) }
    ensures cause { HasCause (S.faults source.old) (S.faults source.new) result }
    ensures reads { LeavesSource S.calls S.left 1 source.old source.new }
    ensures gave_some { IfOk result (λ n. 0 < n → LeavesSource S.calls S.left 0 source.old source.new) }
{
    source.read(&mut bytes[end..])
}
