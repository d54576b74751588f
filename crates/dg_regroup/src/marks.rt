// Members of the boundaries in use, named by bits.
ghost use Rattle.std.specs.Prelude.{◌≡◌, ◌<◌, ◌&&◌, All, IfNone, IfSome, true, false};
ghost use Rattle.std.specs.List.Sorted.{IsStrictlyIncreasing};
ghost use Rattle.dg_io.specs.Commits.{is_marked as is_marked_in};
ghost use Rattle.dg_model.specs.Lives.{member_at};
ghost use Rattle.dg_regroup.specs.LiveRacks.{is_there};
ghost use Rattle.dg_regroup.specs.Marks.{AreMarksBelow, AreMarksHere, IsAnswerHere, IsMarkedToo};

use dg_io::CommitAnswer;

/// How many members have a mark.
const MARKS: u8 = 32;

/// The number of a member in the rack below, if it is there.
pub fn number_at(live: &[u8], member: u8) -> Option<u8>
    requires { All (λ s. s < 16) live.now }
    ensures there { IfSome result (λ number. (is_there live.now member ≡ true) × (number ≡ member_at live.now member)) }
    ensures absent { IfNone result (is_there live.now member ≡ false) }
{
    let boundary = *live.get(member as usize / 2)?;
    Some(2 * boundary + member % 2)
}

/// Whether a member is marked.
fn is_marked(marks: u32, member: u8) -> bool
    ensures { result ≡ is_marked_in marks member }
{
    member < MARKS && marks >> member & 1 == 1
}

/// The marks with one more.
fn with_mark(marks: u32, member: u8) -> u32
    requires { member < 32 }
    ensures { IsMarkedToo marks member result }
{
    marks | 1 << member
}

/// The marks below with that of a member, if it is there and marked.
fn mark_below(live: &[u8], marks: u32, below: u32, member: u8) -> u32
    requires { All (λ s. s < 16) live.now }
    ensures marked { is_there live.now member ≡ true → is_marked_in marks member ≡ true → IsMarkedToo below (member_at live.now member) result }
    ensures other { (is_there live.now member && is_marked_in marks member) ≡ false → result ≡ below }
{
    match number_at(live, member) {
        Some(number) if is_marked(marks, member) => with_mark(below, number),
        _ => below,
    }
}

/// The same marks by the numbers of the rack below.
pub fn marks_below(live: &[u8], marks: u32) -> u32
    requires ascend { IsStrictlyIncreasing live.now }
    requires few { All (λ s. s < 16) live.now }
    ensures { AreMarksBelow live.now marks result }
{
    let mut below = 0;
    for member in 0..MARKS {
        below = mark_below(live, marks, below, member);
    }
    below
}

/// The marks with that of a member, if it is there and marked below.
fn mark_here(live: &[u8], below: u32, marks: u32, member: u8) -> u32
    requires few { All (λ s. s < 16) live.now }
    requires member { member < 32 }
    ensures marked { (is_there live.now member && is_marked_in below (member_at live.now member)) ≡ true → IsMarkedToo marks member result }
    ensures other { (is_there live.now member && is_marked_in below (member_at live.now member)) ≡ false → result ≡ marks }
{
    match number_at(live, member) {
        Some(number) if is_marked(below, number) => with_mark(marks, member),
        _ => marks,
    }
}

/// Marks of the rack below, by places.
fn marks_here(live: &[u8], below: u32) -> u32
    requires ascend { IsStrictlyIncreasing live.now }
    requires few { All (λ s. s < 16) live.now }
    ensures { AreMarksHere live.now below result }
{
    let mut marks = 0;
    for member in 0..MARKS {
        marks = mark_here(live, below, marks, member);
    }
    marks
}

/// An answer of the rack below, by places.
pub fn answer_here(live: &[u8], answer: CommitAnswer) -> CommitAnswer
    requires ascend { IsStrictlyIncreasing live.now }
    requires few { All (λ s. s < 16) live.now }
    ensures { IsAnswerHere live.now answer result }
{
    match answer {
        CommitAnswer::Committed { sequence, fell } => CommitAnswer::Committed {
            sequence,
            fell: marks_here(live, fell),
        },
        CommitAnswer::Lost => CommitAnswer::Lost,
    }
}
