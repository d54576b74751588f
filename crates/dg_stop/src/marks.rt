// Members named by the bits of a number.
ghost use Rattle.std.specs.Prelude.{◌≡◌, ◌<◌, ℕ};
ghost use Rattle.dg_io.specs.Commits.{is_marked};
ghost use Rattle.dg_stop.specs.DoubleCommits.{IsMarkedWith, fell_now};
ghost use Rattle.dg_stop.specs.Phases.{flag_in};

use crate::flags::has_flag;
use crate::phases::MEMBERS;

/// Whether the bit of a member is set.
fn is_marked_at(marks: u32, member: u8) -> bool
    requires { member < 32 }
    ensures { result ≡ is_marked marks member }
{
    marks >> member & 1 == 1
}

/// The members whose bits are set.
pub fn flags_of(marks: u32) -> [bool; MEMBERS]
    ensures { (q : ℕ) → flag_in result q ≡ is_marked marks q }
{
    let mut flags = [false; MEMBERS];
    for number in 0..MEMBERS as u8 {
        flags[number as usize] = is_marked_at(marks, number);
    }
    flags
}

/// Whether a member served and serves no more.
pub fn fell_at(served: &[bool; MEMBERS], serves: &[bool; MEMBERS], member: u8) -> bool
    ensures { result ≡ fell_now served.now serves.now member }
{
    has_flag(served, member) && !has_flag(serves, member)
}

/// The marks with that of a member, if it has one.
fn with_mark(marks: u32, member: u8, mark: bool) -> u32
    requires { member < 32 }
    ensures { IsMarkedWith marks member mark result }
{
    if mark { marks | 1 << member } else { marks }
}

/// The bits of the members that served and serve no more.
pub fn marks_of_fallen(served: &[bool; MEMBERS], serves: &[bool; MEMBERS]) -> u32
    ensures { (q : ℕ) → is_marked result q ≡ fell_now served.now serves.now q }
{
    let mut marks = 0;
    for number in 0..MEMBERS as u8 {
        marks = with_mark(marks, number, fell_at(served, serves, number));
    }
    marks
}
