// What a commit leaves in memory of the members of a double rack.
ghost use Rattle.std.specs.Prelude.{◌≡◌, ◌≢◌, ◌<◌, ℕ, length, slice_get, true};
ghost use Rattle.dg_stop.specs.DoubleCommits.{Settles, SettlesOne, fell_now};
ghost use Rattle.dg_stop.specs.Phases.{bits_in, flag_in};

use crate::flags::{clear_flag, has_flag, set_flag};
use crate::marks::fell_at;
use crate::memories::{Memory, bits_at};
use crate::phases::MEMBERS;
use crate::places::Places;

/// The last places of a member are those that it has now.
fn follow_at(last: &mut Vec<Places>, current: &[Places], member: u8)
    requires { length (bits_in last.old.items member) ≡ length (bits_in current.now member) }
    ensures own { bits_in last.new.items member ≡ bits_in current.now member }
    ensures others { (q : ℕ) → q ≢ member → slice_get last.new.items q ≡ slice_get last.old.items q }
{
    let now = bits_at(current, member);
    match last.get_mut(member as usize) {
        Some(held) => held.follow(now),
        None => {}
    }
}

/// The turn of one member after a commit, which fell in it or serves.
fn settle_at(memory: &mut Memory, member: u8, fell: bool, serves: bool)
    requires member { member < 32 }
    requires paired { serves ≡ true → length (bits_in memory.old.last.items member) ≡ length (bits_in memory.old.current.items member) }
    ensures { SettlesOne member fell serves memory.old memory.new }
{
    if fell {
        clear_flag(&mut memory.stands, member);
        set_flag(&mut memory.fell, member);
    }
    if serves {
        follow_at(&mut memory.last, &memory.current, member);
    }
}

/// After a commit of the members that served: each that serves no more has fallen, and of each that serves the last places are those that it
/// has now.
pub fn settle_all(memory: &mut Memory, served: &[bool; MEMBERS], serves: &[bool; MEMBERS])
    requires { (q : ℕ) → flag_in serves.now q ≡ true → length (bits_in memory.old.last.items q) ≡ length (bits_in memory.old.current.items q) }
    ensures { Settles served.now serves.now memory.old memory.new }
{
    for number in 0..MEMBERS as u8 {
        settle_at(
            memory,
            number,
            fell_at(served, serves, number),
            has_flag(serves, number),
        );
    }
}
