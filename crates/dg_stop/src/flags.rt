// Marks of members.
ghost use Rattle.std.specs.Prelude.{◌≡◌, ◌≢◌, ◌<◌, ℕ, true, false};
ghost use Rattle.dg_stop.specs.Phases.{flag_in};

use crate::phases::MEMBERS;

/// Whether a member has the mark.
pub fn has_flag(flags: &[bool; MEMBERS], member: u8) -> bool
    ensures { result ≡ flag_in flags.now member }
{
    match flags.get(member as usize) {
        Some(flag) => *flag,
        None => false,
    }
}

/// Gives a member the mark.
pub fn set_flag(flags: &mut [bool; MEMBERS], member: u8)
    requires { member < 32 }
    ensures own { flag_in flags.new member ≡ true }
    ensures others { (q : ℕ) → q ≢ member → flag_in flags.new q ≡ flag_in flags.old q }
{
    flags[member as usize] = true;
}

/// Takes a member's mark away.
pub fn clear_flag(flags: &mut [bool; MEMBERS], member: u8)
    ensures own { flag_in flags.new member ≡ false }
    ensures others { (q : ℕ) → q ≢ member → flag_in flags.new q ≡ flag_in flags.old q }
{
    if member as usize >= MEMBERS {
        return;
    }
    flags[member as usize] = false;
}
