// Calls on racks whose members may have fallen.
ghost use Rattle.std.specs.Prelude.{◌≡◌, ◌≢◌, ◌⊎◌, ℕ, true};
ghost use Rattle.dg_io.specs.Commits.{is_marked};

use dg_io::{Checkpoint, CommitAnswer, Rack};

/// Writes to a member, where it stands and has so many bytes.
pub fn puts<R: Rack>(rack: &mut R, member: u8, place: u64, piece: &[u8]) {
    let Ok(Some(size)) = rack.attach(member) else {
        return;
    };
    if place <= size && piece.len() as u64 <= size - place {
        let _ = rack.write(member, place, piece);
    }
}

// Whether a member stands.
fn stands<R: Rack>(rack: &mut R, member: u8) -> bool
    ensures stands { result ≡ true → R.stands rack.new member ≡ true }
    ensures others { (q : ℕ) → q ≢ member → R.stands rack.old q ≡ true → R.stands rack.new q ≡ true }
{
    match rack.attach(member) {
        Ok(Some(_)) => true,
        _ => false,
    }
}

// The marks of those of members 0 and 1 that are such ones.
fn marks(first: bool, second: bool) -> u32
    ensures { (q : ℕ) → is_marked result q ≡ true → ((q ≡ 0) × (first ≡ true)) ⊎ ((q ≡ 1) × (second ≡ true)) }
{
    match (first, second) {
        (false, false) => 0,
        (true, false) => 1,
        (false, true) => 2,
        (true, true) => 3,
    }
}

// The marks of those of members 0 and 1 that stand.
fn standing<R: Rack>(rack: &mut R) -> u32
    ensures { (q : ℕ) → is_marked result q ≡ true → R.stands rack.new q ≡ true }
{
    let first = stands(rack, 0);
    let second = stands(rack, 1);
    marks(first, second)
}

/// Commits those of members 0 and 1 that stand.
pub fn commits<R: Checkpoint>(rack: &mut R, extra: &[u8]) -> CommitAnswer {
    let keep = standing(rack);
    let Some(room) = rack.room() else {
        return CommitAnswer::Lost;
    };
    if extra.len() as u64 > u64::from(room) {
        return CommitAnswer::Lost;
    }
    rack.commit(keep, extra)
}
