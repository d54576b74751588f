// The text of an array's state.
ghost use Rattle.std.specs.Prelude.{◌≡◌, ◌<◌, ◌++◌, codes, IfOk, OnOk};
ghost use Rattle.std.specs.Fmt.{decimal};
ghost use Rattle.std.specs.List.{flat_map, range_with_len};
ghost use Rattle.dg_saved.specs.Texts.{array_text, boundary_line, pair_words, phase_word};
ghost use Rattle.dg_volume.specs.Volumes.{IsWell, any_phase, live_of, members_of, phase_of, shape_of, table_of};

use dg_io::{NoMemory, Rack};
use dg_model::{Event, MemberState, Phase};
use dg_text::write_event;
use dg_volume::{AnyPhase, Volume};
use itoa::Buffer;
use std::alloc::Global;

/// Appends bytes.
fn push(text: &mut Vec<u8>, bytes: &[u8]) -> Result<(), NoMemory>
    ensures { OnOk result (text.new.items ≡ text.old.items ++ bytes.now) }
{
    match text.extend_from_slice(bytes) {
        Ok(()) => Ok(()),
        Err(_) => Err(NoMemory),
    }
}

/// Appends a number.
fn push_number(text: &mut Vec<u8>, n: u32) -> Result<(), NoMemory>
    ensures { OnOk result (text.new.items ≡ text.old.items ++ decimal n) }
{
    let mut digits = Buffer::new();
    push(text, digits.format(n).as_bytes())
}

/// The word of a phase.
fn word_of(phase: Phase) -> &'static [u8]
    ensures { result.now ≡ phase_word phase }
{
    match phase {
        Phase::Loose => b"loose",
        Phase::Settled => b"settled",
        Phase::Worn => b"worn",
    }
}

/// Appends words and a number.
fn push_words(text: &mut Vec<u8>, words: &[u8], n: u32) -> Result<(), NoMemory>
    ensures { OnOk result (text.new.items ≡ text.old.items ++ (words.now ++ decimal n)) }
{
    push(text, words)?;
    push_number(text, n)
}

/// Appends what the members of a boundary do, side 0 and then side 1.
fn push_pair(text: &mut Vec<u8>, first: MemberState, second: MemberState) -> Result<(), NoMemory>
    ensures { OnOk result (text.new.items ≡ text.old.items ++ pair_words first second) }
{
    match (first, second) {
        (MemberState::Good, MemberState::Good) => push(text, b"both"),
        (MemberState::Good, MemberState::Filling(have)) => push_words(text, b"filling 0 ", have),
        (MemberState::Good, MemberState::Out) => push(text, b"half 0"),
        (MemberState::Filling(have), MemberState::Good) => push_words(text, b"filling 1 ", have),
        (MemberState::Out, MemberState::Good) => push(text, b"half 1"),
        (MemberState::Filling(_), MemberState::Filling(_))
        | (MemberState::Filling(_), MemberState::Out)
        | (MemberState::Out, MemberState::Filling(_))
        | (MemberState::Out, MemberState::Out) => push(text, b"lost 0"),
    }
}

/// Appends the line of a boundary under its own number, by its place among those in use.
fn push_boundary<R: Rack>(
    text: &mut Vec<u8>,
    volume: &Volume<AnyPhase, R>,
    s: u8,
) -> Result<(), NoMemory>
    requires well { IsWell any_phase R.Rack volume.now }
    requires boundary { s < (shape_of volume.now).b }
    ensures { OnOk result (text.new.items ≡ text.old.items ++ boundary_line (table_of volume.now) (live_of volume.now) (members_of volume.now) s) }
{
    let number = volume.live()[s as usize];
    let boundary = volume.boundary(number);
    push_words(text, b"boundary ", number as u32)?;
    push(text, b" ")?;
    push_pair(text, boundary.member(0), boundary.member(1))?;
    push_words(text, b" ", volume.used(number))?;
    push(text, b"\n")
}

/// Appends the lines of all boundaries in use, in ascending order.
fn push_boundaries<R: Rack>(
    text: &mut Vec<u8>,
    volume: &Volume<AnyPhase, R>,
) -> Result<(), NoMemory>
    requires { IsWell any_phase R.Rack volume.now }
    ensures { OnOk result (text.new.items ≡ text.old.items
        ++ flat_map (boundary_line (table_of volume.now) (live_of volume.now) (members_of volume.now)) (range_with_len 0 (shape_of volume.now).b)) }
{
    for s in 0..volume.shape().b {
        push_boundary(text, volume, s)?;
    }
    Ok(())
}

/// The lines that tell of an array's state.
pub fn text_of<R: Rack>(alloc: Global, volume: &Volume<AnyPhase, R>) -> Result<Vec<u8>, NoMemory>
    requires { IsWell any_phase R.Rack volume.now }
    ensures { IfOk result (λ text. text.items ≡ array_text (table_of volume.now) (live_of volume.now) (members_of volume.now) (phase_of any_phase volume.now)) }
{
    let mut text = write_event(alloc, &Event::Array(*volume.shape()))?;
    push(&mut text, b"\n")?;
    push(&mut text, b"phase ")?;
    push(&mut text, word_of(volume.phase()))?;
    push(&mut text, b"\n")?;
    push_boundaries(&mut text, volume)?;
    Ok(text)
}
