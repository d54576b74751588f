ghost use Rattle.std.specs.Prelude.{◌≡◌, IfOk, Err, MatchOption};
ghost use Rattle.dg_model.specs.Saves.{CanBeSaved};
ghost use Rattle.dg_model.specs.Shapes.{IsShape};
ghost use Rattle.dg_save.specs.Decodes.{IsDecoded, SpellsNone, SpellsState};
ghost use Rattle.dg_save.specs.Labels.{IsFormat};
ghost use Rattle.dg_save.specs.Parts.{IsSpelled};
ghost use Rattle.dg_save.specs.States.{state_of};
ghost use Rattle.dg_save.specs.declared.readers.Unread.TheVariants.{Malformed};

use crate::checks::{can_be_saved, is_shape};
use crate::parts::{read_blocks, read_good, read_homes, read_phase, read_rest};
use crate::readers::{Reader, Unread};
use crate::{NoMemory, SavedState, Shape};
use std::alloc::Global;

/// The state of an array with these numbers that the body says. `None` where it says none, as a damaged one.
pub fn decode(
    alloc: Global,
    body: &[u8],
    shape: &Shape,
    format: u8,
) -> Result<Option<SavedState>, NoMemory>
    requires { IsFormat format }
    ensures { IfOk result (IsDecoded format shape.now body.now) }
{
    if !is_shape(shape) {
        return Ok(None);
    }
    match read_state(alloc, body, shape, format) {
        Ok(state) => if_saved(alloc, state),
        Err(Unread::Malformed) => Ok(None),
        Err(Unread::NoMemory) => Err(NoMemory),
    }
}

/// The state, if it can be saved.
fn if_saved(alloc: Global, state: SavedState) -> Result<Option<SavedState>, NoMemory>
    requires shape { IsShape state.shape }
    requires spelled { IsSpelled state.shape (state_of state) }
    ensures { IfOk result (λ found. MatchOption found (CanBeSaved (state_of state) → ⊥) (λ s. (s ≡ state) × CanBeSaved (state_of state))) }
{
    let can = can_be_saved(alloc, &state)?;
    Ok(if can { Some(state) } else { None })
}

/// What the body spells, whether its parts fit together or not.
fn read_state(alloc: Global, body: &[u8], shape: &Shape, format: u8) -> Result<SavedState, Unread>
    requires { IsFormat format }
    ensures says { IfOk result (SpellsState format shape.now body.now) }
    ensures malformed { result ≡ Err Malformed → SpellsNone format shape.now body.now }
{
    let mut reader = Reader::new(body);
    let phase = read_phase(&mut reader)?;
    let good = read_good(alloc, &mut reader, 2 * shape.b as usize)?;
    let (sites, pending) = read_blocks(alloc, &mut reader, shape.n as usize)?;
    let homes = read_homes(alloc, &mut reader)?;
    let (copies, recent) = read_rest(alloc, &mut reader, format)?;
    if reader.len() > 0 {
        return Err(Unread::Malformed);
    }
    Ok(SavedState {
        shape: *shape,
        phase,
        good,
        sites,
        pending,
        homes,
        copies,
        recent,
    })
}
