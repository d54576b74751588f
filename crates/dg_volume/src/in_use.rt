// The boundaries of an array that are in use, and the blocks that were cut.
ghost use Rattle.std.specs.Prelude.{◌≡◌, ◌≤◌, ◌<◌, IfNone, IfOk, IfSome, false, length, replicate, slice_set};
ghost use Rattle.std.specs.Option.{option_map};
ghost use Rattle.dg_model.specs.Lives.{all_live, boundary_at, place_in};
ghost use Rattle.dg_model.specs.Marks.{is_marked};

use dg_model::{NoMemory, Shape};
use dg_regroup::numbers_below;
use std::alloc::Global;

/// Which boundaries of the array's first line are in use, and which blocks were cut. The calls below name boundaries by their places
/// among those in use.
#[derive(Drop)]
pub(crate) struct InUse {
    /// Boundaries of the first line.
    pub(crate) boundaries: u8,
    /// Boundaries of the array by whose numbers members are as long: those that were in use when it was made or opened.
    pub(crate) long: u8,
    /// The numbers of those in use, ascending.
    pub(crate) live: Vec<u8>,
    /// A mark for each block: whether it was cut.
    pub(crate) cut: Vec<bool>,
}

impl InUse {
    /// All boundaries of an array, and no cut block.
    pub(crate) fn all(alloc: Global, shape: &Shape) -> Result<InUse, NoMemory>
        ensures boundaries { IfOk result (λ all. all.boundaries ≡ shape.now.b) }
        ensures long { IfOk result (λ all. all.long ≡ shape.now.b) }
        ensures live { IfOk result (λ all. all.live.items ≡ all_live shape.now.b) }
        ensures cut { IfOk result (λ all. all.cut.items ≡ replicate shape.now.n false) }
    {
        let live = numbers_below(alloc, shape.b)?;
        match vec![in alloc; false; shape.n as usize] {
            Ok(cut) => Ok(InUse {
                boundaries: shape.b,
                long: shape.b,
                live,
                cut,
            }),
            Err(_) => Err(NoMemory),
        }
    }

    /// The place of a boundary, if it is in use.
    pub(crate) fn place(&self, boundary: u32) -> Option<u8>
        requires { length self.now.live.items ≤ 16 }
        ensures within { IfSome result (λ place. place < length self.now.live.items) }
        ensures some { IfSome result (λ place. place_in self.now.live.items boundary ≡ place) }
        ensures none { IfNone result (place_in self.now.live.items boundary ≡ length self.now.live.items) }
    {
        for place in 0..self.live.len() {
            if self.live[place] as u32 == boundary {
                return Some(place as u8);
            }
        }
        None
    }

    /// The place of a boundary that is in use.
    pub(crate) fn place_of(&self, boundary: u8) -> u8
        requires few { length self.now.live.items ≤ 16 }
        requires there { place_in self.now.live.items boundary < length self.now.live.items }
        ensures { result ≡ place_in self.now.live.items boundary }
    {
        match self.place(boundary as u32) {
            Some(place) => place,
            None => unreachable!(),
        }
    }

    /// The number of the boundary at a place, or 0 where there is none.
    pub(crate) fn number(&self, place: u8) -> u8
        ensures { result ≡ boundary_at self.now.live.items place }
    {
        match self.live.get(place as usize) {
            Some(number) => *number,
            None => 0,
        }
    }

    /// The number of such a boundary, if there is one.
    pub(crate) fn number_of(&self, place: Option<u8>) -> Option<u8>
        ensures { result ≡ option_map (boundary_at self.now.live.items) place }
    {
        match place {
            Some(place) => Some(self.number(place)),
            None => None,
        }
    }

    /// Whether a block was cut.
    pub(crate) fn is_cut(&self, block: u32) -> bool
        ensures { result ≡ is_marked self.now.cut.items block }
    {
        match self.cut.get(block as usize) {
            Some(cut) => *cut,
            None => false,
        }
    }

    /// The numbers by which members are as long, of an array with these.
    pub(crate) fn line(&self, shape: &Shape) -> Shape
        ensures { result ≡ record shape.now { b = self.now.long } }
    {
        Shape {
            b: self.long,
            ..*shape
        }
    }

    /// A block was written, and counts as cut no more.
    pub(crate) fn uncut(&mut self, block: u32)
        requires { block < length self.old.cut.items }
        ensures boundaries { self.new.boundaries ≡ self.old.boundaries }
        ensures long { self.new.long ≡ self.old.long }
        ensures live { self.new.live ≡ self.old.live }
        ensures cut { self.new.cut.items ≡ slice_set self.old.cut.items block false }
    {
        self.cut[block as usize] = false;
    }
}
