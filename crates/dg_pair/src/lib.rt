//! A boundary: two members that hold the same slots, and serve as one disk until both are out. A member is a type by
//! what it does, so that one that is being refilled can't be read, and one that is out can't be called.
#![tactic(auto)]

mod boundaries;
mod changes;
mod members;
mod reads;
mod refills;
mod writes;

pub use boundaries::{
    Boundary, CopyAnswer, ExtendAnswer, FailAnswer, NoteAnswer, PairRead, PairWrite, ReplaceAnswer,
};
pub use members::{FillCall, Filling, Good, GoodCall, Member, Out};
