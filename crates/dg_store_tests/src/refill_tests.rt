// A member that is replaced is refilled, noted on and made longer. Four blocks of 512 bytes over two boundaries of two
// counted slots.
ghost use Rattle.std.specs.Prelude.{◌≡◌, ◌<◌, IfOk};
ghost use Rattle.dg_store.specs.Stores.{IsSound, shape_of};

use dg_io::{MemRack, NoMemory, Rack};
use dg_model::MemberState;
use dg_store::{CopyAnswer, Fetched, NoteAnswer, ReplaceAnswer, Shape, Site, Store, member_length};
use std::alloc::Global;
use std::process::Abort;
use std::test::Fail;

// Copies or passes the next slot of a boundary, and tells whether there is more to do. The refill is completed behind the
// last slot.
fn refill_one<R: Rack>(store: &mut Store<R>, boundary: u8, side: u8) -> bool
    requires sound { IsSound R.Rack store.old }
    requires boundary { boundary < (shape_of store.old).b }
    requires side { side < 2 }
    requires size { (shape_of store.old).l ≡ 512 }
    ensures sound { IsSound R.Rack store.new }
    ensures shape { shape_of store.new ≡ shape_of store.old }
{
    let slots = store.shape().k + 1;
    let MemberState::Filling(have) = store.boundary(boundary).member(side) else {
        return false;
    };
    if have == slots {
        store.complete(boundary);
        return false;
    }
    if have > slots {
        return false;
    }
    let site = Site {
        boundary,
        slot: have,
    };
    match store.map().block_at(site) {
        None => {
            store.pass_slot(boundary);
            true
        }
        Some(_) => {
            let mut buf = [0; 512];
            store.copy_slot(boundary, &mut buf) == CopyAnswer::Copied
        }
    }
}

// Refills the member as far as it goes.
fn refill<R: Rack>(store: &mut Store<R>, boundary: u8, side: u8)
    requires sound { IsSound R.Rack store.old }
    requires boundary { boundary < (shape_of store.old).b }
    requires side { side < 2 }
    requires size { (shape_of store.old).l ≡ 512 }
    ensures sound { IsSound R.Rack store.new }
    ensures shape { shape_of store.new ≡ shape_of store.old }
{
    for _ in 0..4 {
        if !refill_one(store, boundary, side) {
            return;
        }
    }
}

// Makes a member anew, as long as a blank one.
fn renew<R: Rack>(store: &mut Store<R>, boundary: u8, side: u8) -> ReplaceAnswer
    requires sound { IsSound R.Rack store.old }
    requires boundary { boundary < (shape_of store.old).b }
    requires side { side < 2 }
    ensures sound { IsSound R.Rack store.new }
    ensures shape { shape_of store.new ≡ shape_of store.old }
{
    let size = member_length(store.shape());
    store.replace(boundary, side, size)
}

// Writes the label of a member.
fn label<R: Rack>(store: &mut Store<R>, boundary: u8, side: u8) -> NoteAnswer
    requires sound { IsSound R.Rack store.old }
    requires boundary { boundary < (shape_of store.old).b }
    requires side { side < 2 }
    ensures sound { IsSound R.Rack store.new }
    ensures shape { shape_of store.new ≡ shape_of store.old }
{
    store.note(boundary, side, 0, &[0x4c; 512])
}

// What block 0 reads as, where it isn't gone: zeros, or filled with one byte.
fn first_byte<R: Rack>(store: &mut Store<R>) -> Option<u8>
    requires sound { IsSound R.Rack store.old }
    requires blocks { (shape_of store.old).n ≡ 4 }
    requires size { (shape_of store.old).l ≡ 512 }
    ensures sound { IsSound R.Rack store.new }
    ensures shape { shape_of store.new ≡ shape_of store.old }
{
    let mut buf = [0xee; 512];
    match store.read(0, &mut buf) {
        Fetched::Got if buf.iter().all(|byte| *byte == buf[0]) => Some(buf[0]),
        Fetched::Got => Some(0xee),
        Fetched::Gone => None,
    }
}

// What was answered to a replacement and a note, what block 0 reads as and the least lost boundary, and what it reads as
// once it is reaped.
type Outcome = (
    ReplaceAnswer,
    NoteAnswer,
    Option<u8>,
    Option<u8>,
    Option<u8>,
);

// Block 0 is written, side 1 of its boundary fails, is replaced, refilled and labelled, and then the other side fails.
fn live<R: Rack>(store: &mut Store<R>) -> Outcome
    requires sound { IsSound R.Rack store.old }
    requires blocks { (shape_of store.old).n ≡ 4 }
    requires boundaries { (shape_of store.old).b ≡ 2 }
    requires size { (shape_of store.old).l ≡ 512 }
    ensures sound { IsSound R.Rack store.new }
    ensures shape { shape_of store.new ≡ shape_of store.old }
{
    let _ = store.write(0, &[7; 512]);
    let _ = store.fail(0, 1);
    let replaced = renew(store, 0, 1);
    refill(store, 0, 1);
    let noted = label(store, 0, 1);
    let _ = store.fail(0, 0);
    let read = first_byte(store);
    let lost = store.least_lost();
    store.reap(0);
    let reaped = first_byte(store);
    (replaced, noted, read, lost, reaped)
}

// What an opening makes of the parts of a store.
fn reopened<R: Rack>(alloc: Global, store: Store<R>) -> Result<Store<R>, NoMemory>
where
    R: Drop,
    requires { IsSound R.Rack store }
    ensures { IfOk result (λ again. IsSound R.Rack again) }
{
    let shape = *store.shape();
    let (rack, map, boundaries) = store.into_parts();
    Store::opened(alloc, rack, shape, map, boundaries)
}

// The same over members of which one call fails, and then once more over what an opening makes of the parts.
fn outcome(rt: &impl Abort, alloc: Global, fails: u64) -> Result<Outcome, Fail> {
    let shape = Shape::check(512, 4, 2, 2, 1).ok_or("shape")?;
    let mut calls = Vec::new(alloc);
    calls.push(fails)?;
    let rack = MemRack::new(alloc, 4, 4096, calls).ok().ok_or("rack")?;
    let Ok(mut store) = Store::new(alloc, rack, shape) else {
        return Err("store".into());
    };
    let outcome = live(&mut store);
    let lost = store.lost();
    let Ok(again) = reopened(alloc, store) else {
        return Err("again".into());
    };
    assert_eq!(rt; again.lost(), lost);
    Ok(outcome)
}

#[test]
fn each_call_fails_in_turn(rt: HostRuntime) -> Result<(), Fail> {
    use NoteAnswer::{Fell, NotGood, Noted};
    use ReplaceAnswer::{Failed, Lost, Replaced};
    let gone = (None, Some(0), Some(0));
    let kept = (Some(7), None, Some(0));
    for (call, replaced, noted, (read, lost, reaped)) in [
        // Members 0 and 1 are blanked, and then those of the other boundary.
        (0, Lost, NotGood, gone),
        (1, Replaced, Noted, kept),
        (2, Replaced, Noted, kept),
        (3, Replaced, Noted, kept),
        // The block is written.
        (4, Lost, NotGood, gone),
        (5, Replaced, Noted, kept),
        // The member is replaced.
        (6, Failed, NotGood, gone),
        // The slot is copied: a read, and a write.
        (7, Replaced, NotGood, gone),
        (8, Replaced, NotGood, gone),
        // The label is written.
        (9, Replaced, Fell, gone),
        // The block is read.
        (10, Replaced, Noted, gone),
        (11, Replaced, Noted, kept),
    ] {
        assert_eq!(rt;
            outcome(&rt, rt.alloc(), call)?,
            (replaced, noted, read, lost, reaped),
            "{call}"
        );
    }
    Ok(())
}
