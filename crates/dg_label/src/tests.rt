// Saves and openings of four blocks of 512 bytes over two boundaries of two counted slots: bodies stand at 2048.
ghost use Rattle.std.specs.Prelude.{◌≡◌, None, IfOk};
ghost use Rattle.dg_label.specs.Labels.{IsLabeled};
ghost use Rattle.dg_model.specs.Shapes.{IsShape};
ghost use Rattle.dg_store.specs.Stores.{IsSound};

use super::*;
use dg_io::{MemRack, Rack};
use dg_store::{Shape, Store};
use std::alloc::Global;
use std::process::Abort;
use std::test::Fail;

// An array over new members, which has no label.
fn array<R: Rack + Drop>(alloc: Global, rack: R, shape: Shape) -> Result<Store<R>, NoMemory>
    requires { IsShape shape }
    ensures sound { IfOk result (λ store. IsSound R.Rack store) }
    ensures labeled { IfOk result (λ store. IsLabeled R.Rack shape store None) }
{
    Store::new(alloc, rack, shape)
}

// A label of format 1, beneath which each member is as long as format 2 says.
fn first_form<R: Rack>(store: &Store<R>, line: &Shape) -> Option<KeptLabel>
    requires sound { IsSound R.Rack store.now }
    requires labeled { IsLabeled R.Rack line.now store.now None }
    ensures { IsLabeled R.Rack line.now store.now result }
{
    let _shape = store.shape();
    let _boundaries = line.b;
    Some(KeptLabel {
        format: 1,
        sequence: 1,
        sealed: false,
        body: 0,
        long: u32::MAX,
    })
}

// Saves a body of four bytes.
fn save_four<R: Rack>(
    store: &mut Store<R>,
    line: &Shape,
    label: &mut Option<KeptLabel>,
    body: &[u8; 4],
) -> Option<SaveAnswer>
    requires sound { IsSound R.Rack store.old }
    requires labeled { IsLabeled R.Rack line.now store.old label.old }
    ensures sound { IsSound R.Rack store.new }
    ensures labeled { IsLabeled R.Rack line.now store.new label.new }
{
    save(store, line, label, body).ok()
}

// Twenty bytes of a member, where it has so many from this place on.
fn twenty_at<R: Rack>(rack: &mut R, member: u8, place: u64) -> Option<[u8; 20]> {
    let Ok(Some(size)) = rack.attach(member) else {
        return None;
    };
    let mut buf = [0; 20];
    if place >= size || size - place < 20 {
        return None;
    }
    let Ok(()) = rack.read(member, place, &mut buf) else {
        return None;
    };
    Some(buf)
}

// What is done to a new array.
#[derive(Clone, Copy, PartialEq, Eq)]
enum Until {
    Saved,
    Opened,
    SavedAgain,
}

// The last answer of a save, and the rack, where the listed calls fail.
fn run(
    alloc: Global,
    until: Until,
    fails: Vec<u64>,
) -> Result<(Option<SaveAnswer>, Option<KeptLabel>, MemRack), Fail> {
    let shape = Shape::check(512, 4, 2, 2, 1).ok_or("shape")?;
    let rack = MemRack::new(alloc, 4, 4096, fails).ok().ok_or("rack")?;
    let Ok(mut store) = array(alloc, rack, shape) else {
        return Err("store".into());
    };
    let mut label = None;
    let first = save_four(&mut store, &shape, &mut label, b"kept");
    if until == Until::Saved {
        return Ok((first, label, store.into_rack()));
    }
    open_seal(&mut store, &mut label);
    if until == Until::Opened {
        return Ok((first, label, store.into_rack()));
    }
    let second = save_four(&mut store, &shape, &mut label, b"more");
    Ok((second, label, store.into_rack()))
}

#[test]
fn saved_opened_and_saved_again(rt: HostRuntime) -> Result<(), Fail> {
    for (until, number, sealed, front, body) in [
        (
            Until::Saved,
            1,
            true,
            *b"DGRAID-2\x01\0\0\0\0\0\0\0S\x01\x01\0",
            *b"kept\0\0\0\0\0\0\0\0\0\0\0\0\0\0\0\0",
        ),
        (
            Until::Opened,
            1,
            false,
            *b"DGRAID-2\x01\0\0\0\0\0\0\0O\x01\x01\0",
            *b"kept\0\0\0\0\0\0\0\0\0\0\0\0\0\0\0\0",
        ),
        (
            Until::SavedAgain,
            2,
            true,
            *b"DGRAID-2\x02\0\0\0\0\0\0\0S\x01\x01\0",
            *b"more\0\0\0\0\0\0\0\0\0\0\0\0\0\0\0\0",
        ),
    ] {
        let (answer, label, mut rack) = run(rt.alloc(), until, Vec::new(rt.alloc()))?;
        assert_eq!(rt; answer, Some(SaveAnswer::Saved(number)));
        let kept = label.ok_or("label")?;
        assert_eq!(rt;
            (kept.format, kept.sequence, kept.sealed, kept.body),
            (2, number, sealed, 4)
        );
        assert_eq!(rt; twenty_at(&mut rack, 3, 0), Some(front));
        assert_eq!(rt; twenty_at(&mut rack, 3, 2048), Some(body));
    }
    Ok(())
}

// The calls that fail, from one to before another.
fn from_to(alloc: Global, from: u64, to: u64) -> Result<Vec<u64>, Fail> {
    let mut calls = Vec::new(alloc);
    for call in from..to {
        calls.push(call)?;
    }
    Ok(calls)
}

#[test]
fn calls_fail(rt: HostRuntime) -> Result<(), Fail> {
    const BODY: [u8; 20] = *b"kept\0\0\0\0\0\0\0\0\0\0\0\0\0\0\0\0";
    // Calls 4 to 7 write bodies. Where that of member 1 fails, it has neither.
    let (answer, _, mut rack) = run(rt.alloc(), Until::Saved, from_to(rt.alloc(), 5, 6)?)?;
    assert_eq!(rt; answer, Some(SaveAnswer::Saved(1)));
    assert_eq!(rt; twenty_at(&mut rack, 1, 0), Some([0; 20]));
    assert_eq!(rt; twenty_at(&mut rack, 1, 2048), Some([0; 20]));
    // Calls 8 to 11 write labels. Where the first one fails, each member has the body already.
    let (answer, _, mut rack) = run(rt.alloc(), Until::Saved, from_to(rt.alloc(), 8, 12)?)?;
    assert_eq!(rt; answer, Some(SaveAnswer::Lost(0)));
    assert_eq!(rt; twenty_at(&mut rack, 0, 0), Some([0; 20]));
    assert_eq!(rt; twenty_at(&mut rack, 0, 2048), Some(BODY));
    assert_eq!(rt; twenty_at(&mut rack, 3, 2048), Some(BODY));
    // No member has a body: the label stays none.
    let (answer, label, _) = run(rt.alloc(), Until::Saved, from_to(rt.alloc(), 4, 8)?)?;
    assert_eq!(rt; (answer, label), (Some(SaveAnswer::Lost(0)), None));
    Ok(())
}

// The answer of a save beneath a label of format 1, and the rack, where the listed calls fail.
fn run_first(alloc: Global, fails: Vec<u64>) -> Result<(Option<SaveAnswer>, MemRack), Fail> {
    let shape = Shape::check(512, 4, 2, 2, 1).ok_or("shape")?;
    let rack = MemRack::new(alloc, 4, 4096, fails).ok().ok_or("rack")?;
    let Ok(mut store) = array(alloc, rack, shape) else {
        return Err("store".into());
    };
    let mut label = first_form(&store, &shape);
    let answer = save_four(&mut store, &shape, &mut label, b"kept");
    Ok((answer, store.into_rack()))
}

#[test]
fn long_members_are_not_extended(rt: HostRuntime) -> Result<(), Fail> {
    // No call makes members longer that are long: calls 4 to 7 write bodies, and calls 8 to 11 labels. Where the last one fails, its member has the body.
    let (answer, mut rack) = run_first(rt.alloc(), from_to(rt.alloc(), 11, 12)?)?;
    assert_eq!(rt; answer, Some(SaveAnswer::Saved(2)));
    assert_eq!(rt;
        twenty_at(&mut rack, 2, 0),
        Some(*b"DGRAID-2\x02\0\0\0\0\0\0\0S\x01\x00\0")
    );
    assert_eq!(rt; twenty_at(&mut rack, 3, 0), Some([0; 20]));
    assert_eq!(rt;
        twenty_at(&mut rack, 3, 2048),
        Some(*b"kept\0\0\0\0\0\0\0\0\0\0\0\0\0\0\0\0")
    );
    Ok(())
}

#[test]
fn bits_go_to_new_places(rt: HostRuntime) -> Result<(), Fail> {
    // Members 1, 4 and 5 of three boundaries are long.
    for (lost, long) in [
        (0, 0b110010),
        (0b001, 0b1100),
        (0b010, 0b1110),
        (0b100, 0b0010),
        (0b111, 0),
    ] {
        let mut label = Some(KeptLabel {
            format: 1,
            sequence: 1,
            sealed: false,
            body: 0,
            long: 0b110010,
        });
        keep_left(&mut label, lost, 3);
        let kept = label.ok_or("label")?;
        assert_eq!(rt; kept.long, long);
    }
    Ok(())
}
