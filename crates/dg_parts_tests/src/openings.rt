ghost use Rattle.std.specs.Prelude.{◌+◌, ◌≤◌, length};
ghost use Rattle.dg_store.specs.Stores.{IsSound};

use dg_io::{Failed, MemRack, Rack};
use dg_label::save;
use dg_model::MemberState;
use dg_open::{NoMemory, ReopenAnswer, Reopened, reopen};
use dg_store::Store;
use std::alloc::Global;
use std::test::Fail;

/// The front of a label: number 3, sealed, member 0; blocks of 512 bytes, 3 blocks, 2 boundaries, 2 slots, and a body of 56 bytes.
const FRONT: [u8; 44] = [
    0x44, 0x47, 0x52, 0x41, 0x49, 0x44, 0x2d, 0x32, 3, 0, 0, 0, 0, 0, 0, 0, 0x53, 0, 0, 0, 0, 2, 0,
    0, 3, 0, 0, 0, 2, 0, 0, 0, 2, 0, 0, 0, 1, 0, 0, 0, 56, 0, 0, 0,
];

/// A settled state in which members 0, 1 and 3 are good.
const BODY: [u8; 56] = [
    1, 0, 0, 0, 0, 0, 1, 0, 0, 0, 1, 1, 1, 0, 0, 0, 0, 2, 0, 0, 1, 0, 0, 0, 1, 2, 0, 0, 0, 1, 0, 0,
    0, 3, 0, 0, 0, 0, 1, 0, 0, 0, 3, 0, 0, 0, 1, 2, 3, 0, 0, 0, 2, 0, 0, 0,
];

/// Where the body stands, and how long members are.
const PLACE: usize = 2048;

const LENGTH: usize = 2195;

/// How long they are in format 1, and its body, which is the front of the other one.
const FIRST_LENGTH: usize = 2111;

const FIRST_BODY: u8 = 38;

const NO_STATE: u8 = 0;

const UNCLEAN: u8 = 128;

/// An array was found; a bit for each good member is added.
const FOUND: u8 = 16;

/// The front of a member's own label.
fn front_of(member: u8) -> [u8; 44] {
    let mut front = FRONT;
    front[17] = member / 2;
    front[18] = member % 2;
    front
}

fn copy_to(bytes: &mut [u8], at: usize, piece: &[u8])
    requires { at + length piece.now ≤ length bytes.old }
{
    bytes[at..at + piece.len()].copy_from_slice(piece);
}

/// The same in format 1.
fn first_front_of(member: u8) -> [u8; 44] {
    let mut front = front_of(member);
    front[7] = b'1';
    front[40] = FIRST_BODY;
    front
}

/// So many bytes of a member, with the front of a label and a body.
fn image(alloc: Global, front: &[u8; 44], size: usize) -> Result<Vec<u8>, NoMemory>
    requires { 2104 ≤ size }
{
    let Ok(mut bytes) = vec![in alloc; 0; size] else {
        return Err(NoMemory);
    };
    copy_to(&mut bytes, 0, front);
    copy_to(&mut bytes, PLACE, &BODY);
    Ok(bytes)
}

fn put<R: Rack>(rack: &mut R, member: u8, bytes: &[u8]) -> Result<(), Failed> {
    rack.blank(member, bytes.len() as u64)?;
    rack.write(member, 0, bytes)
}

/// Which members are good, by bits.
fn goods<R: Rack>(store: &Store<R>) -> u8
    requires { IsSound R.Rack store.now }
{
    let mut bits = 0;
    for (boundary, side, bit) in [(0, 0, 1), (0, 1, 2), (1, 0, 4), (1, 1, 8)] {
        if boundary < store.shape().b
            && store.boundary(boundary).member(side) == MemberState::Good
        {
            bits |= bit;
        }
    }
    bits
}

fn outcome<R: Rack + Drop>(alloc: Global, rack: R) -> Result<u8, NoMemory> {
    match reopen(alloc, rack)? {
        ReopenAnswer::Found(reopened) => Ok(FOUND | goods(&reopened.store)),
        ReopenAnswer::NoState(_) => Ok(NO_STATE),
        ReopenAnswer::Unclean(_) => Ok(UNCLEAN),
    }
}

/// What is opened from an array where a call of the rack fails. The calls below 8 make its members.
fn opened(alloc: Global, call: u64) -> Result<u8, Fail> {
    let mut rack = MemRack::new(alloc, 4, LENGTH as u64, Vec::from_slice(alloc, &[call])?)?;
    for q in 0..4 {
        let bytes = image(alloc, &front_of(q), LENGTH)?;
        put(&mut rack, q, &bytes)?;
    }
    Ok(outcome(alloc, rack)?)
}

#[test]
fn calls_that_fail(rt: HostRuntime) -> Result<(), Fail> {
    let rows = [
        ("member 0 isn't found", 8, 10),
        ("nor its label read", 9, 10),
        ("member 1", 10, 9),
        ("its label", 11, 9),
        ("member 2", 12, 11),
        ("its label", 13, 11),
        ("member 3", 14, 3),
        ("its label", 15, 3),
        ("member 4", 16, 11),
        ("member 31", 43, 11),
        ("the body of member 0", 44, 10),
        ("no call", 45, 11),
    ];
    for (name, call, goods) in rows {
        let found = opened(rt.alloc(), call)?;
        assert!(rt; found == FOUND | goods, "{name}");
    }
    Ok(())
}

/// An array of format 1, of which member 1 is as long as format 2 says, where a call of the rack fails. The calls below 8 make its members.
fn first_array(alloc: Global, call: u64) -> Result<MemRack, Fail> {
    let mut rack = MemRack::new(alloc, 4, LENGTH as u64, Vec::from_slice(alloc, &[call])?)?;
    for (member, size) in [
        (0, FIRST_LENGTH),
        (1, LENGTH),
        (2, FIRST_LENGTH),
        (3, FIRST_LENGTH),
    ] {
        let bytes = image(alloc, &first_front_of(member), size)?;
        put(&mut rack, member, &bytes)?;
    }
    Ok(rack)
}

/// Which members are good, by bits, where the array of a rack was opened and saved.
fn saved<R: Rack + Drop>(alloc: Global, rack: R) -> Result<u8, NoMemory> {
    let ReopenAnswer::Found(reopened) = reopen(alloc, rack)? else {
        return Ok(NO_STATE);
    };
    let Reopened {
        mut store,
        label,
        ..
    } = reopened;
    let mut label = Some(label);
    let line = *store.shape();
    save(&mut store, &line, &mut label, &[0; 4])?;
    Ok(goods(&store))
}

#[test]
fn members_made_longer(rt: HostRuntime) -> Result<(), Fail> {
    // Calls 8 to 44 open the array; member 2 is out.
    let rows = [
        ("the seal of member 0", 45, 10),
        ("of member 3", 47, 3),
        ("member 0 made longer", 48, 10),
        ("member 3, since member 1 isn't called", 49, 3),
        ("the body of member 0", 50, 10),
        ("of member 1", 51, 9),
        ("of member 3", 52, 3),
        ("the label of member 0", 53, 10),
        ("of member 1", 54, 9),
        ("of member 3", 55, 3),
        ("no call", 56, 11),
    ];
    for (name, call, goods) in rows {
        let found = saved(rt.alloc(), first_array(rt.alloc(), call)?)?;
        assert!(rt; found == goods, "{name}");
    }
    Ok(())
}
