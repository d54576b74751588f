// First sites, what is given up for one, and what a refused write gives back. All values are worked out by hand.
use crate::tests::{Numbers, Step, TWO, play};
use dg_store::{PlaceAnswer, StoreWrite};
use std::test::Fail;

/// Six blocks over three boundaries of two counted slots.
const THREE: Numbers = (6, 3, 2);

/// A first site is on the own boundary, while fewer than two of its slots are used, and else on the one with the fewest.
#[test]
fn first_sites_where_there_is_room(rt: HostRuntime) -> Result<(), Fail> {
    let rows: [&[Step]; 3] = [
        &[
            Step::Write(1, 7, StoreWrite::Stored),
            Step::Sites(1, 1, (1, 0)),
            Step::Write(4, 7, StoreWrite::Stored),
            Step::Sites(4, 1, (1, 1)),
        ],
        // Block 0 is moved to boundary 1, which is full then.
        &[
            Step::Write(1, 7, StoreWrite::Stored),
            Step::Write(0, 7, StoreWrite::Stored),
            Step::Place(0, 1, false, PlaceAnswer::Placed),
            Step::Unplace(0, 0),
            Step::Write(4, 7, StoreWrite::Stored),
            Step::Sites(4, 1, (0, 0)),
        ],
        &[
            Step::Write(1, 7, StoreWrite::Stored),
            Step::Write(0, 7, StoreWrite::Stored),
            Step::Place(0, 1, false, PlaceAnswer::Placed),
            Step::Unplace(0, 0),
            Step::Write(3, 7, StoreWrite::Stored),
            Step::Write(4, 7, StoreWrite::Stored),
            Step::Sites(4, 1, (2, 0)),
        ],
    ];
    for steps in rows {
        assert_eq!(rt; play(&rt, rt.alloc(), THREE, &[], steps)?, false);
    }
    Ok(())
}

/// Each boundary has two used slots: the least block with two sites gives up its last one.
#[test]
fn a_packed_array_gives_up_a_second_site(rt: HostRuntime) -> Result<(), Fail> {
    let steps = [
        Step::Write(0, 7, StoreWrite::Stored),
        Step::Place(0, 1, false, PlaceAnswer::Placed),
        Step::Write(1, 7, StoreWrite::Stored),
        Step::Place(1, 2, false, PlaceAnswer::Placed),
        Step::Write(2, 7, StoreWrite::Stored),
        Step::Place(2, 0, false, PlaceAnswer::Placed),
        Step::Write(3, 7, StoreWrite::Stored),
        Step::Sites(0, 1, (0, 0)),
        Step::Sites(1, 2, (2, 0)),
        Step::Sites(2, 2, (0, 1)),
        Step::Sites(3, 1, (1, 0)),
    ];
    assert_eq!(rt; play(&rt, rt.alloc(), THREE, &[], &steps)?, false);
    Ok(())
}

/// The blocks 0 to 2 have two sites each, and each boundary three used slots.
const SPARE_USED: [Step; 10] = [
    Step::Write(0, 7, StoreWrite::Stored),
    Step::Write(1, 7, StoreWrite::Stored),
    Step::Place(1, 0, false, PlaceAnswer::Placed),
    Step::Unplace(1, 1),
    Step::Write(2, 7, StoreWrite::Stored),
    Step::Place(2, 0, true, PlaceAnswer::Placed),
    Step::Unplace(2, 1),
    Step::Place(0, 1, false, PlaceAnswer::Placed),
    Step::Place(1, 1, false, PlaceAnswer::Placed),
    Step::Place(2, 1, true, PlaceAnswer::Placed),
];

/// Two sites are given up until the own boundary has room. Where that is lost, the write gives both back.
#[test]
fn where_the_spare_slots_are_used_two_sites_are_given_up(rt: HostRuntime) -> Result<(), Fail> {
    let alloc = rt.alloc();
    let mut steps = Vec::from_slice(alloc, &SPARE_USED)?;
    steps.extend_from_slice(&[
        Step::Write(3, 7, StoreWrite::Stored),
        Step::Sites(0, 1, (0, 0)),
        Step::Sites(1, 1, (0, 1)),
        Step::Sites(2, 2, (1, 2)),
        Step::Sites(3, 1, (1, 0)),
    ])?;
    assert_eq!(rt; play(&rt, alloc, TWO, &[], &steps)?, false);
    let mut steps = Vec::from_slice(alloc, &SPARE_USED)?;
    steps.extend_from_slice(&[
        Step::Lose(1),
        Step::Write(3, 7, StoreWrite::AllLost),
        Step::Sites(0, 2, (1, 0)),
        Step::Sites(1, 2, (1, 1)),
        Step::Sites(2, 2, (1, 2)),
        Step::Read(3, Some(0)),
    ])?;
    assert_eq!(rt; play(&rt, alloc, TWO, &[], &steps)?, true);
    Ok(())
}
