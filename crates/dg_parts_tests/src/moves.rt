// Moves of the blocks of a small volume. What is where, and how many placements are missing, is worked out by hand.
ghost use Rattle.std.specs.Prelude.{◌≡◌, IfOk};
ghost use Rattle.std.specs.Bool.{OnTrue};
ghost use Rattle.dg_model.specs.Wants.{FitWants};
ghost use Rattle.dg_plan.specs.Planned.{KeepsRules};
ghost use Rattle.dg_plan.specs.Targets.{blocks_in};
ghost use Rattle.dg_store.specs.Stores.{IsSound, shape_of, table_of};

use dg_io::{MemRack, Rack, SureRack};
use dg_move::{NoMemory, Targets, TendAnswer, limit_of_all, tend};
use dg_plan::{Homes, Parent, Parents, Want, Wants, plan, targets_of_plans};
use dg_store::{FailAnswer, Shape, Store, StoreWrite};
use std::alloc::Global;
use std::process::Abort;
use std::test::Fail;

/// What so many blocks are to the plan.
type Run = (Option<Want>, u32);

/// Boundaries, slots of a member and places of a naming block, of an array of 128 blocks of 1024 bytes.
type Numbers = (u32, u32, u32);

const BLANK: Option<Want> = None;

const KEPT: Option<Want> = Some(Want::Kept);

const FILE_3: Option<Want> = Some(Want::File(3));

const FILE_5: Option<Want> = Some(Want::File(5));

const FILE_7: Option<Want> = Some(Want::File(7));

/// A volume of a directory with a file of 53 blocks, beside two files of the root: 62 blocks are written.
const TREE: &[Run] = &[
    (BLANK, 8),
    (KEPT, 2),
    (BLANK, 14),
    (KEPT, 1),
    (BLANK, 3),
    (KEPT, 1),
    (BLANK, 4),
    (KEPT, 1),
    (FILE_3, 1),
    (KEPT, 1),
    (FILE_5, 49),
    (BLANK, 3),
    (FILE_5, 4),
    (FILE_7, 2),
    (BLANK, 34),
];

const TREE_PARENTS: &[(u32, u32)] = &[(3, 2), (4, 2), (5, 4), (6, 2), (7, 2)];

const TREE_NUMBERS: Numbers = (4, 64, 2);

/// How many placements of the volume are missing once its blocks are written in their order.
const TREE_MISSING: u32 = 49;

/// Each member has room for its slots and what stands beside them.
const LENGTH: u64 = 131_072;

fn wants_of(alloc: Global, runs: &[Run]) -> Result<Wants, Fail> {
    let mut wants = Vec::new(alloc);
    for (want, count) in runs {
        for _ in 0..*count {
            wants.push(*want)?;
        }
    }
    Ok(Wants::new(wants))
}

fn parents_of(alloc: Global, pairs: &[(u32, u32)]) -> Result<Parents, Fail> {
    let mut parents = Vec::new(alloc);
    for (inode, directory) in pairs {
        parents.push(Parent {
            inode: *inode,
            directory: *directory,
        })?;
    }
    Ok(Parents::new(parents))
}

/// Just the blocks with a want are written.
fn fits<R: Rack>(store: &Store<R>, wants: &Wants) -> bool
    requires { IsSound R.Rack store.now }
    ensures { OnTrue result (FitWants (table_of store.now) wants.now) }
{
    let wants = wants.as_slice();
    let blocks = store.shape().n;
    if wants.len() != blocks as usize {
        return false;
    }
    for block in 0..blocks {
        if store.written(block) != wants[block as usize].is_some() {
            return false;
        }
    }
    true
}

/// An array whose blocks with a want are written, ascending.
fn write_all<R: Rack>(rt: &impl Abort, store: &mut Store<R>, wants: &Wants)
    requires sound { IsSound R.Rack store.old }
    requires size { (shape_of store.old).l ≡ 1024 }
    ensures sound { IsSound R.Rack store.new }
    ensures shape { shape_of store.new ≡ shape_of store.old }
{
    let wants = wants.as_slice();
    for block in 0..store.shape().n {
        assert!(rt; (block as usize) < wants.len());
        if wants[block as usize].is_some() {
            let bytes = [(block % 256) as u8; 1024];
            assert_eq!(rt; store.write(block, &bytes), Ok(StoreWrite::Stored));
        }
    }
}

/// Such an array over a rack.
fn array<R: Rack + Drop>(
    rt: &impl Abort,
    alloc: Global,
    rack: R,
    numbers: Numbers,
    wants: &Wants,
) -> Result<Store<R>, Fail>
    ensures { IfOk result (IsSound R.Rack) }
{
    let (b, k, m) = numbers;
    let shape = Shape::check(1024, 128, b, k, m).ok_or("shape")?;
    let Ok(mut store) = Store::new(alloc, rack, shape) else {
        return Err("store".into());
    };
    assert!(rt; store.shape().l == 1024);
    write_all(rt, &mut store, wants);
    Ok(store)
}

/// Where the blocks of an array are to stand.
fn planned<R: Rack>(
    alloc: Global,
    store: &Store<R>,
    wants: &Wants,
    parents: &[(u32, u32)],
) -> Result<Targets, Fail>
    requires sound { IsSound R.Rack store.now }
    ensures rules { IfOk result (KeepsRules (shape_of store.now) wants.now) }
    ensures size { IfOk result (λ targets. blocks_in targets ≡ (shape_of store.now).n) }
{
    let shape = store.shape();
    if wants.as_slice().len() != shape.n as usize {
        return Err("blocks".into());
    }
    let parents = parents_of(alloc, parents)?;
    let homes = Homes::new(Vec::new(alloc));
    match plan(alloc, wants, &homes, &parents, shape) {
        Ok(Ok(targets)) => Ok(targets),
        Ok(Err(_)) => Err("room".into()),
        Err(_) => Err("memory".into()),
    }
}

/// Moves blocks of an array of which no boundary is lost.
fn moved<R: Rack>(
    rt: &impl Abort,
    store: &mut Store<R>,
    wants: &Wants,
    targets: &Targets,
    limit: u32,
) -> Result<TendAnswer, NoMemory>
    requires sound { IsSound R.Rack store.old }
    requires rules { KeepsRules (shape_of store.old) wants.now targets.now }
    requires size { blocks_in targets.now ≡ (shape_of store.old).n }
    ensures sound { IsSound R.Rack store.new }
    ensures shape { shape_of store.new ≡ shape_of store.old }
{
    targets_of_plans();
    assert!(rt; fits(store, wants));
    assert!(rt; !store.is_degraded());
    tend(store, targets, limit)
}

/// The same sites, block by block.
fn check_same<R: Rack, S: Rack>(rt: &impl Abort, store: &Store<R>, other: &Store<S>)
    requires one { IsSound R.Rack store.now }
    requires two { IsSound S.Rack other.now }
{
    assert_eq!(rt; store.shape(), other.shape());
    for block in 0..store.shape().n {
        assert_eq!(rt;
            store.map().sites(block),
            other.map().sites(block),
            "{block}"
        );
    }
}

/// One side of each boundary fails.
fn fail_sides<R: Rack>(rt: &impl Abort, store: &mut Store<R>)
    requires sound { IsSound R.Rack store.old }
    ensures sound { IsSound R.Rack store.new }
    ensures shape { shape_of store.new ≡ shape_of store.old }
{
    for boundary in 0..store.shape().b {
        assert_eq!(rt; store.fail(boundary, 1), FailAnswer::Taken);
    }
}

/// Moves the blocks of the volume with files over one side of each boundary, where one call of the rack fails: a boundary is
/// lost then, and the sites are those of an array on which just the copies before were made.
fn check_loss<R: Rack>(
    rt: &impl Abort,
    alloc: Global,
    wants: &Wants,
    call: u64,
    before: &Store<R>,
) -> Result<(), Fail>
    requires { IsSound R.Rack before.now }
{
    let Ok(rack) = MemRack::new(alloc, 8, LENGTH, vec![in alloc; call]?) else {
        return Err("rack".into());
    };
    let mut store = array(rt, alloc, rack, TREE_NUMBERS, wants)?;
    let targets = planned(alloc, &store, wants, TREE_PARENTS)?;
    fail_sides(rt, &mut store);
    let answer = moved(rt, &mut store, wants, &targets, 99);
    let lost = store.least_lost();
    assert!(rt; lost.is_some());
    assert_eq!(rt; answer.ok(), lost.map(TendAnswer::Lost), "call {call}");
    check_same(rt, &store, before);
    Ok(())
}

/// The first call on the rack in a move: 8 blank the members, and two write each of the 62 blocks.
const FIRST_CALL: u64 = 132;

/// Copies one block after another, and lets each call of each copy fail on another array.
fn check_losses<R: Rack>(
    rt: &impl Abort,
    alloc: Global,
    wants: &Wants,
    targets: &Targets,
    store: &mut Store<R>,
) -> Result<(), Fail>
    requires sound { IsSound R.Rack store.old }
    requires rules { KeepsRules (shape_of store.old) wants.now targets.now }
    requires size { blocks_in targets.now ≡ (shape_of store.old).n }
{
    for copies in 0..TREE_MISSING {
        let call = FIRST_CALL + 2 * u64::from(copies);
        check_loss(rt, alloc, wants, call, store)?;
        check_loss(rt, alloc, wants, call + 1, store)?;
        let left = TREE_MISSING - copies - 1;
        let answer = moved(rt, store, wants, targets, 1);
        assert_eq!(rt; answer, Ok(TendAnswer::Tended { moved: 1, left }));
    }
    Ok(())
}

/// Each copy is a read and a write. Where the read fails, its block is gone; where the write does, its boundary is lost.
#[test]
fn a_loss_leaves_the_copies_before(rt: HostRuntime) -> Result<(), Fail> {
    let alloc = rt.alloc();
    let wants = wants_of(alloc, TREE)?;
    let Ok(rack) = SureRack::new(alloc, 8, LENGTH) else {
        return Err("rack".into());
    };
    let mut store = array(&rt, alloc, rack, TREE_NUMBERS, &wants)?;
    let targets = planned(alloc, &store, &wants, TREE_PARENTS)?;
    check_losses(&rt, alloc, &wants, &targets, &mut store)
}

/// The law is a function that does nothing.
#[test]
fn law_can_be_called(_rt: HostRuntime) {
    limit_of_all();
}
