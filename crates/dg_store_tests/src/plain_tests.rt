// A store over a plain rack, which has no disks and keeps no checkpoint: it says so, and its blocks are as they were.
use crate::tests::TWO;
use dg_io::{CommitAnswer, DropAnswer, MemRack, MendAnswer};
use dg_store::{Fetched, Shape, Store, StoreWrite};
use std::test::Fail;

#[test]
fn a_plain_rack_answers_through_its_store(rt: HostRuntime) -> Result<(), Fail> {
    let alloc = rt.alloc();
    let (n, b, k) = TWO;
    let shape = Shape::check(512, n, b, k, 1).ok_or("shape")?;
    let rack = MemRack::new(alloc, 4, 4096, Vec::new(alloc))?;
    let mut store = Store::new(alloc, rack, shape)?;
    assert_eq!(rt; store.write(1, &[7; 512]), Ok(StoreWrite::Stored));
    assert_eq!(rt; (store.room(), store.disks()), (None, None));
    assert_eq!(rt; store.drop_disk(1, 2), DropAnswer::Plain);
    assert_eq!(rt; store.mend(1, 2), MendAnswer::Plain);
    let mut block = [0; 512];
    assert_eq!(rt; store.read(1, &mut block), Fetched::Got);
    assert_eq!(rt; block[511], 7);
    let committed = CommitAnswer::Committed {
        sequence: 0,
        fell: 0,
    };
    assert_eq!(rt; store.commit(15, b"beside"), committed);
    Ok(())
}
