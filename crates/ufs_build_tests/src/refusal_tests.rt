use crate::volumes::{item, small_spec};
use std::alloc::Global;
use std::test::Fail;
use ufs_build::{BuildRefused, Item, ItemKind, Items, Spec, What, build};
use ufs_model::Endian;

/// How the building of items ends.
fn end_of(alloc: Global, spec: &Spec, items: Vec<Item>) -> Result<(), BuildRefused> {
    match build(alloc, spec, &Items::new(items)) {
        Ok(_) => Ok(()),
        Err(refused) => Err(refused),
    }
}

/// How the building of one item ends.
fn end_of_one(
    alloc: Global,
    path: &[u8],
    kind: ItemKind,
    bytes: &[u8],
) -> Result<Result<(), BuildRefused>, Fail> {
    let mut items = Vec::new(alloc);
    items.push(item(alloc, path, kind, bytes)?)?;
    Ok(end_of(alloc, &small_spec(Endian::Little), items))
}

/// The first item can't stand there.
const BAD: Result<(), BuildRefused> = Err(BuildRefused::BadItem(0));

#[test]
fn items_that_cannot_stand(rt: HostRuntime) -> Result<(), Fail> {
    let alloc = rt.alloc();
    assert_eq!(rt; end_of_one(alloc, b"/a", ItemKind::File, b"x")?, Ok(()));
    assert_eq!(rt; end_of_one(alloc, b"/", ItemKind::Dir, b"")?, BAD);
    assert_eq!(rt; end_of_one(alloc, b"a", ItemKind::File, b"")?, BAD);
    assert_eq!(rt; end_of_one(alloc, b"/a/b", ItemKind::File, b"")?, BAD);
    assert_eq!(rt; end_of_one(alloc, b"/.", ItemKind::File, b"")?, BAD);
    assert_eq!(rt; end_of_one(alloc, b"/..", ItemKind::File, b"")?, BAD);
    assert_eq!(rt; end_of_one(alloc, b"/d", ItemKind::Dir, b"x")?, BAD);
    Ok(())
}

#[test]
fn items_beside_others(rt: HostRuntime) -> Result<(), Fail> {
    let alloc = rt.alloc();
    let spec = small_spec(Endian::Little);
    let mut items = Vec::new(alloc);
    items.push(item(alloc, b"/a", ItemKind::File, b"")?)?;
    items.push(item(alloc, b"/a/b", ItemKind::File, b"")?)?;
    assert_eq!(rt; end_of(alloc, &spec, items), Err(BuildRefused::BadItem(1)));
    let mut items = Vec::new(alloc);
    items.push(item(alloc, b"/a", ItemKind::File, b"")?)?;
    items.push(item(alloc, b"/a", ItemKind::Dir, b"")?)?;
    assert_eq!(rt; end_of(alloc, &spec, items), Err(BuildRefused::BadItem(1)));
    Ok(())
}

#[test]
fn refusals_in_their_order(rt: HostRuntime) -> Result<(), Fail> {
    let alloc = rt.alloc();
    let long = vec![in alloc; 7u8; 200_000]?;
    let spec = small_spec(Endian::Little);
    let mut items = Vec::new(alloc);
    items.push(item(alloc, b"/long", ItemKind::File, &long)?)?;
    assert_eq!(rt;
        end_of(alloc, &spec, items),
        Err(BuildRefused::TooMany(What::Fragments))
    );
    let mut items = Vec::new(alloc);
    items.push(item(alloc, b"/long", ItemKind::File, &long)?)?;
    items.push(item(alloc, b"/long", ItemKind::File, b"")?)?;
    assert_eq!(rt; end_of(alloc, &spec, items), Err(BuildRefused::BadItem(1)));
    let mut items = Vec::new(alloc);
    for _turn in 0..30 {
        items.push(item(alloc, b"/long", ItemKind::File, &long)?)?;
    }
    assert_eq!(rt;
        end_of(alloc, &spec, items),
        Err(BuildRefused::TooMany(What::Inodes))
    );
    let mut spec = spec;
    spec.frag = 3;
    let mut items = Vec::new(alloc);
    for _turn in 0..30 {
        items.push(item(alloc, b"/long", ItemKind::File, b"")?)?;
    }
    assert_eq!(rt;
        end_of(alloc, &spec, items),
        Err(BuildRefused::TooMany(What::Spec))
    );
    Ok(())
}
