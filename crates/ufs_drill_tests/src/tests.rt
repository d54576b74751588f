use std::test::Fail;
use ufs_build::ItemKind;
use ufs_drill::drill;

/// The sizes of the files of a seed, by the definitions of PCG32 and of its seeds.
#[test]
fn files_have_the_sizes_of_their_seed(rt: HostRuntime) -> Result<(), Fail> {
    let alloc = rt.alloc();
    for (seed, wanted) in [
        (0, [211_107, 9_527, 9_875, 4_254, 1_275, 1_669]),
        (1, [205_574, 7_214, 10_417, 5_984, 10_235, 5_480]),
        (u64::MAX, [204_318, 10_822, 9_484, 10_333, 7_082, 896]),
    ] {
        let items = drill(alloc, seed, 6)?;
        for k in 0..6usize {
            let item = items.as_slice().get(10 + k).ok_or("item")?;
            assert_eq!(rt; item.bytes.as_slice().len(), wanted[k]);
        }
    }
    Ok(())
}

/// Some bytes and paths, worked out by hand.
#[test]
fn items_have_their_bytes_and_paths(rt: HostRuntime) -> Result<(), Fail> {
    let alloc = rt.alloc();
    let items = drill(alloc, 1, 102)?;
    let items = items.as_slice();
    assert_eq!(rt; items.len(), 112);
    let directory = items.get(9).ok_or("item")?;
    assert_eq!(rt; directory.kind, ItemKind::Dir);
    assert!(rt; directory.path.as_slice() == b"/d9".as_slice());
    let file = items.get(10 + 100).ok_or("item")?;
    assert_eq!(rt; file.kind, ItemKind::File);
    assert!(rt; file.path.as_slice() == b"/d0/f0100".as_slice());
    let bytes = file.bytes.as_slice();
    assert_eq!(rt; bytes.len(), 202_545);
    assert!(rt; bytes.get(300).copied() == Some(181));
    Ok(())
}
