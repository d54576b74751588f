use crate::volumes::{ENTRY_B, Edit, INODE_3, ROOT, found_on, is_found_without};
use std::test::Fail;
use ufs_audit::Findings;
use ufs_check::{BadKind, BadSuper};
use ufs_samples::{Which, sample_image};

/// A second slot of a file of 5 bytes, an indirect block that points to itself, an entry of the root in a
/// directory, and a block size that is no power of two.
const PAST: [Edit; 1] = [(INODE_3 + 44, &[96])];

const ITSELF: [Edit; 1] = [(84 * 1024, &[84])];

const TO_ROOT: [Edit; 1] = [(ENTRY_B, &[2])];

const BSIZE: [Edit; 1] = [(8192 + 48, &[0, 0x30])];

/// The findings are these.
fn is_found(found: &Findings, bad: &[(BadKind, u32)], unnamed: &[u32], unclaimed: &[u32]) -> bool {
    found.bad.as_slice() == bad
        && found.notes.unnamed.as_slice() == unnamed
        && found.notes.unclaimed.as_slice() == unclaimed
}

/// On the sample volumes there is nothing to find.
#[test]
fn sound_volumes(rt: HostRuntime) -> Result<(), Fail> {
    for which in [Which::E, Which::F, Which::Fb] {
        let found = found_on(rt.alloc(), which, &[])?;
        assert!(rt; is_found(&found, &[], &[], &[]), "{which:?}");
    }
    Ok(())
}

/// A slot past the end of a file is told, and each fragment that it claims, since all are marked free.
#[test]
fn a_slot_past_the_end(rt: HostRuntime) -> Result<(), Fail> {
    let found = found_on(rt.alloc(), Which::F, &PAST)?;
    let bad = [
        (BadKind::Past, 3),
        (BadKind::Free, 96),
        (BadKind::Free, 97),
        (BadKind::Free, 98),
        (BadKind::Free, 99),
    ];
    assert!(rt; is_found(&found, &bad, &[], &[]));
    Ok(())
}

/// With a root that names nothing the inodes that it named are unnamed, and nothing is malformed.
#[test]
fn an_empty_root(rt: HostRuntime) -> Result<(), Fail> {
    let empty = sample_image(rt.alloc(), Which::E)?;
    let root = empty.get(ROOT..ROOT + 1024).ok_or("root")?;
    let found = found_on(rt.alloc(), Which::F, &[(ROOT, root)])?;
    assert!(rt; is_found(&found, &[], &[3, 4, 6, 7], &[]));
    Ok(())
}

/// Several malformations are told in their order, with what they leave unclaimed or unnamed.
#[test]
fn several_malformations(rt: HostRuntime) -> Result<(), Fail> {
    let found = found_on(rt.alloc(), Which::F, &ITSELF)?;
    let twice = [
        (BadKind::Twice, 84),
        (BadKind::Twice, 85),
        (BadKind::Twice, 86),
        (BadKind::Twice, 87),
    ];
    assert!(rt; is_found(&found, &twice, &[], &[88, 89, 90, 91]));
    let found = found_on(rt.alloc(), Which::F, &TO_ROOT)?;
    let links = [(BadKind::EntryType, 4), (BadKind::RootNamed, 4)];
    assert!(rt; is_found(&found, &links, &[5], &[]));
    Ok(())
}

/// Of a superblock that is refused the refusal alone is told.
#[test]
fn a_superblock_that_is_refused(rt: HostRuntime) -> Result<(), Fail> {
    let found = found_on(rt.alloc(), Which::F, &BSIZE)?;
    let bad = [(BadKind::Super(BadSuper::Bsize), 0)];
    assert!(rt; is_found(&found, &bad, &[], &[]));
    Ok(())
}

/// The superblock is at 8 and 9, the group block at 24 to 27, inodes at 28 to 31. The root's directory is
/// at 33 and `/d` at 35. The indirect block is at 84 to 87. An audit needs these, and no other block.
#[test]
fn volumes_with_a_block_gone(rt: HostRuntime) -> Result<(), Fail> {
    for block in 0..128 {
        let wanted = !matches!(block, 8 | 9 | 24..=31 | 33 | 35 | 84..=87);
        let told = is_found_without(rt.alloc(), block)?;
        assert_eq!(rt; told, wanted, "without {block}");
    }
    Ok(())
}
