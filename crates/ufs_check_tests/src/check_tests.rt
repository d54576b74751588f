use crate::volumes::{ENTRY_B, Edit, INODE_3, verdict_by, verdict_without};
use dg_io::Loss;
use std::test::Fail;
use ufs_check::{BadKind, BadSuper, Verdict};
use ufs_samples::Which;

/// A block size that is no power of two, a second slot of a file of 5 bytes, and an entry of an inode that isn't allocated.
const BSIZE: [Edit; 1] = [(8192 + 48, &[0, 0x30])];

const PAST: [Edit; 1] = [(INODE_3 + 44, &[96])];

const ENTRY: [Edit; 1] = [(ENTRY_B, &[9])];

/// The superblock is at 8 and 9, the group block at 24 to 27, inodes at 28 to 31. The root's directory
/// is at 33 and `/d` at 35. The indirect block is at 84 to 87. Nothing else is fetched.
#[test]
fn volumes_with_a_block_gone(rt: HostRuntime) -> Result<(), Fail> {
    for block in 0..128 {
        let loss = Loss { block, fetch: 0 };
        let told = verdict_without(rt.alloc(), Which::F, 128, &[], loss)?;
        let wanted = match block {
            8 | 9 | 24..=31 | 33 | 35 | 84..=87 => Verdict::Gone,
            _ => Verdict::Sound,
        };
        assert_eq!(rt; told, wanted, "without {block}");
    }
    Ok(())
}

/// A block that is gone from some fetch on is missed only where it is still to be fetched.
#[test]
fn volumes_with_a_block_gone_later(rt: HostRuntime) -> Result<(), Fail> {
    for block in [8, 24, 28, 33, 35, 84] {
        let mut last = Verdict::Gone;
        for fetch in [0, 1, 2, 4, 8, 16, 32, 64, 128, 4096] {
            let loss = Loss { block, fetch };
            let told = verdict_without(rt.alloc(), Which::F, 128, &[], loss)?;
            assert!(rt;
                told == last || told == Verdict::Sound,
                "without {block} from {fetch} on"
            );
            last = told;
        }
        assert_eq!(rt; last, Verdict::Sound, "without {block}");
    }
    Ok(())
}

/// A fault isn't told where a block is gone that is read for it: the superblock, then the metadata, then
/// the directories too.
#[test]
fn faults_with_a_block_gone(rt: HostRuntime) -> Result<(), Fail> {
    let bad = Verdict::Malformed(BadKind::Super(BadSuper::Bsize), 0);
    let past = Verdict::Malformed(BadKind::Past, 3);
    let rows: [(&[Edit], u32, Verdict); 7] = [
        (&BSIZE, 9, Verdict::Gone),
        (&BSIZE, 24, bad),
        (&PAST, 24, Verdict::Gone),
        (&ENTRY, 33, Verdict::Gone),
        (&PAST, 33, past),
        (&PAST, 35, past),
        (&PAST, 96, past),
    ];
    for (edits, block, wanted) in rows {
        let loss = Loss { block, fetch: 0 };
        let told = verdict_without(rt.alloc(), Which::F, 128, edits, loss)?;
        assert_eq!(rt; told, wanted, "{edits:?} without {block}");
    }
    Ok(())
}

/// By a table of another geometry no volume is sound: of one of fewer fragments, of none, and of the other
/// order of bytes.
#[test]
fn a_table_of_another_volume(rt: HostRuntime) -> Result<(), Fail> {
    let other = Verdict::Malformed(BadKind::Super(BadSuper::Layout), 0);
    let shorter: [Edit; 1] = [(8192 + 36, &[127])];
    let tables: [(Which, &[Edit]); 3] = [
        (Which::F, &BSIZE),
        (Which::F, &shorter),
        (Which::Fb, &[]),
    ];
    for (which, edits) in tables {
        let told = verdict_by(rt.alloc(), which, edits)?;
        assert_eq!(rt; told, other, "{which:?} with {edits:?}");
    }
    let same = verdict_by(rt.alloc(), Which::F, &[])?;
    assert_eq!(rt; same, Verdict::Sound);
    Ok(())
}
