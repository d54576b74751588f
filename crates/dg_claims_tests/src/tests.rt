ghost use Rattle.std.specs.Prelude.{◌≡◌, ◌<◌, IfOk, length};

use dg_claims::{ClaimSource, Claims, Run, scan};
use dg_io::{Loss, MemView};
use std::alloc::Global;
use std::test::Fail;
use ufs_pointer::Levels;
use ufs_samples::{Which, sample_image};

/// The 128 blocks of the volume F.
fn volume_f(alloc: Global) -> Result<Vec<u8>, Fail>
    ensures { IfOk result (λ image. length image.items ≡ 131072) }
{
    match sample_image(alloc, Which::F) {
        Ok(image) => Ok(image),
        Err(_) => Err("memory".into()),
    }
}

/// Sets a slot of an inode. The inodes begin at block 28, and an inode's slots at its byte 40.
fn set_slot(image: &mut [u8], inode: usize, slot: usize, pointer: u32)
    requires image { length image.old ≡ 131072 }
    requires inode { inode < 32 }
    requires slot { slot < 15 }
{
    let at = 28672 + 128 * inode + 40 + 4 * slot;
    image[at..at + 4].copy_from_slice(&pointer.to_le_bytes());
}

/// The claims of an image of 128 blocks, some of which are gone.
fn scanned(alloc: Global, image: Vec<u8>, losses: Vec<Loss>) -> Result<Option<Claims>, Fail>
    requires { length image.items ≡ 131072 }
{
    let mut view = MemView::new(image, 1024, 128, losses);
    let Ok(mut levels) = Levels::new(alloc, 1024) else {
        return Err("levels".into());
    };
    match scan(alloc, &mut view, &mut levels) {
        Ok(claims) => Ok(claims),
        Err(_) => Err("memory".into()),
    }
}

/// The claims of an image of 128 blocks.
fn claims_of(alloc: Global, image: Vec<u8>) -> Result<Claims, Fail>
    requires { length image.items ≡ 131072 }
{
    match scanned(alloc, image, Vec::new(alloc))? {
        Some(claims) => Ok(claims),
        None => Err("gone".into()),
    }
}

/// The file of inode 5 has the blocks 88 to 91 through the indirect block at 84.
#[test]
fn a_source_in_the_volume_f(rt: HostRuntime) -> Result<(), Fail> {
    let alloc = rt.alloc();
    let claims = claims_of(alloc, volume_f(alloc)?)?;
    let pointer = ClaimSource::Pointer {
        fragment: 84,
        level: 1,
        at: 0,
    };
    let nowhere = ClaimSource::Pointer {
        fragment: 84,
        level: 1,
        at: 1 << 16,
    };
    assert_eq!(rt; claims.owner(88), Some((5, 0)));
    assert_eq!(rt; claims.only_claim(88), Some(pointer));
    assert_eq!(rt; claims.only_claim(u32::MAX), None);
    let run = Run {
        first: 88,
        count: 4,
    };
    assert_eq!(rt; claims.run(&pointer), Some(run));
    assert_eq!(rt; claims.run(&nowhere), None);
    Ok(())
}

/// The single indirect slot of inode 3 and the first slots of inodes 6 and 7 lead to the first fragment that is found through the
/// indirect block of inode 5. The claims at the lower level come first, a slot comes before a pointer, and the lower inode before the
/// other. Then claims are removed in front of others, between them, and behind them.
#[test]
fn four_claims_in_their_order(rt: HostRuntime) -> Result<(), Fail> {
    let alloc = rt.alloc();
    let mut image = volume_f(alloc)?;
    set_slot(&mut image, 3, 12, 88);
    set_slot(&mut image, 6, 0, 88);
    set_slot(&mut image, 7, 0, 88);
    let mut claims = claims_of(alloc, image)?;
    let slot = ClaimSource::Slot { inode: 6, slot: 0 };
    let next = ClaimSource::Slot { inode: 7, slot: 0 };
    let pointer = ClaimSource::Pointer {
        fragment: 84,
        level: 1,
        at: 0,
    };
    let upper = ClaimSource::Slot { inode: 3, slot: 12 };
    for (i, claim) in [
        (0, Some((0, slot))),
        (1, Some((0, next))),
        (2, Some((0, pointer))),
        (3, Some((1, upper))),
        (4, None),
        (u32::MAX, None),
    ] {
        assert_eq!(rt; claims.claim(88, i), claim, "claim {i}");
    }
    assert_eq!(rt; (claims.claims_on(88), claims.shared(88)), (4, Some(4)));
    assert!(rt; claims.has_level(88, 1) && !claims.has_level(88, 2));
    claims.remove_source(&slot);
    claims.remove_pointers(84, 1);
    assert_eq!(rt; claims.claim(88, 0), Some((0, next)));
    assert_eq!(rt; claims.claim(88, 1), Some((1, upper)));
    claims.remove_inode(3);
    assert_eq!(rt; claims.only_claim(88), Some(next));
    assert_eq!(rt; claims.owner(34), None);
    Ok(())
}

/// Where the indirect block of inode 5 is claimed by inode 6 too, what it leads to has one claim and no owner.
#[test]
fn a_shared_indirect_block(rt: HostRuntime) -> Result<(), Fail> {
    let alloc = rt.alloc();
    let mut image = volume_f(alloc)?;
    set_slot(&mut image, 6, 0, 84);
    let claims = claims_of(alloc, image)?;
    assert_eq!(rt; (claims.claims_on(88), claims.shared(88)), (1, Some(2)));
    assert_eq!(rt; claims.owner(88), None);
    assert_eq!(rt; claims.shared(36), None);
    Ok(())
}

/// The superblock is in blocks 8 and 9, inodes are in 28 to 31, and 84 to 87 are the indirect block. Data isn't read.
#[test]
fn blocks_that_are_gone(rt: HostRuntime) -> Result<(), Fail> {
    let alloc = rt.alloc();
    for (block, known) in [
        (7, true),
        (9, false),
        (24, true),
        (28, false),
        (87, false),
        (88, true),
    ] {
        let losses = vec![in alloc; Loss { block, fetch: 0 }]?;
        let claims = scanned(alloc, volume_f(alloc)?, losses)?;
        assert_eq!(rt; claims.is_some(), known, "without {block}");
    }
    Ok(())
}
