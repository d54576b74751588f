ghost use Rattle.std.specs.Prelude.{◌≡◌};

use dg_claims::{Claims, scan};
use dg_infer::{Inference, Inferred};
use dg_io::{Loss, MemView, View};
use std::alloc::Global;
use std::marker::Model;
use std::test::Fail;
use ufs_pointer::Levels;
use ufs_samples::{Which, sample_image};

/// Bytes of a block, and the number of blocks.
const BLOCK: u32 = 1024;

const BLOCKS: u32 = 128;

/// The blocks of an array, with its inference.
#[derive(Drop)]
struct Array {
    image: Vec<u8>,
    levels: Levels,
    inference: Inference,
}

impl Model for Array {
    ghost use Rattle.std.specs.Prelude.{◌≡◌};
    ghost use Rattle.dg_infer.specs.Meanings.{KeptInference};

    ghost Value = { KeptInference };

    ghost view = { λ array. array.inference };

    ghost invariant = { λ array. (array.inference.l ≡ 1024) × (array.inference.n ≡ 128) };
}

/// The 128 blocks of a volume.
fn image_of(alloc: Global, which: Which) -> Result<Vec<u8>, Fail> {
    match sample_image(alloc, which) {
        Ok(image) => Ok(image),
        Err(_) => Err("memory".into()),
    }
}

/// An array of zeros.
fn blank(alloc: Global) -> Result<Array, Fail> {
    let Ok(levels) = Levels::new(alloc, BLOCK) else {
        return Err("levels".into());
    };
    let Ok(inference) = Inference::new(alloc, BLOCK, BLOCKS) else {
        return Err("inference".into());
    };
    Ok(Array {
        image: vec![in alloc; 0u8; 131072]?,
        levels,
        inference,
    })
}

/// A write of a block that the view has, with these bytes now. It answers whether each block that had to be read could be.
fn take<V: View>(
    alloc: Global,
    inference: &mut Inference,
    view: &mut V,
    levels: &mut Levels,
    block: u32,
    bytes: &[u8],
) -> Result<bool, Fail>
    requires sound { V.is_sound view.old }
    requires size { inference.old.l ≡ V.size view.old }
    requires count { inference.old.n ≡ V.count view.old }
    ensures { (inference.new.l ≡ inference.old.l) × (inference.new.n ≡ inference.old.n) }
{
    let (l, n) = view.shape();
    if levels.fragment_bytes() != l || block >= n || bytes.len() != l as usize {
        return Err("bytes".into());
    }
    let Ok(inferred) = inference.written(alloc, view, levels, block, bytes) else {
        return Err("memory".into());
    };
    match inferred {
        Inferred::Known(moved) => {
            inference.mark(block, &moved);
            Ok(true)
        }
        Inferred::Gone => Ok(false),
    }
}

/// Writes a block as it is in another image, on an array some of whose blocks are gone, with the same answer.
fn write_with(
    alloc: Global,
    array: &mut Array,
    from: &[u8],
    block: u32,
    losses: Vec<Loss>,
) -> Result<bool, Fail> {
    if block >= BLOCKS || from.len() != 131072 || array.image.len() != 131072 {
        return Err("block".into());
    }
    let start = block as usize * 1024;
    let bytes = &from[start..start + 1024];
    array.image[start..start + 1024].copy_from_slice(bytes);
    let image = array.image.clone()?;
    if image.len() != 131072 {
        return Err("image".into());
    }
    let mut view = MemView::new(image, BLOCK, BLOCKS, losses);
    take(
        alloc,
        &mut array.inference,
        &mut view,
        &mut array.levels,
        block,
        bytes,
    )
}

/// Whether two tables have the same claims on each fragment.
fn have_same_claims(one: &Claims, other: &Claims) -> bool {
    for fragment in 0..BLOCKS {
        if one.claims_on(fragment) != other.claims_on(fragment) {
            return false;
        }
        for i in 0..one.claims_on(fragment) {
            if one.claim(fragment, i) != other.claim(fragment, i) {
                return false;
            }
        }
    }
    true
}

/// Whether what is kept is what a scan of the blocks gives.
fn is_scanned(alloc: Global, array: &mut Array) -> Result<bool, Fail> {
    let image = array.image.clone()?;
    if image.len() != 131072 || array.levels.fragment_bytes() != BLOCK {
        return Err("image".into());
    }
    let mut view = MemView::new(image, BLOCK, BLOCKS, Vec::new(alloc));
    let Ok(Some(fresh)) = scan(alloc, &mut view, &mut array.levels) else {
        return Err("scan".into());
    };
    Ok(
        have_same_claims(array.inference.claims(), &fresh)
            && array.inference.claims().geometry() == fresh.geometry(),
    )
}

/// Writes some blocks in their order, and answers whether what is kept is what a scan gives after each of them.
fn are_scans(alloc: Global, array: &mut Array, from: &[u8], blocks: &[u32]) -> Result<bool, Fail> {
    for block in blocks {
        if !write_with(alloc, array, from, *block, Vec::new(alloc))? {
            return Err("gone".into());
        }
        if !is_scanned(alloc, array)? {
            return Ok(false);
        }
    }
    Ok(true)
}

/// F and the volume in the other order of bytes over one another: the superblock is refused in between, and indirect blocks come
/// before their inode. Then all files go, and come again.
#[test]
fn writes_are_scans(rt: HostRuntime) -> Result<(), Fail> {
    let alloc = rt.alloc();
    let mut array = blank(alloc)?;
    for which in [Which::F, Which::Fb, Which::F, Which::E, Which::F] {
        let image = image_of(alloc, which)?;
        assert!(rt; are_scans(alloc, &mut array, &image, &[88, 84, 28, 9, 8])?);
    }
    Ok(())
}

/// How many blocks a regular file has.
fn block_count(alloc: Global, array: &Array, inode: u32) -> Result<usize, Fail> {
    let Ok(blocks) = array.inference.file_blocks(alloc, inode) else {
        return Err("memory".into());
    };
    Ok(blocks.len())
}

/// Sets the low byte of the first slot of inode 6. The inodes begin at block 28, and an inode's slots at its byte 40.
fn set_slot(image: &mut [u8], pointer: u8) -> Result<(), Fail> {
    if image.len() != 131072 {
        return Err("image".into());
    }
    image[29480] = pointer;
    Ok(())
}

/// The empty inode 6 then claims the block of inode 3, that of 4 and the first two of 5, which are nobody's from then on.
#[test]
fn blocks_of_files(rt: HostRuntime) -> Result<(), Fail> {
    let alloc = rt.alloc();
    let mut image = image_of(alloc, Which::F)?;
    let mut array = blank(alloc)?;
    assert!(rt; are_scans(alloc, &mut array, &image, &[8, 9, 28, 84])?);
    for (inode, count) in [(3, 1), (5, 56), (4, 0), (8, 0), (32, 0), (4294967295, 0)] {
        assert_eq!(rt; block_count(alloc, &array, inode)?, count);
    }
    set_slot(&mut image, 34)?;
    assert!(rt; are_scans(alloc, &mut array, &image, &[28])?);
    for (inode, count) in [(3, 0), (5, 54), (6, 0)] {
        assert_eq!(rt; block_count(alloc, &array, inode)?, count);
    }
    Ok(())
}

#[test]
fn a_block_that_is_gone(rt: HostRuntime) -> Result<(), Fail> {
    let alloc = rt.alloc();
    let image = image_of(alloc, Which::F)?;
    let mut array = blank(alloc)?;
    assert!(rt; are_scans(alloc, &mut array, &image, &[8, 9, 84])?);
    let mut losses = Vec::new(alloc);
    losses.push(Loss {
        block: 84,
        fetch: 0,
    })?;
    assert!(rt; !write_with(alloc, &mut array, &image, 28, losses)?);
    let marks = array.inference.into_marks();
    assert_eq!(rt; (marks.get(83), marks.get(84)), (Some(&false), Some(&true)));
    Ok(())
}

/// Of the blocks that are marked, those that nothing claims stay so.
#[test]
fn an_inference_that_is_restored(rt: HostRuntime) -> Result<(), Fail> {
    let alloc = rt.alloc();
    let image = image_of(alloc, Which::F)?;
    let pending = vec![in alloc; true; 128]?;
    let Ok(mut levels) = Levels::new(alloc, BLOCK) else {
        return Err("levels".into());
    };
    if image.len() != 131072 {
        return Err("image".into());
    }
    let mut view = MemView::new(image, BLOCK, BLOCKS, Vec::new(alloc));
    let Ok(Some(inference)) = Inference::restored(alloc, &mut view, &mut levels, &pending) else {
        return Err("restored".into());
    };
    assert_eq!(rt; inference.next_pending(0), Some(94));
    Ok(())
}
