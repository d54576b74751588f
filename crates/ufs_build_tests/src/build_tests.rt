use crate::volumes::{bytes_of, contents_of, item, large_spec, small_spec, verdict_of};
use dg_model::Bytes;
use std::alloc::Global;
use std::test::Fail;
use ufs_build::{Item, ItemKind, Items, build};
use ufs_check::Verdict;
use ufs_model::Endian;
use ufs_path::CatAnswer;

/// Byte o of file k of the realistic volume, which has `(97*k) mod 9000` bytes.
fn file_bytes(alloc: Global, k: usize) -> Result<Bytes, Fail> {
    let mut bytes = Vec::new(alloc);
    for o in 0..k.wrapping_mul(97) % 9000 {
        let byte = u8::try_from(k.wrapping_add(o) % 251).unwrap_or(0);
        bytes.push(byte)?;
    }
    Ok(Bytes::new(bytes))
}

/// The path `/f` and a number in three digits.
fn file_path(alloc: Global, k: usize) -> Result<Bytes, Fail> {
    let mut path = Vec::new(alloc);
    path.push(b'/')?;
    path.push(b'f')?;
    for part in [k / 100, k / 10, k] {
        let digit = u8::try_from(part % 10).unwrap_or(0);
        path.push(b'0'.wrapping_add(digit))?;
    }
    Ok(Bytes::new(path))
}

/// So many bytes of which all but the last are zero.
fn big_bytes(alloc: Global, count: usize) -> Result<Bytes, Fail> {
    let mut bytes = vec![in alloc; 0; count]?;
    if let Some(last) = bytes.last_mut() {
        *last = 1;
    }
    Ok(Bytes::new(bytes))
}

/// The items of the realistic volume.
fn realistic_items(alloc: Global) -> Result<Items, Fail> {
    let mut items = Vec::new(alloc);
    for k in 1..301usize {
        items.push(Item {
            path: file_path(alloc, k)?,
            kind: ItemKind::File,
            bytes: file_bytes(alloc, k)?,
            sparse: false,
        })?;
    }
    items.push(Item {
        path: bytes_of(alloc, b"/big")?,
        kind: ItemKind::File,
        bytes: big_bytes(alloc, 16_883_712)?,
        sparse: true,
    })?;
    Ok(Items::new(items))
}

/// The realistic volume is sound in both orders of bytes, and some of its files are read back.
#[test]
fn the_realistic_volume(rt: HostRuntime) -> Result<(), Fail> {
    for endian in [Endian::Little, Endian::Big] {
        let items = realistic_items(rt.alloc())?;
        let image = build(rt.alloc(), &large_spec(endian), &items)?;
        assert_eq!(rt; image.len(), 8192 * 1024);
        let told = verdict_of(rt.alloc(), &image, 8192)?;
        assert_eq!(rt; told, Verdict::Sound);
        for item in [
            items.as_slice().first(),
            items.as_slice().get(92),
            items.as_slice().last(),
        ] {
            let item = item.ok_or("item")?;
            let wanted = item.bytes.as_slice();
            let (answer, bytes) = contents_of(
                rt.alloc(),
                &image,
                8192,
                item.path.as_slice(),
                16_883_712,
            )?;
            let count = u32::try_from(wanted.len()).unwrap_or(0);
            assert_eq!(rt; answer, CatAnswer::Given(count));
            assert!(rt; &*bytes == wanted);
        }
    }
    Ok(())
}

/// Directories of several chunks, links of both kinds, and names of all lengths.
#[test]
fn a_volume_of_many_kinds(rt: HostRuntime) -> Result<(), Fail> {
    let alloc = rt.alloc();
    let mut items = Vec::new(alloc);
    items.push(item(alloc, b"/d", ItemKind::Dir, b"")?)?;
    for k in 0..20u8 {
        let mut path = Vec::from_slice(alloc, b"/d/")?;
        for _letter in 0..k.wrapping_mul(12).wrapping_add(1) {
            path.push(b'a'.wrapping_add(k))?;
        }
        let kind = if k % 3 == 0 {
            ItemKind::Link
        } else {
            ItemKind::File
        };
        let bytes = bytes_of(alloc, &path)?;
        items.push(Item {
            path: Bytes::new(path),
            kind,
            bytes,
            sparse: k % 2 == 0,
        })?;
    }
    for endian in [Endian::Little, Endian::Big] {
        let mut spec = small_spec(endian);
        spec.fpg = 256;
        let mut copies = Vec::new(alloc);
        for item in &items {
            copies.push(Item {
                path: bytes_of(alloc, item.path.as_slice())?,
                kind: item.kind,
                bytes: bytes_of(alloc, item.bytes.as_slice())?,
                sparse: item.sparse,
            })?;
        }
        let image = build(alloc, &spec, &Items::new(copies))?;
        assert_eq!(rt; image.len(), 256 * 1024);
        let told = verdict_of(alloc, &image, 256)?;
        assert_eq!(rt; told, Verdict::Sound);
    }
    Ok(())
}
