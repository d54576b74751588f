// The files of the volumes.
use dg_model::Bytes;
use std::alloc::{AllocError, Global};
use ufs_build::{Item, ItemKind, Items};

/// A file with these bytes.
fn file(alloc: Global, path: &[u8], bytes: Vec<u8>) -> Result<Item, AllocError> {
    Ok(Item {
        path: Bytes::new(Vec::from_slice(alloc, path)?),
        kind: ItemKind::File,
        bytes: Bytes::new(bytes),
        sparse: true,
    })
}

/// A directory.
fn directory(alloc: Global, path: &[u8]) -> Result<Item, AllocError> {
    Ok(Item {
        path: Bytes::new(Vec::from_slice(alloc, path)?),
        kind: ItemKind::Dir,
        bytes: Bytes::new(Vec::new(alloc)),
        sparse: false,
    })
}

/// A fragment of each value from 1 to 52.
fn long_bytes(alloc: Global) -> Result<Vec<u8>, AllocError> {
    let mut bytes = Vec::new(alloc);
    for value in 1..53u8 {
        bytes.extend_from_slice(&[value; 1024])?;
    }
    Ok(bytes)
}

/// A file block of zeros, and then 1500 bytes `h`.
fn hole_bytes(alloc: Global) -> Result<Vec<u8>, AllocError> {
    let mut bytes = vec![in alloc; 0; 4096]?;
    bytes.extend_from_slice(&[b'h'; 1500])?;
    Ok(bytes)
}

/// Files of five bytes, of 13 file blocks, of none, and with a hole.
pub fn many_files(alloc: Global) -> Result<Items, AllocError> {
    let mut items = Vec::new(alloc);
    items.push(file(alloc, b"/a", Vec::from_slice(alloc, b"hello")?)?)?;
    items.push(directory(alloc, b"/d")?)?;
    items.push(file(alloc, b"/d/b", long_bytes(alloc)?)?)?;
    items.push(file(alloc, b"/z", Vec::new(alloc))?)?;
    items.push(file(alloc, b"/h", hole_bytes(alloc)?)?)?;
    Ok(Items::new(items))
}

/// Two files of four file blocks.
pub fn two_files(alloc: Global) -> Result<Items, AllocError> {
    let mut items = Vec::new(alloc);
    items.push(file(alloc, b"/p", vec![in alloc; b'p'; 16_384]?)?)?;
    items.push(file(alloc, b"/q", vec![in alloc; b'q'; 16_384]?)?)?;
    Ok(Items::new(items))
}

/// No file.
pub fn no_files(alloc: Global) -> Items {
    Items::new(Vec::new(alloc))
}
