// The files of a volume.
ghost use Rattle.std.specs.Prelude.{◌≡◌, ◌<◌, ◌+◌, ◌^◌, ◌++◌, ◌∷◌, [], IfOk, OnOk, length};
ghost use Rattle.ufs_build.specs.Placings.{file_of, files_of};
ghost use Rattle.ufs_build.specs.Nodes.{is_link, mode_of, node_of, nodes_of};

use crate::files::Node;
use crate::items::{Item, ItemKind};
use crate::parents::is_dir;
use dg_model::{Bytes, NoMemory};
use std::alloc::Global;

/// The mode of directories.
const DIRECTORY: u16 = 0o040755;

/// Symbolic links of fewer bytes than this stand in their inode.
const LONG_LINK: usize = 60;

/// The mode of an item.
fn mode_of(kind: ItemKind) -> u16
    ensures { result ≡ mode_of kind }
{
    match kind {
        ItemKind::Dir => DIRECTORY,
        ItemKind::File => 0o100644,
        ItemKind::Link => 0o120644,
    }
}

/// Whether a kind is that of symbolic links.
fn is_link(kind: ItemKind) -> bool
    ensures { result ≡ is_link kind }
{
    match kind {
        ItemKind::Link => true,
        ItemKind::Dir | ItemKind::File => false,
    }
}

/// A file with these bytes.
fn file(mode: u16, bytes: &[u8], sparse: bool, inside: bool) -> Result<Node<'_>, NoMemory>
    ensures { IfOk result (λ node. file_of node ≡ record { mode = mode; bytes = bytes.now; sparse = sparse; inside = inside }) }
{
    if bytes.len() >= 1 << 62 {
        return Err(NoMemory);
    }
    Ok(Node {
        mode,
        bytes,
        sparse,
        inside,
    })
}

/// An item as a file, with its bytes if it is a directory.
fn node_of<'a>(item: &'a Item, directory: &'a [u8]) -> Result<Node<'a>, NoMemory>
    ensures { IfOk result (λ node. file_of node ≡ node_of item.now directory.now) }
{
    let own = item.bytes.as_slice();
    let inside = is_link(item.kind) && own.len() < LONG_LINK;
    let bytes = if is_dir(item.kind) { directory } else { own };
    file(mode_of(item.kind), bytes, item.sparse, inside)
}

/// The root and the items as files.
pub fn nodes_of<'a>(
    alloc: Global,
    items: &'a [Item],
    directories: &'a [Bytes],
) -> Result<Vec<Node<'a>>, NoMemory>
    requires { length directories.now ≡ length items.now + 1 }
    ensures { IfOk result (λ nodes. files_of nodes.items ≡ nodes_of items.now directories.now) }
{
    let mut nodes = Vec::new(alloc);
    push_node(
        &mut nodes,
        file(DIRECTORY, directories[0].as_slice(), false, false)?,
    )?;
    for k in 0..items.len() {
        push_node(
            &mut nodes,
            node_of(&items[k], directories[k + 1].as_slice())?,
        )?;
    }
    Ok(nodes)
}

/// Appends a file.
fn push_node<'a>(nodes: &mut Vec<Node<'a>>, node: Node<'a>) -> Result<(), NoMemory>
    ensures { OnOk result (files_of nodes.new.items ≡ files_of nodes.old.items ++ file_of node.entry ∷ []) }
{
    match nodes.push(node) {
        Ok(()) => Ok(()),
        Err(_) => Err(NoMemory),
    }
}
