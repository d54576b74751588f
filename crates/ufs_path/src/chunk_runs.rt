// The chunks of directories' file blocks, each judged once however many file blocks are at one place.
ghost use Rattle.std.specs.Prelude.{◌≡◌, ◌^◌, ◌<◌, ℕ, Option, None, Some, true, OnOk, OnErr, IfOk, IfSome};
ghost use Rattle.std.specs.Result.{is_ok};
ghost use Rattle.dg_io.specs.ViewWords.{Keeps};
ghost use Rattle.ufs_model.specs.Blocks.{Volume};
ghost use Rattle.ufs_model.specs.Geometries.{IsGeometryOn};
ghost use Rattle.ufs_model.specs.Inodes.{block_count};
ghost use Rattle.ufs_model.specs.Paths.{entries_before};
ghost use Rattle.ufs_path.specs.Consults.{ConsultsKind};
ghost use Rattle.ufs_path.specs.Parents.{AreKnown, IsBlockRead, IsFileRead, IsRunGone, IsRunOf, Judges, known_of, sound_of};
ghost use Rattle.ufs_path.specs.Walks.{block_entries};

use crate::entries::read_entries;
use crate::faults::LookFault;
use dg_io::{NoMemory, View};
use std::collections::BTreeMap;
use ufs_dir::CHUNK_BYTES;
use ufs_model::{Geometry, Inode};
use ufs_pointer::{BlockAnswer, Levels, block_count, bytes_in_block, file_block};

/// Chunks in a row, from the front of a file block on.
#[derive(Clone, Copy, Debug, PartialEq, Eq, PartialOrd, Ord)]
pub struct ChunkRun {
    /// The first fragment of the file block.
    pub start: u32,
    /// The fragments of the file block.
    pub fragments: u32,
    /// The number of chunks.
    pub chunks: u32,
}

/// What is known of chunks in a row.
#[derive(Clone, Copy, Debug, PartialEq, Eq)]
pub enum Judged {
    /// One of them is refused.
    Refused,
    /// None is refused.
    Sound,
    /// None is refused, and the directories of their entries are kept.
    Entered,
}

/// Where the chunks of a file block of a directory are.
#[derive(Clone, Copy)]
pub enum BlockRun {
    /// They are these.
    At(ChunkRun),
    /// There are none: the file block is a hole, or a pointer to it is wild.
    Unread,
    /// A block on the way to them is gone.
    Gone,
}

/// What is known of chunks.
pub fn known_of(runs: &BTreeMap<ChunkRun, Judged>, run: ChunkRun) -> Option<Judged>
    ensures { result ≡ known_of runs.now.entries run }
{
    runs.get(&run).copied()
}

/// Keeps what is known of chunks.
pub fn set_known(
    runs: &mut BTreeMap<ChunkRun, Judged>,
    run: ChunkRun,
    judged: Judged,
) -> Result<(), NoMemory>
    ensures run { OnOk result (known_of runs.new.entries run ≡ Some judged) }
    ensures others { OnOk result ((other : ChunkRun) → (other ≡ run → ⊥) → known_of runs.new.entries other ≡ known_of runs.old.entries other) }
{
    match runs.insert(run, judged) {
        Ok(_) => Ok(()),
        Err(_) => Err(NoMemory),
    }
}

/// Whether none of these chunks is refused.
fn sound_of(judged: Judged) -> bool
    ensures { result ≡ sound_of judged }
{
    match judged {
        Judged::Refused => false,
        Judged::Sound | Judged::Entered => true,
    }
}

/// Where the chunks of file block `n` of a directory are.
pub fn find_run<V: View>(
    view: &mut V,
    g: &Geometry,
    inode: &Inode,
    n: u32,
    levels: &mut Levels,
) -> BlockRun
    requires sound { V.is_sound view.old }
    requires geometry { IsGeometryOn (V.size view.old) (V.count view.old) g.now }
    requires levels { levels.old.fragment ≡ V.size view.old }
    requires block { n < 2 ^ 30 }
    ensures keeps { Keeps V.View view.old view.new }
    ensures levels { levels.new.fragment ≡ levels.old.fragment }
    ensures found { V.tells view.new → (v : Volume) → V.stands_for view.old v → IsRunOf g.now inode.now n v result }
    ensures consults { ConsultsKind V.View view.old view.new (V.stands_for view.old) (IsBlockRead g.now inode.now n) (IsRunGone result) }
{
    match file_block(view, g, inode, n, levels) {
        BlockAnswer::Gone => BlockRun::Gone,
        BlockAnswer::Hole | BlockAnswer::Wild => BlockRun::Unread,
        BlockAnswer::At(start, fragments) => BlockRun::At(ChunkRun {
            start,
            fragments,
            chunks: (bytes_in_block(g, inode, n) / CHUNK_BYTES) as u32,
        }),
    }
}

/// Reads file block `n` of a directory, and answers whether none of its chunks is refused. There is no answer where a block
/// that is read for it is gone.
fn judge_chunks<V: View>(
    view: &mut V,
    g: &Geometry,
    inode: &Inode,
    n: u32,
    levels: &mut Levels,
) -> Option<bool>
    requires sound { V.is_sound view.old }
    requires geometry { IsGeometryOn (V.size view.old) (V.count view.old) g.now }
    requires levels { levels.old.fragment ≡ V.size view.old }
    requires block { n < 2 ^ 30 }
    ensures keeps { Keeps V.View view.old view.new }
    ensures levels { levels.new.fragment ≡ levels.old.fragment }
    ensures found { IfSome result (λ sound. V.tells view.new → (v : Volume) → V.stands_for view.old v
        → sound ≡ is_ok ((block_entries g.now inode.now n v).value)) }
    ensures consults { ConsultsKind V.View view.old view.new (V.stands_for view.old) (IsBlockRead g.now inode.now n) (result ≡ None) }
{
    match read_entries(view, g, inode, n, levels) {
        Ok(_) => Some(true),
        Err(fault) => match fault {
            LookFault::Unavailable => None,
            LookFault::NotFound | LookFault::NotDirectory | LookFault::Bad(_) => Some(false),
        },
    }
}

/// Answers whether none of the chunks of file block `n` is refused, which are these. They are read where nothing is known of them.
fn judge_run<V: View>(
    view: &mut V,
    g: &Geometry,
    inode: &Inode,
    n: u32,
    run: ChunkRun,
    levels: &mut Levels,
    runs: &mut BTreeMap<ChunkRun, Judged>,
) -> Result<Option<bool>, NoMemory>
    requires sound { V.is_sound view.old }
    requires geometry { IsGeometryOn (V.size view.old) (V.count view.old) g.now }
    requires levels { levels.old.fragment ≡ V.size view.old }
    requires block { n < 2 ^ 30 }
    ensures keeps { Keeps V.View view.old view.new }
    ensures levels { levels.new.fragment ≡ levels.old.fragment }
    ensures found { IfOk result (λ answer. IfSome answer (λ sound. V.tells view.new → (v : Volume) → V.stands_for view.old v
        → IsRunOf g.now inode.now n v (BlockRun.At run)
        → Judges g.now v ((block_entries g.now inode.now n v).value) sound runs.old.entries runs.new.entries)) }
    ensures consults { ConsultsKind V.View view.old view.new (V.stands_for view.old) (IsBlockRead g.now inode.now n) (result ≡ Ok None) }
{
    if let Some(judged) = known_of(runs, run) {
        return Ok(Some(sound_of(judged)));
    }
    let Some(sound) = judge_chunks(view, g, inode, n, levels) else {
        return Ok(None);
    };
    let judged = if sound {
        Judged::Sound
    } else {
        Judged::Refused
    };
    set_known(runs, run, judged)?;
    Ok(Some(sound))
}

/// Answers whether the entries in file block `n` of a directory can be read: it is reached, and none of its chunks is refused.
fn judge_block<V: View>(
    view: &mut V,
    g: &Geometry,
    inode: &Inode,
    n: u32,
    levels: &mut Levels,
    runs: &mut BTreeMap<ChunkRun, Judged>,
) -> Result<Option<bool>, NoMemory>
    requires sound { V.is_sound view.old }
    requires geometry { IsGeometryOn (V.size view.old) (V.count view.old) g.now }
    requires levels { levels.old.fragment ≡ V.size view.old }
    requires block { n < 2 ^ 30 }
    ensures keeps { Keeps V.View view.old view.new }
    ensures levels { levels.new.fragment ≡ levels.old.fragment }
    ensures found { IfOk result (λ answer. IfSome answer (λ sound. V.tells view.new → (v : Volume) → V.stands_for view.old v
        → Judges g.now v ((block_entries g.now inode.now n v).value) sound runs.old.entries runs.new.entries)) }
    ensures consults { ConsultsKind V.View view.old view.new (V.stands_for view.old) (IsBlockRead g.now inode.now n) (result ≡ Ok None) }
{
    match find_run(view, g, inode, n, levels) {
        BlockRun::At(run) => judge_run(view, g, inode, n, run, levels, runs),
        BlockRun::Unread => Ok(Some(false)),
        BlockRun::Gone => Ok(None),
    }
}

/// Answers whether the entries in all file blocks of a directory can be read. There is no answer where a block that is read
/// for it is gone.
pub fn judge_blocks<V: View>(
    view: &mut V,
    g: &Geometry,
    inode: &Inode,
    levels: &mut Levels,
    runs: &mut BTreeMap<ChunkRun, Judged>,
) -> Result<Option<bool>, NoMemory>
    requires sound { V.is_sound view.old }
    requires geometry { IsGeometryOn (V.size view.old) (V.count view.old) g.now }
    requires levels { levels.old.fragment ≡ V.size view.old }
    requires small { inode.now.size < 2 ^ 32 }
    ensures keeps { Keeps V.View view.old view.new }
    ensures levels { levels.new.fragment ≡ levels.old.fragment }
    ensures found { IfOk result (λ answer. IfSome answer (λ sound. V.tells view.new → (v : Volume) → V.stands_for view.old v
        → Judges g.now v ((entries_before g.now inode.now (block_count g.now inode.now) v).value) sound runs.old.entries runs.new.entries)) }
    ensures consults { ConsultsKind V.View view.old view.new (V.stands_for view.old) (IsFileRead g.now inode.now) (result ≡ Ok None) }
{
    for n in 0..block_count(g, inode) {
        match judge_block(view, g, inode, n, levels, runs)? {
            Some(true) => {}
            Some(false) => return Ok(Some(false)),
            None => return Ok(None),
        }
    }
    Ok(Some(true))
}
