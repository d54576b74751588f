// Blocks in a row, of which one is at hand.
ghost use Rattle.std.specs.Prelude.{◌≡◌, ◌≢◌, ◌+◌, ◌*◌, ◌≤◌, ◌<◌, ◌++◌, IfNone, IfOk, IfSome, OnOk, length, true, false};
ghost use Rattle.dg_io.specs.ViewWords.{Keeps};
ghost use Rattle.ufs_model.specs.Blocks.{Volume, area_of, block_at};
ghost use Rattle.ufs_pointer.specs.ViewWords.{LosesKind};
ghost use Rattle.dg_infer.specs.Areas.{IsFrom, IsRest};
ghost use Rattle.dg_infer.specs.AtHand.{OnVolumes};
ghost use Rattle.dg_infer.specs.Fetched.{FetchesOnce};

use dg_claims::read_fragment;
use dg_io::{NoMemory, View};
use std::alloc::Global;
use ufs_pointer::Levels;

/// Puts bytes behind others.
pub fn push_bytes(area: &mut Vec<u8>, bytes: &[u8]) -> Result<(), NoMemory>
    ensures { OnOk result (area.new.items ≡ area.old.items ++ bytes.now) }
{
    match area.extend_from_slice(bytes) {
        Ok(()) => Ok(()),
        Err(_) => Err(NoMemory),
    }
}

/// Puts a block behind others: the one at hand, or one that is read. It answers whether the block could be read.
fn push_block<V: View>(
    view: &mut V,
    levels: &mut Levels,
    area: &mut Vec<u8>,
    place: u32,
    block: u32,
    bytes: &[u8],
) -> Result<bool, NoMemory>
    requires sound { V.is_sound view.old }
    requires within { place < V.count view.old }
    requires levels { levels.old.fragment ≡ V.size view.old }
    requires bytes { length bytes.now ≡ V.size view.old }
    ensures keeps { Keeps V.View view.old view.new }
    ensures levels { levels.new.fragment ≡ levels.old.fragment }
    ensures room { IfOk result (λ got. got ≡ true → length area.new.items ≡ length area.old.items + V.size view.old) }
    ensures area { IfOk result (λ got. got ≡ true → OnVolumes V.View view.old view.new block bytes.now (λ v.
        area.new.items ≡ area.old.items ++ block_at (V.size view.old) v place)) }
    ensures gone { IfOk result (λ got. got ≡ false → V.is_gone view.new place ≡ true) }
    ensures fetched { FetchesOnce V.fetched (λ b. (b ≡ place) × (b ≢ block)) view.old view.new }
{
    if place == block {
        push_bytes(area, bytes)?;
        return Ok(true);
    }
    if !read_fragment(view, levels, place) {
        return Ok(false);
    }
    push_bytes(area, levels.aside())?;
    Ok(true)
}

/// The bytes of `k` blocks from `a` on, end to end, of which one is at hand and isn't read. There are none where another is gone.
pub fn read_rest<V: View>(
    alloc: Global,
    view: &mut V,
    levels: &mut Levels,
    a: u32,
    k: u32,
    block: u32,
    bytes: &[u8],
) -> Result<Option<Vec<u8>>, NoMemory>
    requires sound { V.is_sound view.old }
    requires within { a + k ≤ V.count view.old }
    requires levels { levels.old.fragment ≡ V.size view.old }
    requires bytes { length bytes.now ≡ V.size view.old }
    ensures keeps { Keeps V.View view.old view.new }
    ensures levels { levels.new.fragment ≡ levels.old.fragment }
    ensures room { IfOk result (λ read. IfSome read (λ area. length area.items ≡ k * V.size view.old)) }
    ensures area { IfOk result (λ read. IfSome read (λ area. OnVolumes V.View view.old view.new block bytes.now (λ v.
        area.items ≡ (area_of (V.size view.old) a k v).value))) }
    ensures lost { IfOk result (λ read. IfNone read (LosesKind V.View view.old view.new (λ v b. IsFrom a k b))) }
    ensures fetched { FetchesOnce V.fetched (IsRest a k block) view.old view.new }
{
    let (_, _count) = view.shape();
    let mut area = Vec::new(alloc);
    for i in 0..k {
        if !push_block(view, levels, &mut area, a + i, block, bytes)? {
            return Ok(None);
        }
    }
    Ok(Some(area))
}
