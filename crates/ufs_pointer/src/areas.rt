ghost use Rattle.std.specs.Prelude.{◌≡◌, ◌+◌, ◌*◌, ◌<◌, ◌≤◌, ◌∷◌, [], false, true, drop, length, take};
ghost use Rattle.std.specs.Bool.{then_some};
ghost use Rattle.dg_io.specs.ViewWords.{Keeps, Reads};
ghost use Rattle.ufs_model.specs.Blocks.{area_of, consult};
ghost use Rattle.ufs_pointer.specs.ViewWords.{FetchesFor, FetchesFrom};

use dg_io::{Fetched, View};

/// Reads a block into a part of the buffer, and answers whether it could.
fn fetch_at<V: View>(view: &mut V, block: u32, start: usize, size: usize, buf: &mut [u8]) -> bool
    requires sound { V.is_sound view.old }
    requires within { block < V.count view.old }
    requires size { size ≡ V.size view.old }
    requires room { start + size ≤ length buf.old }
    ensures keeps { Keeps V.View view.old view.new }
    ensures room { length buf.new ≡ length buf.old }
    ensures front { take start buf.new ≡ take start buf.old }
    ensures rule { Reads V.View view.old view.new (consult (V.size view.old) block) (then_some result (take size (drop start buf.new))) }
    ensures gone { result ≡ false → V.is_gone view.new block ≡ true }
    ensures fetched { V.fetched view.old (block ∷ []) view.new }
{
    match view.fetch(block, &mut buf[start..start + size]) {
        Fetched::Got => true,
        Fetched::Gone => false,
    }
}

/// Reads `k` blocks from `a` on, end to end, and answers whether it could. Where one is gone, the
/// buffer has any bytes.
pub fn read_area<V: View>(view: &mut V, a: u32, k: u32, buf: &mut [u8]) -> bool
    requires sound { V.is_sound view.old }
    requires within { a + k ≤ V.count view.old }
    requires room { length buf.old ≡ k * V.size view.old }
    ensures keeps { Keeps V.View view.old view.new }
    ensures room { length buf.new ≡ length buf.old }
    ensures rule { Reads V.View view.old view.new (area_of (V.size view.old) a k) (then_some result buf.new) }
    ensures area { FetchesFrom V.View view.old view.new a k result }
    ensures fetched { FetchesFor V.View view.old view.new (area_of (V.size view.old) a k) (then_some result buf.new) }
{
    let (size, _) = V::shape(view);
    let bytes = size as usize;
    for i in 0..k {
        if !fetch_at(view, a + i, i as usize * bytes, bytes, buf) {
            return false;
        }
    }
    true
}
