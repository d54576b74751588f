// Lists of boundaries in use.
ghost use Rattle.std.specs.Prelude.{◌≡◌, ◌↔◌, ◌<◌, ◌==◌, All, IfOk, IsTrue, length};
ghost use Rattle.std.specs.Int.{bit_at};
ghost use Rattle.std.specs.List.Sorted.{IsStrictlyIncreasing};
ghost use Rattle.dg_io.specs.Reduced.{places_left};
ghost use Rattle.dg_model.specs.Lives.{all_live};
ghost use Rattle.dg_regroup.specs.Extras.{MayBeLive};
ghost use Rattle.dg_regroup.specs.LiveRacks.{live_left};

use dg_model::NoMemory;
use std::alloc::Global;

/// The numbers below one.
pub fn numbers_below(alloc: Global, count: u8) -> Result<Vec<u8>, NoMemory>
    ensures { IfOk result (λ numbers. numbers.items ≡ all_live count) }
{
    let mut numbers = Vec::new(alloc);
    for number in 0..count {
        let Ok(()) = numbers.push(number) else {
            return Err(NoMemory);
        };
    }
    Ok(numbers)
}

/// Whether a boundary is lost: its bit is set.
pub fn is_lost(lost: u16, s: usize) -> bool
    ensures { result ≡ (bit_at lost s == 1) }
{
    s < 16 && lost >> s & 1 == 1
}

/// Takes boundaries out of a list: bit x is set for the x-th of them.
pub fn drop_marked(live: &mut Vec<u8>, lost: u16)
    ensures { live.new.items ≡ live_left (places_left lost (length live.old.items)) live.old.items }
{
    let mut kept = 0;
    for x in 0..live.len() {
        if !is_lost(lost, x) {
            live[kept] = live[x];
            kept += 1;
        }
    }
    live.truncate(kept);
}

/// Whether numbers ascend.
pub fn ascend(numbers: &[u32]) -> bool
    ensures { IsTrue result ↔ IsStrictlyIncreasing numbers.now }
{
    for place in 1..numbers.len() {
        if numbers[place] <= numbers[place - 1] {
            return false;
        }
    }
    true
}

/// Whether boundaries ascend.
fn in_order(live: &[u8]) -> bool
    ensures { IsTrue result ↔ IsStrictlyIncreasing live.now }
{
    for place in 1..live.len() {
        if live[place] <= live[place - 1] {
            return false;
        }
    }
    true
}

/// Whether boundaries are below a number.
fn are_below(boundaries: u8, live: &[u8]) -> bool
    ensures { IsTrue result ↔ All (λ s. s < boundaries) live.now }
{
    for s in live {
        if *s >= boundaries {
            return false;
        }
    }
    true
}

/// Whether these boundaries may be in use of an array with so many.
pub fn are_live(boundaries: u8, live: &[u8]) -> bool
    ensures { IsTrue result ↔ MayBeLive boundaries live.now }
{
    boundaries <= 16 && in_order(live) && are_below(boundaries, live)
}
