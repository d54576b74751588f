ghost use Rattle.std.specs.Prelude.{◌≡◌, ◌<◌, ◌≤◌, ℕ, List, [], IfSome, OnOk, length};
ghost use Rattle.std.specs.Bool.{Decides};
ghost use Rattle.std.specs.List.{Contains};
ghost use Rattle.ufs_model.specs.declared.claims.ClaimSource.{ClaimSource};
ghost use Rattle.dg_claims.specs.Kept.{IsRun, size_in, table_of};
ghost use Rattle.dg_claims.specs.Runs.{run_fragments};
ghost use Rattle.dg_infer.specs.Watches.{Grows, IsTouched, IsWatched, KeepsWatch, touch_at};

use crate::seen::{Seen, Spot};
use dg_claims::{Claims, Run};
use dg_io::NoMemory;
use std::alloc::Global;
use std::marker::Model;

/// A fragment whose claims at a level may change, and whether it had one there before.
#[derive(Clone, Copy, Debug, PartialEq, Eq)]
pub struct Touch {
    /// The fragment.
    pub fragment: u32,
    /// The level.
    pub level: u8,
    /// Whether it had a claim there.
    pub was: bool,
}

/// The fragments whose claims may change by a write, each once a level.
#[derive(Drop)]
pub struct Watch {
    touches: Vec<Touch>,
    /// The same, to find one.
    seen: Seen,
}

impl Model for Watch {
    ghost use Rattle.std.specs.Prelude.{List};
    ghost use Rattle.dg_infer.specs.Seen.{IsWatch};
    ghost use Rattle.dg_infer.specs.declared.watches.Touch.{Touch};

    ghost Value = { List Touch };

    ghost view = { λ s. s.touches.items };

    ghost invariant = { IsWatch };
}

impl Watch {
    ghost use Rattle.dg_infer.specs.Watches.{IsDistinct};

    /// None is touched.
    pub fn new(alloc: Global) -> Watch
        ensures { result ≡ [] }
    {
        Watch {
            touches: Vec::new(alloc),
            seen: Seen::new(alloc),
        }
    }

    /// How many touches there are.
    pub fn count(&self) -> usize
        ensures value { result ≡ length self.now }
        ensures distinct { IsDistinct self.now }
    {
        self.touches.len()
    }

    /// Number `k` of them.
    pub fn at(&self, k: usize) -> Touch
        requires { k < length self.now }
        ensures { result ≡ touch_at self.now k }
    {
        self.touches[k]
    }

    /// Touches a fragment at a level, where it isn't touched there.
    pub fn touch(&mut self, claims: &Claims, level: u8, fragment: u32) -> Result<(), NoMemory>
        ensures grows { Grows self.old self.new }
        ensures touched { OnOk result (IsTouched self.new level fragment) }
        ensures watched { KeepsWatch (table_of claims.now).claimed self.old (table_of claims.now).claimed self.new }
    {
        let spot = Spot { level, fragment };
        if self.seen.has(spot) {
            return Ok(());
        }
        let was = claims.has_level(fragment, level);
        if self.seen.put(spot).is_err() {
            return Err(NoMemory);
        }
        let touch = Touch {
            fragment,
            level,
            was,
        };
        match self.touches.push(touch) {
            Ok(()) => Ok(()),
            Err(_) => {
                self.seen.remove(spot);
                Err(NoMemory)
            }
        }
    }
}

/// Touches each fragment of a run at a level.
pub fn watch_run(
    watch: &mut Watch,
    claims: &Claims,
    level: u8,
    run: Option<Run>,
) -> Result<(), NoMemory>
    requires { IfSome run (IsRun (size_in (table_of claims.now).geometry)) }
    ensures grows { Grows watch.old watch.new }
    ensures touched { OnOk result ((fragment : ℕ) → Contains (run_fragments run) fragment → IsTouched watch.new level fragment) }
    ensures watched { KeepsWatch (table_of claims.now).claimed watch.old (table_of claims.now).claimed watch.new }
{
    let Some(claimed) = run else {
        return Ok(());
    };
    for i in 0..claimed.count {
        watch.touch(claims, level, claimed.first + u32::from(i))?;
    }
    Ok(())
}
