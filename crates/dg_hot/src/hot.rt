ghost use Rattle.std.specs.Prelude.{◌≡◌, ◌≢◌, ◌≤◌, ◌<◌, ◌^◌, [], length, IfOk, OnErr, OnOk, slice_get};
ghost use Rattle.std.specs.List.{All, AllPairs};
ghost use Rattle.std.specs.Map.{keys_of};
ghost use Rattle.dg_model.specs.Copies.{touched};

use dg_io::NoMemory;
use lru::LruCache;
use std::alloc::Global;
use std::marker::Model;
use std::num::NonZeroUsize;

/// The inodes of the regular files that were read last, at most 16 of them. Contracts see the list, the most recent first.
#[derive(Drop)]
pub struct Hot {
    cache: LruCache<u32, ()>,
}

impl Model for Hot {
    ghost use Rattle.std.specs.Prelude.{◌≡◌, ℕ, List};
    ghost use Rattle.std.specs.Map.{keys_of};

    ghost Value = { List ℕ };

    ghost view = { λ hot. keys_of hot.cache.entries };

    ghost invariant = { λ hot. hot.cache.cap ≡ 16 };
}

impl Hot {
    /// No file was read.
    pub fn new(alloc: Global) -> Result<Hot, NoMemory>
        ensures { IfOk result (λ hot. hot ≡ []) }
    {
        match LruCache::new(alloc, NonZeroUsize::new(16).unwrap()) {
            Ok(cache) => Ok(Hot { cache }),
            Err(_) => Err(NoMemory),
        }
    }

    /// A file was read: it is the most recent one now. The least recent one of more than 16 goes.
    pub fn touch(&mut self, inode: u32) -> Result<(), NoMemory>
        ensures touched { OnOk result (self.new ≡ touched inode self.old) }
        ensures err { OnErr result (self.new ≡ self.old) }
    {
        put_first(&mut self.cache, inode)
    }

    /// The inode at a place, from 0 for the most recent one.
    pub fn recent(&self, place: u32) -> Option<u32>
        ensures { result ≡ slice_get self.now place }
    {
        key_at(&self.cache, place)
    }

    /// All of them.
    pub fn inodes(&self, alloc: Global) -> Result<Vec<u32>, NoMemory>
        ensures inodes { IfOk result (λ inodes. inodes.items ≡ self.now) }
        ensures few { IfOk result (λ inodes. length inodes.items ≤ 16) }
        ensures once { IfOk result (λ inodes. AllPairs (λ i j. i ≢ j) inodes.items) }
        ensures fit { IfOk result (λ inodes. All (λ i. i < 2 ^ 32) inodes.items) }
    {
        keys(alloc, &self.cache)
    }
}

// Puts an inode in front of the others.
fn put_first(cache: &mut LruCache<u32, ()>, inode: u32) -> Result<(), NoMemory>
    requires { cache.old.cap ≡ 16 }
    ensures touched { OnOk result (keys_of cache.new.entries ≡ touched inode (keys_of cache.old.entries)) }
    ensures cap { cache.new.cap ≡ 16 }
    ensures err { OnErr result (cache.new ≡ cache.old) }
{
    let _count = cache.len();
    match cache.put(inode, ()) {
        Ok(_) => Ok(()),
        Err(_) => Err(NoMemory),
    }
}

// The key at a place.
fn key_at(cache: &LruCache<u32, ()>, place: u32) -> Option<u32>
    ensures { result ≡ slice_get (keys_of cache.now.entries) place }
{
    let mut left = place;
    for (inode, _) in cache.iter() {
        if left == 0 {
            return Some(*inode);
        }
        left -= 1;
    }
    None
}

// All keys, in their order.
fn keys(alloc: Global, cache: &LruCache<u32, ()>) -> Result<Vec<u32>, NoMemory>
    ensures keys { IfOk result (λ keys. keys.items ≡ keys_of cache.now.entries) }
    ensures few { IfOk result (λ keys. length keys.items ≤ cache.now.cap) }
    ensures once { IfOk result (λ keys. AllPairs (λ i j. i ≢ j) keys.items) }
    ensures fit { IfOk result (λ keys. All (λ i. i < 2 ^ 32) keys.items) }
{
    let Ok(mut keys) = Vec::with_capacity(alloc, cache.len()) else {
        return Err(NoMemory);
    };
    for (inode, _) in cache.iter() {
        let Ok(()) = keys.push(*inode) else {
            return Err(NoMemory);
        };
    }
    Ok(keys)
}
