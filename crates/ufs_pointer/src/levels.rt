ghost use Rattle.std.specs.Prelude.{◌≡◌, ◌+◌, ◌-◌, ◌*◌, ◌^◌, ◌<◌, ◌≤◌, ◌++◌, ◌∷◌, IfNone, IfOk, IfSome, [], false, length, replicate, take, true};
ghost use Rattle.std.specs.Bool.{then_some};
ghost use Rattle.dg_io.specs.ViewWords.{Keeps, Reads};
ghost use Rattle.ufs_model.specs.Blocks.{area_of};
ghost use Rattle.ufs_model.specs.Geometries.{IsGeometry, IsGeometryOn};
ghost use Rattle.ufs_model.specs.Inodes.{block_span};
ghost use Rattle.ufs_model.specs.Pointers.{chain_address, file_block_of, slot_address, through};
ghost use Rattle.ufs_pointer.specs.Addresses.{HasSpan, IsInside, address_in};
ghost use Rattle.ufs_pointer.specs.Buffers.{Buffers};
ghost use Rattle.ufs_frames.specs.Chains.{IsChain};
ghost use Rattle.ufs_pointer.specs.Chains.{chain_span};
ghost use Rattle.ufs_pointer.specs.ViewWords.{FetchesFor, FetchesFrom, LosesNeeded};

use crate::addresses::{direct_address, indirect_address};
use crate::answers::BlockAnswer;
use crate::areas::read_area;
use crate::chains::locate;
use crate::indirect_blocks::through;
use dg_io::{NoMemory, View};
use std::alloc::Global;
use std::marker::Model;
use ufs_model::{Address, Chain, Geometry, Inode};

/// Fragments of a file block, at most (`MAXFRAG`).
const MOST_FRAGMENTS: usize = 8;

/// Slots of the indirect blocks (`NIADDR`).
pub const SINGLE: u8 = 12;

pub const DOUBLE: u8 = 13;

const TRIPLE: u8 = 14;

/// The buffers of a reader of a volume: one for a block of each level of pointers, and one for a
/// block of data, each with room for eight fragments; and one for a fragment that is read while the
/// block of data stays. Callers see the bytes of a fragment, the block of data, and that fragment.
#[derive(Drop)]
pub struct Levels {
    fragment: u32,
    filled: usize,
    bytes: Vec<u8>,
    aside: Vec<u8>,
    single: Vec<u8>,
    double: Vec<u8>,
    triple: Vec<u8>,
}

impl Model for Levels {
    ghost Value = { Buffers };

    ghost view = { λ s. record { fragment = s.fragment; block = take s.filled s.bytes.items; aside = s.aside.items } };

    ghost invariant = { λ s. record {
      least : 512 ≤ s.fragment;
      most : s.fragment ≤ 65536;
      filled : s.filled ≤ length s.bytes.items;
      bytes : length s.bytes.items ≡ 8 * s.fragment;
      aside : length s.aside.items ≡ s.fragment;
      single : length s.single.items ≡ 8 * s.fragment;
      double : length s.double.items ≡ 8 * s.fragment;
      triple : length s.triple.items ≡ 8 * s.fragment;
    } };
}

impl Levels {
    /// The buffers for fragments of `l` bytes. It takes all their memory.
    pub fn new(alloc: Global, l: u32) -> Result<Levels, NoMemory>
        requires { (512 ≤ l) × (l ≤ 65536) }
        ensures fragment { IfOk result (λ levels. levels.fragment ≡ l) }
        ensures block { IfOk result (λ levels. levels.block ≡ []) }
    {
        Ok(Levels {
            fragment: l,
            filled: 0,
            bytes: zeros(alloc, MOST_FRAGMENTS, l)?,
            aside: zeros(alloc, 1, l)?,
            single: zeros(alloc, MOST_FRAGMENTS, l)?,
            double: zeros(alloc, MOST_FRAGMENTS, l)?,
            triple: zeros(alloc, MOST_FRAGMENTS, l)?,
        })
    }

    /// The bytes of a fragment.
    pub fn fragment_bytes(&self) -> u32
        ensures value { result ≡ self.now.fragment }
        ensures least { 512 ≤ result }
        ensures most { result ≤ 65536 }
    {
        self.fragment
    }

    /// The block of data that was read last.
    pub fn block(&self) -> &[u8]
        ensures { result.now ≡ self.now.block }
    {
        &self.bytes[..self.filled]
    }

    /// The fragment that was read last beside the block of data.
    pub fn aside(&self) -> &[u8]
        ensures { result.now ≡ self.now.aside }
    {
        &self.aside
    }
}

/// Room for `k` fragments of `l` bytes.
fn zeros(alloc: Global, k: usize, l: u32) -> Result<Vec<u8>, NoMemory>
    requires { (k ≤ 8) × (l ≤ 65536) }
    ensures { IfOk result (λ bytes. length bytes.items ≡ k * l) }
{
    match vec![in alloc; 0; k * l as usize] {
        Ok(bytes) => Ok(bytes),
        Err(_) => Err(NoMemory),
    }
}

/// The bytes of `k` fragments of `l` bytes. They fit a buffer.
fn area_bytes(k: u32, l: u32) -> usize
    requires { k ≤ 8 }
    ensures value { result ≡ k * l }
    ensures fits { result ≤ 8 * l }
{
    k as usize * l as usize
}

/// The bytes of a file block. They fit a buffer.
fn block_bytes(g: &Geometry) -> usize
    requires { IsGeometry g.now }
    ensures value { result ≡ g.now.bsize }
    ensures fits { result ≤ 8 * g.now.fsize }
{
    area_bytes(g.frag, g.fsize)
}

/// Makes the bytes of a buffer from one on up to another zeros.
fn clear_range(buf: &mut [u8], start: usize, end: usize)
    requires { (start ≤ end) × (end ≤ length buf.old) }
    ensures value { take end buf.new ≡ take start buf.old ++ replicate (end - start) 0 }
    ensures room { length buf.new ≡ length buf.old }
{
    buf[start..end].fill(0);
}

/// Reads `k` fragments of data from `a` on into the front of a buffer, which has so many bytes.
fn read_front<V: View>(view: &mut V, a: u32, k: u32, bytes: usize, buf: &mut [u8]) -> bool
    requires sound { V.is_sound view.old }
    requires within { a + k ≤ V.count view.old }
    requires bytes { bytes ≡ k * V.size view.old }
    requires room { bytes ≤ length buf.old }
    ensures keeps { Keeps V.View view.old view.new }
    ensures room { length buf.new ≡ length buf.old }
    ensures rule { Reads V.View view.old view.new (area_of (V.size view.old) a k) (then_some result (take bytes buf.new)) }
    ensures fetched { FetchesFor V.View view.old view.new (area_of (V.size view.old) a k) (then_some result (take bytes buf.new)) }
    ensures area { FetchesFrom V.View view.old view.new a k result }
{
    read_area(view, a, k, &mut buf[..bytes])
}

impl Levels {
    /// Reads `k` fragments of data from `a` on, end to end, and answers whether it could. Where one is
    /// gone, the block of data has any bytes.
    pub fn read_block<V: View>(&mut self, view: &mut V, a: u32, k: u32) -> bool
        requires sound { V.is_sound view.old }
        requires within { a + k ≤ V.count view.old }
        requires most { k ≤ 8 }
        requires fragment { self.old.fragment ≡ V.size view.old }
        ensures keeps { Keeps V.View view.old view.new }
        ensures fragment { self.new.fragment ≡ self.old.fragment }
        ensures aside { self.new.aside ≡ self.old.aside }
        ensures room { length self.new.block ≡ k * V.size view.old }
        ensures rule { Reads V.View view.old view.new (area_of (V.size view.old) a k) (then_some result self.new.block) }
        ensures area { FetchesFrom V.View view.old view.new a k result }
        ensures fetched { FetchesFor V.View view.old view.new (area_of (V.size view.old) a k) (then_some result self.new.block) }
    {
        self.filled = area_bytes(k, self.fragment);
        read_front(view, a, k, self.filled, &mut self.bytes)
    }

    /// Reads fragment `a` beside the block of data, which stays, and answers whether it could. Where it
    /// is gone, the fragment beside the block has any bytes.
    pub fn read_aside<V: View>(&mut self, view: &mut V, a: u32) -> bool
        requires sound { V.is_sound view.old }
        requires within { a < V.count view.old }
        requires fragment { self.old.fragment ≡ V.size view.old }
        ensures keeps { Keeps V.View view.old view.new }
        ensures fragment { self.new.fragment ≡ self.old.fragment }
        ensures block { self.new.block ≡ self.old.block }
        ensures room { length self.new.aside ≡ V.size view.old }
        ensures rule { Reads V.View view.old view.new (area_of (V.size view.old) a 1) (then_some result self.new.aside) }
        ensures fetched { FetchesFor V.View view.old view.new (area_of (V.size view.old) a 1) (then_some result self.new.aside) }
        ensures once { V.fetched view.old (a ∷ []) view.new }
        ensures gone { result ≡ false → V.is_gone view.new a ≡ true }
    {
        read_area(view, a, 1, &mut self.aside)
    }

    /// Puts zeros after the block of data, which has `inside` fragments, so that it has `k`.
    pub fn pad(&mut self, inside: u32, k: u32)
        requires order { inside ≤ k }
        requires most { k ≤ 8 }
        requires inside { length self.old.block ≡ inside * self.old.fragment }
        ensures fragment { self.new.fragment ≡ self.old.fragment }
        ensures aside { self.new.aside ≡ self.old.aside }
        ensures block { self.new.block ≡ self.old.block ++ replicate ((k - inside) * self.old.fragment) 0 }
    {
        let end = area_bytes(k, self.fragment);
        clear_range(&mut self.bytes, self.filled, end);
        self.filled = end;
    }

    /// Makes the block of data `k` fragments of zeros.
    pub fn clear(&mut self, k: u32)
        requires { k ≤ 8 }
        ensures fragment { self.new.fragment ≡ self.old.fragment }
        ensures aside { self.new.aside ≡ self.old.aside }
        ensures block { self.new.block ≡ replicate (k * self.old.fragment) 0 }
    {
        self.filled = 0;
        self.pad(0, k);
    }

    /// What a chain leads to, by the slots of the inode and through indirect blocks. There is no answer
    /// where a fragment of one of these is gone.
    fn follow<V: View>(
        &mut self,
        view: &mut V,
        g: &Geometry,
        inode: &Inode,
        chain: Chain,
    ) -> Option<Address>
        requires sound { V.is_sound view.old }
        requires geometry { IsGeometryOn (V.size view.old) (V.count view.old) g.now }
        requires chain { IsChain g.now.nindir chain }
        requires fragment { self.old.fragment ≡ V.size view.old }
        ensures keeps { Keeps V.View view.old view.new }
        ensures buffers { self.new ≡ self.old }
        ensures inside { IfSome result (IsInside g.now) }
        ensures span { IfSome result (HasSpan (chain_span g.now inode.now chain)) }
        ensures rule { Reads V.View view.old view.new (chain_address g.now inode.now chain) result }
        ensures fetched { FetchesFor V.View view.old view.new (chain_address g.now inode.now chain) result }
        ensures lost { IfNone result (LosesNeeded V.View view.old view.new (chain_address g.now inode.now chain)) }
    {
        let size = block_bytes(g);
        match chain {
            Chain::Direct(slot) => Some(direct_address(g, inode, slot)),
            Chain::One(i) => {
                let single = indirect_address(g, inode, SINGLE);
                through(view, g, i, single, &mut self.single[..size])
            }
            Chain::Two(i, j) => {
                let double = indirect_address(g, inode, DOUBLE);
                let single = through(view, g, i, double, &mut self.double[..size])?;
                through(view, g, j, single, &mut self.single[..size])
            }
            Chain::Three(i, j, k) => {
                let triple = indirect_address(g, inode, TRIPLE);
                let double = through(view, g, i, triple, &mut self.triple[..size])?;
                let single = through(view, g, j, double, &mut self.double[..size])?;
                through(view, g, k, single, &mut self.single[..size])
            }
        }
    }

    /// What pointer `i` of the double indirect block leads to. There is no answer where a fragment of this
    /// block is gone.
    pub(crate) fn through_double<V: View>(
        &mut self,
        view: &mut V,
        g: &Geometry,
        inode: &Inode,
        i: u32,
    ) -> Option<Address>
        requires sound { V.is_sound view.old }
        requires geometry { IsGeometryOn (V.size view.old) (V.count view.old) g.now }
        requires index { i < g.now.nindir }
        requires fragment { self.old.fragment ≡ V.size view.old }
        ensures keeps { Keeps V.View view.old view.new }
        ensures buffers { self.new ≡ self.old }
        ensures rule { Reads V.View view.old view.new (through g.now i (slot_address g.now inode.now 13)) result }
        ensures fetched { FetchesFor V.View view.old view.new (through g.now i (slot_address g.now inode.now 13)) result }
        ensures lost { IfNone result (LosesNeeded V.View view.old view.new (through g.now i (slot_address g.now inode.now 13))) }
    {
        let size = block_bytes(g);
        let double = indirect_address(g, inode, DOUBLE);
        through(view, g, i, double, &mut self.double[..size])
    }
}

/// The address of file block `n` of an inode, by the first trouble on the chain. It takes no memory.
#[tactic(auto, using(crate::proofs::ChainLaws::block_chain), unfolding(ufs_model::specs::Pointers::file_block_of))]
pub fn file_block<V: View>(
    view: &mut V,
    g: &Geometry,
    inode: &Inode,
    n: u32,
    levels: &mut Levels,
) -> BlockAnswer
    requires sound { V.is_sound view.old }
    requires geometry { IsGeometryOn (V.size view.old) (V.count view.old) g.now }
    requires block { n < 2 ^ 30 }
    requires fragment { levels.old.fragment ≡ V.size view.old }
    ensures keeps { Keeps V.View view.old view.new }
    ensures buffers { levels.new ≡ levels.old }
    ensures inside { IfSome (address_in result) (IsInside g.now) }
    ensures span { IfSome (address_in result) (HasSpan (block_span g.now inode.now n)) }
    ensures rule { Reads V.View view.old view.new (file_block_of g.now inode.now n) (address_in result) }
    ensures fetched { FetchesFor V.View view.old view.new (file_block_of g.now inode.now n) (address_in result) }
    ensures lost { IfNone (address_in result) (LosesNeeded V.View view.old view.new (file_block_of g.now inode.now n)) }
{
    match levels.follow(view, g, inode, locate(g, n)) {
        Some(Address::Hole) => BlockAnswer::Hole,
        Some(Address::Wild) => BlockAnswer::Wild,
        Some(Address::At(a, k)) => BlockAnswer::At(a, k),
        None => BlockAnswer::Gone,
    }
}
