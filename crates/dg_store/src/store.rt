// The flat array: each block stands at the sites that the map has for it, on both members of each.
ghost use Rattle.std.specs.Prelude.{◌≡◌, ◌≢◌, ◌↔◌, ◌⊎◌, ◌+◌, ◌*◌, ◌/◌, ◌≤◌, ◌<◌, ◌-◌, ℕ, List, length, max, true, false, [], IfOk, IfSome, OnErr, MatchOption};
ghost use Rattle.dg_io.specs.Told.{Extended, FitsIn, IsHeader, IsZeros, KeepsFront, OldOrNew, Patched, Torn};
ghost use Rattle.dg_model.specs.Blocks.{zeros};
ghost use Rattle.dg_model.specs.Members.{is_filling, is_lost, IsStruck, MembersFall};
ghost use Rattle.dg_model.specs.Saves.{body_place, member_length as length_of};
ghost use Rattle.dg_model.specs.Shapes.{IsShape};
ghost use Rattle.dg_model.specs.Sites.{has_site, all_lost, is_gone};
ghost use Rattle.dg_model.specs.States.{IsLeastLost, has_lost};
ghost use Rattle.dg_model.specs.Tables.{Table, IsTable, count_on, sites_in, used_in, without_site};
ghost use Rattle.dg_pair.specs.Boundaries.{IsWell, completed, number_of, members_of as boundary_members, raised, unfilled};
ghost use Rattle.dg_pair.specs.Calls.{KeepsBeside, copied, replaced};
ghost use Rattle.dg_pair.specs.Kept.{BlanksBy};
ghost use Rattle.dg_store.specs.Answers.{ChangesAt, HasAllSlots, HasFreeSlot, HasNextSlot, IsAllLost, IsBlankStore, IsFull, IsPlaced, IsStored, IsUnchanged, SameWritten, reaped};
ghost use Rattle.dg_store.specs.Leaves.{BytesChange, CallsAtMost, CallsThoseIn, ExtendsThoseIn, FaultRose, HasCalled, HasWritten, IsCallOrBlankBelow, IsCallOrExtendBelow, KeepsOut, Leaves};
ghost use Rattle.dg_store.specs.Leaves.{NoFault, OnlyBytesOf, OnlyFaultsOf, PutsOut, Stays, StaysBy};
ghost use Rattle.dg_store.specs.Rows.{IsRow, members_in};
ghost use Rattle.dg_store.specs.Slots.{PutsBlock, SitesTell};
ghost use Rattle.dg_store.specs.Stores.{rack_of, table_of, shape_of, members_of, HasBlock, IsSound, IsWhole, KeepsBlocks, SetsBlock, Tells, lost_bits};
ghost use Rattle.dg_store.specs.Views.{ReadsOn};

use crate::Shape;
use crate::boundaries::{blank_row, fail_side, least_lost_of, lost_bits_of, write_slot};
use crate::places::{all_lost_at, read_block, read_sites, write_sites};
use crate::sites::{GivenUp, give_first, give_up_all, take_back};
use dg_io::{Fetched, NoMemory, Rack};
use dg_map::{Map, TakeFault};
use dg_model::MemberState;
use dg_pair::{
    Boundary, CopyAnswer, ExtendAnswer, FailAnswer, NoteAnswer, PairWrite, ReplaceAnswer,
};
use std::alloc::Global;

/// A flat array over the members of a rack.
#[derive(Drop)]
pub struct Store<R> {
    pub(crate) rack: R,
    pub(crate) map: Map,
    pub(crate) row: Vec<Boundary>,
    /// Room for a block that is copied.
    block: Vec<u8>,
    /// Room for the sites that are given up in a write. It is empty between calls.
    given_up: Vec<GivenUp>,
}

/// What became of a write.
#[derive(Clone, Copy, Debug, PartialEq, Eq)]
pub enum StoreWrite {
    /// The block stands at its sites.
    Stored,
    /// All sites that the block has, or would have got, are on lost boundaries. Nothing has changed.
    AllLost,
}

/// What became of a copy of a block to a boundary.
#[derive(Clone, Copy, Debug, PartialEq, Eq)]
pub enum PlaceAnswer {
    /// The block has a site there.
    Placed,
    /// There is no free slot, but for the spare one where that may not be used. Nothing has changed.
    Full,
    /// The block is gone. Its sites are as they were.
    Gone,
    /// The boundary of this number, the copy's, is lost. The block's sites are as they were.
    Lost(u8),
}

impl<R: Rack> Store<R> {
    /// A blank array. All members are blanked, ascending by number, each to the length that `member_length` gives.
    pub fn new(alloc: Global, rack: R, shape: Shape) -> Result<Store<R>, NoMemory>
    where
        R: Drop,
        requires { IsShape shape }
        ensures { IfOk result (λ store. IsBlankStore R.Rack shape rack store) }
    {
        let mut rack = rack;
        let map = Map::new(alloc, shape)?;
        let Ok(block) = vec![in alloc; 0; shape.l as usize] else {
            return Err(NoMemory);
        };
        let row = blank_row(alloc, &mut rack, &shape)?;
        Ok(Store {
            rack,
            map,
            row,
            block,
            given_up: Vec::new(alloc),
        })
    }

    /// The array with these sites over these boundaries of the rack. It makes no call on the rack.
    pub fn opened(
        alloc: Global,
        rack: R,
        shape: Shape,
        map: Map,
        boundaries: Vec<Boundary>,
    ) -> Result<Store<R>, NoMemory>
    where
        R: Drop,
        requires shape { map.shape ≡ shape }
        requires table { IsTable map }
        requires row { IsRow R.Rack shape boundaries.items rack }
        ensures sound { IfOk result (λ store. IsSound R.Rack store) }
        ensures rack { IfOk result (λ store. rack_of store ≡ rack) }
        ensures table { IfOk result (λ store. table_of store ≡ map) }
        ensures members { IfOk result (λ store. (q : ℕ) → members_of store q ≡ members_in boundaries.items q) }
    {
        let Ok(block) = vec![in alloc; 0; shape.l as usize] else {
            return Err(NoMemory);
        };
        Ok(Store {
            rack,
            map,
            row: boundaries,
            block,
            given_up: Vec::new(alloc),
        })
    }

    /// Gives the rack back.
    pub fn into_rack(self) -> R
        ensures { result ≡ rack_of self }
    {
        let Store { rack, .. } = self;
        rack
    }

    /// Gives its rack, its map and its boundaries back. It makes no call on the rack.
    pub fn into_parts(self) -> (R, Map, Vec<Boundary>)
        requires { IsSound R.Rack self }
        ensures rack { result.0 ≡ rack_of self }
        ensures map { result.1 ≡ table_of self }
        ensures members { (q : ℕ) → members_in result.2.items q ≡ members_of self q }
        ensures row { IsRow R.Rack (shape_of self) result.2.items result.0 }
    {
        let Store { rack, map, row, .. } = self;
        (rack, map, row)
    }

    /// The numbers of the array.
    pub fn shape(&self) -> &Shape
        ensures { result.now ≡ shape_of self.now }
    {
        self.map.shape()
    }

    /// The sites of each block.
    pub fn map(&self) -> &Map
        ensures { result.now ≡ table_of self.now }
    {
        &self.map
    }

    /// A boundary, by its number.
    pub fn boundary(&self, boundary: u8) -> &Boundary
        requires sound { IsSound R.Rack self.now }
        requires boundary { boundary < (shape_of self.now).b }
        ensures well { IsWell result.now }
        ensures number { number_of result.now ≡ boundary }
        ensures members { (q : ℕ) → q / 2 ≡ boundary → boundary_members result.now q ≡ members_of self.now q }
        ensures filled { (q have : ℕ) → q / 2 ≡ boundary → members_of self.now q ≡ MemberState.Filling have → have ≤ (shape_of self.now).k + 1 }
    {
        &self.row[boundary as usize]
    }

    /// The lost boundaries: bit s for boundary s.
    pub fn lost(&self) -> u16
        requires { IsSound R.Rack self.now }
        ensures { result ≡ lost_bits (members_of self.now) (shape_of self.now).b }
    {
        lost_bits_of(&self.row, self.map.shape())
    }

    /// The least lost boundary, where one is lost.
    pub fn least_lost(&self) -> Option<u8>
        requires { IsSound R.Rack self.now }
        ensures { MatchOption result (has_lost (shape_of self.now) (members_of self.now) ≡ false) (IsLeastLost (shape_of self.now) (members_of self.now)) }
    {
        least_lost_of(&self.row, self.map.shape())
    }

    /// Whether a boundary is lost.
    pub fn is_degraded(&self) -> bool
        requires { IsSound R.Rack self.now }
        ensures { result ≡ has_lost (shape_of self.now) (members_of self.now) }
    {
        self.least_lost().is_some()
    }

    /// Whether a block is written: it was, since the array was made.
    pub fn written(&self, block: u32) -> bool
        requires sound { IsSound R.Rack self.now }
        requires range { block < (shape_of self.now).n }
        ensures { result ≡ has_site (sites_in (table_of self.now) block) }
    {
        !self.map.sites(block).is_empty()
    }

    /// Whether a block is gone: it is written, and all its sites are on lost boundaries. It makes no call on the rack.
    pub fn is_gone(&self, block: u32) -> bool
        requires sound { IsSound R.Rack self.now }
        requires range { block < (shape_of self.now).n }
        ensures { result ≡ is_gone (table_of self.now) (members_of self.now) block }
    {
        let sites = self.map.sites(block);
        !sites.is_empty() && all_lost_at(&self.row, self.map.shape(), sites)
    }

    /// Makes a member fail, given by its boundary and its side, 0 or 1. It is out then, and so is one that was refilled
    /// from it. It makes no call on the rack.
    pub fn fail(&mut self, boundary: u8, side: u8) -> FailAnswer
        requires whole { IsWhole R.Rack self.old }
        requires boundary { boundary < (shape_of self.old).b }
        requires side { side < 2 }
        ensures whole { IsWhole R.Rack self.new }
        ensures sound { IsSound R.Rack self.old → IsSound R.Rack self.new }
        ensures stays { Stays R.Rack self.old self.new }
        ensures rack { rack_of self.new ≡ rack_of self.old }
        ensures table { table_of self.new ≡ table_of self.old }
        ensures already { (result ≡ FailAnswer.Already) ↔ (members_of self.old (2 * boundary + side) ≡ MemberState.Out) }
        ensures struck { IsStruck (2 * boundary + side) (members_of self.old) (members_of self.new) }
        ensures stands { KeepsBlocks R.Rack self.old self.new }
    {
        fail_side(&mut self.row, self.map.shape(), boundary, side)
    }

    /// Reads a block. One that isn't written reads as zeros. It is gone where it is written and all its sites are on lost
    /// boundaries.
    pub fn read(&mut self, block: u32, buf: &mut [u8]) -> Fetched
        requires sound { IsSound R.Rack self.old }
        requires range { block < (shape_of self.old).n }
        requires size { length buf.old ≡ (shape_of self.old).l }
        ensures sound { IsSound R.Rack self.new }
        ensures reads { ReadsOn R.Rack self.old self.new }
        ensures stands { KeepsBlocks R.Rack self.old self.new }
        ensures gone { (result ≡ Fetched.Gone) ↔ (is_gone (table_of self.new) (members_of self.new) block ≡ true) }
        ensures got { result ≡ Fetched.Got → Tells R.Rack self.new → HasBlock R.Rack self.old block buf.new }
        ensures unwritten { has_site (sites_in (table_of self.old) block) ≡ false → rack_of self.new ≡ rack_of self.old }
        ensures zeros { has_site (sites_in (table_of self.old) block) ≡ false → buf.new ≡ zeros (shape_of self.old).l }
        ensures called { result ≡ Fetched.Got → has_site (sites_in (table_of self.old) block) ≡ true
            → HasCalled R.Rack self.old self.new }
        ensures most { CallsAtMost R.Rack self.old self.new (2 * length (sites_in (table_of self.old) block)) }
        ensures once { NoFault R.Rack self.old self.new → CallsAtMost R.Rack self.old self.new 1 }
    {
        let sites = self.map.sites(block);
        if sites.is_empty() {
            buf.fill(0);
            return Fetched::Got;
        }
        read_sites(&mut self.row, &mut self.rack, self.map.shape(), sites, buf)
    }

    /// Writes a block of L bytes to each member of its sites that serves. A block without sites gets its first one.
    pub fn write(&mut self, block: u32, buf: &[u8]) -> Result<StoreWrite, NoMemory>
        requires sound { IsSound R.Rack self.old }
        requires range { block < (shape_of self.old).n }
        requires size { length buf.now ≡ (shape_of self.old).l }
        ensures leaves { Leaves R.Rack self.old self.new }
        ensures stored { IfOk result (λ answer. answer ≡ StoreWrite.Stored → IsStored R.Rack block buf.now self.old self.new) }
        ensures lost { IfOk result (λ answer. answer ≡ StoreWrite.AllLost → IsAllLost R.Rack block self.old self.new) }
        ensures err { OnErr result (IsUnchanged R.Rack self.old self.new) }
        ensures most { CallsAtMost R.Rack self.old self.new (2 * max 1 (length (sites_in (table_of self.old) block))) }
    {
        if self.map.sites(block).is_empty() {
            self.write_first(block, buf)
        } else {
            Ok(self.write_again(block, buf))
        }
    }

    /// Copies a written block to the lowest free slot of a boundary on which it has no site. The spare slot is used only
    /// where that is asked for. The site is the last of the block's list then.
    pub fn place(&mut self, block: u32, boundary: u8, spare: bool) -> Result<PlaceAnswer, NoMemory>
        requires sound { IsSound R.Rack self.old }
        requires range { block < (shape_of self.old).n }
        requires boundary { boundary < (shape_of self.old).b }
        requires written { has_site (sites_in (table_of self.old) block) ≡ true }
        requires none { count_on boundary (sites_in (table_of self.old) block) ≡ 0 }
        ensures leaves { Leaves R.Rack self.old self.new }
        ensures written { SameWritten (table_of self.old) (table_of self.new) }
        ensures full { IfOk result (λ answer. (answer ≡ PlaceAnswer.Full) ↔ IsFull (table_of self.old) boundary spare) }
        ensures quiet { IfOk result (λ answer. answer ≡ PlaceAnswer.Full → self.new ≡ self.old) }
        ensures gone { IfOk result (λ answer. answer ≢ PlaceAnswer.Full
            → (answer ≡ PlaceAnswer.Gone) ↔ (is_gone (table_of self.old) (members_of self.new) block ≡ true)) }
        ensures lost { IfOk result (λ answer. answer ≢ PlaceAnswer.Full → answer ≢ PlaceAnswer.Gone
            → (answer ≡ PlaceAnswer.Lost boundary) ↔ (is_lost (members_of self.new) boundary ≡ true)) }
        ensures other { IfOk result (λ answer. (s : ℕ) → answer ≡ PlaceAnswer.Lost s → s ≡ boundary) }
        ensures placed { IfOk result (λ answer. answer ≡ PlaceAnswer.Placed → IsPlaced (table_of self.old) block boundary (table_of self.new)) }
        ensures refused { IfOk result (λ answer. answer ≢ PlaceAnswer.Placed → table_of self.new ≡ table_of self.old) }
        ensures err { OnErr result (table_of self.new ≡ table_of self.old) }
        ensures stands { IfOk result (λ answer. answer ≡ PlaceAnswer.Placed → Tells R.Rack self.new → KeepsBlocks R.Rack self.old self.new) }
        ensures same { IfOk result (λ answer. answer ≢ PlaceAnswer.Placed → KeepsBlocks R.Rack self.old self.new) }
        ensures err_same { OnErr result (KeepsBlocks R.Rack self.old self.new) }
        ensures most { CallsAtMost R.Rack self.old self.new (2 * length (sites_in (table_of self.old) block) + 2) }
    {
        let most = if spare {
            self.map.shape().k + 1
        } else {
            self.map.shape().k
        };
        if self.map.used(boundary) >= most {
            return Ok(PlaceAnswer::Full);
        }
        if let Fetched::Gone = self.copy_out(block) {
            return Ok(PlaceAnswer::Gone);
        }
        self.copy_in(block, boundary)
    }

    /// Gives up a block's site on a boundary. It has another one. It makes no call on the rack.
    pub fn unplace(&mut self, block: u32, boundary: u8)
        requires sound { IsSound R.Rack self.old }
        requires range { block < (shape_of self.old).n }
        requires one { 0 < count_on boundary (sites_in (table_of self.old) block) }
        requires other { 1 < length (sites_in (table_of self.old) block) }
        ensures leaves { Leaves R.Rack self.old self.new }
        ensures written { SameWritten (table_of self.old) (table_of self.new) }
        ensures rack { rack_of self.new ≡ rack_of self.old }
        ensures members { (q : ℕ) → members_of self.new q ≡ members_of self.old q }
        ensures table { table_of self.new ≡ without_site (table_of self.old) block boundary }
        ensures stands { KeepsBlocks R.Rack self.old self.new }
    {
        self.map.drop_site(block, boundary);
    }

    /// Gives up all sites of a block, which isn't written then. It makes no call on the rack.
    pub fn reap(&mut self, block: u32)
        requires sound { IsSound R.Rack self.old }
        requires range { block < (shape_of self.old).n }
        ensures leaves { Leaves R.Rack self.old self.new }
        ensures rack { rack_of self.new ≡ rack_of self.old }
        ensures members { (q : ℕ) → members_of self.new q ≡ members_of self.old q }
        ensures table { table_of self.new ≡ reaped (table_of self.old) block }
        ensures zeros { SetsBlock R.Rack self.old block (zeros (shape_of self.old).l) self.new }
    {
        give_up_all(&mut self.map, block);
    }

    /// Makes a member anew, of `size` zero bytes, where it is out and its partner serves. It is refilled from slot 0 on then.
    pub fn replace(&mut self, boundary: u8, side: u8, size: u64) -> ReplaceAnswer
        requires sound { IsSound R.Rack self.old }
        requires boundary { boundary < (shape_of self.old).b }
        requires side { side < 2 }
        requires size { length_of 1 (shape_of self.old) ≤ size }
        ensures sound { IsSound R.Rack self.new }
        ensures stays { StaysBy R.Rack IsCallOrBlankBelow self.old self.new }
        ensures keeps { BlanksBy R.Rack (2 * boundary + side) result (rack_of self.old) (rack_of self.new) }
        ensures faulty { PutsOut R.Rack self.old self.new }
        ensures table { table_of self.new ≡ table_of self.old }
        ensures lost { (result ≡ ReplaceAnswer.Lost) ↔ (is_lost (members_of self.old) boundary ≡ true) }
        ensures not_out { (result ≡ ReplaceAnswer.NotOut) ↔ (members_of self.old (2 * boundary + side) ≢ MemberState.Out) }
        ensures failed { result ≡ ReplaceAnswer.Failed → FaultRose R.Rack self.old self.new (2 * boundary + side) }
        ensures members { (q : ℕ) → members_of self.new q ≡ replaced result (2 * boundary + side) (members_of self.old) q }
        ensures blank { result ≡ ReplaceAnswer.Replaced → BytesChange R.Rack self.old self.new (2 * boundary + side) (IsZeros size) }
        ensures other_bytes { OnlyBytesOf R.Rack self.old self.new (2 * boundary + side) }
        ensures other_faults { OnlyFaultsOf R.Rack self.old self.new (2 * boundary + side) }
        ensures written { result ≡ ReplaceAnswer.Replaced → HasWritten R.Rack self.old self.new }
        ensures quiet { (result ≡ ReplaceAnswer.Lost) ⊎ (result ≡ ReplaceAnswer.NotOut) → rack_of self.new ≡ rack_of self.old }
        ensures most { CallsAtMost R.Rack self.old self.new 1 }
        ensures stands { KeepsBlocks R.Rack self.old self.new }
    {
        self.row[boundary as usize].replace(&mut self.rack, side, size)
    }

    /// Copies the next slot of a boundary from its good member to the one that is refilled, through the buffer.
    pub fn copy_slot(&mut self, boundary: u8, buf: &mut [u8]) -> CopyAnswer
        requires sound { IsSound R.Rack self.old }
        requires boundary { boundary < (shape_of self.old).b }
        requires next { HasNextSlot (members_of self.old) boundary ((shape_of self.old).k + 1) }
        requires size { length buf.old ≡ (shape_of self.old).l }
        ensures sound { IsSound R.Rack self.new }
        ensures stays { Stays R.Rack self.old self.new }
        ensures called { CallsThoseIn R.Rack self.old self.new }
        ensures idle { KeepsOut R.Rack self.old self.new }
        ensures faulty { PutsOut R.Rack self.old self.new }
        ensures beside { KeepsBeside (shape_of self.old).l ((shape_of self.old).k + 1) (R.bytes (rack_of self.old)) (R.bytes (rack_of self.new)) }
        ensures table { table_of self.new ≡ table_of self.old }
        ensures lost { (result ≡ CopyAnswer.Lost) ↔ (is_lost (members_of self.new) boundary ≡ true) }
        ensures copied { result ≡ CopyAnswer.Copied → ChangesAt raised boundary (members_of self.old) (members_of self.new) }
        ensures fell { result ≡ CopyAnswer.Fell → ChangesAt unfilled boundary (members_of self.old) (members_of self.new) }
        ensures fault { result ≡ CopyAnswer.Fell → (q : ℕ) → q / 2 ≡ boundary → is_filling (members_of self.old q) ≡ true
            → FaultRose R.Rack self.old self.new q }
        ensures others { (q : ℕ) → q / 2 ≢ boundary → members_of self.new q ≡ members_of self.old q }
        ensures falls { result ≢ CopyAnswer.Copied
            → MembersFall (R.counts (rack_of self.old)).faults (R.counts (rack_of self.new)).faults (members_of self.old) (members_of self.new) }
        ensures written { result ≡ CopyAnswer.Copied → HasWritten R.Rack self.old self.new }
        ensures most { CallsAtMost R.Rack self.old self.new 2 }
        ensures stands { result ≡ CopyAnswer.Copied → Tells R.Rack self.new → KeepsBlocks R.Rack self.old self.new }
        ensures same { result ≢ CopyAnswer.Copied → KeepsBlocks R.Rack self.old self.new }
    {
        self.row[boundary as usize].copy_slot(&mut self.rack, buf)
    }

    /// Passes the next slot of a boundary, in which no block stands, without a copy. It makes no call on the rack.
    pub fn pass_slot(&mut self, boundary: u8)
        requires sound { IsSound R.Rack self.old }
        requires boundary { boundary < (shape_of self.old).b }
        requires next { HasFreeSlot (table_of self.old) (members_of self.old) boundary ((shape_of self.old).k + 1) }
        ensures sound { IsSound R.Rack self.new }
        ensures stays { Stays R.Rack self.old self.new }
        ensures rack { rack_of self.new ≡ rack_of self.old }
        ensures table { table_of self.new ≡ table_of self.old }
        ensures raised { ChangesAt raised boundary (members_of self.old) (members_of self.new) }
        ensures stands { KeepsBlocks R.Rack self.old self.new }
    {
        self.row[boundary as usize].pass_slot();
    }

    /// The member of a boundary that was refilled serves, once each slot was copied or passed. It makes no call on the rack.
    pub fn complete(&mut self, boundary: u8)
        requires sound { IsSound R.Rack self.old }
        requires boundary { boundary < (shape_of self.old).b }
        requires all { HasAllSlots (members_of self.old) boundary ((shape_of self.old).k + 1) }
        ensures sound { IsSound R.Rack self.new }
        ensures stays { Stays R.Rack self.old self.new }
        ensures rack { rack_of self.new ≡ rack_of self.old }
        ensures table { table_of self.new ≡ table_of self.old }
        ensures completed { ChangesAt completed boundary (members_of self.old) (members_of self.new) }
        ensures stands { KeepsBlocks R.Rack self.old self.new }
    {
        self.row[boundary as usize].complete();
    }

    /// Writes beside the slots of a member, given by its boundary and its side, where it is good: in the 512 bytes before
    /// the slots, or behind them.
    pub fn note(&mut self, boundary: u8, side: u8, place: u64, buf: &[u8]) -> NoteAnswer
        requires sound { IsSound R.Rack self.old }
        requires boundary { boundary < (shape_of self.old).b }
        requires side { side < 2 }
        requires beside { (place + length buf.now ≤ 512) ⊎ (body_place (shape_of self.old) ≤ place) }
        requires fits { members_of self.old (2 * boundary + side) ≡ MemberState.Good
            → IfSome (R.bytes (rack_of self.old) (2 * boundary + side)) (λ all. place + length buf.now ≤ length all) }
        ensures sound { IsSound R.Rack self.new }
        ensures stays { Stays R.Rack self.old self.new }
        ensures called { CallsThoseIn R.Rack self.old self.new }
        ensures idle { KeepsOut R.Rack self.old self.new }
        ensures faulty { PutsOut R.Rack self.old self.new }
        ensures table { table_of self.new ≡ table_of self.old }
        ensures not_good { (result ≡ NoteAnswer.NotGood) ↔ (members_of self.old (2 * boundary + side) ≢ MemberState.Good) }
        ensures kept { result ≢ NoteAnswer.Fell → (q : ℕ) → members_of self.new q ≡ members_of self.old q }
        ensures fell { result ≡ NoteAnswer.Fell → IsStruck (2 * boundary + side) (members_of self.old) (members_of self.new) }
        ensures fault { result ≡ NoteAnswer.Fell → FaultRose R.Rack self.old self.new (2 * boundary + side) }
        ensures falls { MembersFall (R.counts (rack_of self.old)).faults (R.counts (rack_of self.new)).faults (members_of self.old) (members_of self.new) }
        ensures patched { result ≡ NoteAnswer.Noted → BytesChange R.Rack self.old self.new (2 * boundary + side) (Patched place buf.now) }
        ensures torn { result ≡ NoteAnswer.Fell → BytesChange R.Rack self.old self.new (2 * boundary + side) (Torn place (length buf.now)) }
        ensures whole { result ≡ NoteAnswer.Fell → R.steady (rack_of self.old) → IsHeader place buf.now
            → BytesChange R.Rack self.old self.new (2 * boundary + side) (OldOrNew place buf.now) }
        ensures other_bytes { OnlyBytesOf R.Rack self.old self.new (2 * boundary + side) }
        ensures other_faults { OnlyFaultsOf R.Rack self.old self.new (2 * boundary + side) }
        ensures written { result ≡ NoteAnswer.Noted → HasWritten R.Rack self.old self.new }
        ensures tried { result ≡ NoteAnswer.Fell → HasWritten R.Rack self.old self.new }
        ensures quiet { result ≡ NoteAnswer.NotGood → rack_of self.new ≡ rack_of self.old }
        ensures most { CallsAtMost R.Rack self.old self.new 1 }
        ensures stands { KeepsBlocks R.Rack self.old self.new }
    {
        self.row[boundary as usize].note(&mut self.rack, side, place, buf)
    }

    /// Makes a member so many bytes long, given by its boundary and its side, where it is good, with zeros at its end. It
    /// isn't longer before.
    pub fn extend(&mut self, boundary: u8, side: u8, size: u64) -> ExtendAnswer
        requires sound { IsSound R.Rack self.old }
        requires boundary { boundary < (shape_of self.old).b }
        requires side { side < 2 }
        requires longer { members_of self.old (2 * boundary + side) ≡ MemberState.Good
            → IfSome (R.bytes (rack_of self.old) (2 * boundary + side)) (FitsIn size) }
        ensures sound { IsSound R.Rack self.new }
        ensures stays { StaysBy R.Rack IsCallOrExtendBelow self.old self.new }
        ensures called { ExtendsThoseIn R.Rack self.old self.new }
        ensures idle { KeepsOut R.Rack self.old self.new }
        ensures faulty { PutsOut R.Rack self.old self.new }
        ensures table { table_of self.new ≡ table_of self.old }
        ensures not_good { (result ≡ ExtendAnswer.NotGood) ↔ (members_of self.old (2 * boundary + side) ≢ MemberState.Good) }
        ensures kept { result ≢ ExtendAnswer.Fell → (q : ℕ) → members_of self.new q ≡ members_of self.old q }
        ensures fell { result ≡ ExtendAnswer.Fell → IsStruck (2 * boundary + side) (members_of self.old) (members_of self.new) }
        ensures fault { result ≡ ExtendAnswer.Fell → FaultRose R.Rack self.old self.new (2 * boundary + side) }
        ensures falls { MembersFall (R.counts (rack_of self.old)).faults (R.counts (rack_of self.new)).faults (members_of self.old) (members_of self.new) }
        ensures extended { result ≡ ExtendAnswer.Extended → BytesChange R.Rack self.old self.new (2 * boundary + side) (Extended size) }
        ensures front { result ≡ ExtendAnswer.Fell → BytesChange R.Rack self.old self.new (2 * boundary + side) KeepsFront }
        ensures other_bytes { OnlyBytesOf R.Rack self.old self.new (2 * boundary + side) }
        ensures other_faults { OnlyFaultsOf R.Rack self.old self.new (2 * boundary + side) }
        ensures written { result ≡ ExtendAnswer.Extended → HasWritten R.Rack self.old self.new }
        ensures tried { result ≡ ExtendAnswer.Fell → HasWritten R.Rack self.old self.new }
        ensures quiet { result ≡ ExtendAnswer.NotGood → rack_of self.new ≡ rack_of self.old }
        ensures most { CallsAtMost R.Rack self.old self.new 1 }
        ensures stands { KeepsBlocks R.Rack self.old self.new }
    {
        self.row[boundary as usize].extend(&mut self.rack, side, size)
    }

    /// Writes a block that has no site to its first one.
    fn write_first(&mut self, block: u32, buf: &[u8]) -> Result<StoreWrite, NoMemory>
        ghost before: { Table }
        requires before { before ≡ table_of self.old }
        requires sound { IsSound R.Rack self.old }
        requires range { block < (shape_of self.old).n }
        requires size { length buf.now ≡ (shape_of self.old).l }
        requires blank { has_site (sites_in (table_of self.old) block) ≡ false }
        ensures leaves { Leaves R.Rack self.old self.new }
        ensures stored { IfOk result (λ answer. answer ≡ StoreWrite.Stored → IsStored R.Rack block buf.now self.old self.new) }
        ensures lost { IfOk result (λ answer. answer ≡ StoreWrite.AllLost → IsAllLost R.Rack block self.old self.new) }
        ensures err { OnErr result (IsUnchanged R.Rack self.old self.new) }
        ensures most { CallsAtMost R.Rack self.old self.new 2 }
    {
        let Ok(site) = give_first(&mut self.map, block, &mut self.given_up) else {
            self.given_up.clear();
            return Err(NoMemory);
        };
        let shape = self.map.shape();
        match write_slot(&mut self.row, &mut self.rack, shape, site, buf) {
            PairWrite::Kept => {
                self.given_up.clear();
                Ok(StoreWrite::Stored)
            }
            PairWrite::Lost => {
                let undone = take_back(&mut self.map, block, site, &mut self.given_up);
                self.given_up.clear();
                match undone {
                    Ok(()) => Ok(StoreWrite::AllLost),
                    Err(NoMemory) => Err(NoMemory),
                }
            }
        }
    }

    /// Writes a block at its sites.
    fn write_again(&mut self, block: u32, buf: &[u8]) -> StoreWrite
        requires sound { IsSound R.Rack self.old }
        requires range { block < (shape_of self.old).n }
        requires size { length buf.now ≡ (shape_of self.old).l }
        requires written { has_site (sites_in (table_of self.old) block) ≡ true }
        ensures leaves { Leaves R.Rack self.old self.new }
        ensures table { table_of self.new ≡ table_of self.old }
        ensures lost { (result ≡ StoreWrite.AllLost) ↔ (all_lost (members_of self.new) (sites_in (table_of self.old) block) ≡ true) }
        ensures value { result ≡ StoreWrite.Stored → SetsBlock R.Rack self.old block buf.now self.new }
        ensures same { result ≡ StoreWrite.AllLost → KeepsBlocks R.Rack self.old self.new }
        ensures most { CallsAtMost R.Rack self.old self.new (2 * length (sites_in (table_of self.old) block)) }
    {
        let shape = self.map.shape();
        let sites = self.map.sites(block);
        write_sites(&mut self.row, &mut self.rack, shape, sites, buf);
        if all_lost_at(&self.row, shape, sites) {
            StoreWrite::AllLost
        } else {
            StoreWrite::Stored
        }
    }

    /// Reads a block that is copied.
    fn copy_out(&mut self, block: u32) -> Fetched
        requires sound { IsSound R.Rack self.old }
        requires range { block < (shape_of self.old).n }
        ensures leaves { Leaves R.Rack self.old self.new }
        ensures table { table_of self.new ≡ table_of self.old }
        ensures gone { (result ≡ Fetched.Gone) ↔ (all_lost (members_of self.new) (sites_in (table_of self.old) block) ≡ true) }
        ensures got { result ≡ Fetched.Got → SitesTell (members_of self.new) (R.bytes (rack_of self.new)) (sites_in (table_of self.old) block)
            → HasBlock R.Rack self.old block self.new.block.items }
        ensures stands { KeepsBlocks R.Rack self.old self.new }
        ensures most { CallsAtMost R.Rack self.old self.new (2 * length (sites_in (table_of self.old) block)) }
    {
        let shape = self.map.shape();
        let sites = self.map.sites(block);
        read_block(&mut self.row, &mut self.rack, shape, sites, &mut self.block)
    }

    /// Gives a block one more site, and writes the bytes that were read there.
    fn copy_in(&mut self, block: u32, boundary: u8) -> Result<PlaceAnswer, NoMemory>
        requires sound { IsSound R.Rack self.old }
        requires range { block < (shape_of self.old).n }
        requires boundary { boundary < (shape_of self.old).b }
        requires none { count_on boundary (sites_in (table_of self.old) block) ≡ 0 }
        ensures leaves { Leaves R.Rack self.old self.new }
        ensures full { IfOk result (λ answer. (answer ≡ PlaceAnswer.Full) ↔ ((shape_of self.old).k + 1 ≤ used_in (table_of self.old) boundary)) }
        ensures there { IfOk result (λ answer. answer ≢ PlaceAnswer.Gone) }
        ensures members { (q : ℕ) → q / 2 ≢ boundary → members_of self.new q ≡ members_of self.old q }
        ensures live { all_lost (members_of self.new) (sites_in (table_of self.old) block)
            ≡ all_lost (members_of self.old) (sites_in (table_of self.old) block) }
        ensures lost { IfOk result (λ answer. answer ≢ PlaceAnswer.Full
            → (answer ≡ PlaceAnswer.Lost boundary) ↔ (is_lost (members_of self.new) boundary ≡ true)) }
        ensures other { IfOk result (λ answer. (s : ℕ) → answer ≡ PlaceAnswer.Lost s → s ≡ boundary) }
        ensures placed { IfOk result (λ answer. answer ≡ PlaceAnswer.Placed → IsPlaced (table_of self.old) block boundary (table_of self.new)) }
        ensures refused { IfOk result (λ answer. answer ≢ PlaceAnswer.Placed → table_of self.new ≡ table_of self.old) }
        ensures err { OnErr result (table_of self.new ≡ table_of self.old) }
        ensures stands { IfOk result (λ answer. answer ≡ PlaceAnswer.Placed → PutsBlock R.Rack self.old block self.new) }
        ensures same { IfOk result (λ answer. answer ≢ PlaceAnswer.Placed → KeepsBlocks R.Rack self.old self.new) }
        ensures err_same { OnErr result (KeepsBlocks R.Rack self.old self.new) }
        ensures most { CallsAtMost R.Rack self.old self.new 2 }
    {
        let site = match self.map.take_spare(block, boundary) {
            Ok(site) => site,
            Err(TakeFault::Full) => return Ok(PlaceAnswer::Full),
            Err(TakeFault::NoMemory) => return Err(NoMemory),
        };
        let shape = self.map.shape();
        match write_slot(&mut self.row, &mut self.rack, shape, site, &self.block) {
            PairWrite::Kept => Ok(PlaceAnswer::Placed),
            PairWrite::Lost => {
                self.map.drop_site(block, site.boundary);
                Ok(PlaceAnswer::Lost(boundary))
            }
        }
    }
}
