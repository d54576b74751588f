// One member, and the calls on it.
ghost use Rattle.std.specs.Prelude.{◌≡◌, ◌+◌, ◌*◌, ◌%◌, ◌≤◌, ◌<◌, ◌∷◌, [], ℕ, true, length, IfOk, IfErr, IfSome, OnOk, OnErr};
ghost use Rattle.dg_model.specs.Members.{HasRoom, SlotOf, place_of};
ghost use Rattle.dg_model.specs.Causes.{RoseByOne};
ghost use Rattle.dg_io.specs.RackCalls.{RackCall};
ghost use Rattle.dg_io.specs.RackWords.{Leaves};
ghost use Rattle.dg_io.specs.Told.{Told, IsSame, IsZeros, Torn, FitsIn, IsHeader, OldOrNew};
ghost use Rattle.dg_pair.specs.Kept.{BlanksMember};
ghost use Rattle.dg_pair.specs.Members.{IsMember, GoodIs, FillIs, GotSlot, TookSlot, KeepsSlots, BlankIs, NotedIs, ExtendedIs, answer_of, fill_answer_of};

use dg_io::{Failed, Rack};

/// The member serves.
#[derive(Drop)]
pub struct Good;

/// The member is being refilled, from slot 0 on.
#[derive(Drop)]
pub struct Filling {
    /// The slots below this one are as its partner's.
    pub(crate) have: u32,
}

/// The member isn't called.
#[derive(Drop)]
pub struct Out;

/// One member of a boundary. Slot x stands at place `512 + x * l`.
#[derive(Drop)]
pub struct Member<S> {
    /// Member `2s + j` is side j of boundary s.
    pub(crate) number: u8,
    /// Bytes of a slot.
    pub(crate) l: u32,
    /// How many slots it has.
    pub(crate) slots: u32,
    /// What it does.
    pub(crate) state: S,
}

/// What became of a good member by a call.
#[derive(Drop)]
pub enum GoodCall {
    /// The call was done.
    Done(Member<Good>),
    /// It failed, and the member is out.
    Fell(Member<Out>),
}

/// What became of a member that is being refilled by a call.
#[derive(Drop)]
pub enum FillCall {
    /// The call was done.
    Done(Member<Filling>),
    /// It failed, and the member is out.
    Fell(Member<Out>),
}

impl<S: Drop> Member<S> {
    pub(crate) fn new(number: u8, l: u32, slots: u32, state: S) -> Self
        ensures is { IsMember number l slots result }
        ensures state { result.state ≡ state }
    {
        Member {
            number,
            l,
            slots,
            state,
        }
    }

    // The member in another state.
    pub(crate) fn turned<T>(self, state: T) -> Member<T>
        ensures is { IsMember self.number self.l self.slots result }
        ensures state { result.state ≡ state }
    {
        let Member {
            number,
            l,
            slots,
            ..
        } = self;
        Member {
            number,
            l,
            slots,
            state,
        }
    }

    // Which side of its boundary it is.
    pub(crate) fn side(&self) -> u8
        ensures { result ≡ self.now.number % 2 }
    {
        self.number % 2
    }

    // Writes a slot.
    fn put<R: Rack>(&self, rack: &mut R, slot: u32, buf: &[u8]) -> Result<(), Failed>
        requires size { length buf.now ≡ self.now.l }
        requires slot { slot < self.now.slots }
        requires room { HasRoom self.now.l self.now.slots (R.bytes rack.old self.now.number) }
        requires stand { R.stands rack.old self.now.number ≡ true }
        ensures put { OnOk result (SlotOf self.now.l slot buf.now (R.bytes rack.new self.now.number)) }
        ensures torn { (q : ℕ) → Told (Torn (place_of self.now.l slot) (length buf.now)) (R.bytes rack.old q) (R.bytes rack.new q) }
        ensures kept { KeepsSlots self.now.l slot (R.bytes rack.old self.now.number) (R.bytes rack.new self.now.number) }
        ensures room { HasRoom self.now.l self.now.slots (R.bytes rack.new self.now.number) }
        ensures made { R.made rack.old (RackCall.calls self.now.number ∷ []) rack.new }
        ensures leaves { Leaves R.Rack self.now.number result rack.old rack.new }
        ensures writes { RoseByOne (R.counts rack.old).writes (R.counts rack.new).writes }
    {
        rack.write(self.number, 512 + slot as u64 * self.l as u64, buf)
    }
}

impl Member<Out> {
    // A member of no boundary.
    pub(crate) fn hollow() -> Self {
        Member::new(0, 0, 0, Out)
    }

    /// Makes the member anew, of `size` zero bytes, to be refilled from slot 0 on. It stays out where that fails.
    pub fn replace<R: Rack>(self, rack: &mut R, size: u64) -> Result<Member<Filling>, Member<Out>>
        requires { 512 + self.slots * self.l ≤ size }
        ensures ok { IfOk result (λ m. IsMember self.number self.l self.slots m × (m.state.have ≡ 0)) }
        ensures err { IfErr result (λ m. IsMember self.number self.l self.slots m) }
        ensures stands { OnOk result (R.stands rack.new self.number ≡ true) }
        ensures blank { OnOk result (Told (IsZeros size) (R.bytes rack.old self.number) (R.bytes rack.new self.number)) }
        ensures keeps { BlanksMember R.Rack self.number rack.old rack.new }
        ensures leaves { Leaves R.Rack self.number result rack.old rack.new }
        ensures writes { RoseByOne (R.counts rack.old).writes (R.counts rack.new).writes }
    {
        match rack.blank(self.number, size) {
            Ok(()) => Ok(self.turned(Filling { have: 0 })),
            Err(_) => Err(self),
        }
    }
}

impl Member<Good> {
    /// Puts the member out.
    pub fn fail(self) -> Member<Out>
        ensures { IsMember self.number self.l self.slots result }
    {
        self.turned(Out)
    }

    /// Reads a slot.
    pub fn read<R: Rack>(self, rack: &mut R, slot: u32, buf: &mut [u8]) -> GoodCall
        requires size { length buf.old ≡ self.l }
        requires slot { slot < self.slots }
        requires room { HasRoom self.l self.slots (R.bytes rack.old self.number) }
        requires stand { R.stands rack.old self.number ≡ true }
        ensures is { GoodIs self.number self.l self.slots result }
        ensures got { GotSlot self.l slot buf.new (R.bytes rack.new self.number) result }
        ensures same { (q : ℕ) → Told IsSame (R.bytes rack.old q) (R.bytes rack.new q) }
        ensures made { R.made rack.old (RackCall.calls self.number ∷ []) rack.new }
        ensures leaves { Leaves R.Rack self.number (answer_of result) rack.old rack.new }
        ensures writes { (R.counts rack.new).writes ≡ (R.counts rack.old).writes }
    {
        match rack.read(self.number, 512 + slot as u64 * self.l as u64, buf) {
            Ok(()) => GoodCall::Done(self),
            Err(_) => GoodCall::Fell(self.fail()),
        }
    }

    /// Writes a slot.
    pub fn write<R: Rack>(self, rack: &mut R, slot: u32, buf: &[u8]) -> GoodCall
        requires size { length buf.now ≡ self.l }
        requires slot { slot < self.slots }
        requires room { HasRoom self.l self.slots (R.bytes rack.old self.number) }
        requires stand { R.stands rack.old self.number ≡ true }
        ensures is { GoodIs self.number self.l self.slots result }
        ensures put { GotSlot self.l slot buf.now (R.bytes rack.new self.number) result }
        ensures torn { (q : ℕ) → Told (Torn (place_of self.l slot) (length buf.now)) (R.bytes rack.old q) (R.bytes rack.new q) }
        ensures kept { KeepsSlots self.l slot (R.bytes rack.old self.number) (R.bytes rack.new self.number) }
        ensures room { HasRoom self.l self.slots (R.bytes rack.new self.number) }
        ensures made { R.made rack.old (RackCall.calls self.number ∷ []) rack.new }
        ensures leaves { Leaves R.Rack self.number (answer_of result) rack.old rack.new }
        ensures writes { RoseByOne (R.counts rack.old).writes (R.counts rack.new).writes }
    {
        match self.put(rack, slot, buf) {
            Ok(()) => GoodCall::Done(self),
            Err(_) => GoodCall::Fell(self.fail()),
        }
    }

    // Writes at any place.
    pub(crate) fn note<R: Rack>(self, rack: &mut R, place: u64, buf: &[u8]) -> GoodCall
        requires fits { IfSome (R.bytes rack.old self.number) (λ all. place + length buf.now ≤ length all) }
        requires stand { R.stands rack.old self.number ≡ true }
        ensures is { GoodIs self.number self.l self.slots result }
        ensures bytes { NotedIs place buf.now (R.bytes rack.old self.number) (R.bytes rack.new self.number) result }
        ensures whole { OnErr (answer_of result) (R.steady rack.old → IsHeader place buf.now
            → Told (OldOrNew place buf.now) (R.bytes rack.old self.number) (R.bytes rack.new self.number)) }
        ensures made { R.made rack.old (RackCall.calls self.number ∷ []) rack.new }
        ensures leaves { Leaves R.Rack self.number (answer_of result) rack.old rack.new }
        ensures writes { RoseByOne (R.counts rack.old).writes (R.counts rack.new).writes }
    {
        match rack.write(self.number, place, buf) {
            Ok(()) => GoodCall::Done(self),
            Err(_) => GoodCall::Fell(self.fail()),
        }
    }

    // Makes it so many bytes long.
    pub(crate) fn extend<R: Rack>(self, rack: &mut R, size: u64) -> GoodCall
        requires longer { IfSome (R.bytes rack.old self.number) (FitsIn size) }
        requires stand { R.stands rack.old self.number ≡ true }
        ensures is { GoodIs self.number self.l self.slots result }
        ensures bytes { ExtendedIs size (R.bytes rack.old self.number) (R.bytes rack.new self.number) result }
        ensures made { R.made rack.old (RackCall.extends self.number ∷ []) rack.new }
        ensures leaves { Leaves R.Rack self.number (answer_of result) rack.old rack.new }
        ensures writes { RoseByOne (R.counts rack.old).writes (R.counts rack.new).writes }
    {
        match rack.extend(self.number, size) {
            Ok(()) => GoodCall::Done(self),
            Err(_) => GoodCall::Fell(self.fail()),
        }
    }

    // Makes a member anew, of so many zero bytes.
    pub(crate) fn blank<R: Rack>(
        rack: &mut R,
        number: u8,
        l: u32,
        slots: u32,
        size: u64,
    ) -> GoodCall
        requires { 512 + slots * l ≤ size }
        ensures is { GoodIs number l slots result }
        ensures stands { OnOk (answer_of result) (R.stands rack.new number ≡ true) }
        ensures blank { BlankIs size (R.bytes rack.old number) (R.bytes rack.new number) result }
        ensures keeps { BlanksMember R.Rack number rack.old rack.new }
        ensures leaves { Leaves R.Rack number (answer_of result) rack.old rack.new }
        ensures writes { RoseByOne (R.counts rack.old).writes (R.counts rack.new).writes }
    {
        let member = Member::new(number, l, slots, Good);
        match rack.blank(number, size) {
            Ok(()) => GoodCall::Done(member),
            Err(_) => GoodCall::Fell(member.fail()),
        }
    }
}

impl Member<Filling> {
    /// Puts the member out.
    pub fn fail(self) -> Member<Out>
        ensures { IsMember self.number self.l self.slots result }
    {
        self.turned(Out)
    }

    // The next slot is as its partner's, or isn't used.
    pub(crate) fn raised(self) -> Member<Filling>
        requires { self.state.have < self.slots }
        ensures is { IsMember self.number self.l self.slots result }
        ensures have { result.state.have ≡ self.state.have + 1 }
    {
        let have = self.state.have + 1;
        self.turned(Filling { have })
    }

    // Each slot is as its partner's.
    pub(crate) fn completed(self) -> Member<Good>
        ensures { IsMember self.number self.l self.slots result }
    {
        self.turned(Good)
    }

    /// Writes a slot. There is no read.
    pub fn write<R: Rack>(self, rack: &mut R, slot: u32, buf: &[u8]) -> FillCall
        requires size { length buf.now ≡ self.l }
        requires slot { slot < self.slots }
        requires room { HasRoom self.l self.slots (R.bytes rack.old self.number) }
        requires stand { R.stands rack.old self.number ≡ true }
        ensures is { FillIs self.number self.l self.slots self.state.have result }
        ensures put { TookSlot self.l slot buf.now (R.bytes rack.new self.number) result }
        ensures torn { (q : ℕ) → Told (Torn (place_of self.l slot) (length buf.now)) (R.bytes rack.old q) (R.bytes rack.new q) }
        ensures kept { KeepsSlots self.l slot (R.bytes rack.old self.number) (R.bytes rack.new self.number) }
        ensures room { HasRoom self.l self.slots (R.bytes rack.new self.number) }
        ensures made { R.made rack.old (RackCall.calls self.number ∷ []) rack.new }
        ensures leaves { Leaves R.Rack self.number (fill_answer_of result) rack.old rack.new }
        ensures writes { RoseByOne (R.counts rack.old).writes (R.counts rack.new).writes }
    {
        match self.put(rack, slot, buf) {
            Ok(()) => FillCall::Done(self),
            Err(_) => FillCall::Fell(self.fail()),
        }
    }
}
