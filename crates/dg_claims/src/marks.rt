ghost use Rattle.std.specs.Prelude.{◌≡◌, ◌<◌, ◌^◌, ◌==◌, ℕ, Some, None, [], ◌∷◌, IfNone, IfOk, IfSome, List, MatchResult, length, map, slice_get, slice_index_or};
ghost use Rattle.std.specs.Bool.{Decides};
ghost use Rattle.std.specs.BTreeMap.{is_at};
ghost use Rattle.std.specs.BTreeSet.{insert_key};
ghost use Rattle.std.specs.List.{Contains, list_any};
ghost use Rattle.std.specs.List.Sorted.{IsStrictlySortedBy};
ghost use Rattle.std.specs.Option.{option_map};
ghost use Rattle.std.specs.Set.{remove_key};
ghost use Rattle.dg_claims.specs.Places.{mark_cmp};
ghost use Rattle.dg_claims.specs.Marks.{AddsMark, DropsMark, IsMarks, SameMarks, SameMore, SetsMore, is_of_level, marked_on, more_on, place_in};
ghost use Rattle.dg_claims.specs.declared.places.Mark.{Mark};

use crate::places::{Mark, Place, is_before, is_same, mark_of};
use dg_io::NoMemory;
use std::alloc::Global;
use std::collections::{BTreeMap, BTreeSet};

/// Which sources claim each fragment, in the order of the claims on it. Most fragments have one at most, in 16 bytes.
#[derive(Drop)]
pub struct Marks {
    alloc: Global,
    /// The first source of each fragment, if it has one.
    first: Vec<Option<Place>>,
    /// The further sources of the fragments that have more.
    more: BTreeMap<u32, BTreeSet<Mark>>,
}

const _: () = prove!(size_of::<Option<Place>>() == 16);

impl Marks {
    /// So many fragments, of which none is claimed. It takes the memory for one source of each.
    #[tactic(auto, unfolding(crate::specs::Marks::all_on))]
    pub fn new(alloc: Global, size: u32) -> Result<Marks, NoMemory>
        ensures room { IfOk result (λ marks. length marks.first.items ≡ size) }
        ensures none { IfOk result (λ marks. (fragment : ℕ) → marked_on marks fragment ≡ []) }
        ensures sound { IfOk result IsMarks }
    {
        match vec![in alloc; None; size as usize] {
            Ok(first) => Ok(Marks {
                alloc,
                first,
                more: BTreeMap::new(alloc),
            }),
            Err(_) => Err(NoMemory),
        }
    }

    /// The first source of the fragment, if it has one.
    fn first_at(&self, fragment: u32) -> Option<Place>
        ensures { result ≡ slice_index_or self.now.first.items fragment None }
    {
        self.first.get(fragment as usize).copied().flatten()
    }

    /// How many sources claim the fragment.
    #[tactic(auto, unfolding(crate::specs::Marks::all_on))]
    pub fn count(&self, fragment: u32) -> u32
        requires { IsMarks self.now }
        ensures { result ≡ length (marked_on self.now fragment) }
    {
        let further = count_more(&self.more, fragment);
        let number = match self.first_at(fragment) {
            Some(_) => 1 + further,
            None => 0,
        };
        number as u32
    }

    /// A source of the fragment, by its number among them.
    #[tactic(auto, unfolding(crate::specs::Marks::all_on))]
    pub fn nth(&self, fragment: u32, i: u32) -> Option<Place>
        requires { IsMarks self.now }
        ensures { result ≡ slice_get (marked_on self.now fragment) i }
    {
        let first = self.first_at(fragment)?;
        if i == 0 {
            return Some(first);
        }
        nth_more(&self.more, fragment, i as usize - 1)
    }

    /// The source of a fragment that has one.
    #[tactic(auto, unfolding(crate::specs::Marks::all_on))]
    pub fn only(&self, fragment: u32) -> Option<Place>
        requires { IsMarks self.now }
        ensures one { IfSome result (λ place. marked_on self.now fragment ≡ place ∷ []) }
        ensures none { IfNone result (length (marked_on self.now fragment) ≡ 1 → ⊥) }
    {
        let first = self.first_at(fragment)?;
        if count_more(&self.more, fragment) == 0 {
            return Some(first);
        }
        None
    }

    /// Whether the fragment has a source at the level.
    #[tactic(auto, unfolding(crate::specs::Marks::all_on))]
    pub fn has_level(&self, fragment: u32, level: u8) -> bool
        requires { IsMarks self.now }
        ensures { result ≡ list_any (is_of_level level) (marked_on self.now fragment) }
    {
        match self.first_at(fragment) {
            Some(place) => {
                mark_of(place).level == level || more_has_level(&self.more, fragment, level)
            }
            None => false,
        }
    }

    /// The fragment has this source too from now on.
    pub fn add(&mut self, fragment: u32, place: Place) -> Result<(), NoMemory>
        requires sound { IsMarks self.old }
        requires within { fragment < length self.old.first.items }
        requires fresh { Contains (marked_on self.old fragment) place → ⊥ }
        ensures sound { IsMarks self.new }
        ensures added { MatchResult result (λ _. AddsMark self.old self.new fragment place) (λ _. SameMarks self.old self.new) }
    {
        if self.count(fragment) == u32::MAX {
            return Err(NoMemory);
        }
        let Some(first) = self.first_at(fragment) else {
            self.first[fragment as usize] = Some(place);
            return Ok(());
        };
        if is_before(mark_of(first), mark_of(place)) {
            return put_more(&mut self.more, self.alloc, fragment, mark_of(place));
        }
        put_more(&mut self.more, self.alloc, fragment, mark_of(first))?;
        self.first[fragment as usize] = Some(place);
        Ok(())
    }

    /// The fragment doesn't have this source any more.
    pub fn remove(&mut self, fragment: u32, place: Place)
        requires sound { IsMarks self.old }
        requires within { fragment < length self.old.first.items }
        ensures sound { IsMarks self.new }
        ensures dropped { DropsMark self.old self.new fragment place }
    {
        if is_first(self.first_at(fragment), place) {
            self.first[fragment as usize] = unmarked(take_more(&mut self.more, fragment));
        } else {
            drop_more(&mut self.more, fragment, mark_of(place));
        }
    }
}

/// Whether this is the source.
fn is_first(one: Option<Place>, place: Place) -> bool
    ensures { Decides result (one ≡ Some place) }
{
    match one {
        Some(other) => is_same(other, place),
        None => false,
    }
}

/// How many further sources the fragment has.
fn count_more(more: &BTreeMap<u32, BTreeSet<Mark>>, fragment: u32) -> usize
    ensures number { result ≡ length (more_on more.now fragment) }
    ensures fits { result < 2 ^ 63 }
{
    match more.get(&fragment) {
        Some(marks) => marks.len(),
        None => 0,
    }
}

/// A further source of the fragment, by its number among them.
fn nth_more(more: &BTreeMap<u32, BTreeSet<Mark>>, fragment: u32, i: usize) -> Option<Place>
    ensures { result ≡ option_map place_in (slice_get (more_on more.now fragment) i) }
{
    let mark = more.get(&fragment)?.iter().nth(i)?;
    Some(mark.place)
}

/// Puts a further source into the set of the fragment.
fn put_more(
    more: &mut BTreeMap<u32, BTreeSet<Mark>>,
    alloc: Global,
    fragment: u32,
    mark: Mark,
) -> Result<(), NoMemory>
    ensures put { MatchResult result (λ _. SetsMore more.old more.new fragment (insert_key mark_cmp (more_on more.old fragment) mark))
        (λ _. SameMore more.old more.new) }
    ensures ordered { IfOk result (λ _. IsStrictlySortedBy mark_cmp (more_on more.new fragment)) }
{
    if let Some(marks) = more.get_mut(&fragment) {
        return match marks.insert(mark) {
            Ok(_) => Ok(()),
            Err(_) => Err(NoMemory),
        };
    }
    let mut marks = BTreeSet::new(alloc);
    if marks.insert(mark).is_err() || more.insert(fragment, marks).is_err() {
        return Err(NoMemory);
    }
    Ok(())
}

/// Takes the first of the further sources of the fragment, if it has any.
fn take_more(more: &mut BTreeMap<u32, BTreeSet<Mark>>, fragment: u32) -> Option<Mark>
    ensures some { IfSome result (λ mark. more_on more.old fragment ≡ mark ∷ more_on more.new fragment) }
    ensures none { IfNone result ((more_on more.old fragment ≡ []) × (more_on more.new fragment ≡ [])) }
    ensures elsewhere { (other : ℕ) → (other ≡ fragment → ⊥) → more_on more.new other ≡ more_on more.old other }
{
    let marks = more.get_mut(&fragment)?;
    let mark = marks.pop_first()?;
    if marks.is_empty() {
        more.remove(&fragment);
    }
    Some(mark)
}

/// The source without its level.
fn unmarked(mark: Option<Mark>) -> Option<Place>
    ensures { result ≡ option_map place_in mark }
{
    Some(mark?.place)
}

/// Takes a further source out of the set of the fragment.
fn drop_more(more: &mut BTreeMap<u32, BTreeSet<Mark>>, fragment: u32, mark: Mark)
    ensures { SetsMore more.old more.new fragment (remove_key (is_at (mark_cmp mark)) (more_on more.old fragment)) }
{
    let Some(marks) = more.get_mut(&fragment) else {
        return;
    };
    marks.remove(&mark);
    if marks.is_empty() {
        more.remove(&fragment);
    }
}

/// Whether one of the further sources of the fragment is at the level.
fn more_has_level(more: &BTreeMap<u32, BTreeSet<Mark>>, fragment: u32, level: u8) -> bool
    ensures { result ≡ list_any (λ mark. mark.level == level) (more_on more.now fragment) }
{
    match more.get(&fragment) {
        Some(marks) => marks.iter().any(|mark| mark.level == level),
        None => false,
    }
}
