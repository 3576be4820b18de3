// The masks of a projection: sets over its atoms, each under a number. The first, under 0, has no event: what does nothing
// takes no room of its own, and costs no work on words. Where there are many sites most masks have one event or none: beside
// the number of a mask of one event stands this event, so that it is read without the set.
ghost use Rattle.std.specs.Prelude.{◌≡◌, ◌≢◌, ◌+◌, ◌<◌, ◌≤◌, ℕ, true, false, List, [], ◌∷◌, length, IfOk, is_some};
ghost use Rattle.dcr_set.specs.EventSet.{Set, has, no_event, union, difference, first_at_least, first_in_both_without, first_in_three};
ghost use Rattle.dcr_set.specs.declared.id.TheConstants.{MAX_ATOMS};
ghost use Rattle.dcr_graph.specs.Rows.{row};
ghost use Rattle.dcr_proj.specs.CoverValue.{atoms_of};
ghost use Rattle.dcr_proj.specs.Masks.{AreMasks, KeepsMasks, IsPlace};

use crate::once::{Alike, Once};
use dcr_set::{EventId, EventSet, NoMemory};
use std::alloc::Global;

/// Where a mask lies, and the event that it has where it has no other.
#[derive(Clone, Copy)]
pub struct Place {
    pub number: u16,
    pub alone: Option<EventId>,
}

impl Place {
    /// Whether both are the same.
    pub fn is_same(&self, other: &Place) -> bool
        ensures same { result ≡ true → self.now ≡ other.now }
        ensures other { result ≡ false → self.now ≢ other.now }
    {
        if self.number != other.number {
            return false;
        }
        match (self.alone, other.alone) {
            (Some(e), Some(f)) => e.0 == f.0,
            (None, None) => true,
            _ => false,
        }
    }

    /// Of the mask that has no event.
    pub fn nothing() -> Place
        ensures number { result.number ≡ 0 }
        ensures place { (masks : List Set) → AreMasks masks → IsPlace masks result }
    {
        Place {
            number: 0,
            alone: None,
        }
    }
}

/// The masks that were kept so far.
#[derive(Drop)]
pub struct Masks {
    sets: Once<EventSet>,
    ghost masks: { AreMasks sets.items.items },
}

impl Masks {
    /// The mask that has no event, alone.
    pub fn new(alloc: Global, atoms: u16) -> Result<Masks, NoMemory>
        requires { atoms ≤ MAX_ATOMS }
        ensures { IfOk result (λ masks. masks.sets.items.items ≡ no_event atoms ∷ []) }
    {
        let sets = Once::of(alloc, EventSet::new(atoms))?;
        Ok(Masks { sets })
    }

    /// Where a mask lies. One more is kept where it has an event, and no equal one was found.
    pub fn keep(&mut self, mask: EventSet) -> Result<Place, NoMemory>
        requires room { length mask ≡ atoms_of self.old.sets.items.items }
        requires most { length self.old.sets.items.items < 65536 }
        ensures place { IfOk result (λ place. IsPlace self.new.sets.items.items place) }
        ensures mask { IfOk result (λ place. row self.new.sets.items.items place.number ≡ mask) }
        ensures kept { KeepsMasks self.old.sets.items.items self.new.sets.items.items }
        ensures more { length self.new.sets.items.items ≤ length self.old.sets.items.items + 1 }
    {
        let Some(e) = mask.first() else {
            return Ok(Place::nothing());
        };
        let alone = if has_others(&mask, e) { None } else { Some(e) };
        let number = self.sets.keep(mask)?;
        Ok(Place { number, alone })
    }

    /// The masks, once all are kept, in no more memory than they need.
    pub fn into_sets(self) -> Vec<EventSet>
        ensures sets { result.items ≡ self.sets.items.items }
        ensures masks { AreMasks result.items }
    {
        self.sets.into_items()
    }
}

impl Alike for EventSet {
    fn is_like(&self, other: &EventSet) -> bool {
        self.room() == other.room() && has_all(self, other) && has_all(other, self)
    }

    fn mixed(&self) -> u64 {
        EventSet::mixed(self)
    }
}

// Whether the first set has all that the second has.
fn has_all(set: &EventSet, other: &EventSet) -> bool
    requires { length set.now ≡ length other.now }
    ensures all { result ≡ true → (k : ℕ) → has other.now k ≡ true → has set.now k ≡ true }
    ensures same { set.now ≡ other.now → result ≡ true }
{
    other.first_common_without(other, set).is_none()
}

// Whether there is an event behind this one in the set.
fn has_others(set: &EventSet, e: EventId) -> bool
    requires { e < length set.now }
    ensures { result ≡ is_some (first_at_least set.now (e + 1)) }
{
    // No set has as many events as a number has room for.
    let _room = set.room();
    set.first_from(e.0 + 1).is_some()
}

/// The mask under a number.
pub fn mask_at(masks: &[EventSet], number: u16) -> &EventSet
    requires masks { AreMasks masks.now }
    requires number { number < length masks.now }
    ensures mask { result.now ≡ row masks.now number }
    ensures room { length result.now ≡ atoms_of masks.now }
{
    &masks[usize::from(number)]
}

/// Adds what the mask at a place has.
pub fn add_mask(masks: &[EventSet], place: &Place, set: &mut EventSet)
    requires masks { AreMasks masks.now }
    requires place { IsPlace masks.now place.now }
    requires room { length set.old ≡ atoms_of masks.now }
    ensures joined { set.new ≡ union set.old (row masks.now place.now.number) }
    ensures room { length set.new ≡ length set.old }
{
    if place.number == 0 {
        return;
    }
    match place.alone {
        Some(e) => set.insert(e),
        None => set.union_with(mask_at(masks, place.number)),
    }
}

/// Takes out what the mask at a place has.
pub fn take_mask(masks: &[EventSet], place: &Place, set: &mut EventSet)
    requires masks { AreMasks masks.now }
    requires place { IsPlace masks.now place.now }
    requires room { length set.old ≡ atoms_of masks.now }
    ensures left { set.new ≡ difference set.old (row masks.now place.now.number) }
    ensures room { length set.new ≡ length set.old }
{
    if place.number == 0 {
        return;
    }
    match place.alone {
        Some(e) => set.remove(e),
        None => set.minus_with(mask_at(masks, place.number)),
    }
}

/// The least event of the mask at a place that is in `inside` and not in `outside`.
pub fn first_open(
    masks: &[EventSet],
    place: &Place,
    inside: &EventSet,
    outside: &EventSet,
) -> Option<EventId>
    requires masks { AreMasks masks.now }
    requires place { IsPlace masks.now place.now }
    requires inside { length inside.now ≡ atoms_of masks.now }
    requires outside { length outside.now ≡ atoms_of masks.now }
    ensures { result ≡ first_in_both_without (row masks.now place.now.number) inside.now outside.now }
{
    if place.number == 0 {
        return None;
    }
    let Some(e) = place.alone else {
        return mask_at(masks, place.number).first_common_without(inside, outside);
    };
    if inside.contains(e) && !outside.contains(e) {
        Some(e)
    } else {
        None
    }
}

/// The least event of the mask at a place that is in both sets.
pub fn first_within(
    masks: &[EventSet],
    place: &Place,
    second: &EventSet,
    third: &EventSet,
) -> Option<EventId>
    requires masks { AreMasks masks.now }
    requires place { IsPlace masks.now place.now }
    requires second { length second.now ≡ atoms_of masks.now }
    requires third { length third.now ≡ atoms_of masks.now }
    ensures { result ≡ first_in_three (row masks.now place.now.number) second.now third.now }
{
    if place.number == 0 {
        return None;
    }
    let Some(e) = place.alone else {
        return mask_at(masks, place.number).first_common_three(second, third);
    };
    if second.contains(e) && third.contains(e) {
        Some(e)
    } else {
        None
    }
}
