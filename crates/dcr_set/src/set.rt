ghost use Rattle.std.specs.Prelude.{◌≡◌, ℕ, ◌+◌, ◌<◌, ◌≤◌, true, false, length, take, vec_capacity};
ghost use Rattle.dcr_set.specs.EventSet.{has, numbers, no_event, with_event, without_event, union, difference, intersection, share, first_of, first_at_least, first_in_both, first_in_both_without, first_in_three};
ghost use Rattle.dcr_set.specs.Kept.{set_at, words_needed as needed};
ghost use Rattle.dcr_set.specs.declared.id.TheConstants.{MAX_ATOMS};

use crate::{EventId, EventIter, kept, lowest, runs, words};
use std::marker::Model;

/// A set of events: numbers below its room, which is at most `MAX_ATOMS`. It is kept in words of bits
/// of its own, so that no call takes memory. Contracts see it as a truth value for each number below
/// the room, read by the words of `specs/EventSet.antt`; `set_is_its_numbers` says that this is the
/// ascending list of its numbers. Two sets that a call joins have equal rooms.
#[derive(Drop)]
pub struct EventSet {
    words: [u64; 16],
    room: u16,
}

impl Model for EventSet {
    ghost use Rattle.std.specs.Prelude.{List, Bool};

    ghost Value = { List Bool };

    ghost use Rattle.dcr_set.specs.EventSetModel.{set_of_words, FitsRoom};

    ghost view = { set_of_words };

    ghost invariant = { FitsRoom };
}

impl EventSet {
    /// The empty set with this room.
    pub fn new(room: u16) -> EventSet
        requires { room ≤ MAX_ATOMS }
        ensures empty { result ≡ no_event room }
        ensures room { length result ≡ room }
    {
        EventSet {
            words: [0; 16],
            room,
        }
    }

    /// The room: every number in the set is below it.
    pub fn room(&self) -> u16
        ensures room { result ≡ length self.now }
        ensures most { length self.now ≤ MAX_ATOMS }
    {
        self.room
    }

    /// Adds an event below the room.
    pub fn insert(&mut self, e: EventId)
        requires { e < length self.old }
        ensures added { self.new ≡ with_event self.old e }
        ensures room { length self.new ≡ length self.old }
    {
        words::set_bit(&mut self.words, e.0);
    }

    /// Takes an event out. Where it isn't in the set nothing changes.
    pub fn remove(&mut self, e: EventId)
        ensures removed { self.new ≡ without_event self.old e }
        ensures room { length self.new ≡ length self.old }
    {
        if e.0 < self.room {
            words::clear_bit(&mut self.words, e.0);
        }
    }

    /// Whether the event is in the set.
    pub fn contains(&self, e: EventId) -> bool
        ensures { result ≡ has self.now e }
    {
        e.0 < self.room && words::test_bit(&self.words, e.0)
    }

    /// Adds all that the other set has.
    pub fn union_with(&mut self, other: &EventSet)
        requires { length self.old ≡ length other.now }
        ensures joined { self.new ≡ union self.old other.now }
        ensures room { length self.new ≡ length self.old }
    {
        words::unite(&mut self.words, &other.words, other.room);
    }

    /// Takes out all that the other set has.
    pub fn minus_with(&mut self, other: &EventSet)
        requires { length self.old ≡ length other.now }
        ensures left { self.new ≡ difference self.old other.now }
        ensures room { length self.new ≡ length self.old }
    {
        words::subtract(&mut self.words, &other.words, other.room);
    }

    /// Keeps what the other set has too.
    pub fn keep_with(&mut self, other: &EventSet)
        requires { length self.old ≡ length other.now }
        ensures kept { self.new ≡ intersection self.old other.now }
        ensures room { length self.new ≡ length self.old }
    {
        words::keep(&mut self.words, &other.words, self.room);
    }

    /// What is in one or the other.
    pub fn joined(&self, other: &EventSet) -> EventSet
        requires { length self.now ≡ length other.now }
        ensures joined { result ≡ union self.now other.now }
        ensures room { length result ≡ length self.now }
    {
        let mut either = self.copy();
        either.union_with(other);
        either
    }

    /// What is in both.
    pub fn common(&self, other: &EventSet) -> EventSet
        requires { length self.now ≡ length other.now }
        ensures common { result ≡ intersection self.now other.now }
        ensures room { length result ≡ length self.now }
    {
        let mut both = self.copy();
        both.keep_with(other);
        both
    }

    /// Whether an event is in both.
    pub fn meets(&self, other: &EventSet) -> bool
        requires { length self.now ≡ length other.now }
        ensures { result ≡ share self.now other.now }
    {
        self.first_common(other).is_some()
    }

    /// The least event in the set. None exactly where the set is empty.
    pub fn first(&self) -> Option<EventId>
        ensures { result ≡ first_of self.now }
    {
        event(lowest::lowest_of(&self.words, self.room))
    }

    /// The least event from this number on. None exactly where there is none.
    pub fn first_from(&self, from: u16) -> Option<EventId>
        ensures { result ≡ first_at_least self.now from }
    {
        event(runs::first_set(&self.words, from, self.room))
    }

    /// The least number from this one on that is no event. From an event on, the run of events up to it.
    pub fn first_missing_from(&self, from: u16) -> u16
        ensures from { from ≤ result }
        ensures missing { has self.now result ≡ false }
        ensures run { (k : ℕ) → from ≤ k → k < result → has self.now k ≡ true }
    {
        runs::first_clear(&self.words, from)
    }

    /// The least event in both. None exactly where there is none.
    pub fn first_common(&self, other: &EventSet) -> Option<EventId>
        requires { length self.now ≡ length other.now }
        ensures { result ≡ first_in_both self.now other.now }
    {
        event(lowest::lowest_common(&self.words, &other.words, self.room))
    }

    /// The least event in this set and in `inside` and not in `outside`. None exactly where there is none.
    pub fn first_common_without(&self, inside: &EventSet, outside: &EventSet) -> Option<EventId>
        requires inside { length self.now ≡ length inside.now }
        requires outside { length self.now ≡ length outside.now }
        ensures { result ≡ first_in_both_without self.now inside.now outside.now }
    {
        event(lowest::lowest_without(&self.words, &inside.words, &outside.words, self.room))
    }

    /// The least event in all three. None exactly where there is none.
    pub fn first_common_three(&self, second: &EventSet, third: &EventSet) -> Option<EventId>
        requires second { length self.now ≡ length second.now }
        requires third { length self.now ≡ length third.now }
        ensures { result ≡ first_in_three self.now second.now third.now }
    {
        event(lowest::lowest_of_three(&self.words, &second.words, &third.words, self.room))
    }

    /// The same set again.
    pub fn copy(&self) -> EventSet
        ensures { result ≡ self.now }
    {
        EventSet {
            words: self.words,
            room: self.room,
        }
    }

    /// A number that is mixed from all events, by which equal sets are looked for: equal sets have equal ones, and others
    /// rarely. It says nothing in contracts.
    pub fn mixed(&self) -> u64 {
        words::mix(&self.words)
    }

    /// How many words a set with this room takes in a row of words.
    pub fn words_needed(room: u16) -> usize
        ensures { result ≡ needed room }
    {
        kept::needed(room)
    }

    /// Puts the set at the end of a row of words, which has the room. `from_words` reads it there. Takes no memory.
    pub fn put_words(&self, row: &mut Vec<u64>)
        requires { length row.old.items + needed (length self.now) ≤ vec_capacity row.old }
        ensures set { set_at row.new.items (length row.old.items) (length self.now) ≡ self.now }
        ensures before { take (length row.old.items) row.new.items ≡ row.old.items }
        ensures len { length row.new.items ≡ length row.old.items + needed (length self.now) }
        ensures capacity { vec_capacity row.old ≤ vec_capacity row.new }
    {
        kept::put(&self.words, self.room, row);
    }

    /// The set with this room that stands in a row of words from this one on.
    pub fn from_words(row: &[u64], place: usize, room: u16) -> EventSet
        requires most { room ≤ MAX_ATOMS }
        requires within { place + needed room ≤ length row.now }
        ensures { result ≡ set_at row.now place room }
    {
        EventSet {
            words: kept::read(row, place, room),
            room,
        }
    }

    /// The events in the set, ascending.
    pub fn iter(&self) -> EventIter<'_>
        ensures { result ≡ numbers self.now }
    {
        EventIter::new(&self.words, self.room)
    }
}

// The event that has the number of the bit that was found.
fn event(found: Option<u16>) -> Option<EventId>
    ensures { result ≡ found }
{
    found.map(|number| EventId(number))
}
