ghost use Rattle.std.specs.Prelude.{◌≡◌, ◌+◌, ◌≤◌, length, vec_capacity};
ghost use Rattle.dcr_journal.specs.Slots.{outcome_at, entry_at, IsIn, IsKept, IsGrown};

use crate::{Call, Entry, Outcome};
use dcr_graph::SiteMark;
use dcr_set::{EventId, EventSet};

/// How many words the sets of one entry take at most: three sets of 16 words each.
pub(crate) const MOST_WORDS: usize = 48;

/// An outcome without its sets, which stand in a row of words beside it. Of each its room is kept here.
#[derive(Clone, Copy)]
pub(crate) enum Kept {
    Done,
    NotHere,
    Excluded,
    Condition(EventId),
    Milestone(EventId),
    Faulted,
    // The rooms of the executed, of the pending and of the included events.
    Marks(u16, u16, u16),
    Can(u16),
    AllDone,
    Waits(EventId),
}

impl Kept {
    /// Keeps an outcome. Its sets are put at the end of the row, which has room for them.
    #[tactic(auto, using(crate::proofs::SlotLemmas::grown_by_none))]
    pub(crate) fn of(outcome: &Outcome, row: &mut Vec<u64>) -> Kept
        requires { length row.old.items + MOST_WORDS ≤ vec_capacity row.old }
        ensures outcome { outcome_at row.new.items (length row.old.items) result ≡ outcome.now }
        ensures sets { IsIn row.new.items (length row.old.items) result }
        ensures grown { IsGrown row.old.items row.new.items }
        ensures capacity { vec_capacity row.old ≤ vec_capacity row.new }
    {
        match outcome {
            Outcome::Done => Kept::Done,
            Outcome::NotHere => Kept::NotHere,
            Outcome::Excluded => Kept::Excluded,
            Outcome::Condition(e) => Kept::Condition(*e),
            Outcome::Milestone(e) => Kept::Milestone(*e),
            Outcome::Faulted => Kept::Faulted,
            Outcome::Marks(mark) => keep_mark(mark, row),
            Outcome::Can(set) => keep_set(set, row),
            Outcome::AllDone => Kept::AllDone,
            Outcome::Waits(e) => Kept::Waits(*e),
        }
    }

    /// Makes a value the outcome, whose sets stand in the row from this word on. Each outcome is written where it is to
    /// stand, so that no room for sets is moved.
    pub(crate) fn read(&self, row: &[u64], place: usize, outcome: &mut Outcome)
        requires { IsIn row.now place self.now }
        ensures { outcome.new ≡ outcome_at row.now place self.now }
    {
        match self {
            Kept::Done => *outcome = Outcome::Done,
            Kept::NotHere => *outcome = Outcome::NotHere,
            Kept::Excluded => *outcome = Outcome::Excluded,
            Kept::Condition(e) => *outcome = Outcome::Condition(EventId(e.0)),
            Kept::Milestone(e) => *outcome = Outcome::Milestone(EventId(e.0)),
            Kept::Faulted => *outcome = Outcome::Faulted,
            Kept::Marks(executed, pending, included) => {
                read_marks(row, place, *executed, *pending, *included, outcome);
            }
            Kept::Can(room) => read_set(row, place, *room, outcome),
            Kept::AllDone => *outcome = Outcome::AllDone,
            Kept::Waits(e) => *outcome = Outcome::Waits(EventId(e.0)),
        }
    }
}

// The same of marks with these rooms. It stands by itself, as the next one does, since room for the sets is cleared where
// it begins, which other outcomes need not wait for.
#[inline(never)]
fn read_marks(
    row: &[u64],
    place: usize,
    executed: u16,
    pending: u16,
    included: u16,
    outcome: &mut Outcome,
)
    requires { IsIn row.now place (Kept.Marks executed pending included) }
    ensures { outcome.new ≡ outcome_at row.now place (Kept.Marks executed pending included) }
{
    let second = place + EventSet::words_needed(executed);
    let third = second + EventSet::words_needed(pending);
    *outcome = Outcome::Marks(SiteMark {
        executed: EventSet::from_words(row, place, executed),
        pending: EventSet::from_words(row, second, pending),
        included: EventSet::from_words(row, third, included),
    });
}

// The same of a set with this room.
#[inline(never)]
fn read_set(row: &[u64], place: usize, room: u16, outcome: &mut Outcome)
    requires { IsIn row.now place (Kept.Can room) }
    ensures { outcome.new ≡ outcome_at row.now place (Kept.Can room) }
{
    *outcome = Outcome::Can(EventSet::from_words(row, place, room));
}

#[inline(never)]
fn keep_mark(mark: &SiteMark, row: &mut Vec<u64>) -> Kept
    requires { length row.old.items + MOST_WORDS ≤ vec_capacity row.old }
    ensures outcome { outcome_at row.new.items (length row.old.items) result ≡ Outcome.Marks mark.now }
    ensures sets { IsIn row.new.items (length row.old.items) result }
    ensures grown { IsGrown row.old.items row.new.items }
    ensures capacity { vec_capacity row.old ≤ vec_capacity row.new }
{
    let (executed, pending, included) = (
        mark.executed.room(),
        mark.pending.room(),
        mark.included.room(),
    );
    mark.executed.put_words(row);
    mark.pending.put_words(row);
    mark.included.put_words(row);
    Kept::Marks(executed, pending, included)
}

#[inline(never)]
fn keep_set(set: &EventSet, row: &mut Vec<u64>) -> Kept
    requires { length row.old.items + MOST_WORDS ≤ vec_capacity row.old }
    ensures outcome { outcome_at row.new.items (length row.old.items) result ≡ Outcome.Can set.now }
    ensures sets { IsIn row.new.items (length row.old.items) result }
    ensures grown { IsGrown row.old.items row.new.items }
    ensures capacity { vec_capacity row.old ≤ vec_capacity row.new }
{
    let room = set.room();
    set.put_words(row);
    Kept::Can(room)
}

/// An entry without the sets of its outcome, which stand in a row of words beside it.
#[derive(Drop)]
pub(crate) struct Slot {
    pub(crate) session: u32,
    pub(crate) seq: u32,
    // From which word on the sets stand in the row.
    pub(crate) place: u32,
    pub(crate) call: Call,
    pub(crate) outcome: Kept,
}

impl Slot {
    /// Makes a value the entry, the sets of whose outcome stand in the row.
    pub(crate) fn read(&self, row: &[u64], entry: &mut Entry)
        requires { IsKept row.now self.now }
        ensures { entry.new ≡ entry_at row.now self.now }
    {
        entry.session = self.session;
        entry.seq = self.seq;
        entry.call = self.call;
        self.outcome
            .read(row, self.place as usize, &mut entry.outcome);
    }
}
