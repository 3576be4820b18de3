ghost use Rattle.std.specs.Prelude.{◌≡◌};
ghost use Rattle.dcr_journal.specs.declared.call.Outcome.TheVariants.{Marks, Can};

use dcr_graph::{Cause, SiteMark};
use dcr_set::{EventId, EventSet, SiteId};
use dcr_site::Decision;

/// What a session asks.
#[derive(Clone, Copy, Debug, PartialEq, Eq)]
pub enum Call {
    /// Execute the event at the site.
    Exec(SiteId, EventId),
    /// Tell the marks of the site.
    Look(SiteId),
    /// Tell which events of the site may be executed.
    Enabled(SiteId),
    /// Tell whether the whole marking is accepting.
    Accepting,
}

/// What a call was answered. An execution is answered by one of the first six, a look by `Marks`, the question
/// what is enabled by `Can`, and the question whether the marking is accepting by `AllDone` or `Waits`.
#[derive(Drop)]
pub enum Outcome {
    /// The event was executed.
    Done,
    /// The site doesn't own the event.
    NotHere,
    /// The event is not included.
    Excluded,
    /// The least condition event of it that is included and not executed.
    Condition(EventId),
    /// The least milestone event of it that is included and pending.
    Milestone(EventId),
    /// The event could have been executed, and keeping the execution failed. No mark changed, and no call
    /// comes after it.
    Faulted,
    /// The marks that the site has.
    Marks(SiteMark),
    /// The events that the site owns and that may be executed.
    Can(EventSet),
    /// No event is included and pending: the marking is accepting.
    AllDone,
    /// The least event that is included and pending.
    Waits(EventId),
}

impl Outcome {
    ghost use Rattle.std.specs.Prelude.{◌≡◌};
    ghost use Rattle.dcr_journal.specs.Answer.{outcome_of, outcome_decided, verdict_of};

    /// What an execution that this cause blocks is answered, or one that no cause blocks.
    pub fn of_cause(cause: Option<Cause>) -> Outcome
        ensures { result ≡ outcome_of cause }
    {
        match cause {
            None => Outcome::Done,
            Some(Cause::Excluded) => Outcome::Excluded,
            Some(Cause::Condition(EventId(c))) => Outcome::Condition(EventId(c)),
            Some(Cause::Milestone(EventId(m))) => Outcome::Milestone(EventId(m)),
        }
    }

    /// What an execution is answered of which a site decides this, where it is done if the event is enabled.
    pub fn of_decision(decision: Decision) -> Outcome
        ensures { result ≡ outcome_decided decision }
    {
        match decision {
            Decision::NotHere => Outcome::NotHere,
            Decision::Enabled => Outcome::of_cause(None),
            Decision::Blocked(cause) => Outcome::of_cause(Some(cause)),
        }
    }

    /// What the question whether the marking is accepting is answered, where it waits for this event, or for none.
    pub fn verdict(waits: Option<EventId>) -> Outcome
        ensures { result ≡ verdict_of waits }
    {
        match waits {
            None => Outcome::AllDone,
            Some(e) => Outcome::Waits(e),
        }
    }

    /// The same outcome again. Takes no memory.
    pub fn copy(&self) -> Outcome
        ensures { result ≡ self.now }
    {
        let mut copy = Outcome::AllDone;
        self.copy_to(&mut copy);
        copy
    }

    /// Makes a value the same outcome. It is written where it is to stand, so that no room for sets is moved. Takes no
    /// memory.
    pub fn copy_to(&self, to: &mut Outcome)
        ensures { to.new ≡ self.now }
    {
        match self {
            Outcome::Done => *to = Outcome::Done,
            Outcome::NotHere => *to = Outcome::NotHere,
            Outcome::Excluded => *to = Outcome::Excluded,
            Outcome::Condition(e) => *to = Outcome::Condition(EventId(e.0)),
            Outcome::Milestone(e) => *to = Outcome::Milestone(EventId(e.0)),
            Outcome::Faulted => *to = Outcome::Faulted,
            Outcome::Marks(mark) => copy_marks(mark, to),
            Outcome::Can(set) => copy_set(set, to),
            Outcome::AllDone => *to = Outcome::AllDone,
            Outcome::Waits(e) => *to = Outcome::Waits(EventId(e.0)),
        }
    }
}

// Makes a value the answer to a look with these marks. It stands by itself, as the next one does, since room for the sets
// is cleared where it begins, which other outcomes need not wait for.
#[inline(never)]
fn copy_marks(mark: &SiteMark, to: &mut Outcome)
    ensures { to.new ≡ Marks mark.now }
{
    *to = Outcome::Marks(mark.copy());
}

// The same of the answer to the question what is enabled, with this set.
#[inline(never)]
fn copy_set(set: &EventSet, to: &mut Outcome)
    ensures { to.new ≡ Can set.now }
{
    *to = Outcome::Can(set.copy());
}

/// One call in the journal. Its place there is its number in the one order of all calls.
#[derive(Drop)]
pub struct Entry {
    /// The session that made the call.
    pub session: u32,
    /// How many calls that session had made before.
    pub seq: u32,
    pub call: Call,
    pub outcome: Outcome,
}

impl Entry {
    ghost use Rattle.std.specs.Prelude.{◌≡◌};

    // An entry to be written over.
    pub(crate) fn blank() -> Entry {
        Entry {
            session: 0,
            seq: 0,
            call: Call::Accepting,
            outcome: Outcome::AllDone,
        }
    }

    /// The same entry again. Takes no memory.
    pub fn copy(&self) -> Entry
        ensures { result ≡ self.now }
    {
        Entry {
            session: self.session,
            seq: self.seq,
            call: self.call,
            outcome: self.outcome.copy(),
        }
    }
}
