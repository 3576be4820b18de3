ghost use Rattle.std.specs.Prelude.{◌≡◌, ◌<◌};

use dcr_set::EventId;

/// A kind of relation, each from an atom a to an atom b.
#[derive(Clone, Copy, Debug, PartialEq, Eq)]
pub enum Kind {
    /// a is a condition event of b: b waits until a is executed or excluded.
    Condition,
    /// Executing a makes b pending.
    Response,
    /// a is a milestone event of b: b waits while a is included and pending.
    Milestone,
    /// Executing a includes b.
    Include,
    /// Executing a excludes b.
    Exclude,
    /// Executing a makes b not pending, before the responses of a are added.
    Cancel,
}

impl Kind {
    ghost use Rattle.dcr_graph.specs.Rules.{kind_number};

    /// The number of the kind, from 0 in the order above.
    pub fn number(self) -> usize
        ensures number { result ≡ kind_number self }
        ensures six { result < 6 }
    {
        match self {
            Kind::Condition => 0,
            Kind::Response => 1,
            Kind::Milestone => 2,
            Kind::Include => 3,
            Kind::Exclude => 4,
            Kind::Cancel => 5,
        }
    }
}

/// Why an event can't be executed: the first of these that holds at a marking.
#[derive(Clone, Copy, Debug, PartialEq, Eq)]
pub enum Cause {
    /// The event is not included.
    Excluded,
    /// The least condition event of it that is included and not executed.
    Condition(EventId),
    /// The least milestone event of it that is included and pending.
    Milestone(EventId),
}
