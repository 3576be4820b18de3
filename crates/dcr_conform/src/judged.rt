use dcr_graph::Cause;
use dcr_set::EventId;

/// How a trace is judged. Its events are executed one after the other, up to the first that is unknown or that can't be.
#[derive(Clone, Copy, Debug, PartialEq, Eq)]
pub enum Judged {
    /// At this place, from 0, it has no name of an atom.
    Unknown(u32),
    /// At this place, from 0, the event can't be executed, for this cause.
    Refused(u32, Cause),
    /// All its events can be executed, and then the least event that is included and pending is this one. So many events
    /// it has.
    Waits(EventId, u32),
    /// All its events can be executed, and then no event is included and pending. So many events it has.
    Accepting(u32),
}
