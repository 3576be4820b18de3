use crate::{Journal, MarkList};
use dcr_graph::Marking;
use dcr_set::EventId;

/// A run that has ended.
#[derive(Drop)]
pub struct Closed {
    /// The marking that the run began with.
    pub opening: Marking,
    /// Every call with its answer.
    pub history: Journal,
    /// The marks of each site, in order, at the end.
    pub marks: MarkList,
    /// The least atom that is included and pending at the end. None where that marking is accepting.
    pub waits: Option<EventId>,
}
