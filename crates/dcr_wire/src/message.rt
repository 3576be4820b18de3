use dcr_set::{EventId, SiteId};
use dcr_site::Decision;

/// What a node tells another one. Proposals are numbered from 0 in the order of their entries in the journal, and so are
/// the executions that a site takes part in, in the site's stream.
#[derive(Clone, Copy, Debug, PartialEq, Eq)]
pub enum Message {
    /// The journal node asks a site whether it may execute an event, for the proposal of this number, once the site has
    /// heard of so many executions as there are in its stream.
    Ask {
        number: u32,
        site: SiteId,
        event: EventId,
        count: u32,
    },
    /// What the site decided of the event that it was asked for by the proposal of this number.
    Vote {
        number: u32,
        site: SiteId,
        decision: Decision,
    },
    /// The journal node tells a site of the execution with this index in the site's stream.
    Apply {
        site: SiteId,
        index: u32,
        event: EventId,
    },
}
