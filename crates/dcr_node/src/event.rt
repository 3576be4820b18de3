use dcr_journal::Call;
use dcr_set::{EventId, SiteId};
use dcr_wire::Asked;

/// What may happen to nodes and their network where executions are proposed. A message that is lost is one that is not
/// delivered again.
#[derive(Clone, Copy, Debug, PartialEq, Eq)]
pub enum WorldEvent {
    /// A session proposes an execution of the event at the site, and the journal node asks the site.
    Propose {
        session: u32,
        site: SiteId,
        event: EventId,
    },
    /// The journal node asks again for the proposal that is out.
    AskAgain,
    /// The journal node tells the site of the execution with this index in the site's stream.
    Item {
        site: SiteId,
        index: u32,
    },
    /// The message with this number, from 0 in the order sent, reaches its node.
    Deliver {
        message: u64,
    },
}

/// What may happen where any call is proposed, and sites are asked what they are to tell. A question or an answer that is
/// lost is one that is not delivered again.
#[derive(Clone, Copy, Debug, PartialEq, Eq)]
pub enum CallEvent {
    /// A session proposes a call. What it asks is sent by further events.
    ProposeCall { session: u32, call: Call },
    /// The journal node asks a site what it is to tell.
    AskSite { site: SiteId, asked: Asked },
    /// The question with this number, from 0 in the order sent, reaches its site.
    DeliverQuestion { question: u64 },
    /// The answer with this number, from 0 in the order sent, reaches the journal node.
    DeliverAnswer { answer: u64 },
}
