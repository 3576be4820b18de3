use dcr_base::{Door, Link};
use dcr_link::WorkEnd;
use dcr_turn::{Pass, TurnName};

/// How the session over one link has ended.
#[derive(Drop)]
pub struct LinkEnd<L: Link> {
    /// The number of the session, which is that of the link among those that the door gave, counted from 0.
    pub session: u32,
    pub end: WorkEnd,
    /// What stays of the link.
    pub rest: L::Rest,
}

/// What came of the sessions over the links of a door.
#[derive(Drop)]
pub struct ServeEnd<B: Door, N: TurnName> {
    /// The passes of all sessions, in order.
    pub passes: Vec<Pass<N>>,
    pub door: B,
    /// Whether the door failed, and was asked no more.
    pub door_failed: bool,
    /// Whether memory was wanted and could not be had: for the serving itself, where no link was asked for, or by a
    /// session.
    pub no_memory: bool,
    /// One for each link that the door gave, in order.
    pub ends: Vec<LinkEnd<B::Link>>,
}
