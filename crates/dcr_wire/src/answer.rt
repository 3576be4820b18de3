use dcr_graph::SiteMark;
use dcr_set::{EventId, EventSet, SiteId};

/// What a site tells that was asked.
#[derive(Drop)]
pub enum Told {
    /// The marks that it tracks.
    Marks(SiteMark),
    /// Which of its events may be executed.
    Can(EventSet),
    /// The first of its events for which it waits, or that it waits for none.
    Waits(Option<EventId>),
}

/// What a site tells to the question of this number, and nothing that wasn't asked.
#[derive(Drop)]
pub struct Answer {
    pub number: u32,
    pub site: SiteId,
    pub told: Told,
}
