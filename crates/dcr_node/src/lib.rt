//! Sites apart: a journal node that orders and site nodes that decide, each with a state of its own, that talk by
//! messages alone over a network that may lose, repeat and reorder them.
#![tactic(auto)]

mod event;
mod gathered;
mod journal_node;
mod laws;
mod site_node;
mod stream;
mod world;

pub use event::{CallEvent, WorldEvent};
pub use gathered::Gathered;
pub use journal_node::{JournalNode, MOST_SESSIONS, Proposal};
pub use laws::{
    a_site_may_begin_anew, answers_are_told, asking_brings_the_answer, every_world_is_right,
    proposals_are_told, sites_heard_a_beginning,
};
pub use site_node::SiteNode;
pub use world::World;
