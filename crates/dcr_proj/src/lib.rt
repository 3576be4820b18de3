//! Covers by sites, the projection of a graph to what one site needs, and which sites take part in an event.
#![tactic(auto)]

mod cover;
mod masks;
mod network;
mod once;
mod projection;
mod rows;

pub use cover::Cover;
pub use network::{Network, participants_are_those_who_hear};
pub use projection::{Projection, project};
