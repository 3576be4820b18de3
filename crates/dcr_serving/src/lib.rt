//! The sessions of a cluster, each over a link of its own: the links come in at a door, and workers serve them.
#![tactic(auto)]

mod desk;
mod end;
mod gather;
mod going;
mod record;
mod room;
mod seat;
mod serve;
mod work;

pub use end::{LinkEnd, ServeEnd};
pub use serve::serve_sessions;
